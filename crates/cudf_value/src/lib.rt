//! Typed values of CUDF 2.0 and their printing. A reader gives the value exactly where the whole text is of the type.
#![tactic(auto)]

ghost use Rattle.std.specs.Prelude.{not, is_some, slice_index, IsTrue};
ghost use Rattle.std.specs.Char.{is_ascii_alphabetic};
ghost use Rattle.cudf_text.specs.Chars.{is_blank_text, is_ident};
ghost use Rattle.cudf_value.specs.Parts.{look_up};
ghost use Rattle.cudf_value.specs.Types.{types};
ghost use Rattle.cudf_value.specs.Words.{is_pkgname};
ghost use Rattle.cudf_value.specs.Promises.Laws.{IsCutAtCommas, IsMadeOfTokens, IsDeclaredSpaced, IsEnumDeclared, IsPosintBound, IsQuotableAsMade, IsReadBack, IsReadSpaced, PiecesJoinToText};

mod atom;
mod declaration;
mod entry;
mod formula;
mod number;
mod value_type;
mod vpkg;
mod vpkglist;

pub use atom::Atom;
pub use cudf_text::is_ident;
pub use declaration::{Declaration, declaration_pieces, read_declaration, read_declarations};
pub use formula::reading::read_formula;
pub use formula::{Atoms, Clause, Clauses, Formula};
pub use number::{is_pkgname, read_bool, read_int, read_nat, read_posint};
pub use value_type::{ValueType, fits, is_of_type};
pub use vpkg::{Relop, Vpkg, meets, read_veqpkg, read_vpkg};
pub use vpkglist::reading::{read_veqpkglist, read_vpkglist};
pub use vpkglist::{VpkgList, Vpkgs, first_invalid_entry};

/// Laws over the definitions alone, each the contract of a function without effect.
pub mod laws {
    use crate::vpkg::Relop;

    /// What is printed of a vpkg of a `pkgname`, without a bound or with one whose number is at least 1, is read back as it.
    pub fn read_back(name: &str, bound: Option<(Relop, u64)>)
        requires name { IsTrue (is_pkgname name.now) }
        requires bound { IsPosintBound bound }
        ensures { IsReadBack name.now bound }
    {}

    /// A `pkgname`, an operator and a `posint` are a vpkg, with blanks or none between them.
    pub fn spaced(_name: &str, _gap: &str, _relop: Relop, _space: &str, _number: &str)
        requires name { IsTrue (is_pkgname _name.now) }
        requires gap { IsTrue (is_blank_text _gap.now) }
        requires space { IsTrue (is_blank_text _space.now) }
        ensures { IsReadSpaced _name.now _gap.now _relop _space.now _number.now }
    {}

    /// An `ident`, a colon and a type's word declare the ident of this type, with blanks or none round the colon; what is
    /// after the word is read as nothing or a default.
    pub fn declared(_name: &str, _gap: &str, _space: &str, _word: &str, _rest: &str)
        requires name { IsTrue (is_ident _name.now) }
        requires gap { IsTrue (is_blank_text _gap.now) }
        requires space { IsTrue (is_blank_text _space.now) }
        requires word { IsTrue (is_some (look_up _word.now types)) }
        requires rest { IsTrue (not (is_ascii_alphabetic (slice_index _rest.now 0))) }
        ensures { IsDeclaredSpaced _name.now _gap.now _space.now _word.now _rest.now }
    {}

    /// An `ident`, a colon, `enum` and `ident`s between commas in brackets, one at least, declare the ident of the enum of
    /// these, in their order, with blanks or none round the colon, before the brackets and round each of them; what is
    /// after the brackets is read as nothing or a default.
    pub fn declared_enum(_name: &str, _gap: &str, _space: &str, _blanks: &str, _rest: &str)
        requires name { IsTrue (is_ident _name.now) }
        requires gap { IsTrue (is_blank_text _gap.now) }
        requires space { IsTrue (is_blank_text _space.now) }
        requires blanks { IsTrue (is_blank_text _blanks.now) }
        ensures declares { IsEnumDeclared _name.now _gap.now _space.now _blanks.now _rest.now }
    {}

    /// A declaration's pieces, with commas between them, are its text; and a text of characters, quoted texts and texts in
    /// brackets is cut at the commas among its characters, never inside quotes or brackets. No other text has pieces, and
    /// none is between quotes but one of characters and escapes.
    pub fn cut(text: &[u8])
        ensures joined { PiecesJoinToText text.now }
        ensures commas { IsCutAtCommas }
        ensures made { IsMadeOfTokens text.now }
        ensures quotable { IsQuotableAsMade text.now }
    {}
}
