//! Atoms, and how those of a formula are read one after the other.
ghost use Rattle.std.specs.Prelude.{◌≡◌, true, [], ◌∷◌, ◌++◌, ◌<◌, Some, length, drop, position, slice_index, is_some, option_copied, option_map, unwrap_or, IfSome, IsTrue};
ghost use Rattle.std.specs.List.{list_all};
ghost use Rattle.cudf_value.specs.Lists.{atoms_in};
ghost use Rattle.cudf_value.specs.Promises.Views.{atom_view};
ghost use Rattle.cudf_value.specs.Working.Atoms.{atom_part, ends_atom, is_inside, end_text, end_rest, values, values_of};

use crate::vpkg::{Vpkg, parse_vpkg, split_vpkg};
use cudf_text::scan::{after, before};
use cudf_text::trim;

/// An atom of a clause.
#[derive(Clone, Copy, PartialEq, Eq, Hash)]
pub enum Atom<'t> {
    /// `true!`
    Yes,
    /// `false!`
    No,
    /// A vpkg.
    Is(Vpkg<'t>),
}

/// What ends an atom, with what follows it.
#[derive(Clone, Copy)]
pub(crate) enum AtomEnd<'t> {
    /// The end of the text.
    Text,
    /// A comma, which ends the clause too.
    Comma(&'t str),
    /// A bar.
    Bar(&'t str),
}

impl<'t> AtomEnd<'t> {
    ghost use Rattle.std.specs.Prelude.{◌≡◌, option_copied};
    ghost use Rattle.cudf_value.specs.Working.Atoms.{end_rest, bar_rest};

    /// What follows a comma or a bar.
    pub(crate) fn rest(self) -> Option<&'t str>
        ensures { option_copied result ≡ end_rest self.entry }
    {
        match self {
            AtomEnd::Comma(more) | AtomEnd::Bar(more) => Some(more),
            AtomEnd::Text => None,
        }
    }

    /// What follows a bar: the atoms of the same clause.
    #[inline(always)]
    pub(crate) fn behind_bar(self) -> Option<&'t str>
        ensures { option_copied result ≡ bar_rest self.entry }
    {
        match self {
            AtomEnd::Bar(more) => Some(more),
            AtomEnd::Comma(_) | AtomEnd::Text => None,
        }
    }
}

/// The first atom, with blanks or none round it, and what ends it. A vpkg is read in one pass, with
/// the blanks round it.
#[inline(always)]
pub(crate) fn first_atom(text: &str) -> (Option<Atom<'_>>, AtomEnd<'_>)
    ensures values { values text.now ≡ values_of (option_map atom_view result.0) result.1 }
    ensures shorter { IfSome (end_rest result.1) (λ rest. length rest < length text.now) }
{
    if let Some((vpkg, rest)) = split_vpkg(text) {
        if let Some(end) = end_at(rest) {
            return (Some(Atom::Is(vpkg)), end);
        }
    }
    first_atom_slow(text)
}

/// The first atom of a judged clause, and what follows its bar.
#[inline(always)]
pub(crate) fn next_atom(text: &str) -> (Atom<'_>, Option<&str>)
    requires sound { IsTrue (is_some (atoms_in (Some text.now))) }
    ensures taken { unwrap_or (atoms_in (Some text.now)) [] ≡ atom_view result.0 ∷ unwrap_or (atoms_in (option_copied result.1)) [] }
    ensures sound { IsTrue (is_some (atoms_in (option_copied result.1))) }
{
    let (atom, end) = first_atom(text);
    (atom.unwrap(), end.behind_bar())
}

/// What ends an atom here, if it ends here.
#[inline(always)]
fn end_at(text: &str) -> Option<AtomEnd<'_>>
    ensures { IfSome result (λ end. text.now ≡ end_text end) }
{
    match text.as_bytes().first() {
        None => Some(AtomEnd::Text),
        Some(b',') => Some(AtomEnd::Comma(after(text, 1))),
        Some(b'|') => Some(AtomEnd::Bar(after(text, 1))),
        Some(_) => None,
    }
}

/// The first atom, of any form, and what ends it; `None` where the text before the end is no atom. Its callees aren't
/// inlined, so that the fast path of `first_atom` stays in registers.
#[inline(always)]
fn first_atom_slow(text: &str) -> (Option<Atom<'_>>, AtomEnd<'_>)
    ensures values { values text.now ≡ values_of (option_map atom_view result.0) result.1 }
    ensures shorter { IfSome (end_rest result.1) (λ rest. length rest < length text.now) }
{
    let (part, end) = cut_atom(text);
    (read_atom(part), end)
}

/// The text of the first atom, and what ends it.
#[inline(never)]
fn cut_atom(text: &str) -> (&str, AtomEnd<'_>)
    ensures text { text.now ≡ result.0.now ++ end_text result.1 }
    ensures inside { list_all is_inside result.0.now ≡ true }
{
    match find_end(text.as_bytes()) {
        Some(n) => (before(text, n), end_from(text, n)),
        None => (text, AtomEnd::Text),
    }
}

/// Where the first comma or bar is.
fn find_end(bytes: &[u8]) -> Option<usize>
    ensures value { result ≡ position ends_atom bytes.now }
    ensures here { IfSome result (λ n. (n < length bytes.now) × IsTrue (ends_atom (slice_index bytes.now n))) }
{
    bytes.iter().position(|b| *b == b',' || *b == b'|')
}

/// The comma or the bar at this place, with what follows it.
fn end_from(text: &str, n: usize) -> AtomEnd<'_>
    requires inside { n < length text.now }
    requires end { IsTrue (ends_atom (slice_index text.now n)) }
    ensures { drop n text.now ≡ end_text result }
{
    let more = after(text, n + 1);
    if text.as_bytes()[n] == b',' {
        AtomEnd::Comma(more)
    } else {
        AtomEnd::Bar(more)
    }
}

/// The atom, with blanks or none round it.
#[inline(never)]
pub(crate) fn read_atom(part: &str) -> Option<Atom<'_>>
    ensures { option_map atom_view result ≡ atom_part part.now }
{
    match trim(part) {
        "true!" => Some(Atom::Yes),
        "false!" => Some(Atom::No),
        text => parse_vpkg(text).map(Atom::Is),
    }
}
