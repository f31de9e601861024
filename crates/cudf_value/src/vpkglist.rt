//! The types `vpkglist` and `veqpkglist`. Lists are texts that were judged: their vpkgs are read of them as they are asked for.
ghost use Rattle.std.specs.Prelude.{◌≡◌, ◌<◌, ◌≤◌, ◌^◌, ◌==◌, [], length, count_by, unwrap_or, option_copied, is_some, IsTrue, ◌+◌, true, option_map, IfSome};
ghost use Rattle.std.specs.Str.{byte};
ghost use Rattle.std.specs.Option.{option_map_or};
ghost use Rattle.cudf_text.specs.Chars.{trim};
ghost use Rattle.cudf_value.specs.Parts.{read_parts, comma_list, look_up};
ghost use Rattle.cudf_value.specs.Formulas.{vpkglist, veqpkglist, clause};
ghost use Rattle.cudf_value.specs.Lists.{vpkgs_in};
ghost use Rattle.cudf_value.specs.Working.Entries.{vpkg_part};
ghost use Rattle.cudf_value.specs.Misfits.{type_word, entry_tests, misfit};
ghost use Rattle.cudf_value.specs.Promises.Types.{type_view};

pub(crate) mod reading;

use crate::atom::read_atom;
use crate::entry::first_entry;
use crate::value_type::ValueType;
use crate::vpkg::{Vpkg, read_veqpkg, read_vpkg};
use cudf_text::trim;

/// Vpkgs in the order of the text. Two lists are equal where their texts are.
#[derive(Clone, Copy, Debug, PartialEq, Eq)]
pub struct VpkgList<'t> {
    text: &'t str,
    ghost sound: { IsTrue (is_some (vpkglist text.now)) },
    // So that its vpkgs can be numbered.
    pub ghost few: { length (unwrap_or (vpkglist text.now) []) ≤ 2 ^ 63 },
}

/// The vpkgs of a list, in the order of the text.
#[derive(Clone, Copy)]
pub struct Vpkgs<'t> {
    rest: Option<&'t str>,
    ghost sound: { IsTrue (is_some (vpkgs_in (option_copied rest))) },
}

impl<'t> VpkgList<'t> {
    ghost use Rattle.std.specs.Prelude.{◌≡◌, ◌≤◌, ◌^◌, [], length};
    ghost use Rattle.cudf_value.specs.Promises.Views.{list_view, vpkgs_view};

    /// The empty one.
    #[tactic(auto, unfolding(crate::specs::Formulas::vpkglist))]
    pub fn empty() -> Self
        ensures { list_view result ≡ [] }
    {
        VpkgList { text: "" }
    }

    /// How many vpkgs it has.
    #[tactic(auto, unfolding(crate::specs::Formulas::vpkglist))]
    pub fn len(self) -> usize
        ensures len { result ≡ length (list_view self.entry) }
        ensures bound { result ≤ 2 ^ 63 }
    {
        if self.text.is_empty() {
            return 0;
        }
        comma_count(self.text.as_bytes()) + 1
    }

    /// Its vpkgs.
    #[tactic(auto, unfolding(crate::specs::Formulas::vpkglist))]
    pub fn vpkgs(self) -> Vpkgs<'t>
        ensures vpkgs { vpkgs_view result ≡ list_view self.entry }
        ensures few { length (list_view self.entry) ≤ 2 ^ 63 }
    {
        if self.text.is_empty() {
            return Vpkgs { rest: None };
        }
        Vpkgs {
            rest: Some(self.text),
        }
    }
}

impl<'t> Iterator for Vpkgs<'t> {
    ghost use Rattle.std.specs.Iterator.{YieldsFirstBy, item_count};
    ghost use Rattle.cudf_value.specs.Promises.Views.{vpkg_view, vpkgs_view};

    type Item = Vpkg<'t>;

    ghost next_gives = { YieldsFirstBy vpkg_view vpkgs_view };

    ghost remaining = { item_count vpkgs_view };

    #[inline(always)]
    fn next(&mut self) -> Option<Vpkg<'t>> {
        let text = self.rest?;
        let (vpkg, rest) = first_entry(text, false);
        self.rest = rest;
        vpkg
    }
}

/// How many commas there are.
fn comma_count(bytes: &[u8]) -> usize
    ensures value { result ≡ count_by (λ b. b == byte ",") bytes.now }
    ensures bound { result < 2 ^ 63 }
{
    bytes.iter().filter(|b| **b == b',').count()
}

/// Whether the text, which has no blanks round it, is a `vpkglist`.
#[tactic(auto, unfolding(crate::specs::Formulas::vpkglist))]
pub(crate) fn is_vpkglist_text(text: &str) -> bool
    ensures { result ≡ is_some (vpkglist text.now) }
{
    is_list(text, false)
}

/// Whether the text, which has no blanks round it, is a `veqpkglist`.
#[tactic(auto, unfolding(crate::specs::Formulas::veqpkglist))]
pub(crate) fn is_veqpkglist_text(text: &str) -> bool
    ensures { result ≡ is_some (veqpkglist text.now) }
{
    is_list(text, true)
}

fn is_list(text: &str, exact: bool) -> bool
    ensures { result ≡ is_some (comma_list (vpkg_part exact) text.now) }
{
    text.is_empty() || are_entries(text, exact)
}

fn are_entries(text: &str, exact: bool) -> bool
    ensures { result ≡ is_some (read_parts (byte ",") (vpkg_part exact) text.now) }
{
    let mut rest = text;
    'parts: loop { // for the prover
        let (entry, next) = first_entry(rest, exact);
        if entry.is_none() {
            return false;
        }
        match next {
            Some(more) => rest = more,
            None => return true,
        }
    }
}

/// Where the values of the type are lists (`vpkgformula`, `vpkglist`, `veqpkglist`; CUDF 2.0, the type library), the
/// number, from 1, of the first entry between commas that is no clause, `vpkg` or `veqpkg`, with blanks or none round
/// it (own).
///
/// `None` is answered of other types, and where each entry is one. The empty text has one entry, an empty one, so 1 is
/// answered of it though it is a value of each of these types: ask this of a text that isn't of the type. Takes no
/// memory.
pub fn first_invalid_entry(kind: &ValueType<'_>, text: &str) -> Option<u64>
    ensures { result ≡ misfit (type_word (type_view kind.now)) (trim text.now) }
{
    let index = first_invalid_index(kind, trim(text))?;
    Some(index as u64 + 1)
}

/// The index, from 0, of the first entry that isn't of the type; `None` where all are. The text has no blanks round it.
fn first_invalid_index(kind: &ValueType<'_>, text: &str) -> Option<usize>
    ensures value { option_map (λ n. n + 1) result ≡ misfit (type_word (type_view kind.now)) text.now }
    ensures inside { IfSome result (λ n. n ≤ length text.now) }
{
    text.split(',').position(|entry| !is_entry(kind, entry))
}

/// Whether the text can be an entry of the type, with blanks or none round it. Types whose values aren't lists refuse
/// none.
fn is_entry(kind: &ValueType<'_>, entry: &str) -> bool
    ensures { result ≡ option_map_or (λ test. test entry.now) (look_up (type_word (type_view kind.now)) entry_tests) true }
{
    match kind {
        ValueType::Formula => is_clause(entry),
        ValueType::List => read_vpkg(entry).is_some(),
        ValueType::ExactList => read_veqpkg(entry).is_some(),
        _ => true,
    }
}

/// Whether the text is a clause of a formula, with blanks or none round it.
fn is_clause(text: &str) -> bool
    ensures { result ≡ is_some (clause text.now) }
{
    text.split('|').all(|atom| read_atom(atom).is_some())
}
