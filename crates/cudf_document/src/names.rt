//! The names of a stanza's properties: its first property of a name, names without a meaning there, and its postmark.
ghost use Rattle.indexmap.specs.IndexSet.{insert_key};
ghost use Rattle.std.specs.Prelude.{◌≡◌, [], not, find, option_map, bytes_eq, IfOk, OnOk, ◌||◌, Some, is_some, codes};
ghost use Rattle.std.specs.List.{list_any, flat_map};
ghost use Rattle.cudf_text.specs.Promises.Views.{property_view, stanza_view};
ghost use Rattle.cudf_text.specs.declared.fault.Kind.TheVariants.{E16};
ghost use Rattle.cudf_value.specs.Parts.{look_up};
ghost use Rattle.cudf_problem.specs.Documents.{has_name, postmark, postmark_named};
ghost use Rattle.cudf_problem.specs.Values.{request_types};
ghost use Rattle.cudf_problem.specs.Promises.Packages.{is_preamble};
ghost use Rattle.cudf_document.specs.Faults.{least, fault_if};
ghost use Rattle.cudf_document.specs.ProblemFaults.{is_reserved_but, problem_misplaces, misplaced_faults};
ghost use Rattle.cudf_document.specs.SolutionFaults.{solution_misplaces};
ghost use Rattle.cudf_document.specs.Working.Misplaced.{misplaces};

use crate::declarations::is_reserved;
use crate::fault::{fault_if, keep_lesser};
use cudf_problem::{Mode, Postmark};
use cudf_text::{Fault, Kind, PropertyRef, StanzaRef};
use indexmap::IndexSet;
use std::alloc::{AllocError, Global};
use std::marker::Model;

/// How many names are looked through one by one at most, which is faster than a set.
const MAX_FIRST: usize = 24;

/// The names that were seen, each once.
#[derive(Drop)]
pub(crate) struct SeenNames<'t> {
    first: Vec<&'t str>,
    /// Those after them.
    rest: IndexSet<&'t str>,
}

impl<'t> Model for SeenNames<'t> {
    ghost use Rattle.std.specs.Prelude.{List, ℕ, map, ◌++◌};

    ghost Value = { List (List ℕ) };

    ghost view = { λ n. map (λ name. name.now) (n.first.items ++ n.rest.keys) };
}

impl<'t> SeenNames<'t> {
    pub(crate) fn new(alloc: Global) -> Self
        ensures { result ≡ [] }
    {
        SeenNames {
            first: Vec::new(alloc),
            rest: IndexSet::new(alloc),
        }
    }

    /// Forgets all names. The set is dropped, since clearing costs time in its capacity.
    pub(crate) fn clear(&mut self, alloc: Global)
        ensures { self.new ≡ [] }
    {
        if self.rest.is_empty() {
            self.first.clear();
        } else {
            *self = SeenNames::new(alloc);
        }
    }

    /// Adds the name, and says whether it is new.
    #[inline(always)]
    pub(crate) fn insert(&mut self, name: &'t str) -> Result<bool, AllocError>
        ensures is_new { IfOk result (λ is_new.
            is_new ≡ not (list_any (bytes_eq name.now) self.old)) }
        ensures names { OnOk result (self.new ≡ insert_key bytes_eq self.old name.now) }
    {
        if is_among(name, &self.first) {
            return Ok(false);
        }
        if self.first.len() < MAX_FIRST && self.rest.is_empty() {
            self.first.push(name)?;
            return Ok(true);
        }
        Ok(self.rest.insert(name)?)
    }

    /// Whether the name is one of them.
    pub(crate) fn contains(&self, name: &str) -> bool
        ensures { result ≡ list_any (bytes_eq name.now) self.now }
    {
        is_among(name, &self.first) || self.rest.contains(&name)
    }
}

/// Whether the name is one of these.
#[inline(always)]
fn is_among(name: &str, names: &[&str]) -> bool
    ensures { result ≡ list_any (λ seen. bytes_eq name.now seen.now) names.now }
{
    for seen in names {
        if are_equal(name, seen) {
            return true;
        }
    }
    false
}

/// Whether the names are equal. Most differ by their lengths already.
#[inline(always)]
#[tactic(auto, using(crate::proofs::NameLemmas::other_lengths))]
fn are_equal(name: &str, other: &str) -> bool
    ensures { result ≡ bytes_eq name.now other.now }
{
    name.len() == other.len() && are_equal_bytes(name, other)
}

/// Whether the names are equal, byte by byte. Not inlined: what prepares the comparison would be repeated before each
/// loop over names.
#[inline(never)]
fn are_equal_bytes(name: &str, other: &str) -> bool
    ensures { result ≡ bytes_eq name.now other.now }
{
    name == other
}

/// The first property of this name.
pub(crate) fn first_property_named<'s, 'a>(
    stanza: &'s StanzaRef<'a>,
    name: &str,
) -> Option<&'s PropertyRef<'a>>
    ensures { option_map (λ p. property_view p.now) result
        ≡ find (has_name name.now) (stanza_view stanza.now).properties }
{
    find_property(&stanza.properties, name)
}

fn find_property<'s, 'a>(
    properties: &'s [PropertyRef<'a>],
    name: &str,
) -> Option<&'s PropertyRef<'a>>
    ensures { option_map (λ p. p.now) result
        ≡ find (λ p. bytes_eq p.name.now name.now) properties.now }
{
    properties.iter().find(|p| p.name == name)
}

/// What document a stanza is of.
#[derive(Clone, Copy)]
pub(crate) enum DocumentKind {
    Problem,
    Solution,
}

/// Strictly, the first fault of a property whose name has no meaning in a stanza with this postmark.
pub(crate) fn misplaced_fault(
    document: DocumentKind,
    mode: Mode,
    mark: Option<Postmark>,
    stanza: &StanzaRef<'_>,
) -> Option<Fault>
    ensures { result
        ≡ least (misplaced_faults mode (misplaces document mark) (stanza_view stanza.now).properties) }
{
    match mode {
        Mode::Lenient => None,
        Mode::Strict => first_misplaced(document, mark, stanza),
    }
}

/// The first E16 of a stanza, which has none without a postmark.
fn first_misplaced(
    document: DocumentKind,
    mark: Option<Postmark>,
    stanza: &StanzaRef<'_>,
) -> Option<Fault>
    ensures { result
        ≡ least (flat_map (λ p. fault_if (misplaces document mark p.name) p.line E16) (stanza_view stanza.now).properties) }
{
    match mark {
        Some(mark) => misplaced_under(document, mark, stanza),
        None => None,
    }
}

/// The first E16 of a stanza with this postmark; a package has none.
fn misplaced_under(document: DocumentKind, mark: Postmark, stanza: &StanzaRef<'_>) -> Option<Fault>
    ensures { result
        ≡ least (flat_map (λ p. fault_if (misplaces document (Some mark) p.name) p.line E16) (stanza_view stanza.now).properties) }
{
    match mark {
        Postmark::Package => None,
        Postmark::Preamble | Postmark::Request => first_of_all(document, mark, stanza),
    }
}

/// The first E16 of a stanza with this postmark, each of whose names is tested.
fn first_of_all(document: DocumentKind, mark: Postmark, stanza: &StanzaRef<'_>) -> Option<Fault>
    ensures { result
        ≡ least (flat_map (λ p. fault_if (misplaces document (Some mark) p.name) p.line E16) (stanza_view stanza.now).properties) }
{
    let mut first = None;
    for property in &stanza.properties {
        let is_misplaced = is_misplaced(document, mark, property.name);
        keep_lesser(&mut first, fault_if(is_misplaced, property.line, Kind::E16));
    }
    first
}

/// Whether the name has no meaning in a stanza with this postmark.
fn is_misplaced(document: DocumentKind, mark: Postmark, name: &str) -> bool
    ensures { result ≡ misplaces document (Some mark) name.now }
{
    match document {
        DocumentKind::Problem => is_misplaced_in_problem(mark, name),
        DocumentKind::Solution => is_misplaced_in_solution(mark, name),
    }
}

fn is_misplaced_in_problem(mark: Postmark, name: &str) -> bool
    ensures { result ≡ problem_misplaces (Some mark) name.now }
{
    match mark {
        Postmark::Preamble => is_reserved_but("preamble", name),
        Postmark::Package => false,
        Postmark::Request => !is_of_request(name),
    }
}

fn is_misplaced_in_solution(mark: Postmark, name: &str) -> bool
    ensures { result ≡ solution_misplaces (Some mark) name.now }
{
    match mark {
        Postmark::Preamble => is_reserved_but("preamble", name),
        Postmark::Package => false,
        Postmark::Request => is_reserved_but("request", name),
    }
}

/// Whether the name is a reserved one, other than the stanza's own.
fn is_reserved_but(own: &str, name: &str) -> bool
    ensures { result ≡ is_reserved_but own.now name.now }
{
    is_reserved(name) && name != own
}

/// Whether a property of a request may have the name.
fn is_of_request(name: &str) -> bool
    ensures { result ≡ (bytes_eq name.now (codes "request") || is_some (look_up name.now request_types)) }
{
    matches!(name, "request" | "install" | "remove" | "upgrade")
}

/// The stanza's postmark, if its first property is one.
pub(crate) fn postmark_of(stanza: &StanzaRef<'_>) -> Option<Postmark>
    ensures { result ≡ postmark (stanza_view stanza.now) }
{
    match stanza.properties.as_slice() {
        [first, ..] => mark_named(first.name),
        [] => None,
    }
}

fn mark_named(name: &str) -> Option<Postmark>
    ensures { result ≡ postmark_named name.now }
{
    match name {
        "preamble" => Some(Postmark::Preamble),
        "package" => Some(Postmark::Package),
        "request" => Some(Postmark::Request),
        _ => None,
    }
}

/// Whether the stanza is a preamble, in a right place or not.
pub(crate) fn is_preamble(stanza: &StanzaRef<'_>) -> bool
    ensures { result ≡ is_preamble (stanza_view stanza.now) }
{
    matches!(postmark_of(stanza), Some(Postmark::Preamble))
}
