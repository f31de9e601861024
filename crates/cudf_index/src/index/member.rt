//! A package of a status, and what it gives, kept by name where that is much.
ghost use Rattle.std.specs.Prelude.{◌≡◌, ◌≤◌, ◌^◌, [], ◌∷◌, bytes_eq, filter_map, ◌+◌, Some, option_map, IfOk};
ghost use Rattle.std.specs.List.{count_by, fold};
ghost use Rattle.std.specs.FinSet as set;
ghost use Rattle.cudf_value.specs.Promises.Views.{vpkg_view, list_view};
ghost use Rattle.cudf_index.specs.Promises.Members.{IsLeast};
ghost use Rattle.cudf_index.specs.Satisfaction.{package_pairs, unversioned_name, is_met_by, numbers_of, members};
ghost use Rattle.cudf_index.specs.Working.Kept.{is_met_by_entry, gives_all_of, Keeps};
ghost use Rattle.cudf_index.specs.Working.Members.{lesser_of, member_view};
ghost use Rattle.cudf_index.specs.Promises.Prices.{own_entries};
ghost use Rattle.cudf_index.specs.Working.Shares.{GivesMuch, AreShares};

use crate::index::gathered_names::{Entries, GatheredNames, MetCounts, summarize_all};
use crate::steps::Steps;
use cudf_problem::{Package, Problem, Status};
use cudf_value::{Vpkg, VpkgList, meets};
use indexmap::IndexSet;
use std::alloc::{AllocError, Global};
use std::marker::Model;

/// A package of a status, with its place in the universe, from 1.
#[derive(Clone, Copy)]
pub(crate) struct Member<'p, 't> {
    pub(crate) place: u64,
    pub(crate) package: &'p Package<'t>,
}

impl Member<'_, '_> {
    /// How many of the numbers that the package gives meet the vpkg.
    pub(crate) fn numbers_met(&self, vpkg: &Vpkg<'_>) -> usize
        ensures { result ≡ count_by (is_met_by (vpkg_view vpkg.now)) (package_pairs (member_view self.now).1) }
    {
        let entries = numbers_met(self.package.provides, vpkg);
        if self.version_meets(vpkg) {
            entries + 1
        } else {
            entries
        }
    }

    /// How often the package gives all versions of the name.
    pub(crate) fn unversioned(&self, name: &str) -> usize
        ensures { result ≡ count_by (λ given. bytes_eq given name.now) (filter_map unversioned_name (member_view self.now).1.provides) }
    {
        unversioned(self.package.provides, name)
    }

    /// The least number that the package gives of the name.
    pub(crate) fn least(&self, name: &str) -> Option<u64>
        ensures { IsLeast (numbers_of name.now (member_view self.now ∷ [])) result }
    {
        let entries = self.package.provides;
        if self.package.name == name {
            return least_given(Some(self.package.version), entries, name);
        }
        least_given(None, entries, name)
    }

    /// Whether the package's name and version meet the vpkg.
    fn version_meets(&self, vpkg: &Vpkg<'_>) -> bool
        ensures { result ≡ is_met_by (vpkg_view vpkg.now) (self.now.package.now.name.now, self.now.package.now.version) }
    {
        self.package.name == vpkg.name && meets(vpkg.bound, self.package.version)
    }
}

/// How many of the entries have a number that meets the vpkg.
fn numbers_met(entries: VpkgList<'_>, vpkg: &Vpkg<'_>) -> usize
    ensures met { result ≡ count_by (is_met_by_entry (vpkg_view vpkg.now)) (list_view entries.entry) }
    ensures small { result ≤ 2 ^ 63 }
{
    let mut met = 0;
    for entry in entries.vpkgs() {
        if is_met_by_entry(&entry, vpkg) {
            met += 1;
        }
    }
    met
}

/// How many of the entries give all versions of the name.
fn unversioned(entries: VpkgList<'_>, name: &str) -> usize
    ensures { result ≡ count_by (gives_all_of name.now) (list_view entries.entry) }
{
    let mut count = 0;
    for entry in entries.vpkgs() {
        if gives_all_of(&entry, name) {
            count += 1;
        }
    }
    count
}

/// The least of this number, if there is one, and those that the entries give of the name.
fn least_given(first: Option<u64>, entries: VpkgList<'_>, name: &str) -> Option<u64>
    ensures { result ≡ fold (lesser_of name.now) first (list_view entries.entry) }
{
    let mut least = first;
    for entry in entries.vpkgs() {
        least = lesser_of(least, &entry, name);
    }
    least
}

/// The lesser of this number, if there is one, and that which the entry gives of the name.
fn lesser_of(least: Option<u64>, entry: &Vpkg<'_>, name: &str) -> Option<u64>
    ensures { result ≡ lesser_of name.now least (vpkg_view entry.now) }
{
    let Some((_, number)) = entry.bound else {
        return least;
    };
    if entry.name != name {
        return least;
    }
    match least {
        Some(least) => Some(least.min(number)),
        None => Some(number),
    }
}

fn is_met_by_entry(entry: &Vpkg<'_>, vpkg: &Vpkg<'_>) -> bool
    ensures { result ≡ is_met_by_entry (vpkg_view vpkg.now) (vpkg_view entry.now) }
{
    match entry.bound {
        None => false,
        Some((_, number)) => entry.name == vpkg.name && meets(vpkg.bound, number),
    }
}

fn gives_all_of(entry: &Vpkg<'_>, name: &str) -> bool
    ensures { result ≡ gives_all_of name.now (vpkg_view entry.now) }
{
    entry.bound.is_none() && entry.name == name
}

/// A package with so many provisions has them kept by name: to go through fewer takes no longer
/// than to search among them.
const MANY: usize = 64;

/// What one package of a status gives, by name. Contracts see the package beside its place.
#[derive(Drop)]
pub(crate) struct PackageProvisions<'p, 't> {
    member: Member<'p, 't>,
    names: IndexSet<&'t str>,
    /// What the package gives of each name.
    entries: Vec<Entries>,
}

impl<'p, 't> Model for PackageProvisions<'p, 't> {
    ghost use Rattle.std.specs.Prelude.{List, ℕ, [], ◌∷◌, bytes_eq};
    ghost use Rattle.cudf_index.specs.Satisfaction.{Placed};
    ghost use Rattle.cudf_index.specs.Working.Kept.{Keeps, found};
    ghost use Rattle.cudf_index.specs.Working.Members.{member_view};
    ghost use Rattle.cudf_index.specs.Working.Shares.{GivesMuch};

    ghost Value = { Placed };

    ghost view = { λ s. member_view s.member };

    ghost invariant = { λ s. ((name : List ℕ) → Keeps name (member_view s.member ∷ []) (found (λ k. bytes_eq name k.now) s.names.keys s.entries.items)) × GivesMuch (member_view s.member) };
}

impl<'p, 't> PackageProvisions<'p, 't> {
    /// What this package gives.
    fn new(alloc: Global, member: Member<'p, 't>) -> Result<Self, AllocError>
        requires { GivesMuch (member_view member) }
        ensures { IfOk result (λ s. s ≡ member_view member.entry) }
    {
        let mut gathered = GatheredNames::new(alloc);
        gathered.add_package(alloc, member)?;
        let entries = summarize_all(alloc, &gathered.rows)?;
        Ok(PackageProvisions {
            member,
            names: gathered.names,
            entries,
        })
    }

    /// The package's place in the universe, from 1.
    pub(crate) fn place(&self) -> u64
        ensures { result ≡ self.now.0 }
    {
        self.member.place
    }

    /// How many of the numbers that the package gives meet the vpkg, and how often it gives all
    /// versions of the name.
    pub(crate) fn met(&self, vpkg: &Vpkg<'_>, steps: &mut Steps) -> MetCounts
        ensures numbers { result.numbers ≡ count_by (is_met_by (vpkg_view vpkg.now)) (package_pairs self.now.1) }
        ensures unversioned { result.unversioned ≡ count_by (λ given. bytes_eq given vpkg.now.name.now) (filter_map unversioned_name self.now.1.provides) }
        ensures price { steps.new ≤ steps.old + own_entries (Some self.now) }
        ensures grows { steps.old + 1 ≤ steps.new }
    {
        let _ = &self.member; // for the prover
        steps.tick();
        match self.kept(vpkg.name) {
            Some(entries) => MetCounts {
                numbers: entries.numbers.count(vpkg.bound, steps),
                unversioned: entries.unversioned,
            },
            None => MetCounts::none(),
        }
    }

    /// The least number that the package gives of the name.
    pub(crate) fn least(&self, name: &str) -> Option<u64>
        ensures { IsLeast (numbers_of name.now (self.now ∷ [])) result }
    {
        match self.kept(name) {
            Some(entries) => entries.numbers.least(&mut Steps::new()),
            None => None,
        }
    }

    /// What is kept of a name.
    fn kept(&self, name: &str) -> Option<&Entries>
        ensures { Keeps name.now (self.now ∷ []) (option_map (λ e. e.now) result) }
    {
        match self.names.get_index_of(&name) {
            Some(number) => self.entries.get(number),
            None => None,
        }
    }
}

/// What each package of the status with many provisions gives, in the order of the places.
pub(crate) fn shares_of<'p, 't>(
    alloc: Global,
    problem: &'p Problem<'t>,
    status: &Status,
) -> Result<Vec<PackageProvisions<'p, 't>>, AllocError>
    ensures { IfOk result (λ shares. AreShares (members (set.contains status.now) problem.now.packages) shares.items) }
{
    let mut shares = Vec::new(alloc);
    for (before, package) in problem.packages().iter().enumerate() {
        let place = before as u64 + 1;
        if status.holds(place) && package.provides.len() >= MANY {
            shares.push(PackageProvisions::new(alloc, Member { place, package })?)?;
        }
    }
    Ok(shares)
}
