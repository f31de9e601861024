//! How many packages of a status give and satisfy, counted without a list of them.
ghost use Rattle.std.specs.Prelude.{◌≡◌, IfOk, option_map, ◌≤◌, ◌<◌, ◌+◌, ◌++◌, ◌∷◌, ◌^◌, ℕ, [], List, OnOk, length, slice_get};
ghost use Rattle.std.specs.List.{count_by, list_any};
ghost use Rattle.std.specs.Option.{is_none};
ghost use Rattle.cudf_value.specs.Promises.Views.{vpkg_view};
ghost use Rattle.cudf_index.specs.Promises.Counts.{count_pairs, differ};
ghost use Rattle.cudf_index.specs.Promises.Places.{gives_number};
ghost use Rattle.cudf_index.specs.Satisfaction.{meets_alone};
ghost use Rattle.cudf_index.specs.Working.Givers.{CountsOf, Counted, Gathers, count_meeting, count_within, runs, Adds, Sorts};
ghost use Rattle.cudf_index.specs.Working.Gathering.{BothAt};
ghost use Rattle.cudf_index.specs.Working.NumbersByPackage.{sole_number};

use crate::index::Index;
use crate::index::extents::{NumbersByPackage, differing};
use crate::index::gathered_names::{Provision, Row, is_below_one, push_some, put_numbers};
use crate::index::named_trees::NamedTrees;
use crate::index::sorted::SortedNumbers;
use crate::index::union::sort_and_dedup;
use cudf_value::{Relop, Vpkg};
use std::alloc::{AllocError, Global};
use std::marker::Model;

/// Counts the packages of a status that satisfy a vpkg or provide numbers of a name, without listing them. A question
/// costs a look-up by name and two searches.
///
/// Contracts see each package beside its place in the universe, in the order of the places.
#[derive(Drop)]
pub struct Counts<'i, 'p, 't> {
    index: &'i Index<'p, 't>,
    given: &'i NamedTrees<'t>,
    /// What is counted of each name, in the order of the names.
    givers: Vec<Givers>,
}

impl<'i, 'p, 't> Model for Counts<'i, 'p, 't> {
    ghost use Rattle.std.specs.Prelude.{◌≡◌, List, ℕ, bytes_eq};
    ghost use Rattle.cudf_index.specs.Satisfaction.{Placed};
    ghost use Rattle.cudf_index.specs.Working.Givers.{CountsOf};
    ghost use Rattle.cudf_index.specs.Working.Kept.{found};

    ghost Value = { List Placed };

    ghost view = { λ c. c.index.now };

    ghost invariant = { λ c. (name : List ℕ) → CountsOf name c.index.now (found (λ k. bytes_eq name k.now) c.given.now.gathered.names.keys c.givers.items) };
}

impl<'i, 'p, 't> Counts<'i, 'p, 't> {
    /// How many packages of the status alone satisfy the vpkg.
    pub fn meeting(&self, vpkg: &Vpkg<'_>) -> u128
        ensures { result ≡ count_by (meets_alone (vpkg_view vpkg.now)) self.now }
    {
        match self.of(vpkg.name) {
            Some(givers) => givers.meeting(vpkg.bound),
            None => 0,
        }
    }

    /// How many give a number of the name that meets the bound, as their version or by a versioned feature; features
    /// without a number don't count (own).
    pub fn giving(&self, name: &str, bound: Option<(Relop, u64)>) -> u128
        ensures { result ≡ count_by (gives_number name.now bound) self.now }
    {
        match self.of(name) {
            Some(givers) => givers.giving(bound),
            None => 0,
        }
    }

    /// How many pairs of packages give two different numbers of the name: each package with itself, and with each after
    /// it (own).
    pub fn differing(&self, name: &str) -> u128
        ensures { result ≡ count_pairs (differ name.now) self.now }
    {
        match self.of(name) {
            Some(givers) => givers.differing(),
            None => 0,
        }
    }

    /// What is counted of a name.
    fn of(&self, name: &str) -> Option<&Givers>
        ensures { CountsOf name.now self.now (option_map (λ g. g.now) result) }
    {
        let _ = &self.index; // for the prover
        match self.given.gathered.names.get_index_of(&name) {
            Some(number) => self.givers.get(number),
            None => None,
        }
    }
}

impl<'p, 't> Index<'p, 't> {
    /// The packages of the status, to be counted.
    ///
    /// # Errors
    ///
    /// `AllocError` where memory for what is counted is refused.
    pub fn counts(&self, alloc: Global) -> Result<Counts<'_, 'p, 't>, AllocError>
        ensures { IfOk result (λ counts. counts ≡ self.now) }
    {
        let _ = &self.problem; // for the prover
        Ok(Counts {
            index: self,
            given: &self.given,
            givers: givers_of(alloc, &self.given.gathered.rows)?,
        })
    }
}

/// What is counted of the packages that give a name. Counts are of a type in which no product of two numbers of packages
/// is too large.
#[derive(Drop)]
pub(crate) struct Givers {
    /// Of those that give numbers.
    numbers: NumbersByPackage,
    /// Of those of them that don't give all versions too.
    pure: NumbersByPackage,
    /// How many give all versions.
    unversioned: usize,
    /// How many pairs of them give two different numbers: each package with itself, and with each after it.
    differing: u128,
}

impl Givers {
    /// How many give a number, or all versions, that meets the bound.
    pub(crate) fn meeting(&self, bound: Option<(Relop, u64)>) -> u128
        ensures { result ≡ count_meeting bound self.now }
    {
        if is_below_one(bound) {
            return self.numbers.count(bound) as u128;
        }
        self.unversioned as u128 + self.pure.count(bound) as u128
    }

    /// How many give a number that meets the bound.
    pub(crate) fn giving(&self, bound: Option<(Relop, u64)>) -> u128
        ensures { result ≡ count_within bound self.now.numbers }
    {
        self.numbers.count(bound) as u128
    }

    /// How many pairs of them give two different numbers: each package with itself, and with each after it.
    pub(crate) fn differing(&self) -> u128
        ensures { result ≡ self.now.differing }
    {
        self.differing
    }
}

/// What is counted of each row.
pub(crate) fn givers_of(alloc: Global, rows: &[Row]) -> Result<Vec<Givers>, AllocError>
    ensures { IfOk result (λ givers. (k : ℕ) → BothAt (λ row. Counted (runs row)) (slice_get rows.now k) (slice_get givers.items k)) }
{
    let mut givers = Vec::with_capacity(alloc, rows.len())?;
    for row in rows {
        givers.push(counted(alloc, row.as_slice())?)?;
    }
    Ok(givers)
}

/// What is counted of a row.
fn counted(alloc: Global, row: &[Provision]) -> Result<Givers, AllocError>
    ensures { IfOk result (Counted (runs row.now)) }
{
    let mut gathering = Gathering::new(alloc);
    for run in row.chunk_by(|first, second| first.place == second.place) {
        gathering.add(run)?;
    }
    Ok(gathering.counted())
}

/// The numbers of a row as they are gathered.
#[derive(Drop)]
struct Gathering {
    numbers: PackageNumbers,
    pure: PackageNumbers,
    unversioned: usize,
    /// Those of one package.
    run: Vec<u64>,
}

impl Gathering {
    /// Of no package. It takes no memory.
    fn new(alloc: Global) -> Self
        ensures none { Gathers [] result }
        ensures unversioned { result.unversioned ≡ 0 }
    {
        Gathering {
            numbers: PackageNumbers::new(alloc),
            pure: PackageNumbers::new(alloc),
            unversioned: 0,
            run: Vec::new(alloc),
        }
    }

    /// Adds what a package gives.
    fn add(&mut self, run: &[Provision]) -> Result<(), AllocError>
        requires { self.old.unversioned < 2 ^ 63 }
        ensures more { OnOk result ((done : List (List Provision)) → Gathers done self.old → Gathers (done ++ run.now ∷ []) self.new) }
        ensures unversioned { OnOk result (self.new.unversioned ≤ self.old.unversioned + 1) }
    {
        put_numbers(run, &mut self.run)?;
        sort_and_dedup(&mut self.run);
        self.numbers.add(&self.run)?;
        if any_unversioned(run) {
            self.unversioned += 1;
            return Ok(());
        }
        self.pure.add(&self.run)
    }

    /// What is counted of all that was added.
    fn counted(self) -> Givers
        requires numbers { length self.numbers.only.items ≤ length self.numbers.least.items }
        requires pure { length self.pure.only.items ≤ length self.pure.least.items }
        ensures { (done : List (List Provision)) → Gathers done self → Counted done result }
    {
        let numbers = self.numbers.sorted();
        let differing = differing(&numbers);
        Givers {
            numbers,
            pure: self.pure.sorted(),
            unversioned: self.unversioned,
            differing,
        }
    }
}

/// Whether one of the provisions is of all versions.
fn any_unversioned(run: &[Provision]) -> bool
    ensures { result ≡ list_any (λ g. is_none g.number) run.now }
{
    run.iter().any(|provision| provision.number.is_none())
}

/// The numbers of packages, gathered package by package.
#[derive(Drop)]
pub(crate) struct PackageNumbers {
    least: Vec<u64>,
    greatest: Vec<u64>,
    each: Vec<u64>,
    only: Vec<u64>,
}

impl PackageNumbers {
    /// Of no package. It takes no memory.
    pub(crate) fn new(alloc: Global) -> Self
        ensures least { result.least.items ≡ [] }
        ensures greatest { result.greatest.items ≡ [] }
        ensures each { result.each.items ≡ [] }
        ensures only { result.only.items ≡ [] }
    {
        PackageNumbers {
            least: Vec::new(alloc),
            greatest: Vec::new(alloc),
            each: Vec::new(alloc),
            only: Vec::new(alloc),
        }
    }

    /// Adds the numbers of a package, which ascend, each once. None of them adds nothing.
    pub(crate) fn add(&mut self, numbers: &[u64]) -> Result<(), AllocError>
        ensures { OnOk result (Adds numbers.now self.old self.new) }
    {
        push_some(&mut self.least, numbers.first().copied())?;
        push_some(&mut self.greatest, numbers.last().copied())?;
        push_some(&mut self.only, sole_number(numbers))?;
        self.each.extend_from_slice(numbers)?;
        Ok(())
    }

    /// All of them, in order.
    pub(crate) fn sorted(self) -> NumbersByPackage
        requires { length self.only.items ≤ length self.least.items }
        ensures { Sorts self result }
    {
        NumbersByPackage {
            least: SortedNumbers::new(self.least),
            greatest: SortedNumbers::new(self.greatest),
            each: SortedNumbers::new(self.each),
            only: SortedNumbers::new(self.only),
        }
    }
}

/// The number, where there is one alone.
fn sole_number(numbers: &[u64]) -> Option<u64>
    ensures { result ≡ sole_number numbers.now }
{
    match numbers {
        [number] => Some(*number),
        _ => None,
    }
}
