//! Items, which are counted: those of names, of packages, and of what these recommend.
ghost use Rattle.std.specs.Prelude.{◌≡◌, ◌++◌, ◌∷◌, [], OnOk, not, filter, map, if◌then◌else◌, ◌<◌, ◌≤◌, ◌+◌, length, option_map, unwrap_or};
ghost use Rattle.std.specs.List.{flat_map};
ghost use Rattle.cudf_value.specs.Promises.Views.{clause_view, formula_view};
ghost use Rattle.cudf_job.specs.declared.criteria.Count.TheVariants.{NotUpToDate};
ghost use Rattle.cudf_referee.specs.Criteria.{greatest};
ghost use Rattle.cudf_better.specs.Better.{changed_item, has_item, names, all_packages, changes, item, missed_items};
ghost use Rattle.cudf_better.specs.Working.Sources.{is_version_at, name_items, version_at, missed_by};

use crate::encoding::ProblemIndexes;
use cudf_cnf::{add_places, positive_literal};
use cudf_job::Count;
use cudf_lrat::{Lists, Literal};
use cudf_value::{Clause, Formula};
use std::alloc::{AllocError, Global};
use std::marker::Model;

/// Items, each by the literals of which one is true, and those of which none is.
#[derive(Drop)]
pub(crate) struct Items {
    some: Lists<Literal>,
    none: Lists<Literal>,
}

impl Model for Items {
    ghost use Rattle.std.specs.Prelude.{◌≡◌, List, length};
    ghost use Rattle.cudf_lrat.specs.Lists.{lists_in};
    ghost use Rattle.cudf_better.specs.Better.{Item};
    ghost use Rattle.cudf_better.specs.Working.Definitions.{items_of};

    ghost Value = { List Item };

    ghost view = { λ i. items_of (lists_in i.some) (lists_in i.none) };

    ghost invariant = { λ i. length (lists_in i.some) ≡ length (lists_in i.none) };
}

impl Items {
    ghost use Rattle.std.specs.Prelude.{◌≡◌, ◌++◌, ◌∷◌, ◌<◌, [], OnOk, length, slice_index_or};
    ghost use Rattle.cudf_better.specs.Better.{item};

    /// None. Takes no memory.
    pub(crate) fn new(alloc: Global) -> Self
        ensures { result ≡ [] }
    {
        Items {
            some: Lists::new(alloc),
            none: Lists::new(alloc),
        }
    }

    /// How many there are.
    pub(crate) fn len(&self) -> usize
        ensures { result ≡ length self.now }
    {
        self.some.len()
    }

    /// Adds an item after the others. After an error there may be none.
    pub(crate) fn push(&mut self, some: &[Literal], none: &[Literal]) -> Result<(), AllocError>
        ensures { OnOk result (self.new ≡ self.old ++ item some.now none.now ∷ []) }
    {
        self.some.push(some)?;
        if self.none.push(none).is_err() {
            self.some.clear();
            self.none.clear();
            return Err(AllocError);
        }
        Ok(())
    }

    /// The literals of an item of which one is true, by the item's index from 0.
    pub(crate) fn some(&self, index: usize) -> &[Literal]
        requires { index < length self.now }
        ensures { result.now ≡ (slice_index_or self.now index (item [] [])).some }
    {
        self.some.get(index)
    }

    /// The literals of an item of which none is true, by the item's index from 0.
    pub(crate) fn none(&self, index: usize) -> &[Literal]
        requires { index < length self.now }
        ensures { result.now ≡ (slice_index_or self.now index (item [] [])).none }
    {
        self.none.get(index)
    }
}

/// Adds the item that a package of the name is installed, if it is wanted.
fn add_has(
    alloc: Global,
    source: &ProblemIndexes<'_, '_>,
    name: &str,
    is_wanted: bool,
    items: &mut Items,
) -> Result<(), AllocError>
    ensures { OnOk result (items.new ≡ items.old ++ (if is_wanted then has_item source.now.problem.now name.now ∷ [] else [])) }
{
    if !is_wanted {
        return Ok(());
    }
    let mut places = Vec::new(alloc);
    source.all.all_named(name, &mut places)?;
    let mut some = Vec::new(alloc);
    add_places(&mut some, &places)?;
    items.push(&some, &[])
}

/// Adds the item that a package of the name isn't as it was.
fn add_changed(
    alloc: Global,
    source: &ProblemIndexes<'_, '_>,
    name: &str,
    items: &mut Items,
) -> Result<(), AllocError>
    ensures { OnOk result (items.new ≡ items.old ++ changed_item source.now.problem.now name.now ∷ []) }
{
    let mut places = Vec::new(alloc);
    source.all.all_named(name, &mut places)?;
    let mut some = Vec::new(alloc);
    source.add_changes(&mut some, &places)?;
    items.push(&some, &[])
}

/// The greatest version of the packages at the places, 0 where there are none.
fn latest(source: &ProblemIndexes<'_, '_>, places: &[u64]) -> u64
    ensures { result ≡ greatest (map (version_at source.now.problem.now) places.now) }
{
    let mut latest = 0;
    for place in places {
        latest = source.version(*place).max(latest);
    }
    latest
}

/// Whether the package at a place has this version.
fn is_of_version(source: &ProblemIndexes<'_, '_>, version: u64, place: u64) -> bool
    ensures { result ≡ is_version_at source.now.problem.now version place }
{
    source.version(place) == version
}

/// Whether the package at a place has another version than this one.
fn is_of_other_version(source: &ProblemIndexes<'_, '_>, version: u64, place: u64) -> bool
    ensures { result ≡ not (is_version_at source.now.problem.now version place) }
{
    source.version(place) != version
}

/// Keeps the places whose packages have this version.
fn retain_version(source: &ProblemIndexes<'_, '_>, version: u64, places: &mut Vec<u64>)
    ensures { places.new.items ≡ filter (is_version_at source.now.problem.now version) places.old.items }
{
    places.retain(|place| is_of_version(source, version, *place));
}

/// Takes out the places whose packages have this version.
fn retain_other_versions(source: &ProblemIndexes<'_, '_>, version: u64, places: &mut Vec<u64>)
    ensures { places.new.items ≡ filter (λ n. not (is_version_at source.now.problem.now version n)) places.old.items }
{
    places.retain(|place| is_of_other_version(source, version, *place));
}

/// Adds the item that a package of the name is installed, and none of its greatest version, where there is another one.
fn add_outdated(
    alloc: Global,
    source: &ProblemIndexes<'_, '_>,
    name: &str,
    items: &mut Items,
) -> Result<(), AllocError>
    ensures { OnOk result (items.new ≡ items.old ++ name_items source.now.problem.now NotUpToDate name.now) }
{
    let mut places = Vec::new(alloc);
    source.all.all_named(name, &mut places)?;
    let version = latest(source, &places);
    let mut others = Vec::new(alloc);
    source.all.all_named(name, &mut others)?;
    retain_version(source, version, &mut places);
    retain_other_versions(source, version, &mut others);
    if others.is_empty() {
        return Ok(());
    }
    let mut some = Vec::new(alloc);
    add_places(&mut some, &others)?;
    let mut none = Vec::new(alloc);
    add_places(&mut none, &places)?;
    items.push(&some, &none)
}

/// Adds the items of a name.
fn add_named(
    alloc: Global,
    source: &ProblemIndexes<'_, '_>,
    count: Count,
    name: &str,
    items: &mut Items,
) -> Result<(), AllocError>
    ensures { OnOk result (items.new ≡ items.old ++ name_items source.now.problem.now count name.now) }
{
    let had = source.before.has_package(name);
    match count {
        Count::Removed => add_has(alloc, source, name, had, items),
        Count::New => add_has(alloc, source, name, !had, items),
        Count::Changed => add_changed(alloc, source, name, items),
        Count::NotUpToDate => add_outdated(alloc, source, name, items),
        Count::UnsatRecommends | Count::Touched => Ok(()),
    }
}

/// Adds the items of all names, each once.
pub(crate) fn add_names(
    alloc: Global,
    source: &ProblemIndexes<'_, '_>,
    count: Count,
    items: &mut Items,
) -> Result<(), AllocError>
    ensures { OnOk result (items.new ≡ items.old ++ flat_map (name_items source.now.problem.now count) (names source.now.problem.now)) }
{
    // So many names were met.
    let mut met = 0;
    for (index, package) in source.problem.packages().iter().enumerate() {
        if source.problem.number_at(index) == met {
            met += 1;
            add_named(alloc, source, count, package.name, items)?;
        }
    }
    Ok(())
}

/// Adds, for each package, the item that it isn't as it was.
pub(crate) fn add_touched(
    source: &ProblemIndexes<'_, '_>,
    items: &mut Items,
) -> Result<(), AllocError>
    ensures { OnOk result (items.new ≡ items.old ++ map (λ p. item (changes p ∷ []) []) (all_packages source.now.problem.now)) }
{
    for index in 0..source.problem.packages().len() {
        items.push(&[source.change_literal(index as u64 + 1)], &[])?;
    }
    Ok(())
}

/// Adds the item of a clause that the package at a place recommends, unless the package itself would do.
fn add_missed(
    alloc: Global,
    source: &ProblemIndexes<'_, '_>,
    place: u64,
    clause: &Clause<'_>,
    items: &mut Items,
) -> Result<(), AllocError>
    requires in_universe { place ≤ length source.now.problem.now.packages }
    ensures { OnOk result (items.new ≡ items.old ++ missed_by source.now.problem.now place (clause_view clause.now)) }
{
    let mut places = Vec::new(alloc);
    if source
        .all
        .all_satisfying_unless_at(clause, place, &mut places)?
    {
        return Ok(());
    }
    let mut none = Vec::new(alloc);
    add_places(&mut none, &places)?;
    items.push(&[positive_literal(place)], &none)
}

/// Adds, for each clause of a formula that the package at a place recommends, the item that it isn't satisfied, unless the
/// package itself would do.
fn add_missed_of(
    alloc: Global,
    source: &ProblemIndexes<'_, '_>,
    place: u64,
    formula: Formula<'_>,
    items: &mut Items,
) -> Result<(), AllocError>
    requires in_universe { place ≤ length source.now.problem.now.packages }
    ensures { OnOk result (items.new ≡ items.old ++ flat_map (missed_by source.now.problem.now place) (formula_view formula.entry)) }
{
    for clause in formula.clauses() {
        add_missed(alloc, source, place, &clause, items)?;
    }
    Ok(())
}

/// Adds, for each package, the items of the clauses that it recommends.
pub(crate) fn add_recommended(
    alloc: Global,
    source: &ProblemIndexes<'_, '_>,
    items: &mut Items,
) -> Result<(), AllocError>
    ensures { OnOk result (items.new ≡ items.old ++ flat_map (missed_items source.now.problem.now) (all_packages source.now.problem.now)) }
{
    for index in 0..source.problem.packages().len() {
        let place = index as u64 + 1;
        if let Some(formula) = source.problem.recommends(place) {
            add_missed_of(alloc, source, place, formula, items)?;
        }
    }
    Ok(())
}
