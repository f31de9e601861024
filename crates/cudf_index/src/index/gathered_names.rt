//! What the packages of a status give, gathered by name.
ghost use Rattle.std.specs.Prelude.{◌≡◌, ◌<◌, ℕ, List, Some, [], ◌∷◌, ◌++◌, ◌||◌, map, filter_map, length, false, bytes_eq, cond, OnOk, IfOk, slice_get, option_to_list, ◌≤◌, ◌+◌, ◌*◌, nat_lt, if◌then◌else◌};
ghost use Rattle.std.specs.List.{position_or_len, list_any, count_by};
ghost use Rattle.cudf_value.specs.Promises.Views.{list_view};
ghost use Rattle.cudf_value.specs.Vpkgs.{meets};
ghost use Rattle.cudf_index.specs.Working.Gathering.{row_of, row_items, has_row, AreFilled, given_by, provisions_of, sole_place, Completes, CompletesAt};
ghost use Rattle.cudf_index.specs.Working.Members.{member_view};
ghost use Rattle.cudf_index.specs.Promises.Prices.{digits};
ghost use Rattle.cudf_index.specs.Satisfaction.{is_below_one};
ghost use Rattle.cudf_index.specs.Working.Rows.{provisions_in};

use crate::index::member::Member;
use crate::index::sorted::SortedNumbers;
use crate::steps::Steps;
use cudf_value::{Relop, VpkgList};
use indexmap::IndexSet;
use std::alloc::{AllocError, Global};
use std::marker::Model;
use std::slice;

/// What a package gives of a name: a number, or all versions.
#[derive(Clone, Copy)]
pub(crate) struct Provision {
    pub(crate) number: Option<u64>,
    pub(crate) place: u64,
    /// Whether it is the package's own name and version, and no feature.
    pub(crate) is_version: bool,
}

/// The provisions of each name, in the order of the places.
#[derive(Drop)]
pub(crate) struct GatheredNames<'t> {
    pub(crate) names: IndexSet<&'t str>,
    pub(crate) rows: Vec<Row>,
}

impl<'t> GatheredNames<'t> {
    pub(crate) fn new(alloc: Global) -> Self
        ensures lengths { length result.rows.items ≡ length result.names.keys }
        ensures rows { (f : List ℕ) → row_of f result ≡ [] }
        ensures filled { AreFilled result }
    {
        GatheredNames {
            names: IndexSet::new(alloc),
            rows: Vec::new(alloc),
        }
    }

    /// Adds one provision of the name.
    pub(crate) fn add(
        &mut self,
        alloc: Global,
        name: &'t str,
        provision: Provision,
    ) -> Result<(), AllocError>
        requires { length self.old.rows.items ≡ length self.old.names.keys }
        ensures lengths { OnOk result (length self.new.rows.items ≡ length self.new.names.keys) }
        ensures rows { OnOk result ((f : List ℕ) → row_of f self.new ≡ row_of f self.old ++ cond (bytes_eq name.now f) (provision ∷ []) []) }
        ensures filled { OnOk result (AreFilled self.old → AreFilled self.new) }
    {
        let number = self.number_of(alloc, name)?;
        self.rows[number].push(alloc, provision)?;
        Ok(())
    }

    /// The number of the name, which gets a row without provisions if it is new.
    fn number_of(&mut self, alloc: Global, name: &'t str) -> Result<usize, AllocError>
        requires { length self.old.rows.items ≡ length self.old.names.keys }
        ensures lengths { OnOk result (length self.new.rows.items ≡ length self.new.names.keys) }
        ensures number { IfOk result (λ n. n ≡ position_or_len (λ k. bytes_eq name.now k.now) self.new.names.keys) }
        ensures within { IfOk result (λ n. n < length self.new.names.keys) }
        ensures names { OnOk result ((f : List ℕ) → has_row f self.new ≡ (has_row f self.old || bytes_eq f name.now)) }
        ensures rows { OnOk result ((f : List ℕ) → row_of f self.new ≡ row_of f self.old) }
    {
        let (number, is_new) = self.names.insert_full(name)?;
        if is_new {
            self.rows.push(Row::none(alloc))?;
            return Ok(number);
        }
        Ok(number)
    }

    /// The provisions of the name with this number.
    pub(crate) fn row(&self, number: usize) -> &[Provision]
        ensures { result.now ≡ row_items (slice_get self.now.rows.items number) }
    {
        match self.rows.get(number) {
            Some(row) => row.as_slice(),
            None => &[],
        }
    }

    /// Adds all that the package gives.
    pub(crate) fn add_package(
        &mut self,
        alloc: Global,
        member: Member<'_, 't>,
    ) -> Result<(), AllocError>
        requires { length self.old.rows.items ≡ length self.old.names.keys }
        ensures lengths { OnOk result (length self.new.rows.items ≡ length self.new.names.keys) }
        ensures rows { OnOk result ((f : List ℕ) → row_of f self.new ≡ row_of f self.old ++ given_by f (member_view member.entry)) }
        ensures filled { OnOk result (AreFilled self.old → AreFilled self.new) }
    {
        let place = member.place;
        let package = member.package;
        let own = Provision {
            number: Some(package.version),
            place,
            is_version: true,
        };
        self.add(alloc, package.name, own)?;
        self.add_entries(alloc, package.provides, place)?;
        Ok(())
    }

    fn add_entries(
        &mut self,
        alloc: Global,
        entries: VpkgList<'t>,
        place: u64,
    ) -> Result<(), AllocError>
        requires { length self.old.rows.items ≡ length self.old.names.keys }
        ensures lengths { OnOk result (length self.new.rows.items ≡ length self.new.names.keys) }
        ensures rows { OnOk result ((f : List ℕ) → row_of f self.new ≡ row_of f self.old ++ provisions_of false f place (list_view entries.entry)) }
        ensures filled { OnOk result (AreFilled self.old → AreFilled self.new) }
    {
        for entry in entries.vpkgs() {
            let number = entry.bound.map(|(_, number)| number);
            let feature = Provision {
                number,
                place,
                is_version: false,
            };
            self.add(alloc, entry.name, feature)?;
        }
        Ok(())
    }
}

/// What is kept of each row.
pub(crate) fn summarize_all(alloc: Global, rows: &[Row]) -> Result<Vec<Entries>, AllocError>
    ensures { IfOk result (λ entries. (k : ℕ) → CompletesAt (slice_get rows.now k) (slice_get entries.items k)) }
{
    let mut entries = Vec::with_capacity(alloc, rows.len())?;
    for row in rows {
        entries.push(summarize(alloc, row.as_slice())?)?;
    }
    Ok(entries)
}

/// What is kept of a row: its numbers in ascending order, how many provisions have none, the
/// place where it is the only one, and whether there is a package's version.
pub(crate) fn summarize(alloc: Global, row: &[Provision]) -> Result<Entries, AllocError>
    ensures { IfOk result (Completes row.now) }
{
    if let [provision] = row {
        return Ok(summarize_one(alloc, *provision));
    }
    let mut numbers = Vec::with_capacity(alloc, row.len())?;
    put_numbers(row, &mut numbers)?;
    let unversioned = row.len() - numbers.len();
    Ok(Entries {
        numbers: SortedNumbers::new(numbers),
        unversioned,
        sole: sole_place(row),
        is_package: any_version(row),
    })
}

/// Puts the numbers of the provisions into the list, in place of what was there.
pub(crate) fn put_numbers(row: &[Provision], numbers: &mut Vec<u64>) -> Result<(), AllocError>
    ensures { OnOk result (numbers.new.items ≡ filter_map (λ g. g.number) row.now) }
{
    numbers.clear();
    for provision in row {
        push_some(numbers, provision.number)?;
    }
    Ok(())
}

/// What is kept of a row of one provision, as most rows are. It takes no memory.
fn summarize_one(alloc: Global, provision: Provision) -> Entries
    ensures { Completes (provision ∷ []) result }
{
    let Provision {
        number,
        place,
        is_version,
    } = provision;
    let (numbers, unversioned) = match number {
        Some(number) => (SortedNumbers::one(number), 0),
        None => (SortedNumbers::none(alloc), 1),
    };
    Entries {
        numbers,
        unversioned,
        sole: Some(place),
        is_package: is_version,
    }
}

/// The place of these provisions, where all are at the same.
fn sole_place(row: &[Provision]) -> Option<u64>
    ensures { result ≡ sole_place (map (λ g. g.place) row.now) }
{
    match row {
        [] => None,
        [first, ..] => {
            let place = first.place;
            if row.iter().all(|provision| provision.place == place) {
                Some(place)
            } else {
                None
            }
        }
    }
}

/// Whether one of the provisions is a package's own version.
fn any_version(row: &[Provision]) -> bool
    ensures { result ≡ list_any (λ g. g.is_version) row.now }
{
    row.iter().any(|provision| provision.is_version)
}

/// Adds the number after the others, if there is one.
pub(crate) fn push_some(numbers: &mut Vec<u64>, number: Option<u64>) -> Result<(), AllocError>
    ensures { OnOk result (numbers.new.items ≡ numbers.old.items ++ option_to_list number) }
{
    match number {
        Some(number) => {
            numbers.push(number)?;
            Ok(())
        }
        None => Ok(()),
    }
}

/// What a status gives of a name: the numbers, ascending and with repeats, how many unversioned
/// provisions, the place of the package that alone gives it, if one does, and whether one of the
/// packages that give it has the name.
#[derive(Drop)]
pub(crate) struct Entries {
    pub(crate) numbers: SortedNumbers,
    pub(crate) unversioned: usize,
    pub(crate) sole: Option<u64>,
    pub(crate) is_package: bool,
}

/// How many provisions of a name meet a bound: numbers, and unversioned provisions.
#[derive(Clone, Copy)]
pub(crate) struct MetCounts {
    pub(crate) numbers: usize,
    pub(crate) unversioned: usize,
}

impl MetCounts {
    pub(crate) fn none() -> Self
        ensures { result ≡ record { numbers = 0; unversioned = 0 } }
    {
        MetCounts {
            numbers: 0,
            unversioned: 0,
        }
    }

    /// Whether there are more of one kind than those of a package.
    pub(crate) fn exceeds(self, own: MetCounts) -> bool
        ensures { result ≡ (nat_lt own.numbers self.numbers || nat_lt own.unversioned self.unversioned) }
    {
        self.numbers > own.numbers || self.unversioned > own.unversioned
    }
}

impl Entries {
    /// Whether one of them meets the bound.
    pub(crate) fn any(&self, bound: Option<(Relop, u64)>, steps: &mut Steps) -> bool
        ensures answer { result ≡ (nat_lt 0 (count_by (meets bound) self.now.numbers) || nat_lt 0 (if is_below_one bound then 0 else self.now.unversioned)) }
        ensures price { steps.new ≤ steps.old + 2 * digits (length self.now.numbers) }
        ensures grows { steps.old ≤ steps.new }
    {
        self.numbers.any(bound, steps) || self.unversioned_met(bound) > 0
    }

    /// How many of them meet the bound.
    pub(crate) fn met(&self, bound: Option<(Relop, u64)>, steps: &mut Steps) -> MetCounts
        ensures numbers { result.numbers ≡ count_by (meets bound) self.now.numbers }
        ensures unversioned { result.unversioned ≡ (if is_below_one bound then 0 else self.now.unversioned) }
        ensures price { steps.new ≤ steps.old + 2 * digits (length self.now.numbers) }
        ensures grows { steps.old ≤ steps.new }
    {
        MetCounts {
            numbers: self.numbers.count(bound, steps),
            unversioned: self.unversioned_met(bound),
        }
    }

    /// How many of those without a number meet the bound.
    fn unversioned_met(&self, bound: Option<(Relop, u64)>) -> usize
        ensures { result ≡ (if is_below_one bound then 0 else self.now.unversioned) }
    {
        if is_below_one(bound) {
            0
        } else {
            self.unversioned
        }
    }
}

/// Whether the bound is `< 1`, which no version meets.
pub(crate) fn is_below_one(bound: Option<(Relop, u64)>) -> bool
    ensures { result ≡ is_below_one bound }
{
    matches!(bound, Some((Relop::Lt, 1)))
}

/// The provisions of a name, in the order in which they came.
#[derive(Drop)]
pub(crate) struct Row {
    provisions: Provisions,
}

/// One or two, as most names have, take no memory of their own.
#[derive(Drop)]
enum Provisions {
    One(Provision),
    Two([Provision; 2]),
    Others(Vec<Provision>),
}

impl Model for Row {
    ghost use Rattle.std.specs.Prelude.{List};
    ghost use Rattle.cudf_index.specs.Working.Rows.{provisions_in};
    ghost use Rattle.cudf_index.specs.declared.index.gathered_names.Provision.{Provision};

    ghost Value = { List Provision };

    ghost view = { λ r. provisions_in r.provisions };
}

impl Row {
    /// No provisions.
    pub(crate) fn none(alloc: Global) -> Self
        ensures { result ≡ [] }
    {
        Row {
            provisions: Provisions::Others(Vec::new(alloc)),
        }
    }

    pub(crate) fn as_slice(&self) -> &[Provision]
        ensures { result.now ≡ self.now }
    {
        match &self.provisions {
            Provisions::One(provision) => slice::from_ref(provision),
            Provisions::Two(both) => both,
            Provisions::Others(others) => others.as_slice(),
        }
    }

    /// Adds a provision after the others.
    pub(crate) fn push(&mut self, alloc: Global, provision: Provision) -> Result<(), AllocError>
        ensures { OnOk result (self.new ≡ self.old ++ provision ∷ []) }
    {
        if let Provisions::Others(others) = &mut self.provisions {
            if !others.is_empty() {
                others.push(provision)?;
                return Ok(());
            }
        }
        self.provisions = extended(alloc, self.as_slice(), provision)?;
        Ok(())
    }
}

/// These provisions and one more.
fn extended(
    alloc: Global,
    row: &[Provision],
    provision: Provision,
) -> Result<Provisions, AllocError>
    ensures { IfOk result (λ p. provisions_in p ≡ row.now ++ provision ∷ []) }
{
    match row {
        [] => Ok(Provisions::One(provision)),
        [first] => Ok(Provisions::Two([*first, provision])),
        _ => {
            let mut others = Vec::with_capacity(alloc, row.len() + 1)?;
            others.extend_from_slice(row)?;
            others.push(provision)?;
            Ok(Provisions::Others(others))
        }
    }
}
