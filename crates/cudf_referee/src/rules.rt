//! Whether an instance is violated: one arm a rule.
ghost use Rattle.std.specs.Prelude.{◌≡◌, ◌≤◌, ◌<◌, ◌+◌, ◌-◌, ℕ, Bool, List, Option, Some, slice_get};
ghost use Rattle.std.specs.FinSet as set;
ghost use Rattle.cudf_value.specs.Promises.Views.{vpkg_view};
ghost use Rattle.cudf_problem.specs.Statuses.{PlainUnknown};
ghost use Rattle.cudf_problem.specs.Universe.{PlainProblem};
ghost use Rattle.cudf_index.specs.Promises.Members.{IsGreatest};
ghost use Rattle.cudf_index.specs.Satisfaction.{numbers_of};
ghost use Rattle.cudf_job.specs.Keys.{part_place};
ghost use Rattle.cudf_job.specs.KeyViews.{key_view};
ghost use Rattle.cudf_referee.specs.Proposals.{Proposal};
ghost use Rattle.cudf_referee.specs.Promises.Before.{AreGreatest};
ghost use Rattle.cudf_referee.specs.Promises.Stops.{cost, aspect_cost, look_ups, aspect_look_ups};
ghost use Rattle.cudf_referee.specs.Promises.Views.{instance_view};
ghost use Rattle.cudf_referee.specs.Violations.{are_many, are_lower, is_aspect_violated, is_violated};
ghost use Rattle.cudf_referee.specs.Working.Located.{IsLocated};
ghost use Rattle.cudf_referee.specs.Working.Walkers.{put_forward, Agrees};

use crate::instance::{Instance, Requirement};
use cudf_index::{MeteredIndex, Steps};
use cudf_job::{Aspect, Key, Part};
use cudf_problem::Status;
use cudf_value::Vpkg;

/// What is known of a proposal beside the index of its status.
#[derive(Clone, Copy)]
pub(crate) struct ProposalFacts<'r> {
    /// The packages that are to be installed.
    pub(crate) status: &'r Status,
    /// For each package, whether its name is to be kept, and one of it is to be installed.
    pub(crate) named: &'r [bool],
    /// For each entry of `upgrade`, the greatest number of its name before.
    pub(crate) before: &'r [Option<u64>],
}

/// Whether an instance is violated.
#[inline(always)]
pub(crate) fn is_violated(
    now: &mut MeteredIndex<'_, '_, '_>,
    known: ProposalFacts<'_>,
    instance: &Instance<'_>,
    steps: &mut Steps,
) -> bool
    ensures answer { (problem : PlainProblem) → (unknown : List PlainUnknown)
        → Agrees problem (set.contains known.entry.status.now) known.entry.before.now now.old.status known.entry.named.now unknown
        → IsLocated (put_forward problem now.old.status unknown) (instance_view instance.now)
        → result ≡ is_violated (put_forward problem now.old.status unknown) (instance_view instance.now) }
    ensures price { now.new.steps + steps.new ≤ now.old.steps + steps.old + cost now.old.status (instance_view instance.now) }
    ensures grows { now.old.steps + steps.old + look_ups now.old.status (instance_view instance.now) ≤ now.new.steps + steps.new }
    ensures status { now.new.status ≡ now.old.status }
{
    match instance.what {
        Requirement::Needs(clause) => !now.satisfies_clause_counted(&clause),
        Requirement::ConflictsWith(vpkg) => now.satisfies_without_counted(
            &vpkg,
            place_of(instance.key),
        ),
        Requirement::KeepVersion => !known.status.holds(place_of(instance.key)),
        Requirement::KeepPackage => !flag_at(known.named, place_of(instance.key)),
        Requirement::KeepFeature(vpkg) => !now.satisfies_counted(&vpkg),
        Requirement::Install(vpkg) => !now.satisfies_counted(&vpkg),
        Requirement::Remove(vpkg) => now.satisfies_counted(&vpkg),
        Requirement::Upgrade(vpkg) => is_aspect_violated(
            now,
            known.before,
            instance.key,
            &vpkg,
            steps,
        ),
        Requirement::Unknown => true,
    }
}

/// The place of the package that the key is of, 0 for the other parts.
fn place_of(key: Key) -> u64
    ensures { result ≡ part_place (key_view key).part }
{
    match key.part() {
        Part::Package(place) => place,
        Part::Request | Part::Solution => 0,
    }
}

/// The flag of the package at a place.
fn flag_at(flags: &[bool], place: u64) -> bool
    ensures { (flag : Bool) → 0 < place → slice_get flags.now (place - 1) ≡ Some flag → result ≡ flag }
{
    flags
        .get((place as usize).wrapping_sub(1))
        .copied()
        .unwrap_or(false)
}

/// Whether an entry of `upgrade` is violated in the way of the key's aspect.
fn is_aspect_violated(
    now: &mut MeteredIndex<'_, '_, '_>,
    before: &[Option<u64>],
    key: Key,
    vpkg: &Vpkg<'_>,
    steps: &mut Steps,
) -> bool
    ensures answer { (s : Proposal) → s.proposed ≡ now.old.status → AreGreatest s.initial s.problem.request.upgrade before.now
        → slice_get s.problem.request.upgrade ((key_view key).place - 1) ≡ Some (vpkg_view vpkg.now)
        → result ≡ is_aspect_violated s (vpkg_view vpkg.now) (key_view key).aspect }
    ensures status { now.new.status ≡ now.old.status }
    ensures price { now.new.steps + steps.new ≤ now.old.steps + steps.old + aspect_cost now.old.status (vpkg_view vpkg.now) (key_view key).aspect }
    ensures grows { now.old.steps + steps.old + aspect_look_ups (key_view key).aspect ≤ now.new.steps + steps.new }
{
    match key.aspect() {
        None => false,
        Some(Aspect::Unsatisfied) => !now.satisfies_counted(vpkg),
        Some(Aspect::Many) => has_many(now, vpkg.name),
        Some(Aspect::Lower) => {
            let greatest = number_before(before, key.place(), steps);
            has_lower(now, greatest, vpkg.name)
        }
    }
}

/// The number that is kept of an entry, for one step.
fn number_before(before: &[Option<u64>], number: u64, steps: &mut Steps) -> Option<u64>
    requires { 0 < number }
    ensures number { (greatest : Option ℕ) → slice_get before.now (number - 1) ≡ Some greatest → result ≡ greatest }
    ensures price { steps.new ≡ steps.old + 1 }
{
    steps.tick();
    *before.get(number as usize - 1)?
}

/// Whether the status gives two different numbers of the name.
fn has_many(now: &mut MeteredIndex<'_, '_, '_>, name: &str) -> bool
    ensures answer { result ≡ are_many (numbers_of name.now now.old.status) }
    ensures status { now.new.status ≡ now.old.status }
    ensures price { now.new.steps ≤ now.old.steps + 4 }
    ensures grows { now.old.steps + 2 ≤ now.new.steps }
{
    match (now.least_counted(name), now.greatest_counted(name)) {
        (Some(least), Some(greatest)) => least != greatest,
        _ => false,
    }
}

/// Whether the status gives a number of the name below the greatest one before.
fn has_lower(now: &mut MeteredIndex<'_, '_, '_>, greatest: Option<u64>, name: &str) -> bool
    ensures answer { (before : List ℕ) → IsGreatest before greatest → result ≡ are_lower before (numbers_of name.now now.old.status) }
    ensures status { now.new.status ≡ now.old.status }
    ensures price { now.new.steps ≤ now.old.steps + 2 }
    ensures grows { now.old.steps + 1 ≤ now.new.steps }
{
    match (now.least_counted(name), greatest) {
        (Some(least), Some(greatest)) => least < greatest,
        _ => false,
    }
}
