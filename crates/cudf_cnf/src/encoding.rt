//! The CNF of a problem, held; and whether it has too many clauses, which are counted before one is made.
ghost use Rattle.std.specs.Prelude.{◌≡◌, ◌<◌, ◌^◌, [], IfOk, length, ◌-◌, Some, filter, nat_lt, slice_get};
ghost use Rattle.cudf_value.specs.Promises.Views.{clause_view, vpkg_view};
ghost use Rattle.cudf_problem.specs.Statuses.{is_initial};
ghost use Rattle.cudf_index.specs.Satisfaction.{meets_alone, members, without};
ghost use Rattle.cudf_job.specs.KeyViews.{key_view};
ghost use Rattle.cudf_referee.specs.Promises.Views.{instance_view};
ghost use Rattle.cudf_referee.specs.Promises.Where.{IsWhere};
ghost use Rattle.cudf_cnf.specs.Cnf.{cnf, instance_clauses, needs_clauses, upgrade_clauses};
ghost use Rattle.cudf_cnf.specs.Encodings.{IsEncoded};
ghost use Rattle.cudf_cnf.specs.Working.Collecting.{IsHeld, Outcome, SameFrame};
ghost use Rattle.cudf_cnf.specs.Working.Parts.{AreBefore, lower_by};

use crate::clauses::{Collector, KeyedClauses};
use crate::encoder::Encoder;
use crate::rules::place_of;
use cudf_index::{Counts, Index};
use cudf_job::{Aspect, Key};
use cudf_problem::Problem;
use cudf_referee::{Instance, ProblemInstances, Requirement};
use cudf_value::{Clause, Relop, Vpkg};
use std::alloc::{AllocError, Global};

/// So many clauses are held before all are counted: a CNF that is too large is refused before memory runs out.
const MANY: usize = 1_048_576;

/// The clauses of the problem's CNF, each with the key of the instance that it rules out, in key order. `None` where it
/// would have more than 4294967295 variables or clauses (own).
///
/// # Errors
///
/// `AllocError` where memory for them is refused.
pub fn encode_rules(
    alloc: Global,
    problem: &Problem<'_>,
) -> Result<Option<KeyedClauses>, AllocError>
    ensures { IfOk result (IsEncoded problem.now) }
{
    if problem.packages().len() > u32::MAX as usize {
        return Ok(None);
    }
    let encoder = Encoder::new(alloc, problem)?;
    encoded_by(alloc, &encoder)
}

/// The clauses of the encoder's problem, each with the key of its instance; `None` where there would be more than
/// 4294967295. Many clauses are counted before all of them are held.
fn encoded_by(alloc: Global, encoder: &Encoder<'_, '_>) -> Result<Option<KeyedClauses>, AllocError>
    requires small { length encoder.now.problem.now.packages < 2 ^ 32 }
    requires before { AreBefore encoder.now.problem.now encoder.now.before.items }
    ensures { IfOk result (IsEncoded encoder.now.problem.now) }
{
    if let Some(clauses) = collect_clauses(alloc, encoder, MANY)? {
        return Ok(Some(clauses));
    }
    if has_too_many(alloc, encoder)? {
        return Ok(None);
    }
    collect_clauses(alloc, encoder, u32::MAX as usize)
}

/// The clauses, if there is room for so many.
fn collect_clauses(
    alloc: Global,
    encoder: &Encoder<'_, '_>,
    room: usize,
) -> Result<Option<KeyedClauses>, AllocError>
    requires small { length encoder.now.problem.now.packages < 2 ^ 32 }
    requires before { AreBefore encoder.now.problem.now encoder.now.before.items }
    ensures { IfOk result (IsHeld encoder.now.problem.now room) }
{
    let places = encoder.problem.packages().len() as u32;
    let mut to = Collector::new(alloc, places, room);
    if fill(alloc, encoder, &mut to)? {
        return Ok(Some(to.clauses));
    }
    Ok(None)
}

/// Puts the clauses of all instances, as long as there is room: whether it was for all.
fn fill(alloc: Global, encoder: &Encoder<'_, '_>, to: &mut Collector) -> Result<bool, AllocError>
    requires places { to.old.clauses.places ≡ length encoder.now.problem.now.packages }
    requires before { AreBefore encoder.now.problem.now encoder.now.before.items }
    requires blank { to.old.clauses.clauses ≡ [] }
    ensures outcome { IfOk result (λ all_put. Outcome all_put (cnf encoder.now.problem.now) to.new) }
    ensures same { SameFrame to.old to.new }
{
    for instance in ProblemInstances::of(encoder.problem) {
        if !encoder.put(alloc, &instance, to)? {
            return Ok(false);
        }
    }
    Ok(true)
}

/// Whether there are more than 4294967295 clauses.
pub(crate) fn has_too_many(alloc: Global, encoder: &Encoder<'_, '_>) -> Result<bool, AllocError>
    requires before { AreBefore encoder.now.problem.now encoder.now.before.items }
    ensures { IfOk result (λ is. is ≡ nat_lt 4294967295 (length (cnf encoder.now.problem.now))) }
{
    let counts = encoder.all.counts(alloc)?;
    Ok(exceeds_limit(encoder, &counts))
}

/// Whether the encoder's problem has more than 4294967295 clauses, by the counts of all packages.
#[tactic(auto, using(crate::proofs::CountLemmas::counted_next))]
fn exceeds_limit(encoder: &Encoder<'_, '_>, counts: &Counts<'_, '_, '_>) -> bool
    requires all { counts.now ≡ encoder.now.all }
    requires before { AreBefore encoder.now.problem.now encoder.now.before.items }
    ensures { result ≡ nat_lt 4294967295 (length (cnf encoder.now.problem.now)) }
{
    let mut left = u128::from(u32::MAX);
    for instance in ProblemInstances::of(encoder.problem) {
        let count = count_of(encoder, counts, &instance);
        if count > left {
            return true;
        }
        left -= count;
    }
    false
}

/// How many clauses an instance has.
#[tactic(auto, using(crate::proofs::CountLemmas::none_counted))]
fn count_of(encoder: &Encoder<'_, '_>, counts: &Counts<'_, '_, '_>, instance: &Instance<'_>) -> u128
    requires all { counts.now ≡ encoder.now.all }
    requires before { AreBefore encoder.now.problem.now encoder.now.before.items }
    requires at { IsWhere encoder.now.problem.now (instance_view instance.now) }
    ensures { result ≡ length (instance_clauses encoder.now.problem.now (instance_view instance.now)) }
{
    let place = place_of(instance.key);
    match instance.what {
        Requirement::Needs(clause) => count_needs(&encoder.all, &clause, place),
        Requirement::ConflictsWith(vpkg) => count_others(encoder, counts, &vpkg, place),
        Requirement::Remove(vpkg) => counts.meeting(&vpkg),
        Requirement::Upgrade(vpkg) => count_upgrade(encoder, counts, instance.key, &vpkg),
        Requirement::KeepVersion
        | Requirement::KeepPackage
        | Requirement::KeepFeature(_)
        | Requirement::Install(_) => 1,
        Requirement::Unknown => 1,
    }
}

/// How many CNF clauses a clause of `depends` has: none where the package itself would do.
fn count_needs(all: &Index<'_, '_>, clause: &Clause<'_>, place: u64) -> u128
    ensures { result ≡ length (needs_clauses all.now place (clause_view clause.now)) }
{
    if all.satisfies_clause_at(clause, place) {
        0
    } else {
        1
    }
}

/// How many packages other than that at the place alone satisfy the vpkg.
#[tactic(auto, using(crate::proofs::CountLemmas::others_counted))]
fn count_others(
    encoder: &Encoder<'_, '_>,
    counts: &Counts<'_, '_, '_>,
    vpkg: &Vpkg<'_>,
    place: u64,
) -> u128
    requires { counts.now ≡ encoder.now.all }
    ensures { result ≡ length (filter (meets_alone (vpkg_view vpkg.now)) (without place encoder.now.all)) }
{
    let meeting = counts.meeting(vpkg);
    if encoder.all.satisfies_at(vpkg, place) {
        meeting - 1
    } else {
        meeting
    }
}

/// How many clauses an instance has that is an entry of `upgrade`.
#[tactic(auto, using(crate::proofs::CountLemmas::many_counted))]
fn count_upgrade(
    encoder: &Encoder<'_, '_>,
    counts: &Counts<'_, '_, '_>,
    key: Key,
    vpkg: &Vpkg<'_>,
) -> u128
    requires all { counts.now ≡ encoder.now.all }
    requires before { AreBefore encoder.now.problem.now encoder.now.before.items }
    requires at { slice_get encoder.now.problem.now.request.upgrade ((key_view key).place - 1) ≡ Some (vpkg_view vpkg.now) }
    ensures { result ≡ length (upgrade_clauses encoder.now.all (members (is_initial encoder.now.problem.now) encoder.now.problem.now.packages) (vpkg_view vpkg.now) (key_view key).aspect) }
{
    match key.aspect() {
        None => 0,
        Some(Aspect::Unsatisfied) => 1,
        Some(Aspect::Many) => counts.differing(vpkg.name),
        Some(Aspect::Lower) => count_lower(counts, vpkg.name, encoder.greatest(key.place())),
    }
}

/// How many packages give a number of the name below the greatest one before.
#[tactic(auto, using(crate::proofs::CountLemmas::none_counted))]
fn count_lower(counts: &Counts<'_, '_, '_>, name: &str, greatest: Option<u64>) -> u128
    ensures { result ≡ length (lower_by counts.now name.now greatest) }
{
    match greatest {
        Some(number) => counts.giving(name, Some((Relop::Lt, number))),
        None => 0,
    }
}
