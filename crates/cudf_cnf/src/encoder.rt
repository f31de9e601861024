//! The clauses of the instances of a problem.
ghost use Rattle.std.specs.Prelude.{◌≡◌, ◌-◌, ◌<◌, ◌≤◌, ◌^◌, ◌++◌, ℕ, IfOk, MatchOption, OnOk, Option, Some, false, length, slice_get};
ghost use Rattle.std.specs.List.{enumerate_from};
ghost use Rattle.cudf_value.specs.Promises.Views.{vpkg_view};
ghost use Rattle.cudf_problem.specs.Statuses.{is_initial};
ghost use Rattle.cudf_index.specs.Satisfaction.{members};
ghost use Rattle.cudf_job.specs.declared.key.Aspect.TheVariants.{Many};
ghost use Rattle.cudf_job.specs.KeyViews.{key_view};
ghost use Rattle.cudf_referee.specs.Instances.{upgrade};
ghost use Rattle.cudf_referee.specs.Promises.Views.{instance_view};
ghost use Rattle.cudf_referee.specs.Promises.Where.{IsWhere};
ghost use Rattle.cudf_cnf.specs.Cnf.{keyed_clauses, upgrade_clauses};
ghost use Rattle.cudf_cnf.specs.Working.Collecting.{Outcome, SameFrame};
ghost use Rattle.cudf_cnf.specs.Working.Parts.{AreBefore, Fits, is_many, is_many_what, keyed};

use crate::clauses::{Collector, KeyedClauses};
use crate::rules::{
    Scratch, place_of, positive_literal, put_conflict, put_lower, put_many, put_meeting, put_named,
    put_needs, put_removal,
};
use cudf_index::Index;
use cudf_job::{Aspect, Key};
use cudf_problem::{Problem, Status};
use cudf_referee::{Instance, Requirement, greatest_before};
use cudf_value::Vpkg;
use std::alloc::{AllocError, Global};

/// What is known of a problem to make the clauses of its instances.
#[derive(Drop)]
pub(crate) struct Encoder<'p, 't> {
    pub(crate) problem: &'p Problem<'t>,
    /// All packages, installed or not.
    pub(crate) all: Index<'p, 't>,
    /// For each entry of `upgrade`, the greatest number of its name before.
    before: Vec<Option<u64>>,
    ghost every: { all ≡ enumerate_from 1 problem.now.packages },
    ghost few: { length problem.now.packages < 2 ^ 32 },
}

impl<'p, 't> Encoder<'p, 't> {
    /// Of a problem.
    ///
    /// # Errors
    ///
    /// `AllocError` where memory for what is looked up is refused.
    pub(crate) fn new(alloc: Global, problem: &'p Problem<'t>) -> Result<Self, AllocError>
        requires { length problem.now.packages < 2 ^ 32 }
        ensures problem { IfOk result (λ encoder. encoder.problem.now ≡ problem.now) }
        ensures before { IfOk result (λ encoder. AreBefore problem.now encoder.before.items) }
    {
        Ok(Encoder {
            problem,
            all: all_of(alloc, problem)?,
            before: greatest_before(alloc, problem)?,
        })
    }

    /// The greatest number that was given before of the name of an entry of `upgrade`, by its number from 1.
    pub(crate) fn greatest(&self, number: u64) -> Option<u64>
        requires { 0 < number }
        ensures { (kept : Option ℕ) → slice_get self.now.before.items (number - 1) ≡ Some kept → result ≡ kept }
    {
        *self.before.get(number as usize - 1)?
    }

    /// Puts the clauses of an instance that is an entry of `upgrade`, but for those of `many`.
    fn put_upgrade(
        &self,
        key: Key,
        vpkg: &Vpkg<'_>,
        scratch: &mut Scratch,
        clauses: &mut KeyedClauses,
    ) -> Result<(), AllocError>
        requires fits { Fits clauses.old.places self.now.all }
        requires before { AreBefore self.now.problem.now self.now.before.items }
        requires at { slice_get self.now.problem.now.request.upgrade ((key_view key).place - 1) ≡ Some (vpkg_view vpkg.now) }
        requires other { is_many_what (upgrade (vpkg_view vpkg.now)) (key_view key).aspect ≡ false }
        ensures put { OnOk result (clauses.new.clauses ≡ clauses.old.clauses
            ++ keyed (key_view key) (upgrade_clauses self.now.all (members (is_initial self.now.problem.now) self.now.problem.now.packages) (vpkg_view vpkg.now) (key_view key).aspect)) }
        ensures places { clauses.new.places ≡ clauses.old.places }
    {
        match key.aspect() {
            None => Ok(()),
            Some(Aspect::Unsatisfied) => put_meeting(&self.all, key, vpkg, scratch, clauses),
            Some(Aspect::Many) => Ok(()),
            Some(Aspect::Lower) => {
                let greatest = self.greatest(key.place());
                put_lower(&self.all, key, vpkg.name, greatest, scratch, clauses)
            }
        }
    }

    /// Puts the clauses of an instance other than `many`.
    fn put_other(
        &self,
        instance: &Instance<'_>,
        scratch: &mut Scratch,
        clauses: &mut KeyedClauses,
    ) -> Result<(), AllocError>
        requires fits { Fits clauses.old.places self.now.all }
        requires before { AreBefore self.now.problem.now self.now.before.items }
        requires places { clauses.old.places ≡ length self.now.problem.now.packages }
        requires at { IsWhere self.now.problem.now (instance_view instance.now) }
        requires other { is_many (instance_view instance.now) ≡ false }
        ensures put { OnOk result (clauses.new.clauses ≡ clauses.old.clauses ++ keyed_clauses self.now.problem.now (instance_view instance.now)) }
        ensures places { clauses.new.places ≡ clauses.old.places }
    {
        let all = &self.all;
        let key = instance.key;
        match instance.what {
            Requirement::Needs(clause) => put_needs(all, key, &clause, scratch, clauses),
            Requirement::ConflictsWith(vpkg) => put_conflict(all, key, &vpkg, scratch, clauses),
            Requirement::KeepVersion => clauses.push(key, &[positive_literal(place_of(key))]),
            Requirement::KeepPackage => put_named(all, key, instance.subject, scratch, clauses),
            Requirement::KeepFeature(vpkg) => put_meeting(all, key, &vpkg, scratch, clauses),
            Requirement::Install(vpkg) => put_meeting(all, key, &vpkg, scratch, clauses),
            Requirement::Remove(vpkg) => put_removal(all, key, &vpkg, scratch, clauses),
            Requirement::Upgrade(vpkg) => self.put_upgrade(key, &vpkg, scratch, clauses),
            Requirement::Unknown => clauses.push(key, &[]),
        }
    }

    /// Puts the clauses of an instance, as long as there is room: whether it was for all.
    pub(crate) fn put(
        &self,
        alloc: Global,
        instance: &Instance<'_>,
        to: &mut Collector,
    ) -> Result<bool, AllocError>
        requires places { to.old.clauses.places ≡ length self.now.problem.now.packages }
        requires room { length to.old.clauses.clauses ≤ to.old.room }
        requires before { AreBefore self.now.problem.now self.now.before.items }
        requires at { IsWhere self.now.problem.now (instance_view instance.now) }
        ensures outcome { IfOk result (λ all_put. Outcome all_put (to.old.clauses.clauses ++ keyed_clauses self.now.problem.now (instance_view instance.now)) to.new) }
        ensures same { SameFrame to.old to.new }
    {
        if let Some(vpkg) = many_of(instance) {
            return put_many(alloc, &self.all, instance.key, vpkg.name, to);
        }
        self.put_other(instance, &mut to.scratch, &mut to.clauses)?;
        Ok(to.has_room())
    }
}

/// The entry of `upgrade` that the instance is `many` of, if it is one.
fn many_of<'t>(instance: &Instance<'t>) -> Option<Vpkg<'t>>
    ensures { MatchOption result (is_many (instance_view instance.now) ≡ false)
        (λ v. ((instance_view instance.now).what ≡ upgrade (vpkg_view v)) × ((instance_view instance.now).key.aspect ≡ Some Many)) }
{
    let Requirement::Upgrade(vpkg) = instance.what else {
        return None;
    };
    match instance.key.aspect() {
        None => None,
        Some(Aspect::Unsatisfied) => None,
        Some(Aspect::Many) => Some(vpkg),
        Some(Aspect::Lower) => None,
    }
}

/// The index of all packages, installed or not.
///
/// # Errors
///
/// `AllocError` where memory for it is refused.
pub fn all_of<'p, 't>(alloc: Global, problem: &'p Problem<'t>) -> Result<Index<'p, 't>, AllocError>
    ensures { IfOk result (λ all. all ≡ enumerate_from 1 problem.now.packages) }
{
    let mut flags = Vec::new(alloc);
    for _member in problem.packages() {
        flags.push(true)?;
    }
    let everything = Status::from_flags(flags);
    Index::build(alloc, problem, &everything)
}
