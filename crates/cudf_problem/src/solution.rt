//! Solutions of a problem: CUDF 2.0, installations. Statuses, and stanzas whose pair isn't in the universe.
ghost use Rattle.std.specs.Prelude.{◌≡◌, ℕ, IfOk};
ghost use Rattle.std.specs.FinSet as set;
ghost use Rattle.cudf_problem.specs.Working.Flags.{flag_at};
ghost use Rattle.cudf_problem.specs.Statuses.{is_initial};
ghost use Rattle.cudf_problem.specs.Promises.Statuses.{IsStatusOf};

use crate::problem::Problem;
use std::alloc::{AllocError, Global};
use std::marker::Model;

/// What a solution proposes for a problem.
#[derive(Drop)]
pub struct Solution<'t> {
    /// The packages of the universe that it installs.
    pub status: Status,
    /// Its stanzas that install a pair which isn't in the universe, in order.
    pub unknown: Vec<InstalledPair<'t>>,
}

/// A set of places of a universe, counted from 1.
#[derive(Drop)]
pub struct Status {
    flags: Vec<bool>,
}

impl Model for Status {
    ghost use Rattle.std.specs.Prelude.{ℕ};
    ghost use Rattle.std.specs.Ordering.{nat_cmp};
    ghost use Rattle.std.specs.Coded.{coded_ℕ};
    ghost use Rattle.std.specs.FinSet as set;

    ghost Value = { set.FinSet nat_cmp };

    ghost coded = { set.code coded_ℕ };

    ghost use Rattle.cudf_problem.specs.Working.Flags.{places_from};

    ghost view = { λ s. set.from_list (places_from 1 s.flags.items) };
}

impl Status {
    /// The status of these flags, the first that of place 1.
    pub fn from_flags(flags: Vec<bool>) -> Self
        ensures { (place : ℕ) → set.contains result place ≡ flag_at flags.items place }
    {
        Status { flags }
    }

    /// The same status.
    ///
    /// # Errors
    ///
    /// `AllocError` where memory for it is refused.
    pub fn copy(&self, alloc: Global) -> Result<Self, AllocError>
        ensures { IfOk result (λ s. s ≡ self.now) }
    {
        Ok(Status {
            flags: Vec::from_slice(alloc, &self.flags)?,
        })
    }

    /// Whether the package at this place, from 1, is in the status: `false` of 0 and of places after
    /// the universe.
    pub fn holds(&self, place: u64) -> bool
        ensures { result ≡ set.contains self.now place }
    {
        flag_at(&self.flags, place)
    }
}

/// Whether the flag of this place is set.
fn flag_at(flags: &[bool], place: u64) -> bool
    ensures { result ≡ flag_at flags.now place }
{
    if place == 0 {
        return false;
    }
    flags.get(place as usize - 1).copied().unwrap_or(false)
}

/// The packages that are installed in the problem (CUDF 2.0, installations).
///
/// # Errors
///
/// `AllocError` where memory for the status is refused.
pub fn initial(alloc: Global, problem: &Problem<'_>) -> Result<Status, AllocError>
    ensures places { IfOk result (λ s.
        (place : ℕ) → set.contains s place ≡ is_initial problem.now place) }
    ensures within { IfOk result (IsStatusOf problem.now) }
{
    let mut flags = Vec::new(alloc);
    for package in problem.packages() {
        flags.push(package.installed)?;
    }
    Ok(Status { flags })
}

/// A stanza that installs a pair. Of a `Solution` the pair isn't in the universe.
#[derive(Clone, Copy)]
pub struct InstalledPair<'t> {
    /// Its number among all stanzas, from 1.
    pub stanza: u64,
    /// The line of its `package` property, from 1.
    pub line: u64,
    /// The pair's name.
    pub name: &'t str,
    /// The pair's version.
    pub version: u64,
}
