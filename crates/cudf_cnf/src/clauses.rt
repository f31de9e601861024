//! CNF clauses, each with the key of its instance, as they are made, as long as there is room for them.

use crate::rules::Scratch;
use cudf_job::Key;
use cudf_lrat::{Cnf, Literal};
use std::alloc::{AllocError, Global};
use std::marker::Model;

/// CNF clauses over the places from 1 to a number, each with the key of the instance that it rules out.
#[derive(Drop)]
pub struct KeyedClauses {
    cnf: Cnf,
    keys: Vec<Key>,
}

impl Model for KeyedClauses {
    ghost use Rattle.std.specs.Prelude.{◌≡◌, length, map, zip};
    ghost use Rattle.cudf_job.specs.KeyViews.{key_view};
    ghost use Rattle.cudf_cnf.specs.Encodings.{PlainKeyedClauses};

    ghost Value = { PlainKeyedClauses };

    ghost view = { λ c. record { places = c.cnf.variables; clauses = zip (map key_view c.keys.items) c.cnf.clauses } };

    ghost invariant = { λ c. length c.keys.items ≡ length c.cnf.clauses };
}

impl KeyedClauses {
    ghost use Rattle.std.specs.Prelude.{◌≡◌, ◌↔◌, ◌<◌, ◌++◌, ◌∷◌, [], All, IsTrue, OnErr, OnOk, Some, length, option_map, slice_get};
    ghost use Rattle.cudf_job.specs.KeyViews.{key_view};
    ghost use Rattle.cudf_lrat.specs.Literals.{IsWithin};
    ghost use Rattle.cudf_cnf.specs.Cnf.{clauses_of};

    /// Without clauses, over the places from 1 to `places`. Takes no memory.
    pub(crate) fn new(alloc: Global, places: u32) -> Self
        ensures { result ≡ record { places = places; clauses = [] } }
    {
        KeyedClauses {
            cnf: Cnf::new(alloc, places),
            keys: Vec::new(alloc),
        }
    }

    /// How many clauses there are.
    pub fn len(&self) -> usize
        ensures { result ≡ length self.now.clauses }
    {
        self.keys.len()
    }

    /// Whether there are none.
    pub fn is_empty(&self) -> bool
        ensures { IsTrue result ↔ (self.now.clauses ≡ []) }
    {
        self.len() == 0
    }

    /// The key of a clause, by its index from 0.
    pub fn key(&self, index: usize) -> Key
        requires { index < length self.now.clauses }
        ensures { option_map (λ c. c.0) (slice_get self.now.clauses index) ≡ Some (key_view result) }
    {
        self.keys[index]
    }

    /// A clause, by its index from 0.
    pub fn clause(&self, index: usize) -> &[Literal]
        requires { index < length self.now.clauses }
        ensures { option_map (λ c. c.1) (slice_get self.now.clauses index) ≡ Some result.now }
    {
        // That a `u32` counts them, and so numbers each.
        let _ = self.cnf.len();
        self.cnf.clause(index as u32 + 1)
    }

    /// The clauses without their keys.
    pub fn cnf(&self) -> &Cnf
        ensures places { result.now.variables ≡ self.now.places }
        ensures clauses { result.now.clauses ≡ clauses_of self.now.clauses }
    {
        &self.cnf
    }

    /// Puts a clause after the others, over the places that there are.
    ///
    /// # Errors
    ///
    /// `AllocError` where memory is refused; the clauses are unchanged then.
    pub(crate) fn push(&mut self, key: Key, clause: &[Literal]) -> Result<(), AllocError>
        requires { All (IsWithin self.old.places) clause.now }
        ensures ok { OnOk result (self.new ≡ record { places = self.old.places; clauses = self.old.clauses ++ (key_view key, clause.now) ∷ [] }) }
        ensures err { OnErr result (self.new ≡ self.old) }
    {
        self.keys.push(key)?;
        if self.cnf.push(clause).is_err() {
            let _ = self.keys.pop();
            return Err(AllocError);
        }
        Ok(())
    }
}

/// Takes clauses, up to a number of them.
#[derive(Drop)]
pub(crate) struct Collector {
    pub(crate) clauses: KeyedClauses,
    pub(crate) scratch: Scratch,
    /// How many there may be.
    room: usize,
}

impl Collector {
    ghost use Rattle.std.specs.Prelude.{◌≡◌, nat_le, length, []};

    /// Without clauses, over the places from 1 to `places`. Takes no memory.
    pub(crate) fn new(alloc: Global, places: u32, room: usize) -> Self
        ensures blank { result.clauses.clauses ≡ [] }
        ensures places { result.clauses.places ≡ places }
        ensures room { result.room ≡ room }
    {
        Collector {
            clauses: KeyedClauses::new(alloc, places),
            scratch: Scratch::new(alloc),
            room,
        }
    }

    /// Whether there is room for the clauses that were put so far.
    pub(crate) fn has_room(&self) -> bool
        ensures { result ≡ nat_le (length self.now.clauses.clauses) self.now.room }
    {
        self.clauses.len() <= self.room
    }
}
