//! The steps of a proof so far, and the core: the clauses of the CNF that the last step needs.
ghost use Rattle.std.specs.Prelude.{◌≡◌, ◌≢◌, ◌+◌, ◌<◌, ◌≤◌, [], ◌∷◌, ◌-◌, ◌^◌, ◌==◌, ◌||◌, ℕ, true, All, IfNone, IfSome, MatchOption, OnOk, length, map, slice_index, slice_index_or, false, IfOk, filter, replicate, if◌then◌else◌};
ghost use Rattle.std.specs.List.{list_any, range_with_len};
ghost use Rattle.cudf_lrat.specs.Answers.{core, needs};
ghost use Rattle.cudf_lrat.specs.Lists.{lists_in};
ghost use Rattle.cudf_lrat.specs.Steps.{is_unnamed, greatest_number};
ghost use Rattle.cudf_lrat.specs.Working.Indices.{IsAfter, IsAscending, IsIndexOf, number_at, steps_in};
ghost use Rattle.cudf_lrat.specs.Working.Needed.{AreNeeded};

use crate::cnf::{Cnf, Lists, Literal};
use std::alloc::{AllocError, Global};

/// Steps, in their order.
#[derive(Drop)]
pub(crate) struct ProofSteps {
    /// Their numbers, which ascend.
    pub numbers: Vec<u64>,
    /// Their clauses.
    pub clauses: Lists<Literal>,
    /// The indices of the clauses that each of them used.
    pub used: Lists<u32>,
}

/// The position of a number. Most steps have the number after that of the step before, so it is
/// looked for first where it is if all after it do.
#[inline(always)]
fn position_of(numbers: &[u64], number: u64) -> Option<usize>
    requires { (j k : ℕ) → j < k → k < length numbers.now → slice_index numbers.now j < slice_index numbers.now k }
    ensures found { IfSome result (λ k. (k < length numbers.now) × (slice_index numbers.now k ≡ number)) }
    ensures none { IfNone result ((k : ℕ) → k < length numbers.now → slice_index numbers.now k ≢ number) }
{
    match guess(numbers, number) {
        Some(position) => Some(position),
        None => numbers.binary_search(&number).ok(),
    }
}

/// The position of a number where all numbers after it ascend by one.
#[inline(always)]
fn guess(numbers: &[u64], number: u64) -> Option<usize>
    ensures { IfSome result (λ k. (k < length numbers.now) × (slice_index numbers.now k ≡ number)) }
{
    let last = *numbers.last()?;
    let after = last.checked_sub(number)?;
    if after >= numbers.len() as u64 {
        return None;
    }
    let position = numbers.len() - 1 - after as usize;
    if numbers[position] == number {
        Some(position)
    } else {
        None
    }
}

impl ProofSteps {
    /// No steps. Takes no memory.
    pub(crate) fn new(alloc: Global) -> Self
        ensures numbers { result.numbers.items ≡ [] }
        ensures clauses { lists_in result.clauses ≡ [] }
        ensures used { lists_in result.used ≡ [] }
    {
        ProofSteps {
            numbers: Vec::new(alloc),
            clauses: Lists::new(alloc),
            used: Lists::new(alloc),
        }
    }

    /// The greatest number so far.
    pub(crate) fn greatest_number(&self, cnf: &Cnf) -> u64
        ensures { result ≡ greatest_number cnf.now.clauses (steps_in cnf.now self.now) }
    {
        match self.numbers.last() {
            Some(number) => *number,
            None => u64::from(cnf.len()),
        }
    }

    /// The index of the clause of this number.
    #[inline(always)]
    pub(crate) fn find(&self, cnf: &Cnf, number: u64) -> Option<u32>
        requires { IsAfter cnf.now self.now }
        ensures { MatchOption result (is_unnamed cnf.now.clauses (steps_in cnf.now self.now) number ≡ true) (IsIndexOf cnf.now self.now number) }
    {
        let before = number.checked_sub(1)?;
        let given = cnf.len();
        if before < u64::from(given) {
            return Some(before as u32);
        }
        let position = position_of(&self.numbers, number)?;
        Some(given + position as u32)
    }

    /// Adds a step.
    ///
    /// # Errors
    ///
    /// `AllocError` where memory is refused, or there are 2^32 - 1 clauses and steps.
    pub(crate) fn push(
        &mut self,
        cnf: &Cnf,
        number: u64,
        clause: &[Literal],
        used: &[u32],
    ) -> Result<(), AllocError>
        requires after { IsAfter cnf.now self.old }
        requires new { greatest_number cnf.now.clauses (steps_in cnf.now self.old) < number }
        requires known { All (λ index. index < length cnf.now.clauses + length self.old.numbers.items) used.now }
        requires variables { All (λ l. l.variable ≤ cnf.now.variables) clause.now }
        ensures after { OnOk result (IsAfter cnf.now self.new) }
        ensures steps { OnOk result (steps_in cnf.now self.new
            ≡ record { number = number; clause = clause.now; used = map (number_at (length cnf.now.clauses) self.old.numbers.items) used.now } ∷ steps_in cnf.now self.old) }
    {
        if cnf.len() as usize + self.numbers.len() >= u32::MAX as usize {
            return Err(AllocError);
        }
        self.numbers.push(number)?;
        self.clauses.push(clause)?;
        self.used.push(used)?;
        Ok(())
    }
}

/// Marks the indices as needed.
fn mark_needed(needed: &mut [bool], indices: &[u32])
    requires { All (λ i. i < length needed.old) indices.now }
    ensures { (k : ℕ) → slice_index_or needed.new k false ≡ (list_any (λ i. i == k) indices.now || slice_index_or needed.old k false) }
{
    for index in indices {
        needed[*index as usize] = true;
    }
}

/// Marks what a step used as needed, where the step is.
fn mark_used(cnf: &Cnf, steps: &ProofSteps, needed: &mut [bool], position: usize)
    requires after { IsAfter cnf.now steps.now }
    requires inside { position < length steps.now.numbers.items }
    requires all { length needed.old ≡ length cnf.now.clauses + length steps.now.numbers.items }
    ensures { (k : ℕ) → slice_index_or needed.new k false
        ≡ (if slice_index_or needed.old (length cnf.now.clauses + position) false
        then list_any (λ i. i == k) (slice_index_or (lists_in steps.now.used) position []) || slice_index_or needed.old k false
        else slice_index_or needed.old k false) }
{
    if needed[cnf.len() as usize + position] {
        mark_needed(needed, steps.used.get(position));
    }
}

/// Marks the last step as needed, and from it back what each needed one used.
fn mark_backwards(cnf: &Cnf, steps: &ProofSteps, needed: &mut [bool])
    requires after { IsAfter cnf.now steps.now }
    requires some { 0 < length steps.now.numbers.items }
    requires none { needed.old ≡ replicate (length cnf.now.clauses + length steps.now.numbers.items) false }
    ensures { AreNeeded cnf.now steps.now needed.new (needs (steps_in cnf.now steps.now) (greatest_number cnf.now.clauses (steps_in cnf.now steps.now) ∷ [])) }
{
    let last = needed.len() - 1;
    needed[last] = true;
    let mut left = steps.numbers.len();
    while left > 0 {
        left -= 1;
        mark_used(cnf, steps, needed, left);
    }
}

/// The numbers from 1 of those that are needed, ascending.
fn needed_numbers(alloc: Global, needed: &[bool]) -> Result<Vec<u32>, AllocError>
    requires { length needed.now < 2 ^ 32 }
    ensures { IfOk result (λ core. core.items ≡ filter (λ n. slice_index_or needed.now (n - 1) false) (range_with_len 1 (length needed.now))) }
{
    let mut core = Vec::new(alloc);
    for (index, is_needed) in needed.iter().enumerate() {
        if *is_needed {
            core.push(index as u32 + 1)?;
        }
    }
    Ok(core)
}

/// The core of a proof by these steps.
pub(crate) fn core_of(alloc: Global, cnf: &Cnf, steps: &ProofSteps) -> Result<Vec<u32>, AllocError>
    requires after { IsAfter cnf.now steps.now }
    requires some { 0 < length steps.now.numbers.items }
    ensures { IfOk result (λ found. found.items ≡ core cnf.now.clauses (steps_in cnf.now steps.now)) }
{
    let given = cnf.len() as usize;
    let count = given + steps.numbers.len();
    let mut needed = vec![in alloc; false; count]?;
    mark_backwards(cnf, steps, &mut needed);
    needed_numbers(alloc, &needed[..given])
}
