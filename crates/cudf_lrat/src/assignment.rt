//! Assignments, and reverse unit propagation by hints.
ghost use Rattle.std.specs.Prelude.{◌≡◌, ◌+◌, ◌<◌, ◌≤◌, ◌&&◌, not, All, IfOk, filter, fold, length, take};
ghost use Rattle.std.specs.List.{list_all, prefix_len};
ghost use Rattle.cudf_lrat.specs.Steps.{assign, assign_unit, denied, is_false, is_same, negated, propagate, result_map, status_of};
ghost use Rattle.cudf_lrat.specs.Working.Indices.{IsAfter, indexed};
ghost use Rattle.cudf_lrat.specs.Working.Assignments.{IsInside, assigned_by};
ghost use Rattle.cudf_lrat.specs.Working.Views.{status_view};

use crate::checker::ProofFault;
use crate::cnf::{Cnf, Literal};
use crate::steps::ProofSteps;

/// The value of a variable, and the step that assigned it: to other steps the variable has no value.
#[derive(Clone, Copy)]
pub(crate) struct AssignedValue {
    /// The step, from 1.
    pub step: u32,
    /// Whether the variable is true.
    pub value: bool,
}

/// What a clause is under an assignment.
#[derive(Clone, Copy)]
pub(crate) enum ClauseStatus {
    /// All of its literals are false.
    Conflict,
    /// All of its literals but this one are false.
    Unit(Literal),
    /// Two different ones or more aren't.
    NotUnit,
}

/// Whether the step made the literal false.
#[inline(always)]
#[tactic(auto, unfolding(crate::specs::Working::Assignments::assigned_by))]
fn is_false(assignment: &[AssignedValue], step: u32, literal: Literal) -> bool
    requires { literal.variable < length assignment.now }
    ensures { result ≡ is_false (assigned_by assignment.now step) literal }
{
    let assigned = assignment[literal.variable as usize];
    assigned.step == step && assigned.value != literal.positive
}

/// How many literals at the front are false.
#[inline(always)]
fn false_front(assignment: &[AssignedValue], step: u32, clause: &[Literal]) -> usize
    requires { All (λ l. l.variable < length assignment.now) clause.now }
    ensures inside { result ≤ length clause.now }
    ensures value { result ≡ prefix_len (is_false (assigned_by assignment.now step)) clause.now }
{
    for (index, literal) in clause.iter().enumerate() {
        if !is_false(assignment, step, *literal) {
            return index;
        }
    }
    clause.len()
}

/// Whether the literal is another than this one, and isn't false.
#[inline(always)]
fn is_other(assignment: &[AssignedValue], step: u32, own: Literal, literal: Literal) -> bool
    requires { literal.variable < length assignment.now }
    ensures { result ≡ (not (is_false (assigned_by assignment.now step) literal) && not (is_same own literal)) }
{
    if is_false(assignment, step, literal) {
        return false;
    }
    !own.is_same(literal)
}

/// Whether each of the literals is this one, or false.
#[inline(always)]
fn is_alone(assignment: &[AssignedValue], step: u32, own: Literal, others: &[Literal]) -> bool
    requires { All (λ l. l.variable < length assignment.now) others.now }
    ensures { result ≡ list_all (is_same own) (filter (λ l. not (is_false (assigned_by assignment.now step) l)) others.now) }
{
    for literal in others {
        if is_other(assignment, step, own, *literal) {
            return false;
        }
    }
    true
}

/// What the clause is under what the step assigned.
#[inline]
#[tactic(auto, using(crate::proofs::AssignmentLemmas::status_conflict))]
fn status_of(assignment: &[AssignedValue], step: u32, clause: &[Literal]) -> ClauseStatus
    requires { All (λ l. l.variable < length assignment.now) clause.now }
    ensures status { status_view result ≡ status_of (assigned_by assignment.now step) clause.now }
    ensures inside { IsInside (length assignment.now) (status_view result) }
{
    let first = false_front(assignment, step, clause);
    if first == clause.len() {
        return ClauseStatus::Conflict;
    }
    if is_alone(assignment, step, clause[first], &clause[first + 1..]) {
        ClauseStatus::Unit(clause[first])
    } else {
        ClauseStatus::NotUnit
    }
}

/// Makes the literal true.
#[inline(always)]
#[tactic(auto, unfolding(crate::specs::Working::Assignments::assigned_by))]
fn assign(assignment: &mut [AssignedValue], step: u32, literal: Literal)
    requires { literal.variable < length assignment.old }
    ensures known { assigned_by assignment.new step ≡ assign (assigned_by assignment.old step) literal }
    ensures steps { All (λ m. m.step ≤ step) assignment.old → All (λ m. m.step ≤ step) assignment.new }
{
    assignment[literal.variable as usize] = AssignedValue {
        step,
        value: literal.positive,
    };
}

/// Makes each literal of the clause false, in their order.
fn deny(assignment: &mut [AssignedValue], step: u32, clause: &[Literal])
    requires { All (λ l. l.variable < length assignment.old) clause.now }
    ensures known { assigned_by assignment.new step ≡ fold (λ known literal. assign known (negated literal)) (assigned_by assignment.old step) clause.now }
    ensures steps { All (λ m. m.step ≤ step) assignment.old → All (λ m. m.step ≤ step) assignment.new }
{
    for literal in clause {
        assign(assignment, step, literal.negated());
    }
}

/// The clause of an index.
#[inline(always)]
fn clause_of<'c>(cnf: &'c Cnf, steps: &'c ProofSteps, index: u32) -> &'c [Literal]
    requires after { IsAfter cnf.now steps.now }
    requires known { index < length cnf.now.clauses + length steps.now.numbers.items }
    ensures clause { result.now ≡ indexed cnf.now steps.now index }
    ensures variables { All (λ l. l.variable ≤ cnf.now.variables) result.now }
{
    if index < cnf.len() {
        cnf.clause(index + 1)
    } else {
        steps.clauses.get((index - cnf.len()) as usize)
    }
}

/// Reads the clause of an index, and makes it true where it is a unit.
#[inline(always)]
fn propagate_one(
    cnf: &Cnf,
    steps: &ProofSteps,
    assignment: &mut [AssignedValue],
    step: u32,
    index: u32,
) -> ClauseStatus
    requires after { IsAfter cnf.now steps.now }
    requires known { index < length cnf.now.clauses + length steps.now.numbers.items }
    requires sized { cnf.now.variables < length assignment.old }
    ensures status { status_view result ≡ status_of (assigned_by assignment.old step) (indexed cnf.now steps.now index) }
    ensures known { assigned_by assignment.new step ≡ assign_unit (assigned_by assignment.old step) (status_view result) }
    ensures steps { All (λ m. m.step ≤ step) assignment.old → All (λ m. m.step ≤ step) assignment.new }
{
    let status = status_of(assignment, step, clause_of(cnf, steps, index));
    if let ClauseStatus::Unit(literal) = status {
        assign(assignment, step, literal);
    }
    status
}

/// Propagates the clauses of the indices, in their order: counts those up to the first conflict.
fn propagate(
    cnf: &Cnf,
    steps: &ProofSteps,
    assignment: &mut [AssignedValue],
    step: u32,
    indices: &[u32],
) -> Result<usize, ProofFault>
    requires after { IsAfter cnf.now steps.now }
    requires known { All (λ index. index < length cnf.now.clauses + length steps.now.numbers.items) indices.now }
    requires sized { cnf.now.variables < length assignment.old }
    ensures inside { IfOk result (λ used. used ≤ length indices.now) }
    ensures propagated { result_map (λ used. take used indices.now) result ≡ propagate (indexed cnf.now steps.now) (assigned_by assignment.old step) indices.now }
    ensures steps { All (λ m. m.step ≤ step) assignment.old → All (λ m. m.step ≤ step) assignment.new }
{
    for (position, index) in indices.iter().enumerate() {
        match propagate_one(cnf, steps, assignment, step, *index) {
            ClauseStatus::Conflict => return Ok(position + 1),
            ClauseStatus::Unit(_) => {}
            ClauseStatus::NotUnit => return Err(ProofFault::HintNotUnit),
        }
    }
    Err(ProofFault::NoConflict)
}

/// Reverse unit propagation: makes all literals of the clause false, and propagates the clauses of the indices, in order.
/// Gives how many indices were used, the clause of the last one a conflict. `HintNotUnit` where a clause is no unit,
/// `NoConflict` where the indices end first.
pub(crate) fn check_rup(
    cnf: &Cnf,
    steps: &ProofSteps,
    assignment: &mut [AssignedValue],
    step: u32,
    clause: &[Literal],
    indices: &[u32],
) -> Result<usize, ProofFault>
    requires after { IsAfter cnf.now steps.now }
    requires known { All (λ index. index < length cnf.now.clauses + length steps.now.numbers.items) indices.now }
    requires sized { cnf.now.variables < length assignment.old }
    requires variables { All (λ l. l.variable ≤ cnf.now.variables) clause.now }
    requires fresh { All (λ m. m.step < step) assignment.old }
    ensures inside { IfOk result (λ used. used ≤ length indices.now) }
    ensures propagated { result_map (λ used. take used indices.now) result ≡ propagate (indexed cnf.now steps.now) (denied clause.now) indices.now }
    ensures steps { All (λ m. m.step ≤ step) assignment.new }
{
    deny(assignment, step, clause);
    propagate(cnf, steps, assignment, step, indices)
}
