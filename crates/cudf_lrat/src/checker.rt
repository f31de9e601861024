//! Checks a proof, line by line.
ghost use Rattle.std.specs.Prelude.{◌≡◌, ◌+◌, ◌<◌, ◌≤◌, [], not, All, IfOk, IsTrue, OnOk, length, map, option_map, position};
ghost use Rattle.std.specs.List.{list_any};
ghost use Rattle.cudf_text.specs.Lines.{lines};
ghost use Rattle.cudf_lrat.specs.Answers.{taken, with_step, answer_view, checked, checked_from};
ghost use Rattle.cudf_lrat.specs.Kinds.{kind_text};
ghost use Rattle.cudf_lrat.specs.Lines.{proof_line, is_empty};
ghost use Rattle.cudf_lrat.specs.Steps.{denied, derived, greatest_number, is_beyond, is_unnamed, literal_of, propagate, result_map, step_result, values};
ghost use Rattle.cudf_lrat.specs.Working.Indices.{AreIndicesOf, IsAfter, indexed, number_at, steps_in};
ghost use Rattle.cudf_lrat.specs.Working.Views.{taken_view};

use crate::assignment::{AssignedValue, check_rup};
use crate::cnf::{Cnf, Literal};
use crate::reader::{ProofLine, SignedNumber, first_line, has_negative, read_line};
use crate::steps::{ProofSteps, core_of};
use std::alloc::{AllocError, Global};

/// What a proof shows of some clauses.
#[derive(Drop)]
pub enum Answer {
    /// No assignment satisfies the clauses of these numbers from 1, which ascend: those that the
    /// proof's step without literals needs.
    Refuted(Vec<u32>),
    /// Nothing: its first faulty line, from 1, and what is wrong there.
    Faulty { line: u64, kind: ProofFault },
}

/// What is wrong with a line of a proof (own), in the order in which faults of one line are reported.
#[derive(Clone, Copy)]
pub enum ProofFault {
    /// L1: it is no step, deletion, comment or blank line.
    NotAStep,
    /// L2: its number is not above all before it.
    NumberNotNew,
    /// L3: a literal is beyond the number of variables.
    NoSuchVariable,
    /// L4: a hint is negative, as those of steps by resolution asymmetric tautologies are.
    RatStep,
    /// L5: a hint is the number of no clause.
    NoSuchClause,
    /// L6: two or more literals of a hint's clause aren't false.
    HintNotUnit,
    /// L7: the hints end before a clause is false.
    NoConflict,
    /// L8: no step is without literals; on the last line, or line 1.
    EndsEarly,
}

impl ProofFault {
    /// The kind's name, one space, and what is wrong, as in `L8 proof ends early`.
    pub fn text(self) -> &'static str
        ensures { result.now ≡ kind_text self }
    {
        match self {
            ProofFault::NotAStep => "L1 not a step",
            ProofFault::NumberNotNew => "L2 number is not new",
            ProofFault::NoSuchVariable => "L3 no such variable",
            ProofFault::RatStep => "L4 RAT is not accepted",
            ProofFault::NoSuchClause => "L5 no such clause",
            ProofFault::HintNotUnit => "L6 hint is not unit",
            ProofFault::NoConflict => "L7 hints without conflict",
            ProofFault::EndsEarly => "L8 proof ends early",
        }
    }
}

/// Whether the text is a proof that no assignment satisfies the clauses (own, after LRAT's text
/// form).
///
/// A line is blank, a comment (its first word is `c`), a deletion (a number, `d`, numbers, `0`), or
/// a step: a number, literals, `0`, hints, `0`. Words are between spaces and tabs, and numbers
/// are digits up to 2^64 - 1. Comments and deletions are passed over. A step's number is above
/// all before it, and those of the clauses before all steps'. Its literals are taken to be false; then
/// a hint's clause whose literals are all false makes the step a clause under its number, and one
/// with a single literal that isn't false makes that true. The first step without literals
/// ends the proof, and what follows it isn't read. Where one of the clauses is empty, the text isn't
/// read, and the first such clause is the core.
///
/// A step costs the lengths of the clauses that its hints name. Memory is held for each step's
/// literals and hints, and 8 bytes for each variable.
///
/// # Errors
///
/// `AllocError` where memory is refused, and where there are more than 2^32 - 1 clauses and steps
/// together.
#[tactic(auto, unfolding(crate::specs::Answers::checked))]
pub fn check(alloc: Global, cnf: &Cnf, proof: &[u8]) -> Result<Answer, AllocError>
    ensures { IfOk result (λ answer. answer_view answer ≡ checked cnf.now.variables cnf.now.clauses proof.now) }
{
    match first_empty(cnf) {
        Some(number) => Ok(Answer::Refuted(vec![in alloc; number]?)),
        None => check_lines(alloc, cnf, proof),
    }
}

/// The number of the first empty clause.
#[tactic(auto, using(crate::proofs::PositionLemmas::position_at))]
fn first_empty(cnf: &Cnf) -> Option<u32>
    ensures { result ≡ option_map (λ index. index + 1) (position is_empty cnf.now.clauses) }
{
    for index in 0..cnf.len() {
        if cnf.clause(index + 1).is_empty() {
            return Some(index + 1);
        }
    }
    None
}

/// The answer where no clause is empty.
fn check_lines(alloc: Global, cnf: &Cnf, proof: &[u8]) -> Result<Answer, AllocError>
    ensures { IfOk result (λ answer. answer_view answer ≡ checked_from cnf.now.variables cnf.now.clauses [] 0 (lines proof.now)) }
{
    let mut checker = Checker::new(alloc, cnf)?;
    let mut rest = proof;
    let mut line = 0;
    while let Some((text, after)) = first_line(rest) {
        line += 1;
        match checker.take(cnf, text)? {
            ProofState::On => rest = after,
            ProofState::Refuted => {
                let core = core_of(alloc, cnf, &checker.steps)?;
                return Ok(Answer::Refuted(core));
            }
            ProofState::Fault(kind) => return Ok(Answer::Faulty { line, kind }),
        }
    }
    Ok(Answer::Faulty {
        line: line.max(1),
        kind: ProofFault::EndsEarly,
    })
}

/// What a line did.
#[derive(Clone, Copy)]
pub(crate) enum ProofState {
    /// The proof goes on.
    On,
    /// The last step has no literals.
    Refuted,
    /// The line is faulty.
    Fault(ProofFault),
}

/// What is known after some lines of a proof.
#[derive(Drop)]
pub(crate) struct Checker {
    /// The steps so far.
    pub steps: ProofSteps,
    /// By its number, what was assigned to each variable.
    pub assignment: Vec<AssignedValue>,
    /// The last step that assigned values.
    pub last: u32,
    // Of the last line that was read:
    pub literals: Vec<SignedNumber>,
    pub hints: Vec<SignedNumber>,
    pub clause: Vec<Literal>,
    pub indices: Vec<u32>,
}

/// Reads the literals into the clause, in place of what was there, where none is beyond the variables.
fn read_clause(
    literals: &[SignedNumber],
    variables: u32,
    clause: &mut Vec<Literal>,
) -> Result<bool, AllocError>
    ensures within { IfOk result (λ within. within ≡ not (list_any (is_beyond variables) literals.now)) }
    ensures clause { IfOk result (λ within. IsTrue within → clause.new.items ≡ map literal_of literals.now) }
    ensures variables { OnOk result (All (λ l. l.variable ≤ variables) clause.new.items) }
{
    clause.clear();
    for literal in literals {
        if literal.value > u64::from(variables) {
            return Ok(false);
        }
        clause.push(Literal {
            variable: literal.value as u32,
            positive: !literal.negative,
        })?;
    }
    Ok(true)
}

/// Finds the indices of the hints' clauses, where each names one.
fn find_all(
    cnf: &Cnf,
    steps: &ProofSteps,
    hints: &[SignedNumber],
    indices: &mut Vec<u32>,
) -> Result<bool, AllocError>
    requires { IsAfter cnf.now steps.now }
    ensures named { IfOk result (λ all. all ≡ not (list_any (is_unnamed cnf.now.clauses (steps_in cnf.now steps.now)) (values hints.now))) }
    ensures indices { IfOk result (λ all. IsTrue all → AreIndicesOf cnf.now steps.now (values hints.now) indices.new.items) }
{
    indices.clear();
    for hint in hints {
        match steps.find(cnf, hint.value) {
            Some(index) => indices.push(index)?,
            None => return Ok(false),
        }
    }
    Ok(true)
}

impl Checker {
    ghost use Rattle.cudf_lrat.specs.Working.Ready.{IsReady};

    /// Before the first line.
    pub(crate) fn new(alloc: Global, cnf: &Cnf) -> Result<Self, AllocError>
        ensures ready { IfOk result (IsReady cnf.now) }
        ensures steps { IfOk result (λ checker. steps_in cnf.now checker.steps ≡ []) }
    {
        let unassigned = AssignedValue {
            step: 0,
            value: false,
        };
        let assignment = vec![in alloc; unassigned; cnf.variables() as usize + 1]?;
        Ok(Checker {
            steps: ProofSteps::new(alloc),
            assignment,
            last: 0,
            literals: Vec::new(alloc),
            hints: Vec::new(alloc),
            clause: Vec::new(alloc),
            indices: Vec::new(alloc),
        })
    }

    /// Takes the next line.
    pub(crate) fn take(&mut self, cnf: &Cnf, text: &[u8]) -> Result<ProofState, AllocError>
        requires { IsReady cnf.now self.old }
        ensures taken { IfOk result (λ t. taken_view t (steps_in cnf.now self.new.steps)
            ≡ taken cnf.now.variables cnf.now.clauses (steps_in cnf.now self.old.steps) (proof_line text.now)) }
        ensures ready { OnOk result (IsReady cnf.now self.new) }
    {
        match read_line(text, &mut self.literals, &mut self.hints)? {
            ProofLine::Skipped => Ok(ProofState::On),
            ProofLine::Step(number) => self.take_step(cnf, number),
            ProofLine::Invalid => Ok(ProofState::Fault(ProofFault::NotAStep)),
        }
    }

    /// Takes the step whose literals and hints were read.
    #[tactic(auto, unfolding(crate::specs::Steps::step_result))]
    fn take_step(&mut self, cnf: &Cnf, number: u64) -> Result<ProofState, AllocError>
        requires { IsReady cnf.now self.old }
        ensures taken { IfOk result (λ t. taken_view t (steps_in cnf.now self.new.steps)
            ≡ with_step (steps_in cnf.now self.old.steps) (step_result cnf.now.variables cnf.now.clauses (steps_in cnf.now self.old.steps) number self.old.literals.items self.old.hints.items)) }
        ensures ready { OnOk result (IsReady cnf.now self.new) }
    {
        if number <= self.steps.greatest_number(cnf) {
            return Ok(ProofState::Fault(ProofFault::NumberNotNew));
        }
        let within = read_clause(&self.literals, cnf.variables(), &mut self.clause)?;
        if !within {
            return Ok(ProofState::Fault(ProofFault::NoSuchVariable));
        }
        if has_negative(&self.hints) {
            return Ok(ProofState::Fault(ProofFault::RatStep));
        }
        let named = find_all(cnf, &self.steps, &self.hints, &mut self.indices)?;
        if !named {
            return Ok(ProofState::Fault(ProofFault::NoSuchClause));
        }
        self.derive(cnf, number)
    }

    /// Adds the step whose clause and indices were read, where propagation finds a conflict.
    fn derive(&mut self, cnf: &Cnf, number: u64) -> Result<ProofState, AllocError>
        requires ready { IsReady cnf.now self.old }
        requires new { greatest_number cnf.now.clauses (steps_in cnf.now self.old.steps) < number }
        requires known { All (λ index. index < length cnf.now.clauses + length self.old.steps.numbers.items) self.old.indices.items }
        requires variables { All (λ l. l.variable ≤ cnf.now.variables) self.old.clause.items }
        ensures taken { IfOk result (λ t. taken_view t (steps_in cnf.now self.new.steps)
            ≡ with_step (steps_in cnf.now self.old.steps) (result_map (λ used. derived number self.old.clause.items (map (number_at (length cnf.now.clauses) self.old.steps.numbers.items) used))
            (propagate (indexed cnf.now self.old.steps) (denied self.old.clause.items) self.old.indices.items))) }
        ensures ready { OnOk result (IsReady cnf.now self.new) }
    {
        if self.last == u32::MAX {
            return Err(AllocError);
        }
        self.last += 1;
        match check_rup(
            cnf,
            &self.steps,
            &mut self.assignment,
            self.last,
            &self.clause,
            &self.indices,
        ) {
            Ok(used) => {
                self.steps
                    .push(cnf, number, &self.clause, &self.indices[..used])?;
                if self.clause.is_empty() {
                    Ok(ProofState::Refuted)
                } else {
                    Ok(ProofState::On)
                }
            }
            Err(kind) => Ok(ProofState::Fault(kind)),
        }
    }
}
