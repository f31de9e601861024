//! Cardinality constraints: that items are true, or that they aren't, and the clauses that define auxiliary variables.
ghost use Rattle.std.specs.Prelude.{◌≡◌, ◌++◌, ◌∷◌, [], IfOk, OnOk, drop, map};
ghost use Rattle.cudf_lrat.specs.Steps.{negated};
ghost use Rattle.cudf_cnf.specs.Cnf.{is_out};
ghost use Rattle.cudf_better.specs.Cardinality.{strict_of};
ghost use Rattle.cudf_better.specs.Working.Definitions.{IsBounded, IsStrict, Reaches, at_most, with_clauses, with_constraints, with_terms};
ghost use Rattle.cudf_better.specs.Working.Constraints.{constraints_of};
ghost use Rattle.cudf_better.specs.Better.{false_dnf, item, true_dnf};

use crate::items::Items;
use crate::network::put_counter;
use cudf_cnf::{negative_literal, positive_literal};
use cudf_lrat::{Cnf, Lists, Literal};
use std::alloc::{AllocError, Global};
use std::marker::Model;

/// Puts that each variable is false, or one of the literals is true.
fn put_kept(
    definitions: &mut Definitions,
    strict: &[Literal],
    outputs: &[u32],
) -> Result<(), AllocError>
    ensures { OnOk result (definitions.new ≡ with_clauses definitions.old (map (λ variable. strict.now ++ is_out variable ∷ []) outputs.now)) }
{
    for variable in outputs {
        definitions.put_clause(strict, negative_literal(*variable as u64))?;
    }
    Ok(())
}

/// Puts that at most so many of the sorted variables are true unless one of the literals is. Adds the literal that fewer are.
/// `false`: fewer are in any case.
fn put_bound(
    definitions: &mut Definitions,
    outputs: &[u32],
    most: usize,
    strict: &mut Vec<Literal>,
) -> Result<bool, AllocError>
    ensures definitions { IfOk result (λ more. definitions.new ≡ with_clauses definitions.old (map (λ variable. strict.old.items ++ is_out variable ∷ []) (drop most outputs.now))) }
    ensures strict { IfOk result (λ more. IsStrict more (strict_of most outputs.now) strict.old.items strict.new.items) }
{
    let first = most.min(outputs.len());
    let over = &outputs[first..];
    put_kept(definitions, strict, over)?;
    if most == 0 {
        return Ok(true);
    }
    if most > outputs.len() {
        return Ok(false);
    }
    let own = negative_literal(outputs[most - 1] as u64);
    strict.push(own)?;
    Ok(true)
}

/// Puts a counter of the formulas, and that at most so many are true unless one of the literals is. Adds the literal that
/// fewer are. `false`: fewer are in any case.
pub(crate) fn put_constraint(
    definitions: &mut Definitions,
    formulas: &Formulas,
    most: usize,
    strict: &mut Vec<Literal>,
) -> Result<bool, AllocError>
    ensures { IfOk result (λ more. IsBounded more (at_most most formulas.now) definitions.old strict.old.items definitions.new strict.new.items) }
{
    let outputs = put_counter(definitions, formulas, most)?;
    let more = put_bound(definitions, &outputs, most, strict)?;
    Ok(more)
}

/// At most so many of the formulas are to be true.
#[derive(Drop)]
pub(crate) struct Constraint {
    pub(crate) formulas: Formulas,
    pub(crate) bound: usize,
}

/// Puts that some constraint is strict, and that all before it are satisfied.
pub(crate) fn put_constraints(
    definitions: &mut Definitions,
    constraints: &[Constraint],
) -> Result<(), AllocError>
    ensures { OnOk result (Reaches (with_constraints definitions.old [] (constraints_of constraints.now)) definitions.new) }
{
    let mut strict = Vec::new(definitions.alloc());
    for constraint in constraints {
        let formulas = &constraint.formulas;
        if !put_constraint(definitions, formulas, constraint.bound, &mut strict)? {
            return Ok(());
        }
    }
    definitions.put_whole(&strict)?;
    Ok(())
}

/// So many variables are allowed: SAT solvers number them by an `i32`.
pub(crate) const MOST_VARIABLES: u32 = 2_147_483_647;

/// Clauses, and the number of the next auxiliary variable.
#[derive(Drop)]
pub(crate) struct Definitions {
    alloc: Global,
    clauses: Lists<Literal>,
    next: u32,
    scratch: Vec<Literal>,
}

impl Model for Definitions {
    ghost use Rattle.cudf_lrat.specs.Lists.{lists_in};
    ghost use Rattle.cudf_better.specs.Working.Definitions.{PlainDefinitions};

    ghost Value = { PlainDefinitions };

    ghost view = { λ d. record { next = d.next; clauses = lists_in d.clauses } };
}

/// Adds the opposites of literals.
pub(crate) fn add_negated(literals: &mut Vec<Literal>, others: &[Literal]) -> Result<(), AllocError>
    ensures { OnOk result (literals.new.items ≡ literals.old.items ++ map negated others.now) }
{
    for other in others {
        literals.push(other.negated())?;
    }
    Ok(())
}

impl Definitions {
    ghost use Rattle.std.specs.Prelude.{◌≡◌, ◌+◌, ◌++◌, ◌∷◌, [], OnOk, IfOk};
    ghost use Rattle.cudf_better.specs.Working.Definitions.{IsMade, ended, with_clauses, with_terms};

    /// Without clauses; the first variable that is defined is `next`. Takes no memory.
    pub(crate) fn new(alloc: Global, next: u32) -> Self
        ensures { result ≡ record { next = next; clauses = [] } }
    {
        Definitions {
            alloc,
            clauses: Lists::new(alloc),
            next,
            scratch: Vec::new(alloc),
        }
    }

    /// Where its memory comes from.
    pub(crate) fn alloc(&self) -> Global {
        self.alloc
    }

    /// Puts a clause of the next variable's definition: it is true where all of these literals are.
    pub(crate) fn put(&mut self, term: &[Literal]) -> Result<(), AllocError>
        ensures { OnOk result (self.new ≡ with_terms self.old (term.now ∷ [])) }
    {
        self.scratch.clear();
        add_negated(&mut self.scratch, term)?;
        self.scratch.push(positive_literal(self.next as u64))?;
        self.clauses.push(&self.scratch)
    }

    /// Puts a clause that defines nothing: of these literals and the last one, one is true.
    pub(crate) fn put_clause(&mut self, front: &[Literal], last: Literal) -> Result<(), AllocError>
        ensures { OnOk result (self.new ≡ with_clauses self.old ((front.now ++ last ∷ []) ∷ [])) }
    {
        self.scratch.clear();
        self.scratch.extend_from_slice(front)?;
        self.scratch.push(last)?;
        self.clauses.push(&self.scratch)
    }

    /// Puts a clause that defines nothing.
    pub(crate) fn put_whole(&mut self, clause: &[Literal]) -> Result<(), AllocError>
        ensures { OnOk result (self.new ≡ with_clauses self.old (clause.now ∷ [])) }
    {
        self.clauses.push(clause)
    }

    /// Puts these clauses.
    pub(crate) fn put_all(&mut self, cnf: &Cnf) -> Result<(), AllocError>
        ensures { OnOk result (self.new ≡ with_clauses self.old cnf.now.clauses) }
    {
        for index in 0..cnf.len() {
            self.put_whole(cnf.clause(index + 1))?;
        }
        Ok(())
    }

    /// Ends the next variable's definition: the variable. 4294967295 is given again and again; `into_cnf` then gives `None`.
    pub(crate) fn finish_variable(&mut self) -> u32
        ensures variable { result ≡ self.old.next }
        ensures next { self.new ≡ ended self.old }
    {
        let variable = self.next;
        self.next = variable.saturating_add(1);
        variable
    }

    /// The clauses, over the variables before the next one. `None` where there are more than 2147483647 variables or 4294967295
    /// clauses.
    ///
    /// # Errors
    ///
    /// `AllocError` where a clause has a variable that isn't before the next one: never, but callers don't prove it.
    pub(crate) fn into_cnf(self) -> Result<Option<Cnf>, AllocError>
        ensures { IfOk result (IsMade self) }
    {
        let variables = self.next.saturating_sub(1);
        if variables > MOST_VARIABLES || self.clauses.len() > u32::MAX as usize {
            return Ok(None);
        }
        match Cnf::of(variables, self.clauses) {
            Some(cnf) => Ok(Some(cnf)),
            None => Err(AllocError),
        }
    }
}

/// Puts the next variable's definition: it is true where the item is.
fn define_true(
    definitions: &mut Definitions,
    some: &[Literal],
    none: &[Literal],
) -> Result<(), AllocError>
    ensures { OnOk result (definitions.new ≡ with_terms definitions.old (true_dnf (item some.now none.now))) }
{
    for literal in some {
        let mut term = Vec::new(definitions.alloc());
        term.push(*literal)?;
        add_negated(&mut term, none)?;
        definitions.put(&term)?;
    }
    Ok(())
}

/// Puts terms of the next variable's definition: it is true where one of the literals is.
fn put_each(definitions: &mut Definitions, literals: &[Literal]) -> Result<(), AllocError>
    ensures { OnOk result (definitions.new ≡ with_terms definitions.old (map (λ literal. literal ∷ []) literals.now)) }
{
    for literal in literals {
        definitions.put(&[*literal])?;
    }
    Ok(())
}

/// Puts the next variable's definition: it is true where the item isn't.
fn define_false(
    definitions: &mut Definitions,
    some: &[Literal],
    none: &[Literal],
) -> Result<(), AllocError>
    ensures { OnOk result (definitions.new ≡ with_terms definitions.old (false_dnf (item some.now none.now))) }
{
    let mut term = Vec::new(definitions.alloc());
    add_negated(&mut term, some)?;
    definitions.put(&term)?;
    put_each(definitions, none)
}

/// That each of some items is true, or that each isn't.
#[derive(Drop)]
pub(crate) struct Formulas {
    items: Items,
    is_true: bool,
}

impl Model for Formulas {
    ghost use Rattle.std.specs.Prelude.{List};
    ghost use Rattle.cudf_better.specs.Cardinality.{Dnf};
    ghost use Rattle.cudf_better.specs.Working.Definitions.{formulas_of};

    ghost Value = { List Dnf };

    ghost view = { λ f. formulas_of f.is_true f.items };
}

impl Formulas {
    ghost use Rattle.std.specs.Prelude.{◌≡◌, ◌<◌, [], OnOk, length, slice_index_or};
    ghost use Rattle.cudf_better.specs.Working.Definitions.{formulas_of, with_terms};

    /// Of these items.
    pub(crate) fn of(items: Items, is_true: bool) -> Self
        ensures { result ≡ formulas_of is_true items }
    {
        Formulas { items, is_true }
    }

    /// How many there are.
    pub(crate) fn len(&self) -> usize
        ensures { result ≡ length self.now }
    {
        self.items.len()
    }

    /// Puts the next variable's definition: it is true where a formula is, by its index from 0.
    pub(crate) fn put(&self, definitions: &mut Definitions, index: usize) -> Result<(), AllocError>
        requires { index < length self.now }
        ensures { OnOk result (definitions.new ≡ with_terms definitions.old (slice_index_or self.now index [])) }
    {
        let some = self.items.some(index);
        let none = self.items.none(index);
        if self.is_true {
            define_true(definitions, some, none)?;
            return Ok(());
        }
        define_false(definitions, some, none)?;
        Ok(())
    }
}
