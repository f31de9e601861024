//! Literals, and clauses of them: a formula in conjunctive normal form.
ghost use Rattle.std.specs.Prelude.{◌≡◌, ◌<◌, ◌≤◌, ◌++◌, ◌∷◌, [], ◌^◌, ◌↔◌, All, OnOk, OnErr, length, slice_index_or, slice_range, IsTrue};
ghost use Rattle.std.specs.List.{flat_map};

use std::alloc::{AllocError, Global};
use std::marker::Model;

/// A literal.
#[derive(Clone, Copy)]
pub struct Literal {
    /// The variable that it speaks of, from 1.
    pub variable: u32,
    /// Whether the variable is to be true.
    pub positive: bool,
}

impl Literal {
    ghost use Rattle.cudf_lrat.specs.Steps.{is_same, negated};

    /// Its opposite, which is true exactly where this one is false.
    pub fn negated(self) -> Literal
        ensures { result ≡ negated self }
    {
        Literal {
            variable: self.variable,
            positive: !self.positive,
        }
    }

    /// Whether it is this literal.
    #[inline(always)]
    pub(crate) fn is_same(self, other: Literal) -> bool
        ensures { result ≡ is_same self other }
    {
        self.variable == other.variable && self.positive == other.positive
    }
}

/// Where a list begins, and where it ends.
#[derive(Clone, Copy)]
pub struct Span {
    start: usize,
    end: usize,
}

/// Lists, one after the other: a list takes its elements and 16 bytes.
#[derive(Drop)]
pub struct Lists<T> {
    items: Vec<T>,
    spans: Vec<Span>,
    ghost inside: { All (λ s. (s.start ≤ s.end) × (s.end ≤ length items.items)) spans.items },
    // No memory is held but for what is in a list.
    ghost whole: { flat_map (λ s. slice_range items.items s.start s.end) spans.items ≡ items.items },
}

impl<T: Copy> Lists<T> {
    ghost use Rattle.cudf_lrat.specs.Lists.{lists_in};

    /// No lists. Takes no memory.
    pub fn new(alloc: Global) -> Self
        ensures { lists_in result ≡ [] }
    {
        Lists {
            items: Vec::new(alloc),
            spans: Vec::new(alloc),
        }
    }

    /// How many lists there are.
    pub fn len(&self) -> usize
        ensures { result ≡ length (lists_in self.now) }
    {
        self.spans.len()
    }

    /// Adds a list after the others.
    ///
    /// # Errors
    ///
    /// `AllocError` where memory is refused. Then the lists are as before.
    pub fn push(&mut self, list: &[T]) -> Result<(), AllocError>
        ensures ok { OnOk result (lists_in self.new ≡ lists_in self.old ++ list.now ∷ []) }
        ensures err { OnErr result (lists_in self.new ≡ lists_in self.old) }
    {
        let start = self.items.len();
        self.items.extend_from_slice(list)?;
        let end = self.items.len();
        if self.spans.push(Span { start, end }).is_err() {
            self.items.truncate(start);
            return Err(AllocError);
        }
        Ok(())
    }

    /// A list by its index from 0.
    #[inline(always)]
    pub fn get(&self, index: usize) -> &[T]
        requires { index < length (lists_in self.now) }
        ensures { result.now ≡ slice_index_or (lists_in self.now) index [] }
    {
        let span = self.spans[index];
        &self.items[span.start..span.end]
    }

    /// Takes all lists out, and keeps the memory.
    pub fn clear(&mut self)
        ensures { lists_in self.new ≡ [] }
    {
        self.spans.clear();
        self.items.clear();
    }
}

/// Clauses, numbered from 1 in their order, over the variables from 1 to a number.
#[derive(Drop)]
pub struct Cnf {
    variables: u32,
    clauses: Lists<Literal>,
}

impl Model for Cnf {
    ghost use Rattle.std.specs.Prelude.{◌<◌, ◌^◌, All, length};
    ghost use Rattle.cudf_lrat.specs.Lists.{lists_in};
    ghost use Rattle.cudf_lrat.specs.Literals.{IsWithin, PlainCnf};

    ghost Value = { PlainCnf };

    ghost view = { λ c. record { variables = c.variables; clauses = lists_in c.clauses } };

    ghost invariant = { λ c. (length (lists_in c.clauses) < 2 ^ 32) × All (λ clause. All (IsWithin c.variables) clause) (lists_in c.clauses) };
}

impl Cnf {
    ghost use Rattle.std.specs.Prelude.{IfSome};
    ghost use Rattle.cudf_lrat.specs.Lists.{lists_in};
    ghost use Rattle.cudf_lrat.specs.Literals.{IsWithin, clause_at};

    /// Whether all variables of a clause are from 1 to a number.
    fn is_within(variables: u32, clause: &[Literal]) -> bool
        ensures { IsTrue result ↔ All (IsWithin variables) clause.now }
    {
        clause.iter().all(|literal| 0 < literal.variable && literal.variable <= variables)
    }

    /// Whether all variables of all clauses are from 1 to `variables`.
    fn are_within(variables: u32, clauses: &Lists<Literal>) -> bool
        ensures { IsTrue result → All (All (IsWithin variables)) (lists_in clauses.now) }
    {
        for index in 0..clauses.len() {
            if !Cnf::is_within(variables, clauses.get(index)) {
                return false;
            }
        }
        true
    }

    /// Without clauses. Takes no memory.
    pub fn new(alloc: Global, variables: u32) -> Self
        ensures { result ≡ record { variables = variables; clauses = [] } }
    {
        Cnf {
            variables,
            clauses: Lists::new(alloc),
        }
    }

    /// These clauses, over the variables from 1 to a number. `None` where there are more than 4294967295 of them, or one has a
    /// variable that isn't there.
    pub fn of(variables: u32, clauses: Lists<Literal>) -> Option<Self>
        ensures { IfSome result (λ cnf. cnf ≡ record { variables = variables; clauses = lists_in clauses }) }
    {
        if clauses.len() > u32::MAX as usize || !Cnf::are_within(variables, &clauses) {
            return None;
        }
        Some(Cnf { variables, clauses })
    }

    /// The number of variables.
    pub fn variables(&self) -> u32
        ensures variables { result ≡ self.now.variables }
        ensures few { length self.now.clauses < 2 ^ 32 }
    {
        self.variables
    }

    /// How many clauses there are.
    pub fn len(&self) -> u32
        ensures { result ≡ length self.now.clauses }
    {
        self.clauses.len() as u32
    }

    /// Whether there are none.
    pub fn is_empty(&self) -> bool
        ensures { IsTrue result ↔ (self.now.clauses ≡ []) }
    {
        self.clauses.len() == 0
    }

    /// Whether all variables of the clause are there.
    pub fn has_variables_of(&self, clause: &[Literal]) -> bool
        ensures { IsTrue result ↔ All (IsWithin self.now.variables) clause.now }
    {
        Cnf::is_within(self.variables, clause)
    }

    /// Adds a clause.
    ///
    /// # Errors
    ///
    /// `AllocError` where memory is refused, or there are 2^32 - 1 clauses. Then the clauses are as
    /// before.
    pub fn push(&mut self, clause: &[Literal]) -> Result<(), AllocError>
        requires { All (IsWithin self.old.variables) clause.now }
        ensures variables { self.new.variables ≡ self.old.variables }
        ensures ok { OnOk result (self.new.clauses ≡ self.old.clauses ++ clause.now ∷ []) }
        ensures err { OnErr result (self.new.clauses ≡ self.old.clauses) }
    {
        if self.clauses.len() >= u32::MAX as usize {
            return Err(AllocError);
        }
        self.clauses.push(clause)
    }

    /// A clause by its number from 1.
    #[inline(always)]
    pub fn clause(&self, number: u32) -> &[Literal]
        requires some { 0 < number }
        requires within { number ≤ length self.now.clauses }
        ensures clause { result.now ≡ clause_at self.now.clauses number }
        ensures variables { All (IsWithin self.now.variables) result.now }
    {
        self.clauses.get(number as usize - 1)
    }
}
