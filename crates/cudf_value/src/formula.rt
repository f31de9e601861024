//! The type `vpkgformula`. Formulas and clauses are texts that were judged: what they say is read of them as it is asked for.
ghost use Rattle.std.specs.Prelude.{◌≡◌, ◌≤◌, ◌^◌, ◌∷◌, [], length, unwrap_or, is_some, option_copied, IsTrue};
ghost use Rattle.std.specs.Str.{byte};
ghost use Rattle.cudf_value.specs.Parts.{parts, read_parts};
ghost use Rattle.cudf_value.specs.Formulas.{clause, formula};
ghost use Rattle.cudf_value.specs.Lists.{clauses_in, atoms_in};

pub(crate) mod reading;

use crate::atom::{Atom, first_atom, next_atom};
use crate::number::cut;

/// A conjunction; without clauses it holds always (own). Two are equal where their texts are.
#[derive(Clone, Copy, Debug, PartialEq, Eq)]
pub struct Formula<'t> {
    text: &'t str,
    ghost sound: { IsTrue (is_some (formula text.now)) },
    // So that its clauses can be numbered.
    pub ghost few: { length (unwrap_or (formula text.now) []) ≤ 2 ^ 63 },
}

/// A disjunction, of one atom at least. Two are equal where their texts are.
#[derive(Clone, Copy, PartialEq, Eq)]
pub struct Clause<'t> {
    text: &'t str,
    ghost sound: { IsTrue (is_some (clause text.now)) },
    ghost alone: { parts (byte ",") text.now ≡ text.now ∷ [] },
}

/// The clauses of a formula, in the order of the text.
#[derive(Clone, Copy)]
pub struct Clauses<'t> {
    rest: Option<&'t str>,
    ghost sound: { IsTrue (is_some (clauses_in (option_copied rest))) },
}

/// The atoms of a clause, in the order of the text.
#[derive(Clone, Copy)]
pub struct Atoms<'t> {
    rest: Option<&'t str>,
    ghost sound: { IsTrue (is_some (atoms_in (option_copied rest))) },
}

impl<'t> Formula<'t> {
    ghost use Rattle.std.specs.Prelude.{◌≡◌, []};
    ghost use Rattle.cudf_value.specs.Promises.Views.{formula_view, clauses_view};

    /// The one without clauses.
    #[tactic(auto, unfolding(crate::specs::Formulas::formula))]
    pub fn always() -> Self
        ensures { formula_view result ≡ [] }
    {
        Formula { text: "" }
    }

    /// Its clauses.
    #[tactic(auto, unfolding(crate::specs::Formulas::formula))]
    pub fn clauses(self) -> Clauses<'t>
        ensures { clauses_view result ≡ formula_view self.entry }
    {
        if self.text.is_empty() {
            return Clauses { rest: None };
        }
        Clauses {
            rest: Some(self.text),
        }
    }
}

impl<'t> Iterator for Clauses<'t> {
    ghost use Rattle.std.specs.Iterator.{YieldsFirstBy, item_count};
    ghost use Rattle.cudf_value.specs.Promises.Views.{clause_view, clauses_view};

    type Item = Clause<'t>;

    ghost next_gives = { YieldsFirstBy clause_view clauses_view };

    ghost remaining = { item_count clauses_view };

    fn next(&mut self) -> Option<Clause<'t>> {
        let text = self.rest?;
        let (part, rest) = cut(text, b',');
        self.rest = rest;
        Some(Clause { text: part })
    }
}

impl<'t> Clause<'t> {
    ghost use Rattle.std.specs.Prelude.{◌≡◌};
    ghost use Rattle.cudf_value.specs.Promises.Views.{clause_view, atoms_view};

    /// Its atoms.
    pub fn atoms(self) -> Atoms<'t>
        ensures { atoms_view result ≡ clause_view self.entry }
    {
        Atoms {
            rest: Some(self.text),
        }
    }
}

impl<'t> Iterator for Atoms<'t> {
    ghost use Rattle.std.specs.Iterator.{YieldsFirstBy, item_count};
    ghost use Rattle.cudf_value.specs.Promises.Views.{atom_view, atoms_view};

    type Item = Atom<'t>;

    ghost next_gives = { YieldsFirstBy atom_view atoms_view };

    ghost remaining = { item_count atoms_view };

    #[inline(always)]
    fn next(&mut self) -> Option<Atom<'t>> {
        let text = self.rest?;
        let (atom, rest) = next_atom(text);
        self.rest = rest;
        Some(atom)
    }
}

/// Whether the text, which has no blanks round it, is a `vpkgformula`.
#[tactic(auto, unfolding(crate::specs::Formulas::formula))]
pub(crate) fn is_formula_text(text: &str) -> bool
    ensures { result ≡ is_some (formula text.now) }
{
    text.is_empty() || are_atoms(text)
}

/// Whether there is an atom at each place between commas and bars.
fn are_atoms(text: &str) -> bool
    ensures { result ≡ is_some (read_parts (byte ",") clause text.now) }
{
    let mut rest = text;
    'atoms: loop { // for the prover
        let (atom, end) = first_atom(rest);
        if atom.is_none() {
            return false;
        }
        match end.rest() {
            Some(more) => rest = more,
            None => return true,
        }
    }
}
