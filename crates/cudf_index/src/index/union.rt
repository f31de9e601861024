//! All packages of a status that alone satisfy a clause, unless a certain one does: what is left to ask, question by
//! question.
ghost use Rattle.std.specs.Prelude.{◌≡◌, ◌≤◌, ◌+◌, ◌*◌, ◌⊎◌, ℕ, ◌++◌, ◌==◌, true, false, length, map, filter, IfOk, OnOk, Some};
ghost use Rattle.std.specs.List.{list_any};
ghost use Rattle.std.specs.List.Sorted.{IsStrictlyIncreasing};
ghost use Rattle.cudf_value.specs.Promises.Views.{atom_view, clause_view, vpkg_view};
ghost use Rattle.cudf_index.specs.Promises.Places.{at, places_where};
ghost use Rattle.cudf_index.specs.Satisfaction.{meets_alone, meets_clause_alone, satisfies};
ghost use Rattle.cudf_index.specs.Working.Places.{HoldsSame, PassesOrAdds, has, meets_atom_alone, passes_at};
ghost use Rattle.cudf_index.specs.Working.Questions.{AnswersMore, PassesOrAsks, will_have, Leaves, LeavesBound, covers, rest_of};

use crate::index::Index;
use crate::index::gathered_names::is_below_one;
use crate::index::named_trees::{ProvisionTest, put_each};
use crate::steps::Steps;
use cudf_value::{Atom, Clause, Relop, Vpkg};
use std::alloc::AllocError;
use std::cmp::Ordering;

impl<'p, 't> Index<'p, 't> {
    /// Puts the places, from 1, of all packages of the status that alone satisfy the clause into the list, ascending, in
    /// place of what was there: all of them where one of its atoms is `true!`. Where the package at `own` is one of them it
    /// answers `true`, and the list isn't of use.
    ///
    /// # Errors
    ///
    /// `AllocError` where memory for them is refused.
    pub fn all_satisfying_unless_at(
        &self,
        clause: &Clause<'_>,
        own: u64,
        places: &mut Vec<u64>,
    ) -> Result<bool, AllocError>
        ensures own { IfOk result (λ is. is ≡ list_any (λ q. q.0 == own) (filter (meets_clause_alone (clause_view clause.now)) self.now)) }
        ensures all { IfOk result (λ is. is ≡ false → places.new.items ≡ places_where (meets_clause_alone (clause_view clause.now)) self.now) }
    {
        let _ = &self.problem; // for the prover
        places.clear();
        let mut questions = Vec::new(*places.allocator());
        if self.put_or_ask(clause, own, places, &mut questions)? {
            return Ok(true);
        }
        self.put_answers(&mut questions, places)?;
        sort_and_dedup(places);
        Ok(places.contains(&own))
    }

    /// Puts the places of all packages that alone satisfy the clause among the others, in any order and with repeats, but for
    /// the answers to the questions that it adds. It may answer `true` instead where the package at `own` is one of them.
    fn put_or_ask<'c>(
        &self,
        clause: &Clause<'c>,
        own: u64,
        places: &mut Vec<u64>,
        questions: &mut Vec<Vpkg<'c>>,
    ) -> Result<bool, AllocError>
        ensures { IfOk result (λ is. PassesOrAsks is (meets_clause_alone (clause_view clause.now)) own self.now places.old.items questions.old.items places.new.items questions.new.items) }
    {
        for atom in clause.atoms() {
            if self.put_or_ask_atom(&atom, own, places, questions)? {
                return Ok(true);
            }
            sort_and_dedup_if_long(places, self.problem.packages().len());
        }
        Ok(false)
    }

    /// Adds the places of the packages that alone satisfy the atom, but for the answers to the question that it may
    /// add; may return `true` instead where the package at `own` is one.
    fn put_or_ask_atom<'c>(
        &self,
        atom: &Atom<'c>,
        own: u64,
        places: &mut Vec<u64>,
        questions: &mut Vec<Vpkg<'c>>,
    ) -> Result<bool, AllocError>
        ensures { IfOk result (λ is. PassesOrAsks is (meets_atom_alone (atom_view atom.now)) own self.now places.old.items questions.old.items places.new.items questions.new.items) }
    {
        match atom {
            Atom::Yes => self.put_members_unless_at(own, places),
            Atom::No => Ok(false),
            Atom::Is(vpkg) => self.put_or_ask_vpkg(vpkg, own, places, questions),
        }
    }

    /// The same of a vpkg. It is a question where its name has many provisions, but for the first that has answers: most
    /// clauses have no other one. Of many provisions the package at `own` is asked first, so that many packages that
    /// provide and need one name stay linear.
    fn put_or_ask_vpkg<'c>(
        &self,
        vpkg: &Vpkg<'c>,
        own: u64,
        places: &mut Vec<u64>,
        questions: &mut Vec<Vpkg<'c>>,
    ) -> Result<bool, AllocError>
        ensures { IfOk result (λ is. PassesOrAsks is (meets_alone (vpkg_view vpkg.now)) own self.now places.old.items questions.old.items places.new.items questions.new.items) }
    {
        let Some(number) = self.given.gathered.names.get_index_of(&vpkg.name) else {
            return Ok(false);
        };
        let wanted = ProvisionTest::Meeting(vpkg.bound);
        let Some(tree) = self.given.tree(number) else {
            put_each(self.given.gathered.row(number), wanted, places)?;
            return Ok(false);
        };
        if self.satisfies_at(vpkg, own) {
            return Ok(true);
        }
        if places.is_empty() {
            tree.all(wanted, places)?;
            return Ok(false);
        }
        questions.push(*vpkg)?;
        Ok(false)
    }

    /// Puts the answers to the questions among the places, in any order and with repeats. Of a question only what isn't
    /// there is asked, so that many questions of one name stay linear.
    fn put_answers(
        &self,
        questions: &mut Vec<Vpkg<'_>>,
        places: &mut Vec<u64>,
    ) -> Result<(), AllocError>
        ensures { OnOk result ((place : ℕ) → has places.new.items place ≡ will_have places.old.items questions.old.items self.now place) }
    {
        questions.sort_unstable_by(|first, second| compare_questions(first, second));
        let mut asked = None;
        for question in questions.iter() {
            asked = self.put_left(asked, question, places)?;
        }
        Ok(())
    }

    /// Puts what is left of the answers to a question, where `asked` is answered. Answers the question that was asked last.
    fn put_left<'c>(
        &self,
        asked: Option<Vpkg<'c>>,
        question: &Vpkg<'c>,
        places: &mut Vec<u64>,
    ) -> Result<Option<Vpkg<'c>>, AllocError>
        ensures { IfOk result (λ last. AnswersMore question.now self.now asked.entry places.old.items last places.new.items) }
    {
        let Some(wanted) = unanswered_part(asked, question) else {
            return Ok(asked);
        };
        self.given.all(question.name, wanted, places)?;
        sort_and_dedup_if_long(places, self.problem.packages().len());
        Ok(Some(*question))
    }

    /// Whether the package at this place, from 1, alone satisfies the clause; not where the status doesn't hold the place.
    pub fn satisfies_clause_at(&self, clause: &Clause<'_>, place: u64) -> bool
        ensures { result ≡ list_any (λ q. q.0 == place) (filter (meets_clause_alone (clause_view clause.now)) self.now) }
    {
        for atom in clause.atoms() {
            if self.satisfies_atom_at(&atom, place) {
                return true;
            }
        }
        false
    }

    /// Whether the package at this place, from 1, alone satisfies the atom; not where the status doesn't hold the
    /// place.
    fn satisfies_atom_at(&self, atom: &Atom<'_>, place: u64) -> bool
        ensures { result ≡ passes_at (meets_atom_alone (atom_view atom.now)) place self.now }
    {
        match atom {
            Atom::Yes => self.member(place).is_some(),
            Atom::No => false,
            Atom::Is(vpkg) => self.satisfies_at(vpkg, place),
        }
    }

    /// Whether the package at this place, from 1, alone satisfies the vpkg; not where the status doesn't hold the place.
    pub fn satisfies_at(&self, vpkg: &Vpkg<'_>, place: u64) -> bool
        ensures { result ≡ satisfies (at place self.now) (vpkg_view vpkg.now) }
    {
        let own = self.own(vpkg, place, &mut Steps::new());
        own.numbers > 0 || (own.unversioned > 0 && !is_below_one(vpkg.bound))
    }

    /// Puts all places of the status after the others, or answers that `own` is one of them.
    fn put_members_unless_at(&self, own: u64, places: &mut Vec<u64>) -> Result<bool, AllocError>
        ensures { IfOk result (λ is. PassesOrAdds is (λ q. true) own self.now places.old.items places.new.items) }
    {
        if self.member(own).is_some() {
            return Ok(true);
        }
        self.put_members(places)?;
        Ok(false)
    }

    /// Puts all places of the status after the others.
    fn put_members(&self, places: &mut Vec<u64>) -> Result<(), AllocError>
        ensures { OnOk result (places.new.items ≡ places.old.items ++ map (λ q. q.0) self.now) }
    {
        for (before, _package) in self.problem.packages().iter().enumerate() {
            let place = before as u64 + 1;
            if self.status.holds(place) {
                places.push(place)?;
            }
        }
        Ok(())
    }
}

/// Puts the numbers in ascending order, each once.
pub(crate) fn sort_and_dedup(places: &mut Vec<u64>)
    ensures rises { IsStrictlyIncreasing places.new.items }
    ensures same { HoldsSame places.old.items places.new.items }
{
    places.sort_unstable();
    places.dedup();
}

/// Sorts the places and drops repeated ones, if they are more than twice `different`.
fn sort_and_dedup_if_long(places: &mut Vec<u64>, different: usize)
    ensures same { HoldsSame places.old.items places.new.items }
    ensures few { IsStrictlyIncreasing places.new.items ⊎ (length places.new.items ≤ 2 * different + 1) }
{
    if places.len() / 2 > different {
        sort_and_dedup(places);
    }
}

/// The order in which questions are asked: by name and by operator, and of those with one operator the one that the
/// most numbers meet first.
pub(crate) fn compare_questions(first: &Vpkg<'_>, second: &Vpkg<'_>) -> Ordering {
    let name = first.name.cmp(second.name);
    name.then(question_key(first.bound).cmp(&question_key(second.bound)))
}

/// The key by which questions of one name are sorted: the operator, and of one operator the weakest bound first.
fn question_key(bound: Option<(Relop, u64)>) -> (u8, u64) {
    match bound {
        None => (0, 0),
        Some((Relop::Neq, number)) => (1, number),
        Some((Relop::Geq, number)) => (2, number),
        Some((Relop::Gt, number)) => (3, number),
        Some((Relop::Leq, number)) => (4, u64::MAX - number),
        Some((Relop::Lt, number)) => (5, u64::MAX - number),
        Some((Relop::Eq, number)) => (6, number),
    }
}

/// What is left to ask of a question where another one is answered.
pub(crate) fn unanswered_part(asked: Option<Vpkg<'_>>, question: &Vpkg<'_>) -> Option<ProvisionTest>
    ensures { Leaves asked.entry question.now result }
{
    let Some(asked) = asked else {
        return Some(ProvisionTest::Meeting(question.bound));
    };
    if asked.name == question.name {
        return unanswered_for_name(asked.bound, question.bound);
    }
    Some(ProvisionTest::Meeting(question.bound))
}

/// What is left to ask of a bound where another bound of the same name is answered; `None` if nothing is.
fn unanswered_for_name(
    asked: Option<(Relop, u64)>,
    bound: Option<(Relop, u64)>,
) -> Option<ProvisionTest>
    ensures { LeavesBound asked bound result }
{
    let Some((by, met)) = asked else {
        return None;
    };
    let Some((relop, number)) = bound else {
        return Some(ProvisionTest::Meeting(bound));
    };
    if by == relop {
        return unanswered_for_operator(relop, met, number);
    }
    if relop == Relop::Eq && !is_below_one(asked) {
        return Some(ProvisionTest::Number(bound));
    }
    Some(ProvisionTest::Meeting(bound))
}

/// What is left to ask of the bound with `number` where the one with `asked` and the same operator is answered; `None`
/// if nothing is.
fn unanswered_for_operator(relop: Relop, asked: u64, number: u64) -> Option<ProvisionTest>
    ensures { LeavesBound (Some (relop, asked)) (Some (relop, number)) result }
{
    if covers(relop, asked, number) {
        return None;
    }
    Some(uncovered_part(relop, asked, number))
}

/// Whether all that meet the second of two bounds with one operator meet the first.
fn covers(relop: Relop, asked: u64, number: u64) -> bool
    ensures { result ≡ covers relop asked number }
{
    match relop {
        Relop::Eq | Relop::Neq => asked == number,
        Relop::Geq | Relop::Gt => asked <= number,
        Relop::Leq => number <= asked,
        // Provisions without a number don't meet `< 1`.
        Relop::Lt => number <= asked && 1 < number,
    }
}

/// What the bound with `number` admits and the one with `asked` doesn't cover.
fn uncovered_part(relop: Relop, asked: u64, number: u64) -> ProvisionTest
    ensures { result ≡ rest_of relop asked number }
{
    match relop {
        Relop::Eq => ProvisionTest::Number(Some((Relop::Eq, number))),
        Relop::Neq => ProvisionTest::Number(Some((Relop::Eq, asked))),
        _ => ProvisionTest::Meeting(Some((relop, number))),
    }
}
