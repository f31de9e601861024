//! What is said of a violated instance, by the problem and the statuses, and which package would help.
ghost use Rattle.std.specs.Prelude.{◌≡◌};
ghost use Rattle.cudf_referee.specs.Working.Firsts.{lesser_of};

use crate::instance::{Instance, Requirement};
use crate::referee::Referee;
use crate::referee::needers::{Needers, first_held};
use cudf_index::{Index, Providers};
use cudf_problem::{Package, Problem, Status, initial};
use cudf_value::{Atom, Clause, Vpkg};
use std::alloc::{AllocError, Global};
use std::marker::Model;

/// Says what would help where an instance is violated, what needs a package that is in the way, and which numbers an
/// upgrade has and had. Contracts see what its referee judges. Own.
#[derive(Drop)]
pub struct Explainer<'r, 'p, 't> {
    referee: &'r Referee<'p, 't>,
    remedies: Remedies<'p, 't>,
    /// The packages that meet an entry.
    partners: Status,
    /// Which installed packages need them.
    needers: Needers,
}

impl<'r, 'p, 't> Model for Explainer<'r, 'p, 't> {
    ghost use Rattle.std.specs.Prelude.{◌≡◌, ℕ, true};
    ghost use Rattle.std.specs.FinSet as set;
    ghost use Rattle.cudf_problem.specs.Statuses.{is_initial};
    ghost use Rattle.cudf_index.specs.Satisfaction.{members};
    ghost use Rattle.cudf_referee.specs.Explanations.{needed_by};
    ghost use Rattle.cudf_referee.specs.Proposals.{Proposal};
    ghost use Rattle.cudf_referee.specs.Working.Needers.{kept_needer};

    ghost Value = { Proposal };

    ghost view = { λ e. e.referee.now };

    ghost invariant = { λ e. (e.remedies ≡ e.referee.now.problem)
        × (e.referee.now.initial ≡ members (is_initial e.referee.now.problem) e.referee.now.problem.packages)
        × ((place : ℕ) → set.contains e.partners place ≡ true → kept_needer place e.needers ≡ needed_by e.referee.now.proposed place) };
}

impl<'r, 'p, 't> Explainer<'r, 'p, 't> {
    ghost use Rattle.std.specs.Prelude.{◌≡◌, IfOk};
    ghost use Rattle.cudf_index.specs.Satisfaction.{numbers_of};
    ghost use Rattle.cudf_referee.specs.Explanations.{least_of, greatest_of, needed_by};

    /// The explainer of what a referee finds.
    ///
    /// # Errors
    ///
    /// `AllocError` where memory for what the packages give and need is refused.
    pub fn new(alloc: Global, referee: &'r Referee<'p, 't>) -> Result<Self, AllocError>
        ensures { IfOk result (λ e. e ≡ referee.entry.now) }
    {
        let partners = referee.partners(alloc)?;
        let needers = referee.needers(alloc, &partners)?;
        Ok(Explainer {
            referee,
            remedies: referee.remedies(alloc)?,
            partners,
            needers,
        })
    }

    /// The referee.
    pub fn referee(&self) -> &'r Referee<'p, 't>
        ensures { result.now ≡ self.now }
    {
        self.referee
    }

    /// The remedies of the referee's problem.
    pub fn remedies(&self) -> &Remedies<'p, 't>
        ensures { result.now ≡ self.entry.now.problem }
    {
        &self.remedies
    }

    /// The least number that the proposed status gives of the name, as a version or by a versioned feature. `None`
    /// where it gives none.
    pub fn least(&self, name: &str) -> Option<u64>
        ensures { result ≡ least_of (numbers_of name.now self.now.proposed) }
    {
        self.referee.least(name)
    }

    /// The greatest number that the proposed status gives of the name, as a version or by a versioned feature. `None`
    /// where it gives none.
    pub fn greatest(&self, name: &str) -> Option<u64>
        ensures { result ≡ greatest_of (numbers_of name.now self.now.proposed) }
    {
        self.referee.greatest(name)
    }

    /// The greatest number that the initial status gives of the name, as a version or by a versioned feature. `None`
    /// where it gives none.
    pub fn greatest_before(&self, name: &str) -> Option<u64>
        ensures { result ≡ greatest_of (numbers_of name.now self.now.initial) }
    {
        self.remedies.greatest_before(name)
    }

    /// The place (from 1) of the first package of the proposed status that needs the one at this place: it is another
    /// one, and has a clause of `depends` that this one alone satisfies, and that no other package of the status does,
    /// itself included. `None` where no package needs it, and for places of no package of the status. For packages that
    /// meet an entry of `conflicts` or `remove` it is stored; for any other all clauses are searched.
    pub fn needed_by(&self, place: u64) -> Option<u64>
        ensures { result ≡ needed_by self.now.proposed place }
    {
        if self.partners.holds(place) {
            self.needers.find(place)
        } else {
            self.referee.needer(place)
        }
    }
}

/// The packages among which one is searched.
#[derive(Clone, Copy)]
enum Among {
    /// All packages of the problem.
    All,
    /// Those that were installed.
    Initial,
}

/// Finds the package that would help where an instance of depends, install or upgrade is violated. Contracts see the
/// problem. Own.
#[derive(Drop)]
pub struct Remedies<'p, 't> {
    problem: &'p Problem<'t>,
    /// What was installed.
    initial: Index<'p, 't>,
    /// What was not installed. Each package is in one of the two, so that what it gives is kept once.
    others: Providers<'p, 't>,
    /// The place of the first package that was installed.
    first_installed: Option<u64>,
}

impl<'p, 't> Model for Remedies<'p, 't> {
    ghost use Rattle.std.specs.Prelude.{◌≡◌, find, option_map, true};
    ghost use Rattle.cudf_problem.specs.Statuses.{is_initial};
    ghost use Rattle.cudf_problem.specs.Universe.{PlainProblem};
    ghost use Rattle.cudf_index.specs.Promises.Members.{outside};
    ghost use Rattle.cudf_index.specs.Satisfaction.{members};

    ghost Value = { PlainProblem };

    ghost view = { λ r. r.problem.now };

    ghost invariant = { λ r. (r.others ≡ outside (is_initial r.problem.now) r.problem.now.packages)
        × (r.initial ≡ members (is_initial r.problem.now) r.problem.now.packages)
        × (r.first_installed ≡ option_map (λ p. p.0) (find (λ _. true) (members (is_initial r.problem.now) r.problem.now.packages))) };
}

impl<'p, 't> Remedies<'p, 't> {
    ghost use Rattle.std.specs.Prelude.{◌≡◌, true, [], ◌∷◌, IfOk, find, map, option_map};
    ghost use Rattle.cudf_value.specs.Promises.Views.{atom_view, clause_view, vpkg_view};
    ghost use Rattle.cudf_problem.specs.Promises.Views.{package_view};
    ghost use Rattle.std.specs.List.{enumerate_from};
    ghost use Rattle.cudf_problem.specs.Statuses.{is_initial};
    ghost use Rattle.cudf_index.specs.Satisfaction.{first_meeting, first_named, first_satisfying, members, numbers_of, satisfies_atom};
    ghost use Rattle.cudf_referee.specs.Explanations.{first_helping, greatest_of, was_installed, would_do};
    ghost use Rattle.cudf_referee.specs.Promises.Views.{instance_view};
    ghost use Rattle.cudf_referee.specs.Working.Firsts.{searched};

    /// The remedies of a problem.
    ///
    /// # Errors
    ///
    /// `AllocError` where memory for what the packages give is refused.
    pub fn new(alloc: Global, problem: &'p Problem<'t>) -> Result<Self, AllocError>
        ensures { IfOk result (λ r. r ≡ problem.entry.now) }
    {
        let was_installed = initial(alloc, problem)?;
        let given = Index::build(alloc, problem, &was_installed)?;
        let first_installed = first_held(problem, &was_installed, None);
        let others = Providers::build(alloc, problem, was_installed)?;
        Ok(Remedies {
            problem,
            initial: given,
            others,
            first_installed,
        })
    }

    /// The packages of the problem, in document order.
    pub fn packages(&self) -> &'p [Package<'t>]
        ensures { map package_view result.now ≡ self.entry.now.packages }
    {
        self.problem.packages()
    }

    /// For an instance of depends, install or upgrade, the place (from 1) of the first package of the problem, installed
    /// or not, that alone satisfies the clause or the entry. `None` where there is none, and for the other rules.
    pub fn first_remedy(&self, instance: &Instance<'_>) -> Option<u64>
        ensures { result ≡ would_do self.now (instance_view instance.now) }
    {
        self.first_helping(Among::All, instance)
    }

    /// For an instance of depends, install or upgrade, the place (from 1) of the first package that was installed and alone
    /// satisfies the clause or the entry. `None` where there is none, and for the other rules.
    pub fn installed_remedy(&self, instance: &Instance<'_>) -> Option<u64>
        ensures { result ≡ was_installed self.now (instance_view instance.now) }
    {
        self.first_helping(Among::Initial, instance)
    }

    /// The place (from 1) of the first package of this name, if the problem has one; features don't count.
    pub fn first_named(&self, name: &str) -> Option<u64>
        ensures { result ≡ first_named (enumerate_from 1 self.now.packages) name.now }
    {
        lesser_of(
            self.initial.first_named(name),
            self.others.first_named(name),
        )
    }

    /// The greatest number that the packages that were installed give of the name, as a version or by a versioned
    /// feature.
    pub(super) fn greatest_before(&self, name: &str) -> Option<u64>
        ensures { result ≡ greatest_of (numbers_of name.now (members (is_initial self.now) self.now.packages)) }
    {
        self.initial.greatest(name)
    }

    /// The place of the first of these packages that would help.
    fn first_helping(&self, among: Among, instance: &Instance<'_>) -> Option<u64>
        ensures { result ≡ first_helping (searched self.now among) (instance_view instance.now).what }
    {
        match instance.what {
            Requirement::Needs(clause) => self.first_satisfying(among, clause),
            Requirement::Install(vpkg) => self.first_meeting(among, &vpkg),
            Requirement::Upgrade(vpkg) => self.first_meeting(among, &vpkg),
            _ => None,
        }
    }

    /// The place of the first of these packages that alone satisfies the clause.
    fn first_satisfying(&self, among: Among, clause: Clause<'_>) -> Option<u64>
        ensures { result ≡ first_satisfying (searched self.now among) (clause_view clause.entry) }
    {
        let mut first = None;
        for atom in clause.atoms() {
            first = lesser_of(first, self.first_for(among, &atom));
        }
        first
    }

    /// The place of the first of these packages that alone satisfies the atom.
    fn first_for(&self, among: Among, atom: &Atom<'_>) -> Option<u64>
        ensures { result ≡ option_map (λ p. p.0) (find (λ p. satisfies_atom (p ∷ []) (atom_view atom.now)) (searched self.now among)) }
    {
        match atom {
            Atom::Yes => self.first_of(among),
            Atom::No => None,
            Atom::Is(vpkg) => self.first_meeting(among, vpkg),
        }
    }

    /// The place of the first of these packages that alone satisfies the vpkg.
    fn first_meeting(&self, among: Among, vpkg: &Vpkg<'_>) -> Option<u64>
        ensures { result ≡ first_meeting (searched self.now among) (vpkg_view vpkg.now) }
    {
        match among {
            Among::All => lesser_of(
                self.initial.first_meeting(vpkg, None),
                self.others.first_meeting(vpkg),
            ),
            Among::Initial => self.initial.first_meeting(vpkg, None),
        }
    }

    /// The place of the first of these packages, if there is one.
    fn first_of(&self, among: Among) -> Option<u64>
        ensures { result ≡ option_map (λ p. p.0) (find (λ _. true) (searched self.now among)) }
    {
        match among {
            Among::All => self.first_of_all(),
            Among::Initial => self.first_installed,
        }
    }

    /// The place of the first package of the problem, if there is one.
    fn first_of_all(&self) -> Option<u64>
        ensures { result ≡ option_map (λ p. p.0) (find (λ _. true) (enumerate_from 1 self.now.packages)) }
    {
        if self.problem.packages().is_empty() {
            None
        } else {
            Some(1)
        }
    }
}

/// The lesser one of those that are there.
fn lesser_of(left: Option<u64>, right: Option<u64>) -> Option<u64>
    ensures { result ≡ lesser_of left right }
{
    match left {
        None => right,
        Some(left) => match right {
            None => Some(left),
            Some(right) => Some(left.min(right)),
        },
    }
}
