//! Which installed package needs another one: the first with a clause of its `depends` that only this one satisfies; and
//! the packages that meet an entry of `conflicts` or `remove`.
ghost use Rattle.std.specs.Prelude.{◌≡◌, ◌&&◌, ℕ, true, [], ◌∷◌, None, IfOk, OnOk};
ghost use Rattle.std.specs.List.{list_any};
ghost use Rattle.std.specs.FinSet as set;
ghost use Rattle.cudf_value.specs.Promises.Views.{atom_view, clause_view, formula_view};
ghost use Rattle.cudf_problem.specs.Promises.Views.{package_view};
ghost use Rattle.cudf_index.specs.Promises.Members.{other_than};
ghost use Rattle.cudf_index.specs.Satisfaction.{members, satisfies_atom};
ghost use Rattle.cudf_referee.specs.Explanations.{is_only, needed_by, needs_place};
ghost use Rattle.cudf_referee.specs.Working.Needers.{first_beside, first_passing, is_named, kept_needer, only_satisfying, some_satisfying, unless_other, with_clauses, with_needer, with_other, IsCovered, holds_other};

use cudf_index::Index;
use cudf_problem::{Package, Problem, Status};
use cudf_value::{Atom, Clause, Formula, VpkgList};
use indexmap::IndexMap;
use std::alloc::{AllocError, Global};
use std::marker::Model;

/// The installed packages, among which those are searched that satisfy a clause. Contracts see them.
#[derive(Drop)]
struct InstalledPackages<'i, 'p, 't> {
    index: &'i Index<'p, 't>,
    /// The place of the first of them.
    first: Option<u64>,
    /// The place of the first other one.
    second: Option<u64>,
}

impl<'i, 'p, 't> Model for InstalledPackages<'i, 'p, 't> {
    ghost use Rattle.std.specs.Prelude.{◌≡◌, List, true};
    ghost use Rattle.cudf_index.specs.Promises.Members.{other_than};
    ghost use Rattle.cudf_index.specs.Satisfaction.{Placed};
    ghost use Rattle.cudf_referee.specs.Working.Needers.{first_passing};

    ghost Value = { List Placed };

    ghost view = { λ i. i.index.now };

    ghost invariant = { λ i. (i.first ≡ first_passing (λ _. true) i.index.now)
        × (i.second ≡ first_passing (λ _. true) (other_than i.first i.index.now)) };
}

impl<'i, 'p, 't> InstalledPackages<'i, 'p, 't> {
    /// Those of a status of the problem, by its index.
    fn new(problem: &Problem<'_>, status: &Status, index: &'i Index<'p, 't>) -> Self
        requires { index.now ≡ members (set.contains status.now) problem.now.packages }
        ensures { result ≡ index.now }
    {
        let first = first_held(problem, status, None);
        let second = first_held(problem, status, first);
        InstalledPackages {
            index,
            first,
            second,
        }
    }

    /// The place of the first one other than the package at `except`.
    fn first_other(&self, except: Option<u64>) -> Option<u64>
        ensures { result ≡ first_passing (λ _. true) (other_than except self.now) }
    {
        match except {
            Some(place) => first_beside(place, self.first, self.second),
            None => self.first,
        }
    }

    /// The place of the first one other than the package at `except` that alone satisfies the atom.
    fn satisfying_atom(&self, atom: &Atom<'_>, except: Option<u64>) -> Option<u64>
        ensures { result ≡ first_passing (λ p. satisfies_atom (p ∷ []) (atom_view atom.now)) (other_than except self.now) }
    {
        match atom {
            Atom::Yes => self.first_other(except),
            Atom::No => None,
            Atom::Is(vpkg) => self.index.first_meeting(vpkg, except),
        }
    }

    /// The place of one other than the package at `except` that alone satisfies the clause, if there is one.
    fn satisfying(&self, clause: Clause<'_>, except: Option<u64>) -> Option<u64>
        ensures { result ≡ some_satisfying (other_than except self.now) (clause_view clause.entry) }
    {
        for atom in clause.atoms() {
            if let Some(place) = self.satisfying_atom(&atom, except) {
                return Some(place);
            }
        }
        None
    }

    /// The place that was found, unless another package alone satisfies the clause too.
    fn check_unique(&self, clause: Clause<'_>, found: u64) -> Option<u64>
        ensures { result ≡ unless_other self.now (clause_view clause.entry) found }
    {
        match self.satisfying(clause, Some(found)) {
            Some(_) => None,
            None => Some(found),
        }
    }

    /// The place of the package that alone satisfies the clause, if exactly one does.
    fn only_satisfying(&self, clause: Clause<'_>) -> Option<u64>
        ensures { result ≡ only_satisfying self.now (clause_view clause.entry) }
    {
        match self.satisfying(clause, None) {
            Some(found) => self.check_unique(clause, found),
            None => None,
        }
    }

    /// Whether one of the clauses is satisfied by the package at this place alone.
    #[tactic(auto, using(crate::proofs::NeederLemmas::only_is))]
    fn is_needed(&self, place: u64, depends: Formula<'_>) -> bool
        ensures { result ≡ list_any (is_only self.now place) (formula_view depends.entry) }
    {
        for clause in depends.clauses() {
            if is_found(place, self.only_satisfying(clause)) {
                return true;
            }
        }
        false
    }

    /// Whether the package at `own` is installed, and needs the one at `place`.
    fn is_needer(&self, status: &Status, own: u64, package: &Package<'_>, place: u64) -> bool
        ensures { result ≡ (set.contains status.now own && needs_place self.now place (own, package_view «package».now)) }
    {
        status.holds(own) && own != place && self.is_needed(place, package.depends)
    }
}

/// Whether the place is the one that was found.
fn is_found(place: u64, found: Option<u64>) -> bool
    ensures { result ≡ is_named place found }
{
    match found {
        None => false,
        Some(found) => found == place,
    }
}

/// The first place other than this one, where the first and the first other one are these.
fn first_beside(place: u64, first: Option<u64>, second: Option<u64>) -> Option<u64>
    ensures { result ≡ first_beside place first second }
{
    match first {
        Some(first) => { if first == place { second } else { Some(first) } }
        None => None,
    }
}

/// For each package that another one needs, the first that does, by their places.
#[derive(Drop)]
pub(super) struct Needers {
    first: IndexMap<u64, u64>,
}

impl Needers {
    fn new(alloc: Global) -> Self
        ensures { (place : ℕ) → kept_needer place result ≡ None }
    {
        Needers {
            first: IndexMap::new(alloc),
        }
    }

    /// Adds that the package at `needer` needs the one at `needed`.
    fn add(&mut self, needer: u64, needed: u64) -> Result<(), AllocError>
        ensures { OnOk result ((place : ℕ) → kept_needer place self.new ≡ with_needer needer needed place (kept_needer place self.old)) }
    {
        self.first.entry(needed)?.or_insert(needer);
        Ok(())
    }

    /// Adds that the package at `needer` needs the one at `needed`, unless this is `None` or the same package.
    fn add_other(&mut self, needer: u64, needed: Option<u64>) -> Result<(), AllocError>
        ensures { OnOk result ((place : ℕ) → kept_needer place self.new ≡ with_other needer needed place (kept_needer place self.old)) }
    {
        match needed {
            Some(needed) => {
                if needed == needer {
                    return Ok(());
                }
                self.add(needer, needed)
            }
            None => Ok(()),
        }
    }

    /// Adds what the package at `needer` needs by these clauses, but for those that the partners don't satisfy.
    fn add_clauses(
        &mut self,
        installed: &InstalledPackages<'_, '_, '_>,
        partners: &Index<'_, '_>,
        needer: u64,
        depends: Formula<'_>,
    ) -> Result<(), AllocError>
        ensures { OnOk result ((place : ℕ) → IsCovered installed.now partners.now place → kept_needer place self.new
            ≡ with_clauses installed.now needer place (formula_view depends.entry) (kept_needer place self.old)) }
    {
        for clause in depends.clauses() {
            if partners.satisfies_clause(&clause) {
                let needed = installed.only_satisfying(clause);
                self.add_other(needer, needed)?;
            }
        }
        Ok(())
    }

    /// The place of the first package that needs the one at this place.
    pub(super) fn find(&self, place: u64) -> Option<u64>
        ensures { result ≡ kept_needer place self.now }
    {
        self.first.get(&place).copied()
    }
}

/// Which packages of a status need those that are asked about. Clauses that these don't satisfy among them, as most,
/// are not searched.
pub(super) fn needers_of(
    alloc: Global,
    problem: &Problem<'_>,
    status: &Status,
    index: &Index<'_, '_>,
    asked: &Status,
) -> Result<Needers, AllocError>
    requires { index.now ≡ members (set.contains status.now) problem.now.packages }
    ensures { IfOk result (λ needers. (place : ℕ) → set.contains asked.now place ≡ true → kept_needer place needers ≡ needed_by index.now place) }
{
    let installed = InstalledPackages::new(problem, status, index);
    let partners = Index::build(alloc, problem, asked)?;
    let mut needers = Needers::new(alloc);
    for (before, package) in problem.packages().iter().enumerate() {
        let place = before as u64 + 1;
        if status.holds(place) {
            needers.add_clauses(&installed, &partners, place, package.depends)?;
        }
    }
    Ok(needers)
}

/// The place of the first package of a status that needs the one at this place: all clauses are searched.
pub(super) fn search_needer(
    problem: &Problem<'_>,
    status: &Status,
    index: &Index<'_, '_>,
    place: u64,
) -> Option<u64>
    requires { index.now ≡ members (set.contains status.now) problem.now.packages }
    ensures { result ≡ needed_by index.now place }
{
    let installed = InstalledPackages::new(problem, status, index);
    for (before, package) in problem.packages().iter().enumerate() {
        let own = before as u64 + 1;
        if installed.is_needer(status, own, package, place) {
            return Some(own);
        }
    }
    None
}

/// Sets the flag of the place, if there is one.
fn mark(flags: &mut [bool], place: Option<u64>) {
    if let Some(place) = place {
        let before = (place as usize).wrapping_sub(1);
        if let Some(flag) = flags.get_mut(before) {
            *flag = true;
        }
    }
}

/// Sets the flags of the first packages, other than the one at `except`, that meet these entries.
fn mark_each(
    flags: &mut [bool],
    index: &Index<'_, '_>,
    entries: VpkgList<'_>,
    except: Option<u64>,
) {
    for entry in entries.vpkgs() {
        mark(flags, index.first_meeting(&entry, except));
    }
}

/// The packages of a status that lines name as meeting an entry. Correctness doesn't rest on these being all: for any
/// other package, what needs it is searched when asked.
pub(super) fn partners_of(
    alloc: Global,
    problem: &Problem<'_>,
    status: &Status,
    index: &Index<'_, '_>,
) -> Result<Status, AllocError> {
    let packages = problem.packages();
    let mut flags = vec![in alloc; false; packages.len()]?;
    for (before, package) in packages.iter().enumerate() {
        let place = before as u64 + 1;
        if status.holds(place) {
            mark_each(&mut flags, index, package.conflicts, Some(place));
        }
    }
    mark_each(&mut flags, index, problem.request().remove, None);
    Ok(Status::from_flags(flags))
}

/// The place of the first package that the status holds, other than the one at `except`.
pub(super) fn first_held(problem: &Problem<'_>, status: &Status, except: Option<u64>) -> Option<u64>
    ensures { result ≡ first_passing (λ _. true) (members (holds_other (set.contains status.now) except) problem.now.packages) }
{
    for before in 0..problem.packages().len() {
        let place = before as u64 + 1;
        if holds_other(status, except, place) {
            return Some(place);
        }
    }
    None
}

/// Whether the status holds the place, and it isn't the one that is left out.
fn holds_other(status: &Status, except: Option<u64>, place: u64) -> bool
    ensures { result ≡ holds_other (set.contains status.now) except place }
{
    match except {
        Some(left_out) => place != left_out && status.holds(place),
        None => status.holds(place),
    }
}
