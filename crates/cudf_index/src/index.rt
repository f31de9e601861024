//! What a status gives and satisfies: CUDF 2.0, installations and features. An index, and one that counts the steps of its
//! calls (own).
ghost use Rattle.std.specs.Prelude.{◌≡◌, ◌≤◌, ◌+◌, ◌==◌, ◌*◌, ℕ, not, List, Some, length, bytes_eq, option_map, find, IfOk, IfSome, OnOk};
ghost use Rattle.std.specs.List.{count_by, list_any};
ghost use Rattle.std.specs.FinSet as set;
ghost use Rattle.cudf_value.specs.Promises.Views.{atom_view, clause_view, vpkg_view};
ghost use Rattle.cudf_value.specs.Vpkgs.{meets};
ghost use Rattle.cudf_problem.specs.Documents.{is_empty};
ghost use Rattle.cudf_index.specs.Promises.Prices.{digits, search_cost, atom_cost, atom_lookups, clause_cost, clause_lookups, own_cost};
ghost use Rattle.cudf_index.specs.Satisfaction.{members, satisfies, satisfies_atom, satisfies_clause, without, meets_alone, first_meeting, first_named, numbers_of, gives_all_versions};
ghost use Rattle.cudf_index.specs.Promises.Members.{IsLeast, IsGreatest, other_than};
ghost use Rattle.cudf_index.specs.Promises.Places.{places_where, is_named, gives_number, numbers_at};
ghost use Rattle.cudf_index.specs.Working.Gathering.{row_of, given_of, AreFilled};
ghost use Rattle.cudf_index.specs.Working.Kept.{Keeps};
ghost use Rattle.cudf_index.specs.Working.Members.{member_view};

pub(crate) mod counts;
mod extents;
mod gathered_names;
mod member;
pub(crate) mod named_trees;
mod sorted;
mod union;

use crate::steps::Steps;
use cudf_problem::{Problem, Status};
use cudf_value::{Atom, Clause, Relop, Vpkg};
use gathered_names::{Entries, GatheredNames, MetCounts, summarize_all};
use member::{Member, PackageProvisions, shares_of};
use named_trees::{NamedTrees, ProvisionTest};
use std::alloc::{AllocError, Global};
use std::marker::Model;

/// The packages of a status, to be asked what they give and satisfy (CUDF 2.0, installations and features). Places are
/// from 1.
///
/// Contracts see each package beside its place in the universe, in the order of the places.
#[derive(Drop)]
pub struct Index<'p, 't> {
    problem: &'p Problem<'t>,
    status: Status,
    /// What the status gives of each name, in the order of the places.
    given: NamedTrees<'t>,
    /// The same of each of these names, counted.
    entries: Vec<Entries>,
    /// What each package with many provisions gives, in the order of the places.
    shares: Vec<PackageProvisions<'p, 't>>,
}

impl<'p, 't> Model for Index<'p, 't> {
    ghost use Rattle.std.specs.Prelude.{◌≡◌, List, ℕ, bytes_eq};
    ghost use Rattle.std.specs.FinSet as set;
    ghost use Rattle.cudf_index.specs.Satisfaction.{Placed, members};
    ghost use Rattle.cudf_index.specs.Working.Gathering.{given_of, row_of, AreFilled};
    ghost use Rattle.cudf_index.specs.Working.Kept.{Keeps, found};
    ghost use Rattle.cudf_index.specs.Working.Shares.{AreShares};

    ghost Value = { List Placed };

    ghost view = { λ i. members (set.contains i.status) i.problem.now.packages };

    ghost invariant = { λ i. ((name : List ℕ) → (Keeps name (members (set.contains i.status) i.problem.now.packages) (found (λ k. bytes_eq name k.now) i.given.gathered.names.keys i.entries.items)) × (row_of name i.given.gathered ≡ given_of name (members (set.contains i.status) i.problem.now.packages))) × AreShares (members (set.contains i.status) i.problem.now.packages) i.shares.items × AreFilled i.given.gathered };
}

impl<'p, 't> Index<'p, 't> {
    /// The index of a status of this problem.
    ///
    /// # Errors
    ///
    /// `AllocError` where memory for it is refused.
    pub fn build(
        alloc: Global,
        problem: &'p Problem<'t>,
        status: &Status,
    ) -> Result<Self, AllocError>
        ensures { IfOk result (λ index. index ≡ members (set.contains status.now) problem.now.packages) }
    {
        let gathered = gathered(alloc, problem, status)?;
        let entries = summarize_all(alloc, &gathered.rows)?;
        let given = NamedTrees::of(alloc, gathered)?;
        let shares = shares_of(alloc, problem, status)?;
        Ok(Index {
            problem,
            status: status.copy(alloc)?,
            given,
            entries,
            shares,
        })
    }

    /// The same index, with a count of the steps of its calls.
    pub fn metered(&self) -> MeteredIndex<'_, 'p, 't>
        ensures { result ≡ record { status = self.now; steps = 0 } }
    {
        MeteredIndex::new(self)
    }

    /// Whether the status satisfies the vpkg: it gives a number of its name that meets the bound,
    /// or gives its name at all versions and the bound isn't `< 1`.
    pub fn satisfies(&self, vpkg: &Vpkg<'_>) -> bool
        ensures { result ≡ satisfies self.now (vpkg_view vpkg.now) }
    {
        self.satisfies_counting(vpkg, &mut Steps::new())
    }

    /// Whether one of the clause's atoms is `true!`, or a vpkg that the status satisfies.
    pub fn satisfies_clause(&self, clause: &Clause<'_>) -> bool
        ensures { result ≡ satisfies_clause self.now (clause_view clause.now) }
    {
        self.satisfies_clause_counting(clause, &mut Steps::new())
    }

    /// Whether the status satisfies the vpkg without the package at this place, from 1, and all that
    /// it provides. A place that the status doesn't hold leaves nothing out.
    pub fn satisfies_without(&self, vpkg: &Vpkg<'_>, place: u64) -> bool
        ensures { result ≡ satisfies (without place self.now) (vpkg_view vpkg.now) }
    {
        self.satisfies_without_counting(vpkg, place, &mut Steps::new())
    }

    /// The least place of the status, from 1, other than `except`, whose package alone satisfies the
    /// vpkg. `None` where there is no such place.
    pub fn first_meeting(&self, vpkg: &Vpkg<'_>, except: Option<u64>) -> Option<u64>
        ensures { result ≡ first_meeting (other_than except self.now) (vpkg_view vpkg.now) }
    {
        self.given.first_meeting(vpkg, except)
    }

    /// The least place of the status, from 1, whose package has this name; features don't count (own). `None` where
    /// there is no such place.
    pub fn first_named(&self, name: &str) -> Option<u64>
        ensures { result ≡ first_named self.now name.now }
    {
        self.given.first_named(name)
    }

    /// Puts the places, from 1, of all packages of the status that alone satisfy the vpkg into the list, ascending, in place of
    /// what was there.
    ///
    /// # Errors
    ///
    /// `AllocError` where memory for them is refused.
    pub fn all_meeting(&self, vpkg: &Vpkg<'_>, places: &mut Vec<u64>) -> Result<(), AllocError>
        ensures { OnOk result (places.new.items ≡ places_where (meets_alone (vpkg_view vpkg.now)) self.now) }
    {
        places.clear();
        self.given
            .all(vpkg.name, ProvisionTest::Meeting(vpkg.bound), places)
    }

    /// The same of those that have this name; features don't count (own).
    ///
    /// # Errors
    ///
    /// `AllocError` where memory for them is refused.
    pub fn all_named(&self, name: &str, places: &mut Vec<u64>) -> Result<(), AllocError>
        ensures { OnOk result (places.new.items ≡ places_where (is_named name.now) self.now) }
    {
        places.clear();
        self.given.all(name, ProvisionTest::Version, places)
    }

    /// The same of those that give a number of the name that meets the bound, as their version or by a versioned
    /// feature; features without a number don't count (own).
    ///
    /// # Errors
    ///
    /// `AllocError` where memory for them is refused.
    pub fn all_giving(
        &self,
        name: &str,
        bound: Option<(Relop, u64)>,
        places: &mut Vec<u64>,
    ) -> Result<(), AllocError>
        ensures { OnOk result (places.new.items ≡ places_where (gives_number name.now bound) self.now) }
    {
        places.clear();
        self.given.all(name, ProvisionTest::Number(bound), places)
    }

    /// The least number that the status gives of the name, as a version or by a versioned
    /// feature. `None` where it gives none; features without a number don't count (own).
    pub fn least(&self, name: &str) -> Option<u64>
        ensures { IsLeast (numbers_of name.now self.now) result }
    {
        self.least_counting(name, &mut Steps::new())
    }

    /// The greatest number that the status gives of the name, as a version or by a versioned
    /// feature. `None` where it gives none; features without a number don't count (own).
    pub fn greatest(&self, name: &str) -> Option<u64>
        ensures { IsGreatest (numbers_of name.now self.now) result }
    {
        self.greatest_counting(name, &mut Steps::new())
    }

    /// The least number that the package at this place gives of the name, as its version or by a versioned feature.
    /// `None` where it gives none, or the status doesn't hold the place.
    pub fn least_at(&self, name: &str, place: u64) -> Option<u64>
        ensures { IsLeast (numbers_at name.now place self.now) result }
    {
        let _ = &self.problem; // for the prover
        if let Some(share) = self.share(place) {
            return share.least(name);
        }
        match self.member(place) {
            Some(member) => member.least(name),
            None => None,
        }
    }

    /// Whether a package of the status has this name; features don't count.
    pub fn has_package(&self, name: &str) -> bool
        ensures { result ≡ list_any (λ p. bytes_eq p.1.name name.now) self.now }
    {
        match self.kept(name) {
            Some(entries) => entries.is_package,
            None => false,
        }
    }

    /// `satisfies`, with its steps counted.
    #[inline(always)]
    pub(crate) fn satisfies_counting(&self, vpkg: &Vpkg<'_>, steps: &mut Steps) -> bool
        ensures answer { result ≡ satisfies self.now (vpkg_view vpkg.now) }
        ensures price { steps.new ≤ steps.old + search_cost self.now vpkg.now.name.now }
        ensures grows { steps.old + 1 ≤ steps.new }
    {
        if vpkg.bound.is_none() {
            return self.gives(vpkg.name, steps);
        }
        match self.look_up(vpkg.name, steps) {
            Some(entries) => entries.any(vpkg.bound, steps),
            None => false,
        }
    }

    /// `satisfies_clause`, with its steps counted.
    pub(crate) fn satisfies_clause_counting(&self, clause: &Clause<'_>, steps: &mut Steps) -> bool
        ensures answer { result ≡ satisfies_clause self.now (clause_view clause.now) }
        ensures price { steps.new ≤ steps.old + clause_cost self.now (clause_view clause.now) }
        ensures grows { steps.old + clause_lookups self.now (clause_view clause.now) ≤ steps.new }
    {
        for atom in clause.atoms() {
            if self.satisfies_atom_counting(&atom, steps) {
                return true;
            }
        }
        false
    }

    fn satisfies_atom_counting(&self, atom: &Atom<'_>, steps: &mut Steps) -> bool
        ensures answer { result ≡ satisfies_atom self.now (atom_view atom.now) }
        ensures price { steps.new ≤ steps.old + atom_cost self.now (atom_view atom.now) }
        ensures grows { steps.old + atom_lookups (atom_view atom.now) ≤ steps.new }
    {
        match atom {
            Atom::Yes => true,
            Atom::No => false,
            Atom::Is(vpkg) => self.satisfies_counting(vpkg, steps),
        }
    }

    /// `satisfies_without`, with its steps counted.
    pub(crate) fn satisfies_without_counting(
        &self,
        vpkg: &Vpkg<'_>,
        place: u64,
        steps: &mut Steps,
    ) -> bool
        ensures answer { result ≡ satisfies (without place self.now) (vpkg_view vpkg.now) }
        ensures price { steps.new ≤ steps.old + (search_cost self.now vpkg.now.name.now + own_cost self.now place) }
        ensures grows { steps.old + 1 ≤ steps.new }
    {
        match self.look_up(vpkg.name, steps) {
            Some(entries) => {
                if entries.sole == Some(place) {
                    return false;
                }
                self.meet_without(entries, vpkg, place, steps)
            }
            None => false,
        }
    }

    /// Whether more of the name's entries meet the vpkg than those of the package at this place.
    fn meet_without(
        &self,
        entries: &Entries,
        vpkg: &Vpkg<'_>,
        place: u64,
        steps: &mut Steps,
    ) -> bool
        requires { Keeps vpkg.now.name.now self.now (Some entries.now) }
        ensures answer { result ≡ satisfies (without place self.now) (vpkg_view vpkg.now) }
        ensures price { steps.new ≤ steps.old + (2 * digits (length entries.now.numbers) + own_cost self.now place) }
        ensures grows { steps.old ≤ steps.new }
    {
        let all = entries.met(vpkg.bound, steps);
        if all.exceeds(MetCounts::none()) {
            return all.exceeds(self.own(vpkg, place, steps));
        }
        false
    }

    /// `least`, with its steps counted.
    pub(crate) fn least_counting(&self, name: &str, steps: &mut Steps) -> Option<u64>
        ensures least { IsLeast (numbers_of name.now self.now) result }
        ensures price { steps.new ≤ steps.old + 2 }
        ensures grows { steps.old + 1 ≤ steps.new }
    {
        match self.look_up(name, steps) {
            Some(entries) => entries.numbers.least(steps),
            None => None,
        }
    }

    /// `greatest`, with its steps counted.
    pub(crate) fn greatest_counting(&self, name: &str, steps: &mut Steps) -> Option<u64>
        ensures greatest { IsGreatest (numbers_of name.now self.now) result }
        ensures price { steps.new ≤ steps.old + 2 }
        ensures grows { steps.old + 1 ≤ steps.new }
    {
        match self.look_up(name, steps) {
            Some(entries) => entries.numbers.greatest(steps),
            None => None,
        }
    }

    /// Whether the status gives the name, for one step: whatever it gives meets a vpkg without a bound.
    fn gives(&self, name: &str, steps: &mut Steps) -> bool
        ensures answer { result ≡ not (is_empty (given_of name.now self.now)) }
        ensures price { steps.new ≡ steps.old + 1 }
    {
        steps.tick();
        self.given.has(name)
    }

    /// What is kept of a name, for one step: the only other look-up of the calls that count.
    fn look_up(&self, name: &str, steps: &mut Steps) -> Option<&Entries>
        ensures kept { Keeps name.now self.now (option_map (λ e. e.now) result) }
        ensures price { steps.new ≡ steps.old + 1 }
    {
        steps.tick();
        self.kept(name)
    }

    /// The entries of this name; `None` if the status provides nothing of it.
    fn kept(&self, name: &str) -> Option<&Entries>
        ensures { Keeps name.now self.now (option_map (λ e. e.now) result) }
    {
        match self.given.gathered.names.get_index_of(&name) {
            Some(number) => self.entries.get(number),
            None => None,
        }
    }

    /// The package at this place, if the status holds it.
    fn member(&self, place: u64) -> Option<Member<'p, 't>>
        ensures { option_map member_view result ≡ find (λ p. p.0 == place) self.now }
    {
        let _ = &self.problem; // for the prover
        if place == 0 {
            return None;
        }
        if !self.status.holds(place) {
            return None;
        }
        match self.problem.packages().get(place as usize - 1) {
            Some(package) => Some(Member { place, package }),
            None => None,
        }
    }

    /// What the package at this place gives, if that is kept by name.
    fn share(&self, place: u64) -> Option<&PackageProvisions<'p, 't>>
        ensures { IfSome result (λ s. Some s.now ≡ find (λ p. p.0 == place) self.now) }
    {
        let _ = &self.problem; // for the prover
        let near = self.shares.partition_point(|share| share.place() < place);
        let share = self.shares.get(near)?;
        if share.place() != place {
            return None;
        }
        Some(share)
    }

    /// How many of the entries that meet the vpkg are those of the package at this place. Many
    /// provisions are searched by name, few are gone through.
    fn own(&self, vpkg: &Vpkg<'_>, place: u64, steps: &mut Steps) -> MetCounts
        ensures numbers { count_by (meets vpkg.now.bound) (numbers_of vpkg.now.name.now self.now)
            ≡ count_by (meets vpkg.now.bound) (numbers_of vpkg.now.name.now (without place self.now)) + result.numbers }
        ensures unversioned { count_by (λ given. bytes_eq given vpkg.now.name.now) (gives_all_versions self.now)
            ≡ count_by (λ given. bytes_eq given vpkg.now.name.now) (gives_all_versions (without place self.now)) + result.unversioned }
        ensures price { steps.new ≤ steps.old + own_cost self.now place }
        ensures grows { steps.old ≤ steps.new }
    {
        let _ = &self.problem; // for the prover
        if let Some(share) = self.share(place) {
            return share.met(vpkg, steps);
        }
        match self.member(place) {
            Some(member) => {
                steps.grow_by(1);
                steps.grow_by(member.package.provides.len());
                MetCounts {
                    numbers: member.numbers_met(vpkg),
                    unversioned: member.unversioned(vpkg.name),
                }
            }
            None => MetCounts::none(),
        }
    }
}

/// What the packages of the status give, by name.
fn gathered<'t>(
    alloc: Global,
    problem: &Problem<'t>,
    status: &Status,
) -> Result<GatheredNames<'t>, AllocError>
    ensures rows { IfOk result (λ g. (f : List ℕ) → row_of f g ≡ given_of f (members (set.contains status.now) problem.now.packages)) }
    ensures filled { IfOk result AreFilled }
{
    let mut gathered = GatheredNames::new(alloc);
    for (before, package) in problem.packages().iter().enumerate() {
        let place = before as u64 + 1;
        if status.holds(place) {
            gathered.add_package(alloc, Member { place, package })?;
        }
    }
    Ok(gathered)
}

/// An index, and the steps that were taken in it: each look-up by name, each reading of an entry
/// of a sorted list, and each own entry that `satisfies_without_counted` judges. (own)
///
/// Contracts see the status of the index and the number of the steps, which only grows.
#[derive(Drop)]
pub struct MeteredIndex<'i, 'p, 't> {
    index: &'i Index<'p, 't>,
    steps: Steps,
}

impl<'i, 'p, 't> Model for MeteredIndex<'i, 'p, 't> {
    ghost use Rattle.cudf_index.specs.Promises.Prices.{Metering};

    ghost Value = { Metering };

    ghost view = { λ m. record { status = m.index.now; steps = m.steps } };
}

impl<'i, 'p, 't> MeteredIndex<'i, 'p, 't> {
    pub(crate) fn new(index: &'i Index<'p, 't>) -> Self
        ensures { result ≡ record { status = index.now; steps = 0 } }
    {
        MeteredIndex {
            index,
            steps: Steps::new(),
        }
    }

    /// `Index::satisfies`, for the price of one search among the entries of the name.
    pub fn satisfies_counted(&mut self, vpkg: &Vpkg<'_>) -> bool
        ensures answer { result ≡ satisfies self.old.status (vpkg_view vpkg.now) }
        ensures status { self.new.status ≡ self.old.status }
        ensures price { self.new.steps ≤ self.old.steps + search_cost self.old.status vpkg.now.name.now }
        ensures grows { self.old.steps + 1 ≤ self.new.steps }
    {
        self.index.satisfies_counting(vpkg, &mut self.steps)
    }

    /// `Index::satisfies_clause`, for the price of one search for each of the clause's vpkgs. Those up to the first
    /// atom that is satisfied are looked up.
    pub fn satisfies_clause_counted(&mut self, clause: &Clause<'_>) -> bool
        ensures answer { result ≡ satisfies_clause self.old.status (clause_view clause.now) }
        ensures status { self.new.status ≡ self.old.status }
        ensures price { self.new.steps ≤ self.old.steps + clause_cost self.old.status (clause_view clause.now) }
        ensures grows { self.old.steps + clause_lookups self.old.status (clause_view clause.now) ≤ self.new.steps }
    {
        self.index
            .satisfies_clause_counting(clause, &mut self.steps)
    }

    /// `Index::satisfies_without`, for the price of one search, the package at the place and each
    /// entry of its `provides`.
    pub fn satisfies_without_counted(&mut self, vpkg: &Vpkg<'_>, place: u64) -> bool
        ensures answer { result ≡ satisfies (without place self.old.status) (vpkg_view vpkg.now) }
        ensures status { self.new.status ≡ self.old.status }
        ensures price { self.new.steps ≤ self.old.steps + (search_cost self.old.status vpkg.now.name.now + own_cost self.old.status place) }
        ensures grows { self.old.steps + 1 ≤ self.new.steps }
    {
        self.index
            .satisfies_without_counting(vpkg, place, &mut self.steps)
    }

    /// `Index::least`, for one look-up and one reading.
    #[tactic(auto, using(std::proofs::lemmas::Grind::common_steps))]
    pub fn least_counted(&mut self, name: &str) -> Option<u64>
        ensures least { IsLeast (numbers_of name.now self.old.status) result }
        ensures status { self.new.status ≡ self.old.status }
        ensures price { self.new.steps ≤ self.old.steps + 2 }
        ensures grows { self.old.steps + 1 ≤ self.new.steps }
    {
        self.index.least_counting(name, &mut self.steps)
    }

    /// `Index::greatest`, for one look-up and one reading.
    pub fn greatest_counted(&mut self, name: &str) -> Option<u64>
        ensures greatest { IsGreatest (numbers_of name.now self.old.status) result }
        ensures status { self.new.status ≡ self.old.status }
        ensures price { self.new.steps ≤ self.old.steps + 2 }
        ensures grows { self.old.steps + 1 ≤ self.new.steps }
    {
        self.index.greatest_counting(name, &mut self.steps)
    }
}
