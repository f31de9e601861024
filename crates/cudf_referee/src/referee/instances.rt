//! The walk over the violated instances, and where it is (own).
ghost use Rattle.std.specs.Prelude.{◌≡◌, ◌≤◌, ◌+◌, map, length, ◌<◌, ℕ, ◌^◌, IsTrue, drop, slice_index_or, option_map};
ghost use Rattle.std.specs.FinSet as set;
ghost use Rattle.cudf_problem.specs.Promises.Views.{unknown_view};
ghost use Rattle.cudf_problem.specs.Statuses.{ascend_above};
ghost use Rattle.cudf_index.specs.Promises.Prices.{digits};
ghost use Rattle.cudf_job.specs.KeyViews.{key_view};
ghost use Rattle.cudf_job.specs.Promises.Keys.{is_fitting};
ghost use Rattle.cudf_referee.specs.Promises.Pages.{least_search, at_instance};
ghost use Rattle.cudf_referee.specs.Promises.Stops.{at_start, at_key};
ghost use Rattle.cudf_referee.specs.Working.Walkers.{put_forward, Agrees};
ghost use Rattle.cudf_referee.specs.Promises.PositionViews.{position_view};
ghost use Rattle.cudf_referee.specs.Promises.Views.{instance_view};
ghost use Rattle.cudf_referee.specs.Working.Places.{stanza_numbers, BeginsAt, IsFitting};
ghost use Rattle.cudf_referee.specs.Working.Searches.{unknown_left};

use crate::instance::Instance;
use crate::left::{Candidate, PackageInstancesLeft, RequestInstancesLeft};
use crate::rules::{ProposalFacts, is_violated};
use cudf_index::{Index, MeteredIndex, Steps};
use cudf_job::{Key, Part};
use cudf_problem::{InstalledPair, Package, Problem, Solution};
use std::marker::Model;

/// The walk over the violated instances, in key order. It holds none of them: each call of `next`
/// judges the instances from its position to the next violated one.
///
/// Contracts see what is judged, the position and the steps so far.
#[derive(Drop)]
pub struct Instances<'r, 'p, 't> {
    problem: &'p Problem<'t>,
    solution: &'p Solution<'t>,
    now: MeteredIndex<'r, 'p, 't>,
    /// For each entry of `upgrade`, the greatest number of its name before.
    before: &'r [Option<u64>],
    /// For each package, whether its name is to be kept, and the proposed status has one of it.
    named: &'r [bool],
    position: Position,
    /// What lies ahead of the position.
    cursor: Cursor<'t>,
    steps: Steps,
}

impl<'r, 'p, 't> Model for Instances<'r, 'p, 't> {
    ghost use Rattle.std.specs.Prelude.{◌≡◌, ◌+◌, map};
    ghost use Rattle.std.specs.FinSet as set;
    ghost use Rattle.cudf_problem.specs.Promises.Views.{unknown_view};
    ghost use Rattle.cudf_referee.specs.Promises.PositionViews.{position_view};
    ghost use Rattle.cudf_referee.specs.Promises.Walks.{Walking};
    ghost use Rattle.cudf_referee.specs.Working.Places.{ahead, IsFitting};
    ghost use Rattle.cudf_referee.specs.Working.Searches.{stops_from};
    ghost use Rattle.cudf_referee.specs.Working.Walkers.{put_forward, Agrees};

    ghost Value = { Walking };

    ghost view = { λ i. record {
      judged = put_forward i.problem.now i.now.status (map unknown_view i.solution.now.unknown.items);
      position = position_view i.position;
      steps = i.now.steps + i.steps;
    } };

    ghost invariant = { λ i.
        Agrees i.problem.now (set.contains i.solution.now.status) i.before.now i.now.status i.named.now (map unknown_view i.solution.now.unknown.items)
        × IsFitting (position_view i.position)
        × (stops_from (put_forward i.problem.now i.now.status (map unknown_view i.solution.now.unknown.items)) i.cursor
        ≡ ahead (put_forward i.problem.now i.now.status (map unknown_view i.solution.now.unknown.items)) (position_view i.position)) };
}

impl<'r, 'p, 't> Instances<'r, 'p, 't> {
    /// The walk over all violated instances, from the first on.
    pub(crate) fn new(
        problem: &'p Problem<'t>,
        solution: &'p Solution<'t>,
        now: &'r Index<'p, 't>,
        before: &'r [Option<u64>],
        named: &'r [bool],
    ) -> Self
        requires { Agrees problem.now (set.contains solution.now.status) before.now now.now named.now (map unknown_view solution.now.unknown.items) }
        ensures { result ≡ record {
          judged = put_forward problem.now now.now (map unknown_view solution.now.unknown.items);
          position = at_start;
          steps = 0;
        } }
    {
        Instances {
            problem,
            solution,
            now: now.metered(),
            before,
            named,
            position: Position::Start,
            cursor: Cursor {
                packages: 0,
                begun: None,
                request: RequestInstancesLeft::of(problem.request()),
                unknown: 0,
            },
            steps: Steps::new(),
        }
    }

    /// Those after a key, for the search of the first unknown stanza.
    pub(crate) fn behind(self, key: Key) -> Self
        ensures judged { result.judged ≡ self.entry.judged }
        ensures position { result.position ≡ at_key (key_view key) }
        ensures price { result.steps ≤ self.entry.steps + digits (length self.entry.judged.unknown) }
        ensures grows { self.entry.steps + least_search (key_view key).part (length self.entry.judged.unknown) ≤ result.steps }
    {
        let mut walk = self;
        let unknown = first_unknown_behind(key, walk.solution.unknown.as_slice(), &mut walk.steps);
        let cursor = walk.cursor_behind(key, unknown);
        // all that a walk holds, none of it a list of instances: a further field would have to be named here
        let Instances {
            problem,
            solution,
            now,
            before,
            named,
            position: _,
            cursor: _,
            steps,
        } = walk;
        Instances {
            problem,
            solution,
            now,
            before,
            named,
            position: Position::At(key),
            cursor,
            steps,
        }
    }
}

/// Where a walk goes on: after so many packages, with what is left of the next one and of the request, and after so many
/// unknown stanzas.
#[derive(Clone, Copy)]
struct Cursor<'t> {
    packages: usize,
    /// What is left of the next package, where it was begun.
    begun: Option<PackageInstancesLeft<'t>>,
    request: RequestInstancesLeft<'t>,
    unknown: usize,
}

impl<'r, 'p, 't> Instances<'r, 'p, 't> {
    ghost use Rattle.std.specs.Prelude.{ℕ, All, [], ◌∷◌, filter, drop, slice_get, option_map, IfSome, if◌then◌else◌};
    ghost use Rattle.std.specs.List.{enumerate_from};
    ghost use Rattle.cudf_problem.specs.Promises.Views.{package_view};
    ghost use Rattle.cudf_problem.specs.Universe.{PlainPackage};
    ghost use Rattle.cudf_referee.specs.Promises.Stops.{stop_at, package_end, precedes};
    ghost use Rattle.cudf_referee.specs.Promises.Views.{instance_view};
    ghost use Rattle.cudf_referee.specs.Violations.{package_instances};
    ghost use Rattle.cudf_referee.specs.Working.Places.{ahead, BeginsAt};
    ghost use Rattle.cudf_referee.specs.Working.Searches.{Comes, ComesTo, Searches, package_left, packages_rest, request_rest, unknown_rest, stops_from};
    ghost use Rattle.cudf_referee.specs.Working.PackageInstancesLeft.{placed_view, Fits, left_in};
    ghost use Rattle.cudf_referee.specs.Working.Located.{IsLocated, IsStopLocated};

    /// The package after this many others, as it is judged.
    fn candidate(&self, index: usize, package: &'p Package<'t>) -> Candidate<'p, 't>
        requires { slice_get self.now.judged.problem.packages index ≡ Some (package_view «package».now) }
        ensures placed { placed_view result ≡ (index + 1, package_view «package».now) }
        ensures fits { Fits self.entry.now.judged result }
    {
        // for the prover: an index below a length has a next one
        let _count = self.problem.packages().len();
        let place = index as u64 + 1;
        Candidate {
            place,
            package,
            is_installed: self.solution.status.holds(place),
        }
    }

    /// Judges an instance.
    #[inline(always)]
    fn judge(&mut self, instance: &Instance<'t>) -> bool
        requires { IsLocated self.old.judged (instance_view instance.now) }
        ensures { let i = instance_view instance.now in
            Searches self.old (stop_at i ∷ []) (if result then Some i else None) self.new }
    {
        self.steps.tick();
        let known = ProposalFacts {
            status: &self.solution.status,
            named: self.named,
            before: self.before,
        };
        is_violated(&mut self.now, known, instance, &mut self.steps)
    }

    /// Goes by the end of a package.
    fn pass_end(&mut self)
        ensures { (place : ℕ) → Searches self.old (package_end place ∷ []) None self.new }
    {
        self.steps.tick();
    }

    /// The first violated instance of a package, of those that are left.
    #[inline(always)]
    fn search_package(
        &mut self,
        candidate: Candidate<'p, 't>,
        left: &mut PackageInstancesLeft<'t>,
    ) -> Option<Instance<'t>>
        requires { All (IsStopLocated self.old.judged) (package_left (placed_view candidate) left.old) }
        ensures searches { Searches self.old (package_left (placed_view candidate.entry) left.old) (option_map instance_view result) self.new }
        ensures comes { IfSome result (λ i. Comes (package_left (placed_view candidate.entry) left.old) (instance_view i) (package_left (placed_view candidate.entry) left.new)) }
    {
        while let Some(instance) = candidate.next(left) {
            if self.judge(&instance) {
                return Some(instance);
            }
        }
        self.pass_end();
        None
    }

    /// The first violated instance of the packages that are left.
    fn search_packages(&mut self, cursor: &mut Cursor<'t>) -> Option<Instance<'t>>
        requires { All (IsStopLocated self.old.judged) (packages_rest self.old.judged cursor.old.begun (drop cursor.old.packages (enumerate_from 1 self.old.judged.problem.packages))) }
        ensures searches { Searches self.old (packages_rest self.old.judged cursor.old.begun (drop cursor.old.packages (enumerate_from 1 self.old.judged.problem.packages))) (option_map instance_view result) self.new }
        ensures comes { ComesTo (packages_rest self.old.judged cursor.old.begun (drop cursor.old.packages (enumerate_from 1 self.old.judged.problem.packages))) (option_map instance_view result)
            (packages_rest self.old.judged cursor.new.begun (drop cursor.new.packages (enumerate_from 1 self.old.judged.problem.packages))) }
        ensures others { (cursor.new.request ≡ cursor.old.request) × (cursor.new.unknown ≡ cursor.old.unknown) }
    {
        let packages = self.problem.packages();
        let mut begun = cursor.begun;
        for index in cursor.packages..packages.len() {
            let candidate = self.candidate(index, &packages[index]);
            let mut left = candidate.left(begun);
            if let Some(instance) = self.search_package(candidate, &mut left) {
                cursor.packages = index;
                cursor.begun = Some(left);
                return Some(instance);
            }
            begun = None;
        }
        cursor.packages = packages.len();
        cursor.begun = None;
        None
    }

    /// The first violated instance of the request, of those that are left.
    fn search_request(&mut self, left: &mut RequestInstancesLeft<'t>) -> Option<Instance<'t>>
        requires { All (IsStopLocated self.old.judged) (request_rest self.old.judged left.old) }
        ensures searches { Searches self.old (request_rest self.old.judged left.old) (option_map instance_view result) self.new }
        ensures comes { ComesTo (request_rest self.old.judged left.old) (option_map instance_view result) (request_rest self.old.judged left.new) }
    {
        let request = self.problem.request();
        while let Some(instance) = left.next(request) {
            if self.judge(&instance) {
                return Some(instance);
            }
        }
        None
    }

    /// The instance of the first unknown stanza that is left.
    fn search_unknown(&mut self, first: &mut usize) -> Option<Instance<'t>>
        ensures searches { Searches self.old (unknown_rest self.old.judged first.old) (option_map instance_view result) self.new }
        ensures comes { ComesTo (unknown_rest self.old.judged first.old) (option_map instance_view result) (unknown_rest self.old.judged first.new) }
    {
        match self.solution.unknown.get(*first) {
            Some(stanza) => {
                self.steps.tick();
                *first += 1;
                Some(Instance::of_unknown(stanza))
            }
            None => None,
        }
    }

    /// The first violated instance ahead.
    fn search(&mut self, cursor: &mut Cursor<'t>) -> Option<Instance<'t>>
        requires { All (IsStopLocated self.old.judged) (stops_from self.old.judged cursor.old) }
        ensures searches { Searches self.old (stops_from self.old.judged cursor.old) (option_map instance_view result) self.new }
        ensures comes { ComesTo (stops_from self.old.judged cursor.old) (option_map instance_view result) (stops_from self.old.judged cursor.new) }
    {
        if let Some(instance) = self.search_packages(cursor) {
            return Some(instance);
        }
        if let Some(instance) = self.search_request(&mut cursor.request) {
            return Some(instance);
        }
        self.search_unknown(&mut cursor.unknown)
    }

    /// Where it goes on after a key.
    fn cursor_behind(&self, key: Key, unknown: usize) -> Cursor<'t>
        requires { BeginsAt (at_key (key_view key)) self.now.judged.unknown unknown }
        ensures { stops_from self.entry.now.judged result ≡ ahead self.entry.now.judged (at_key (key_view key)) }
    {
        let request = self.problem.request();
        match key.part() {
            Part::Package(place) => {
                let packages = place as usize - 1;
                Cursor {
                    packages,
                    begun: self.behind_key(packages, key),
                    request: RequestInstancesLeft::of(request),
                    unknown,
                }
            }
            Part::Request => Cursor {
                packages: self.problem.packages().len(),
                begun: None,
                request: RequestInstancesLeft::behind(request, key),
                unknown,
            },
            Part::Solution => Cursor {
                packages: self.problem.packages().len(),
                begun: None,
                request: RequestInstancesLeft::none(),
                unknown,
            },
        }
    }

    /// The instances of the package after this many others that come after a key.
    fn behind_key(&self, index: usize, key: Key) -> Option<PackageInstancesLeft<'t>>
        ensures { (p : PlainPackage) → slice_get self.entry.now.judged.problem.packages index ≡ Some p
            → filter (λ x. precedes (key_view key) x.key) (package_instances self.entry.now.judged (index + 1, p)) ≡ left_in self.entry.now.judged result (index + 1, p) }
    {
        match self.problem.packages().get(index) {
            Some(package) => Some(self.candidate(index, package).behind(key)),
            None => None,
        }
    }
}

impl<'r, 'p, 't> Iterator for Instances<'r, 'p, 't> {
    ghost use Rattle.std.specs.Prelude.{option_map};
    ghost use Rattle.std.specs.Iterator.{item_count};
    ghost use Rattle.cudf_referee.specs.Promises.Views.{instance_view};
    ghost use Rattle.cudf_referee.specs.Promises.Walks.{left, Moves};

    type Item = Instance<'t>;

    ghost next_gives = { λ s r t. Moves s (option_map instance_view r) t };

    ghost remaining = { item_count left };

    fn next(&mut self) -> Option<Instance<'t>> {
        let mut cursor = self.cursor;
        let found = self.search(&mut cursor);
        self.cursor = cursor;
        self.position = position_behind(found);
        found
    }
}

/// A position in the walk. (own)
#[derive(Clone, Copy)]
pub(crate) enum Position {
    /// Before all instances.
    Start,
    /// After this key, whether or not an instance has it.
    At(Key),
    /// After all instances.
    End,
}

/// After an instance that was found, or after all where none was.
pub(crate) fn position_behind(found: Option<Instance<'_>>) -> Position
    ensures position { position_view result ≡ at_instance (option_map instance_view found.entry) }
    ensures fits { IsFitting (at_instance (option_map instance_view found.entry)) }
{
    match found {
        None => Position::End,
        Some(instance) => {
            let _ = instance.key.part();
            Position::At(instance.key)
        }
    }
}

/// The place of the first unknown stanza that comes after the key: for a key of the solution it
/// is searched by halves, for others it is the first of all.
pub(crate) fn first_unknown_behind(
    key: Key,
    unknown: &[InstalledPair<'_>],
    steps: &mut Steps,
) -> usize
    requires { IsTrue (ascend_above 0 (map unknown_view unknown.now)) }
    ensures fits { IsTrue (is_fitting (key_view key)) }
    ensures place { BeginsAt (at_key (key_view key)) (map unknown_view unknown.now) result }
    ensures price { steps.new ≤ steps.old + digits (length unknown.now) }
    ensures grows { steps.old + least_search (key_view key).part (length unknown.now) ≤ steps.new }
{
    match key.part() {
        Part::Package(_) | Part::Request => 0,
        Part::Solution => first_above(key.place(), unknown, steps),
    }
}

/// The place of the first stanza with a number above this one.
fn first_above(number: u64, unknown: &[InstalledPair<'_>], steps: &mut Steps) -> usize
    requires { IsTrue (ascend_above 0 (map unknown_view unknown.now)) }
    ensures left { unknown_left number (map unknown_view unknown.now) ≡ drop result (map unknown_view unknown.now) }
    ensures within { result ≤ length unknown.now }
    ensures price { steps.new ≤ steps.old + digits (length unknown.now) }
    ensures grows { steps.old + digits (length unknown.now + 1) ≤ steps.new + 1 }
{
    let mut low = 0;
    let mut high = unknown.len();
    while low < high {
        let middle = low + (high - low) / 2;
        if number_at(unknown, middle, steps) <= number {
            low = middle + 1;
        } else {
            high = middle;
        }
    }
    low
}

/// The number of the stanza at a place, for one step.
pub(crate) fn number_at(unknown: &[InstalledPair<'_>], place: usize, steps: &mut Steps) -> u64
    requires { place < length unknown.now }
    ensures value { (d : ℕ) → result ≡ slice_index_or (stanza_numbers (map unknown_view unknown.now)) place d }
    ensures price { steps.new ≡ steps.old + 1 }
{
    steps.tick();
    unknown[place].stanza
}
