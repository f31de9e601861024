//! Instances of rules: violated ones, all of a problem, and that of a key.

use crate::left::{Candidate, PackageInstancesLeft, RequestInstancesLeft, candidate_at};
use cudf_job::{Aspect, Key, Part, Rule};
use cudf_problem::{InstalledPair, Problem, Request};
use cudf_value::{Clause, Vpkg};
use std::marker::Model;

/// An instance of a rule, violated or not. Own.
#[derive(Clone, Copy)]
pub struct Instance<'t> {
    /// Its name.
    pub key: Key,
    /// The line of the stanza's first property: of the problem for packages and the request, of the solution for
    /// unknown stanzas. From 1.
    pub line: u64,
    /// The name and version of the package or the unknown stanza; `None` for the request.
    pub subject: Option<(&'t str, u64)>,
    /// What is wrong, with the document's own clause or entry.
    pub what: Requirement<'t>,
}

/// What an instance says is wrong. Own.
#[derive(Clone, Copy)]
pub enum Requirement<'t> {
    /// The status doesn't satisfy this clause.
    Needs(Clause<'t>),
    /// The other packages of the status satisfy this entry.
    ConflictsWith(Vpkg<'t>),
    /// The package was to be kept at its version, and is gone.
    KeepVersion,
    /// The package was to be kept at some version, and is gone.
    KeepPackage,
    /// This feature was to be kept, and the status doesn't satisfy it.
    KeepFeature(Vpkg<'t>),
    /// The status doesn't satisfy this entry of `install`.
    Install(Vpkg<'t>),
    /// The status satisfies this entry of `remove`.
    Remove(Vpkg<'t>),
    /// This entry of `upgrade` is violated in the way of the key's aspect.
    Upgrade(Vpkg<'t>),
    /// The pair isn't in the universe.
    Unknown,
}

impl<'t> Instance<'t> {
    ghost use Rattle.std.specs.Prelude.{◌≡◌, ◌<◌, None, IsTrue};
    ghost use Rattle.cudf_problem.specs.Promises.Views.{request_view, unknown_view};
    ghost use Rattle.cudf_job.specs.declared.key.Part.TheVariants as part;
    ghost use Rattle.cudf_job.specs.Keys.{fits};
    ghost use Rattle.cudf_referee.specs.Violations.{at_request, unknown_instance};
    ghost use Rattle.cudf_referee.specs.Promises.Views.{instance_view, what_view};

    /// An instance of a rule of the request, at an entry's place.
    pub(crate) fn of_request(
        request: &Request<'t>,
        rule: Rule,
        number: u64,
        aspect: Option<Aspect>,
        what: Requirement<'t>,
    ) -> Self
        requires counted { 0 < number }
        requires fits { IsTrue (fits part.Request rule aspect) }

        ensures { instance_view result ≡ at_request (request_view request.now) rule number aspect (what_view what.entry) }
    {
        Instance {
            key: Key::new(Part::Request, rule, number, aspect),
            line: request.line,
            subject: None,
            what,
        }
    }

    /// The instance of an unknown stanza.
    pub(crate) fn of_unknown(unknown: &InstalledPair<'t>) -> Self
        requires { 0 < unknown.now.stanza }
        ensures { instance_view result ≡ unknown_instance (unknown_view unknown.now) }
    {
        Instance {
            key: Key::new(Part::Solution, Rule::Unknown, unknown.stanza, None),
            line: unknown.line,
            subject: Some((unknown.name, unknown.version)),
            what: Requirement::Unknown,
        }
    }
}

/// The instances of a problem that are left, in key order: those of each package as if it were to be installed, and those
/// of the request. It takes no memory. Own.
#[derive(Clone, Copy)]
pub struct ProblemInstances<'p, 't> {
    problem: &'p Problem<'t>,
    /// How many packages were passed.
    passed: usize,
    /// What is left of the next package, where it was begun.
    begun: Option<PackageInstancesLeft<'t>>,
    request: RequestInstancesLeft<'t>,
}

impl<'p, 't> ProblemInstances<'p, 't> {
    ghost use Rattle.std.specs.Prelude.{◌≡◌};
    ghost use Rattle.cudf_referee.specs.Promises.ProblemInstances.{instances_left};
    ghost use Rattle.cudf_referee.specs.Violations.{problem_instances};

    /// All instances of the problem.
    pub fn of(problem: &'p Problem<'t>) -> Self
        ensures { instances_left result ≡ problem_instances problem.now }
    {
        ProblemInstances {
            problem,
            passed: 0,
            begun: None,
            request: RequestInstancesLeft::of(problem.request()),
        }
    }
}

impl<'p, 't> Iterator for ProblemInstances<'p, 't> {
    ghost use Rattle.std.specs.Iterator.{YieldsFirstBy, item_count};
    ghost use Rattle.cudf_referee.specs.Promises.ProblemInstances.{instances_left};
    ghost use Rattle.cudf_referee.specs.Promises.Views.{instance_view};

    type Item = Instance<'t>;

    ghost next_gives = { YieldsFirstBy instance_view instances_left };

    ghost remaining = { item_count instances_left };

    #[inline]
    fn next(&mut self) -> Option<Instance<'t>> {
        while let Some(candidate) = candidate_at(self.problem, self.passed) {
            let mut left = candidate.left(self.begun);
            if let Some(instance) = candidate.next(&mut left) {
                self.begun = Some(left);
                return Some(instance);
            }
            self.passed = candidate.place as usize;
            self.begun = None;
        }
        self.request.next(self.problem.request())
    }
}

/// Finds the instance of a problem that has a key. It takes no memory. Where the keys of a package, or of the request, are
/// asked in ascending order, it goes on from the last one, else it begins with all of the key's package, or of the request.
/// Contracts see the problem. Own.
#[derive(Drop)]
pub struct InstanceFinder<'p, 't> {
    problem: &'p Problem<'t>,
    /// The place of the last package, the last key of it, and its instances that come after this key.
    of_package: Option<(u64, Key, PackageInstancesLeft<'t>)>,
    /// The last key of the request, and its instances that come after it.
    of_request: Option<(Key, RequestInstancesLeft<'t>)>,
}

impl<'p, 't> Model for InstanceFinder<'p, 't> {
    ghost use Rattle.cudf_problem.specs.Universe.{PlainProblem};
    ghost use Rattle.cudf_referee.specs.Working.Finders.{IsPackageKept, IsRequestKept};

    ghost Value = { PlainProblem };

    ghost view = { λ f. f.problem.now };

    ghost invariant = { λ f. IsPackageKept f.problem.now f.of_package × IsRequestKept f.problem.now f.of_request };
}

impl<'p, 't> InstanceFinder<'p, 't> {
    ghost use Rattle.std.specs.Prelude.{◌≡◌, ◌<◌, ◌-◌, option_map};
    ghost use Rattle.cudf_job.specs.declared.key.Part.TheVariants as part;
    ghost use Rattle.cudf_job.specs.KeyViews.{key_view};
    ghost use Rattle.cudf_referee.specs.Proposals.{everything};
    ghost use Rattle.cudf_referee.specs.Promises.Views.{instance_view};
    ghost use Rattle.cudf_referee.specs.Violations.{package_instances, request_instances, instance_of};
    ghost use Rattle.cudf_referee.specs.Working.PackageInstancesLeft.{placed_view, left_view};
    ghost use Rattle.cudf_referee.specs.Working.ProblemLeft.{IsPlacedAt};
    ghost use Rattle.cudf_referee.specs.Working.RequestInstancesLeft.{request_left_view};
    ghost use Rattle.cudf_referee.specs.Working.Sought.{IsRest};

    /// The finder of a problem's instances.
    pub fn new(problem: &'p Problem<'t>) -> Self
        ensures { result ≡ problem.entry.now }
    {
        InstanceFinder {
            problem,
            of_package: None,
            of_request: None,
        }
    }

    /// The instance of the key. `None` where no instance has it.
    pub fn find(&mut self, key: Key) -> Option<Instance<'t>>
        ensures found { option_map instance_view result ≡ instance_of self.old (key_view key) }
        ensures problem { self.new ≡ self.old }
    {
        match key.part() {
            Part::Package(place) => self.find_of_package(place, key),
            Part::Request => self.find_of_request(key),
            Part::Solution => None,
        }
    }

    /// The instance of a key of the package at this place.
    fn find_of_package(&mut self, place: u64, key: Key) -> Option<Instance<'t>>
        requires part { (key_view key).part ≡ part.Package place }
        requires counted { 0 < place }
        ensures found { option_map instance_view result ≡ instance_of self.old (key_view key) }
        ensures problem { self.new ≡ self.old }
    {
        let candidate = candidate_at(self.problem, place as usize - 1)?;
        let mut left = self.package_left(candidate, key);
        let found = candidate.seek(&mut left, key);
        self.of_package = Some((place, key, left));
        found
    }

    /// The instances of the key's package among which it is sought.
    fn package_left(&self, candidate: Candidate<'p, 't>, key: Key) -> PackageInstancesLeft<'t>
        requires { IsPlacedAt self.now (candidate.place - 1) candidate }
        ensures { IsRest (key_view key) (package_instances (everything self.now) (placed_view candidate.entry)) (left_view (placed_view candidate.entry) result) }
    {
        if let Some((place, last, left)) = self.of_package {
            if place == candidate.place && last.precedes(key) {
                return left;
            }
        }
        candidate.left(None)
    }

    /// The instance of a key of the request.
    fn find_of_request(&mut self, key: Key) -> Option<Instance<'t>>
        requires { (key_view key).part ≡ part.Request }
        ensures found { option_map instance_view result ≡ instance_of self.old (key_view key) }
        ensures problem { self.new ≡ self.old }
    {
        let mut left = self.request_left(key);
        let found = left.seek(self.problem.request(), key);
        self.of_request = Some((key, left));
        found
    }

    /// The instances of the request among which a key is sought.
    fn request_left(&self, key: Key) -> RequestInstancesLeft<'t>
        ensures { IsRest (key_view key) (request_instances self.now.request) (request_left_view self.now.request result) }
    {
        if let Some((last, left)) = self.of_request {
            if last.precedes(key) {
                return left;
            }
        }
        RequestInstancesLeft::of(self.problem.request())
    }
}
