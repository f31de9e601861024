//! The instances that are left of a package or the request, in the order of their keys.
ghost use Rattle.std.specs.Prelude.{◌≤◌, ◌<◌, ◌+◌, ◌^◌, length};
ghost use Rattle.std.specs.Option.{ForSome};
ghost use Rattle.cudf_value.specs.Promises.Views.{clauses_view, vpkgs_view};

mod candidate_at;

use crate::instance::{Instance, Requirement};
pub(crate) use candidate_at::candidate_at;
use cudf_job::{Aspect, Key, Part, Rule};
use cudf_problem::{Keep, Package, Request};
use cudf_value::{Clauses, Formula, Vpkg, VpkgList, Vpkgs};

/// A package of the universe, and what is known of it before it is judged.
#[derive(Clone, Copy)]
pub(crate) struct Candidate<'p, 't> {
    /// Its place in the universe, from 1.
    pub(crate) place: u64,
    pub(crate) package: &'p Package<'t>,
    /// Whether it is to be installed.
    pub(crate) is_installed: bool,
    ghost placed: { 0 < place },
}

/// The instances of a package that are left: the entries of its lists, and how many of each were passed.
#[derive(Clone, Copy)]
pub(crate) struct PackageInstancesLeft<'t> {
    clauses: Clauses<'t>,
    clause: u64,
    conflicts: Vpkgs<'t>,
    conflict: u64,
    /// Whether the version or the package, where one is to be kept, is left.
    one: bool,
    features: Vpkgs<'t>,
    feature: u64,
    ghost clauses_fit: { clause + length (clauses_view clauses) ≤ 2 ^ 63 },
    ghost conflicts_fit: { conflict + length (vpkgs_view conflicts) ≤ 2 ^ 63 },
    ghost features_fit: { feature + length (vpkgs_view features) ≤ 2 ^ 63 },
}

impl<'p, 't> Candidate<'p, 't> {
    ghost use Rattle.std.specs.Prelude.{◌≡◌, ◌<◌, IsTrue, List, None, Option, [], filter, option_map, if◌then◌else◌};
    ghost use Rattle.std.specs.Iterator.{YieldsFirstBy};
    ghost use Rattle.cudf_value.specs.Promises.Views.{formula_view, list_view};
    ghost use Rattle.cudf_job.specs.declared.key.Part.TheVariants as part;
    ghost use Rattle.cudf_job.specs.KeyViews.{key_view};
    ghost use Rattle.cudf_job.specs.Keys.{fits};
    ghost use Rattle.cudf_referee.specs.Instances.{PlainInstance};
    ghost use Rattle.cudf_referee.specs.Proposals.{Proposal};
    ghost use Rattle.cudf_referee.specs.Promises.Stops.{precedes};
    ghost use Rattle.cudf_referee.specs.Promises.Views.{instance_view, what_view};
    ghost use Rattle.cudf_referee.specs.Violations.{at_package, package_instances};
    ghost use Rattle.cudf_referee.specs.Working.PackageInstancesLeft.{placed_view, Fits, depends_of, conflicts_of, features_of, left_view, left_in};
    ghost use Rattle.cudf_referee.specs.Working.Sought.{IsRest, Seeks};

    /// What is judged of what it needs: nothing, where it isn't to be installed.
    fn depends(self) -> Formula<'t>
        ensures { formula_view result ≡ depends_of self.entry }
    {
        if self.is_installed {
            self.package.depends
        } else {
            Formula::always()
        }
    }

    /// The entries of `conflicts` that are judged: none, where it isn't to be installed.
    fn conflicts(self) -> VpkgList<'t>
        ensures { list_view result ≡ conflicts_of self.entry }
    {
        if self.is_installed {
            self.package.conflicts
        } else {
            VpkgList::empty()
        }
    }

    /// The features that are to be kept: none, where it wasn't installed.
    fn features(self) -> VpkgList<'t>
        ensures { list_view result ≡ features_of self.entry }
    {
        if !self.package.installed {
            return VpkgList::empty();
        }
        match self.package.keep {
            Keep::Feature => self.package.provides,
            Keep::Version | Keep::Package | Keep::Nothing => VpkgList::empty(),
        }
    }

    /// All its instances.
    fn all(self) -> PackageInstancesLeft<'t>
        ensures { (s : Proposal) → Fits s self.entry → left_view (placed_view self.entry) result ≡ package_instances s (placed_view self.entry) }
    {
        let depends = self.depends();
        let conflicts = self.conflicts();
        let features = self.features();
        PackageInstancesLeft {
            clauses: depends.clauses(),
            clause: 0,
            conflicts: conflicts.vpkgs(),
            conflict: 0,
            one: self.package.installed,
            features: features.vpkgs(),
            feature: 0,
        }
    }

    /// Its instances that are left: all, where it wasn't begun.
    pub(crate) fn left(self, begun: Option<PackageInstancesLeft<'t>>) -> PackageInstancesLeft<'t>
        ensures { (s : Proposal) → Fits s self.entry → left_view (placed_view self.entry) result ≡ left_in s begun.entry (placed_view self.entry) }
    {
        match begun {
            Some(left) => left,
            None => self.all(),
        }
    }

    /// Its instances that come after a key of it, whether or not one has the key.
    pub(crate) fn behind(self, key: Key) -> PackageInstancesLeft<'t>
        ensures { (s : Proposal) → Fits s self.entry
            → filter (λ x. precedes (key_view key) x.key) (package_instances s (placed_view self.entry)) ≡ left_view (placed_view self.entry) result }
    {
        let mut left = self.all();
        let _found = self.seek(&mut left, key);
        left
    }

    /// Goes by those of its instances that are left up to a key, and gives the one that has it.
    pub(crate) fn seek(self, left: &mut PackageInstancesLeft<'t>, key: Key) -> Option<Instance<'t>>
        ensures { (all : List PlainInstance) → IsRest (key_view key) all (left_view (placed_view self.entry) left.old)
            → Seeks (key_view key) all (option_map instance_view result) (left_view (placed_view self.entry) left.new) }
    {
        let mut later = *left;
        while let Some(instance) = self.next(&mut later) {
            if key.precedes(instance.key) {
                return None;
            }
            *left = later;
            if !instance.key.precedes(key) {
                return Some(instance);
            }
        }
        None
    }

    /// The next of its instances that are left.
    #[inline(always)]
    pub(crate) fn next(self, left: &mut PackageInstancesLeft<'t>) -> Option<Instance<'t>>
        ensures { YieldsFirstBy instance_view (left_view (placed_view self.entry)) left.old result left.new }
    {
        if let Some(clause) = left.clauses.next() {
            left.clause += 1;
            return Some(self.instance(Rule::Depends, left.clause, Requirement::Needs(clause)));
        }
        if let Some(vpkg) = left.conflicts.next() {
            left.conflict += 1;
            return Some(self.instance(
                Rule::Conflicts,
                left.conflict,
                Requirement::ConflictsWith(vpkg),
            ));
        }
        if left.one {
            left.one = false;
            match self.package.keep {
                Keep::Version => return Some(self.instance(
                    Rule::Keep,
                    1,
                    Requirement::KeepVersion,
                )),
                Keep::Package => return Some(self.instance(
                    Rule::Keep,
                    1,
                    Requirement::KeepPackage,
                )),
                Keep::Feature | Keep::Nothing => {}
            }
        }
        let vpkg = left.features.next()?;
        left.feature += 1;
        Some(self.instance(Rule::Keep, left.feature, Requirement::KeepFeature(vpkg)))
    }

    /// Its instance of a rule, at an entry's place.
    fn instance(self, rule: Rule, number: u64, what: Requirement<'t>) -> Instance<'t>
        requires counted { 0 < number }
        requires fits { IsTrue (fits (part.Package self.place) rule None) }
        ensures { instance_view result ≡ at_package (placed_view self.entry) rule number (what_view what.entry) }
    {
        Instance {
            key: Key::new(Part::Package(self.place), rule, number, None),
            line: self.package.line,
            subject: Some((self.package.name, self.package.version)),
            what,
        }
    }
}

/// The instances of the request that are left: the entries of its lists, and how many of each were passed.
#[derive(Clone, Copy)]
pub(crate) struct RequestInstancesLeft<'t> {
    install: Vpkgs<'t>,
    installed: u64,
    remove: Vpkgs<'t>,
    removed: u64,
    upgrade: Vpkgs<'t>,
    upgraded: u64,
    /// The last entry of `upgrade` that was passed, where aspects of it are left, and the first of these.
    entry: Option<(Vpkg<'t>, Aspect)>,
    ghost install_fits: { installed + length (vpkgs_view install) ≤ 2 ^ 63 },
    ghost remove_fits: { removed + length (vpkgs_view remove) ≤ 2 ^ 63 },
    ghost upgrade_fits: { upgraded + length (vpkgs_view upgrade) ≤ 2 ^ 63 },
    ghost entered: { ForSome entry (λ _. 0 < upgraded) },
}

impl<'t> RequestInstancesLeft<'t> {
    ghost use Rattle.std.specs.Prelude.{◌≡◌, ◌<◌, IfSome, List, [], filter, option_map};
    ghost use Rattle.std.specs.Iterator.{YieldsFirstBy};
    ghost use Rattle.cudf_problem.specs.Universe.{PlainRequest};
    ghost use Rattle.cudf_problem.specs.Promises.Views.{request_view};
    ghost use Rattle.cudf_job.specs.KeyViews.{key_view};
    ghost use Rattle.cudf_referee.specs.Instances.{PlainInstance};
    ghost use Rattle.cudf_referee.specs.Promises.Stops.{precedes};
    ghost use Rattle.cudf_referee.specs.Violations.{request_instances};
    ghost use Rattle.cudf_referee.specs.Working.RequestInstancesLeft.{later, request_left_view, upgrades_view};
    ghost use Rattle.cudf_referee.specs.Working.RuleInstances.{upgrade_instance};
    ghost use Rattle.cudf_referee.specs.Working.Sought.{IsRest, Seeks};
    ghost use Rattle.cudf_referee.specs.Promises.Views.{instance_view};
    ghost use Rattle.cudf_value.specs.Promises.Views.{vpkg_view};

    /// All instances of the request.
    pub(crate) fn of(request: &Request<'t>) -> Self
        ensures { request_left_view (request_view request.now) result ≡ request_instances (request_view request.now) }
    {
        RequestInstancesLeft {
            install: request.install.vpkgs(),
            installed: 0,
            remove: request.remove.vpkgs(),
            removed: 0,
            upgrade: request.upgrade.vpkgs(),
            upgraded: 0,
            entry: None,
        }
    }

    /// No instances: the request is passed.
    pub(crate) fn none() -> Self
        ensures { (r : PlainRequest) → request_left_view r result ≡ [] }
    {
        let none = VpkgList::empty();
        RequestInstancesLeft {
            install: none.vpkgs(),
            installed: 0,
            remove: none.vpkgs(),
            removed: 0,
            upgrade: none.vpkgs(),
            upgraded: 0,
            entry: None,
        }
    }

    /// The instances of the request that come after a key of it, whether or not one has the key.
    pub(crate) fn behind(request: &Request<'t>, key: Key) -> Self
        ensures { filter (λ x. precedes (key_view key) x.key) (request_instances (request_view request.now)) ≡ request_left_view (request_view request.now) result }
    {
        let mut left = Self::of(request);
        let _found = left.seek(request, key);
        left
    }

    /// Goes by the instances that are left up to a key, and gives the one that has it.
    pub(crate) fn seek(&mut self, request: &Request<'t>, key: Key) -> Option<Instance<'t>>
        ensures { (all : List PlainInstance) → IsRest (key_view key) all (request_left_view (request_view request.now) self.old)
            → Seeks (key_view key) all (option_map instance_view result) (request_left_view (request_view request.now) self.new) }
    {
        let mut later = *self;
        while let Some(instance) = later.next(request) {
            if key.precedes(instance.key) {
                return None;
            }
            *self = later;
            if !instance.key.precedes(key) {
                return Some(instance);
            }
        }
        None
    }

    /// The next instance.
    pub(crate) fn next(&mut self, request: &Request<'t>) -> Option<Instance<'t>>
        ensures { YieldsFirstBy instance_view (request_left_view (request_view request.now)) self.old result self.new }
    {
        if let Some(vpkg) = self.install.next() {
            self.installed += 1;
            let what = Requirement::Install(vpkg);
            return Some(Instance::of_request(request, Rule::Install, self.installed, None, what));
        }
        if let Some(vpkg) = self.remove.next() {
            self.removed += 1;
            let what = Requirement::Remove(vpkg);
            return Some(Instance::of_request(request, Rule::Remove, self.removed, None, what));
        }
        let (vpkg, aspect) = self.next_upgrade()?;
        let what = Requirement::Upgrade(vpkg);
        Some(Instance::of_request(request, Rule::Upgrade, self.upgraded, Some(aspect), what))
    }

    /// The next entry of `upgrade`, with the aspect that comes next of it.
    fn next_upgrade(&mut self) -> Option<(Vpkg<'t>, Aspect)>
        ensures gives { (r : PlainRequest) → YieldsFirstBy (λ e. upgrade_instance r e.1 self.new.upgraded (vpkg_view e.0)) (upgrades_view r) self.old result self.new }
        ensures counted { IfSome result (λ _. 0 < self.new.upgraded) }
        ensures install { (self.new.install ≡ self.old.install) × (self.new.installed ≡ self.old.installed) }
        ensures remove { (self.new.remove ≡ self.old.remove) × (self.new.removed ≡ self.old.removed) }
    {
        if let Some((vpkg, aspect)) = self.entry {
            self.entry = Self::next_aspect(vpkg, aspect);
            return Some((vpkg, aspect));
        }
        let vpkg = self.upgrade.next()?;
        self.upgraded += 1;
        self.entry = Some((vpkg, Aspect::Many));
        Some((vpkg, Aspect::Unsatisfied))
    }

    /// The aspects of an entry after one of them.
    fn next_aspect(vpkg: Vpkg<'t>, aspect: Aspect) -> Option<(Vpkg<'t>, Aspect)>
        ensures { result ≡ later vpkg.entry aspect }
    {
        match aspect {
            Aspect::Unsatisfied => Some((vpkg, Aspect::Many)),
            Aspect::Many => Some((vpkg, Aspect::Lower)),
            Aspect::Lower => None,
        }
    }
}
