//! Problems: a universe and a request; what their stanzas are, and how strictly documents are read.

use crate::package::{Package, PackageIds};
use cudf_value::{Formula, VpkgList};
use std::fmt;
use std::marker::Model;

/// The packages and the request of a well-formed document (CUDF 2.0, universes).
#[derive(Drop)]
pub struct Problem<'t> {
    packages: Vec<Package<'t>>,
    request: Request<'t>,
    recommends: Option<Formula<'t>>,
    extra_names: Vec<&'t str>,
    ids: PackageIds<'t>,
}

impl<'t> Model for Problem<'t> {
    ghost use Rattle.std.specs.Prelude.{◌≡◌, true, map, option_map};
    ghost use Rattle.cudf_value.specs.Promises.Views.{formula_view};
    ghost use Rattle.cudf_problem.specs.Promises.Packages.{are_distinct};
    ghost use Rattle.cudf_problem.specs.Universe.{PlainProblem, package_id};
    ghost use Rattle.cudf_problem.specs.Promises.Views.{package_view, request_view};

    ghost Value = { PlainProblem };

    ghost view = { λ p. record {
      packages = map package_view p.packages.items;
      request = request_view p.request;
      recommends = option_map formula_view p.recommends;
      extra_names = map (λ name. name.now) p.extra_names.items;
    } };

    ghost invariant = { λ p. (p.ids ≡ map package_id (map package_view p.packages.items)) × (are_distinct p.ids ≡ true) };
}

impl fmt::Debug for Problem<'_> {
    fn fmt<W: fmt::Write>(&self, f: &mut fmt::Formatter<W>) -> fmt::Result {
        f.debug_struct("Problem")
            .field("packages", &self.packages)
            .field("request", &self.request)
            .field("recommends", &self.recommends)
            .field("extra_names", &self.extra_names)
            .finish_non_exhaustive()
    }
}

impl<'t> Problem<'t> {
    ghost use Rattle.std.specs.Prelude.{◌≡◌, ◌<◌, ◌≤◌, Some, true, map, length, option_map, position, slice_get, bytes_eq};
    ghost use Rattle.cudf_value.specs.Promises.Views.{formula_view};
    ghost use Rattle.cudf_problem.specs.Ids.{is_id};
    ghost use Rattle.cudf_problem.specs.Promises.Packages.{are_distinct, recommends_at};
    ghost use Rattle.cudf_problem.specs.Promises.Views.{package_view, request_view};
    ghost use Rattle.cudf_problem.specs.Promises.Names.{names_in};
    ghost use Rattle.cudf_problem.specs.Universe.{PlainPackage, package_id};

    /// The problem of these, where `extra_names` are the names that its preamble declares, and `ids` the names and
    /// versions of the packages.
    pub fn new(
        packages: Vec<Package<'t>>,
        request: Request<'t>,
        recommends: Option<Formula<'t>>,
        extra_names: Vec<&'t str>,
        ids: PackageIds<'t>,
    ) -> Self
        requires ids { ids ≡ map package_id (map package_view packages.items) }
        requires distinct { are_distinct ids ≡ true }
        ensures { result ≡ record {
          packages = map package_view packages.entry.items;
          request = request_view request.entry;
          recommends = option_map formula_view recommends.entry;
          extra_names = map (λ name. name.now) extra_names.entry.items;
        } }
    {
        Problem {
            packages,
            request,
            recommends,
            extra_names,
            ids,
        }
    }

    /// The universe: the packages in document order. No two have the same name and version.
    pub fn packages(&self) -> &[Package<'t>]
        ensures packages { map package_view result.now ≡ self.now.packages }
        ensures distinct { are_distinct (map package_id self.now.packages) ≡ true }
    {
        self.packages.as_slice()
    }

    /// The request.
    pub fn request(&self) -> &Request<'t>
        ensures { request_view result.now ≡ self.now.request }
    {
        &self.request
    }

    /// What the package at this place of the universe, from 1 to the number of packages, recommends:
    /// what it says itself, or else the declared default. `None` where neither is there, or where
    /// `recommends` isn't declared as `vpkgformula`.
    pub fn recommends(&self, place: u64) -> Option<Formula<'t>>
        requires from_one { 0 < place }
        requires in_universe { place ≤ length self.now.packages }
        ensures { option_map formula_view result ≡ recommends_at self.now place }
    {
        self.packages[place as usize - 1]
            .recommends
            .or(self.recommends)
    }

    /// The names of the extra properties that the preamble declares, in its order.
    pub fn extra_names(&self) -> &[&'t str]
        ensures { map (λ name. name.now) result.now ≡ self.now.extra_names }
    {
        self.extra_names.as_slice()
    }

    /// The index of the package of this name and version, if the universe has it.
    pub fn index_of(&self, name: &str, version: u64) -> Option<usize>
        ensures index { result
            ≡ position (is_id (name.now, version)) (map package_id self.now.packages) }
        ensures distinct { are_distinct (map package_id self.now.packages) ≡ true }
    {
        self.ids.index_of(name, version)
    }

    /// How many different names the packages have.
    pub fn name_count(&self) -> usize
        ensures { result ≡ length (names_in self.now.packages) }
    {
        self.ids.name_count()
    }

    /// The number of the name of the package with this index: how many other names come before it in the universe.
    pub fn number_at(&self, index: usize) -> usize
        requires { index < length self.now.packages }
        ensures { (p : PlainPackage) → slice_get self.now.packages index ≡ Some p
            → Some result ≡ position (bytes_eq p.name) (names_in self.now.packages) }
    {
        self.ids.number_at(index)
    }
}

/// What is asked for; each list is empty by default.
#[derive(Debug, Drop)]
pub struct Request<'t> {
    /// The line of its `request` property, from 1.
    pub line: u64,
    /// What is to be satisfied.
    pub install: VpkgList<'t>,
    /// What isn't to be satisfied.
    pub remove: VpkgList<'t>,
    /// What is to be satisfied by one version, not lower than before.
    pub upgrade: VpkgList<'t>,
}

/// How strictly a document is read (own).
#[derive(Clone, Copy, PartialEq, Eq, Hash)]
pub enum Mode {
    /// A package may leave out a declared property that has no default, a solution may give a pair of name and
    /// version twice: then both mean the same pair, and a property that has no meaning in its stanza is skipped, as is
    /// one of a solution's packages that is declared neither in the problem nor in the solution.
    Lenient,
    /// The first of these is E14, the second E15, the third E16, the fourth E8. A document without errors says the same
    /// in both modes.
    Strict,
}

/// What the first property's name says that a stanza is.
#[derive(Clone, Copy, PartialEq, Eq)]
pub enum Postmark {
    /// `preamble`.
    Preamble,
    /// `package`.
    Package,
    /// `request`.
    Request,
}
