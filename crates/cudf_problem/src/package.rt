//! Packages: CUDF 2.0, package properties. Their names and versions, and what a solution says of one.
ghost use Rattle.indexmap.specs.IndexSet.{insert_key};
ghost use Rattle.std.specs.Prelude.{◌≡◌, ◌<◌, [], Some, not, length, position, slice_index_or, option_map, bytes_eq, IfOk, OnOk};
ghost use Rattle.cudf_problem.specs.Values.{keep_value};
ghost use Rattle.cudf_problem.specs.Ids.{Id, is_id, is_among, is_known};
ghost use Rattle.cudf_problem.specs.Promises.Names.{names_of_ids};
ghost use Rattle.cudf_problem.specs.Promises.Packages.{with_id};
ghost use Rattle.cudf_problem.specs.Working.Numbers.{pair_id};

use cudf_text::trim;
use cudf_value::{Formula, VpkgList};
use indexmap::{IndexMap, IndexSet};
use std::alloc::{AllocError, Global};
use std::marker::Model;

/// What a solution has to keep of an installed package.
#[derive(Clone, Copy, Debug, PartialEq, Eq, Hash)]
pub enum Keep {
    /// `version`: this version.
    Version,
    /// `package`: some version of its name.
    Package,
    /// `feature`: all that it provides.
    Feature,
    /// `none`, the default.
    Nothing,
}

/// A package of the universe. Name and version together identify it.
#[derive(Debug, Drop)]
pub struct Package<'t> {
    /// The line of its `package` property, from 1.
    pub line: u64,
    /// Its name, a `pkgname`.
    pub name: &'t str,
    /// Its version, at least 1.
    pub version: u64,
    /// What it needs; by default no clauses.
    pub depends: Formula<'t>,
    /// What it can't be installed beside; by default no entries.
    pub conflicts: VpkgList<'t>,
    /// The features that it gives; by default no entries.
    pub provides: VpkgList<'t>,
    /// Whether it is installed; by default it isn't.
    pub installed: bool,
    /// What is to be kept of it; by default nothing.
    pub keep: Keep,
    /// Its own `recommends`, where that is declared as `vpkgformula`.
    pub recommends: Option<Formula<'t>>,
}

/// The value of a `keep` property, if the text is one.
pub fn read_keep(text: &str) -> Option<Keep>
    ensures { result ≡ keep_value text.now }
{
    match trim(text) {
        "version" => Some(Keep::Version),
        "package" => Some(Keep::Package),
        "feature" => Some(Keep::Feature),
        "none" => Some(Keep::Nothing),
        _ => None,
    }
}

/// Pairs of name and version, each once, in the order in which they came. Each name has a number: how many other names
/// came before it.
#[derive(Drop)]
pub struct PackageIds<'t> {
    names: IndexSet<&'t str>,
    pairs: Vec<NumberedPair>,
    /// For each name the index of its first pair. Most names have no other.
    firsts: Vec<usize>,
    /// The indices of all other pairs.
    others: IndexMap<(usize, u64), usize>,
}

/// The number of a name, and a version.
#[derive(Clone, Copy)]
struct NumberedPair {
    name: usize,
    version: u64,
}

impl<'t> Model for PackageIds<'t> {
    ghost use Rattle.std.specs.Prelude.{List, ℕ};
    ghost use Rattle.cudf_problem.specs.Working.Numbers.{texts, pair_ids, other_index, AreNumbered};

    ghost Value = { List (List ℕ × ℕ) };

    ghost view = { λ i. pair_ids (texts i.names.keys) i.pairs.items };

    ghost invariant = { λ i. AreNumbered (texts i.names.keys) i.pairs.items i.firsts.items (other_index i.others) };
}

impl<'t> PackageIds<'t> {
    /// No pairs. Takes no memory.
    pub fn new(alloc: Global) -> Self
        ensures { result ≡ [] }
    {
        PackageIds {
            names: IndexSet::new(alloc),
            pairs: Vec::new(alloc),
            firsts: Vec::new(alloc),
            others: IndexMap::new(alloc),
        }
    }

    /// Adds the pair, and says whether it is new.
    pub fn insert(&mut self, name: &'t str, version: u64) -> Result<bool, AllocError>
        ensures is_new { IfOk result (λ is_new.
            is_new ≡ not (is_among self.old (name.now, version))) }
        ensures ids { OnOk result (self.new ≡ insert_key is_id self.old (name.now, version)) }
    {
        // What follows the name in the other lists can be added then, so no name is without a pair.
        self.pairs.reserve(1)?;
        self.firsts.reserve(1)?;
        let (number, is_new) = self.names.insert_full(name)?;
        let pair = NumberedPair {
            name: number,
            version,
        };
        if is_new {
            self.firsts.push(self.pairs.len())?;
            self.pairs.push(pair)?;
            return Ok(true);
        }
        self.insert_other(pair)
    }

    /// Adds a pair of a name that came before, and says whether it is new.
    fn insert_other(&mut self, pair: NumberedPair) -> Result<bool, AllocError>
        requires { pair.name < length (names_of_ids self.old) }
        ensures is_new { IfOk result (λ is_new.
            is_new ≡ not (is_among self.old (pair_id (names_of_ids self.old) pair))) }
        ensures ids { OnOk result (self.new ≡ insert_key is_id self.old (pair_id (names_of_ids self.old) pair)) }
    {
        if self.find(pair).is_some() {
            return Ok(false);
        }
        self.pairs.reserve(1)?;
        self.others
            .insert((pair.name, pair.version), self.pairs.len())?;
        self.pairs.push(pair)?;
        Ok(true)
    }

    /// Adds the pair, if there is one. Returns `true` if it was there before, the opposite of `insert`.
    pub fn insert_repeated(&mut self, id: Option<(&'t str, u64)>) -> Result<bool, AllocError>
        ensures is_known { IfOk result (λ known.
            known ≡ is_known self.old (option_map (λ i. (i.0.now, i.1)) id.entry)) }
        ensures ids { OnOk result (self.new
            ≡ with_id self.old (option_map (λ i. (i.0.now, i.1)) id.entry)) }
    {
        match id {
            Some((name, version)) => Ok(!self.insert(name, version)?),
            None => Ok(false),
        }
    }

    /// Whether the pair is there.
    pub fn contains(&self, name: &str, version: u64) -> bool
        ensures { result ≡ is_among self.now (name.now, version) }
    {
        self.index_of(name, version).is_some()
    }

    /// How many pairs came before this one, if it is there.
    pub fn index_of(&self, name: &str, version: u64) -> Option<usize>
        ensures { result ≡ position (is_id (name.now, version)) self.now }
    {
        match self.names.get_index_of(&name) {
            Some(number) => self.find(NumberedPair {
                name: number,
                version,
            }),
            None => None,
        }
    }

    /// How many pairs came before this one, if it is there.
    fn find(&self, pair: NumberedPair) -> Option<usize>
        requires { pair.name < length (names_of_ids self.now) }
        ensures { result ≡ position (is_id (pair_id (names_of_ids self.now) pair)) self.now }
    {
        let first = self.firsts[pair.name];
        if self.pairs[first].version == pair.version {
            return Some(first);
        }
        self.others.get(&(pair.name, pair.version)).copied()
    }

    /// How many names there are.
    pub fn name_count(&self) -> usize
        ensures { result ≡ length (names_of_ids self.now) }
    {
        self.names.len()
    }

    /// The number of the name of the pair at this index: how many other names came before it.
    pub fn number_at(&self, index: usize) -> usize
        requires { index < length self.now }
        ensures { (d : Id) → Some result ≡ position (bytes_eq (slice_index_or self.now index d).0) (names_of_ids self.now) }
    {
        self.pairs[index].name
    }
}

/// The values of a solution's package stanza, each where it is of its type.
#[derive(Clone, Copy)]
pub struct ProposedPackage<'t> {
    /// Its name, a `pkgname`.
    pub name: Option<&'t str>,
    /// Its version, at least 1.
    pub version: Option<u64>,
    /// Whether it is to be installed; by default it isn't.
    pub installed: Option<bool>,
}

impl<'t> ProposedPackage<'t> {
    ghost use Rattle.std.specs.Prelude.{◌≡◌, false, None, if◌then◌else◌, option_map, option_copied, unwrap_or};
    ghost use Rattle.std.specs.Option.{option_zip};

    /// The name and the version, where it has both, installed or not.
    pub fn id(self) -> Option<(&'t str, u64)>
        ensures { option_map (λ id. (id.0.now, id.1)) result
            ≡ option_zip (option_copied self.entry.name) self.entry.version }
    {
        Some((self.name?, self.version?))
    }

    /// The name and the version, where it has both and installs them.
    pub fn installed_id(self) -> Option<(&'t str, u64)>
        ensures { option_map (λ id. (id.0.now, id.1)) result
            ≡ (if unwrap_or self.entry.installed false then option_zip (option_copied self.entry.name) self.entry.version else None) }
    {
        if self.installed.unwrap_or(false) {
            self.id()
        } else {
            None
        }
    }
}
