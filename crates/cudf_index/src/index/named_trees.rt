//! The provisions of each name, in the order of their places: trees of those that have many, what is asked of them, and the
//! packages that a status doesn't hold.
ghost use Rattle.std.specs.Prelude.{◌≡◌, Some, All, IfOk, IfSome, OnOk, slice_get, ℕ, List};
ghost use Rattle.std.specs.FinSet as set;
ghost use Rattle.cudf_value.specs.Promises.Views.{vpkg_view};
ghost use Rattle.cudf_index.specs.Working.FirstPlaces.{first_place_of, first_version_of, number_meets, is_sole, may_meet};
ghost use Rattle.cudf_index.specs.Working.Gathering.{row_of, has_row, given_of};
ghost use Rattle.cudf_index.specs.Working.ProvisionTest.{with_all, passes, some_passes, ends_in, with_new, with_passing};
ghost use Rattle.cudf_index.specs.Working.Members.{is_other};
ghost use Rattle.cudf_index.specs.declared.index.named_trees.ProvisionTest.TheVariants.{Number};
ghost use Rattle.cudf_index.specs.Promises.Members.{outside};
ghost use Rattle.cudf_index.specs.Satisfaction.{first_meeting, first_named};

use crate::index::gathered_names::{
    Entries, GatheredNames, Provision, Row, is_below_one, summarize,
};
use crate::index::member::Member;
use crate::steps::Steps;
use cudf_problem::{Problem, Status};
use cudf_value::{Relop, Vpkg, meets};
use std::alloc::{AllocError, Global};
use std::marker::Model;

/// The provisions of each name, and trees of those that have many.
#[derive(Drop)]
pub(crate) struct NamedTrees<'t> {
    pub(crate) gathered: GatheredNames<'t>,
    /// In the order of the numbers.
    trees: Vec<NumberedTree>,
    ghost same: { All (λ t. Some t.tree ≡ slice_get gathered.rows.items t.number) trees.items },
}

/// The tree of the name with this number.
#[derive(Drop)]
pub(crate) struct NumberedTree {
    pub(crate) number: usize,
    pub(crate) tree: ProvisionTree,
}

impl<'t> NamedTrees<'t> {
    /// What was gathered, and its trees.
    pub(crate) fn of(alloc: Global, gathered: GatheredNames<'t>) -> Result<Self, AllocError>
        ensures { IfOk result (λ named. named.gathered ≡ gathered.entry) }
    {
        let trees = trees_of(alloc, &gathered.rows)?;
        Ok(NamedTrees { gathered, trees })
    }

    /// Whether the name has provisions.
    pub(crate) fn has(&self, name: &str) -> bool
        ensures { result ≡ has_row name.now self.now.gathered }
    {
        self.gathered.names.contains(&name)
    }

    /// The tree of the name with this number, if it has one.
    pub(crate) fn tree(&self, number: usize) -> Option<&ProvisionTree>
        ensures { IfSome result (λ tree. Some tree.now ≡ slice_get self.now.gathered.rows.items number) }
    {
        // Most names have few provisions, and their row is read next.
        if self.gathered.row(number).len() <= FEW {
            return None;
        }
        let near = self.trees.partition_point(|tree| tree.number < number);
        let found = self.trees.get(near)?;
        if found.number != number {
            return None;
        }
        Some(&found.tree)
    }

    /// The place of the first provision of the vpkg's name that is at another place than `except` and meets the
    /// bound.
    pub(crate) fn first_meeting(&self, vpkg: &Vpkg<'_>, except: Option<u64>) -> Option<u64>
        ensures { result ≡ first_place_of except vpkg.now.bound (row_of vpkg.now.name.now self.now.gathered) }
    {
        let number = self.gathered.names.get_index_of(&vpkg.name)?;
        match self.tree(number) {
            Some(tree) => tree.first(vpkg.bound, except),
            None => first_of(self.gathered.row(number), vpkg.bound, except),
        }
    }

    /// The place of the first package that has the name, and doesn't give it as a feature.
    pub(crate) fn first_named(&self, name: &str) -> Option<u64>
        ensures { result ≡ first_version_of (row_of name.now self.now.gathered) }
    {
        let number = self.gathered.names.get_index_of(&name)?;
        match self.tree(number) {
            Some(tree) => tree.first_version(),
            None => first_version_of(self.gathered.row(number)),
        }
    }

    /// Puts the places of all provisions of the name that are wanted after the others, each once.
    pub(crate) fn all(
        &self,
        name: &str,
        wanted: ProvisionTest,
        places: &mut Vec<u64>,
    ) -> Result<(), AllocError>
        ensures { OnOk result (places.new.items ≡ with_all wanted places.old.items (row_of name.now self.now.gathered)) }
    {
        let Some(number) = self.gathered.names.get_index_of(&name) else {
            return Ok(());
        };
        match self.tree(number) {
            Some(tree) => tree.all(wanted, places),
            None => put_each(self.gathered.row(number), wanted, places),
        }
    }
}

/// The trees of the rows with many provisions.
fn trees_of(alloc: Global, rows: &[Row]) -> Result<Vec<NumberedTree>, AllocError>
    ensures { IfOk result (λ trees. All (λ t. Some t.tree ≡ slice_get rows.now t.number) trees.items) }
{
    let mut trees = Vec::new(alloc);
    for (number, row) in rows.iter().enumerate() {
        let row = row.as_slice();
        if row.len() > FEW {
            let tree = ProvisionTree::build(alloc, row)?;
            trees.push(NumberedTree { number, tree })?;
        }
    }
    Ok(trees)
}

/// So many provisions are read one by one: few names have more, and a look at this many costs no
/// more than a few searches.
pub(crate) const FEW: usize = 32;

/// Provisions of a name in the order of their places.
#[cycle(tree)]
#[derive(Drop)]
pub(crate) struct ProvisionTree {
    node: Node,
}

#[cycle(tree)]
#[derive(Drop)]
enum Node {
    Few(Vec<Provision>),
    /// What the first half holds, and the halves.
    Halves(Box<Entries>, Box<ProvisionTree>, Box<ProvisionTree>),
}

impl Model for ProvisionTree {
    ghost use Rattle.std.specs.Prelude.{List, length};
    ghost use Rattle.cudf_index.specs.declared.index.gathered_names.Provision.{Provision};

    ghost Value = { List Provision };

    ghost use Rattle.cudf_index.specs.Working.Trees.{provisions, Holds};

    ghost view = { λ t. provisions t.node };

    ghost invariant = { λ t. Holds t.node };

    ghost size = { length };

    ghost use Rattle.cudf_index.specs.Working.TreeFalls.{depth_le-length};

    ghost size_decreases = { λ t h. depth_le-length t.node h };
}

impl ProvisionTree {
    /// The tree of these provisions.
    pub(crate) fn build(alloc: Global, row: &[Provision]) -> Result<Self, AllocError>
        ensures { IfOk result (λ tree. tree ≡ row.now) }
    {
        if row.len() <= FEW {
            let mut few = Vec::new(alloc);
            few.extend_from_slice(row)?;
            return Ok(ProvisionTree {
                node: Node::Few(few),
            });
        }
        let (front, back) = row.split_at(row.len() / 2);
        let entries = Box::new(alloc, summarize(alloc, front)?)?;
        let front = Box::new(alloc, Self::build(alloc, front)?)?;
        let back = Box::new(alloc, Self::build(alloc, back)?)?;
        Ok(ProvisionTree {
            node: Node::Halves(entries, front, back),
        })
    }

    /// The place of the first of them that is at another place than `except` and meets the
    /// bound.
    ///
    /// Its cost is the square of the binary digits of their number: a first half is entered in vain
    /// only where it holds provisions of the package at `except` and of another one. Since those of a
    /// package are together, there are at most two such halves of each size.
    pub(crate) fn first(&self, bound: Option<(Relop, u64)>, except: Option<u64>) -> Option<u64>
        ensures { result ≡ first_place_of except bound self.now }
    {
        match &self.node {
            Node::Few(few) => first_of(few, bound, except),
            Node::Halves(entries, front, back) => {
                if !may_meet(entries, bound, except) {
                    return back.first(bound, except);
                }
                match front.first(bound, except) {
                    None => back.first(bound, except),
                    found => found,
                }
            }
        }
    }

    /// Puts the places of all of them that are wanted after the others, each once.
    ///
    /// Its cost is that of a search at each answer, times the binary digits of the number of provisions: a first half is
    /// entered only where one of its provisions is wanted, and not where all of them are of one package.
    pub(crate) fn all(&self, wanted: ProvisionTest, places: &mut Vec<u64>) -> Result<(), AllocError>
        ensures { OnOk result (places.new.items ≡ with_all wanted places.old.items self.now) }
    {
        match &self.node {
            Node::Few(few) => put_each(few, wanted, places),
            Node::Halves(entries, front, back) => {
                if !wanted.some_passes(entries) {
                    return back.all(wanted, places);
                }
                match entries.sole {
                    Some(place) => push_new(places, place)?,
                    None => front.all(wanted, places)?,
                }
                back.all(wanted, places)
            }
        }
    }

    /// The place of the first of them that is a package's own version. A first half is entered only where it holds one.
    pub(crate) fn first_version(&self) -> Option<u64>
        ensures { result ≡ first_version_of self.now }
    {
        match &self.node {
            Node::Few(few) => first_version_of(few),
            Node::Halves(entries, front, back) => {
                if !entries.is_package {
                    return back.first_version();
                }
                match front.first_version() {
                    None => back.first_version(),
                    found => found,
                }
            }
        }
    }
}

/// Whether one of the provisions meets the bound, and not all of them are at `except`.
fn may_meet(entries: &Entries, bound: Option<(Relop, u64)>, except: Option<u64>) -> bool
    ensures { result ≡ may_meet except bound entries.now }
{
    if is_sole(except, entries.sole) {
        return false;
    }
    entries.any(bound, &mut Steps::new())
}

/// Whether `except` is the only place.
fn is_sole(except: Option<u64>, sole: Option<u64>) -> bool
    ensures { result ≡ is_sole except sole }
{
    match except {
        None => false,
        Some(place) => match sole {
            None => false,
            Some(sole) => sole == place,
        },
    }
}

/// The place of the first provision of the row at another place than `except` that meets the bound; `None` if there is
/// none.
pub(crate) fn first_of(
    row: &[Provision],
    bound: Option<(Relop, u64)>,
    except: Option<u64>,
) -> Option<u64>
    ensures { result ≡ first_place_of except bound row.now }
{
    row.iter()
        .find(|provision| is_other(except, provision.place) && meets_bound(**provision, bound))
        .map(|provision| provision.place)
}

pub(crate) fn first_version_of(row: &[Provision]) -> Option<u64>
    ensures { result ≡ first_version_of row.now }
{
    row.iter()
        .find(|provision| provision.is_version)
        .map(|provision| provision.place)
}

/// Whether the place is another one than `except`.
fn is_other(except: Option<u64>, place: u64) -> bool
    ensures { result ≡ is_other except place }
{
    match except {
        Some(left_out) => place != left_out,
        None => true,
    }
}

/// Whether the provision's number meets the bound, or some version does where it has none.
pub(crate) fn meets_bound(provision: Provision, bound: Option<(Relop, u64)>) -> bool
    ensures { result ≡ number_meets bound provision.number }
{
    match provision.number {
        None => !is_below_one(bound),
        Some(number) => meets(bound, number),
    }
}

/// What is asked of a provision.
#[derive(Clone, Copy)]
pub(crate) enum ProvisionTest {
    /// Its number, or some version where it has none, meets the bound.
    Meeting(Option<(Relop, u64)>),
    /// It has a number that meets the bound.
    Number(Option<(Relop, u64)>),
    /// It is a package's own version.
    Version,
}

impl ProvisionTest {
    /// Whether this provision is wanted.
    pub(crate) fn passes(self, provision: Provision) -> bool
        ensures { result ≡ passes self provision }
    {
        match self {
            ProvisionTest::Meeting(bound) => meets_bound(provision, bound),
            ProvisionTest::Number(bound) => has_number(provision, bound),
            ProvisionTest::Version => provision.is_version,
        }
    }

    /// Whether one of the provisions that `entries` sums up passes.
    pub(crate) fn some_passes(self, entries: &Entries) -> bool
        ensures { result ≡ some_passes self entries.now }
    {
        match self {
            ProvisionTest::Meeting(bound) => entries.any(bound, &mut Steps::new()),
            ProvisionTest::Number(bound) => entries.numbers.any(bound, &mut Steps::new()),
            ProvisionTest::Version => entries.is_package,
        }
    }
}

/// Whether the provision has a number that meets the bound.
fn has_number(provision: Provision, bound: Option<(Relop, u64)>) -> bool
    ensures { result ≡ passes (Number bound) provision }
{
    match provision.number {
        None => false,
        Some(number) => meets(bound, number),
    }
}

/// Puts the place after the others, unless it is the last of them.
pub(crate) fn push_new(places: &mut Vec<u64>, place: u64) -> Result<(), AllocError>
    ensures { OnOk result (places.new.items ≡ with_new places.old.items place) }
{
    if ends_in(places, place) {
        return Ok(());
    }
    places.push(place)?;
    Ok(())
}

/// Whether the place is the last of these.
fn ends_in(places: &[u64], place: u64) -> bool
    ensures { result ≡ ends_in place places.now }
{
    match places.last() {
        None => false,
        Some(last) => *last == place,
    }
}

/// Puts the places of those that are wanted after the others, each once.
pub(crate) fn put_each(
    row: &[Provision],
    wanted: ProvisionTest,
    places: &mut Vec<u64>,
) -> Result<(), AllocError>
    ensures { OnOk result (places.new.items ≡ with_all wanted places.old.items row.now) }
{
    for provision in row {
        put_if_wanted(*provision, wanted, places)?;
    }
    Ok(())
}

/// Puts the place of a provision after the others, if it is wanted.
fn put_if_wanted(
    provision: Provision,
    wanted: ProvisionTest,
    places: &mut Vec<u64>,
) -> Result<(), AllocError>
    ensures { OnOk result (places.new.items ≡ with_passing wanted places.old.items provision) }
{
    if wanted.passes(provision) {
        return push_new(places, provision.place);
    }
    Ok(())
}

/// The packages of a universe that a status doesn't hold, to be asked which of them comes first that gives a name.
/// Places are from 1. It holds less than an [`Index`](crate::Index) of them would, which tells more.
///
/// Contracts see each package beside its place in the universe, in the order of the places.
#[derive(Drop)]
pub struct Providers<'p, 't> {
    problem: &'p Problem<'t>,
    /// The status whose packages aren't among them.
    without: Status,
    given: NamedTrees<'t>,
}

impl<'p, 't> Model for Providers<'p, 't> {
    ghost use Rattle.std.specs.Prelude.{◌≡◌, List, ℕ};
    ghost use Rattle.std.specs.FinSet as set;
    ghost use Rattle.cudf_index.specs.Promises.Members.{outside};
    ghost use Rattle.cudf_index.specs.Satisfaction.{Placed};
    ghost use Rattle.cudf_index.specs.Working.Gathering.{given_of, row_of};

    ghost Value = { List Placed };

    ghost view = { λ p. outside (set.contains p.without) p.problem.now.packages };

    ghost invariant = { λ p. (name : List ℕ) → row_of name p.given.gathered ≡ given_of name (outside (set.contains p.without) p.problem.now.packages) };
}

impl<'p, 't> Providers<'p, 't> {
    /// Those of the universe of this problem that this status doesn't hold.
    ///
    /// # Errors
    ///
    /// `AllocError` where memory for them is refused.
    pub fn build(
        alloc: Global,
        problem: &'p Problem<'t>,
        without: Status,
    ) -> Result<Self, AllocError>
        ensures { IfOk result (λ providers. providers ≡ outside (set.contains without) problem.now.packages) }
    {
        let gathered = gathered(alloc, problem, &without)?;
        let given = NamedTrees::of(alloc, gathered)?;
        Ok(Providers {
            problem,
            without,
            given,
        })
    }

    /// The least place of theirs, from 1, whose package alone satisfies the vpkg. `None` where there is no such place.
    pub fn first_meeting(&self, vpkg: &Vpkg<'_>) -> Option<u64>
        ensures { result ≡ first_meeting self.now (vpkg_view vpkg.now) }
    {
        self.given.first_meeting(vpkg, None)
    }

    /// The least place of theirs, from 1, whose package has this name; features don't count (own). `None` where there
    /// is no such place.
    pub fn first_named(&self, name: &str) -> Option<u64>
        ensures { result ≡ first_named self.now name.now }
    {
        self.given.first_named(name)
    }
}

/// What the packages that the status doesn't hold give, by name.
fn gathered<'t>(
    alloc: Global,
    problem: &Problem<'t>,
    without: &Status,
) -> Result<GatheredNames<'t>, AllocError>
    ensures { IfOk result (λ g. (f : List ℕ) → row_of f g ≡ given_of f (outside (set.contains without.now) problem.now.packages)) }
{
    let mut gathered = GatheredNames::new(alloc);
    for (before, package) in problem.packages().iter().enumerate() {
        let place = before as u64 + 1;
        if !without.holds(place) {
            gathered.add_package(alloc, Member { place, package })?;
        }
    }
    Ok(gathered)
}
