//! The referee of a proposed status: its verdict and its counts, and the walk over the violated instances.
ghost use Rattle.std.specs.Prelude.{◌≡◌, List, map, IfOk, ℕ, None, bytes_eq, OnOk, if◌then◌else◌, ◌<◌, ◌^◌, All, IsTrue, length};
ghost use Rattle.cudf_value.specs.Promises.Views.{list_view};
ghost use Rattle.cudf_problem.specs.Promises.Views.{package_view, unknown_view};
ghost use Rattle.cudf_problem.specs.Documents.{is_empty};
ghost use Rattle.cudf_problem.specs.Statuses.{is_initial, ascend_above};
ghost use Rattle.cudf_index.specs.Promises.Members.{other_than};
ghost use Rattle.cudf_index.specs.Satisfaction.{Placed, members, gives, package_pairs};
ghost use Rattle.cudf_referee.specs.Violations.{others};
ghost use Rattle.cudf_referee.specs.Working.Named.{has_kept_name};
ghost use Rattle.cudf_referee.specs.Promises.Walks.{left};
ghost use Rattle.cudf_referee.specs.Promises.Before.{AreGreatest};
ghost use Rattle.cudf_referee.specs.Working.Before.{kept_greatest, with_number, with_pairs, with_entries};
ghost use Rattle.cudf_referee.specs.Working.Walkers.{put_forward};
ghost use Rattle.cudf_referee.specs.Working.Numbered.{IsNumbered};

mod explainer;
mod instances;
mod needers;

use crate::counting::{count_changes, count_unsatisfied};
use crate::instance::{Instance, Requirement};
use crate::referee::instances::number_at;
use cudf_index::{Index, Steps};
use cudf_job::{Criteria, Key, Part};
use cudf_problem::{InstalledPair, Keep, Package, Problem, Solution, Status, initial};
use cudf_value::VpkgList;
pub use explainer::{Explainer, Remedies};
use indexmap::IndexMap;
pub use instances::Instances;
use needers::{Needers, needers_of, partners_of, search_needer};
use std::alloc::{AllocError, Global};
use std::marker::Model;

/// The referee of a proposed status for a problem. Contracts see what it judges.
#[derive(Drop)]
pub struct Referee<'p, 't> {
    problem: &'p Problem<'t>,
    solution: &'p Solution<'t>,
    now: Index<'p, 't>,
    /// For each entry of `upgrade`, the greatest number that the initial status gives of its name.
    before: Vec<Option<u64>>,
    /// For each package, whether its name is to be kept, and the proposed status has one of it.
    named: Vec<bool>,
    verdict: bool,
    criteria: Criteria,
}

impl<'p, 't> Model for Referee<'p, 't> {
    ghost use Rattle.std.specs.Prelude.{◌≡◌, map};
    ghost use Rattle.std.specs.FinSet as set;
    ghost use Rattle.cudf_problem.specs.Promises.Views.{unknown_view};
    ghost use Rattle.cudf_referee.specs.Criteria.{criteria as counts};
    ghost use Rattle.cudf_referee.specs.Proposals.{Proposal};
    ghost use Rattle.cudf_referee.specs.Solutions.{is_solution};
    ghost use Rattle.cudf_referee.specs.Working.Numbered.{IsNumbered};
    ghost use Rattle.cudf_referee.specs.Working.Walkers.{put_forward, Agrees};

    ghost Value = { Proposal };

    ghost view = { λ r. put_forward r.problem.now r.now (map unknown_view r.solution.now.unknown.items) };

    ghost invariant = { λ r.
        Agrees r.problem.now (set.contains r.solution.now.status) r.before.items r.now r.named.items (map unknown_view r.solution.now.unknown.items)
        × (r.verdict ≡ is_solution (put_forward r.problem.now r.now (map unknown_view r.solution.now.unknown.items)))
        × (r.criteria ≡ counts (put_forward r.problem.now r.now (map unknown_view r.solution.now.unknown.items)))
        × IsNumbered (put_forward r.problem.now r.now (map unknown_view r.solution.now.unknown.items)) };
}

/// For each package of the universe, whether its name is to be kept, and the status has a package of it.
fn kept_name_flags(
    alloc: Global,
    problem: &Problem<'_>,
    status: &Index<'_, '_>,
) -> Result<Vec<bool>, AllocError>
    ensures { IfOk result (λ named. named.items ≡ map (has_kept_name status.now) problem.now.packages) }
{
    let packages = problem.packages();
    let mut named = Vec::with_capacity(alloc, packages.len())?;
    for package in packages {
        named.push(has_kept_name(package, status))?;
    }
    Ok(named)
}

/// Whether the package's name is to be kept, and the status has a package of it. Other names aren't
/// looked up.
fn has_kept_name(package: &Package<'_>, status: &Index<'_, '_>) -> bool
    ensures { result ≡ has_kept_name status.now (package_view «package».now) }
{
    package.keep == Keep::Package && status.has_package(package.name)
}

/// The place of the package that the part is.
fn own_place(part: Part) -> Option<u64>
    ensures { (status : List Placed) → other_than result status ≡ others part status }
{
    match part {
        Part::Package(place) => Some(place),
        Part::Request | Part::Solution => None,
    }
}

/// Whether no instance is left.
#[tactic(auto, using(crate::proofs::MoveLemmas::moved_none))]
fn has_none(mut instances: Instances<'_, '_, '_>) -> bool
    ensures { result ≡ is_empty (left instances.entry) }
{
    instances.next().is_none()
}

impl<'p, 't> Referee<'p, 't> {
    ghost use Rattle.std.specs.Prelude.{◌≡◌, ◌≤◌, ℕ, true, All, IsTrue, IfOk, length, map};
    ghost use Rattle.cudf_problem.specs.Promises.Views.{package_view};
    ghost use Rattle.std.specs.FinSet as set;
    ghost use Rattle.cudf_problem.specs.Statuses.{is_initial, ascend_above};
    ghost use Rattle.cudf_problem.specs.Promises.Views.{unknown_view};
    ghost use Rattle.cudf_index.specs.Promises.Prices.{digits};
    ghost use Rattle.cudf_index.specs.Satisfaction.{members, numbers_of};
    ghost use Rattle.cudf_referee.specs.Criteria.{criteria};
    ghost use Rattle.cudf_referee.specs.Explanations.{least_of, greatest_of, needed_by};
    ghost use Rattle.cudf_referee.specs.Working.Needers.{kept_needer};
    ghost use Rattle.cudf_problem.specs.Documents.{is_empty};
    ghost use Rattle.cudf_job.specs.KeyViews.{key_view};
    ghost use Rattle.cudf_referee.specs.Promises.Pages.{least_search};
    ghost use Rattle.cudf_job.specs.Promises.Keys.{IsWritable};
    ghost use Rattle.cudf_referee.specs.Proposals.{proposal};
    ghost use Rattle.cudf_referee.specs.Promises.Stops.{at_start, at_key};
    ghost use Rattle.cudf_referee.specs.Solutions.{is_solution};
    ghost use Rattle.cudf_referee.specs.Promises.Views.{instance_view};
    ghost use Rattle.cudf_referee.specs.Violations.{listing, rest, met_by};
    ghost use Rattle.cudf_referee.specs.Promises.Walks.{left};

    /// The referee of what a solution proposes for a problem. The solution is one of that problem, and the
    /// numbers of its unknown stanzas ascend from 1 on.
    ///
    /// # Errors
    ///
    /// `AllocError` where memory for the indexes, the flags or the counts is refused.
    pub fn new(
        alloc: Global,
        problem: &'p Problem<'t>,
        solution: &'p Solution<'t>,
    ) -> Result<Self, AllocError>
        requires { IsTrue (ascend_above 0 (map unknown_view solution.now.unknown.items)) }
        ensures { IfOk result (λ r. r ≡ proposal problem.now (is_initial problem.now) (set.contains solution.now.status)
            (map unknown_view solution.now.unknown.items)) }
    {
        keys_can_be_written(problem, solution);
        let was_installed = initial(alloc, problem)?;
        let before = greatest_before(alloc, problem)?;
        // The lists that this needs are dropped before the index is built.
        let changes = count_changes(alloc, problem, &was_installed, &solution.status)?;
        let now = Index::build(alloc, problem, &solution.status)?;
        let named = kept_name_flags(alloc, problem, &now)?;
        let criteria = Criteria {
            unsat_recommends: count_unsatisfied(problem, &solution.status, &now),
            ..changes
        };
        let verdict = has_none(Instances::new(problem, solution, &now, &before, &named));
        Ok(Referee {
            problem,
            solution,
            now,
            before,
            named,
            verdict,
            criteria,
        })
    }

    /// The universe: the problem's packages, in document order.
    pub fn packages(&self) -> &'p [Package<'t>]
        ensures { map package_view result.now ≡ self.entry.now.problem.packages }
    {
        self.problem.packages()
    }

    /// The remedies of its problem.
    fn remedies(&self, alloc: Global) -> Result<Remedies<'p, 't>, AllocError>
        ensures problem { IfOk result (λ remedies. remedies ≡ self.entry.now.problem) }
        ensures initial { self.entry.now.initial ≡ members (is_initial self.entry.now.problem) self.entry.now.problem.packages }
    {
        Remedies::new(alloc, self.problem)
    }

    /// The packages of the proposed status that lines name as meeting an entry.
    fn partners(&self, alloc: Global) -> Result<Status, AllocError> {
        partners_of(alloc, self.problem, &self.solution.status, &self.now)
    }

    /// Which packages of the proposed status need those that are asked about.
    fn needers(&self, alloc: Global, asked: &Status) -> Result<Needers, AllocError>
        ensures { IfOk result (λ needers. (place : ℕ) → set.contains asked.now place ≡ true → kept_needer place needers ≡ needed_by self.entry.now.proposed place) }
    {
        needers_of(alloc, self.problem, &self.solution.status, &self.now, asked)
    }

    /// The place of the first package of the proposed status that needs the one at this place, searched anew.
    fn needer(&self, place: u64) -> Option<u64>
        ensures { result ≡ needed_by self.entry.now.proposed place }
    {
        search_needer(self.problem, &self.solution.status, &self.now, place)
    }

    /// The least number that the proposed status gives of the name.
    fn least(&self, name: &str) -> Option<u64>
        ensures { result ≡ least_of (numbers_of name.now self.entry.now.proposed) }
    {
        self.now.least(name)
    }

    /// The greatest number that the proposed status gives of the name.
    fn greatest(&self, name: &str) -> Option<u64>
        ensures { result ≡ greatest_of (numbers_of name.now self.entry.now.proposed) }
    {
        self.now.greatest(name)
    }

    /// The walk over the violated instances, in key order. Their keys can be written.
    #[tactic(auto, using(std::proofs::lemmas::Grind::common_steps))]
    pub fn instances(&self) -> Instances<'_, 'p, 't>
        ensures walk { result ≡ record { judged = self.entry.now; position = at_start; steps = 0 } }
        ensures left { left result ≡ listing self.entry.now }
        ensures written { All (λ i. IsWritable i.key) (listing self.entry.now) }
    {
        // all that the referee holds, none of it a list of instances: a further field would have to be named here
        let Referee {
            problem,
            solution,
            now,
            before,
            named,
            verdict: _,
            criteria: _,
        } = self;
        Instances::new(problem, solution, now, before, named)
    }

    /// The walk over the violated instances whose keys come after this one, in key order. The key needn't be that
    /// of an instance. It costs at most the binary digits of the number of unknown stanzas.
    #[tactic(auto, using(std::proofs::lemmas::Grind::common_steps))]
    pub fn after(&self, key: Key) -> Instances<'_, 'p, 't>
        ensures judged { result.judged ≡ self.entry.now }
        ensures position { result.position ≡ at_key (key_view key) }
        ensures price { result.steps ≤ digits (length self.entry.now.unknown) }
        ensures grows { least_search (key_view key).part (length self.entry.now.unknown) ≤ result.steps }
        ensures left { left result ≡ rest (key_view key) self.entry.now }
    {
        self.instances().behind(key)
    }

    /// For an instance of conflicts or remove, the place (from 1) of the first package of the proposed status, other
    /// than the instance's own, that alone satisfies the entry. `None` for the other rules, and where no package alone
    /// satisfies it.
    pub fn met_by(&self, instance: &Instance<'_>) -> Option<u64>
        ensures { result ≡ met_by self.entry.now.proposed (instance_view instance.now) }
    {
        match instance.what {
            Requirement::ConflictsWith(vpkg) => {
                let own = own_place(instance.key.part());
                self.now.first_meeting(&vpkg, own)
            }
            Requirement::Remove(vpkg) => self.now.first_meeting(&vpkg, None),
            _ => None,
        }
    }

    /// Whether the proposed status is a solution, which it is exactly where no instance is violated.
    pub fn is_solution(&self) -> bool
        ensures solution { result ≡ is_solution self.entry.now }
        ensures empty { result ≡ is_empty (listing self.entry.now) }
    {
        self.verdict
    }

    /// What the proposed status changes and lacks, counted, whether or not it is a solution.
    pub fn criteria(&self) -> Criteria
        ensures { result ≡ criteria self.entry.now }
    {
        self.criteria
    }
}

/// Names with the greatest number of each, as a version or by a versioned feature; features without
/// a number don't count (own).
#[derive(Drop)]
struct NumberedNames<'t> {
    greatest: IndexMap<&'t str, u64>,
}

impl<'t> NumberedNames<'t> {
    fn new(alloc: Global) -> Self
        ensures { (f : List ℕ) → kept_greatest f result ≡ None }
    {
        NumberedNames {
            greatest: IndexMap::new(alloc),
        }
    }

    /// Adds a number of the name.
    fn add(&mut self, name: &'t str, number: u64) -> Result<(), AllocError>
        ensures { OnOk result ((f : List ℕ) → kept_greatest f self.new
            ≡ (if bytes_eq name.now f then with_number (kept_greatest f self.old) number else kept_greatest f self.old)) }
    {
        let greatest = self.greatest.entry(name)?.or_insert(number);
        *greatest = (*greatest).max(number);
        Ok(())
    }

    /// Adds all numbers that the package gives.
    fn add_package(&mut self, package: &Package<'t>) -> Result<(), AllocError>
        ensures { OnOk result ((f : List ℕ) → kept_greatest f self.new ≡ with_pairs f (package_pairs (package_view «package».now)) (kept_greatest f self.old)) }
    {
        self.add(package.name, package.version)?;
        self.add_entries(package.provides)?;
        Ok(())
    }

    fn add_entries(&mut self, entries: VpkgList<'t>) -> Result<(), AllocError>
        ensures { OnOk result ((f : List ℕ) → kept_greatest f self.new ≡ with_entries f (list_view entries.entry) (kept_greatest f self.old)) }
    {
        for entry in entries.vpkgs() {
            if let Some((_, number)) = entry.bound {
                self.add(entry.name, number)?;
            }
        }
        Ok(())
    }

    /// The greatest number of the name.
    fn find(&self, name: &str) -> Option<u64>
        ensures { result ≡ kept_greatest name.now self.now }
    {
        self.greatest.get(name).copied()
    }
}

/// The numbers of all names that the initial status gives.
fn initial_numbers<'t>(
    alloc: Global,
    problem: &Problem<'t>,
) -> Result<NumberedNames<'t>, AllocError>
    ensures { IfOk result (λ kept. (f : List ℕ) → kept_greatest f kept ≡ with_pairs f (gives (members (is_initial problem.now) problem.now.packages)) None) }
{
    let mut kept = NumberedNames::new(alloc);
    for package in problem.packages() {
        if package.installed {
            kept.add_package(package)?;
        }
    }
    Ok(kept)
}

/// For each entry of `upgrade`, the greatest number of its name that the initial status gives, as a version or by a
/// versioned feature. `None` where it gives none. Where there is no entry, no package is looked at. Own.
///
/// # Errors
///
/// `AllocError` where memory for the numbers is refused.
pub fn greatest_before(alloc: Global, problem: &Problem<'_>) -> Result<Vec<Option<u64>>, AllocError>
    ensures { IfOk result (λ before. AreGreatest (members (is_initial problem.now) problem.now.packages) problem.now.request.upgrade before.items) }
{
    let upgrade = problem.request().upgrade;
    let count = upgrade.len();
    let mut before = Vec::with_capacity(alloc, count)?;
    if count == 0 {
        return Ok(before);
    }
    let names = initial_numbers(alloc, problem)?;
    for entry in upgrade.vpkgs() {
        before.push(names.find(entry.name))?;
    }
    Ok(before)
}

/// The numbers of stanzas that ascend are those of a `u64`, since the last one is.
fn do_stanza_numbers_fit(unknown: &[InstalledPair<'_>])
    requires { IsTrue (ascend_above 0 (map unknown_view unknown.now)) }
    ensures { All (λ u. u.stanza < 2 ^ 64) (map unknown_view unknown.now) }
{
    let count = unknown.len();
    if count == 0 {
        return;
    }
    // for the prover: what the call promises of the last holds of all
    let _last = number_at(unknown, count - 1, &mut Steps::new());
}

/// The places in the lists of a problem and a solution are numbers of a `u64`, since each list lies in memory.
pub(super) fn keys_can_be_written(problem: &Problem<'_>, solution: &Solution<'_>)
    requires { IsTrue (ascend_above 0 (map unknown_view solution.now.unknown.items)) }
    ensures { (proposed : List Placed) → length problem.now.packages < 2 ^ 64
        → IsNumbered (put_forward problem.now proposed (map unknown_view solution.now.unknown.items)) }
{
    // for the prover: slices, so their lengths fit
    let _packages = problem.packages();
    let _request = problem.request();
    do_stanza_numbers_fit(solution.unknown.as_slice());
}
