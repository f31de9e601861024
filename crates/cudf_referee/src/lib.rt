//! The rules of CUDF over a problem and a proposed status: which instances are violated, in key order, whether the
//! status is a solution, and what it changes, counted.
#![tactic(auto)]

ghost use Rattle.std.specs.Prelude.{◌≡◌, ◌↔◌, true, Some};
ghost use Rattle.std.specs.Ordering.{is_lt, partial_lt};
ghost use Rattle.cudf_job.specs.KeyViews.{key_view};
ghost use Rattle.cudf_job.specs.Keys.{key_cmp};
ghost use Rattle.cudf_referee.specs.Laws.{SolutionIsEmpty, ListingAscends};
ghost use Rattle.cudf_referee.specs.Promises.Laws.{TextsTellKeys, PagesJoin, PagesSuffice, PagesAreBound, NeededIsMissed, NothingDoes, WasInstalled, WouldDo};

mod counting;
mod instance;
mod left;
mod referee;
mod rules;

pub use cudf_job::{Aim, Aspect, Count, Criteria, Key, Part, Rule, Sign, compare, read_criterion};
pub use instance::{Instance, InstanceFinder, ProblemInstances, Requirement};
pub use referee::{Explainer, Instances, Referee, Remedies, greatest_before};

/// What follows from the definitions alone.
pub mod laws {
    use cudf_job::Key;

    /// A proposed status is a solution exactly where no instance is violated.
    pub fn empty()
        ensures { SolutionIsEmpty }
    {}

    /// Keys are compared by part (packages by place, the request, the solution), rule, place and aspect, by `cmp` as by
    /// `partial_cmp` and `<`, and are equal exactly where all of these are.
    pub fn order(left: Key, right: Key)
        ensures compared { ⟦<Key as Ord>⟧.cmp left right ≡ key_cmp (key_view left) (key_view right) }
        ensures partial { ⟦<Key as PartialOrd>⟧.partial_cmp left right ≡ Some (key_cmp (key_view left) (key_view right)) }
        ensures less { partial_lt ⟦<Key as PartialOrd>⟧.partial_cmp left right ≡ is_lt (key_cmp (key_view left) (key_view right)) }
        ensures equal { (⟦<Key as PartialEq>⟧.eq left right ≡ true) ↔ (key_view left ≡ key_view right) }
    {}

    /// The keys of the violated instances ascend strictly, where the numbers of the unknown stanzas do: each
    /// instance occurs once, in key order.
    pub fn ascending()
        ensures { ListingAscends }
    {}

    /// Keys are equal where their texts are. So what `Key::parse` reads of a printed key is that key, and no text has two.
    pub fn key()
        ensures { TextsTellKeys }
    {}

    /// A listing may be shown by pages of any sizes, each continued after the last key of the one before (an empty page
    /// keeps the key), as it is read of the text that was printed. The pages joined are the listing's beginning, and the
    /// whole of it where the sizes suffice; and the calls for a page cost no more than the stops that it goes by.
    pub fn pages()
        ensures joined { PagesJoin }
        ensures whole { PagesSuffice }
        ensures price { PagesAreBound }
    {}

    /// What would do does: a status that installs that package alone satisfies the clause or the entry. And what is said to
    /// have been installed was, and does as well.
    pub fn does()
        ensures would_do { WouldDo }
        ensures was_installed { WasInstalled }
    {}

    /// Where no package of a problem alone would do, no status of it satisfies the clause or the entry, unless the empty one
    /// does.
    pub fn nothing()
        ensures { NothingDoes }
    {}

    /// What a package is said to be needed for is missed without it: of a status with other packages, it alone satisfies a
    /// clause, and no other package does, exactly where the status satisfies the clause, and without it doesn't.
    pub fn needed()
        ensures { NeededIsMissed }
    {}
}
