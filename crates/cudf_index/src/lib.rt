//! What the packages of a status give and satisfy, by an index of sorted numbers; the counter of steps.
#![tactic(auto)]

ghost use Rattle.cudf_index.specs.Promises.Members.{MemberAlone};

pub(crate) mod index;
mod steps;

pub use index::counts::Counts;
pub use index::named_trees::Providers;
pub use index::{Index, MeteredIndex};
pub use steps::Steps;

/// What follows from the definitions of satisfaction alone. A law is the contract of a function
/// without effect.
pub mod laws {
    /// A status satisfies a vpkg exactly where one of its packages alone does.
    pub fn member()
        ensures { MemberAlone }
    {}
}
