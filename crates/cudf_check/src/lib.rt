//! Checks proposed solutions of a CUDF 2.0 problem: one call, from readers of the documents to the written report of a job.
#![tactic(auto)]

ghost use Rattle.cudf_check.specs.Promises.Laws.{AddsToInstances, AddsToFaults, AddsToProofs, AddsToReasons};
ghost use Rattle.cudf_check.specs.RankReport.{EntrantsHaveOwnPlaces};
ghost use Rattle.cudf_check.specs.JobReport.{IsToldPlainly};
ghost use Rattle.std.specs.Prelude.{◌≡◌, ℕ, List, IfOk, option_map};
ghost use Rattle.std.specs.List.{All};
ghost use Rattle.std.specs.Io.KnownBytes.{Appends};
ghost use Rattle.cudf_device.specs.declared.outcome.Outcome.TheVariants.{Yes};
ghost use Rattle.cudf_device.specs.Readers.{LeavesBehind, change, IsStopped, StopsInTime, changes};
ghost use Rattle.cudf_device.specs.Writers.{StopsWriting};
ghost use Rattle.cudf_check.specs.JobReport.{report};
ghost use Rattle.cudf_check.specs.Meanings.{Means};
ghost use Rattle.cudf_check.specs.Naming.{names_of};
ghost use Rattle.cudf_check.specs.Runs.{HasRead, Runs};

mod judging;
mod lines;
mod naming;
mod readings;
mod report;

use cudf_better::laws::better;
use cudf_cnf::laws::solution as encoded;
pub use cudf_device::{Device, Named, Outcome, RunError, Sink, Source, Trouble};
use cudf_device::{read_all, read_each};
pub use cudf_document::Mode;
pub use cudf_job::Job;
use cudf_lrat::laws::refuted;
pub use cudf_referee::{Aim, Count, Criteria, Key, Sign, compare, read_criterion};
use naming::{NamedInput, OtherInputs};
use report::{Setting, answer_job};
use std::alloc::Global;

/// Reads `first` to its end, and then each of the `others` in order; reads the documents in this mode, answers the job and
/// writes its report to `out`.
///
/// `first` is the problem, and `others` are what the job needs beside it: see [`Job`]. Where `Check` and `Score` have none,
/// both documents are in `first`: the problem goes through the first blank line after the line that begins with
/// `request:`, and the rest is the solution. What a job doesn't need is read all the same.
///
/// `Rank` has a line for each solution, the best first: its rank from 1, its place among the solutions from 1,
/// and what was found of it, as `2 solution 5 yes -changed 1 -touched 1`, `4 solution 3 no` or `5 solution 1 FAIL`.
/// Solutions come first, the better one by [`compare`](cudf_referee::compare) before the other; then those that are
/// none; then those that say FAIL. Where these tie, the order is that of their places: without aims these alone
/// decide between two solutions. The outcome is `Yes` where one is a solution, or else `No` where one doesn't say
/// FAIL, or else `Fail`. Without solutions the ranking is empty, and the outcome `Fail`. Where a document is faulty, a
/// single line says so, and the outcome is `Faulty`: the problem's first fault, or else the first fault of the first
/// solution that has one, as `solution 2 line 1: E12 no version`, by its place from 1.
///
/// # Errors
///
/// - `Read`: a read failed, or turn 536870912 of a reader neither ended its input nor made it too
///   long. A turn is one call of `read`; an interrupted one is tried again. No reader has more turns,
///   nor is one called again after it failed, reached its end or gave too much.
/// - `TooLong`: a reader gave more than 268435456 bytes (256 MiB).
/// - `Write`: a call of `write` answered a trouble or took no byte, and was the last one. What was
///   taken before is a prefix of the report.
/// - `Memory`: a growth was refused.
///
/// After `Read`, `TooLong` and `Memory` nothing was written. The readers after one whose reading ended in an error
/// aren't called.
pub fn run<R: Source, S: Source, W: Sink>(
    alloc: Global,
    job: &Job,
    mode: Mode,
    first: &mut R,
    others: &mut [S],
    out: &mut W,
) -> Result<Outcome, RunError>
    ensures runs { let one = change R.state first.old first.new in let more = changes S.state others.old others.new in
        Runs (report job.now mode (names_of one more)) one more (W.state out.old) (W.state out.new) result }

    // With `Yes`, `Cnf` has written clauses that exactly the solutions satisfy, and `CnfBetter` clauses that each better solution
    // does; `Refute` the lines of instances of which each proposed status violates one, so none is a solution; and after
    // `RefuteBetter` no solution is better.
    ensures meaning { IfOk result (λ outcome. outcome ≡ Yes → HasRead (change R.state first.old first.new) (changes S.state others.old others.new)
        (λ bytes texts. (text : List ℕ) × Appends (W.state out.old).contents (W.state out.new).contents text × Means job.now bytes texts text)) }

    // No reader is called more often than an input may take, nor after a call that failed, reached the end or gave too much.
    ensures calls { StopsInTime (change R.state first.old first.new) }
    ensures other_calls { All StopsInTime (changes S.state others.old others.new) }

    // The writer isn't called after a call that failed.
    ensures stops { StopsWriting (change W.state out.old out.new) }

    // Where the reading of the first ended in an error, the others are as they were lent; where that of another did, those
    // after it.
    ensures unread { IsStopped (change R.state first.old first.new) → others.new ≡ others.old }
    ensures behind { LeavesBehind (λ old new. IsStopped (change S.state old new)) others.old others.new }
{
    encoded();
    refuted();
    better();
    let text = read_all(alloc, first)?;
    let texts = read_each(alloc, others)?;
    let setting = Setting { alloc, mode };
    let others = OtherInputs {
        texts: &texts,
        sources: others,
    };
    answer_job(setting, job, given(&text, first), others, out)
}

/// What a source gave, with its name.
fn given<'t, 'n, S: Source>(bytes: &'t [u8], source: &'n S) -> NamedInput<'t, 'n>
    ensures bytes { result.bytes.now ≡ bytes.entry.now }
    ensures name { option_map (λ n. n.now) result.name ≡ (S.state source.entry.now).name }
{
    NamedInput {
        bytes,
        name: source.name(),
    }
}

/// What follows from the definitions alone.
pub mod laws {
    pub use cudf_job::laws::ranking;

    /// Among the solutions of a problem no place occurs twice, as the law [`ranking`] wants it.
    pub fn own_places()
        ensures { EntrantsHaveOwnPlaces }
    {}

    /// Without explanation, and without names of readers, a job has the report in the plain style.
    pub fn plain()
        ensures { IsToldPlainly }
    {}

    /// An explained line is the line without explanation with something added after its text: the line of a violated
    /// instance, of a fault, of an instance of a refutation, and of a proof's fault.
    pub fn explained()
        ensures instances { AddsToInstances }
        ensures faults { AddsToFaults }
        ensures reasons { AddsToReasons }
        ensures proofs { AddsToProofs }
    {}
}
