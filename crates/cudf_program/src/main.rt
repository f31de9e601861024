//! The program `cudf_check`: from its words to what it prints and its exit status.
#![tactic(auto)]

ghost use Rattle.std.specs.Prelude.{◌≡◌, ◌≢◌, ◌≤◌, ◌⊎◌, Ok, Err, IfOk, IfErr, MatchResult, count_by, is_some, length, map, option_map, string_bytes, true};
ghost use Rattle.std.specs.List.{AllZip};
ghost use Rattle.std.specs.Option.{option_to_list};
ghost use Rattle.std.specs.IoError.{error_kind};
ghost use Rattle.std.specs.Vec.Iter.{into_iter_items};
ghost use Rattle.std.specs.declared.io.ErrorKind.TheVariants.{OutOfMemory};
ghost use Rattle.cudf_device.specs.Promises.NamedInside.{name_of};
ghost use Rattle.cudf_device.specs.Readers.{change};
ghost use Rattle.cudf_command_line.specs.Command.{is_standard};
ghost use Rattle.cudf_program.specs.Failure.{IsStatusOf, Prints, failure_status};
ghost use Rattle.cudf_program.specs.Inputs.{IsClosed, IsFirstUnopened, IsGivenFor, IsOfFiles, IsOpenedAs, IsThere, IsUnopened, KeepsGiven, label, left_behind, left_of};
ghost use Rattle.cudf_program.specs.Program.{Finishes, Follows, IsTried, Responds, labels, names_in};
ghost use Rattle.cudf_program.specs.declared.failure.Failure.TheVariants as reason;

mod failure;
mod system;

use cudf_check::{Device, Named, RunError, Sink, run};
use cudf_command_line::{FileName, Order, UsageError, command};
use failure::{Failure, LastInput, tell_outcome};
use std::alloc::{AllocError, Global};
use std::env;
use std::io::{self, Read, Write};
use std::process::ExitCode;
use system::{Input, Output, System, open, write_all};

// No clause can be stated on `main`: what it hands to `respond`, and what it does with the answer, is read. Of a write that
// failed it says why, which only the output knows.
fn main(rt: HostRuntime) -> ExitCode {
    let (mut out, mut errors) = (Device::new(Output::new(rt.stdout())), rt.stderr());
    let status = respond(&rt, &mut rt.stdin(), &mut out, &mut errors);
    let _told = out.into_inner().tell(&mut errors);
    ExitCode::from(status)
}

/// Does what the words of the command line ask for, over standard input and output, and answers the exit status.
fn respond<R: System + AllocGlobal, I: Read, W: Sink, E: Write>(
    rt: &R,
    standard: &mut I,
    out: &mut W,
    errors: &mut E,
) -> u8
    ensures { Responds (R.says rt.now) (R.opens rt.now) (change I.remaining standard.old standard.new) (change W.state out.old out.new) result }
{
    match words(rt) {
        Ok(words) => obey(rt, &words, standard, out, errors),
        Err(error) => report_failure(Failure::from_words(error), out, errors),
    }
}

/// The program's own name, and then the words of the command line.
fn words<R: System + AllocGlobal>(rt: &R) -> io::Result<Vec<String>>
    ensures { MatchResult result
        (λ words. R.says rt.now (Ok (map (λ word. string_bytes word) words.items)))
        (λ error. R.says rt.now (Err error) ⊎ (error_kind error ≡ OutOfMemory)) }
{
    let args = rt.args()?;
    Ok(collect_args(rt.alloc(), args)?)
}

/// All of these words, in their order.
fn collect_args(alloc: Global, args: env::Args) -> Result<Vec<String>, AllocError>
    ensures { IfOk result (λ words. words.items ≡ into_iter_items args) }
{
    let mut words = Vec::new(alloc);
    // A chain would try again by itself where its first growth is refused.
    for word in args {
        words.push(word)?;
    }
    Ok(words)
}

/// Does what these words ask for. Standard input is handed on only where one of the files is named `-`.
fn obey<R: System + AllocGlobal, I: Read, W: Sink, E: Write>(
    rt: &R,
    words: &[String],
    standard: &mut I,
    out: &mut W,
    errors: &mut E,
) -> u8
    ensures { Follows (map (λ word. string_bytes word) words.now) (R.opens rt.now) (change I.remaining standard.old standard.new) (change W.state out.old out.new) result }
{
    match command::parse_command_line(rt.alloc(), words) {
        Ok(order) => {
            if order.takes_standard() {
                carry_out(rt, order, Some(standard), out, errors)
            } else {
                carry_out::<R, &mut I, W, E>(rt, order, None, out, errors)
            }
        }
        Err(usage) => report_failure(Failure::Usage(usage), out, errors),
    }
}

/// Opens the files of an order, and runs its job on them.
fn carry_out<R: System + AllocGlobal, S: Read + Drop, W: Sink, E: Write>(
    rt: &R,
    order: Order<'_>,
    standard: Option<S>,
    out: &mut W,
    errors: &mut E,
) -> u8
    requires { IsGivenFor order standard }
    ensures { IsTried (R.opens rt.now) (option_map S.remaining standard) order.entry (change W.state out.old out.new) result }
{
    match open_files(rt, order, standard) {
        Ok(task) => run_task(rt.alloc(), task, out, errors),
        Err(failure) => report_failure(failure, out, errors),
    }
}

/// A reader of an input, with the name that lines of the report begin with, where they name files.
pub(crate) type OpenedInput<'w, F, S> = Named<'w, Device<Input<F, S>>>;

/// An order on open files.
#[derive(Drop)]
struct Task<'w, F, S> {
    order: Order<'w>,
    problem: OpenedInput<'w, F, S>,
    others: Vec<OpenedInput<'w, F, S>>,
}

/// Opens the files of an order, that of the problem first, and then the others in order. Nothing is opened
/// before standard input, where it is one of the files, is tried; nothing is read before all files are open.
#[tactic(auto, using(crate::proofs::FileLemmas::held_before))]
fn open_files<'w, R: System + AllocGlobal, S: Read + Drop>(
    rt: &R,
    order: Order<'w>,
    standard: Option<S>,
) -> Result<Task<'w, R::File, S>, Failure<'w>>
    requires { IsGivenFor order standard }
    ensures order { IfOk result (λ task. task.order ≡ order.entry) }
    ensures problem { IfOk result (λ task. IsOpenedAs (R.opens rt.now) (option_map S.remaining standard) (left_of R.File.remaining S.remaining)
        order.entry.problem task.problem) }
    ensures others { IfOk result (λ task. AllZip (IsOpenedAs (R.opens rt.now) (option_map S.remaining standard) (left_of R.File.remaining S.remaining))
        order.entry.others.items task.others.items) }
    ensures named { IfOk result (λ task. names_in task ≡ labels order.entry) }
    ensures failed { IfErr result (IsOfFiles (R.opens rt.now) order.entry) }
{
    let mut standard = standard;
    expect_open(&mut standard)?;
    let names_files = order.names_files;
    let problem = open_named(rt, names_files, order.problem, &mut standard)?;
    let others = open_each(rt, names_files, &order.others, &mut standard)?;
    Ok(Task {
        order,
        problem,
        others,
    })
}

/// Fails where standard input is given and closed: a file that is opened then would be read in its place.
fn expect_open<'w, S: Read>(standard: &mut Option<S>) -> Result<(), Failure<'w>>
    ensures failed { IfErr result (λ failure. (is_some standard.old ≡ true) × IsClosed failure) }
    ensures untouched { KeepsGiven (option_map S.remaining standard.old) (option_map S.remaining standard.new) }
{
    let Some(given) = standard else {
        return Ok(());
    };
    match given.read(&mut []) {
        Ok(_) => Ok(()),
        Err(error) => Err(Failure::from_open(FileName::Standard, error)),
    }
}

/// Opens the files of these names, in order. There is a standard input for each that is named `-`.
fn open_each<'w, R: System + AllocGlobal, S: Read + Drop>(
    rt: &R,
    names_files: bool,
    names: &[FileName<'w>],
    standard: &mut Option<S>,
) -> Result<Vec<OpenedInput<'w, R::File, S>>, Failure<'w>>
    requires { count_by is_standard names.now ≤ length (option_to_list standard.old) }
    ensures opened { MatchResult result
        (λ readers. AllZip (IsOpenedAs (R.opens rt.now) (option_map S.remaining standard.old) (left_of R.File.remaining S.remaining)) names.now readers.items)
        (λ failure. IsFirstUnopened (R.opens rt.now) names.now failure ⊎ (failure ≡ reason.Memory)) }
    ensures named { IfOk result (λ readers. map name_of readers.items ≡ map (label names_files) names.now) }
{
    let mut readers = Vec::new(rt.alloc());
    for &name in names {
        let reader = open_named(rt, names_files, name, standard)?;
        if readers.push(reader).is_err() {
            return Err(Failure::Memory);
        }
    }
    Ok(readers)
}

/// Opens a file that the words name.
fn open_named<'w, R: System, S: Read>(
    rt: &R,
    names_files: bool,
    name: FileName<'w>,
    standard: &mut Option<S>,
) -> Result<OpenedInput<'w, R::File, S>, Failure<'w>>
    requires { IsThere name standard.old }
    ensures opened { MatchResult result
        (IsOpenedAs (R.opens rt.now) (option_map S.remaining standard.old) (left_of R.File.remaining S.remaining) name.entry)
        (IsUnopened (R.opens rt.now) name.entry) }
    ensures named { IfOk result (λ reader. name_of reader ≡ label names_files name.entry) }
    ensures left { standard.new ≡ left_behind name.entry standard.old }
{
    match open(rt, name, standard) {
        Ok(input) => Ok(Named::new(Device::new(input), label(names_files, name))),
        Err(error) => Err(Failure::from_open(name, error)),
    }
}

/// How lines of the report name a file, where they name files.
fn label(names_files: bool, name: FileName<'_>) -> Option<&str>
    ensures { option_map (λ n. n.now) result ≡ label names_files name.entry }
{
    if names_files {
        Some(name.label())
    } else {
        None
    }
}

/// Runs the job, and answers its exit status. Where it was broken off, it says why.
fn run_task<F: Read + Drop, S: Read + Drop, W: Sink, E: Write>(
    alloc: Global,
    task: Task<'_, F, S>,
    out: &mut W,
    errors: &mut E,
) -> u8
    ensures { Finishes (left_of F.remaining S.remaining) task.entry (change W.state out.old out.new) result }
{
    let Task {
        order,
        mut problem,
        mut others,
    } = task;
    match run(
        alloc,
        &order.job,
        order.mode,
        &mut problem,
        &mut others,
        out,
    ) {
        Ok(outcome) => {
            let _told = tell_outcome(outcome, order.problem, errors);
            outcome.status()
        }
        Err(error) => {
            let stop = LastInput::of((order.problem, problem), &order.others, others);
            let _told = stop.tell(error, errors);
            error.status()
        }
    }
}

/// Prints help or the version, or says what went wrong, and answers the exit status. Help that can't be printed is a
/// write fault.
fn report_failure<W: Sink, E: Write>(failure: Failure<'_>, out: &mut W, errors: &mut E) -> u8
    ensures status { IsStatusOf failure.entry (W.state out.old) (W.state out.new) result }
    ensures printed { Prints failure.entry (W.state out.old) (W.state out.new) result }
    ensures quiet { failure_status failure.entry ≢ 0 → out.new ≡ out.old }
{
    if let Failure::Usage(UsageError::Told(text)) = &failure {
        return match write_all(out, text.as_bytes()) {
            Ok(()) => 0,
            Err(_) => RunError::Write.status(),
        };
    }
    let _told = failure.tell(errors);
    failure.status()
}
