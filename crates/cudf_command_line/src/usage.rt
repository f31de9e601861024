//! Why the words of the command line start no run, and how messages show them.
ghost use Rattle.clap.specs.Values.{kind_of};
ghost use Rattle.std.specs.Prelude.{◌≡◌, IfOk, map, string_bytes};
ghost use Rattle.cudf_command_line.specs.Orders.{IsUnparsed, TellsApart};
ghost use Rattle.cudf_command_line.specs.Usage.{usage_status};

use crate::command::{arguments, has_separate_list};
use crate::grammar::{CHECK, CNF, LINT, RANK, REFUTE, SCORE, program};
use clap::error::ErrorKind;
use std::alloc::{AllocError, Global};
use std::fmt;
use std::io::{self, Write};

/// Why the words start no run.
#[derive(Drop)]
pub enum UsageError<'w> {
    /// Help or the version was asked for; this is its text.
    Told(String),
    /// The words aren't of the grammar; this says why.
    Mistake(Topic, String),
    /// What they ask for is refused.
    Refused(Topic, Refusal<'w>),
    /// Memory ran out.
    Memory,
}

impl UsageError<'_> {
    ghost use Rattle.std.specs.Prelude.{◌≡◌};
    ghost use Rattle.cudf_command_line.specs.Usage.{usage_status};

    /// The exit status: 0 for `Told`, 4 for `Mistake`, that of the refusal for `Refused`, 6 for `Memory`.
    pub fn status(&self) -> u8
        ensures { result ≡ usage_status self.now }
    {
        match self {
            UsageError::Told(_) => 0,
            UsageError::Mistake(_, _) => 4,
            UsageError::Refused(_, refusal) => refusal.status(),
            UsageError::Memory => 6,
        }
    }

    /// Says why on standard error. Help and the version are no fault, and aren't reported there.
    pub fn tell<E: Write>(&self, errors: &mut E) -> io::Result<()> {
        match self {
            UsageError::Told(_) => Ok(()),
            UsageError::Mistake(topic, text) => {
                write!(errors, "{text}")?;
                tell_usage(*topic, errors)
            }
            UsageError::Refused(_, Refusal::Memory) | UsageError::Memory => writeln!(
                errors,
                "cudf_check: there is not enough memory; free some, and run again"
            ),
            UsageError::Refused(topic, refusal) => {
                write!(errors, "error: {refusal}")?;
                tell_usage(*topic, errors)
            }
        }
    }
}

/// Says how the words of the command are written.
fn tell_usage<E: Write>(topic: Topic, errors: &mut E) -> io::Result<()> {
    let (usage, help) = (topic.usage(), topic.help());
    writeln!(
        errors,
        "\n\nUsage: {usage}\n\nFor more information, try '{help}'."
    )
}

/// Why the words start no run, where the parse says it.
pub(crate) fn parse_failure<'w>(
    alloc: Global,
    words: &[String],
    error: clap::Error,
) -> Result<UsageError<'w>, AllocError>
    ensures { IfOk result (IsUnparsed (map (λ word. string_bytes word) words.now) (kind_of error)) }
{
    match error.kind() {
        ErrorKind::DisplayHelp | ErrorKind::DisplayVersion => {
            Ok(UsageError::Told(written(alloc, &error)?))
        }
        ErrorKind::OutOfMemory => Ok(UsageError::Memory),
        _ => fault(alloc, words, arguments(words), &error),
    }
}

/// What is reported of a fault that the parse found in these words, of which all but the first are arguments. Where their
/// command takes a list that is separate, this is reported: the parse speaks of the list as of an unknown option, or as of a file too many.
fn fault<'w>(
    alloc: Global,
    words: &[String],
    arguments: &[String],
    error: &clap::Error,
) -> Result<UsageError<'w>, AllocError>
    ensures status { IfOk result (λ usage. usage_status usage ≡ 4) }
    ensures apart { IfOk result (TellsApart (map (λ word. string_bytes word) arguments.now)) }
{
    let topic = Topic::of(arguments);
    if has_separate_list(arguments) {
        return Ok(UsageError::Refused(topic, Refusal::Apart));
    }
    Ok(UsageError::Mistake(topic, fault_text(alloc, words, error)?))
}

/// The text of a fault, up to its usage. A first word that is no command may be a file that was to be checked.
fn fault_text(alloc: Global, words: &[String], error: &clap::Error) -> Result<String, AllocError> {
    let whole = whole_text(alloc, words, error)?;
    let text = text_before(
        text_before(&whole, "\n\nUsage: "),
        "\n\nFor more information",
    );
    match error.kind() {
        ErrorKind::InvalidSubcommand => {
            let usage = Topic::Check.usage();
            format!(in alloc; "{text}\n\n  tip: a command comes first, as in '{usage}'")
        }
        ErrorKind::UnknownArgument => unexpected_text(alloc, text),
        _ => String::from_str(alloc, text),
    }
}

/// What the parse says of the words as they are shown.
fn whole_text(alloc: Global, words: &[String], error: &clap::Error) -> Result<String, AllocError> {
    let shown = shown_words(alloc, words)?;
    let mut program = program(alloc)?;
    match program.try_get_matches_from_mut(&shown) {
        Ok(_) => written(alloc, error),
        Err(fault) => match fault.kind() {
            ErrorKind::OutOfMemory => Err(AllocError),
            _ => written(alloc, &fault),
        },
    }
}

/// The text of the parse, with the list of `--criteria` behind `=`, where alone it is accepted.
fn written(alloc: Global, error: &clap::Error) -> Result<String, AllocError> {
    let text = format!(in alloc; "{error}")?;
    text.replace(alloc, "--criteria <LIST>", "--criteria=<LIST>")
}

/// The text of a fault at an argument that no command expects there, with the commands whose option it is. The tip of the
/// parse to write `--` before an argument is left out.
fn unexpected_text(alloc: Global, text: &str) -> Result<String, AllocError> {
    let first = text_before(text, "\n\n  tip: ");
    let option = text_before(text_after(first, "unexpected argument '"), "' found");
    match owners(option) {
        Some(owners) => {
            format!(in alloc; "{first}\n\n  tip: '{option}' is an option of {owners}")
        }
        None => String::from_str(alloc, text_before(text, "\n\n  tip: to pass ")),
    }
}

/// The commands that have this option.
fn owners(option: &str) -> Option<&'static str> {
    match option {
        "--after" | "--limit" => Some("check"),
        "--criteria" => Some("score, rank, cnf and refute"),
        "--better-than" => Some("cnf and refute"),
        "--explain" => Some("lint, check and refute"),
        "--strict" => Some("each command"),
        "--with-filename" | "-H" => Some("lint, check, score and rank"),
        _ => None,
    }
}

/// The text behind a mark, where it has one.
fn text_after<'t>(text: &'t str, mark: &str) -> &'t str {
    match text.split_once(mark) {
        Some((_, rest)) => rest,
        None => text,
    }
}

/// The text up to the end that begins so, where it has one.
fn text_before<'t>(text: &'t str, end: &str) -> &'t str {
    match text.split_once(end) {
        Some((front, _)) => front,
        None => text,
    }
}

impl From<AllocError> for UsageError<'_> {
    ghost use Rattle.std.specs.Prelude.{◌≡◌};
    ghost use Rattle.cudf_command_line.specs.declared.usage.UsageError.TheVariants.{Memory};

    ghost from_gives = { λ _ usage. usage ≡ Memory };

    fn from(_error: AllocError) -> Self {
        UsageError::Memory
    }
}

/// Why the words of a command ask for no run.
#[derive(Clone, Copy)]
pub enum Refusal<'w> {
    /// A word is missing.
    Missing,
    /// Two files are standard input.
    Twice,
    /// The word of `--after` is no key.
    NoKey(&'w str),
    /// The word of `--limit` is no positive integer.
    NoNumber(&'w str),
    /// The word of `--criteria` is no list of aims.
    NoList(&'w str),
    /// `--criteria` and its list are two words.
    Apart,
    /// One of `--better-than` and `--criteria` is there without the other.
    Unpaired,
    /// `--explain` is there beside `--better-than`.
    Explained,
    /// Memory ran out.
    Memory,
}

impl Refusal<'_> {
    ghost use Rattle.std.specs.Prelude.{◌≡◌};
    ghost use Rattle.cudf_command_line.specs.Command.{refusal_status};

    /// The exit status: 6 for `Memory`, and else 4.
    pub fn status(self) -> u8
        ensures { result ≡ refusal_status self.entry }
    {
        match self {
            Refusal::Memory => 6,
            Refusal::Missing
            | Refusal::Twice
            | Refusal::NoKey(_)
            | Refusal::NoNumber(_)
            | Refusal::NoList(_)
            | Refusal::Apart
            | Refusal::Unpaired
            | Refusal::Explained => 4,
        }
    }
}

impl fmt::Display for Refusal<'_> {
    fn fmt<W: fmt::Write>(&self, f: &mut fmt::Formatter<W>) -> fmt::Result {
        match self {
            Refusal::Missing => write!(f, "a word is missing"),
            Refusal::Twice => write!(f, "- can stand for one file only"),
            Refusal::NoKey(word) => {
                let word = Shown(word);
                write!(
                    f,
                    "invalid value '{word}' for '--after <KEY>': a key is written as in a report, such as p1.depends.2"
                )
            }
            Refusal::NoNumber(word) => {
                let word = Shown(word);
                write!(
                    f,
                    "invalid value '{word}' for '--limit <N>': not a number from 1 to 18446744073709551615"
                )
            }
            Refusal::NoList(word) => {
                let word = Shown(word);
                write!(
                    f,
                    "invalid value '{word}' for '--criteria=<LIST>': a list is written without blanks, as -removed,+new, of removed, new, changed, notuptodate, unsat_recommends and touched, each after - or +"
                )
            }
            Refusal::Apart => write!(
                f,
                "equal sign is needed when assigning values to '--criteria=<LIST>': the list is written after it, as --criteria=-removed"
            ),
            Refusal::Unpaired => write!(
                f,
                "--better-than=<S> and --criteria=<LIST> go together: give both, or neither"
            ),
            Refusal::Explained => write!(
                f,
                "--explain isn't an option of refute with --better-than"
            ),
            Refusal::Memory => write!(f, "there is not enough memory"),
        }
    }
}

/// A command, or the program where the words name none.
#[derive(Clone, Copy)]
pub enum Topic {
    /// The program.
    Program,
    /// The command `lint`.
    Lint,
    /// The command `check`.
    Check,
    /// The command `score`.
    Score,
    /// The command `rank`.
    Rank,
    /// The command `cnf`.
    Cnf,
    /// The command `refute`.
    Refute,
}

impl Topic {
    /// The command that the first of these arguments names.
    pub(crate) fn of(arguments: &[String]) -> Topic {
        match arguments.first() {
            Some(word) => Topic::named(word),
            None => Topic::Program,
        }
    }

    fn named(word: &str) -> Topic {
        match word {
            LINT => Topic::Lint,
            CHECK => Topic::Check,
            SCORE => Topic::Score,
            RANK => Topic::Rank,
            CNF => Topic::Cnf,
            REFUTE => Topic::Refute,
            _ => Topic::Program,
        }
    }

    /// How its words are written.
    pub(crate) fn usage(self) -> &'static str {
        match self {
            Topic::Program => "cudf_check <COMMAND>",
            Topic::Lint => "cudf_check lint [OPTIONS] <P>",
            Topic::Check => "cudf_check check [OPTIONS] <P> [S]",
            Topic::Score => "cudf_check score [OPTIONS] <P> [S]",
            Topic::Rank => "cudf_check rank [OPTIONS] --criteria=<LIST> <P> <S>...",
            Topic::Cnf => "cudf_check cnf [OPTIONS] <P>",
            Topic::Refute => "cudf_check refute [OPTIONS] <P> <PROOF>",
        }
    }

    /// The words that print its help.
    pub(crate) fn help(self) -> &'static str {
        match self {
            Topic::Program => "cudf_check --help",
            Topic::Lint => "cudf_check lint --help",
            Topic::Check => "cudf_check check --help",
            Topic::Score => "cudf_check score --help",
            Topic::Rank => "cudf_check rank --help",
            Topic::Cnf => "cudf_check cnf --help",
            Topic::Refute => "cudf_check refute --help",
        }
    }
}

/// A word as messages show it: its control characters as `\u{H}`, by their numbers in hexadecimal.
#[derive(Clone, Copy)]
pub(crate) struct Shown<'w>(pub &'w str);

impl fmt::Display for Shown<'_> {
    fn fmt<W: fmt::Write>(&self, f: &mut fmt::Formatter<W>) -> fmt::Result {
        for c in self.0.chars() {
            if c.is_control() {
                let number = u32::from(c);
                write!(f, "\\u{{{number:X}}}")?;
            } else {
                write!(f, "{c}")?;
            }
        }
        Ok(())
    }
}

/// All words as messages show them.
pub(crate) fn shown_words(alloc: Global, words: &[String]) -> Result<Vec<String>, AllocError> {
    let mut shown = Vec::new(alloc);
    for word in words {
        let word = Shown(word);
        shown.push(format!(in alloc; "{word}")?)?;
    }
    Ok(shown)
}
