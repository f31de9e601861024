//! What the words of the command line ask for.
ghost use Rattle.clap.specs.Matches.{found_of};
ghost use Rattle.clap.specs.Words.{subcommand_rows_of};
ghost use Rattle.std.specs.Prelude.{◌≡◌, ◌||◌, [], IfOk, MatchResult, drop, is_some, map, option_map, string_bytes, true, false, unwrap_or};
ghost use Rattle.cudf_command_line.specs.Command.{IsNamedBy, AreNamedBy, IsAfter, IsLimit, IsList, IsPair, other_words, words_of, lint_words, check_words, score_words, rank_words, cnf_words, refute_words, AnswersBy, Lints, Checks, Scores, Ranks, PrintsCnf, ChecksProof, RefusesKey, RefusesLimit, RefusesList, RefusesPair, Asks, IsAskedBy, IsRefusedBy, has_list_apart, is_given, mode_of, takes_list, takes_list_apart, takes_standard_twice};
ghost use Rattle.cudf_command_line.specs.Orders.{IsAskedFor, IsUnasked};

use crate::grammar::{
    AFTER, BETTER_THAN, CHECK, CNF, CRITERIA, EXPLAIN, LIMIT, LINT, PROBLEM, PROOF, RANK, REFUTE,
    SCORE, SOLUTION, SOLUTIONS, STRICT, WITH_FILENAME, program,
};
use crate::usage::{Refusal, Shown, Topic, UsageError, parse_failure};
use clap::ArgMatches;
use cudf_job::{Aim, Job, Key, read_criterion};
use cudf_problem::Mode;
use cudf_value::read_posint;
use std::alloc::{AllocError, Global};
use std::fmt;

/// A file as the words name it.
#[derive(Clone, Copy, PartialEq, Eq)]
pub enum FileName<'w> {
    /// The file at a path.
    Path(&'w str),
    /// Standard input, named `-`.
    Standard,
}

impl FileName<'_> {
    ghost use Rattle.std.specs.Prelude.{◌≡◌};
    ghost use Rattle.cudf_command_line.specs.Command.{is_standard};

    fn is_standard(&self) -> bool
        ensures { result ≡ is_standard self.now }
    {
        *self == FileName::Standard
    }
}

impl<'w> FileName<'w> {
    ghost use Rattle.std.specs.Prelude.{◌≡◌};
    ghost use Rattle.cudf_command_line.specs.Command.{file_label};

    /// How lines of a report name it: the word of the command line, or `(standard input)`.
    pub fn label(self) -> &'w str
        ensures { result.now ≡ file_label self.entry }
    {
        match self {
            FileName::Path(path) => path,
            FileName::Standard => "(standard input)",
        }
    }
}

impl fmt::Display for FileName<'_> {
    fn fmt<W: fmt::Write>(&self, f: &mut fmt::Formatter<W>) -> fmt::Result {
        match self {
            FileName::Path("") => write!(f, "''"),
            FileName::Path(path) => {
                let path = Shown(path);
                write!(f, "{path}")
            }
            FileName::Standard => write!(f, "standard input"),
        }
    }
}

/// What the words ask for.
#[derive(Drop)]
pub struct Order<'w> {
    /// What to do with the files.
    pub job: Job,
    /// How strictly to read the files.
    pub mode: Mode,
    /// Whether lines of the report name the files.
    pub names_files: bool,
    /// The file of the problem, or of the problem and the solution after it.
    pub problem: FileName<'w>,
    /// The files that are read after it, in this order: a proof, and then solutions.
    pub others: Vec<FileName<'w>>,
}

/// The run that the words ask for. The first word is the program's name.
pub fn parse_command_line<'w>(
    alloc: Global,
    words: &'w [String],
) -> Result<Order<'w>, UsageError<'w>>
    ensures asks { MatchResult result (IsAskedFor (map (λ word. string_bytes word) words.entry.now)) (IsUnasked (map (λ word. string_bytes word) words.entry.now)) }
    ensures once { IfOk result (λ order. takes_standard_twice order ≡ false) }
{
    let mut program = program(alloc)?;
    match program.try_get_matches_from_mut(words) {
        Ok(matches) => match asked_order(alloc, words, &matches) {
            Ok(order) => Ok(order),
            Err(refusal) => Err(UsageError::Refused(Topic::of(arguments(words)), refusal)),
        },
        Err(error) => Err(parse_failure(alloc, words, error)?),
    }
}

/// What the words ask for, of which a parse met these matches.
fn asked_order<'w>(
    alloc: Global,
    words: &[String],
    matches: &ArgMatches<'w>,
) -> Result<Order<'w>, Refusal<'w>>
    ensures asks { MatchResult result
        (IsAskedBy (map (λ word. string_bytes word) words.now) (subcommand_rows_of matches.now))
        (IsRefusedBy (map (λ word. string_bytes word) words.now) (subcommand_rows_of matches.now)) }
    ensures once { IfOk result (λ order. takes_standard_twice order ≡ false) }
{
    if has_list_apart(arguments(words)) {
        return Err(Refusal::Apart);
    }
    match matches.subcommand() {
        Some((name, found)) => order_of(alloc, name, found),
        None => Err(Refusal::Missing),
    }
}

/// The words after the program's own name.
pub(crate) fn arguments(words: &[String]) -> &[String]
    ensures { map (λ word. string_bytes word) result.now ≡ drop 1 (map (λ word. string_bytes word) words.now) }
{
    match words.split_first() {
        Some((_, arguments)) => arguments,
        None => words,
    }
}

/// Whether a list is separate from the `--criteria` of a command that takes one.
pub(crate) fn has_separate_list(arguments: &[String]) -> bool
    ensures { result ≡ takes_list_apart (map (λ word. string_bytes word) arguments.now) }
{
    takes_list(arguments) && has_list_apart(arguments)
}

/// Whether the first argument is a command that takes a list.
fn takes_list(arguments: &[String]) -> bool
    ensures { result ≡ takes_list (map (λ word. string_bytes word) arguments.now) }
{
    match arguments.first() {
        Some(word) => {
            let word = word.as_str();
            word == SCORE || word == RANK || word == CNF || word == REFUTE
        }
        None => false,
    }
}

/// Whether `--criteria` is a word without its list. After `--` all words are files.
fn has_list_apart(words: &[String]) -> bool
    ensures { result ≡ has_list_apart (map (λ word. string_bytes word) words.now) }
{
    for word in words {
        let is_last = word.as_str() == "--";
        let is_apart = word.as_str() == "--criteria";
        if is_last || is_apart {
            return is_apart;
        }
    }
    false
}

/// What the words of the command `name` ask for.
fn order_of<'w>(alloc: Global, name: &str, found: &ArgMatches<'w>) -> Result<Order<'w>, Refusal<'w>>
    ensures asks { Asks name.now (words_of (found_of found.now)) result }
    ensures once { IfOk result (λ order. takes_standard_twice order ≡ false) }
{
    match name {
        LINT => lint_order(alloc, found),
        CHECK => check_order(alloc, found),
        SCORE => score_order(alloc, found),
        RANK => rank_order(alloc, found),
        CNF => cnf_order(alloc, found),
        REFUTE => refute_order(alloc, found),
        _ => Err(Refusal::Missing),
    }
}

fn lint_order<'w>(alloc: Global, found: &ArgMatches<'w>) -> Result<Order<'w>, Refusal<'w>>
    ensures { AnswersBy Lints (lint_words (words_of (found_of found.now))) result }
{
    let explain = is_given(found.get_str(EXPLAIN));
    Order::new(alloc, Job::Lint { explain }, found, None, None)
}

fn check_order<'w>(alloc: Global, found: &ArgMatches<'w>) -> Result<Order<'w>, Refusal<'w>>
    ensures { AnswersBy Checks (check_words (words_of (found_of found.now))) result }
{
    let job = Job::Check {
        after: read_after(found.get_str(AFTER))?,
        limit: read_limit(found.get_str(LIMIT))?,
        explain: is_given(found.get_str(EXPLAIN)),
    };
    Order::new(alloc, job, found, found.get_strs(SOLUTION), None)
}

fn score_order<'w>(alloc: Global, found: &ArgMatches<'w>) -> Result<Order<'w>, Refusal<'w>>
    ensures { AnswersBy Scores (score_words (words_of (found_of found.now))) result }
{
    let aims = read_list(alloc, found.get_str(CRITERIA))?;
    let job = Job::Score { aims };
    Order::new(alloc, job, found, found.get_strs(SOLUTION), None)
}

fn rank_order<'w>(alloc: Global, found: &ArgMatches<'w>) -> Result<Order<'w>, Refusal<'w>>
    ensures { AnswersBy Ranks (rank_words (words_of (found_of found.now))) result }
{
    let aims = read_list(alloc, found.get_str(CRITERIA))?.ok_or(Refusal::Missing)?;
    let solutions = found.get_strs(SOLUTIONS).ok_or(Refusal::Missing)?;
    let job = Job::Rank { aims };
    Order::new(alloc, job, found, Some(solutions), None)
}

fn cnf_order<'w>(alloc: Global, found: &ArgMatches<'w>) -> Result<Order<'w>, Refusal<'w>>
    ensures { AnswersBy PrintsCnf (cnf_words (words_of (found_of found.now))) result }
{
    let better_than = found.get_str(BETTER_THAN);
    let job = match read_pair(alloc, found.get_str(CRITERIA), better_than)? {
        Some(aims) => Job::CnfBetter { aims },
        None => Job::Cnf,
    };
    Order::new(alloc, job, found, None, better_than)
}

fn refute_order<'w>(alloc: Global, found: &ArgMatches<'w>) -> Result<Order<'w>, Refusal<'w>>
    ensures { AnswersBy ChecksProof (refute_words (words_of (found_of found.now))) result }
{
    let better_than = found.get_str(BETTER_THAN);
    let explain = is_given(found.get_str(EXPLAIN));
    let aims = read_pair(alloc, found.get_str(CRITERIA), better_than)?;
    if explain && better_than.is_some() {
        return Err(Refusal::Explained);
    }
    let job = match aims {
        Some(aims) => Job::RefuteBetter { aims },
        None => Job::Refute { explain },
    };
    let proof = found.get_strs(PROOF).ok_or(Refusal::Missing)?;
    Order::new(alloc, job, found, Some(proof), better_than)
}

/// How strictly to read, by the value of `--strict`.
fn mode(flag: Option<&str>) -> Mode
    ensures { result ≡ mode_of (option_map (λ w. w.now) flag.entry) }
{
    if is_given(flag) {
        Mode::Strict
    } else {
        Mode::Lenient
    }
}

/// Whether a flag is among the words, by its value.
fn is_given(flag: Option<&str>) -> bool
    ensures { result ≡ is_given (option_map (λ w. w.now) flag.entry) }
{
    match flag {
        Some("true") => true,
        _ => false,
    }
}

/// The key of the word of `--after`.
fn read_after(word: Option<&str>) -> Result<Option<Key>, Refusal<'_>>
    ensures { MatchResult result (IsAfter (option_map (λ w. w.now) word.entry)) (RefusesKey (option_map (λ w. w.now) word.entry)) }
{
    match word {
        Some(word) => match Key::parse(word) {
            Some(key) => Ok(Some(key)),
            None => Err(Refusal::NoKey(word)),
        },
        None => Ok(None),
    }
}

/// The number of the word of `--limit`.
fn read_limit(word: Option<&str>) -> Result<Option<u64>, Refusal<'_>>
    ensures { MatchResult result (IsLimit (option_map (λ w. w.now) word.entry)) (RefusesLimit (option_map (λ w. w.now) word.entry)) }
{
    match word {
        Some(word) => match read_posint(word) {
            Some(limit) => Ok(Some(limit)),
            None => Err(Refusal::NoNumber(word)),
        },
        None => Ok(None),
    }
}

/// The aims of the word of `--criteria`.
fn read_list<'w>(alloc: Global, word: Option<&'w str>) -> Result<Option<Vec<Aim>>, Refusal<'w>>
    ensures { MatchResult result (λ r. IsList (option_map (λ w. w.now) word.entry) (option_map (λ aims. aims.items) r)) (RefusesList (option_map (λ w. w.now) word.entry)) }
{
    match word {
        Some(word) => match read_criterion(alloc, word)? {
            Some(aims) => Ok(Some(aims)),
            None => Err(Refusal::NoList(word)),
        },
        None => Ok(None),
    }
}

/// The aims of the word of `--criteria`, which goes with the word of `--better-than`.
fn read_pair<'w>(
    alloc: Global,
    list: Option<&'w str>,
    better_than: Option<&'w str>,
) -> Result<Option<Vec<Aim>>, Refusal<'w>>
    ensures { MatchResult result
        (λ aims. IsPair (option_map (λ w. w.now) list.entry) (option_map (λ w. w.now) better_than.entry) (option_map (λ v. v.items) aims))
        (RefusesPair (option_map (λ w. w.now) list.entry) (option_map (λ w. w.now) better_than.entry)) }
{
    let aims = read_list(alloc, list)?;
    if list.is_some() == better_than.is_some() {
        Ok(aims)
    } else {
        Err(Refusal::Unpaired)
    }
}

impl From<AllocError> for Refusal<'_> {
    ghost use Rattle.std.specs.Prelude.{◌≡◌};
    ghost use Rattle.cudf_command_line.specs.declared.usage.Refusal.TheVariants.{Memory};

    ghost from_gives = { λ _ refusal. refusal ≡ Memory };

    fn from(_error: AllocError) -> Self {
        Refusal::Memory
    }
}

impl<'w> Order<'w> {
    ghost use Rattle.std.specs.Prelude.{◌≡◌, count_by, map, option_map};
    ghost use Rattle.clap.specs.Matches.{found_of};
    ghost use Rattle.cudf_command_line.specs.Command.{is_standard, takes_standard, takes_standard_twice, files_alone, words_of, AnswersBy};

    /// The order for a job. Its files are the problem, which has to be there, these others, and the one that is to be bettered,
    /// where there is one. `-` can stand for one of them only.
    fn new(
        alloc: Global,
        job: Job,
        found: &ArgMatches<'w>,
        others: Option<&[&'w str]>,
        better_than: Option<&'w str>,
    ) -> Result<Order<'w>, Refusal<'w>>
        ensures { AnswersBy (λ _ asked. asked ≡ job)
            (files_alone (words_of (found_of found.now)) (option_map (λ ws. map (λ w. w.now) ws.now) others.entry) (option_map (λ w. w.now) better_than.entry)) result }
    {
        let problem = found.get_str(PROBLEM).ok_or(Refusal::Missing)?;
        let order = Order {
            job,
            mode: mode(found.get_str(STRICT)),
            names_files: is_given(found.get_str(WITH_FILENAME)),
            problem: file_name(problem),
            others: other_files(alloc, others, better_than)?,
        };
        if order.takes_standard_twice() {
            Err(Refusal::Twice)
        } else {
            Ok(order)
        }
    }

    /// Whether one of the files is standard input.
    pub fn takes_standard(&self) -> bool
        ensures { result ≡ takes_standard self.now }
    {
        self.problem.is_standard() || self.standard_others() > 0
    }

    /// Whether two of the files are standard input.
    fn takes_standard_twice(&self) -> bool
        ensures { result ≡ takes_standard_twice self.now }
    {
        self.standard_others() > usize::from(!self.problem.is_standard())
    }

    /// How many of the files behind the problem's are standard input.
    fn standard_others(&self) -> usize
        ensures { result ≡ count_by is_standard self.now.others.items }
    {
        let others = self.others.iter();
        others.filter(|name| name.is_standard()).count()
    }
}

/// The files that these words name, and after them the one that is named last, where there is one.
fn other_files<'w>(
    alloc: Global,
    words: Option<&[&'w str]>,
    last: Option<&'w str>,
) -> Result<Vec<FileName<'w>>, AllocError>
    ensures { MatchResult result
        (λ files. AreNamedBy (other_words (option_map (λ ws. map (λ w. w.now) ws.now) words.entry) (option_map (λ w. w.now) last.entry)) files.items)
        (λ _. is_some words.entry || is_some last.entry ≡ true) }
{
    let mut files = file_names(alloc, words)?;
    let Some(word) = last else {
        return Ok(files);
    };
    files.push(file_name(word))?;
    Ok(files)
}

/// The files that these words name.
fn file_names<'w>(alloc: Global, words: Option<&[&'w str]>) -> Result<Vec<FileName<'w>>, AllocError>
    ensures { MatchResult result
        (λ files. AreNamedBy (unwrap_or (option_map (λ ws. map (λ w. w.now) ws.now) words.entry) []) files.items)
        (λ _. is_some words.entry ≡ true) }
{
    let mut names = Vec::new(alloc);
    let Some(words) = words else {
        return Ok(names);
    };
    for word in words {
        names.push(file_name(word))?;
    }
    Ok(names)
}

fn file_name(word: &str) -> FileName<'_>
    ensures { IsNamedBy word.entry.now result }
{
    if word == "-" {
        FileName::Standard
    } else {
        FileName::Path(word)
    }
}
