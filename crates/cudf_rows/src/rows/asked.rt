//! What the words of a row ask for.
use cudf_check::{Aim, Job, Key, Mode};
use cudf_referee::read_criterion;
use cudf_value::read_posint;
use std::alloc::{AllocError, Global};

/// A command with its options, as the command line of `cudf_check` has them.
#[derive(Drop)]
pub(crate) struct Asked {
    pub(crate) job: Job,
    pub(crate) mode: Mode,
    /// Whether lines name the files: `P`, and `S1` and so on.
    pub(crate) names_files: bool,
    /// A row's own: a second run has a long comment after the problem's last line.
    pub(crate) is_also_long: bool,
    /// A row's own: pages are joined too.
    pub(crate) is_also_paged: bool,
}

/// What the options say.
#[derive(Drop)]
struct Options {
    mode: Mode,
    explain: bool,
    names_files: bool,
    after: Option<Key>,
    limit: Option<u64>,
    aims: Option<Vec<Aim>>,
    is_also_long: bool,
    is_also_paged: bool,
}

/// What the words ask for, with a blank between each two. `None` where one isn't understood.
pub(crate) fn read(alloc: Global, words: &str) -> Result<Option<Asked>, AllocError> {
    let (command, rest) = words.split_once(" ").unwrap_or((words, ""));
    let mut options = Options {
        mode: Mode::Lenient,
        explain: false,
        names_files: false,
        after: None,
        limit: None,
        aims: None,
        is_also_long: false,
        is_also_paged: false,
    };
    for option in rest.split_whitespace() {
        if !options.takes(alloc, option)? {
            return Ok(None);
        }
    }
    Ok(options.asked(command))
}

impl Options {
    /// Whether the option is understood.
    fn takes(&mut self, alloc: Global, option: &str) -> Result<bool, AllocError> {
        let (name, value) = option.split_once("=").unwrap_or((option, ""));
        match name {
            "--strict" => self.mode = Mode::Strict,
            "--explain" => self.explain = true,
            "--with-filename" => self.names_files = true,
            "--also-long" => self.is_also_long = true,
            "--also-paged" => self.is_also_paged = true,
            "--after" => {
                self.after = Key::parse(value);
                return Ok(self.after.is_some());
            }
            "--limit" => {
                self.limit = read_posint(value);
                return Ok(self.limit.is_some());
            }
            "--criteria" => {
                self.aims = read_criterion(alloc, value)?;
                return Ok(self.aims.is_some());
            }
            _ => return Ok(false),
        }
        Ok(true)
    }

    /// What the command asks for with these. `None` where it is none, or lacks its list.
    fn asked(self, command: &str) -> Option<Asked> {
        let Options {
            mode,
            explain,
            names_files,
            after,
            limit,
            aims,
            is_also_long,
            is_also_paged,
        } = self;
        let job = match command {
            "lint" => Job::Lint { explain },
            "check" => Job::Check {
                after,
                limit,
                explain,
            },
            "score" => Job::Score { aims },
            "rank" => Job::Rank { aims: aims? },
            _ => return None,
        };
        Some(Asked {
            job,
            mode,
            names_files,
            is_also_long,
            is_also_paged,
        })
    }
}
