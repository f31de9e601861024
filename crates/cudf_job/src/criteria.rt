//! What a proposed status changes and lacks, in numbers; and aims: which counts are to be small or great, the weightiest
//! first. Proposed statuses are compared by them.
ghost use Rattle.std.specs.Prelude.{◌≡◌, ◌++◌, ℕ, List, IfSome, IfNone, IfOk, option_map, bytes_eq, find};
ghost use Rattle.cudf_job.specs.Aims.{count_row, sign_text};
ghost use Rattle.cudf_job.specs.Vectors.{paranoid, trendy};
ghost use Rattle.cudf_job.specs.Comparing.{sign_cmp, aim_cmp, differ_in, compare};
ghost use Rattle.cudf_job.specs.Promises.Aims.{all_counts, aim_of, criterion};

use std::alloc::{AllocError, Global};
use std::cmp::Ordering;

/// The counts of the MISC competition's criteria. They are counted whether or not the proposed status is a solution;
/// unknown stanzas don't count. A count ends at 18446744073709551615 (own).
#[derive(Clone, Copy, PartialEq, Eq)]
pub struct Criteria {
    /// Names with a package that was installed, and none that is to be.
    pub removed: u64,
    /// Names with a package that is to be installed, and none that was.
    pub new: u64,
    /// Names whose set of installed versions differs (own: counted by name).
    pub changed: u64,
    /// Names with a package that is to be installed, but not their greatest version in the universe.
    pub notuptodate: u64,
    /// Clauses that packages which are to be installed recommend and that aren't satisfied. Equal clauses at two
    /// places count twice (own).
    pub unsat_recommends: u64,
    /// Packages, each a pair of name and version, that were installed and aren't to be, or are to be and weren't (own:
    /// the name `touched`).
    pub touched: u64,
}

/// A count of `Criteria`, named as its field.
#[derive(Clone, Copy, PartialEq, Eq, Hash)]
pub enum Count {
    Removed,
    New,
    Changed,
    NotUpToDate,
    UnsatRecommends,
    Touched,
}

impl Criteria {
    /// The count of this name. Own.
    pub fn count(&self, count: Count) -> u64
        ensures { result ≡ (count_row count).1 self.now }
    {
        match count {
            Count::Removed => self.removed,
            Count::New => self.new,
            Count::Changed => self.changed,
            Count::NotUpToDate => self.notuptodate,
            Count::UnsatRecommends => self.unsat_recommends,
            Count::Touched => self.touched,
        }
    }

    /// The vector that the track paranoid minimises, the first number first: `removed`, `changed`.
    pub fn paranoid(self) -> [u64; 2]
        ensures { result ≡ paranoid self }
    {
        [self.removed, self.changed]
    }

    /// The vector that the track trendy minimises, the first number first: `removed`, `notuptodate`,
    /// `unsat_recommends`, `new`.
    pub fn trendy(self) -> [u64; 4]
        ensures { result ≡ trendy self }
    {
        [
            self.removed,
            self.notuptodate,
            self.unsat_recommends,
            self.new,
        ]
    }
}

impl Count {
    /// The name of the count in a list of aims, as `notuptodate`.
    pub fn text(self) -> &'static str
        ensures { result.now ≡ (count_row self).0 }
    {
        match self {
            Count::Removed => "removed",
            Count::New => "new",
            Count::Changed => "changed",
            Count::NotUpToDate => "notuptodate",
            Count::UnsatRecommends => "unsat_recommends",
            Count::Touched => "touched",
        }
    }
}

/// Whether a count is to be small or great. Own.
#[derive(Clone, Copy, PartialEq, Eq, Hash)]
pub enum Sign {
    /// `-`: the lesser count is the better one.
    Least,
    /// `+`: the greater count is the better one.
    Most,
}

/// A count that is to be small or great, as `-removed`. Own.
///
/// As lists of aims the MISC competition's track paranoid is `-removed,-changed`, and its track trendy is
/// `-removed,-notuptodate,-unsat_recommends,-new`.
#[derive(Clone, Copy, PartialEq, Eq, Hash)]
pub struct Aim {
    /// Whether it is to be small or great.
    pub sign: Sign,
    /// Which count it is.
    pub count: Count,
}

impl Sign {
    /// The sign as it comes before the count's name: `-` or `+`.
    pub fn text(self) -> &'static str
        ensures { result.now ≡ sign_text self }
    {
        match self {
            Sign::Least => "-",
            Sign::Most => "+",
        }
    }

    /// Compares two counts, the better one being the lesser.
    fn compare(self, left: u64, right: u64) -> Ordering
        ensures { result ≡ sign_cmp self left right }
    {
        match self {
            Sign::Least => left.cmp(&right),
            Sign::Most => right.cmp(&left),
        }
    }
}

impl Aim {
    /// Whether the counts of this name differ.
    fn tells_apart(&self, left: &Criteria, right: &Criteria) -> bool
        ensures { result ≡ differ_in left.now right.now self.now }
    {
        left.count(self.count) != right.count(self.count)
    }

    /// Compares the counts of this name.
    fn compare(&self, left: &Criteria, right: &Criteria) -> Ordering
        ensures { result ≡ aim_cmp left.now right.now self.now }
    {
        self.sign
            .compare(left.count(self.count), right.count(self.count))
    }
}

/// Compares two proposed statuses by their counts. The first aim whose counts differ decides: the lesser count is `Less`
/// under `-`, and `Greater` under `+`. `Equal` where no aim's counts differ, so also without aims. Own.
pub fn compare(aims: &[Aim], left: &Criteria, right: &Criteria) -> Ordering
    ensures { result ≡ compare aims.now left.now right.now }
{
    match aims.iter().find(|aim| aim.tells_apart(left, right)) {
        Some(aim) => aim.compare(left, right),
        None => Ordering::Equal,
    }
}

/// The aims of a list, in its order, as of `-removed,+new`. Own.
///
/// A list is one or more aims with a comma between each two. An aim is `-` or `+`, directly followed by `removed`,
/// `new`, `changed`, `notuptodate`, `unsat_recommends` or `touched`; a count may be in several. `None` for every
/// other text, such as one with a blank, a capital letter, no sign, or no aim before or after a comma.
///
/// # Errors
///
/// `AllocError` where memory for the aims is refused.
#[tactic(auto, unfolding(crate::specs::Promises::Aims::criterion))]
pub fn read_criterion(alloc: Global, text: &str) -> Result<Option<Vec<Aim>>, AllocError>
    ensures { IfOk result (λ r. option_map (λ aims. aims.items) r ≡ criterion text.now) }
{
    let mut aims = Vec::new(alloc);
    for part in text.split(',') {
        match Aim::parse(part) {
            Some(aim) => aims.push(aim)?,
            None => return Ok(None),
        }
    }
    Ok(Some(aims))
}

impl Aim {
    /// The aim of this text.
    fn parse(text: &str) -> Option<Aim>
        ensures { result ≡ aim_of text.now }
    {
        let (sign, name) = Sign::split(text)?;
        let count = Count::parse(name)?;
        Some(Aim { sign, count })
    }
}

impl Sign {
    /// The sign at the front of the text, and what follows it.
    fn split(text: &str) -> Option<(Sign, &str)>
        ensures signed { IfSome result (λ r. text.now ≡ sign_text r.0 ++ r.1.now) }
        ensures unsigned { IfNone result ((sign : Sign) (name : List ℕ) → text.now ≡ sign_text sign ++ name → ⊥) }
    {
        match text.strip_prefix('-') {
            Some(name) => Some((Sign::Least, name)),
            None => Some((Sign::Most, text.strip_prefix('+')?)),
        }
    }
}

impl Count {
    /// The count of this name.
    fn parse(name: &str) -> Option<Count>
        ensures { result ≡ find (λ count. bytes_eq name.now (count_row count).0) all_counts }
    {
        match name {
            "removed" => Some(Count::Removed),
            "new" => Some(Count::New),
            "changed" => Some(Count::Changed),
            "notuptodate" => Some(Count::NotUpToDate),
            "unsat_recommends" => Some(Count::UnsatRecommends),
            "touched" => Some(Count::Touched),
            _ => None,
        }
    }
}
