ghost use Rattle.std.specs.Prelude.{◌≡◌, ◌<◌, IsTrue};
ghost use Rattle.cudf_job.specs.Keys.{is_key};

mod reading;

use itoa::Buffer;
use std::fmt;

/// What an instance is about: a package by its place in the universe (from 1), the request, or the solution. Own.
#[derive(Clone, Copy, PartialEq, Eq, PartialOrd, Ord, Hash)]
pub enum Part {
    Package(u64),
    Request,
    Solution,
}

/// The rules, in the order of their keys within a part. Own.
#[derive(Clone, Copy, PartialEq, Eq, PartialOrd, Ord, Hash)]
pub enum Rule {
    Depends,
    Conflicts,
    Keep,
    Install,
    Remove,
    Upgrade,
    Unknown,
}

/// The three ways in which an entry of `upgrade` can be violated, in the order of their keys. Own.
#[derive(Clone, Copy, PartialEq, Eq, PartialOrd, Ord, Hash)]
pub enum Aspect {
    Unsatisfied,
    Many,
    Lower,
}

/// The name of one instance of a rule, as `p1.depends.2`. Own.
///
/// Its parts fit each other, and its numbers are at least 1. Keys are ordered by part, then rule, place and aspect.
#[derive(Clone, Copy, PartialEq, Eq, PartialOrd, Ord, Hash)]
pub struct Key {
    part: Part,
    rule: Rule,
    place: u64,
    aspect: Option<Aspect>,
    ghost fits: { IsTrue (is_key part rule place aspect) },
}

impl Key {
    ghost use Rattle.std.specs.Prelude.{◌≡◌, ◌<◌, IsTrue};
    ghost use Rattle.std.specs.Ordering.{is_lt};
    ghost use Rattle.cudf_job.specs.Keys.{is_key, key_cmp};
    ghost use Rattle.cudf_job.specs.Promises.Keys.{is_fitting};
    ghost use Rattle.cudf_job.specs.KeyViews.{key_view};

    /// The key of these parts.
    pub fn new(part: Part, rule: Rule, place: u64, aspect: Option<Aspect>) -> Key
        requires { IsTrue (is_key part rule place aspect) }
        ensures { key_view result ≡ record { part = part; rule = rule; place = place; aspect = aspect } }
    {
        Key {
            part,
            rule,
            place,
            aspect,
        }
    }

    /// The part that it is about.
    pub fn part(self) -> Part
        ensures value { result ≡ (key_view self).part }
        ensures fits { IsTrue (is_fitting (key_view self)) }
    {
        self.part
    }

    /// The rule.
    pub fn rule(self) -> Rule
        ensures { result ≡ (key_view self).rule }
    {
        self.rule
    }

    /// The place of the clause, entry or stanza, from 1.
    pub fn place(self) -> u64
        ensures value { result ≡ (key_view self).place }
        ensures counted { 0 < result }
    {
        self.place
    }

    /// The aspect, for upgrade alone.
    pub fn aspect(self) -> Option<Aspect>
        ensures { result ≡ (key_view self).aspect }
    {
        self.aspect
    }

    /// Whether it comes before the other.
    #[tactic(auto, using(crate::proofs::KeyLemmas::key_ranked))]
    pub fn precedes(self, other: Key) -> bool
        ensures { result ≡ is_lt (key_cmp (key_view self) (key_view other)) }
    {
        self.cmp(&other).is_lt()
    }
}

impl Rule {
    ghost use Rattle.cudf_job.specs.Keys.{rule_row};

    /// The rule's word in a key.
    pub fn text(self) -> &'static str
        ensures { result.now ≡ (rule_row self).1 }
    {
        match self {
            Rule::Depends => "depends",
            Rule::Conflicts => "conflicts",
            Rule::Keep => "keep",
            Rule::Install => "install",
            Rule::Remove => "remove",
            Rule::Upgrade => "upgrade",
            Rule::Unknown => "unknown",
        }
    }
}

impl Aspect {
    ghost use Rattle.cudf_job.specs.Promises.Keys.{aspect_word};

    /// The aspect's word in a key.
    pub fn text(self) -> &'static str
        ensures { result.now ≡ aspect_word self }
    {
        match self {
            Aspect::Unsatisfied => "unsatisfied",
            Aspect::Many => "many",
            Aspect::Lower => "lower",
        }
    }
}

impl fmt::Display for Part {
    ghost use Rattle.std.specs.Prelude.{Some};
    ghost use Rattle.cudf_job.specs.Keys.{part_row};

    ghost output = { λ part. Some (part_row part).1 };

    fn fmt<W: fmt::Write>(&self, f: &mut fmt::Formatter<W>) -> fmt::Result {
        match *self {
            Part::Package(place) => {
                let mut buffer = Buffer::new();
                let place = buffer.format(place);
                write!(f, "p{place}")
            }
            Part::Request => f.write_str("r"),
            Part::Solution => f.write_str("s"),
        }
    }
}

impl fmt::Display for Key {
    ghost use Rattle.std.specs.Prelude.{Some};
    ghost use Rattle.cudf_job.specs.Keys.{key_text};
    ghost use Rattle.cudf_job.specs.KeyViews.{key_view};

    ghost output = { λ key. Some (key_text (key_view key)) };

    fn fmt<W: fmt::Write>(&self, f: &mut fmt::Formatter<W>) -> fmt::Result {
        let mut buffer = Buffer::new();
        let part = self.part;
        let rule = self.rule.text();
        let place = buffer.format(self.place);
        match self.aspect {
            None => write!(f, "{part}.{rule}.{place}"),
            Some(aspect) => {
                let aspect = aspect.text();
                write!(f, "{part}.{rule}.{place}.{aspect}")
            }
        }
    }
}
