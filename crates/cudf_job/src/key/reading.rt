//! Keys that are read from their texts.
ghost use Rattle.std.specs.Prelude.{◌≡◌, ℕ, ◌<◌, ◌^◌, ◌++◌, ◌∷◌, ◌&&◌, List, Option, Some, None, IfSome, IsSomeAnd, IsTrue, option_map, decimal, if◌then◌else◌};
ghost use Rattle.cudf_job.specs.KeyViews.{key_view};
ghost use Rattle.cudf_job.specs.Keys.{PlainKey, fits, is_key, part_place, part_row, rule_row, aspect_row, key_text};
ghost use Rattle.cudf_job.specs.Promises.Keys.{IsWritable, aspect_word};
ghost use Rattle.cudf_job.specs.Working.KeyTexts.{has_no_point};

use crate::key::{Aspect, Key, Part, Rule};
use itoa::Buffer;

impl Key {
    /// The key that is printed as this text. `None` where none is: each part is written as it is printed, so a sign,
    /// a leading zero, a blank, a capital letter, the number 0 or a number above 18446744073709551615 is refused, and
    /// so are parts that don't fit each other. An aspect comes after `r.upgrade` alone, and always.
    pub fn parse(text: &str) -> Option<Key>
        ensures printed { IfSome result (λ key. key_text (key_view key) ≡ text.now) }
        ensures exact { (key : PlainKey) → IsWritable key → key_text key ≡ text.now → option_map key_view result ≡ Some key }
    {
        let (part, rest) = split_at_point(text)?;
        let (rule, rest) = split_at_point(rest)?;
        let (place, aspect) = place_and_aspect(rest)?;
        Key::of_parts(Part::parse(part)?, Rule::parse(rule)?, place, aspect)
    }

    /// The key of these parts, if they fit each other.
    fn of_parts(part: Part, rule: Rule, place: u64, aspect: Option<Aspect>) -> Option<Key>
        ensures { option_map key_view result ≡ (if is_key part rule place aspect
            then Some (record { part = part; rule = rule; place = place; aspect = aspect }) else None) }
    {
        if part.fits(rule, aspect) && place > 0 {
            Some(Key::new(part, rule, place, aspect))
        } else {
            None
        }
    }
}

impl Part {
    /// The part that is printed as this text, as `p3`. `None` where none is.
    fn parse(text: &str) -> Option<Part>
        ensures printed { IfSome result (λ part. (part_row part).1 ≡ text.now) }
        ensures exact { (part : Part) → part_place part < 2 ^ 64 → (part_row part).1 ≡ text.now → result ≡ Some part }
    {
        match text {
            "r" => Some(Part::Request),
            "s" => Some(Part::Solution),
            _ => Some(Part::Package(read_number(text.strip_prefix('p')?)?)),
        }
    }

    /// Whether the rule is one of this part and has an aspect if it is upgrade, and the number of a package is at least 1.
    fn fits(self, rule: Rule, aspect: Option<Aspect>) -> bool
        ensures { result ≡ fits self rule aspect }
    {
        match self {
            Part::Package(number) => match rule {
                Rule::Depends | Rule::Conflicts | Rule::Keep => number > 0 && aspect.is_none(),
                _ => false,
            },
            Part::Request => match rule {
                Rule::Install | Rule::Remove => aspect.is_none(),
                Rule::Upgrade => aspect.is_some(),
                _ => false,
            },
            Part::Solution => rule == Rule::Unknown && aspect.is_none(),
        }
    }
}

impl Rule {
    /// The rule that is printed as this text, as `depends`. `None` where none is.
    fn parse(text: &str) -> Option<Rule>
        ensures printed { IfSome result (λ rule. (rule_row rule).1 ≡ text.now) }
        ensures exact { (rule : Rule) → (rule_row rule).1 ≡ text.now → result ≡ Some rule }
    {
        match text {
            "depends" => Some(Rule::Depends),
            "conflicts" => Some(Rule::Conflicts),
            "keep" => Some(Rule::Keep),
            "install" => Some(Rule::Install),
            "remove" => Some(Rule::Remove),
            "upgrade" => Some(Rule::Upgrade),
            "unknown" => Some(Rule::Unknown),
            _ => None,
        }
    }
}

impl Aspect {
    /// The aspect that is printed as this text, as `many`. `None` where none is.
    fn parse(text: &str) -> Option<Aspect>
        ensures printed { IfSome result (λ aspect. aspect_word aspect ≡ text.now) }
        ensures exact { (aspect : Aspect) → aspect_word aspect ≡ text.now → result ≡ Some aspect }
    {
        match text {
            "unsatisfied" => Some(Aspect::Unsatisfied),
            "many" => Some(Aspect::Many),
            "lower" => Some(Aspect::Lower),
            _ => None,
        }
    }
}

/// The place, and the aspect after it if there is one.
#[tactic(auto, using(crate::proofs::KeyTextLemmas::dotted))]
fn place_and_aspect(text: &str) -> Option<(u64, Option<Aspect>)>
    ensures printed { IfSome result (λ r. decimal r.0 ++ (aspect_row r.1).1 ≡ text.now) }
    ensures exact { (place : ℕ) (aspect : Option Aspect) → place < 2 ^ 64 → decimal place ++ (aspect_row aspect).1 ≡ text.now
        → result ≡ Some (place, aspect) }
{
    match split_at_point(text) {
        Some((place, aspect)) => Some((read_number(place)?, Some(Aspect::parse(aspect)?))),
        None => Some((read_number(text)?, None)),
    }
}

/// The number that is printed as this text.
fn read_number(text: &str) -> Option<u64>
    ensures printed { IfSome result (λ number. decimal number ≡ text.now) }
    ensures exact { (number : ℕ) → number < 2 ^ 64 → decimal number ≡ text.now → result ≡ Some number }
{
    let number = text.parse::<u64>().ok()?;
    let mut buffer = Buffer::new();
    if buffer.format(number) == text {
        Some(number)
    } else {
        None
    }
}

/// What is before the first point, and what after it.
fn split_at_point(text: &str) -> Option<(&str, &str)>
    ensures joined { IfSome result (λ r. r.0.now ++ 46 ∷ r.1.now ≡ text.now) }
    ensures first { (first rest : List ℕ) → IsTrue (has_no_point first) → first ++ 46 ∷ rest ≡ text.now
        → IsSomeAnd result (λ r. (r.0.now ≡ first) × (r.1.now ≡ rest)) }
    ensures none { IsTrue (has_no_point text.now) → result ≡ None }
{
    text.split_once('.')
}
