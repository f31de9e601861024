//! The types whose values are one word: `posint`, `nat`, `int`, `bool` and `pkgname`; and values made of parts.
ghost use Rattle.std.specs.Prelude.{◌≡◌, ◌<◌, ◌^◌, ◌==◌, ◌∷◌, length, position, slice_index, IfSome, option_copied};
ghost use Rattle.std.specs.List.{before_first};
ghost use Rattle.cudf_text.specs.Chars.{trim};
ghost use Rattle.cudf_value.specs.Numbers.{positive, natural, signed};
ghost use Rattle.cudf_value.specs.Words.{truth, is_pkgname};
ghost use Rattle.cudf_value.specs.Parts.{parts};
ghost use Rattle.cudf_value.specs.Working.Rests.{parts_after};

use cudf_text::scan::{Class, after, are_all, before};
use cudf_text::trim;

/// Reads a `posint` (CUDF 2.0, the type library), with blanks or none round it: an optional `+`, then digits, of a value
/// from 1 to `u64::MAX` (own range). Leading zeros are accepted (own).
///
/// `None` is answered where the whole text is no `posint`.
pub fn read_posint(text: &str) -> Option<u64>
    ensures { result ≡ positive (trim text.now) }
{
    parse_posint(trim(text))
}

/// Reads a `nat` (CUDF 2.0, the type library), with blanks or none round it: an optional `+`, then digits, of a value
/// from 0 to `u64::MAX` (own range). Leading zeros are accepted (own).
///
/// `None` is answered where the whole text is no `nat`.
pub fn read_nat(text: &str) -> Option<u64>
    ensures { result ≡ natural (trim text.now) }
{
    parse_nat(trim(text))
}

/// Reads an `int` (CUDF 2.0, the type library), with blanks or none round it: an optional `+` or `-`, then digits, of a
/// value from `i64::MIN` to `i64::MAX` (own range). Leading zeros are accepted (own).
///
/// `None` is answered where the whole text is no `int`.
pub fn read_int(text: &str) -> Option<i64>
    ensures { result ≡ signed (trim text.now) }
{
    parse_int(trim(text))
}

/// The value of a `posint` without blanks round it; `None` if the text is none.
#[tactic(auto, unfolding(crate::specs::Numbers::positive))]
pub(crate) fn parse_posint(text: &str) -> Option<u64>
    ensures { result ≡ positive text.now }
{
    parse_nat(text).filter(|n| 0 < *n)
}

/// The value of a `nat` without blanks round it; `None` if the text is none.
pub(crate) fn parse_nat(text: &str) -> Option<u64>
    ensures { result ≡ natural text.now }
{
    text.parse::<u64>().ok()
}

/// The value of an `int` without blanks round it; `None` if the text is none.
pub(crate) fn parse_int(text: &str) -> Option<i64>
    ensures { result ≡ signed text.now }
{
    text.parse::<i64>().ok()
}

/// Reads a `bool` (CUDF 2.0, the type library), with blanks or none round it: `true` or `false`.
///
/// `None` is answered where the whole text is neither.
pub fn read_bool(text: &str) -> Option<bool>
    ensures { result ≡ truth (trim text.now) }
{
    parse_bool(trim(text))
}

/// The value of a `bool` without blanks round it; `None` if the text is none.
#[tactic(auto, unfolding(crate::specs::Words::truth))]
pub(crate) fn parse_bool(text: &str) -> Option<bool>
    ensures { result ≡ truth text.now }
{
    match text {
        "true" => Some(true),
        "false" => Some(false),
        _ => None,
    }
}

/// Whether the whole text, blanks and all, is a `pkgname` (CUDF 2.0, the type library): one or more ASCII letters, digits
/// and characters of `+-./@()%_:~` (own, a superset).
#[tactic(auto, unfolding(crate::specs::Words::is_pkgname))]
pub fn is_pkgname(text: &str) -> bool
    ensures { result ≡ is_pkgname text.now }
{
    !text.is_empty() && are_all(text.as_bytes(), Class::Name)
}

/// The part before the first separator, and what follows it, if there is one.
pub(crate) fn cut(text: &str, separator: u8) -> (&str, Option<&str>)
    requires { separator < 128 }
    ensures first { result.0.now ≡ before_first (λ b. b == separator) text.now }
    ensures parts { parts separator text.now ≡ result.0.now ∷ parts_after separator (option_copied result.1) }
    ensures shorter { IfSome result.1 (λ rest. length rest.now < length text.now) }
{
    match find(text.as_bytes(), separator) {
        Some(n) => (before(text, n), Some(after(text, n + 1))),
        None => (text, None),
    }
}

/// Where the byte is first.
pub(crate) fn find(bytes: &[u8], wanted: u8) -> Option<usize>
    ensures value { result ≡ position (λ b. b == wanted) bytes.now }
    ensures here { IfSome result (λ n. (n < length bytes.now) × (slice_index bytes.now n ≡ wanted)) }
{
    bytes.iter().position(|b| *b == wanted)
}

/// That a text's length is less than a half of what a `usize` counts: a law, and no effect.
pub(crate) fn lies_in_memory(text: &str)
    ensures { length text.now < 2 ^ 63 }
{
    let _bytes = text.as_bytes();
}
