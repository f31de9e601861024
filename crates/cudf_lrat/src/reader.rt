//! Reads a proof: its lines, their words, and the numbers that these are.
ghost use Rattle.std.specs.Prelude.{◌≡◌, ◌<◌, ◌≤◌, [], ◌∷◌, ◌^◌, length, take, MatchOption, bytes_eq, IfSome, ℕ, IsTrue, List, option_and_then, IfOk, None, Some, if◌then◌else◌};
ghost use Rattle.std.specs.List.{position_or_len, prefix_len, list_any};
ghost use Rattle.std.specs.Str.Lines.{strip_carriage_return};
ghost use Rattle.std.specs.Str.Parse.{starts_with_minus};
ghost use Rattle.cudf_text.specs.Chars.{is_blank};
ghost use Rattle.cudf_text.specs.Lines.{is_lf, lines};
ghost use Rattle.cudf_lrat.specs.Lines.{words_of, number, signed_number, cut_at_zeros, deletion_of, invalid, is_empty, numbered_line, proof_line, skipped, step_of};
ghost use Rattle.cudf_lrat.specs.Working.Views.{line_view};
ghost use Rattle.cudf_lrat.specs.Working.Numbers.{number_after, HasNoZero, with_piece};

use memchr::memchr;
use std::alloc::AllocError;

/// A number with a sign or without.
#[derive(Clone, Copy)]
pub(crate) struct SignedNumber {
    pub negative: bool,
    pub value: u64,
}

/// What a line says.
#[derive(Clone, Copy)]
pub(crate) enum ProofLine {
    /// Nothing: it is blank, a comment, or a deletion.
    Skipped,
    /// A step of this number, whose literals and hints were read into vectors.
    Step(u64),
    /// It is none of these.
    Invalid,
}

/// The position of the first LF, or the length where there is none.
#[tactic(auto, using(crate::proofs::LineLemmas::position_is))]
fn lf_position(text: &[u8]) -> usize
    ensures inside { result ≤ length text.now }
    ensures value { result ≡ position_or_len is_lf text.now }
{
    memchr(b'\n', text).unwrap_or(text.len())
}

/// The length without one CR at the end.
fn len_without_return(line: &[u8]) -> usize
    ensures inside { result ≤ length line.now }
    ensures value { take result line.now ≡ strip_carriage_return line.now }
{
    match line.last() {
        Some(b'\r') => line.len() - 1,
        _ => line.len(),
    }
}

/// The first line without its end, and what follows it.
pub(crate) fn first_line(text: &[u8]) -> Option<(&[u8], &[u8])>
    ensures lines { MatchOption result (lines text.now ≡ []) (λ p. lines text.now ≡ p.0.now ∷ lines p.1.now) }
    ensures shorter { MatchOption result (text.now ≡ []) (λ p. length p.1.now < length text.now) }
{
    if text.is_empty() {
        return None;
    }
    let end = lf_position(text);
    let next = (end + 1).min(text.len());
    let len = len_without_return(&text[..end]);
    Some((&text[..len], &text[next..]))
}

/// Whether words end at the byte: a space or a tab.
#[inline(always)]
fn is_blank(byte: u8) -> bool
    ensures { result ≡ is_blank byte }
{
    byte == b' ' || byte == b'\t'
}

/// How many blanks there are at the front.
#[inline(always)]
fn blanks(text: &[u8]) -> usize
    ensures inside { result ≤ length text.now }
    ensures value { result ≡ prefix_len is_blank text.now }
{
    for (index, byte) in text.iter().enumerate() {
        if !is_blank(*byte) {
            return index;
        }
    }
    text.len()
}

/// How many bytes there are before the first blank.
#[inline(always)]
fn word_len(text: &[u8]) -> usize
    ensures inside { result ≤ length text.now }
    ensures value { result ≡ position_or_len is_blank text.now }
{
    for (index, byte) in text.iter().enumerate() {
        if is_blank(*byte) {
            return index;
        }
    }
    text.len()
}

/// The first word, and what follows it.
#[inline(always)]
fn next_word(text: &[u8]) -> Option<(&[u8], &[u8])>
    ensures words { MatchOption result (words_of text.now ≡ []) (λ p. words_of text.now ≡ p.0.now ∷ words_of p.1.now) }
    ensures shorter { IfSome result (λ p. length p.1.now < length text.now) }
{
    let text = &text[blanks(text)..];
    let len = word_len(text);
    if len == 0 {
        return None;
    }
    Some(text.split_at(len))
}

/// The value with one more digit, where the byte is one and the value fits.
#[inline(always)]
#[tactic(auto, unfolding(crate::specs::Working::Numbers::number_after))]
fn with_digit(value: u64, byte: u8) -> Option<u64>
    ensures value { (digits : List ℕ) → number_after value (byte ∷ digits) ≡ option_and_then (λ v. number_after v digits) result }
    ensures fits { IfSome result (λ v. v < 2 ^ 64) }
{
    if !byte.is_ascii_digit() {
        return None;
    }
    let tens = value.checked_mul(10)?;
    tens.checked_add(u64::from(byte - b'0'))
}

/// The number that the word is.
#[inline(always)]
#[tactic(auto, unfolding(crate::specs::Working::Numbers::number_after, crate::specs::Lines::number))]
fn read_number(word: &[u8]) -> Option<u64>
    ensures { result ≡ number word.now }
{
    if word.is_empty() {
        return None;
    }
    let mut value = 0;
    for byte in word {
        value = with_digit(value, *byte)?;
    }
    Some(value)
}

/// Whether a minus is first.
#[inline(always)]
fn has_minus(word: &[u8]) -> bool
    ensures value { result ≡ starts_with_minus word.now }
    ensures some { IsTrue result → 0 < length word.now }
{
    if word.is_empty() {
        return false;
    }
    word[0] == b'-'
}

/// The number that the word is, where a minus may be before a number of at least 1.
#[inline(always)]
#[tactic(auto, unfolding(crate::specs::Lines::signed_number))]
fn read_signed(word: &[u8]) -> Option<SignedNumber>
    ensures { result ≡ signed_number word.now }
{
    if !has_minus(word) {
        let value = read_number(word)?;
        return Some(SignedNumber {
            negative: false,
            value,
        });
    }
    let value = read_number(&word[1..])?;
    if value == 0 {
        return None;
    }
    Some(SignedNumber {
        negative: true,
        value,
    })
}

/// Whether the text has no words.
pub(crate) fn has_ended(text: &[u8]) -> bool
    ensures { result ≡ is_empty (words_of text.now) }
{
    next_word(text).is_none()
}

/// Whether one of the numbers has a minus.
pub(crate) fn has_negative(numbers: &[SignedNumber]) -> bool
    ensures { result ≡ list_any (λ n. n.negative) numbers.now }
{
    numbers.iter().any(|number| number.negative)
}

/// Reads numbers up to a zero into the list, in place of what was there. Gives what follows the
/// zero, where there is one and all words before it are numbers.
pub(crate) fn read_numbers<'t>(
    text: &'t [u8],
    numbers: &mut Vec<SignedNumber>,
) -> Result<Option<&'t [u8]>, AllocError>
    ensures { IfOk result (λ found. MatchOption found (HasNoZero (cut_at_zeros (words_of text.now))) (λ rest.
        cut_at_zeros (words_of text.now) ≡ with_piece numbers.new.items (cut_at_zeros (words_of rest.now)))) }
{
    numbers.clear();
    let mut rest = text;
    while let Some((word, after)) = next_word(rest) {
        let Some(number) = read_signed(word) else {
            return Ok(None);
        };
        if number.value == 0 {
            return Ok(Some(after));
        }
        numbers.push(number)?;
        rest = after;
    }
    Ok(None)
}

/// Whether a deletion goes on with the text. What is deleted isn't kept.
fn is_deletion(text: &[u8], numbers: &mut Vec<SignedNumber>) -> Result<bool, AllocError>
    ensures { IfOk result (λ valid. deletion_of (cut_at_zeros (words_of text.now)) ≡ (if valid then skipped else invalid)) }
{
    let Some(rest) = read_numbers(text, numbers)? else {
        return Ok(false);
    };
    if has_negative(numbers) {
        return Ok(false);
    }
    Ok(has_ended(rest))
}

/// Reads a step's literals and hints.
fn read_step(
    number: u64,
    text: &[u8],
    literals: &mut Vec<SignedNumber>,
    hints: &mut Vec<SignedNumber>,
) -> Result<ProofLine, AllocError>
    ensures { IfOk result (λ line.
        line_view line literals.new.items hints.new.items ≡ step_of number (cut_at_zeros (words_of text.now))) }
{
    let Some(rest) = read_numbers(text, literals)? else {
        return Ok(ProofLine::Invalid);
    };
    let Some(rest) = read_numbers(rest, hints)? else {
        return Ok(ProofLine::Invalid);
    };
    if has_ended(rest) {
        Ok(ProofLine::Step(number))
    } else {
        Ok(ProofLine::Invalid)
    }
}

/// Reads what follows a line's number.
fn read_numbered(
    number: u64,
    text: &[u8],
    literals: &mut Vec<SignedNumber>,
    hints: &mut Vec<SignedNumber>,
) -> Result<ProofLine, AllocError>
    ensures { IfOk result (λ line. line_view line literals.new.items hints.new.items ≡ numbered_line (Some number) (words_of text.now)) }
{
    let Some((word, rest)) = next_word(text) else {
        return Ok(ProofLine::Invalid);
    };
    if word != b"d".as_slice() {
        return read_step(number, text, literals, hints);
    }
    if is_deletion(rest, hints)? {
        Ok(ProofLine::Skipped)
    } else {
        Ok(ProofLine::Invalid)
    }
}

/// Reads a line, a step's literals and hints into the lists.
#[tactic(auto, unfolding(crate::specs::Lines::proof_line))]
pub(crate) fn read_line(
    text: &[u8],
    literals: &mut Vec<SignedNumber>,
    hints: &mut Vec<SignedNumber>,
) -> Result<ProofLine, AllocError>
    ensures { IfOk result (λ line. line_view line literals.new.items hints.new.items ≡ proof_line text.now) }
{
    let Some((word, rest)) = next_word(text) else {
        return Ok(ProofLine::Skipped);
    };
    if word == b"c".as_slice() {
        return Ok(ProofLine::Skipped);
    }
    let Some(number) = read_number(word) else {
        return Ok(ProofLine::Invalid);
    };
    read_numbered(number, rest, literals, hints)
}
