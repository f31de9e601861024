//! What a proof says beside its first fault.
ghost use Rattle.std.specs.Prelude.{◌≡◌, ◌-◌, true, false, IfOk, MatchOption, length, option_map, slice_get};
ghost use Rattle.std.specs.List.{list_any};
ghost use Rattle.cudf_text.specs.Lines.{lines};
ghost use Rattle.cudf_lrat.specs.Details.{count_detail, detail_view, fault_detail, is_binary, is_binary_byte, is_clause, is_first_step, is_skipped, line_detail, shown_detail};
ghost use Rattle.cudf_lrat.specs.Lines.{cut_at_zeros, proof_line, words_of};

use crate::checker::ProofFault;
use crate::cnf::Cnf;
use crate::reader::{ProofLine, SignedNumber, first_line, has_ended, read_line, read_numbers};
use cudf_text::trim;
use std::alloc::{AllocError, Global};
use std::str;

/// What a proof says beside its first fault (own).
#[derive(Clone, Copy, Debug)]
pub enum ProofDetail<'p> {
    /// Of L1: the line isn't UTF-8, or has a byte below 32 that is neither a tab nor a CR. So are binary proofs.
    Binary,
    /// Of L1: the line is literals, or none, and a zero. So are proofs in DRAT's text form.
    NoHints,
    /// Of L1: the text of any other line. It has no blanks round it, and isn't empty.
    LineText { text: &'p str },
    /// Of L2 at the proof's first step: how many clauses the CNF has. They have the numbers from 1 on.
    ClauseCount { clauses: u32 },
}

/// The line of this number, from 1, without its end.
fn line_at(proof: &[u8], number: u64) -> Option<&[u8]>
    ensures { option_map (λ line. line.now) result ≡ slice_get (lines proof.now) (number - 1) }
{
    let mut rest = proof;
    let mut before = number.saturating_sub(1);
    while let Some((line, after)) = first_line(rest) {
        if before == 0 {
            return Some(line);
        }
        before -= 1;
        rest = after;
    }
    None
}

/// Whether one of the bytes is no character of a text.
fn has_binary_byte(line: &[u8]) -> bool
    ensures { result ≡ list_any is_binary_byte line.now }
{
    line.iter()
        .any(|byte| *byte < 32 && *byte != b'\t' && *byte != b'\r')
}

/// The line as a text, unless it is that of a binary proof.
fn text_of(line: &[u8]) -> Option<&str>
    ensures { MatchOption result (is_binary line.now ≡ true) (λ text. (is_binary line.now ≡ false) × (text.now ≡ line.now)) }
{
    match str::from_utf8(line) {
        Ok(text) => {
            if has_binary_byte(line) {
                None
            } else {
                Some(text)
            }
        }
        Err(_) => None,
    }
}

/// Whether the line is literals, or none, and a zero.
fn is_clause(alloc: Global, line: &[u8]) -> Result<bool, AllocError>
    ensures { IfOk result (λ is. is ≡ is_clause (cut_at_zeros (words_of line.now))) }
{
    let mut literals = Vec::new(alloc);
    match read_numbers(line, &mut literals)? {
        Some(rest) => Ok(has_ended(rest)),
        None => Ok(false),
    }
}

/// The text, unless it is empty.
fn shown(text: &str) -> Option<ProofDetail<'_>>
    ensures { option_map detail_view result ≡ shown_detail text.now }
{
    if text.is_empty() {
        None
    } else {
        Some(ProofDetail::LineText { text })
    }
}

/// What a line says that is no step.
fn line_detail<'p>(alloc: Global, line: &'p [u8]) -> Result<Option<ProofDetail<'p>>, AllocError>
    ensures { IfOk result (λ d. option_map detail_view d ≡ line_detail line.now) }
{
    let Some(text) = text_of(line) else {
        return Ok(Some(ProofDetail::Binary));
    };
    if is_clause(alloc, line)? {
        return Ok(Some(ProofDetail::NoHints));
    }
    Ok(shown(trim(text)))
}

/// Whether the line is blank, a comment or a deletion. Its numbers are read into the lists.
fn is_skipped(
    line: &[u8],
    literals: &mut Vec<SignedNumber>,
    hints: &mut Vec<SignedNumber>,
) -> Result<bool, AllocError>
    ensures { IfOk result (λ is. is ≡ is_skipped (proof_line line.now)) }
{
    match read_line(line, literals, hints)? {
        ProofLine::Skipped => Ok(true),
        ProofLine::Step(_) | ProofLine::Invalid => Ok(false),
    }
}

/// Whether no line before the one of this number, from 1, is a step.
fn is_first_step(alloc: Global, proof: &[u8], number: u64) -> Result<bool, AllocError>
    ensures { IfOk result (λ is. is ≡ is_first_step proof.now number) }
{
    let mut literals = Vec::new(alloc);
    let mut hints = Vec::new(alloc);
    let mut rest = proof;
    let mut before = number.saturating_sub(1);
    while let Some((line, after)) = first_line(rest) {
        if before == 0 {
            return Ok(true);
        }
        if !is_skipped(line, &mut literals, &mut hints)? {
            return Ok(false);
        }
        before -= 1;
        rest = after;
    }
    Ok(true)
}

/// How many clauses the CNF has, where the line of this number is the first step.
fn count_detail<'p>(
    alloc: Global,
    cnf: &Cnf,
    proof: &[u8],
    number: u64,
) -> Result<Option<ProofDetail<'p>>, AllocError>
    ensures { IfOk result (λ d. option_map detail_view d ≡ count_detail (length cnf.now.clauses) proof.now number) }
{
    if is_first_step(alloc, proof, number)? {
        let clauses = cnf.len();
        Ok(Some(ProofDetail::ClauseCount { clauses }))
    } else {
        Ok(None)
    }
}

/// What a proof says beside its first fault, which is of this kind and on the line of this number from 1 (own).
///
/// `None` is answered of kinds other than L1 and L2; of L2 where a step comes before it; and where the proof has no such
/// line. The proof is read as far as this line.
///
/// # Errors
///
/// `AllocError` where memory is refused.
pub fn fault_detail<'p>(
    alloc: Global,
    cnf: &Cnf,
    proof: &'p [u8],
    number: u64,
    kind: ProofFault,
) -> Result<Option<ProofDetail<'p>>, AllocError>
    ensures { IfOk result (λ d. option_map detail_view d ≡ fault_detail (length cnf.now.clauses) proof.now number kind) }
{
    match kind {
        ProofFault::NotAStep => match line_at(proof, number) {
            Some(line) => line_detail(alloc, line),
            None => Ok(None),
        },
        ProofFault::NumberNotNew => count_detail(alloc, cnf, proof, number),
        ProofFault::NoSuchVariable
        | ProofFault::RatStep
        | ProofFault::NoSuchClause
        | ProofFault::HintNotUnit
        | ProofFault::NoConflict
        | ProofFault::EndsEarly => Ok(None),
    }
}
