//! A document in memory, as a run reads it, and the command line that the program would have for a call.
ghost use Rattle.std.specs.Prelude.{ℕ, ◌+◌, ◌≤◌, ◌<◌, MatchBool, ◌≡◌, ◌⊎◌, ◌++◌, [], ◌∷◌, IfOk, MatchResult, map, string_bytes};
ghost use Rattle.std.specs.List.{All, list_any};
ghost use Rattle.std.specs.Str.{IsUtf8};
ghost use Rattle.cudf_device.specs.Readers.{OfOne, most_bytes};
ghost use Rattle.cudf_calls.specs.Working.Given.{given_before};
ghost use Rattle.cudf_calls.specs.Calls.{IsLong, IsShort, texts_of, IsNoText, is_better, line_of, names_behind, names_of};
ghost use Rattle.cudf_calls.specs.declared.carried.Stop.TheVariants.{Memory, Refused};

use crate::carried::Stop;
use crate::{NamedBytes, Word};
use cudf_check::{Source, Trouble};
use cudf_index::Steps;
use std::alloc::Global;

/// What is left of a document in memory. No call fails, and each gives a byte or reaches the end: so only want of memory ends
/// the reading of one that isn't too long in an error.
#[derive(Drop)]
pub(crate) struct MemorySource<'t> {
    pub(crate) rest: &'t [u8],
    /// Its name, where lines name it.
    pub(crate) name: Option<&'t str>,
    pub(crate) calls: Steps,
    pub(crate) ends: Steps,
    /// How many bytes the last call gave.
    pub(crate) last: usize,
    // each call gave a byte or reached the end
    ghost counted: { calls ≤ ends + given_before rest.now },
}

impl<'t> MemorySource<'t> {
    ghost use Rattle.std.specs.Prelude.{◌≡◌, option_map};
    ghost use Rattle.cudf_calls.specs.Working.Documents.{IsUnread};

    /// A document of which nothing was read, under this name, if any.
    pub(crate) fn new(text: &'t [u8], name: Option<&'t str>) -> MemorySource<'t>
        ensures unread { IsUnread text.now result }
        ensures name { option_map (λ n. n.now) result.name ≡ option_map (λ n. n.now) name.entry }
    {
        let mut calls = Steps::new();
        calls.grow_by(usize::MAX - text.len());
        MemorySource {
            rest: text,
            name,
            calls,
            ends: Steps::new(),
            last: 0,
        }
    }
}

impl<'t> Source for MemorySource<'t> {
    ghost use Rattle.cudf_calls.specs.Working.Documents.{document_state};

    ghost state = { document_state };

    fn name(&self) -> Option<&str> {
        self.name
    }

    fn read(&mut self, buffer: &mut [u8]) -> Result<usize, Trouble> {
        let count = self.rest.len().min(buffer.len());
        let (front, rest) = self.rest.split_at(count);
        buffer[..count].copy_from_slice(front);
        self.rest = rest;
        self.calls.tick();
        if count == 0 {
            self.ends.tick();
        }
        self.last = count;
        Ok(count)
    }
}

/// Whether a document of so many bytes is as long as a run reads: 268435456 bytes at most.
fn is_short(count: usize) -> bool
    ensures { MatchBool result (count ≤ most_bytes) (most_bytes < count) }
{
    count <= 268_435_456
}

/// Whether each of the documents has at most 268435456 bytes.
pub(crate) fn are_short(documents: &[NamedBytes<'_>]) -> bool
    ensures { MatchBool result (All IsShort (texts_of documents.now)) (OfOne IsLong (texts_of documents.now)) }
{
    for document in documents {
        if !is_short(document.text.len()) {
            return false;
        }
    }
    true
}

/// The words of the command line, the program's name first. The documents are its files: behind `--` all words are files. The
/// last one stands for the file of `--better-than`, where a word has its name.
pub(crate) fn command_line(
    alloc: Global,
    words: &[Word<'_>],
    documents: &[NamedBytes<'_>],
) -> Result<Vec<String>, Stop>
    ensures line { IfOk result (λ line. map (λ word. string_bytes word) line.items ≡ line_of (map (λ word. word.bytes.now) words.now) documents.now) }
    ensures read { MatchResult result (λ line. All IsUtf8 (names_of documents.now))
        (λ stop. (stop ≡ Memory) ⊎ ((stop ≡ Refused) × (OfOne IsNoText (map (λ word. word.bytes.now) words.now) ⊎ OfOne IsNoText (names_of documents.now)))) }
{
    let mut line = Vec::new(alloc);
    add(alloc, &mut line, b"cudf_check")?;
    add_words(alloc, &mut line, words)?;
    let mut names = names_behind(alloc, words, documents)?;
    if names.is_empty() {
        return Ok(line);
    }
    add(alloc, &mut line, b"--")?;
    line.append(&mut names)?;
    Ok(line)
}

/// The names of the documents whose files are named behind the words.
fn names_behind(
    alloc: Global,
    words: &[Word<'_>],
    documents: &[NamedBytes<'_>],
) -> Result<Vec<String>, Stop>
    ensures names { IfOk result (λ names. map (λ word. string_bytes word) names.items ≡ names_behind (map (λ word. word.bytes.now) words.now) documents.now) }
    ensures read { MatchResult result (λ _. All IsUtf8 (names_of documents.now))
        (λ stop. (stop ≡ Memory) ⊎ ((stop ≡ Refused) × OfOne IsNoText (names_of documents.now))) }
{
    let mut names = Vec::new(alloc);
    add_names(alloc, &mut names, documents)?;
    if !has_better_than(words) {
        return Ok(names);
    }
    names.truncate(names.len().saturating_sub(1));
    Ok(names)
}

/// Whether one of the words names the file of `--better-than`.
fn has_better_than(words: &[Word<'_>]) -> bool
    ensures { result ≡ list_any (λ word. is_better word.bytes.now) words.now }
{
    words.iter().any(|word| is_better(word))
}

fn is_better(word: &Word<'_>) -> bool
    ensures { result ≡ is_better word.now.bytes.now }
{
    word.bytes.starts_with(b"--better-than=")
}

fn add_words(alloc: Global, line: &mut Vec<String>, words: &[Word<'_>]) -> Result<(), Stop>
    ensures line { IfOk result (λ _. map (λ word. string_bytes word) line.new.items ≡ map (λ word. string_bytes word) line.old.items ++ map (λ word. word.bytes.now) words.now) }
    ensures read { MatchResult result (λ _. All IsUtf8 (map (λ word. word.bytes.now) words.now))
        (λ stop. (stop ≡ Memory) ⊎ ((stop ≡ Refused) × OfOne IsNoText (map (λ word. word.bytes.now) words.now))) }
{
    for word in words {
        add(alloc, line, word.bytes)?;
    }
    Ok(())
}

fn add_names(
    alloc: Global,
    line: &mut Vec<String>,
    documents: &[NamedBytes<'_>],
) -> Result<(), Stop>
    ensures line { IfOk result (λ _. map (λ word. string_bytes word) line.new.items ≡ map (λ word. string_bytes word) line.old.items ++ names_of documents.now) }
    ensures read { MatchResult result (λ _. All IsUtf8 (names_of documents.now))
        (λ stop. (stop ≡ Memory) ⊎ ((stop ≡ Refused) × OfOne IsNoText (names_of documents.now))) }
{
    for document in documents {
        add(alloc, line, document.name)?;
    }
    Ok(())
}

/// Adds a word, which has to be UTF-8.
fn add(alloc: Global, line: &mut Vec<String>, word: &[u8]) -> Result<(), Stop>
    ensures line { IfOk result (λ _. map (λ word. string_bytes word) line.new.items ≡ map (λ word. string_bytes word) line.old.items ++ word.now ∷ []) }
    ensures read { MatchResult result (λ _. IsUtf8 word.now)
        (λ stop. (stop ≡ Memory) ⊎ ((stop ≡ Refused) × IsNoText word.now)) }
{
    let Ok(word) = str::from_utf8(word) else {
        return Err(Stop::Refused);
    };
    let word = String::from_str(alloc, word)?;
    if line.push(word).is_err() {
        return Err(Stop::Memory);
    }
    Ok(())
}
