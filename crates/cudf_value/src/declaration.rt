//! Declarations of extra package properties, the values of the preamble's `property`: their pieces, types and defaults.
ghost use Rattle.std.specs.Prelude.{◌≡◌, map, option_map, IfOk, option_copied, ◌<◌, true, false, ◌≤◌, ◌∷◌, None, length, take, slice_index, IfSome, MatchOption};
ghost use Rattle.std.specs.Str.{byte};
ghost use Rattle.std.specs.List.{fold, position_or_len};
ghost use Rattle.cudf_text.specs.Chars.{trim};
ghost use Rattle.cudf_value.specs.Promises.Types.{type_view, declaration_view};
ghost use Rattle.cudf_value.specs.Declarations.{with_kind, declaration, declarations, ident_part, enum_at, type_at, between, without_brackets, takes_quoted, is_default};
ghost use Rattle.cudf_value.specs.Spots.{pieces, is_quotable, next_spot, is_outside, is_in_quotes, separates, unquoted, with_spots};
ghost use Rattle.cudf_value.specs.Working.Rests.{declaration_piece, read_pieces, pieces_after};
ghost use Rattle.cudf_value.specs.Parts.{look_up, read_parts};
ghost use Rattle.cudf_value.specs.Types.{types, word_type};
ghost use Rattle.cudf_value.specs.Working.Spots.{spot_of};

use crate::number::{cut, find};
use crate::value_type::{ValueType, is_of_type, is_one_of};
use cudf_text::scan::{Class, after, before, first_byte, split_run, trim_start};
use cudf_text::{is_ident, trim};
use std::alloc::{AllocError, Global};

/// The declaration of a package property (CUDF 2.0, preamble).
#[derive(Clone, PartialEq, Eq, Drop)]
pub struct Declaration<'t> {
    /// An `ident`, in what the reader gives.
    pub name: &'t str,
    /// The type of the property's values.
    pub kind: ValueType<'t>,
    /// The default without brackets round it, with quotes as written.
    pub default: Option<&'t str>,
}

impl<'t> Declaration<'t> {
    ghost use Rattle.std.specs.Prelude.{◌≡◌, is_some};
    ghost use Rattle.cudf_value.specs.Promises.Types.{declaration_view};

    /// Whether the property has a default.
    pub fn has_default(&self) -> bool
        ensures { result ≡ is_some (declaration_view self.now).default }
    {
        self.default.is_some()
    }
}

/// Reads the value of a `property` (CUDF 2.0, preamble), with blanks or none round it: nothing (own), or declarations
/// between the commas outside quotes and brackets, each as `name: type`, `name: type = [default]` or
/// `name: type = default`.
///
/// A name may be declared twice. `None` is answered where a quote or a bracket is wrong or isn't closed, or a piece of
/// the text is no declaration.
///
/// # Errors
///
/// `AllocError` where memory is refused for the declarations or for an enum's idents.
pub fn read_declarations(
    alloc: Global,
    text: &str,
) -> Result<Option<Vec<Declaration<'_>>>, AllocError>
    ensures { IfOk result (λ r. option_map (λ v. map declaration_view v.items) r ≡ declarations (trim text.now)) }
{
    parse_declarations(alloc, trim(text))
}

#[tactic(auto, unfolding(crate::specs::Declarations::declarations))]
fn parse_declarations(alloc: Global, text: &str) -> Result<Option<Vec<Declaration<'_>>>, AllocError>
    ensures { IfOk result (λ r. option_map (λ v. map declaration_view v.items) r ≡ declarations text.now) }
{
    if text.is_empty() {
        return Ok(Some(Vec::new(alloc)));
    }
    read_pieces(alloc, text)
}

/// The declarations of the pieces, one at least.
fn read_pieces(alloc: Global, text: &str) -> Result<Option<Vec<Declaration<'_>>>, AllocError>
    ensures { IfOk result (λ r. option_map (λ v. map declaration_view v.items) r ≡ read_pieces declaration_piece text.now) }
{
    let mut declarations = Vec::new(alloc);
    let mut rest = text;
    loop {
        let Some((piece, next)) = cut_piece(rest) else {
            return Ok(None);
        };
        match read_declaration(alloc, piece)? {
            Some(declaration) => declarations.push(declaration)?,
            None => return Ok(None),
        }
        match next {
            Some(more) => rest = more,
            None => return Ok(Some(declarations)),
        }
    }
}

/// The pieces of the value of a `property` (CUDF 2.0, preamble), with blanks or none round it: its parts between the
/// commas outside quotes and brackets, with the blanks round each. There is one at least, so of the empty text an empty
/// one.
///
/// `None` is answered where a quote or a bracket is wrong or isn't closed.
///
/// # Errors
///
/// `AllocError` where memory for the list is refused.
pub fn declaration_pieces(alloc: Global, text: &str) -> Result<Option<Vec<&str>>, AllocError>
    ensures { IfOk result (λ r. option_map (λ v. map (λ piece. piece.now) v.items) r ≡ pieces (trim text.now)) }
{
    cut_pieces(alloc, trim(text))
}

/// The pieces of a text, one at least.
fn cut_pieces(alloc: Global, text: &str) -> Result<Option<Vec<&str>>, AllocError>
    ensures { IfOk result (λ r. option_map (λ v. map (λ piece. piece.now) v.items) r ≡ pieces text.now) }
{
    let mut found = Vec::new(alloc);
    let mut rest = text;
    loop {
        let Some((piece, next)) = cut_piece(rest) else {
            return Ok(None);
        };
        found.push(piece)?;
        match next {
            Some(more) => rest = more,
            None => return Ok(Some(found)),
        }
    }
}

/// Reads a piece of the value of a `property` (CUDF 2.0, preamble), with blanks or none round it: one declaration, as
/// `read_declarations` has it.
///
/// `None` is answered where the piece is no declaration.
///
/// # Errors
///
/// `AllocError` where memory for an enum's idents is refused.
pub fn read_declaration(alloc: Global, piece: &str) -> Result<Option<Declaration<'_>>, AllocError>
    ensures { IfOk result (λ r. option_map declaration_view r ≡ declaration (trim piece.now)) }
{
    let (name, rest) = split_run(trim(piece), Class::Ident);
    let rest = trim_start(rest);
    if !is_ident(name) || first_byte(rest) != b':' {
        return Ok(None);
    }
    match parse_type(alloc, trim_start(after(rest, 1)))? {
        Some((kind, rest)) => Ok(with_kind(name, kind, trim_start(rest))),
        None => Ok(None),
    }
}

/// The declaration of a name and a type, with `rest` after them: nothing, or `=` and a default.
fn with_kind<'t>(name: &'t str, kind: ValueType<'t>, rest: &'t str) -> Option<Declaration<'t>>
    ensures { option_map declaration_view result ≡ with_kind name.now (type_view kind.entry) rest.now }
{
    if rest.is_empty() {
        return Some(Declaration {
            name,
            kind,
            default: None,
        });
    }
    if first_byte(rest) != b'=' {
        return None;
    }
    let default = without_brackets(trim(after(rest, 1)));
    if is_default(&kind, default) {
        Some(Declaration {
            name,
            kind,
            default: Some(default),
        })
    } else {
        None
    }
}

/// The type at the front of the text, and what follows it.
pub(crate) fn parse_type(
    alloc: Global,
    text: &str,
) -> Result<Option<(ValueType<'_>, &str)>, AllocError>
    ensures { IfOk result (λ r. option_map (λ found. (type_view found.0, found.1.now)) r ≡ type_at text.now) }
{
    let (word, rest) = split_run(text, Class::Letter);
    if word == "enum" {
        return parse_enum(alloc, trim_start(rest));
    }
    Ok(match kind_of_word(word) {
        Some(kind) => Some((kind, rest)),
        None => None,
    })
}

/// The type that is one word.
fn kind_of_word<'t>(word: &str) -> Option<ValueType<'t>>
    ensures { option_map type_view result ≡ option_map (λ test. word_type word.now) (look_up word.now types) }
{
    match word {
        "posint" => Some(ValueType::Positive),
        "nat" => Some(ValueType::Natural),
        "int" => Some(ValueType::Signed),
        "bool" => Some(ValueType::Truth),
        "string" => Some(ValueType::Words),
        "pkgname" => Some(ValueType::Name),
        "ident" => Some(ValueType::Ident),
        "vpkg" => Some(ValueType::Versioned),
        "veqpkg" => Some(ValueType::Exact),
        "vpkgformula" => Some(ValueType::Formula),
        "vpkglist" => Some(ValueType::List),
        "veqpkglist" => Some(ValueType::ExactList),
        _ => None,
    }
}

/// The enum of the idents in the brackets at the front, and what follows them.
fn parse_enum(alloc: Global, text: &str) -> Result<Option<(ValueType<'_>, &str)>, AllocError>
    ensures { IfOk result (λ r. option_map (λ found. (type_view found.0, found.1.now)) r ≡ enum_at text.now) }
{
    if first_byte(text) != b'[' {
        return Ok(None);
    }
    let inside = after(text, 1);
    let Some(n) = find(inside.as_bytes(), b']') else {
        return Ok(None);
    };
    Ok(match parse_idents(alloc, before(inside, n))? {
        Some(idents) => Some((ValueType::Choice(idents), after(inside, n + 1))),
        None => None,
    })
}

/// The idents between commas, one at least.
fn parse_idents(alloc: Global, text: &str) -> Result<Option<Vec<&str>>, AllocError>
    ensures { IfOk result (λ r. option_map (λ v. map (λ ident. ident.now) v.items) r ≡ read_parts (byte ",") ident_part text.now) }
{
    let mut idents = Vec::new(alloc);
    let mut rest = text;
    loop {
        let (part, next) = cut(rest, b',');
        match read_ident(part) {
            Some(ident) => idents.push(ident)?,
            None => return Ok(None),
        }
        match next {
            Some(more) => rest = more,
            None => return Ok(Some(idents)),
        }
    }
}

/// The ident, with blanks or none round it.
fn read_ident(part: &str) -> Option<&str>
    ensures { option_copied result ≡ ident_part part.now }
{
    let text = trim(part);
    if is_ident(text) { Some(text) } else { None }
}

/// The trimmed text between `[` and `]` where the text begins and ends with these, otherwise the text.
pub(crate) fn without_brackets(text: &str) -> &str
    ensures { result.now ≡ without_brackets text.now }
{
    match between(text, b'[', b']') {
        Some(inner) => trim(inner),
        None => text,
    }
}

/// The text between a first and a last character, where it begins and ends with these.
fn between(text: &str, first: u8, last: u8) -> Option<&str>
    requires first_ascii { first < 128 }
    requires last_ascii { last < 128 }
    ensures { option_copied result ≡ between first last text.now }
{
    let bytes = text.as_bytes();
    let len = bytes.len();
    if len < 2 || bytes[0] != first || bytes[len - 1] != last {
        return None;
    }
    Some(before(after(text, 1), len - 2))
}

/// Whether the text is a default of the type.
pub(crate) fn is_default(kind: &ValueType<'_>, text: &str) -> bool
    ensures { result ≡ is_default (type_view kind.now) text.now }
{
    if first_byte(text) == b'"' {
        return match between(text, b'"', b'"') {
            Some(inner) => is_quotable(inner) && takes_quoted(kind, inner),
            None => false,
        };
    }
    if text.as_bytes().contains(&b'"') {
        return false;
    }
    is_of_type(kind, text)
}

/// Whether the type takes this text in quotes.
fn takes_quoted(kind: &ValueType<'_>, text: &str) -> bool
    ensures { result ≡ takes_quoted (type_view kind.now) text.now }
{
    match kind {
        ValueType::Words => true,
        ValueType::Choice(idents) => is_one_of(idents, text),
        _ => false,
    }
}

/// Whether the text may be between quotes.
fn is_quotable(text: &str) -> bool
    ensures { result ≡ is_quotable text.now }
{
    let bytes = text.as_bytes();
    let mut state = LexState::Quotes;
    for byte in bytes {
        if state.is_outside() {
            return false;
        }
        state = state.next(*byte);
    }
    state.is_in_quotes()
}

/// Where a character of a declaration is.
#[derive(Clone, Copy)]
pub(crate) enum LexState {
    Outside,
    Bracket,
    Quotes,
    /// After a backslash in quotes.
    Escape,
    /// In quotes inside a bracket.
    BracketQuotes,
    /// After a backslash in such quotes.
    BracketEscape,
    /// After a fault of quotes or brackets.
    Broken,
}

impl LexState {
    /// The state after the character.
    pub(crate) fn next(self, byte: u8) -> LexState
        ensures { spot_of result ≡ next_spot (spot_of self) byte }
    {
        match self {
            LexState::Outside => match byte {
                b'"' => LexState::Quotes,
                b'[' => LexState::Bracket,
                b']' => LexState::Broken,
                _ => LexState::Outside,
            },
            LexState::Bracket => match byte {
                b'"' => LexState::BracketQuotes,
                b']' => LexState::Outside,
                b'[' => LexState::Broken,
                _ => LexState::Bracket,
            },
            LexState::Quotes => match byte {
                b'\\' => LexState::Escape,
                b'"' => LexState::Outside,
                _ => LexState::Quotes,
            },
            LexState::BracketQuotes => match byte {
                b'\\' => LexState::BracketEscape,
                b'"' => LexState::Bracket,
                _ => LexState::BracketQuotes,
            },
            LexState::Escape => match byte {
                b'"' | b'\\' => LexState::Quotes,
                _ => LexState::Broken,
            },
            LexState::BracketEscape => match byte {
                b'"' | b'\\' => LexState::BracketQuotes,
                _ => LexState::Broken,
            },
            LexState::Broken => LexState::Broken,
        }
    }

    pub(crate) fn is_outside(self) -> bool
        ensures { result ≡ is_outside (spot_of self) }
    {
        matches!(self, LexState::Outside)
    }

    pub(crate) fn is_in_quotes(self) -> bool
        ensures { result ≡ is_in_quotes (spot_of self) }
    {
        matches!(self, LexState::Quotes)
    }

    /// Whether the character is a comma that separates declarations.
    pub(crate) fn separates(self, byte: u8) -> bool
        ensures { result ≡ separates (spot_of self, byte) }
    {
        self.is_outside() && byte == b','
    }
}

/// The first piece, and what follows its comma, if there is one; `None` where quotes or brackets are at fault in
/// the piece, and then the whole text has no pieces.
pub(crate) fn cut_piece(text: &str) -> Option<(&str, Option<&str>)>
    ensures pieces { MatchOption result (pieces text.now ≡ None)
        (λ cut. pieces text.now ≡ option_map (λ ps. cut.0.now ∷ ps) (pieces_after (option_copied cut.1))) }
    ensures shorter { IfSome result (λ cut. IfSome cut.1 (λ rest. length rest.now < length text.now)) }
{
    let (n, state) = piece_len(text);
    if !state.is_outside() {
        return None;
    }
    if n == text.len() {
        return Some((text, None));
    }
    Some((before(text, n), Some(after(text, n + 1))))
}

/// How long the first piece is, and the state after it.
fn piece_len(text: &str) -> (usize, LexState)
    ensures inside { result.0 ≤ length text.now }
    ensures len { result.0 ≡ position_or_len separates (with_spots (unquoted false) text.now) }
    ensures state { spot_of result.1 ≡ fold next_spot (unquoted false) (take result.0 text.now) }
    ensures end { result.0 < length text.now → separates (spot_of result.1, slice_index text.now result.0) ≡ true }
{
    let bytes = text.as_bytes();
    let mut state = LexState::Outside;
    let mut n = 0;
    while n < bytes.len() && !state.separates(bytes[n]) {
        state = state.next(bytes[n]);
        n += 1;
    }
    (n, state)
}
