//! Which value or declaration isn't of its type, and which entry of it; and what a package lacks.
ghost use Rattle.std.specs.Prelude.{◌≡◌, Some, None, option_map, option_and_then, slice_get, codes, if◌then◌else◌, ◌+◌, [], ◌∷◌, List, ℕ, map, IfOk, not, find, bytes_eq, OnOk};
ghost use Rattle.std.specs.Str.{byte};
ghost use Rattle.std.specs.List.{list_any};
ghost use Rattle.cudf_text.specs.Promises.Views.{property_view, stanza_view};
ghost use Rattle.cudf_text.specs.Chars.{trim};
ghost use Rattle.cudf_value.specs.Misfits.{type_word};
ghost use Rattle.cudf_value.specs.Parts.{look_up, parts};
ghost use Rattle.cudf_value.specs.Promises.Types.{type_view};
ghost use Rattle.cudf_value.specs.Spots.{pieces};
ghost use Rattle.cudf_problem.specs.declared.problem.Postmark.TheVariants.{Package as PackageMark, Request as RequestMark};
ghost use Rattle.cudf_document.specs.Details.{misfit_text, mistyped_as, words, misdeclared, bad_piece};
ghost use Rattle.cudf_document.specs.Promises.Views.{detail_view};
ghost use Rattle.cudf_document.specs.Working.Details.{property_at, mistyped_after, package_words, request_words, misdeclared_in, lacking_after};
ghost use Rattle.cudf_document.specs.Working.SeenNames.{AreNames};

use crate::declarations::{Declarations, declare};
use crate::details::{Detail, property_on};
use crate::names::{SeenNames, postmark_of};
use cudf_problem::{Mode, Postmark};
use cudf_text::{PropertyRef, StanzaRef, trim};
use cudf_value::{ValueType, declaration_pieces, first_invalid_entry, read_declaration};
use std::alloc::{AllocError, Global};

/// The name and the type of the property on a line, where its name is known in the stanza.
pub(crate) fn type_error_detail<'t>(
    alloc: Global,
    declarations: &Declarations<'t>,
    stanza: &StanzaRef<'t>,
    line: u64,
) -> Option<Detail<'t>>
    ensures { option_map detail_view result
        ≡ option_and_then (mistyped_after declarations.now (stanza_view stanza.now)) (property_at line (stanza_view stanza.now)) }
{
    match property_on(stanza, line) {
        Some(property) => property_type_error(alloc, declarations, postmark_of(stanza), property),
        None => None,
    }
}

/// The name and the type of a property, where its name is known in a stanza with this postmark.
fn property_type_error<'t>(
    alloc: Global,
    declarations: &Declarations<'t>,
    mark: Option<Postmark>,
    property: &PropertyRef<'t>,
) -> Option<Detail<'t>>
    ensures { option_map detail_view result
        ≡ option_map (mistyped_as property.now.name.now property.now.value.now) (look_up property.now.name.now (words declarations.now mark)) }
{
    match mark {
        Some(Postmark::Package) => package_type_error(alloc, declarations, property),
        Some(Postmark::Request) => request_type_error(property),
        Some(Postmark::Preamble) | None => None,
    }
}

/// The detail of E9 of a package's property; `None` if its name has no type.
fn package_type_error<'t>(
    alloc: Global,
    declarations: &Declarations<'t>,
    property: &PropertyRef<'t>,
) -> Option<Detail<'t>>
    ensures { option_map detail_view result
        ≡ option_map (mistyped_as property.now.name.now property.now.value.now) (look_up property.now.name.now (words declarations.now (Some PackageMark))) }
{
    match package_type(alloc, property.name) {
        Some(kind) => Some(mismatch_detail(&kind, property)),
        None => match declarations.kind(property.name) {
            Some(kind) => Some(mismatch_detail(kind, property)),
            None => None,
        },
    }
}

/// The detail of E9 of a request's property; `None` if its name has no type.
fn request_type_error<'t>(property: &PropertyRef<'t>) -> Option<Detail<'t>>
    ensures { option_map detail_view result
        ≡ option_map (mistyped_as property.now.name.now property.now.value.now) (look_up property.now.name.now request_words) }
{
    if is_request_name(property.name) {
        Some(mismatch_detail(&ValueType::List, property))
    } else {
        None
    }
}

/// The property, which isn't of this type.
fn mismatch_detail<'t>(kind: &ValueType<'_>, property: &PropertyRef<'t>) -> Detail<'t>
    ensures { detail_view result
        ≡ mistyped_as property.now.name.now property.now.value.now (type_word (type_view kind.now)) }
{
    let entry = first_invalid_entry(kind, property.value);
    Detail::Mistyped {
        name: property.name,
        word: kind.word(),
        entry,
        text: misfit_text(trim(property.value), entry),
    }
}

/// The entry of this number from 1, without blanks round it, or else the whole value.
fn misfit_text(value: &str, entry: Option<u64>) -> &str
    ensures { result.now ≡ misfit_text entry value.now }
{
    match entry {
        Some(number) => trim(nth_part(value, number.saturating_sub(1)).unwrap_or("")),
        None => value,
    }
}

/// The part between commas at an index.
fn nth_part(text: &str, index: u64) -> Option<&str>
    ensures { option_map (λ part. part.now) result ≡ slice_get (parts (byte ",") text.now) index }
{
    text.split(',').nth(index as usize)
}

/// The type of a package's property of this name (CUDF 2.0, package properties); `keep` is an enum.
fn package_type(alloc: Global, name: &str) -> Option<ValueType<'static>>
    ensures { option_map (λ kind. type_word (type_view kind)) result ≡ look_up name.now package_words }
{
    match name {
        "package" => Some(ValueType::Name),
        "version" => Some(ValueType::Positive),
        "depends" => Some(ValueType::Formula),
        "conflicts" => Some(ValueType::List),
        "provides" => Some(ValueType::ExactList),
        "installed" => Some(ValueType::Truth),
        "keep" => Some(ValueType::Choice(Vec::new(alloc))),
        "was-installed" => Some(ValueType::Words),
        _ => None,
    }
}

/// Whether it is the name of a property of a request that counts (CUDF 2.0, request properties): each is a vpkglist.
fn is_request_name(name: &str) -> bool
    ensures { look_up name.now request_words ≡ (if result then Some (codes "vpkglist") else None) }
{
    matches!(name, "install" | "remove" | "upgrade")
}

/// The first bad declaration of the property on a line, after what those before it in the preamble
/// declare.
pub(crate) fn misdeclared<'t>(
    alloc: Global,
    stanza: &StanzaRef<'t>,
    line: u64,
) -> Result<Option<Detail<'t>>, AllocError>
    ensures { IfOk result (λ d.
        option_map detail_view d
        ≡ option_map misdeclared (misdeclared_in [] line (stanza_view stanza.now).properties)) }
{
    let number = misdeclared_number(alloc, stanza, line)?;
    Ok(number.map(|declaration| Detail::Misdeclared { declaration }))
}

/// The number, from 1, of the first bad declaration of the property on this line; `None` if there is none.
fn misdeclared_number(
    alloc: Global,
    stanza: &StanzaRef<'_>,
    line: u64,
) -> Result<Option<u64>, AllocError>
    ensures { IfOk result (λ number. number ≡ misdeclared_in [] line (stanza_view stanza.now).properties) }
{
    let mut declarations = Declarations::new(alloc);
    for property in &stanza.properties {
        if property.line == line {
            return bad_declaration(alloc, &mut declarations, property.value);
        }
        declare(alloc, &mut declarations, property)?;
    }
    Ok(None)
}

/// The number of the first declaration of a value that is none, or that isn't allowed after these and
/// those before it, which are added. Where quotes or brackets are wrong the value has no declarations.
fn bad_declaration<'t>(
    alloc: Global,
    declarations: &mut Declarations<'t>,
    text: &'t str,
) -> Result<Option<u64>, AllocError>
    ensures { IfOk result (λ number.
        number ≡ option_and_then (bad_piece 1 declarations.old) (pieces (trim text.now))) }
{
    match declaration_pieces(alloc, text)? {
        Some(pieces) => bad_piece(alloc, declarations, &pieces),
        None => Ok(None),
    }
}

/// The number of the first of these pieces that is no declaration, or that isn't allowed there.
fn bad_piece<'t>(
    alloc: Global,
    declarations: &mut Declarations<'t>,
    pieces: &[&'t str],
) -> Result<Option<u64>, AllocError>
    ensures { IfOk result (λ number.
        number ≡ bad_piece 1 declarations.old (map (λ piece. piece.now) pieces.now)) }
{
    let mut number = 0;
    for piece in pieces {
        number += 1;
        if !declare_piece(alloc, declarations, piece)? {
            return Ok(Some(number));
        }
    }
    Ok(None)
}

/// Declares what a piece does, and says whether it is a declaration that is allowed here.
fn declare_piece<'t>(
    alloc: Global,
    declarations: &mut Declarations<'t>,
    piece: &'t str,
) -> Result<bool, AllocError>
    // On it goes with the pieces after it, or this is the bad one.
    ensures { IfOk result (λ is_good. (n : ℕ) →
        (later : List (List ℕ)) →
        bad_piece n declarations.old (piece.now ∷ later)
        ≡ (if is_good then bad_piece (n + 1) declarations.new later else Some n)) }
{
    match read_declaration(alloc, piece)? {
        Some(declaration) => declarations.insert(alloc, declaration),
        None => Ok(false),
    }
}

/// The first name that is declared without a default, and that the stanza lacks.
pub(crate) fn missing_name_detail<'t>(
    alloc: Global,
    declarations: &Declarations<'t>,
    stanza: &StanzaRef<'t>,
) -> Result<Option<Detail<'t>>, AllocError>
    ensures { IfOk result (λ d.
        option_map detail_view d ≡ lacking_after declarations.now (stanza_view stanza.now)) }
{
    let required = declarations.required(alloc, Mode::Strict)?;
    let seen = names_in(alloc, &stanza.properties)?;
    match first_unseen(&required, &seen) {
        Some(name) => Ok(Some(Detail::Lacking { name })),
        None => Ok(None),
    }
}

/// The names of these properties.
fn names_in<'t>(alloc: Global, properties: &[PropertyRef<'t>]) -> Result<SeenNames<'t>, AllocError>
    ensures { IfOk result (λ names. AreNames names (map property_view properties.now)) }
{
    let mut names = SeenNames::new(alloc);
    for property in properties {
        names.insert(property.name)?;
    }
    Ok(names)
}

/// The first of these names that isn't among those that were seen.
fn first_unseen<'t>(names: &[&'t str], seen: &SeenNames<'_>) -> Option<&'t str>
    ensures { option_map (λ name. name.now) result
        ≡ find (λ name. not (list_any (bytes_eq name) seen.now)) (map (λ name. name.now) names.now) }
{
    for name in names {
        if !seen.contains(name) {
            return Some(name);
        }
    }
    None
}
