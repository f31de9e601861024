//! CUDF's types.
ghost use Rattle.std.specs.Prelude.{◌≡◌, Ok, bytes_eq};
ghost use Rattle.std.specs.List.{list_any};
ghost use Rattle.cudf_text.specs.Chars.{trim};
ghost use Rattle.cudf_value.specs.Promises.Types.{type_view};
ghost use Rattle.cudf_value.specs.Types.{is_of_type};

use crate::formula::is_formula_text;
use crate::number::{is_pkgname, parse_bool, parse_int, parse_nat, parse_posint};
use crate::vpkg::{parse_veqpkg, parse_vpkg};
use crate::vpkglist::{is_veqpkglist_text, is_vpkglist_text};
use cudf_text::{is_ident, trim};
use std::alloc::{AllocError, Global};

/// A type of values (CUDF 2.0, the type library).
#[derive(Clone, PartialEq, Eq, Drop)]
pub enum ValueType<'t> {
    /// `posint`: 1 to `u64::MAX` (own range).
    Positive,
    /// `nat`: 0 to `u64::MAX` (own range).
    Natural,
    /// `int`: `i64::MIN` to `i64::MAX` (own range).
    Signed,
    /// `bool`: `true` and `false`.
    Truth,
    /// `string`: any text.
    Words,
    /// `pkgname`: the name of a package or a feature.
    Name,
    /// `ident`: a name of a property.
    Ident,
    /// `enum[a,b,..]`: one of these idents.
    Choice(Vec<&'t str>),
    /// `vpkg`: a name with or without a bound.
    Versioned,
    /// `veqpkg`: a vpkg without an operator or with `=`.
    Exact,
    /// `vpkgformula`: clauses between commas.
    Formula,
    /// `vpkglist`: vpkgs between commas.
    List,
    /// `veqpkglist`: veqpkgs between commas.
    ExactList,
}

impl ValueType<'_> {
    ghost use Rattle.std.specs.Prelude.{◌≡◌};
    ghost use Rattle.cudf_value.specs.Misfits.{type_word};
    ghost use Rattle.cudf_value.specs.Promises.Types.{type_view};

    /// The type's word (CUDF 2.0, the type library), which for each enum is `enum`.
    pub fn word(&self) -> &'static str
        ensures { result.now ≡ type_word (type_view self.now) }
    {
        match self {
            ValueType::Positive => "posint",
            ValueType::Natural => "nat",
            ValueType::Signed => "int",
            ValueType::Truth => "bool",
            ValueType::Words => "string",
            ValueType::Name => "pkgname",
            ValueType::Ident => "ident",
            ValueType::Choice(_) => "enum",
            ValueType::Versioned => "vpkg",
            ValueType::Exact => "veqpkg",
            ValueType::Formula => "vpkgformula",
            ValueType::List => "vpkglist",
            ValueType::ExactList => "veqpkglist",
        }
    }
}

/// Whether the whole text, but for blanks round it, is of the type. Takes no memory, and always
/// succeeds.
pub fn fits(alloc: Global, kind: &ValueType<'_>, text: &str) -> Result<bool, AllocError>
    ensures { result ≡ Ok (is_of_type (type_view kind.now) (trim text.now)) }
{
    Ok(is_of_type(kind, trim(text)))
}

/// Whether the whole text, which has no blanks round it, is of the type. `fits` trims first. Takes no memory.
pub fn is_of_type(kind: &ValueType<'_>, text: &str) -> bool
    ensures { result ≡ is_of_type (type_view kind.now) text.now }
{
    match kind {
        ValueType::Positive => parse_posint(text).is_some(),
        ValueType::Natural => parse_nat(text).is_some(),
        ValueType::Signed => parse_int(text).is_some(),
        ValueType::Truth => parse_bool(text).is_some(),
        ValueType::Words => true,
        ValueType::Name => is_pkgname(text),
        ValueType::Ident => is_ident(text),
        ValueType::Choice(idents) => is_one_of(idents, text),
        ValueType::Versioned => parse_vpkg(text).is_some(),
        ValueType::Exact => parse_veqpkg(text).is_some(),
        ValueType::Formula => is_formula_text(text),
        ValueType::List => is_vpkglist_text(text),
        ValueType::ExactList => is_veqpkglist_text(text),
    }
}

/// Whether the text is one of the idents.
pub(crate) fn is_one_of(idents: &[&str], text: &str) -> bool
    ensures { result ≡ list_any (λ ident. bytes_eq ident.now text.now) idents.now }
{
    idents.iter().any(|ident| *ident == text)
}
