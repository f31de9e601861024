//! How a package is read: its name and version, and the values of its other properties.
ghost use Rattle.indexmap.specs.IndexSet.{insert_key};
ghost use Rattle.std.specs.Prelude.{◌≡◌, ◌++◌, ◌∷◌, [], List, Some, find, bytes_eq, IfOk, OnOk, option_copied, option_map, codes};
ghost use Rattle.cudf_text.specs.Stanzas.{PlainProperty};
ghost use Rattle.cudf_text.specs.Promises.Views.{property_view, stanza_view};
ghost use Rattle.cudf_value.specs.Parts.{look_up};
ghost use Rattle.cudf_problem.specs.Documents.{has_name, value_of};
ghost use Rattle.cudf_problem.specs.declared.problem.Postmark.TheVariants.{Package as PackageMark};
ghost use Rattle.cudf_problem.specs.Ids.{id_of};
ghost use Rattle.cudf_problem.specs.Values.{name_value};
ghost use Rattle.cudf_document.specs.Faults.{least};
ghost use Rattle.cudf_document.specs.ProblemFaults.{property_faults};
ghost use Rattle.cudf_document.specs.Working.Tests.{package_tests};
ghost use Rattle.cudf_document.specs.Working.Judging.{properties_faults};
ghost use Rattle.cudf_document.specs.Working.Identities.{IsIdentity};
ghost use Rattle.cudf_document.specs.Working.PackageFields.{fault_on, package_fields_of, package_fields_view, package_property_named, with_package_property, wrong_kind};
ghost use Rattle.cudf_document.specs.Working.SeenNames.{AreNames};

use crate::declarations::Declarations;
use crate::fault::{fault_on, keep_lesser, mistyped_unless};
use crate::names::{SeenNames, first_property_named, postmark_of};
use cudf_problem::{Keep, Package, Postmark, read_keep};
use cudf_text::{Fault, Kind, PropertyRef, StanzaRef, trim};
use cudf_value::{
    Formula, VpkgList, is_pkgname, read_bool, read_formula, read_posint, read_veqpkglist,
    read_vpkglist,
};
use std::alloc::{AllocError, Global};

/// The first fault of a package's properties, and what was read of them.
pub(crate) fn read_properties<'a>(
    alloc: Global,
    names: &mut SeenNames<'a>,
    declarations: &Declarations<'_>,
    identity: Identity<'a>,
    stanza: &StanzaRef<'a>,
) -> Result<(Option<Fault>, PackageFields<'a>), AllocError>
    requires { IsIdentity identity (stanza_view stanza.now).properties }
    ensures fault { IfOk result (λ r.
        r.0
        ≡ least (properties_faults declarations.now (Some PackageMark) (stanza_view stanza.now).properties)) }
    ensures names { OnOk result (AreNames names.new (stanza_view stanza.now).properties) }
    ensures read { IfOk result (λ r.
        package_fields_view r.1 ≡ package_fields_of declarations.now (stanza_view stanza.now).properties) }
{
    names.clear(alloc);
    let mut first = None;
    let mut fields = PackageFields::new();
    for property in &stanza.properties {
        let fault = read_property(names, declarations, identity, &mut fields, property)?;
        keep_lesser(&mut first, fault);
    }
    Ok((first, fields))
}

/// Reads a property into the fields, if it is the first of its name, and answers its fault.
#[inline(always)]
fn read_property<'a>(
    names: &mut SeenNames<'a>,
    declarations: &Declarations<'_>,
    identity: Identity<'a>,
    fields: &mut PackageFields<'a>,
    property: &PropertyRef<'a>,
) -> Result<Option<Fault>, AllocError>
    ensures fault { (before later : List PlainProperty) →
        AreNames names.old before →
        IsIdentity identity.entry (before ++ property_view property.now ∷ later) →
        IfOk result (λ fault.
        fault
        ≡ least (property_faults declarations.now (Some PackageMark) (before, property_view property.now))) }
    ensures names { OnOk result (names.new ≡ insert_key bytes_eq names.old property.now.name.now) }
    ensures read { (before : List PlainProperty) →
        AreNames names.old before →
        package_fields_view fields.old ≡ package_fields_of declarations.now before →
        OnOk result (package_fields_view fields.new ≡ package_fields_of declarations.now (before ++ property_view property.now ∷ [])) }
{
    if !names.insert(property.name)? {
        return Ok(fault_on(property.line, Some(Kind::E7)));
    }
    let kind = read_first(declarations, identity, fields, property);
    Ok(fault_on(property.line, kind))
}

/// Says what is wrong with a property that is the first of its name, and reads it into the fields, but
/// for the name and the version, which are known.
#[inline(always)]
fn read_first<'a>(
    declarations: &Declarations<'_>,
    identity: Identity<'a>,
    fields: &mut PackageFields<'a>,
    property: &PropertyRef<'a>,
) -> Option<Kind>
    ensures kind { (all : List PlainProperty) →
        IsIdentity identity.entry all →
        find (has_name property.now.name.now) all ≡ Some (property_view property.now) →
        result
        ≡ wrong_kind (look_up property.now.name.now (package_tests declarations.now)) (property_view property.now).value }
    ensures read { package_fields_view fields.new
        ≡ with_package_property declarations.now (package_property_named property.now.name.now) (property_view property.now).value (package_fields_view fields.old) }
{
    match property.name {
        "package" => mistyped_unless(identity.name.is_some()),
        "version" => mistyped_unless(identity.version.is_some()),
        name => fields.keep(
            declarations,
            package_property_named(name),
            name,
            property.value,
        ),
    }
}

/// What the properties of a package stanza say beside its name and version, each value where it is
/// there and of its type.
#[derive(Drop)]
pub(crate) struct PackageFields<'t> {
    pub(crate) depends: Option<Formula<'t>>,
    pub(crate) conflicts: Option<VpkgList<'t>>,
    pub(crate) provides: Option<VpkgList<'t>>,
    pub(crate) installed: Option<bool>,
    pub(crate) keep: Option<Keep>,
    pub(crate) recommends: Option<Formula<'t>>,
}

impl<'t> PackageFields<'t> {
    ghost use Rattle.std.specs.Prelude.{◌≡◌, [], option_map};
    ghost use Rattle.cudf_document.specs.Working.PackageFields.{package_property_test, wrong_kind, package_fields_view, no_package_fields, with_package_property, package_from};
    ghost use Rattle.cudf_problem.specs.Promises.Views.{package_view};
    ghost use Rattle.cudf_document.specs.Working.Identities.{known_id};
    ghost use Rattle.cudf_document.specs.declared.package.PackageProperty.TheVariants.{Recommends};

    pub(crate) fn new() -> Self
        ensures { package_fields_view result ≡ no_package_fields }
    {
        PackageFields {
            depends: None,
            conflicts: None,
            provides: None,
            installed: None,
            keep: None,
            recommends: None,
        }
    }

    /// Keeps what a property says, if it has a place here, and says what is wrong with it.
    #[inline(always)]
    pub(crate) fn keep(
        &mut self,
        declarations: &Declarations<'_>,
        named: Option<PackageProperty>,
        name: &str,
        text: &'t str,
    ) -> Option<Kind>
        ensures kind { result
            ≡ wrong_kind (package_property_test declarations.now named name.now) text.now }
        ensures values { package_fields_view self.new
            ≡ with_package_property declarations.now named text.now (package_fields_view self.old) }
    {
        match named {
            Some(PackageProperty::Depends) => {
                self.depends = read_formula(text);
                mistyped_unless(self.depends.is_some())
            }
            Some(PackageProperty::Conflicts) => {
                self.conflicts = read_vpkglist(text);
                mistyped_unless(self.conflicts.is_some())
            }
            Some(PackageProperty::Provides) => {
                self.provides = read_veqpkglist(text);
                mistyped_unless(self.provides.is_some())
            }
            Some(PackageProperty::Installed) => {
                self.installed = read_bool(text);
                mistyped_unless(self.installed.is_some())
            }
            Some(PackageProperty::Keep) => {
                self.keep = read_keep(text);
                mistyped_unless(self.keep.is_some())
            }
            Some(PackageProperty::WasInstalled) => None,
            Some(PackageProperty::Recommends) => self.set_recommends(declarations, text),
            None => declarations.wrong_kind(name, text),
        }
    }

    /// Keeps a `recommends`, where that is declared as `vpkgformula`.
    fn set_recommends(&mut self, declarations: &Declarations<'_>, text: &'t str) -> Option<Kind>
        ensures kind { result
            ≡ wrong_kind (package_property_test declarations.now (Some Recommends) []) text.now }
        ensures values { package_fields_view self.new
            ≡ with_package_property declarations.now (Some Recommends) text.now (package_fields_view self.old) }
    {
        if !declarations.has_recommends() {
            return declarations.wrong_kind("recommends", text);
        }
        self.recommends = read_formula(text);
        mistyped_unless(self.recommends.is_some())
    }

    /// The package of these values, if it has a name and a version.
    #[inline(always)]
    pub(crate) fn into_package(self, line: u64, identity: Identity<'t>) -> Option<Package<'t>>
        ensures { option_map package_view result
            ≡ option_map (package_from line (package_fields_view self.entry)) (known_id identity.entry) }
    {
        let (name, version) = identity.id()?;
        Some(Package {
            line,
            name,
            version,
            depends: self.depends.unwrap_or(Formula::always()),
            conflicts: self.conflicts.unwrap_or(VpkgList::empty()),
            provides: self.provides.unwrap_or(VpkgList::empty()),
            installed: self.installed.unwrap_or(false),
            keep: self.keep.unwrap_or(Keep::Nothing),
            recommends: self.recommends,
        })
    }
}

/// What a package stanza says of its name and version, read once.
#[derive(Clone, Copy)]
pub(crate) struct Identity<'a> {
    /// What the first `package` says, where that is a name.
    pub(crate) name: Option<&'a str>,
    /// What the first `version` says, where that is a version.
    pub(crate) version: Option<u64>,
    /// The line of the first `version`, whatever it says.
    pub(crate) version_line: Option<u64>,
}

impl<'a> Identity<'a> {
    ghost use Rattle.std.specs.Prelude.{◌≡◌, option_map};
    ghost use Rattle.cudf_text.specs.Promises.Views.{stanza_view};
    ghost use Rattle.cudf_document.specs.Working.Identities.{IsIdentity, known_id};

    pub(crate) fn of(stanza: &StanzaRef<'a>) -> Self
        ensures { IsIdentity result (stanza_view stanza.now).properties }
    {
        let name = package_name(stanza);
        match first_property_named(stanza, "version") {
            Some(version) => Identity {
                name,
                version: read_posint(version.value),
                version_line: Some(version.line),
            },
            None => Identity {
                name,
                version: None,
                version_line: None,
            },
        }
    }

    /// The name and the version, if there are both.
    pub(crate) fn id(self) -> Option<(&'a str, u64)>
        ensures { option_map (λ id. (id.0.now, id.1)) result ≡ known_id self.entry }
    {
        Some((self.name?, self.version?))
    }
}

/// The name and the version of a package, where both are of their types.
pub(crate) fn id_of<'t>(stanza: &StanzaRef<'t>) -> Option<(&'t str, u64)>
    ensures { option_map (λ id. (id.0.now, id.1)) result ≡ id_of (stanza_view stanza.now) }
{
    match postmark_of(stanza) {
        Some(Postmark::Package) => Identity::of(stanza).id(),
        _ => None,
    }
}

/// The name of a package, where its first `package` is one.
fn package_name<'a>(stanza: &StanzaRef<'a>) -> Option<&'a str>
    ensures { option_copied result ≡ value_of name_value (codes "package") (stanza_view stanza.now).properties }
{
    match first_property_named(stanza, "package") {
        Some(property) => read_name(property.value),
        None => None,
    }
}

/// The text without the blanks round it, where that is a package's name.
pub(crate) fn read_name(text: &str) -> Option<&str>
    ensures { option_copied result ≡ name_value text.now }
{
    let name = trim(text);
    if is_pkgname(name) { Some(name) } else { None }
}

/// A property that CUDF defines for packages, but name and version, or `recommends`.
#[derive(Clone, Copy)]
pub(crate) enum PackageProperty {
    Depends,
    Conflicts,
    Provides,
    Installed,
    Keep,
    WasInstalled,
    Recommends,
}

/// The property of this name, if CUDF defines it for packages or it is `recommends`.
#[inline(always)]
pub(crate) fn package_property_named(name: &str) -> Option<PackageProperty>
    ensures { result ≡ package_property_named name.now }
{
    match name {
        "depends" => Some(PackageProperty::Depends),
        "conflicts" => Some(PackageProperty::Conflicts),
        "provides" => Some(PackageProperty::Provides),
        "installed" => Some(PackageProperty::Installed),
        "keep" => Some(PackageProperty::Keep),
        "was-installed" => Some(PackageProperty::WasInstalled),
        "recommends" => Some(PackageProperty::Recommends),
        _ => None,
    }
}
