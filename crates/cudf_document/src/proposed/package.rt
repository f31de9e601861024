//! The values of a solution's package, and its extra properties, which strictly have to be declared.
ghost use Rattle.std.specs.Prelude.{◌≡◌, [], ℕ, List, bytes_eq, IfOk};
ghost use Rattle.std.specs.List.{flat_map, list_any};
ghost use Rattle.cudf_text.specs.Promises.Views.{stanza_view};
ghost use Rattle.cudf_problem.specs.Documents.{with_earlier};
ghost use Rattle.cudf_problem.specs.declared.problem.Mode.TheVariants.{Strict};
ghost use Rattle.cudf_document.specs.Faults.{least};
ghost use Rattle.cudf_document.specs.SolutionFaults.{value_faults};
ghost use Rattle.cudf_document.specs.Working.SolutionPackages.{solution_property_named, solution_package_view, solution_package_of};

use crate::declarations::{Declarations, declare_first, is_reserved, names_of};
use crate::fault::{fault_if, fault_on, keep_lesser, mistyped_unless};
use crate::names::SeenNames;
use crate::package::read_name;
use cudf_problem::{Mode, Problem, ProposedPackage};
use cudf_text::{Fault, Kind, PropertyRef, StanzaRef};
use cudf_value::{read_bool, read_posint};
use std::alloc::{AllocError, Global};

/// A property of a solution's package that counts.
#[derive(Clone, Copy)]
pub(crate) enum SolutionProperty {
    Package,
    Version,
    Installed,
}

fn solution_property_named(name: &str) -> Option<SolutionProperty>
    ensures { result ≡ solution_property_named name.now }
{
    match name {
        "package" => Some(SolutionProperty::Package),
        "version" => Some(SolutionProperty::Version),
        "installed" => Some(SolutionProperty::Installed),
        _ => None,
    }
}

/// What the properties of a package stanza say, each value where it is of its type.
#[derive(Drop)]
pub(crate) struct SolutionPackage<'a> {
    pub(crate) said: ProposedPackage<'a>,
    is_named: bool,
    pub(crate) has_version: bool,
    has_installed: bool,
}

impl<'a> SolutionPackage<'a> {
    ghost use Rattle.std.specs.Prelude.{◌≡◌, [], Some};
    ghost use Rattle.cudf_text.specs.Promises.Views.{property_view};
    ghost use Rattle.cudf_document.specs.Working.PackageFields.{fault_on};
    ghost use Rattle.cudf_document.specs.Working.SolutionPackages.{solution_property_named, solution_package_view, solution_package_of, with_solution_property, solution_kind, with_property, solution_kind_of};
    ghost use Rattle.cudf_document.specs.declared.proposed.package.SolutionProperty.TheVariants as counted;

    fn new() -> Self
        ensures { solution_package_view result ≡ solution_package_of [] }
    {
        SolutionPackage {
            said: ProposedPackage {
                name: None,
                version: None,
                installed: None,
            },
            is_named: false,
            has_version: false,
            has_installed: false,
        }
    }

    /// Keeps what a property says, if it counts and is the first of its name, and answers its fault.
    fn read(&mut self, property: &PropertyRef<'a>) -> Option<Fault>
        ensures fault { result
            ≡ fault_on property.now.line (solution_kind_of (property_view property.now) (solution_package_view self.old)) }
        ensures entry { solution_package_view self.new
            ≡ with_property (property_view property.now) (solution_package_view self.old) }
    {
        let text = property.value;
        let kind = match solution_property_named(property.name) {
            Some(SolutionProperty::Package) => self.read_name(text),
            Some(SolutionProperty::Version) => self.read_version(text),
            Some(SolutionProperty::Installed) => self.read_installed(text),
            None => None,
        };
        fault_on(property.line, kind)
    }

    fn read_name(&mut self, text: &'a str) -> Option<Kind>
        ensures kind { result ≡ solution_kind (Some counted.Package) text.now (solution_package_view self.old) }
        ensures entry { solution_package_view self.new
            ≡ with_solution_property (Some counted.Package) text.now (solution_package_view self.old) }
    {
        if self.is_named {
            return Some(Kind::E7);
        }
        self.is_named = true;
        self.said.name = read_name(text);
        mistyped_unless(self.said.name.is_some())
    }

    fn read_version(&mut self, text: &str) -> Option<Kind>
        ensures kind { result ≡ solution_kind (Some counted.Version) text.now (solution_package_view self.old) }
        ensures entry { solution_package_view self.new
            ≡ with_solution_property (Some counted.Version) text.now (solution_package_view self.old) }
    {
        if self.has_version {
            return Some(Kind::E7);
        }
        self.has_version = true;
        self.said.version = read_posint(text);
        mistyped_unless(self.said.version.is_some())
    }

    fn read_installed(&mut self, text: &str) -> Option<Kind>
        ensures kind { result
            ≡ solution_kind (Some counted.Installed) text.now (solution_package_view self.old) }
        ensures entry { solution_package_view self.new
            ≡ with_solution_property (Some counted.Installed) text.now (solution_package_view self.old) }
    {
        if self.has_installed {
            return Some(Kind::E7);
        }
        self.has_installed = true;
        self.said.installed = read_bool(text);
        mistyped_unless(self.said.installed.is_some())
    }
}

/// The first fault of the properties of a solution's package, and what they say.
pub(crate) fn read_solution_package<'a>(
    stanza: &StanzaRef<'a>,
) -> (Option<Fault>, SolutionPackage<'a>)
    ensures fault { result.0
        ≡ least (flat_map value_faults (with_earlier [] (stanza_view stanza.now).properties)) }
    ensures entry { solution_package_view result.1 ≡ solution_package_of (stanza_view stanza.now).properties }
{
    let mut first = None;
    let mut entry = SolutionPackage::new();
    for property in &stanza.properties {
        let fault = entry.read(property);
        keep_lesser(&mut first, fault);
    }
    (first, entry)
}

/// What is declared after some stanzas of a solution. Leniently nothing is kept of it.
#[derive(Drop)]
pub(crate) struct DeclaredNames<'p, 'a> {
    pub(crate) mode: Mode,
    /// The names that the problem declares.
    pub(crate) of_problem: SeenNames<'p>,
    /// What the solution's first stanza declares.
    pub(crate) own: Declarations<'a>,
}

impl<'p, 'a> DeclaredNames<'p, 'a> {
    ghost use Rattle.std.specs.Prelude.{◌≡◌, ℕ, List, [], ◌∷◌, ◌++◌, not, Some, IfOk, OnOk};
    ghost use Rattle.std.specs.List.{flat_map};
    ghost use Rattle.cudf_text.specs.Stanzas.{PlainStanza};
    ghost use Rattle.cudf_text.specs.Promises.Views.{stanza_view};
    ghost use Rattle.cudf_text.specs.declared.fault.Kind.TheVariants.{E8};
    ghost use Rattle.cudf_problem.specs.Documents.{is_empty};
    ghost use Rattle.cudf_problem.specs.declared.problem.Mode.{Mode};
    ghost use Rattle.cudf_problem.specs.declared.problem.Postmark.TheVariants.{Package as PackageMark};
    ghost use Rattle.cudf_document.specs.Faults.{least, fault_if};
    ghost use Rattle.cudf_document.specs.SolutionFaults.{undeclared_in_solution};
    ghost use Rattle.cudf_document.specs.Working.DeclaredNames.{AreExtras, is_extra, names_with};

    /// Before the first stanza.
    pub(crate) fn new(alloc: Global, mode: Mode, problem: &Problem<'p>) -> Result<Self, AllocError>
        ensures { IfOk result (AreExtras mode problem.now.extra_names []) }
    {
        Ok(DeclaredNames {
            mode,
            of_problem: names_in(alloc, mode, problem)?,
            own: Declarations::new(alloc),
        })
    }

    /// Takes what the next stanza declares, if it is the first.
    pub(crate) fn take(
        &mut self,
        alloc: Global,
        is_first: bool,
        stanza: &StanzaRef<'a>,
    ) -> Result<(), AllocError>
        ensures { (mode : Mode) →
            (names : List (List ℕ)) →
            (seen : List PlainStanza) →
            is_first ≡ is_empty seen →
            AreExtras mode names seen self.old →
            OnOk result (AreExtras mode names (seen ++ stanza_view stanza.now ∷ []) self.new) }
    {
        if !is_first {
            return Ok(());
        }
        match self.mode {
            Mode::Lenient => Ok(()),
            Mode::Strict => declare_first(alloc, &mut self.own, stanza),
        }
    }

    /// The first fault of a package's property that isn't declared.
    pub(crate) fn undeclared_fault(&self, stanza: &StanzaRef<'_>) -> Option<Fault>
        ensures { (mode : Mode) →
            (names : List (List ℕ)) →
            (seen : List PlainStanza) →
            AreExtras mode names seen self.now →
            result ≡ least (undeclared_in_solution mode (names_with names seen) (Some PackageMark) (stanza_view stanza.now).properties) }
    {
        match self.mode {
            Mode::Lenient => None,
            Mode::Strict => self.first_undeclared(stanza),
        }
    }

    /// The first E8: a property whose name is neither reserved nor declared.
    fn first_undeclared(&self, stanza: &StanzaRef<'_>) -> Option<Fault>
        ensures { result
            ≡ least (flat_map (λ p. fault_if (not (is_extra self.now p.name)) p.line E8) (stanza_view stanza.now).properties) }
    {
        let mut first = None;
        for property in &stanza.properties {
            let is_undeclared = !self.has(property.name);
            keep_lesser(&mut first, fault_if(is_undeclared, property.line, Kind::E8));
        }
        first
    }

    /// Whether a property of a package may have the name.
    fn has(&self, name: &str) -> bool
        ensures { result ≡ is_extra self.now name.now }
    {
        is_reserved(name) || self.of_problem.contains(name) || self.own.is_declared(name)
    }
}

/// Strictly the names that a problem declares.
fn names_in<'p>(
    alloc: Global,
    mode: Mode,
    problem: &Problem<'p>,
) -> Result<SeenNames<'p>, AllocError>
    ensures { mode ≡ Strict →
        IfOk result (λ names. (name : List ℕ) → list_any (bytes_eq name) names ≡ list_any (bytes_eq name) problem.now.extra_names) }
{
    match mode {
        Mode::Lenient => Ok(SeenNames::new(alloc)),
        Mode::Strict => names_of(alloc, problem.extra_names()),
    }
}
