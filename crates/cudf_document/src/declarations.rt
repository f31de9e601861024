//! The extra package properties that a document declares: its preamble, the names that each package has to have, and
//! the look-up of an enum's idents.
ghost use Rattle.indexmap.specs.IndexSet.{insert_key};
ghost use Rattle.std.specs.Prelude.{◌≡◌, false, not, ◌&&◌, ◌||◌, [], ◌∷◌, ◌++◌, map, take, length, filter_map, find, is_some, option_map, option_to_list, unwrap_or, bytes_eq, IfOk, OnOk, IsTrue, if◌then◌else◌, Some, None};
ghost use Rattle.std.specs.List.{list_any};
ghost use Rattle.cudf_text.specs.Promises.Views.{property_view, stanza_view};
ghost use Rattle.cudf_value.specs.Promises.Views.{formula_view};
ghost use Rattle.cudf_value.specs.Promises.Types.{type_view, declaration_view};
ghost use Rattle.cudf_value.specs.Parts.{look_up};
ghost use Rattle.cudf_problem.specs.Preamble.{reserved_names, is_declarable, declared_by, recommends_in, recommends_default, declared, declared_after};
ghost use Rattle.cudf_problem.specs.declared.problem.Postmark.TheVariants.{Preamble as PreambleMark};
ghost use Rattle.cudf_document.specs.Working.Tests.{declared_test};
ghost use Rattle.cudf_document.specs.ProblemFaults.{required_names};
ghost use Rattle.cudf_document.specs.Working.Judging.{name_without_default, all_declarable, is_declared, properties_faults, added_by};
ghost use Rattle.cudf_document.specs.Working.PackageFields.{wrong_kind, fault_on};
ghost use Rattle.cudf_document.specs.Working.Enums.{AreIdents, AreWords};
ghost use Rattle.cudf_document.specs.Faults.{least};
ghost use Rattle.cudf_document.specs.Working.ProblemBuilders.{preamble_kind_after};
ghost use Rattle.cudf_document.specs.Working.Walks.{texts};

use crate::fault::{lesser, mistyped_unless};
use crate::names::{SeenNames, is_preamble};
use cudf_problem::Mode;
use cudf_text::{Fault, Kind, PropertyRef, StanzaRef, trim};
use cudf_value::{Declaration, Formula, ValueType, is_of_type, read_declarations, read_formula};
use indexmap::IndexMap;
use std::alloc::{AllocError, Global};
use std::marker::Model;

/// How many declarations are looked through one by one at most, which is faster than a look-up by
/// the name's hash.
const MAX_FEW: usize = 8;

/// Declarations by their names, in the order in which they came.
#[derive(Drop)]
pub(crate) struct Declarations<'t> {
    known: IndexMap<&'t str, Declared<'t>>,
}

impl<'t> Model for Declarations<'t> {
    ghost use Rattle.std.specs.Prelude.{◌≡◌, List, map};
    ghost use Rattle.cudf_value.specs.Declarations.{PlainDeclaration};

    ghost Value = { List PlainDeclaration };

    ghost view = { λ d. map (λ entry. entry.1) d.known.entries };

    ghost invariant = { λ d. map (λ entry. entry.0.now) d.known.entries ≡ map (λ entry. entry.1.name) d.known.entries };
}

impl<'t> Declarations<'t> {
    pub(crate) fn new(alloc: Global) -> Self
        ensures { result ≡ [] }
    {
        Declarations {
            known: IndexMap::new(alloc),
        }
    }

    /// Forgets all declarations.
    pub(crate) fn clear(&mut self)
        ensures { self.new ≡ [] }
    {
        self.known.clear();
    }

    /// The declaration of this name, if there is one.
    fn find(&self, name: &str) -> Option<&Declared<'t>>
        ensures { option_map (λ d. d.now) result
            ≡ find (λ d. bytes_eq name.now d.name) self.now }
    {
        if self.known.len() <= MAX_FEW {
            return self.known.values().find(|declared| declared.name() == name);
        }
        self.known.get(name)
    }

    /// The type that this name is declared with first.
    pub(crate) fn kind(&self, name: &str) -> Option<&ValueType<'t>>
        ensures { option_map (λ kind. type_view kind.now) result
            ≡ option_map (λ d. d.kind) (find (λ d. bytes_eq name.now d.name) self.now) }
    {
        match self.find(name) {
            Some(declared) => Some(declared.kind()),
            None => None,
        }
    }

    /// What is wrong with a property of this name: it isn't declared, or its value isn't of the
    /// declared type.
    pub(crate) fn wrong_kind(&self, name: &str, text: &str) -> Option<Kind>
        ensures { result ≡ wrong_kind (look_up name.now (map declared_test self.now)) text.now }
    {
        match self.find(name) {
            Some(declared) => mistyped_unless(declared.fits(text)),
            None => Some(Kind::E8),
        }
    }

    /// The declaration of `recommends`, where that is declared as `vpkgformula`.
    fn recommends(&self) -> Option<&Declared<'t>>
        ensures { option_map (λ d. d.now) result ≡ recommends_in self.now }
    {
        match self.find("recommends") {
            Some(declared) if declared.is_formula() => Some(declared),
            _ => None,
        }
    }

    /// Whether `recommends` is declared as `vpkgformula`.
    pub(crate) fn has_recommends(&self) -> bool
        ensures { result ≡ is_some (recommends_in self.now) }
    {
        self.recommends().is_some()
    }

    /// The declared default of `recommends`, where that is declared as `vpkgformula`.
    pub(crate) fn recommends_default(&self) -> Option<Formula<'t>>
        ensures { option_map formula_view result ≡ recommends_default self.now }
    {
        match self.recommends() {
            Some(declared) => declared.default_formula(),
            None => None,
        }
    }

    /// The names that each package has to have.
    pub(crate) fn required(&self, alloc: Global, mode: Mode) -> Result<Vec<&'t str>, AllocError>
        ensures { IfOk result (λ names. map (λ name. name.now) names.items ≡ required_names mode self.now) }
    {
        match mode {
            Mode::Lenient => Ok(Vec::new(alloc)),
            Mode::Strict => self.without_default(alloc),
        }
    }

    /// The names of the declarations without a default, in order.
    fn without_default(&self, alloc: Global) -> Result<Vec<&'t str>, AllocError>
        ensures { IfOk result (λ names.
            map (λ name. name.now) names.items ≡ filter_map name_without_default self.now) }
    {
        let mut names = Vec::new(alloc);
        for declared in self.known.values() {
            push_required(&mut names, declared)?;
        }
        Ok(names)
    }

    /// Their names.
    pub(crate) fn names(&self, alloc: Global) -> Result<Vec<&'t str>, AllocError>
        ensures { IfOk result (λ names. map (λ name. name.now) names.items ≡ map (λ d. d.name) self.now) }
    {
        let mut names = Vec::new(alloc);
        for declared in self.known.values() {
            names.push(declared.name())?;
        }
        Ok(names)
    }

    /// Adds what a `property` value declares and answers true, or adds nothing where it is a bad
    /// declaration.
    pub(crate) fn add(&mut self, alloc: Global, text: &'t str) -> Result<bool, AllocError>
        ensures is_good { IfOk result (λ is_good.
            is_good ≡ is_some (declared_by self.old text.now)) }
        ensures added { OnOk result (self.new
            ≡ self.old ++ unwrap_or (declared_by self.old text.now) []) }
    {
        match read_declarations(alloc, text)? {
            Some(declarations) => self.add_all(alloc, declarations),
            None => Ok(false),
        }
    }

    /// Adds all of them and answers true, or adds none where one of them isn't allowed here.
    fn add_all(
        &mut self,
        alloc: Global,
        declarations: Vec<Declaration<'t>>,
    ) -> Result<bool, AllocError>
        ensures is_good { IfOk result (λ is_good.
            is_good ≡ all_declarable self.old (map declaration_view declarations.entry.items)) }
        ensures added { OnOk result (self.new
            ≡ (if all_declarable self.old (map declaration_view declarations.entry.items) then self.old
            ++ map declaration_view declarations.entry.items else self.old)) }
    {
        let before = self.len();
        let is_good = self.insert_all(alloc, declarations)?;
        if !is_good {
            self.truncate(before);
        }
        Ok(is_good)
    }

    fn len(&self) -> usize
        ensures { result ≡ length self.now }
    {
        self.known.len()
    }

    fn truncate(&mut self, n: usize)
        ensures { self.new ≡ take n self.old }
    {
        self.known.truncate(n);
    }

    /// Adds those that are allowed here, and says whether all are.
    fn insert_all(
        &mut self,
        alloc: Global,
        declarations: Vec<Declaration<'t>>,
    ) -> Result<bool, AllocError>
        ensures are_all { IfOk result (λ are_all.
            are_all ≡ all_declarable self.old (map declaration_view declarations.entry.items)) }
        ensures added { IfOk result (λ are_all.
            IsTrue are_all → self.new ≡ self.old ++ map declaration_view declarations.entry.items) }
        ensures kept { OnOk result (take (length self.old) self.new ≡ self.old) }
    {
        let mut are_all = true;
        for declaration in declarations {
            let is_added = self.insert(alloc, declaration)?;
            are_all = both(are_all, is_added);
        }
        Ok(are_all)
    }

    /// Adds the declaration and answers true, if it is allowed here.
    pub(crate) fn insert(
        &mut self,
        alloc: Global,
        declaration: Declaration<'t>,
    ) -> Result<bool, AllocError>
        ensures is_added { IfOk result (λ is_added.
            is_added ≡ is_declarable (self.old, declaration_view declaration.entry)) }
        ensures added { IfOk result (λ is_added.
            self.new ≡ (if is_added then self.old
            ++ declaration_view declaration.entry ∷ [] else self.old)) }
    {
        if self.can_declare(declaration.name) {
            self.push(Declared::new(alloc, declaration)?)?;
            Ok(true)
        } else {
            Ok(false)
        }
    }

    /// Whether the name can be declared here.
    fn can_declare(&self, name: &str) -> bool
        ensures { result ≡ not (list_any (bytes_eq name.now) reserved_names || is_declared self.now name.now) }
    {
        !(is_reserved(name) || self.is_declared(name))
    }

    pub(crate) fn is_declared(&self, name: &str) -> bool
        ensures { result ≡ is_declared self.now name.now }
    {
        self.find(name).is_some()
    }

    fn push(&mut self, declared: Declared<'t>) -> Result<(), AllocError>
        requires { is_declared self.old declared.name ≡ false }
        ensures { OnOk result (self.new ≡ self.old ++ declared.entry ∷ []) }
    {
        self.known.insert(declared.name(), declared)?;
        Ok(())
    }
}

/// Adds the name of a declared property, if it has no default.
fn push_required<'t>(names: &mut Vec<&'t str>, declared: &Declared<'t>) -> Result<(), AllocError>
    ensures { OnOk result (map (λ name. name.now) names.new.items
        ≡ map (λ name. name.now) names.old.items ++ option_to_list (name_without_default declared.now)) }
{
    if declared.has_default() {
        return Ok(());
    }
    Ok(names.push(declared.name())?)
}

// for the prover: a branch in the caller would double its goals
fn both(one: bool, other: bool) -> bool
    ensures { result ≡ (one && other) }
{
    one && other
}

/// Whether the name can't be declared.
pub(crate) fn is_reserved(name: &str) -> bool
    ensures { result ≡ list_any (bytes_eq name.now) reserved_names }
{
    matches!(
        name,
        "package"
            | "version"
            | "depends"
            | "conflicts"
            | "provides"
            | "installed"
            | "was-installed"
            | "keep"
            | "preamble"
            | "request"
    )
}

/// A declaration.
#[derive(Drop)]
pub(crate) struct Declared<'t> {
    declaration: Declaration<'t>,
    /// The idents of an enum, so that a value isn't compared with each.
    idents: SeenNames<'t>,
}

impl<'t> Model for Declared<'t> {
    ghost use Rattle.cudf_value.specs.Promises.Types.{type_view, declaration_view};
    ghost use Rattle.cudf_value.specs.Declarations.{PlainDeclaration};
    ghost use Rattle.cudf_document.specs.Working.Enums.{AreIdents};

    ghost Value = { PlainDeclaration };

    ghost view = { λ d. declaration_view d.declaration };

    ghost invariant = { λ d. AreIdents (type_view d.declaration.kind) d.idents };
}

impl<'t> Declared<'t> {
    ghost use Rattle.std.specs.Prelude.{◌≡◌, is_some, option_and_then, option_map, IfOk};
    ghost use Rattle.cudf_text.specs.Chars.{trim};
    ghost use Rattle.cudf_value.specs.Types.{is_of_type};
    ghost use Rattle.cudf_value.specs.Promises.Views.{formula_view};
    ghost use Rattle.cudf_value.specs.Promises.Types.{type_view, declaration_view};
    ghost use Rattle.cudf_problem.specs.Preamble.{is_formula_type};
    ghost use Rattle.cudf_document.specs.Working.Reads.{formula_value};

    pub(crate) fn new(alloc: Global, declaration: Declaration<'t>) -> Result<Self, AllocError>
        ensures { IfOk result (λ d. d ≡ declaration_view declaration.entry) }
    {
        let idents = idents_of(alloc, &declaration.kind)?;
        Ok(Declared {
            declaration,
            idents,
        })
    }

    pub(crate) fn name(&self) -> &'t str
        ensures { result.now ≡ self.now.name }
    {
        self.declaration.name
    }

    /// The declared type.
    pub(crate) fn kind(&self) -> &ValueType<'t>
        ensures { type_view result.now ≡ self.now.kind }
    {
        &self.declaration.kind
    }

    pub(crate) fn has_default(&self) -> bool
        ensures { result ≡ is_some self.now.default }
    {
        self.declaration.has_default()
    }

    /// Whether the text, but for blanks round it, is of the declared type.
    pub(crate) fn fits(&self, text: &str) -> bool
        ensures { result ≡ is_of_type self.now.kind (trim text.now) }
    {
        match &self.declaration.kind {
            ValueType::Choice(_) => self.idents.contains(trim(text)),
            kind => is_of_type(kind, trim(text)),
        }
    }

    /// Whether the type is `vpkgformula`.
    pub(crate) fn is_formula(&self) -> bool
        ensures { result ≡ is_formula_type self.now.kind }
    {
        matches!(&self.declaration.kind, ValueType::Formula)
    }

    /// The default, where it is of type `vpkgformula`, whatever the declared type.
    pub(crate) fn default_formula(&self) -> Option<Formula<'t>>
        ensures { option_map formula_view result ≡ option_and_then formula_value self.now.default }
    {
        match self.declaration.default {
            Some(text) => read_formula(text),
            None => None,
        }
    }
}

/// The idents of an enum, and of another type none.
fn idents_of<'t>(alloc: Global, kind: &ValueType<'t>) -> Result<SeenNames<'t>, AllocError>
    ensures { IfOk result (AreIdents (type_view kind.now)) }
{
    match kind {
        ValueType::Choice(idents) => names_of(alloc, idents),
        _ => Ok(SeenNames::new(alloc)),
    }
}

/// These names, to be looked up.
pub(crate) fn names_of<'t>(alloc: Global, words: &[&'t str]) -> Result<SeenNames<'t>, AllocError>
    ensures { IfOk result (AreWords words.now) }
{
    let mut names = SeenNames::new(alloc);
    for word in words {
        names.insert(word)?;
    }
    Ok(names)
}

/// The first fault of a preamble's properties; what they declare takes the place of what was
/// declared before.
pub(crate) fn read_preamble<'t>(
    alloc: Global,
    names: &mut SeenNames<'t>,
    declarations: &mut Declarations<'t>,
    stanza: &StanzaRef<'t>,
) -> Result<Option<Fault>, AllocError>
    ensures fault { IfOk result (λ fault.
        fault ≡ least (properties_faults [] (Some PreambleMark) (stanza_view stanza.now).properties)) }
    ensures declared { OnOk result (declarations.new
        ≡ declared_after [] (stanza_view stanza.now).properties) }
{
    names.clear(alloc);
    declarations.clear();
    let mut first = None;
    for property in &stanza.properties {
        let fault = read_property(alloc, names, declarations, property)?;
        first = lesser(first, fault);
    }
    Ok(first)
}

/// Adds what a property declares, and answers its fault.
fn read_property<'t>(
    alloc: Global,
    names: &mut SeenNames<'t>,
    declarations: &mut Declarations<'t>,
    property: &PropertyRef<'t>,
) -> Result<Option<Fault>, AllocError>
    ensures fault { IfOk result (λ fault.
        fault
        ≡ fault_on property.now.line (preamble_kind_after declarations.old names.old (property_view property.now))) }
    ensures names { OnOk result (names.new ≡ insert_key bytes_eq names.old property.now.name.now) }
    ensures declared { OnOk result (declarations.new
        ≡ declarations.old ++ added_by declarations.old (property_view property.now)) }
{
    let is_new = names.insert(property.name)?;
    if property.name == "property" {
        let is_good = declarations.add(alloc, property.value)?;
        Ok(fault_unless(is_good, property.line, Kind::E10))
    } else {
        Ok(fault_unless(is_new, property.line, Kind::E7))
    }
}

/// A fault of this kind on this line, unless all is well.
fn fault_unless(is_well: bool, line: u64, kind: Kind) -> Option<Fault>
    ensures { result ≡ fault_on line (if is_well then None else Some kind) }
{
    if is_well {
        None
    } else {
        Some(Fault { line, kind })
    }
}

/// Replaces the declarations by those of a document with this first stanza: a preamble's, otherwise none.
pub(crate) fn declare_first<'t>(
    alloc: Global,
    declarations: &mut Declarations<'t>,
    stanza: &StanzaRef<'t>,
) -> Result<(), AllocError>
    ensures { OnOk result (declarations.new ≡ declared (stanza_view stanza.now ∷ [])) }
{
    declarations.clear();
    if is_preamble(stanza) {
        declare_all(alloc, declarations, &stanza.properties)?;
    }
    Ok(())
}

/// Adds what these properties of a preamble declare, each in its turn; a bad declaration adds nothing.
fn declare_all<'t>(
    alloc: Global,
    declarations: &mut Declarations<'t>,
    properties: &[PropertyRef<'t>],
) -> Result<(), AllocError>
    ensures { OnOk result (declarations.new
        ≡ declared_after declarations.old (map property_view properties.now)) }
{
    for property in properties {
        declare(alloc, declarations, property)?;
    }
    Ok(())
}

/// Adds what a property of a preamble declares.
pub(crate) fn declare<'t>(
    alloc: Global,
    declarations: &mut Declarations<'t>,
    property: &PropertyRef<'t>,
) -> Result<(), AllocError>
    ensures { OnOk result (declarations.new
        ≡ declarations.old ++ added_by declarations.old (property_view property.now)) }
{
    if property.name == "property" {
        declarations.add(alloc, property.value)?;
    }
    Ok(())
}

/// Sets `required` to the names that each package needs, after the first stanza; does nothing after others.
pub(crate) fn require<'t>(
    alloc: Global,
    required: &mut Vec<&'t str>,
    is_first: bool,
    declarations: &Declarations<'t>,
    mode: Mode,
) -> Result<(), AllocError>
    ensures first { IsTrue is_first → OnOk result (texts required.new.items ≡ required_names mode declarations.now) }
    ensures later { IsTrue (not is_first) → OnOk result (required.new ≡ required.old) }
{
    if !is_first {
        return Ok(());
    }
    *required = declarations.required(alloc, mode)?;
    Ok(())
}

/// Whether one of these names isn't among those of a stanza. (As the names differ, it looks at most at one more than
/// the stanza has.)
pub(crate) fn lacks_one(required: &[&str], seen: &SeenNames<'_>) -> bool
    ensures { result ≡ list_any (λ name. not (list_any (bytes_eq name.now) seen.now)) required.now }
{
    for name in required {
        if !seen.contains(name) {
            return true;
        }
    }
    false
}
