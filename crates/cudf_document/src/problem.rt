//! How a problem is read, stanza by stanza or held, and its request.
ghost use Rattle.std.specs.Prelude.{◌≡◌, [], IfOk, IfErr, true, OnOk, Some};
ghost use Rattle.cudf_text.specs.Promises.Views.{text_view, stanza_view};
ghost use Rattle.cudf_problem.specs.Universe.{plain_problem, request_of};
ghost use Rattle.cudf_problem.specs.Promises.Views.{request_view};
ghost use Rattle.cudf_problem.specs.declared.problem.Postmark.TheVariants.{Request as RequestMark};
ghost use Rattle.cudf_document.specs.Faults.{least};
ghost use Rattle.cudf_document.specs.Promises.Faults.{IsFirstFault};
ghost use Rattle.cudf_document.specs.ProblemFaults.{problem_faults};
ghost use Rattle.cudf_document.specs.Working.Kept.{AreParts};
ghost use Rattle.cudf_document.specs.Working.Walks.{IsSoFar, IsWhole};
ghost use Rattle.cudf_document.specs.Working.Judging.{properties_faults};
ghost use Rattle.cudf_document.specs.Working.RequestFields.{request_property_named, request_property_test, mistyped_kind};

pub(crate) mod keeping;
pub(crate) mod walk;

use crate::declarations::require;
use crate::fault::{ReadError, fault_on, keep_lesser, mistyped_unless};
use crate::names::SeenNames;
use crate::problem::keeping::{NameRoom, Names, ProblemBuilder};
use crate::problem::walk::{Ahead, ProblemState, walk_all};
use cudf_problem::{Mode, Problem, Request};
use cudf_text::{Fault, Kind, PropertyRef, StanzaRef, Stanzas, Text, lend};
use cudf_value::{VpkgList, read_vpkglist};
use std::alloc::{AllocError, Global};

/// The first fault of a problem that is read in this mode, if it has one: by line, then by kind. It is
/// never E1 or E15, and E14 and E16 strictly alone.
///
/// # Errors
///
/// `AllocError` where memory is refused, whatever the problem says.
pub fn first_fault(
    alloc: Global,
    stanzas: Stanzas<'_>,
    mode: Mode,
) -> Result<Option<Fault>, AllocError>
    ensures { IfOk result (λ fault. fault ≡ least (problem_faults stanzas.entry mode)) }
{
    let (walk, _parts) = walk_all(alloc, stanzas, false, None, mode)?;
    Ok(walk.first)
}

/// Reads a problem (CUDF 2.0, syntax of documents) stanza by stanza: no text is held. The names of its packages are copied
/// to `names`.
///
/// # Errors
///
/// The problem's first fault: by line, then by kind; never E1 or E15, and E14 and E16 strictly alone. Or
/// `Memory` where a growth is refused.
pub fn problem_of<'t>(
    alloc: Global,
    stanzas: Stanzas<'t>,
    names: &'t mut NameRoom,
    mode: Mode,
) -> Result<Problem<'t>, ReadError>
    // The problem has no fault,
    ensures sound { IfOk result (λ _. problem_faults stanzas.entry mode ≡ []) }
    // and this is what it says.
    ensures problem { IfOk result (λ p. p ≡ plain_problem stanzas.entry) }
    // The fault is the first of its faults.
    ensures fault { IfErr result (IsFirstFault (problem_faults stanzas.entry mode)) }
{
    let (walk, parts) = walk_all(alloc, stanzas, true, Some(Names::new(names)), mode)?;
    if let Some(fault) = walk.first {
        return Err(ReadError::Fault(fault));
    }
    Ok(parts.into_problem(alloc, walk)?)
}

/// Reads a problem (CUDF 2.0, syntax of documents).
///
/// # Errors
///
/// The problem's first fault: by line, then by kind; never E1 or E15, and E14 and E16 strictly alone. Or
/// `Memory` where a growth is refused.
pub fn read_problem<'t, 'a>(
    alloc: Global,
    text: &'t Text<'a>,
    mode: Mode,
) -> Result<Problem<'t>, ReadError>
    // The problem has no fault,
    ensures sound { IfOk result (λ _. problem_faults (text_view text.now) mode ≡ []) }
    // and this is what it says.
    ensures problem { IfOk result (λ p. p ≡ plain_problem (text_view text.now)) }
    // The fault is the first of its faults.
    ensures fault { IfErr result (IsFirstFault (problem_faults (text_view text.now) mode)) }
{
    let (walk, parts) = walk_held(alloc, text, mode)?;
    if let Some(fault) = walk.first {
        return Err(ReadError::Fault(fault));
    }
    Ok(parts.into_problem(alloc, walk)?)
}

/// Walks over all stanzas.
fn walk_held<'t, 'a>(
    alloc: Global,
    text: &'t Text<'a>,
    mode: Mode,
) -> Result<(ProblemState<'t>, ProblemBuilder<'t>), AllocError>
    ensures { IfOk result (λ r.
        IsWhole mode (λ ss. AreParts true ss r.1) r.0 (text_view text.now)) }
{
    let mut walk: ProblemState<'t> = ProblemState::new(alloc);
    let mut parts: ProblemBuilder<'t> = ProblemBuilder::new(alloc, true, None);
    take_lent(alloc, text, &mut walk, &mut parts, mode)?;
    walk.end(text.fault, text.lines);
    Ok((walk, parts))
}

/// Takes all stanzas, each as it is lent.
fn take_lent<'t, 'a>(
    alloc: Global,
    text: &'t Text<'a>,
    walk: &mut ProblemState<'t>,
    parts: &mut ProblemBuilder<'t>,
    mode: Mode,
) -> Result<(), AllocError>
    ensures { IsSoFar mode (λ ss. AreParts true ss parts.old) walk.old [] →
        OnOk result (IsSoFar mode (λ ss. AreParts true ss parts.new) walk.new (text_view text.now).stanzas) }
{
    let mut lent = StanzaRef {
        line: 0,
        last: 0,
        properties: Vec::new(alloc),
    };
    let mut required: Vec<&'t str> = Vec::new(alloc);
    let mut is_first = true;
    for stanza in &text.stanzas {
        lend(stanza, &mut lent)?;
        let ahead = Ahead {
            is_first,
            required: &required,
            mode,
        };
        walk.take(alloc, parts, &lent, ahead)?;
        require(alloc, &mut required, is_first, &walk.declarations, mode)?;
        is_first = false;
    }
    Ok(())
}

/// A property of a request that counts.
#[derive(Clone, Copy)]
pub(crate) enum RequestProperty {
    Install,
    Remove,
    Upgrade,
}

/// The property of this name, if it is one of a request's lists.
fn request_property_named(name: &str) -> Option<RequestProperty>
    ensures { result ≡ request_property_named name.now }
{
    match name {
        "install" => Some(RequestProperty::Install),
        "remove" => Some(RequestProperty::Remove),
        "upgrade" => Some(RequestProperty::Upgrade),
        _ => None,
    }
}

/// What the properties of a request say, each list where it is there and of its type.
#[derive(Drop)]
pub(crate) struct RequestFields<'t> {
    install: Option<VpkgList<'t>>,
    remove: Option<VpkgList<'t>>,
    upgrade: Option<VpkgList<'t>>,
}

impl<'t> RequestFields<'t> {
    ghost use Rattle.std.specs.Prelude.{◌≡◌, [], bytes_eq, IfOk, OnOk};
    ghost use Rattle.indexmap.specs.IndexSet.{insert_key};
    ghost use Rattle.cudf_text.specs.Promises.Views.{property_view};
    ghost use Rattle.cudf_document.specs.Working.PackageFields.{fault_on};
    ghost use Rattle.cudf_problem.specs.Promises.Views.{request_view};
    ghost use Rattle.cudf_document.specs.Working.RequestFields.{request_property_named, request_property_test, mistyped_kind, request_fields_view, request_fields_of, with_request_property, request_kind_after, request_fields_after, request_with};

    fn new() -> Self
        ensures { request_fields_view result ≡ request_fields_of [] }
    {
        RequestFields {
            install: None,
            remove: None,
            upgrade: None,
        }
    }

    /// Answers a property's fault, and keeps what it says, if it is the first of its name.
    fn read(
        &mut self,
        names: &mut SeenNames<'t>,
        property: &PropertyRef<'t>,
    ) -> Result<Option<Fault>, AllocError>
        ensures fault { IfOk result (λ fault.
            fault
            ≡ fault_on property.now.line (request_kind_after names.old (property_view property.now))) }
        ensures names { OnOk result (names.new
            ≡ insert_key bytes_eq names.old property.now.name.now) }
        ensures fields { OnOk result (request_fields_view self.new
            ≡ request_fields_after names.old (property_view property.now) (request_fields_view self.old)) }
    {
        if !names.insert(property.name)? {
            return Ok(fault_on(property.line, Some(Kind::E7)));
        }
        let kind = self.keep(property.name, property.value);
        Ok(fault_on(property.line, kind))
    }

    /// Keeps what a property says, if it has a place here, and says what is wrong with it.
    fn keep(&mut self, name: &str, text: &'t str) -> Option<Kind>
        ensures kind { result
            ≡ mistyped_kind (request_property_test (request_property_named name.now)) text.now }
        ensures fields { request_fields_view self.new
            ≡ with_request_property (request_property_named name.now) text.now (request_fields_view self.old) }
    {
        match request_property_named(name) {
            Some(RequestProperty::Install) => {
                self.install = read_vpkglist(text);
                mistyped_unless(self.install.is_some())
            }
            Some(RequestProperty::Remove) => {
                self.remove = read_vpkglist(text);
                mistyped_unless(self.remove.is_some())
            }
            Some(RequestProperty::Upgrade) => {
                self.upgrade = read_vpkglist(text);
                mistyped_unless(self.upgrade.is_some())
            }
            None => None,
        }
    }

    fn into_request(self, line: u64) -> Request<'t>
        ensures { request_view result ≡ request_with line (request_fields_view self.entry) }
    {
        Request {
            line,
            install: self.install.unwrap_or(VpkgList::empty()),
            remove: self.remove.unwrap_or(VpkgList::empty()),
            upgrade: self.upgrade.unwrap_or(VpkgList::empty()),
        }
    }
}

/// The first fault of a request's properties, and what it asks for.
pub(crate) fn read_request<'a>(
    alloc: Global,
    names: &mut SeenNames<'a>,
    stanza: &StanzaRef<'a>,
) -> Result<(Option<Fault>, Request<'a>), AllocError>
    ensures fault { IfOk result (λ r.
        r.0 ≡ least (properties_faults [] (Some RequestMark) (stanza_view stanza.now).properties)) }
    ensures request { IfOk result (λ r. request_view r.1 ≡ request_of (stanza_view stanza.now)) }
{
    names.clear(alloc);
    let mut first = None;
    let mut fields = RequestFields::new();
    for property in &stanza.properties {
        let fault = fields.read(names, property)?;
        keep_lesser(&mut first, fault);
    }
    Ok((first, fields.into_request(stanza.line)))
}
