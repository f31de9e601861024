//! What is kept of a problem on the walk: its request and, unless it is only judged, its packages, with copies of their
//! names.
ghost use Rattle.std.specs.Prelude.{◌≡◌, ◌++◌, map, option_map, option_to_list, IfOk, OnOk, ◌≤◌, length, is_some, IsTrue};
ghost use Rattle.cudf_problem.specs.Promises.Views.{package_view};

use crate::declarations::Declarations;
use crate::names::SeenNames;
use crate::package::{Identity, read_properties};
use crate::problem::read_request;
use crate::problem::walk::ProblemState;
use cudf_problem::{Package, Problem, Request};
use cudf_text::{Fault, StanzaRef};
use std::alloc::{AllocError, Global};
use std::{mem, str};

/// The packages and the first request of the stanzas so far.
#[derive(Drop)]
pub(crate) struct ProblemBuilder<'a> {
    /// Whether packages are kept.
    pub(crate) keeps: bool,
    /// Where the names of packages are copied to, if they are.
    pub(crate) names: Option<Names<'a>>,
    pub(crate) packages: Vec<Package<'a>>,
    pub(crate) request: Option<Request<'a>>,
}

impl<'a> ProblemBuilder<'a> {
    ghost use Rattle.std.specs.Prelude.{◌≡◌, ◌++◌, ◌∷◌, [], Bool, List, Some, true, false, map, option_map, option_to_list, is_some, if◌then◌else◌, IfOk, OnOk};
    ghost use Rattle.cudf_text.specs.Stanzas.{PlainProperty, PlainStanza};
    ghost use Rattle.cudf_text.specs.Promises.Views.{stanza_view};
    ghost use Rattle.cudf_document.specs.Faults.{least};
    ghost use Rattle.cudf_problem.specs.Documents.{postmark, is_request};
    ghost use Rattle.cudf_problem.specs.Promises.Packages.{is_package};
    ghost use Rattle.cudf_problem.specs.Preamble.{declared};
    ghost use Rattle.cudf_document.specs.Working.Judging.{properties_faults};
    ghost use Rattle.cudf_problem.specs.Promises.Views.{package_view, request_view};
    ghost use Rattle.cudf_problem.specs.declared.problem.Postmark.TheVariants.{Package as PackageMark, Request as RequestMark};
    ghost use Rattle.cudf_document.specs.Working.Kept.{AreParts, IsReady, gathered_of};
    ghost use Rattle.cudf_document.specs.Working.Identities.{IsIdentity};
    ghost use Rattle.cudf_document.specs.Working.ProblemBuilders.{problem_of};
    ghost use Rattle.cudf_document.specs.Working.SeenNames.{AreNames};

    /// Before the first stanza.
    pub(crate) fn new(alloc: Global, keeps: bool, names: Option<Names<'a>>) -> Self
        ensures { AreParts keeps [] result }
    {
        ProblemBuilder {
            keeps,
            names,
            packages: Vec::new(alloc),
            request: None,
        }
    }

    /// The identity of a package, with a copy of its name where names are copied.
    #[inline(always)]
    pub(crate) fn named(
        &mut self,
        alloc: Global,
        identity: Identity<'a>,
    ) -> Result<Identity<'a>, AllocError>
        ensures same { (all : List PlainProperty) →
            IsIdentity identity.entry all → IfOk result (λ i. IsIdentity i all) }
        ensures kept { (keeps : Bool) →
            (before : List PlainStanza) →
            AreParts keeps before self.old →
            OnOk result (AreParts keeps before self.new) }
    {
        match (&mut self.names, identity.name) {
            (Some(names), Some(name)) => Ok(Identity {
                name: Some(names.copy(alloc, name)?),
                ..identity
            }),
            _ => Ok(identity),
        }
    }

    /// Takes a package with this identity, and answers the first fault of its properties.
    pub(crate) fn take_package(
        &mut self,
        alloc: Global,
        names: &mut SeenNames<'a>,
        declarations: &Declarations<'_>,
        identity: Identity<'a>,
        stanza: &StanzaRef<'a>,
    ) -> Result<Option<Fault>, AllocError>
        requires { IsIdentity identity (stanza_view stanza.now).properties }
        ensures fault { IfOk result (λ fault.
            fault
            ≡ least (properties_faults declarations.now (Some PackageMark) (stanza_view stanza.now).properties)) }
        // The names are those of its properties.
        ensures names { OnOk result (AreNames names.new (stanza_view stanza.now).properties) }
        ensures kept { (keeps : Bool) →
            (before : List PlainStanza) →
            postmark (stanza_view stanza.now) ≡ Some PackageMark →
            declarations.now ≡ declared before →
            AreParts keeps before self.old →
            OnOk result (AreParts keeps (before ++ stanza_view stanza.now ∷ []) self.new) }
    {
        let (fault, fields) = read_properties(alloc, names, declarations, identity, stanza)?;
        let read = fields.into_package(stanza.line, identity);
        self.keep_package(read)?;
        Ok(fault)
    }

    /// Keeps the package, if there is one and packages are kept.
    #[inline(always)]
    fn keep_package(&mut self, read: Option<Package<'a>>) -> Result<(), AllocError>
        ensures packages { self.old.keeps ≡ true →
            OnOk result (map package_view self.new.packages.items
            ≡ map package_view self.old.packages.items ++ option_to_list (option_map package_view read.entry)) }
        ensures request { OnOk result (self.new.request ≡ self.old.request) }
        ensures keeps { OnOk result (self.new.keeps ≡ self.old.keeps) }
    {
        if self.keeps {
            push_some(&mut self.packages, read)
        } else {
            Ok(())
        }
    }

    /// Takes a request, and answers the first fault of its properties.
    pub(crate) fn take_request(
        &mut self,
        alloc: Global,
        names: &mut SeenNames<'a>,
        stanza: &StanzaRef<'a>,
    ) -> Result<Option<Fault>, AllocError>
        ensures fault { IfOk result (λ fault.
            fault ≡ least (properties_faults [] (Some RequestMark) (stanza_view stanza.now).properties)) }
        ensures kept { (keeps : Bool) →
            (before : List PlainStanza) →
            postmark (stanza_view stanza.now) ≡ Some RequestMark →
            AreParts keeps before self.old →
            OnOk result (AreParts keeps (before ++ stanza_view stanza.now ∷ []) self.new) }
    {
        let (fault, request) = read_request(alloc, names, stanza)?;
        self.keep_first(request);
        Ok(fault)
    }

    /// Of any other stanza nothing is kept. (Does nothing: its contract is a law.)
    pub(crate) fn pass(&self, stanza: &StanzaRef<'a>)
        ensures { (keeps : Bool) →
            (before : List PlainStanza) →
            is_package (stanza_view stanza.now) ≡ false →
            is_request (stanza_view stanza.now) ≡ false →
            AreParts keeps before self.now →
            AreParts keeps (before ++ stanza_view stanza.now ∷ []) self.now }
    {}

    /// Keeps a request, if it is the first.
    fn keep_first(&mut self, request: Request<'a>)
        ensures request { option_map request_view self.new.request
            ≡ (if is_some (option_map request_view self.old.request) then option_map request_view self.old.request else Some (request_view request.entry)) }
        ensures packages { self.new.packages ≡ self.old.packages }
        ensures keeps { self.new.keeps ≡ self.old.keeps }
    {
        if self.request.is_none() {
            self.request = Some(request);
        }
    }

    /// The problem, after a walk that found no error.
    pub(crate) fn into_problem(
        self,
        alloc: Global,
        walk: ProblemState<'a>,
    ) -> Result<Problem<'a>, AllocError>
        requires { IsReady walk self }
        ensures { IfOk result (λ problem. problem ≡ problem_of (gathered_of walk.entry self.entry)) }
    {
        let recommends = walk.declarations.recommends_default();
        let extra_names = walk.declarations.names(alloc)?;
        let request = self.request.unwrap();
        Ok(Problem::new(self.packages, request, recommends, extra_names, walk.ids))
    }
}

/// Adds the package, if there is one.
#[inline(always)]
fn push_some<'t>(
    packages: &mut Vec<Package<'t>>,
    added: Option<Package<'t>>,
) -> Result<(), AllocError>
    ensures { OnOk result (map package_view packages.new.items
        ≡ map package_view packages.old.items ++ option_to_list (option_map package_view added.entry)) }
{
    match added {
        Some(package) => Ok(packages.push(package)?),
        None => Ok(()),
    }
}

/// The bytes of the first block.
const FIRST: usize = 1024;

/// Room for copies of names: a block of them, and more room.
#[derive(Drop)]
pub struct NameRoom {
    bytes: Vec<u8>,
    more: Option<Box<NameRoom>>,
}

impl NameRoom {
    ghost use Rattle.std.specs.Prelude.{◌≡◌, []};
    ghost use Rattle.cudf_document.specs.Promises.NameRooms.{first_block};

    /// Without names (own). Takes no memory.
    pub fn new(alloc: Global) -> Self
        ensures { first_block result ≡ [] }
    {
        NameRoom {
            bytes: Vec::new(alloc),
            more: None,
        }
    }
}

/// Puts copies of names into a room, where they stay as long as it is lent. A block is never moved: each is at least
/// twice as long as the one before it.
#[derive(Drop)]
pub(crate) struct Names<'t> {
    /// What is after the last block.
    room: Option<&'t mut NameRoom>,
    /// The bytes of that block that are free.
    free: &'t mut [u8],
    /// The bytes of the next block.
    size: usize,
    ghost more: { IsTrue (is_some room) },
}

impl<'t> Names<'t> {
    /// What the room holds is dropped when the first name is copied into it.
    pub(crate) fn new(room: &'t mut NameRoom) -> Self {
        Names {
            room: Some(room),
            free: &mut [],
            size: FIRST,
        }
    }

    /// A copy of the name, after those before it.
    pub(crate) fn copy(&mut self, alloc: Global, name: &'t str) -> Result<&'t str, AllocError>
        ensures { IfOk result (λ copy. copy.now ≡ name.now) }
    {
        self.make_place(alloc, name.len())?;
        let free = mem::take(&mut self.free);
        let (place, free) = free.split_at_mut(name.len());
        self.free = free;
        place.copy_from_slice(name.as_bytes());
        Ok(str::from_utf8(place).unwrap_or(name))
    }

    /// Makes so many bytes free, where they aren't.
    fn make_place(&mut self, alloc: Global, len: usize) -> Result<(), AllocError>
        ensures { OnOk result (len ≤ length self.new.free.now) }
    {
        if self.free.len() < len {
            self.grow(alloc, len)?;
        }
        Ok(())
    }

    fn grow(&mut self, alloc: Global, least: usize) -> Result<(), AllocError>
        ensures { OnOk result (least ≤ length self.new.free.now) }
    {
        let size = self.size.max(least);
        let bytes = vec![in alloc; 0u8; size]?;
        let more = Box::new(alloc, NameRoom::new(alloc))?;
        let room = self.room.take().unwrap();
        room.bytes = bytes;
        room.more = Some(more);
        let NameRoom { bytes, more } = room;
        self.free = bytes.as_mut_slice();
        self.room = more.as_deref_mut();
        self.size = size.saturating_mul(2);
        Ok(())
    }
}
