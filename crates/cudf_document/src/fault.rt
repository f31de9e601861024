//! Faults, alone and compared, and why a document isn't read.
ghost use Rattle.std.specs.Prelude.{◌≡◌, Some, None, if◌then◌else◌};
ghost use Rattle.cudf_document.specs.Faults.{lesser, least, fault_if};
ghost use Rattle.cudf_document.specs.Working.PackageFields.{fault_on};
ghost use Rattle.cudf_document.specs.declared.fault.ReadError.TheVariants.{Memory};

use cudf_text::{Fault, Kind};
use std::alloc::AllocError;
use std::error::Error;
use std::fmt;

/// The one that is on the earlier line, or on one line of the lesser kind.
pub(crate) fn lesser(one: Option<Fault>, other: Option<Fault>) -> Option<Fault>
    ensures { result ≡ lesser one other }
{
    match (one, other) {
        (Some(f), Some(g)) => Some(if g.precedes(f) { g } else { f }),
        (Some(f), None) => Some(f),
        (None, g) => g,
    }
}

/// Puts the fault in the place of the first one, if it comes before that. Where there is no fault,
/// as mostly, nothing is copied.
pub(crate) fn keep_lesser(first: &mut Option<Fault>, fault: Option<Fault>)
    ensures { first.new ≡ lesser first.old fault }
{
    if fault.is_some() {
        *first = lesser(*first, fault);
    }
}

/// A fault of this kind on this line, where the test says so.
pub(crate) fn fault_if(test: bool, line: u64, kind: Kind) -> Option<Fault>
    ensures { result ≡ least (fault_if test line kind) }
{
    if test {
        Some(Fault { line, kind })
    } else {
        None
    }
}

/// The fault of the kind on this line, if there is a kind.
pub(crate) fn fault_on(line: u64, kind: Option<Kind>) -> Option<Fault>
    ensures { result ≡ fault_on line kind }
{
    kind.map(|kind| Fault { line, kind })
}

/// `E9` where a value isn't of its type.
pub(crate) fn mistyped_unless(fits: bool) -> Option<Kind>
    ensures { result ≡ (if fits then None else Some Kind.E9) }
{
    if fits { None } else { Some(Kind::E9) }
}

/// Why a document has no value.
#[derive(Clone, Copy, Debug)]
pub enum ReadError {
    /// The document's first fault: by line, then by kind.
    Fault(Fault),
    /// A growth was refused.
    Memory(AllocError),
}

/// As `line 12: E13 no request`, or `out of memory`.
impl fmt::Display for ReadError {
    ghost use Rattle.std.specs.Prelude.{Some};
    ghost use Rattle.cudf_document.specs.Promises.Errors.{error_text};

    ghost output = { λ error. Some (error_text error) };

    fn fmt<W: fmt::Write>(&self, f: &mut fmt::Formatter<W>) -> fmt::Result {
        match self {
            ReadError::Fault(fault) => write!(f, "{fault}"),
            ReadError::Memory(_) => write!(f, "out of memory"),
        }
    }
}

impl Error for ReadError {}

impl From<AllocError> for ReadError {
    ghost from_gives = { λ error result. result ≡ Memory error };

    fn from(error: AllocError) -> ReadError {
        ReadError::Memory(error)
    }
}
