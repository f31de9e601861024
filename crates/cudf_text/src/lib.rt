//! The text of CUDF 2.0 documents: lines, properties and stanzas, the cut of a problem and its
//! solution in one input, and the solution `FAIL`.
#![tactic(auto)]

ghost use Rattle.cudf_text.specs.Promises.Laws.{LastLineNeedsNoLf, LineEndsAtLf, LinesJoinToText, StanzasHaveProperties};

mod cursor;
mod fault;
mod line;
pub mod scan;
mod source;
mod text;

pub use cursor::{Next, Stanzas};
pub use fault::{Fault, Kind};
pub use line::first_line;
pub use scan::{is_ident, trim};
pub use source::{Room, lend, source_of, stanzas};
pub use text::{
    Property, PropertyRef, Stanza, StanzaRef, Text, TextError, cut_joined, is_fail, read,
};

/// Laws of the definitions that the contracts of this crate cite. The functions do nothing: each
/// contract is a law, proved for every argument.
pub mod laws {
    /// Lines are the text cut after each LF, and a last part without LF is a line where it isn't
    /// empty (CUDF 2.0, syntax of stanzas and properties).
    pub fn lines(line: &[u8], rest: &[u8])
        ensures joined { LinesJoinToText rest.now }
        ensures first { LineEndsAtLf line.now rest.now }
        ensures last { LastLineNeedsNoLf line.now }
    {}

    /// Each stanza has a property at least, and its line is that of the first one (CUDF 2.0, syntax
    /// of stanzas and properties).
    pub fn stanzas(text: &[u8])
        ensures { StanzasHaveProperties text.now }
    {}
}
