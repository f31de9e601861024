//! Prints the line of a faulty document, where the solution has packages that it doesn't install, and which line of which
//! file another line is about; texts that an input or a caller wrote, so that a line stays one line.
ghost use Rattle.std.specs.Prelude.{option_map, ◌++◌, codes, ◌≡◌, option_and_then, ◌<◌, [], ◌∷◌, length, nat_lt, take, IfSome, MatchOption};
ghost use Rattle.std.specs.Str.{chars};
ghost use Rattle.cudf_text.specs.Faults.{fault_text};
ghost use Rattle.cudf_document.specs.Promises.Views.{detail_view};
ghost use Rattle.cudf_device.specs.Promises.PaperInside.{Says};
ghost use Rattle.cudf_check.specs.Naming.{named_before, numbered};
ghost use Rattle.cudf_check.specs.Working.Named.{origin_view, detailed_style, line_at, listed_by};
ghost use Rattle.cudf_check.specs.Explanations.{detail_added, listed_text, said_of};
ghost use Rattle.cudf_check.specs.Report.{faulty};
ghost use Rattle.cudf_check.specs.Styles.{of_problem};
ghost use Rattle.cudf_check.specs.Shown.{byte_digits, clipped, escaped, hexadecimal, hexadecimal_digit, shown};

use crate::lines::detail::print_added;
use crate::naming::{Origin, line_in};
use crate::report::Document;
use cudf_device::{Paper, Sink};
use cudf_document::Detail;
use cudf_text::Fault;

/// Prints the file and the number of a line, where the file is named, before all else.
pub(crate) fn print_file_prefix<W: Sink>(
    paper: &mut Paper<'_, W>,
    origin: Option<Origin<'_>>,
    line: u64,
)
    ensures { Says W.state paper.old paper.new (named_before (option_map origin_view origin.entry) line) }
{
    if let Some(named) = origin {
        print_shown(paper, named.file);
        paper.text(":");
        paper.number(line_in(origin, line));
        paper.text(": ");
    }
}

/// Prints the number of a line, where no file is named.
pub(crate) fn print_numbered<W: Sink>(
    paper: &mut Paper<'_, W>,
    origin: Option<Origin<'_>>,
    line: u64,
)
    ensures { Says W.state paper.old paper.new (numbered (option_map origin_view origin.entry) line) }
{
    if origin.is_none() {
        paper.text(" line ");
        paper.number(line);
    }
}

/// Prints, after whose it is, which fault it is, with the detail.
pub(crate) fn print_fault<W: Sink>(
    paper: &mut Paper<'_, W>,
    origin: Option<Origin<'_>>,
    fault: Fault,
    detail: Option<Detail<'_>>,
)
    ensures { let o = option_map origin_view origin.entry in
        Says W.state paper.old paper.new (numbered o fault.line ++ codes ": " ++ fault_text fault.kind ++ detail_added o (option_map detail_view detail.entry)) }
{
    print_numbered(paper, origin, fault.line);
    paper.text(": ");
    paper.text(fault.kind.text());
    print_added(paper, origin, detail);
}

/// Prints the line of a faulty document, with the detail.
pub(crate) fn print_faulty<W: Sink>(
    paper: &mut Paper<'_, W>,
    document: Document<'_, '_>,
    fault: Fault,
    detail: Option<Detail<'_>>,
)
    ensures { Says W.state paper.old paper.new
        (faulty (detailed_style (option_map origin_view document.entry.origin) (option_map detail_view detail.entry)) of_problem document.entry.whose.now fault).text }
{
    print_file_prefix(paper, document.origin, fault.line);
    paper.text(document.whose);
    print_fault(paper, document.origin, fault, detail);
    paper.text("\n");
}

/// The lines of the solution's first stanzas of packages, by the places of these.
#[derive(Clone, Copy)]
pub(crate) struct StanzaLines<'x> {
    /// The solution's file, where lines name it.
    pub(crate) origin: Option<Origin<'x>>,
    /// For each package of the problem, if there is such a stanza; after the last of these there is none.
    pub(crate) lines: &'x [Option<u64>],
}

/// The line of the package at a place, if there is one.
fn line_at(lines: &[Option<u64>], place: Option<u64>) -> Option<u64>
    ensures { result ≡ option_and_then (line_at lines.now) place }
{
    *lines.get((place? as usize).checked_sub(1)?)?
}

/// Prints where the solution has the package at a place, if there is one.
pub(crate) fn print_listed<W: Sink>(
    paper: &mut Paper<'_, W>,
    listed: StanzaLines<'_>,
    place: Option<u64>,
)
    ensures { Says W.state paper.old paper.new (said_of (listed_by (option_map origin_view listed.entry.origin) listed.entry.lines.now) place) }
{
    print_line(paper, listed.origin, line_at(listed.lines, place));
}

/// Prints that the solution has a stanza of a package on this line, if it has one.
fn print_line<W: Sink>(paper: &mut Paper<'_, W>, origin: Option<Origin<'_>>, line: Option<u64>)
    ensures { Says W.state paper.old paper.new (listed_text (option_map origin_view origin.entry) line) }
{
    if let Some(line) = line {
        paper.text(", not installed on line ");
        paper.number(line_in(origin, line));
        paper.text(" of the solution");
    }
}

/// How many characters are shown of a value.
const MOST_SHOWN: usize = 60;

/// Prints a digit of a hexadecimal number in upper case.
fn print_digit<W: Sink>(paper: &mut Paper<'_, W>, digit: u8)
    requires { digit < 16 }
    ensures { Says W.state paper.old paper.new (hexadecimal_digit digit ∷ []) }
{
    let letter = if digit < 10 {
        b'0' + digit
    } else {
        b'A' + (digit - 10)
    };
    let mut room = [0; 4];
    paper.text(char::from(letter).encode_utf8(&mut room));
}

/// Prints a byte by two digits, as `0A`.
pub(crate) fn print_byte<W: Sink>(paper: &mut Paper<'_, W>, byte: u8)
    ensures { Says W.state paper.old paper.new (byte_digits byte) }
{
    print_digit(paper, byte / 16);
    print_digit(paper, byte % 16);
}

/// Prints a number in upper case hexadecimal, without leading zeros.
fn print_hexadecimal<W: Sink>(paper: &mut Paper<'_, W>, number: u8)
    ensures { Says W.state paper.old paper.new (hexadecimal number) }
{
    if number >= 16 {
        print_digit(paper, number / 16);
    }
    print_digit(paper, number % 16);
}

/// Prints a control character by its number, as `\u{1F}`.
fn print_escaped<W: Sink>(paper: &mut Paper<'_, W>, control: u8)
    ensures { Says W.state paper.old paper.new (escaped control) }
{
    paper.text("\\u{");
    print_hexadecimal(paper, control);
    paper.text("}");
}

/// The first control character, with what is before it and after it.
fn first_control(text: &str) -> Option<(&str, u8, &str)>
    ensures shown { MatchOption result (shown text.now ≡ text.now) (λ p. shown text.now ≡ p.0.now ++ escaped p.1 ++ shown p.2.now) }
    ensures shorter { IfSome result (λ p. length p.2.now < length text.now) }
{
    let Some(start) = text.find(|c: char| c.is_control()) else {
        return None;
    };
    let (before, rest) = text.split_at(start);
    let mut chars = rest.chars();
    match chars.next() {
        Some(control) => Some((before, control as u8, chars.as_str())),
        None => None,
    }
}

/// Prints a text with each control character as `\u{H}`. What is between these is printed in one piece.
pub(crate) fn print_shown<W: Sink>(paper: &mut Paper<'_, W>, text: &str)
    ensures { Says W.state paper.old paper.new (shown text.now) }
{
    let mut rest = text;
    while let Some((before, control, after)) = first_control(rest) {
        paper.text(before);
        print_escaped(paper, control);
        rest = after;
    }
    paper.text(rest);
}

/// The first 60 characters, and whether there are more.
fn clip(text: &str) -> (&str, bool)
    ensures front { chars result.0.now ≡ take 60 (chars text.now) }
    ensures more { result.1 ≡ nat_lt 60 (length (chars text.now)) }
{
    let mut chars = text.chars();
    for _ in 0..MOST_SHOWN {
        let _ = chars.next();
    }
    let rest = chars.as_str();
    let (front, _) = text.split_at(text.len() - rest.len());
    (front, !rest.is_empty())
}

/// Prints the first 60 characters of a text as `print_shown` does, and `..` where there are more.
pub(crate) fn print_clipped<W: Sink>(paper: &mut Paper<'_, W>, text: &str)
    ensures { Says W.state paper.old paper.new (clipped text.now) }
{
    let (front, is_cut) = clip(text);
    print_shown(paper, front);
    if is_cut {
        paper.text("..");
    }
}
