//! Prints what a document says beside its first fault.
ghost use Rattle.std.specs.Prelude.{◌≡◌, ◌++◌, codes, decimal, option_map, is_some};
ghost use Rattle.cudf_problem.specs.Documents.{postmark_named};
ghost use Rattle.cudf_document.specs.Details.{invalid_byte, name_on, undeclared, mistyped};
ghost use Rattle.cudf_document.specs.Promises.Views.{detail_view};
ghost use Rattle.cudf_device.specs.Promises.PaperInside.{Says};
ghost use Rattle.cudf_check.specs.Explanations.{entry_added, format_text, value_added, unparted_added, misplaced_text, detail_added, detail_text};
ghost use Rattle.cudf_check.specs.Naming.{line_in};
ghost use Rattle.cudf_check.specs.Shown.{clipped};
ghost use Rattle.cudf_check.specs.Working.Named.{origin_view};

use crate::lines::naming::{print_byte, print_clipped};
use crate::naming::{Origin, line_in};
use cudf_device::{Paper, Sink};
use cudf_document::{Detail, Format};

/// Prints two texts.
fn print_texts<W: Sink>(paper: &mut Paper<'_, W>, first: &str, second: &str)
    ensures { Says W.state paper.old paper.new (first.now ++ second.now) }
{
    paper.text(first);
    paper.text(second);
}

/// Prints a text and a number.
fn print_numbered<W: Sink>(paper: &mut Paper<'_, W>, text: &str, number: u64)
    ensures { Says W.state paper.old paper.new (text.now ++ decimal number) }
{
    paper.text(text);
    paper.number(number);
}

/// Prints the number of an entry of a list.
fn print_entry<W: Sink>(paper: &mut Paper<'_, W>, entry: Option<u64>)
    ensures { Says W.state paper.old paper.new (entry_added entry) }
{
    if let Some(entry) = entry {
        print_numbered(paper, ", entry ", entry);
    }
}

/// Prints a value, unless it is empty.
fn print_value<W: Sink>(paper: &mut Paper<'_, W>, text: &str)
    ensures { Says W.state paper.old paper.new (value_added text.now) }
{
    if !text.is_empty() {
        paper.text(": ");
        print_clipped(paper, text);
    }
}

/// Prints that the value of a property isn't of its type, with the value or the entry that isn't.
fn print_mistyped<W: Sink>(
    paper: &mut Paper<'_, W>,
    name: &str,
    word: &str,
    entry: Option<u64>,
    text: &str,
)
    ensures { Says W.state paper.old paper.new (detail_text None (mistyped name.now word.now entry text.now)) }
{
    paper.text(name);
    paper.text(" is no ");
    paper.text(word);
    print_entry(paper, entry);
    print_value(paper, text);
}

/// Prints which byte of a line isn't UTF-8.
fn print_invalid<W: Sink>(paper: &mut Paper<'_, W>, place: u64, byte: u8)
    ensures { Says W.state paper.old paper.new (detail_text None (invalid_byte place byte)) }
{
    print_numbered(paper, "byte ", place);
    paper.text(" of the line is ");
    print_byte(paper, byte);
}

/// Prints the text of a line that isn't what it has to be.
pub(crate) fn print_line_text<W: Sink>(paper: &mut Paper<'_, W>, text: &str)
    ensures { Says W.state paper.old paper.new (codes "it is " ++ clipped text.now) }
{
    paper.text("it is ");
    print_clipped(paper, text);
}

/// What is reported of a file that isn't UTF-8.
pub(crate) fn format_text(format: Format) -> &'static str
    ensures { result.now ≡ format_text format }
{
    match format {
        Format::Gzip => "it is a gzip file",
        Format::Bzip2 => "it is a bzip2 file",
        Format::Xz => "it is an xz file",
        Format::Zstandard => "it is a Zstandard file",
        Format::Utf16 => "it is a UTF-16 file",
    }
}

/// Prints where the first package of a name and a version is.
fn print_package<W: Sink>(paper: &mut Paper<'_, W>, name: &str, version: u64, line: u64)
    ensures { Says W.state paper.old paper.new (name.now ++ codes " " ++ decimal version ++ codes " stands on line " ++ decimal line) }
{
    paper.text(name);
    print_numbered(paper, " ", version);
    print_numbered(paper, " stands on line ", line);
}

/// Whether a stanza can begin with a property of this name.
fn is_postmark(name: &str) -> bool
    ensures { result ≡ is_some (postmark_named name.now) }
{
    matches!(name, "preamble" | "package" | "request")
}

/// Prints, after the name of a postmark, that a stanza may begin with it.
fn print_missing_blank<W: Sink>(paper: &mut Paper<'_, W>, name: &str)
    ensures { Says W.state paper.old paper.new (unparted_added name.now) }
{
    if is_postmark(name) {
        paper.text(", a blank line may be missing before it");
    }
}

/// Prints where the first property of a name is.
fn print_name_on<W: Sink>(paper: &mut Paper<'_, W>, name: &str, line: u64)
    ensures { Says W.state paper.old paper.new (detail_text None (name_on name.now line)) }
{
    paper.text(name);
    print_numbered(paper, " stands on line ", line);
    print_missing_blank(paper, name);
}

/// Prints that nothing declares a name.
fn print_undeclared<W: Sink>(paper: &mut Paper<'_, W>, name: &str)
    ensures { Says W.state paper.old paper.new (detail_text None (undeclared name.now)) }
{
    print_texts(paper, "nothing declares ", name);
    print_missing_blank(paper, name);
}

/// Prints of which name a property has no meaning, or before which one a blank line is missing.
fn print_misplaced<W: Sink>(paper: &mut Paper<'_, W>, name: &str)
    ensures { Says W.state paper.old paper.new (misplaced_text name.now) }
{
    if is_postmark(name) {
        print_texts(paper, "a blank line is missing before ", name);
    } else {
        print_texts(paper, name, " has no meaning here");
    }
}

/// Prints a detail. Lines are counted in the file.
fn print_detail<W: Sink>(paper: &mut Paper<'_, W>, origin: Option<Origin<'_>>, detail: Detail<'_>)
    ensures { Says W.state paper.old paper.new (detail_text (option_map origin_view origin.entry) (detail_view detail.entry)) }
{
    match detail {
        Detail::InvalidByte { place, byte } => print_invalid(paper, place, byte),
        Detail::OfFormat(format) => paper.text(format_text(format)),
        Detail::ByteOrderMark => paper.text("it begins with a byte order mark"),
        Detail::LineText { text } => print_line_text(paper, text),
        Detail::NoBytes => paper.text("it is empty"),
        Detail::BeginsWith { name } => print_texts(paper, "it begins with ", name),
        Detail::RequestOn { line } => {
            print_numbered(paper, "the request stands on line ", line_in(origin, line));
        }
        Detail::NameOn { name, line } => print_name_on(paper, name, line_in(origin, line)),
        Detail::Undeclared { name } => print_undeclared(paper, name),
        Detail::Mistyped {
            name,
            word,
            entry,
            text,
        } => print_mistyped(paper, name, word, entry, text),
        Detail::Misdeclared { declaration } => print_numbered(paper, "declaration ", declaration),
        Detail::PackageOn {
            name,
            version,
            line,
        } => print_package(paper, name, version, line_in(origin, line)),
        Detail::Lacking { name } => print_texts(paper, "it lacks ", name),
        Detail::Misplaced { name } => print_misplaced(paper, name),
    }
}

/// Prints what is added to the line of a fault.
pub(crate) fn print_added<W: Sink>(
    paper: &mut Paper<'_, W>,
    origin: Option<Origin<'_>>,
    detail: Option<Detail<'_>>,
)
    ensures { Says W.state paper.old paper.new (detail_added (option_map origin_view origin.entry) (option_map detail_view detail.entry)) }
{
    if let Some(detail) = detail {
        paper.text("; ");
        print_detail(paper, origin, detail);
    }
}
