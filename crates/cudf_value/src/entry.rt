//! The entries of lists, one after the other.
ghost use Rattle.std.specs.Prelude.{◌≡◌, not, ◌||◌, ◌∷◌, ◌<◌, length, option_map, option_copied, IfSome, IsTrue};
ghost use Rattle.std.specs.Str.{byte};
ghost use Rattle.cudf_value.specs.Parts.{some_if, parts};
ghost use Rattle.cudf_value.specs.Promises.Views.{vpkg_view};
ghost use Rattle.cudf_value.specs.Vpkgs.{is_exact};
ghost use Rattle.cudf_value.specs.Working.Rests.{parts_after};
ghost use Rattle.cudf_value.specs.Working.Entries.{vpkg_part, first_part, ends_entry, entry_end};

use crate::number::cut;
use crate::vpkg::{Vpkg, is_exact, parse_veqpkg, parse_vpkg, split_vpkg};
use cudf_text::scan::{after, first_byte};
use cudf_text::trim;

/// The first entry, and what follows its comma, if there is one. A vpkg is read in one pass,
/// with the blanks round it.
#[inline(always)]
pub(crate) fn first_entry(text: &str, exact: bool) -> (Option<Vpkg<'_>>, Option<&str>)
    ensures part { parts (byte ",") text.now ≡ first_part text.now ∷ parts_after (byte ",") (option_copied result.1) }
    ensures entry { option_map vpkg_view result.0 ≡ vpkg_part exact (first_part text.now) }
    ensures shorter { IfSome result.1 (λ rest. length rest.now < length text.now) }
{
    if let Some((vpkg, rest)) = split_vpkg(text) {
        if ends_entry(rest) {
            return (exact_where_asked(vpkg, exact), after_comma(rest));
        }
    }
    first_entry_slow(text, exact)
}

/// The vpkg, where it is exact or needn't be.
fn exact_where_asked(vpkg: Vpkg<'_>, exact: bool) -> Option<Vpkg<'_>>
    ensures { option_map vpkg_view result ≡ some_if (not exact || is_exact vpkg.entry.bound) (vpkg_view vpkg.entry) }
{
    if !exact || is_exact(vpkg.bound) {
        Some(vpkg)
    } else {
        None
    }
}

/// Whether an entry ends here.
fn ends_entry(text: &str) -> bool
    ensures { result ≡ ends_entry text.now }
{
    text.is_empty() || first_byte(text) == b','
}

/// What follows the comma here, if it isn't the end.
fn after_comma(text: &str) -> Option<&str>
    requires { IsTrue (ends_entry text.now) }
    ensures { text.now ≡ entry_end (option_copied result) }
{
    if text.is_empty() {
        None
    } else {
        Some(after(text, 1))
    }
}

/// The first entry, of any form, and what follows its comma; `None` where the text before the comma is no vpkg. Its
/// callee isn't inlined, so that `first_entry` stays fast.
#[inline(always)]
fn first_entry_slow(text: &str, exact: bool) -> (Option<Vpkg<'_>>, Option<&str>)
    ensures part { parts (byte ",") text.now ≡ first_part text.now ∷ parts_after (byte ",") (option_copied result.1) }
    ensures entry { option_map vpkg_view result.0 ≡ vpkg_part exact (first_part text.now) }
    ensures shorter { IfSome result.1 (λ rest. length rest.now < length text.now) }
{
    let (part, next) = cut(text, b',');
    (read_entry(part, exact), next)
}

/// The vpkg or veqpkg, with blanks or none round it.
#[inline(never)]
fn read_entry(part: &str, exact: bool) -> Option<Vpkg<'_>>
    ensures { option_map vpkg_view result ≡ vpkg_part exact part.now }
{
    let text = trim(part);
    if exact {
        parse_veqpkg(text)
    } else {
        parse_vpkg(text)
    }
}
