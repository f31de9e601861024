//! Reading lists of vpkgs.
ghost use Rattle.std.specs.Prelude.{◌≡◌, option_map};
ghost use Rattle.cudf_text.specs.Chars.{trim};
ghost use Rattle.cudf_value.specs.Promises.Views.{list_view};
ghost use Rattle.cudf_value.specs.Formulas.{vpkglist, veqpkglist};

use crate::number::lies_in_memory;
use crate::vpkglist::{VpkgList, is_veqpkglist_text, is_vpkglist_text};
use cudf_text::trim;

/// Reads a `vpkglist` (CUDF 2.0, the type library), with blanks or none round it: nothing, or vpkgs between commas. Takes
/// no memory.
///
/// `None` is answered where the whole text is no `vpkglist`.
pub fn read_vpkglist(text: &str) -> Option<VpkgList<'_>>
    ensures { option_map list_view result ≡ vpkglist (trim text.now) }
{
    let text = trim(text);
    lies_in_memory(text);
    if is_vpkglist_text(text) {
        Some(VpkgList { text })
    } else {
        None
    }
}

/// Reads a `veqpkglist` (CUDF 2.0, the type library), with blanks or none round it: nothing, or veqpkgs between commas.
/// Takes no memory.
///
/// `None` is answered where the whole text is no `veqpkglist`.
pub fn read_veqpkglist(text: &str) -> Option<VpkgList<'_>>
    ensures { option_map list_view result ≡ veqpkglist (trim text.now) }
{
    let text = trim(text);
    lies_in_memory(text);
    if is_veqpkglist_text(text) {
        Some(VpkgList { text })
    } else {
        None
    }
}
