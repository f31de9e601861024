//! Reading formulas.
ghost use Rattle.std.specs.Prelude.{◌≡◌, option_map};
ghost use Rattle.cudf_text.specs.Chars.{trim};
ghost use Rattle.cudf_value.specs.Promises.Views.{formula_view};
ghost use Rattle.cudf_value.specs.Formulas.{formula};

use crate::formula::{Formula, is_formula_text};
use crate::number::lies_in_memory;
use cudf_text::trim;

/// Reads a `vpkgformula` (CUDF 2.0, the type library), with blanks or none round it: nothing, or clauses between commas,
/// each of atoms between `|`. Takes no memory.
///
/// `None` is answered where the whole text is no `vpkgformula`.
pub fn read_formula(text: &str) -> Option<Formula<'_>>
    ensures { option_map formula_view result ≡ formula (trim text.now) }
{
    let text = trim(text);
    lies_in_memory(text);
    if is_formula_text(text) {
        Some(Formula { text })
    } else {
        None
    }
}
