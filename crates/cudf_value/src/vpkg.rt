//! The types `vpkg` and `veqpkg`, their operators, and how vpkgs, atoms and clauses are printed: spaces round an operator
//! and round `|`.
ghost use Rattle.std.specs.Prelude.{◌≡◌, option_map, length, ◌<◌, ◌≤◌, IfSome, Some};
ghost use Rattle.cudf_text.specs.Chars.{trim};
ghost use Rattle.cudf_value.specs.Promises.Views.{vpkg_view, atom_view, clause_view};
ghost use Rattle.cudf_value.specs.Vpkgs.{vpkg, veqpkg, is_exact, relop_text, relop, meets};
ghost use Rattle.cudf_value.specs.Working.Rests.{BeginsWith, BoundBegins, vpkg_after};
ghost use Rattle.cudf_value.specs.Printing.{vpkg_text, atom_text, clause_text};

use crate::atom::Atom;
use crate::formula::Clause;
use crate::number::parse_posint;
use cudf_text::scan::{Class, first_byte, split_run, trim_start};
use cudf_text::trim;
use itoa::Buffer;
use std::fmt;

/// A package or a feature by its name, at the versions that the bound admits, or at all (CUDF 2.0, the type library).
#[derive(Clone, Copy, PartialEq, Eq, Hash)]
pub struct Vpkg<'t> {
    /// A `pkgname` in what the readers give.
    pub name: &'t str,
    /// The operator and its number, at least 1 in what the readers give.
    pub bound: Option<(Relop, u64)>,
}

/// Reads a `vpkg` (CUDF 2.0, the type library), with blanks or none round it: a `pkgname`, alone or with an operator and
/// a `posint` after it, with blanks or none between.
///
/// `None` is answered where the whole text is no `vpkg`.
pub fn read_vpkg(text: &str) -> Option<Vpkg<'_>>
    ensures { option_map vpkg_view result ≡ vpkg (trim text.now) }
{
    parse_vpkg(trim(text))
}

/// Reads a `veqpkg` (CUDF 2.0, the type library), with blanks or none round it: a `vpkg` without an operator or with `=`.
///
/// `None` is answered where the whole text is no `veqpkg`.
pub fn read_veqpkg(text: &str) -> Option<Vpkg<'_>>
    ensures { option_map vpkg_view result ≡ veqpkg (trim text.now) }
{
    parse_veqpkg(trim(text))
}

/// The value of a `vpkg` without blanks round it; `None` if the text is none.
#[tactic(auto, unfolding(crate::specs::Vpkgs::vpkg))]
pub(crate) fn parse_vpkg(text: &str) -> Option<Vpkg<'_>>
    ensures { option_map vpkg_view result ≡ vpkg text.now }
{
    let (name, rest) = split_run(text, Class::Name);
    if name.is_empty() {
        None
    } else {
        complete_vpkg(name, rest)
    }
}

/// A vpkg at the front, with blanks or none round it, and what follows them: a name with its
/// bound, or alone where no bound comes after it. `None` is answered where no name is there.
#[inline(always)]
pub(crate) fn split_vpkg(text: &str) -> Option<(Vpkg<'_>, &str)>
    ensures begins { IfSome result (λ at. BeginsWith (vpkg_view at.0) text.now at.1.now) }
    ensures shorter { IfSome result (λ at. length at.1.now ≤ length text.now) }
{
    let (name, rest) = split_run(trim_start(text), Class::Name);
    if name.is_empty() {
        return None;
    }
    // Most names have no bound.
    if matches!(first_byte(rest), 0 | b',' | b'|') {
        return Some((Vpkg { name, bound: None }, rest));
    }
    let rest = trim_start(rest);
    match split_bound(rest) {
        Some((relop, number, more)) => {
            let bound = Some((relop, number));
            Some((Vpkg { name, bound }, more))
        }
        None => Some((Vpkg { name, bound: None }, rest)),
    }
}

/// The operator and the number at the front, and what follows them and blanks.
#[inline(always)]
fn split_bound(text: &str) -> Option<(Relop, u64, &str)>
    ensures begins { IfSome result (λ at. BoundBegins at.0 at.1 text.now at.2.now) }
    ensures shorter { IfSome result (λ at. length at.2.now ≤ length text.now) }
{
    let (symbol, rest) = split_run(text, Class::Operator);
    let relop = Relop::of_symbol(symbol)?;
    let (digits, rest) = split_run(trim_start(rest), Class::Name);
    let number = parse_posint(digits)?;
    Some((relop, number, trim_start(rest)))
}

/// The vpkg of a name, with `rest` directly after it.
fn complete_vpkg<'t>(name: &'t str, rest: &str) -> Option<Vpkg<'t>>
    ensures { option_map vpkg_view result ≡ vpkg_after name.now rest.now }
{
    if rest.is_empty() {
        return Some(Vpkg { name, bound: None });
    }
    let (symbol, rest) = split_run(trim_start(rest), Class::Operator);
    let relop = Relop::of_symbol(symbol)?;
    let number = parse_posint(trim_start(rest))?;
    Some(Vpkg {
        name,
        bound: Some((relop, number)),
    })
}

/// The value of a `veqpkg` without blanks round it; `None` if the text is none.
#[tactic(auto, unfolding(crate::specs::Vpkgs::veqpkg))]
pub(crate) fn parse_veqpkg(text: &str) -> Option<Vpkg<'_>>
    ensures { option_map vpkg_view result ≡ veqpkg text.now }
{
    let vpkg = parse_vpkg(text)?;
    if is_exact(vpkg.bound) {
        Some(vpkg)
    } else {
        None
    }
}

/// Whether there is no bound, or one with `=`.
pub(crate) fn is_exact(bound: Option<(Relop, u64)>) -> bool
    ensures { result ≡ is_exact bound }
{
    matches!(bound, None | Some((Relop::Eq, _)))
}

/// A relational operator of the type `vpkg`.
#[derive(Clone, Copy, PartialEq, Eq, Hash)]
pub enum Relop {
    /// `=`
    Eq,
    /// `!=`
    Neq,
    /// `>=`
    Geq,
    /// `>`
    Gt,
    /// `<=`
    Leq,
    /// `<`
    Lt,
}

impl Relop {
    /// The operator as CUDF writes it.
    pub fn symbol(self) -> &'static str
        ensures { result.now ≡ relop_text self }
    {
        match self {
            Relop::Eq => "=",
            Relop::Neq => "!=",
            Relop::Geq => ">=",
            Relop::Gt => ">",
            Relop::Leq => "<=",
            Relop::Lt => "<",
        }
    }

    /// The operator that is written so.
    pub(crate) fn of_symbol(symbol: &str) -> Option<Relop>
        ensures { result ≡ relop symbol.now }
    {
        match symbol {
            "=" => Some(Relop::Eq),
            "!=" => Some(Relop::Neq),
            ">=" => Some(Relop::Geq),
            ">" => Some(Relop::Gt),
            "<=" => Some(Relop::Leq),
            "<" => Some(Relop::Lt),
            _ => None,
        }
    }
}

/// Whether the bound of a vpkg admits the number `n`; without a bound each number is admitted.
pub fn meets(bound: Option<(Relop, u64)>, n: u64) -> bool
    ensures { result ≡ meets bound n }
{
    match bound {
        None => true,
        Some((Relop::Eq, m)) => n == m,
        Some((Relop::Neq, m)) => n != m,
        Some((Relop::Geq, m)) => n >= m,
        Some((Relop::Gt, m)) => n > m,
        Some((Relop::Leq, m)) => n <= m,
        Some((Relop::Lt, m)) => n < m,
    }
}

/// `wheel`, or with a bound `wheel > 2`.
impl fmt::Display for Vpkg<'_> {
    ghost output = { λ v. Some (vpkg_text (vpkg_view v)) };

    fn fmt<W: fmt::Write>(&self, f: &mut fmt::Formatter<W>) -> fmt::Result {
        let name = self.name;
        match self.bound {
            None => write!(f, "{name}"),
            Some((relop, number)) => {
                let symbol = relop.symbol();
                let mut buffer = Buffer::new();
                let number = buffer.format(number);
                write!(f, "{name} {symbol} {number}")
            }
        }
    }
}

/// `true!`, `false!` or the vpkg.
impl fmt::Display for Atom<'_> {
    ghost output = { λ a. Some (atom_text (atom_view a)) };

    fn fmt<W: fmt::Write>(&self, f: &mut fmt::Formatter<W>) -> fmt::Result {
        match self {
            Atom::Yes => write!(f, "true!"),
            Atom::No => write!(f, "false!"),
            Atom::Is(vpkg) => write!(f, "{vpkg}"),
        }
    }
}

/// The atoms with ` | ` between them.
impl fmt::Display for Clause<'_> {
    ghost output = { λ c. Some (clause_text (clause_view c)) };

    fn fmt<W: fmt::Write>(&self, f: &mut fmt::Formatter<W>) -> fmt::Result {
        let mut atoms = self.atoms();
        let Some(first) = atoms.next() else {
            return Ok(());
        };
        write!(f, "{first}")?;
        for atom in atoms {
            write!(f, " | {atom}")?;
        }
        Ok(())
    }
}
