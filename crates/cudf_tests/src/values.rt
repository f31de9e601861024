//! Calls of values that no vector of `cudf_rows` makes.
use crate::table::{Answer, assert_rows, expect};
use cudf_value::{
    Relop, ValueType, declaration_pieces, first_invalid_entry, is_pkgname, laws, read_declaration,
    read_declarations,
};
use std::alloc::Global;

/// A text, and the pieces of it as the value of a `property`.
type Pieces = (&'static str, Option<&'static [&'static str]>);

const PIECES: [Pieces; 4] = [
    (
        " a: int, b: vpkglist = [x, y] ",
        Some(&["a: int", " b: vpkglist = [x, y]"]),
    ),
    (
        "s: string = \"x, y\",c",
        Some(&["s: string = \"x, y\"", "c"]),
    ),
    ("", Some(&[""])),
    ("a: int, e: enum[x", None),
];

fn is_cut(alloc: Global, row: &Pieces) -> Answer {
    Ok(match (declaration_pieces(alloc, row.0)?, row.1) {
        (Some(pieces), Some(want)) => pieces.as_slice() == want,
        (None, None) => true,
        _ => false,
    })
}

#[test]
fn pieces(rt: HostRuntime) {
    assert_rows(&rt, rt.alloc(), &PIECES, is_cut);
}

/// A piece, and the name, the type's word and the default of its declaration.
type Piece = (
    &'static str,
    Option<(&'static str, &'static str, Option<&'static str>)>,
);

const DECLARED: [Piece; 4] = [
    (
        " b: vpkglist = [x, y] ",
        Some(("b", "vpkglist", Some("x, y"))),
    ),
    ("e: enum[x, y]", Some(("e", "enum", None))),
    ("a: int, b: int", None),
    ("", None),
];

fn is_declared(alloc: Global, row: &Piece) -> Answer {
    Ok(match (read_declaration(alloc, row.0)?, row.1) {
        (Some(read), Some(want)) => {
            read.name == want.0 && read.kind.word() == want.1 && read.default == want.2
        }
        (None, None) => true,
        _ => false,
    })
}

#[test]
fn declared(rt: HostRuntime) {
    assert_rows(&rt, rt.alloc(), &DECLARED, is_declared);
}

/// A text, and the number of its first entry that is none in a `vpkgformula`, a `vpkglist` and a `veqpkglist`.
type Misfit = (&'static str, Option<u64>, Option<u64>, Option<u64>);

const MISFITS: [Misfit; 6] = [
    ("a,,b", Some(2), Some(2), Some(2)),
    ("a | , b", Some(1), Some(1), Some(1)),
    ("a, b = x", Some(2), Some(2), Some(2)),
    ("a = 1, b > 2", None, None, Some(2)),
    ("a | b, true!", None, Some(1), Some(1)),
    ("a, b", None, None, None),
];

fn has_misfits(_: Global, row: &Misfit) -> Answer {
    Ok(
        first_invalid_entry(&ValueType::Formula, row.0) == row.1
            && first_invalid_entry(&ValueType::List, row.0) == row.2
            && first_invalid_entry(&ValueType::ExactList, row.0) == row.3
            && first_invalid_entry(&ValueType::Signed, row.0).is_none(),
    )
}

#[test]
fn misfits(rt: HostRuntime) {
    assert_rows(&rt, rt.alloc(), &MISFITS, has_misfits);
}

/// Whether a copy of the declarations is equal to them.
fn are_copied(alloc: Global, text: &str) -> Answer {
    match read_declarations(alloc, text)? {
        Some(declarations) => Ok(declarations.clone()? == declarations),
        None => Ok(false),
    }
}

/// Copies take memory: no clause says that there are any.
#[test]
fn copies(rt: HostRuntime) {
    expect(
        &rt,
        are_copied(rt.alloc(), "a: enum[x, y] = [y], b: vpkglist"),
    );
}

#[test]
fn printing(rt: HostRuntime) {
    assert!(rt; is_pkgname("true"));
    laws::read_back("true", Some((Relop::Neq, 3)));
}
