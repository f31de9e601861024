//! What a document says beside a fault, by kinds.
use crate::table::{Answer, assert_rows, shows};
use cudf_document::detail;
use cudf_text::{Fault, Kind, Room};
use std::alloc::Global;

/// The bytes of a document, the line and the kind of a fault, and what is said beside it, as programmers are shown it.
type Row = (&'static [u8], u64, Kind, &'static str);

/// Declared names, of which one has a default. The package has the others.
const DECLARED: &[u8] =
    b"preamble: 1\nproperty: a: nat = [1], b: nat\nproperty: c: enum[red,green], d: vpkglist\n\npackage: p\nversion: 1\nb: 2\nc: blue\nd: x, y z,\n";

/// A preamble whose second value declares nothing, since its second declaration is none.
const EARLIER: &[u8] =
    b"preamble: 1\nproperty: a: int\nproperty: b: int, c\nproperty: b: nat, c: nat, a: nat\nproperty: b: nat,\n s: string = [\"x, y\"],\n b: int\n";

/// Three packages of one pair, after another of the name.
const PAIRS: &[u8] =
    b"package: a\nversion: 2\n\npackage: a\nversion: 1\n\npackage: a\nversion: 01\n\npackage: a\ninstalled: true\nversion: 001\n";

const STANZAS: [Row; 9] = [
    (
        b"version: 1\nname: a\n\nrequest:\n",
        1,
        Kind::E4,
        "Some(BeginsWith { name: \"version\" })",
    ),
    (
        b"package: a\nversion: 1\ninstalled: true\n\n# c\nmaker: x\npackage: b\n",
        6,
        Kind::E4,
        "Some(BeginsWith { name: \"maker\" })",
    ),
    (
        b"package: a\nversion: 1\n\nrequest: r\n\npackage: b\nversion: 1\n",
        6,
        Kind::E6,
        "Some(RequestOn { line: 4 })",
    ),
    (
        b"request: r\n\nrequest: s\n\npackage: b\nversion: 1\n",
        5,
        Kind::E6,
        "Some(RequestOn { line: 1 })",
    ),
    (
        b"preamble: 1\nproperty: a: nat = [1], b: nat, c: nat\nproperty: d: int\n\npackage: p\nversion: 1\nb: 1\n",
        7,
        Kind::E14,
        "Some(Lacking { name: \"c\" })",
    ),
    (
        b"package: a\nversion: 1\n\npackage: a\nversion: 01\n\nrequest:\n",
        5,
        Kind::E11,
        "Some(PackageOn { name: \"a\", version: 1, line: 1 })",
    ),
    (
        PAIRS,
        12,
        Kind::E11,
        "Some(PackageOn { name: \"a\", version: 1, line: 4 })",
    ),
    (
        PAIRS,
        8,
        Kind::E15,
        "Some(PackageOn { name: \"a\", version: 1, line: 4 })",
    ),
    (
        b"package: lib\n c\nversion: 1\n\npackage: libc\nversion: 2\n\npackage:\n libc\nversion: +2\n",
        10,
        Kind::E15,
        "Some(PackageOn { name: \"libc\", version: 2, line: 5 })",
    ),
];

const PROPERTIES: [Row; 24] = [
    (
        b"package: a\nversion: 1\nversion: 1\n\nrequest:\n",
        3,
        Kind::E7,
        "Some(NameOn { name: \"version\", line: 2 })",
    ),
    (
        b"request: r\nnote: x\n y\nnote:\nnote: z\n",
        5,
        Kind::E7,
        "Some(NameOn { name: \"note\", line: 2 })",
    ),
    (
        b"package: a\nversion: 1\nsize: 3\n\nrequest:\n",
        3,
        Kind::E8,
        "Some(Undeclared { name: \"size\" })",
    ),
    (
        b"package: a\nversion: 0\n\nrequest:\n",
        2,
        Kind::E9,
        "Some(Mistyped { name: \"version\", word: \"posint\", entry: None, text: \"0\" })",
    ),
    (
        b"package: a b\nversion: 1\n",
        1,
        Kind::E9,
        "Some(Mistyped { name: \"package\", word: \"pkgname\", entry: None, text: \"a b\" })",
    ),
    (
        b"package: a\nversion: 1\ninstalled: yes\n",
        3,
        Kind::E9,
        "Some(Mistyped { name: \"installed\", word: \"bool\", entry: None, text: \"yes\" })",
    ),
    (
        b"package: a\nversion: 1\nkeep: never\n",
        3,
        Kind::E9,
        "Some(Mistyped { name: \"keep\", word: \"enum\", entry: None, text: \"never\" })",
    ),
    (
        b"package: a\nversion: 1\ndepends: b | c, d\n |, e =\n",
        3,
        Kind::E9,
        "Some(Mistyped { name: \"depends\", word: \"vpkgformula\", entry: Some(2), text: \"d |\" })",
    ),
    (
        b"package: a\nversion: 1\nconflicts:\n ,b\n",
        3,
        Kind::E9,
        "Some(Mistyped { name: \"conflicts\", word: \"vpkglist\", entry: Some(1), text: \"\" })",
    ),
    (
        b"package: a\nversion: 1\nprovides: b = 1, c, d > 1\n",
        3,
        Kind::E9,
        "Some(Mistyped { name: \"provides\", word: \"veqpkglist\", entry: Some(3), text: \"d > 1\" })",
    ),
    (
        b"package: a\nversion: 1\n\nrequest: r\nremove: b, c, d e\n",
        5,
        Kind::E9,
        "Some(Mistyped { name: \"remove\", word: \"vpkglist\", entry: Some(3), text: \"d e\" })",
    ),
    (
        DECLARED,
        8,
        Kind::E9,
        "Some(Mistyped { name: \"c\", word: \"enum\", entry: None, text: \"blue\" })",
    ),
    (
        DECLARED,
        9,
        Kind::E9,
        "Some(Mistyped { name: \"d\", word: \"vpkglist\", entry: Some(2), text: \"y z\" })",
    ),
    (
        b"preamble:\nproperty: version: int\n\nrequest:\n",
        2,
        Kind::E10,
        "Some(Misdeclared { declaration: 1 })",
    ),
    (
        b"preamble:\nproperty: a: int\nproperty: b: nat, keep: int\n",
        3,
        Kind::E10,
        "Some(Misdeclared { declaration: 2 })",
    ),
    (
        EARLIER,
        3,
        Kind::E10,
        "Some(Misdeclared { declaration: 2 })",
    ),
    (
        EARLIER,
        4,
        Kind::E10,
        "Some(Misdeclared { declaration: 3 })",
    ),
    (
        EARLIER,
        5,
        Kind::E10,
        "Some(Misdeclared { declaration: 3 })",
    ),
    (
        b"preamble:\nproperty: s: string = [\"x]\n",
        2,
        Kind::E10,
        "None",
    ),
    (b"preamble:\nproperty: e: enum[a, b\n", 2, Kind::E10, "None"),
    (
        b"request: r\ninstall: a,\n b\ninstal: c\n",
        4,
        Kind::E16,
        "Some(Misplaced { name: \"instal\" })",
    ),
    (
        b"request: r\n\npackage: a\nversion: 1\n\npreamble:\nrequest: s\n",
        7,
        Kind::E16,
        "Some(Misplaced { name: \"request\" })",
    ),
    (
        b"package: a\nversion: 1\npackage: b\n",
        3,
        Kind::E7,
        "Some(NameOn { name: \"package\", line: 1 })",
    ),
    (
        b"package: a\nversion: 1\npreamble:\n",
        3,
        Kind::E8,
        "Some(Undeclared { name: \"preamble\" })",
    ),
];

/// Bytes that are no text, lines that can't be read, documents without a byte, and what is like them.
const BYTES: [Row; 25] = [
    (
        b"request: r\n\nx\xC3(\n",
        3,
        Kind::E1,
        "Some(InvalidByte { place: 2, byte: 195 })",
    ),
    (
        b"\xFFrequest:\n",
        1,
        Kind::E1,
        "Some(InvalidByte { place: 1, byte: 255 })",
    ),
    (
        b"package: a\r\nversion:\t\xC0\r\n",
        2,
        Kind::E1,
        "Some(InvalidByte { place: 10, byte: 192 })",
    ),
    (
        b"request: \xE2\x82",
        1,
        Kind::E1,
        "Some(InvalidByte { place: 10, byte: 226 })",
    ),
    (
        b"\xFD7zXZ",
        1,
        Kind::E1,
        "Some(InvalidByte { place: 1, byte: 253 })",
    ),
    (b"\x1F\x8B\x08\x00", 1, Kind::E1, "Some(OfFormat(Gzip))"),
    (b"BZh9\n\xFF", 2, Kind::E1, "Some(OfFormat(Bzip2))"),
    (b"\xFD7zXZ\x00", 1, Kind::E1, "Some(OfFormat(Xz))"),
    (
        b"\x28\xB5\x2F\xFD\x04",
        1,
        Kind::E1,
        "Some(OfFormat(Zstandard))",
    ),
    (b"\xFF\xFEr\x00", 1, Kind::E1, "Some(OfFormat(Utf16))"),
    (b"\xFE\xFF\x00r", 1, Kind::E1, "Some(OfFormat(Utf16))"),
    (b"\xFE\xFF\x00r", 1, Kind::E2, "None"),
    (b"package: a\nversion: 0\n\xFF", 2, Kind::E9, "None"),
    (b"BZh9", 1, Kind::E1, "None"),
    (
        b"\xEF\xBB\xBFpreamble:\n",
        1,
        Kind::E2,
        "Some(ByteOrderMark)",
    ),
    (
        b"\xEF\xBB\xBFpreamble:\nx\n",
        2,
        Kind::E2,
        "Some(LineText { text: \"x\" })",
    ),
    (
        b"\xEF\xBB\xBC:\n",
        1,
        Kind::E2,
        "Some(LineText { text: \"\u{FEFC}:\" })",
    ),
    (b"\xEF\xBB\xBF", 1, Kind::E2, "Some(ByteOrderMark)"),
    (b"x\n\xEF\xBB\xBFy\n", 2, Kind::E2, "None"),
    (
        b"# x\n1 y: \t\r\r\n",
        2,
        Kind::E2,
        "Some(LineText { text: \"1 y: \\t\\r\" })",
    ),
    (
        b"request r",
        1,
        Kind::E2,
        "Some(LineText { text: \"request r\" })",
    ),
    (b"x\n \t\r\n", 2, Kind::E2, "None"),
    (b"x\n", 2, Kind::E2, "None"),
    (b"", 1, Kind::E13, "Some(NoBytes)"),
    (b"\n", 1, Kind::E13, "None"),
];

/// Kinds of which nothing is reported, and faults that the document hasn't.
const NOTHING: [Row; 13] = [
    (DECLARED, 9, Kind::E14, "None"),
    (b"request r\n", 1, Kind::E1, "None"),
    (b" x\nrequest:\n", 1, Kind::E3, "None"),
    (
        b"package: a\nversion: 1\n\npreamble:\n\nrequest:\n",
        4,
        Kind::E5,
        "None",
    ),
    (b"package: a\n\nrequest:\n", 1, Kind::E12, "None"),
    (b"package: a\nversion: 1\n", 2, Kind::E13, "None"),
    (b"package: a\nversion: 1\n", 3, Kind::E4, "None"),
    (b"package: a\nversion: 1\n", 1, Kind::E6, "None"),
    (b"package: a\n x\nversion: 1\n", 2, Kind::E7, "None"),
    (b"package: a\nversion: 1\nsize: x\n", 3, Kind::E9, "None"),
    (b"package: a\nversion: 1\n", 2, Kind::E11, "None"),
    (b"package: a\nversion: 1\n", 2, Kind::E14, "None"),
    (b"request: r\n# x\ninstal: a\n", 2, Kind::E16, "None"),
];

/// Whether this is said beside a row's fault.
fn says(alloc: Global, row: &Row) -> Answer {
    let mut room = Room::new(alloc);
    let fault = Fault {
        line: row.1,
        kind: row.2,
    };
    shows(alloc, &detail(alloc, row.0, &mut room, fault)?, row.3)
}

#[test]
fn details(rt: HostRuntime) {
    assert_rows(&rt, rt.alloc(), &STANZAS, says);
    assert_rows(&rt, rt.alloc(), &PROPERTIES, says);
    assert_rows(&rt, rt.alloc(), &BYTES, says);
    assert_rows(&rt, rt.alloc(), &NOTHING, says);
}
