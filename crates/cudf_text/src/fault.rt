ghost use Rattle.std.specs.Prelude.{◌≡◌};
ghost use Rattle.cudf_text.specs.Faults.{fault_text};

use std::fmt;

/// What is wrong with a document (own), in the order in which faults of one line are reported.
#[derive(Clone, Copy, Debug, PartialEq, Eq, PartialOrd, Ord, Hash)]
pub enum Kind {
    /// Bytes that aren't UTF-8.
    E1,
    /// A line that is no property, continuation, comment or blank line.
    E2,
    /// A continuation with no property before it in its stanza.
    E3,
    /// A stanza whose first property is no postmark.
    E4,
    /// A preamble stanza that isn't the first stanza.
    E5,
    /// A stanza after the request.
    E6,
    /// A property name that occurs a second time in a stanza.
    E7,
    /// A property of a package that isn't declared.
    E8,
    /// A value that isn't of its type.
    E9,
    /// A bad declaration of properties.
    E10,
    /// A package with the name and version of an earlier one.
    E11,
    /// A package without a version.
    E12,
    /// A problem without a request.
    E13,
    /// Strictly, a package without a declared property that has no default.
    E14,
    /// Strictly, a package of a solution with the name and version of an earlier one.
    E15,
    /// Strictly, a property whose name has no meaning in its stanza.
    E16,
}

impl Kind {
    /// The kind's name, one space, and what is wrong, as in `E13 no request`.
    pub fn text(self) -> &'static str
        ensures { result.now ≡ fault_text self }
    {
        match self {
            Kind::E1 => "E1 not UTF-8",
            Kind::E2 => "E2 not a property, continuation, comment or blank line",
            Kind::E3 => "E3 continuation of nothing",
            Kind::E4 => "E4 stanza without postmark",
            Kind::E5 => "E5 preamble is not first",
            Kind::E6 => "E6 stanza after the request",
            Kind::E7 => "E7 property repeated",
            Kind::E8 => "E8 property not declared",
            Kind::E9 => "E9 value is not of its type",
            Kind::E10 => "E10 bad declaration",
            Kind::E11 => "E11 package repeated",
            Kind::E12 => "E12 no version",
            Kind::E13 => "E13 no request",
            Kind::E14 => "E14 declared property missing",
            Kind::E15 => "E15 pair repeated",
            Kind::E16 => "E16 property out of place",
        }
    }
}

/// What is wrong and where. Faults are ordered by line, then by kind.
#[derive(Clone, Copy, Debug, PartialEq, Eq, PartialOrd, Ord, Hash)]
pub struct Fault {
    /// The line, from 1.
    pub line: u64,
    /// What is wrong there.
    pub kind: Kind,
}

impl Fault {
    ghost use Rattle.cudf_text.specs.Faults.{precedes};

    /// Whether it is on an earlier line than the other one, or on the same line and of a lesser kind.
    pub fn precedes(self, other: Self) -> bool
        ensures { result ≡ precedes self other }
    {
        self < other
    }
}

/// What a report says of a fault, as `line 3: E9 value is not of its type`.
impl fmt::Display for Fault {
    ghost use Rattle.std.specs.Prelude.{Some};
    ghost use Rattle.cudf_text.specs.Promises.Errors.{fault_line};

    ghost output = { λ fault. Some (fault_line fault) };

    fn fmt<W: fmt::Write>(&self, f: &mut fmt::Formatter<W>) -> fmt::Result {
        let line = self.line;
        let what = self.kind.text();
        write!(f, "line {line}: {what}")
    }
}
