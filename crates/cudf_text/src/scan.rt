//! Classes of bytes, runs of a class, and cuts of a text beside ASCII bytes.
ghost use Rattle.std.specs.Prelude.{◌≡◌, ◌+◌, ◌-◌, ◌<◌, ◌≤◌, IsTrue, length, take, drop, take_while, slice_index};
ghost use Rattle.std.specs.List.{list_all, prefix_len, suffix_len};
ghost use Rattle.cudf_text.specs.Chars.{is_blank, is_ident, rest_after, trim, trim_start};
ghost use Rattle.cudf_text.specs.Promises.Classes.{is_in_class};
ghost use Rattle.cudf_text.specs.Working.ClassBits.{class_bit};

/// A class of ASCII characters (CUDF 2.0, the type library).
#[derive(Clone, Copy)]
pub enum Class {
    /// A space or a tab.
    Blank,
    /// A letter.
    Letter,
    /// A character of an `ident`: a letter or a digit or `-` or `_`.
    Ident,
    /// A character of a `pkgname`: a letter or a digit or one of `+-./@()%_:~` (own, a superset).
    Name,
    /// A character of an operator: one of `!<=>`.
    Operator,
}

/// The classes of each byte, by their bits.
static CLASSES: [u8; 256] = [
    0, 0, 0, 0, 0, 0, 0, 0, 0, 1, 0, 0, 0, 0, 0, 0, 0, 0, 0, 0, 0, 0, 0, 0, 0, 0, 0, 0, 0, 0, 0, 0,
    1, 16, 0, 0, 0, 8, 0, 0, 8, 8, 0, 8, 0, 12, 8, 8, 12, 12, 12, 12, 12, 12, 12, 12, 12, 12, 8, 0,
    16, 16, 16, 0, 8, 14, 14, 14, 14, 14, 14, 14, 14, 14, 14, 14, 14, 14, 14, 14, 14, 14, 14, 14,
    14, 14, 14, 14, 14, 14, 14, 0, 0, 0, 0, 12, 0, 14, 14, 14, 14, 14, 14, 14, 14, 14, 14, 14, 14,
    14, 14, 14, 14, 14, 14, 14, 14, 14, 14, 14, 14, 14, 14, 0, 0, 0, 8, 0, 0, 0, 0, 0, 0, 0, 0, 0,
    0, 0, 0, 0, 0, 0, 0, 0, 0, 0, 0, 0, 0, 0, 0, 0, 0, 0, 0, 0, 0, 0, 0, 0, 0, 0, 0, 0, 0, 0, 0, 0,
    0, 0, 0, 0, 0, 0, 0, 0, 0, 0, 0, 0, 0, 0, 0, 0, 0, 0, 0, 0, 0, 0, 0, 0, 0, 0, 0, 0, 0, 0, 0, 0,
    0, 0, 0, 0, 0, 0, 0, 0, 0, 0, 0, 0, 0, 0, 0, 0, 0, 0, 0, 0, 0, 0, 0, 0, 0, 0, 0, 0, 0, 0, 0, 0,
    0, 0, 0, 0, 0, 0, 0, 0, 0, 0, 0, 0, 0, 0, 0, 0, 0, 0, 0, 0, 0, 0, 0, 0,
];

impl Class {
    /// Whether the byte is of the class.
    pub(crate) fn has(self, byte: u8) -> bool
        ensures value { result ≡ is_in_class self byte }
        ensures ascii { IsTrue result → byte < 128 }
    {
        CLASSES[byte as usize] & self.bit() != 0
    }

    fn bit(self) -> u8
        ensures { result ≡ class_bit self }
    {
        match self {
            Class::Blank => 1,
            Class::Letter => 2,
            Class::Ident => 4,
            Class::Name => 8,
            Class::Operator => 16,
        }
    }
}

/// Whether all of the bytes are of the class, as they are where there are none.
pub fn are_all(bytes: &[u8], class: Class) -> bool
    ensures { result ≡ list_all (is_in_class class) bytes.now }
{
    bytes.iter().all(|byte| class.has(*byte))
}

/// How many bytes of the class are at the front.
#[inline(always)]
pub(crate) fn run_len(bytes: &[u8], class: Class) -> usize
    ensures inside { result ≤ length bytes.now }
    ensures len { result ≡ prefix_len (is_in_class class) bytes.now }
    ensures ascii { 0 < result → slice_index bytes.now (result - 1) < 128 }
{
    // Names are long, other runs short.
    match class {
        Class::Ident | Class::Name => long_run_len(bytes, class),
        Class::Blank | Class::Letter | Class::Operator => run_end(bytes, class, 0),
    }
}

/// How many bytes of the class are at the front, tested four at a time.
#[inline(always)]
fn long_run_len(bytes: &[u8], class: Class) -> usize
    ensures inside { result ≤ length bytes.now }
    ensures len { result ≡ prefix_len (is_in_class class) bytes.now }
    ensures ascii { 0 < result → slice_index bytes.now (result - 1) < 128 }
{
    let mut n = 0;
    while n + 4 <= bytes.len() {
        if !class.has(bytes[n]) {
            return n;
        }
        if !class.has(bytes[n + 1]) {
            return n + 1;
        }
        if !class.has(bytes[n + 2]) {
            return n + 2;
        }
        if !class.has(bytes[n + 3]) {
            return n + 3;
        }
        n += 4;
    }
    run_end(bytes, class, n)
}

/// Where the run at the front ends, of which the first `known` bytes are known.
#[inline(always)]
fn run_end(bytes: &[u8], class: Class, known: usize) -> usize
    requires inside { known ≤ length bytes.now }
    requires run { known + prefix_len (is_in_class class) (drop known bytes.now) ≡ prefix_len (is_in_class class) bytes.now }
    requires ascii { 0 < known → slice_index bytes.now (known - 1) < 128 }
    ensures inside { result ≤ length bytes.now }
    ensures len { result ≡ prefix_len (is_in_class class) bytes.now }
    ensures ascii { 0 < result → slice_index bytes.now (result - 1) < 128 }
{
    let mut n = known;
    while n < bytes.len() && class.has(bytes[n]) {
        n += 1;
    }
    n
}

/// The characters of the class at the front, and what follows them.
pub fn split_run(text: &str, class: Class) -> (&str, &str)
    ensures run { result.0.now ≡ take_while (is_in_class class) text.now }
    ensures rest { result.1.now ≡ rest_after (is_in_class class) text.now }
{
    text.split_at(run_len(text.as_bytes(), class))
}

/// Whether the whole text, blanks and all, is an `ident` (CUDF 2.0, the type library): an ASCII
/// letter, then ASCII letters, digits, `-` and `_`.
#[tactic(auto, unfolding(crate::specs::Chars::is_ident))]
pub fn is_ident(text: &str) -> bool
    ensures { result ≡ is_ident text.now }
{
    first_byte(text).is_ascii_alphabetic() && are_all(text.as_bytes(), Class::Ident)
}

/// The text without the spaces and tabs at its front.
pub fn trim_start(text: &str) -> &str
    ensures { result.now ≡ trim_start text.now }
{
    split_run(text, Class::Blank).1
}

/// The text without the spaces and tabs at both ends.
pub fn trim(text: &str) -> &str
    ensures { result.now ≡ trim text.now }
{
    let text = trim_start(text);
    before(text, trimmed_len(text.as_bytes()))
}

/// Where the blanks at the end begin.
fn trimmed_len(bytes: &[u8]) -> usize
    ensures inside { result ≤ length bytes.now }
    ensures value { result ≡ length bytes.now - suffix_len is_blank bytes.now }
    ensures ascii { result < length bytes.now → slice_index bytes.now result < 128 }
{
    let mut n = bytes.len();
    while 0 < n && Class::Blank.has(bytes[n - 1]) {
        n -= 1;
    }
    n
}

/// The first byte; 0 of the empty text.
pub fn first_byte(text: &str) -> u8
    ensures { result ≡ slice_index text.now 0 }
{
    text.as_bytes().first().copied().unwrap_or(0)
}

// Both cut beside an ASCII byte. No function but these and `split_run` speaks of the boundaries of characters.

/// The first `n` bytes, where an ASCII byte or nothing follows them.
pub fn before(text: &str, n: usize) -> &str
    requires inside { n ≤ length text.now }
    requires ascii { n < length text.now → slice_index text.now n < 128 }
    ensures { result.now ≡ take n text.now }
{
    &text[..n]
}

/// What follows the first `n` bytes, where an ASCII byte is the last of them.
pub fn after(text: &str, n: usize) -> &str
    requires inside { n ≤ length text.now }
    requires ascii { 0 < n → n < length text.now → slice_index text.now (n - 1) < 128 }
    ensures { result.now ≡ drop n text.now }
{
    &text[n..]
}
