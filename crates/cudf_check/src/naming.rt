//! Which file a document is in, for the lines that name it.
ghost use Rattle.std.specs.Prelude.{◌≡◌, option_map};
ghost use Rattle.cudf_check.specs.Naming.{ended_lines, line_in, name_at, origin_of, own_file};
ghost use Rattle.cudf_check.specs.Styles.{document_of};
ghost use Rattle.cudf_check.specs.Working.Named.{origin_view, origins_view};
ghost use Rattle.cudf_device.specs.Readers.{names_in};

use cudf_device::Source;
use cudf_job::Part;

/// The bytes of an input, and its name, where lines name it.
#[derive(Clone, Copy)]
pub(crate) struct NamedInput<'t, 'n> {
    pub(crate) bytes: &'t [u8],
    pub(crate) name: Option<&'n str>,
}

/// The inputs after the first one: their texts, and the sources that gave them.
#[derive(Drop)]
pub(crate) struct OtherInputs<'t, S> {
    pub(crate) texts: &'t [Vec<u8>],
    pub(crate) sources: &'t [S],
}

impl<'t, S: Source> OtherInputs<'t, S> {
    ghost use Rattle.std.specs.Prelude.{◌≡◌, IfSome, map, option_map, slice_get};
    ghost use Rattle.cudf_check.specs.JobStyles.{input_at};
    ghost use Rattle.cudf_check.specs.Naming.{name_at};
    ghost use Rattle.cudf_device.specs.Readers.{names_in};

    /// The first of them.
    pub(crate) fn first(&self) -> Option<NamedInput<'t, 't>>
        ensures bytes { option_map (λ g. g.bytes.now) result ≡ slice_get (map (λ b. b.items) self.now.texts.now) 0 }
        ensures name { IfSome result (λ g. option_map (λ n. n.now) g.name ≡ name_at (names_in S.state self.now.sources.now) 1) }
    {
        match self.texts.first() {
            Some(bytes) => Some(NamedInput {
                bytes,
                name: name_at(self.sources, 1),
            }),
            None => None,
        }
    }

    /// The text of the one at an index, empty where there is none.
    pub(crate) fn text(&self, index: usize) -> &'t [u8]
        ensures { result.now ≡ input_at (map (λ b. b.items) self.now.texts.now) index }
    {
        match self.texts.get(index) {
            Some(bytes) => bytes,
            None => &[],
        }
    }
}

/// The file of a document, for lines that name it.
#[derive(Clone, Copy)]
pub(crate) struct Origin<'n> {
    /// Its name.
    pub(crate) file: &'n str,
    /// How many of its lines are before the document.
    pub(crate) before: u64,
}

/// The files of a problem and its solution, where lines name them.
#[derive(Clone, Copy)]
pub(crate) struct Origins<'n> {
    pub(crate) problem: Option<Origin<'n>>,
    pub(crate) solution: Option<Origin<'n>>,
}

impl<'n> Origins<'n> {
    /// The file of the document that an instance of this part is about.
    pub(crate) fn of(self, part: Part) -> Option<Origin<'n>>
        ensures { option_map origin_view result ≡ origin_of (origins_view self.entry) (document_of part) }
    {
        match part {
            Part::Solution => self.solution,
            Part::Package(_) | Part::Request => self.problem,
        }
    }
}

/// The file of this name, where there is one, as that of a document alone.
pub(crate) fn own_file(name: Option<&str>) -> Option<Origin<'_>>
    ensures { option_map origin_view result ≡ own_file (option_map (λ n. n.now) name.entry) }
{
    match name {
        Some(file) => Some(Origin { file, before: 0 }),
        None => None,
    }
}

/// The file of this name, where there is one, as that of a solution after its problem.
pub(crate) fn file_behind<'n>(problem: &[u8], name: Option<&'n str>) -> Option<Origin<'n>>
    ensures { option_map origin_view result ≡ option_map (λ n. record { file = n.now; before = ended_lines problem.now }) name.entry }
{
    match name {
        Some(file) => Some(Origin {
            file,
            before: ended_lines(problem),
        }),
        None => None,
    }
}

/// The name of the source at a place among these, from 1.
pub(crate) fn name_at<S: Source>(sources: &[S], place: u64) -> Option<&str>
    ensures { option_map (λ n. n.now) result ≡ name_at (names_in S.state sources.entry.now) place }
{
    match sources.get((place as usize).saturating_sub(1)) {
        Some(source) => source.name(),
        None => None,
    }
}

/// How many lines end in a text.
fn ended_lines(text: &[u8]) -> u64
    ensures { result ≡ ended_lines text.now }
{
    text.iter().filter(|byte| **byte == b'\n').count() as u64
}

/// The number of a line of a document, counted in its file, as far as there are numbers.
pub(crate) fn line_in(origin: Option<Origin<'_>>, line: u64) -> u64
    ensures { result ≡ line_in (option_map origin_view origin.entry) line }
{
    match origin {
        Some(origin) => origin.before.saturating_add(line),
        None => line,
    }
}
