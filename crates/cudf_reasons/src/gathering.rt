//! The reasons of needed CNF clauses, by key, in flat vectors.
ghost use Rattle.std.specs.Prelude.{◌≡◌, ◌<◌, ◌≤◌, ℕ, true, false, IfOk, length, map, ◌++◌, ◌∷◌, [], OnOk, OnErr};
ghost use Rattle.std.specs.List.{HoldsAt};
ghost use Rattle.cudf_job.specs.KeyViews.{key_view};
ghost use Rattle.cudf_reasons.specs.Reasons.{ascending, core_of, is_of, same_key};
ghost use Rattle.cudf_reasons.specs.Views.{needed_view};
ghost use Rattle.cudf_reasons.specs.Working.Gathered.{is_at};

use cudf_job::{Key, Part, Rule};
use cudf_lrat::Literal;
use std::alloc::{AllocError, Global};
use std::marker::Model;

/// The reasons of these CNF clauses, of which those of one key are one after the other.
pub(crate) fn tabulate(alloc: Global, needed: &[NeededClause<'_>]) -> Result<Table, AllocError>
    ensures { IfOk result (λ table. table ≡ core_of (map needed_view needed.now)) }
{
    let mut table = Table::new(alloc);
    let mut places = Places {
        named: Vec::new(alloc),
        met: Vec::new(alloc),
    };
    let mut start = 0;
    while start < needed.len() {
        let key = needed[start].key;
        let rest = &needed[start..];
        let count = count_of_key(rest, key);
        places.gather(key.part(), &rest[..count])?;
        table.push(key, &places.named, &places.met)?;
        start += count;
    }
    Ok(table)
}

/// Places of packages, gathered of an instance's CNF clauses.
#[derive(Drop)]
struct Places {
    named: Vec<u32>,
    met: Vec<u32>,
}

impl Places {
    ghost use Rattle.std.specs.Prelude.{◌≡◌, ◌++◌, OnOk};
    ghost use Rattle.std.specs.List.{flat_map};
    ghost use Rattle.cudf_reasons.specs.Reasons.{ascending, positive_places};
    ghost use Rattle.cudf_reasons.specs.Working.Gathered.{literals_in, other_places};

    /// Replaces the places by those of an instance of this part: `named` by its clauses' positive literals, `met` by the
    /// negative ones other than its own package's, ascending, each once.
    fn gather(&mut self, part: Part, clauses: &[NeededClause<'_>]) -> Result<(), AllocError>
        ensures named { OnOk result (self.new.named.items ≡ flat_map positive_places (literals_in clauses.now)) }
        ensures met { OnOk result (self.new.met.items ≡ ascending (flat_map (other_places part) (literals_in clauses.now))) }
    {
        self.named.clear();
        self.met.clear();
        for clause in clauses {
            self.add(part, clause.literals)?;
        }
        sort_places(&mut self.met);
        Ok(())
    }

    /// Puts the places of one CNF clause after the others: those of positive literals, and those of negative ones that
    /// aren't the part's own.
    fn add(&mut self, part: Part, literals: &[Literal]) -> Result<(), AllocError>
        ensures named { OnOk result (self.new.named.items ≡ self.old.named.items ++ positive_places literals.now) }
        ensures met { OnOk result (self.new.met.items ≡ self.old.met.items ++ other_places part literals.now) }
    {
        for literal in literals {
            if literal.positive {
                self.named.push(literal.variable)?;
            } else if !is_own(part, literal.variable) {
                self.met.push(literal.variable)?;
            }
        }
        Ok(())
    }
}

/// Whether the part is the package at this place.
fn is_own(part: Part, place: u32) -> bool
    ensures { result ≡ is_of place part }
{
    match part {
        Part::Package(own) => own == u64::from(place),
        Part::Request | Part::Solution => false,
    }
}

/// Puts places in ascending order, each once.
fn sort_places(places: &mut Vec<u32>)
    ensures { places.new.items ≡ ascending places.old.items }
{
    places.sort_unstable();
    places.dedup();
}

/// How many CNF clauses from the first on have this key.
fn count_of_key(needed: &[NeededClause<'_>], key: Key) -> usize
    ensures within { result ≤ length needed.now }
    ensures same { (k : ℕ) → k < result → is_at needed.now k (key_view key) ≡ true }
    ensures other { result < length needed.now → is_at needed.now result (key_view key) ≡ false }
{
    let mut count = 0;
    while count < needed.len() && is_same(key, needed[count].key) {
        count += 1;
    }
    count
}

/// Whether two keys are one.
fn is_same(a: Key, b: Key) -> bool
    ensures { result ≡ same_key (key_view a) (key_view b) }
{
    a.cmp(&b).is_eq()
}

/// A reason: its key, and where its places are: first those that it names, and after them those that it is met by.
#[derive(Clone, Copy)]
pub(crate) struct Reason {
    key: Key,
    start: usize,
    middle: usize,
    end: usize,
}

impl Reason {
    ghost use Rattle.std.specs.Prelude.{◌≡◌};
    ghost use Rattle.cudf_job.specs.KeyViews.{key_view};
    ghost use Rattle.cudf_reasons.specs.Working.Runs.{comes_before, is_brought};

    /// Whether it is of a package before this place.
    fn comes_before(self, place: u64) -> bool
        ensures { result ≡ comes_before place (key_view self.key).part }
    {
        match self.key.part() {
            Part::Package(own) => own < place,
            Part::Request | Part::Solution => false,
        }
    }

    /// Whether it is of the package at this place, and of depends or conflicts.
    fn is_brought_by(self, place: u64) -> bool
        ensures { result ≡ is_brought place (key_view self.key) }
    {
        match (self.key.part(), self.key.rule()) {
            (Part::Package(own), Rule::Depends | Rule::Conflicts) => own == place,
            _ => false,
        }
    }
}

/// Reasons. Contracts see the list of them.
#[derive(Drop)]
pub(crate) struct Table {
    rows: Vec<Reason>,
    places: Vec<u32>,
}

impl Model for Table {
    ghost use Rattle.std.specs.Prelude.{List, All, map};
    ghost use Rattle.cudf_reasons.specs.Reasons.{PlainReason};

    ghost Value = { List PlainReason };

    ghost use Rattle.cudf_reasons.specs.Working.Tables.{reason_in, IsInside};

    ghost view = { λ t. map (reason_in t.places.items) t.rows.items };

    ghost invariant = { λ t. All (IsInside t.places.items) t.rows.items };
}

/// Which reasons are asked for.
#[derive(Clone, Copy)]
pub(crate) enum ReasonGroup {
    /// Those of the request that are met by none.
    Asked,
    /// Those of `keep`.
    Kept,
    /// All.
    Any,
}

/// Reasons that are one after the other: from the first to before the end.
#[derive(Clone, Copy)]
pub(crate) struct Run {
    pub(crate) start: usize,
    pub(crate) end: usize,
}

impl Table {
    ghost use Rattle.std.specs.Prelude.{◌≡◌, ◌<◌, ◌++◌, ◌∷◌, [], length, map, IsTrue, OnOk, OnErr};
    ghost use Rattle.std.specs.List.{HoldsAt};
    ghost use Rattle.cudf_job.specs.KeyViews.{key_view};
    ghost use Rattle.cudf_reasons.specs.Working.Walks.{is_root, keys_ascend, IsRunOf};

    /// No reasons. It takes no memory.
    pub(crate) fn new(alloc: Global) -> Self
        ensures { result ≡ [] }
    {
        Table {
            rows: Vec::new(alloc),
            places: Vec::new(alloc),
        }
    }

    /// How many there are.
    pub(crate) fn len(&self) -> usize
        ensures { result ≡ length self.now }
    {
        self.rows.len()
    }

    /// The key of the one at this index.
    pub(crate) fn key(&self, index: usize) -> Key
        requires { index < length self.now }
        ensures { HoldsAt (λ reason. reason.key ≡ key_view result) self.now index }
    {
        self.rows[index].key
    }

    /// The places that it names.
    pub(crate) fn named(&self, index: usize) -> &[u32]
        requires { index < length self.now }
        ensures { HoldsAt (λ reason. reason.named ≡ result.now) self.now index }
    {
        let row = self.rows[index];
        &self.places[row.start..row.middle]
    }

    /// The places that it is met by.
    pub(crate) fn met(&self, index: usize) -> &[u32]
        requires { index < length self.now }
        ensures { HoldsAt (λ reason. reason.met ≡ result.now) self.now index }
    {
        let row = self.rows[index];
        &self.places[row.middle..row.end]
    }

    /// Whether the one at this index is asked for so.
    pub(crate) fn is_in_group(&self, root: ReasonGroup, index: usize) -> bool
        requires { index < length self.now }
        ensures { HoldsAt (λ reason. is_root root reason ≡ result) self.now index }
    {
        let key = self.key(index);
        match root {
            ReasonGroup::Asked => matches!(key.part(), Part::Request) && self.met(index).is_empty(),
            ReasonGroup::Kept => matches!(key.rule(), Rule::Keep),
            ReasonGroup::Any => true,
        }
    }

    /// Those that the package at this place brings in: by two searches.
    pub(crate) fn run_of(&self, place: u32) -> Run
        requires { IsTrue (keys_ascend self.now) }
        ensures { IsRunOf self.now place result }
    {
        let place = u64::from(place);
        let start = self.rows.partition_point(|row| row.comes_before(place));
        let end = self
            .rows
            .partition_point(|row| row.comes_before(place) || row.is_brought_by(place));
        Run { start, end }
    }

    /// Puts a reason after the others.
    pub(crate) fn push(&mut self, key: Key, named: &[u32], met: &[u32]) -> Result<(), AllocError>
        ensures ok { OnOk result (self.new ≡ self.old ++ record { key = key_view key; named = named.now; met = met.now } ∷ []) }
    {
        let start = self.places.len();
        self.places.extend_from_slice(named)?;
        let middle = self.places.len();
        self.places.extend_from_slice(met)?;
        let end = self.places.len();
        self.rows.push(Reason {
            key,
            start,
            middle,
            end,
        })?;
        Ok(())
    }
}

/// A CNF clause that a refutation needs.
#[derive(Clone, Copy)]
pub struct NeededClause<'c> {
    /// The key of its instance.
    pub key: Key,
    /// Its literals, whose places are those of packages, from 1.
    pub literals: &'c [Literal],
}
