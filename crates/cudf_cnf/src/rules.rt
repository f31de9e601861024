//! The clauses of an instance, by what it says, made of places.
ghost use Rattle.std.specs.Prelude.{◌≡◌, ◌==◌, ◌++◌, ◌∷◌, [], OnOk, filter, not, option_map, ◌<◌, ◌^◌, All, map, ◌≤◌, IfOk, length, nat_lt};
ghost use Rattle.std.specs.List.{flat_map};
ghost use Rattle.cudf_value.specs.Promises.Views.{clause_view, vpkg_view};
ghost use Rattle.cudf_index.specs.Satisfaction.{meets_alone, without, numbers_of};
ghost use Rattle.cudf_lrat.specs.Literals.{IsWithin};
ghost use Rattle.cudf_job.specs.Keys.{part_place};
ghost use Rattle.cudf_job.specs.KeyViews.{key_view};
ghost use Rattle.cudf_referee.specs.Violations.{are_many};
ghost use Rattle.cudf_cnf.specs.Cnf.{is_out, is_subject, needs_clauses, none_of, one_of, is_in};
ghost use Rattle.cudf_cnf.specs.Working.Parts.{Fits, IsPlace, keyed, lower_by, ArePlaces, differing_at, givers_of};
ghost use Rattle.cudf_cnf.specs.Working.Collecting.{Outcome, SameFrame};

use crate::clauses::{Collector, KeyedClauses};
use cudf_index::Index;
use cudf_job::{Key, Part};
use cudf_lrat::Literal;
use cudf_value::{Clause, Relop, Vpkg};
use std::alloc::{AllocError, Global};

/// The place of the package that the key is of, 0 for the other parts.
pub(crate) fn place_of(key: Key) -> u64
    ensures { result ≡ part_place (key_view key).part }
{
    match key.part() {
        Part::Package(place) => place,
        Part::Request | Part::Solution => 0,
    }
}

/// Puts the CNF clause of a clause of `depends`, unless the package itself would do.
pub(crate) fn put_needs(
    all: &Index<'_, '_>,
    key: Key,
    clause: &Clause<'_>,
    scratch: &mut Scratch,
    clauses: &mut KeyedClauses,
) -> Result<(), AllocError>
    requires fits { Fits clauses.old.places all.now }
    requires place { IsPlace clauses.old.places (part_place (key_view key).part) }
    ensures put { OnOk result (clauses.new.clauses ≡ clauses.old.clauses ++ keyed (key_view key) (needs_clauses all.now (part_place (key_view key).part) (clause_view clause.now))) }
    ensures places { clauses.new.places ≡ clauses.old.places }
{
    let place = place_of(key);
    if all.all_satisfying_unless_at(clause, place, &mut scratch.places)? {
        return Ok(());
    }
    scratch.literals.clear();
    scratch.literals.push(negative_literal(place))?;
    put_one_of(clauses, key, &mut scratch.literals, &scratch.places)
}

/// Whether a place isn't a package's own.
fn is_other(place: u64, own: u64) -> bool
    ensures { result ≡ not (place == own) }
{
    place != own
}

/// Takes a place out.
fn take_out(places: &mut Vec<u64>, own: u64)
    ensures { places.new.items ≡ filter (λ n. not (n == own)) places.old.items }
{
    places.retain(|place| is_other(*place, own));
}

/// Puts the clauses of an entry of `conflicts`: one for each package other than the entry's own.
pub(crate) fn put_conflict(
    all: &Index<'_, '_>,
    key: Key,
    vpkg: &Vpkg<'_>,
    scratch: &mut Scratch,
    clauses: &mut KeyedClauses,
) -> Result<(), AllocError>
    requires fits { Fits clauses.old.places all.now }
    requires place { IsPlace clauses.old.places (part_place (key_view key).part) }
    ensures put { OnOk result (clauses.new.clauses ≡ clauses.old.clauses ++ keyed (key_view key) (none_of (is_out (part_place (key_view key).part) ∷ []) (meets_alone (vpkg_view vpkg.now)) (without (part_place (key_view key).part) all.now))) }
    ensures places { clauses.new.places ≡ clauses.old.places }
{
    let place = place_of(key);
    all.all_meeting(vpkg, &mut scratch.places)?;
    take_out(&mut scratch.places, place);
    put_pairs_out(clauses, key, place, &scratch.places)
}

/// Puts the clause that one of the packages is installed that alone satisfy the vpkg.
pub(crate) fn put_meeting(
    all: &Index<'_, '_>,
    key: Key,
    vpkg: &Vpkg<'_>,
    scratch: &mut Scratch,
    clauses: &mut KeyedClauses,
) -> Result<(), AllocError>
    requires { Fits clauses.old.places all.now }
    ensures put { OnOk result (clauses.new.clauses ≡ clauses.old.clauses ++ (key_view key, one_of (meets_alone (vpkg_view vpkg.now)) all.now) ∷ []) }
    ensures places { clauses.new.places ≡ clauses.old.places }
{
    all.all_meeting(vpkg, &mut scratch.places)?;
    scratch.literals.clear();
    put_one_of(clauses, key, &mut scratch.literals, &scratch.places)
}

/// Puts the clause that one of the packages of the subject's name is installed.
pub(crate) fn put_named(
    all: &Index<'_, '_>,
    key: Key,
    subject: Option<(&str, u64)>,
    scratch: &mut Scratch,
    clauses: &mut KeyedClauses,
) -> Result<(), AllocError>
    requires { Fits clauses.old.places all.now }
    ensures put { OnOk result (clauses.new.clauses ≡ clauses.old.clauses ++ (key_view key, one_of (is_subject (option_map (λ s. (s.0.now, s.1)) subject.entry)) all.now) ∷ []) }
    ensures places { clauses.new.places ≡ clauses.old.places }
{
    let Some((name, _version)) = subject else {
        return clauses.push(key, &[]);
    };
    all.all_named(name, &mut scratch.places)?;
    scratch.literals.clear();
    put_one_of(clauses, key, &mut scratch.literals, &scratch.places)
}

/// Puts the clauses of an entry of `remove`: none of the packages is installed that alone satisfy the vpkg.
pub(crate) fn put_removal(
    all: &Index<'_, '_>,
    key: Key,
    vpkg: &Vpkg<'_>,
    scratch: &mut Scratch,
    clauses: &mut KeyedClauses,
) -> Result<(), AllocError>
    requires { Fits clauses.old.places all.now }
    ensures put { OnOk result (clauses.new.clauses ≡ clauses.old.clauses ++ keyed (key_view key) (none_of [] (meets_alone (vpkg_view vpkg.now)) all.now)) }
    ensures places { clauses.new.places ≡ clauses.old.places }
{
    all.all_meeting(vpkg, &mut scratch.places)?;
    put_each_out(clauses, key, &scratch.places)
}

/// Puts the clauses of `lower` of an entry of `upgrade`: no package is installed that gives a number of the name below the
/// greatest one before.
pub(crate) fn put_lower(
    all: &Index<'_, '_>,
    key: Key,
    name: &str,
    greatest: Option<u64>,
    scratch: &mut Scratch,
    clauses: &mut KeyedClauses,
) -> Result<(), AllocError>
    requires { Fits clauses.old.places all.now }
    ensures put { OnOk result (clauses.new.clauses ≡ clauses.old.clauses ++ keyed (key_view key) (lower_by all.now name.now greatest)) }
    ensures places { clauses.new.places ≡ clauses.old.places }
{
    let Some(number) = greatest else {
        return Ok(());
    };
    all.all_giving(name, Some((Relop::Lt, number)), &mut scratch.places)?;
    put_each_out(clauses, key, &scratch.places)
}

/// Room for the places and the literals of one clause, used again for each.
#[derive(Drop)]
pub(crate) struct Scratch {
    pub(crate) places: Vec<u64>,
    pub(crate) literals: Vec<Literal>,
}

impl Scratch {
    /// Takes no memory.
    pub(crate) fn new(alloc: Global) -> Self {
        Scratch {
            places: Vec::new(alloc),
            literals: Vec::new(alloc),
        }
    }
}

/// That the package at the place isn't installed.
pub fn negative_literal(place: u64) -> Literal
    requires { place < 2 ^ 32 }
    ensures { result ≡ is_out place }
{
    Literal {
        variable: place as u32,
        positive: false,
    }
}

/// That the package at the place is installed.
pub fn positive_literal(place: u64) -> Literal
    requires { place < 2 ^ 32 }
    ensures { result ≡ is_in place }
{
    Literal {
        variable: place as u32,
        positive: true,
    }
}

/// Adds that the package at each place is installed.
///
/// # Errors
///
/// `AllocError` where memory is refused.
pub fn add_places(literals: &mut Vec<Literal>, places: &[u64]) -> Result<(), AllocError>
    requires { All (λ n. n < 2 ^ 32) places.now }
    ensures { OnOk result (literals.new.items ≡ literals.old.items ++ map is_in places.now) }
{
    for place in places {
        literals.push(positive_literal(*place))?;
    }
    Ok(())
}

/// Puts a clause: one of the literals, or that one of the packages at the places is installed.
pub(crate) fn put_one_of(
    clauses: &mut KeyedClauses,
    key: Key,
    literals: &mut Vec<Literal>,
    places: &[u64],
) -> Result<(), AllocError>
    requires places { ArePlaces clauses.old.places places.now }
    requires literals { All (IsWithin clauses.old.places) literals.old.items }
    ensures put { OnOk result (clauses.new.clauses ≡ clauses.old.clauses ++ (key_view key, literals.old.items ++ map is_in places.now) ∷ []) }
    ensures places { clauses.new.places ≡ clauses.old.places }
{
    add_places(literals, places)?;
    clauses.push(key, literals)
}

/// Puts a clause for each place: the package there isn't installed.
pub(crate) fn put_each_out(
    clauses: &mut KeyedClauses,
    key: Key,
    places: &[u64],
) -> Result<(), AllocError>
    requires { ArePlaces clauses.old.places places.now }
    ensures put { OnOk result (clauses.new.clauses ≡ clauses.old.clauses ++ map (λ n. (key_view key, is_out n ∷ [])) places.now) }
    ensures places { clauses.new.places ≡ clauses.old.places }
{
    for place in places {
        clauses.push(key, &[negative_literal(*place)])?;
    }
    Ok(())
}

/// Puts a clause for each place: the package there, or that at the first place, isn't installed.
pub(crate) fn put_pairs_out(
    clauses: &mut KeyedClauses,
    key: Key,
    first: u64,
    places: &[u64],
) -> Result<(), AllocError>
    requires first { ArePlaces clauses.old.places (first ∷ []) }
    requires places { ArePlaces clauses.old.places places.now }
    ensures put { OnOk result (clauses.new.clauses ≡ clauses.old.clauses ++ map (λ n. (key_view key, is_out first ∷ is_out n ∷ [])) places.now) }
    ensures places { clauses.new.places ≡ clauses.old.places }
{
    for place in places {
        clauses.push(key, &[negative_literal(first), negative_literal(*place)])?;
    }
    Ok(())
}

/// Whether the status gives two different numbers of the name.
fn has_several(all: &Index<'_, '_>, name: &str) -> bool
    ensures { result ≡ are_many (numbers_of name.now all.now) }
{
    let Some(least) = all.least(name) else {
        return false;
    };
    match all.greatest(name) {
        Some(greatest) => least != greatest,
        None => false,
    }
}

/// Whether a place comes after another one.
fn is_after(place: u64, other: u64) -> bool
    ensures { result ≡ nat_lt other place }
{
    place > other
}

/// Puts a clause for each of the places after the first one: the package there, or that at the first place, isn't installed.
fn put_later_out(
    clauses: &mut KeyedClauses,
    key: Key,
    first: u64,
    places: &mut Vec<u64>,
) -> Result<(), AllocError>
    requires first { IsPlace clauses.old.places first }
    requires places { ArePlaces clauses.old.places places.old.items }
    ensures put { OnOk result (clauses.new.clauses ≡ clauses.old.clauses ++ map (λ n. (key_view key, is_out first ∷ is_out n ∷ [])) (filter (λ n. nat_lt first n) places.old.items)) }
    ensures places { clauses.new.places ≡ clauses.old.places }
{
    places.retain(|place| is_after(*place, first));
    put_pairs_out(clauses, key, first, places)
}

/// Puts the clauses of the package at a place. Where it alone gives two numbers of the name, it differs from each package
/// that gives one, itself too; else from those that give another number than its own.
fn put_differing(
    all: &Index<'_, '_>,
    key: Key,
    name: &str,
    place: u64,
    places: &mut Vec<u64>,
    clauses: &mut KeyedClauses,
) -> Result<(), AllocError>
    requires fits { Fits clauses.old.places all.now }
    requires place { IsPlace clauses.old.places place }
    ensures put { OnOk result (clauses.new.clauses ≡ clauses.old.clauses ++ keyed (key_view key) (differing_at all.now name.now place)) }
    ensures places { clauses.new.places ≡ clauses.old.places }
{
    let Some(number) = all.least_at(name, place) else {
        return Ok(());
    };
    all.all_giving(name, Some((Relop::Neq, number)), places)?;
    if places.contains(&place) {
        clauses.push(key, &[negative_literal(place)])?;
        all.all_giving(name, None, places)?;
        return put_later_out(clauses, key, place, places);
    }
    put_later_out(clauses, key, place, places)
}

/// Puts the clauses of `many` of the packages at the places, as long as there is room. Gives whether there was room for
/// all.
fn put_each_differing(
    all: &Index<'_, '_>,
    key: Key,
    name: &str,
    givers: &[u64],
    to: &mut Collector,
) -> Result<bool, AllocError>
    requires fits { Fits to.old.clauses.places all.now }
    requires givers { ArePlaces to.old.clauses.places givers.now }
    requires room { length to.old.clauses.clauses ≤ to.old.room }
    ensures outcome { IfOk result (λ all_put. Outcome all_put (to.old.clauses.clauses ++ keyed (key_view key) (flat_map (differing_at all.now name.now) givers.now)) to.new) }
    ensures same { SameFrame to.old to.new }
{
    for place in givers {
        put_differing(
            all,
            key,
            name,
            *place,
            &mut to.scratch.places,
            &mut to.clauses,
        )?;
        if !to.has_room() {
            return Ok(false);
        }
    }
    Ok(true)
}

/// Puts the clauses of `many` of a name, as long as there is room: whether it was for all. A name of which no two numbers
/// differ costs nothing, however many packages give it.
pub(crate) fn put_many(
    alloc: Global,
    all: &Index<'_, '_>,
    key: Key,
    name: &str,
    to: &mut Collector,
) -> Result<bool, AllocError>
    requires fits { Fits to.old.clauses.places all.now }
    requires room { length to.old.clauses.clauses ≤ to.old.room }
    ensures outcome { IfOk result (λ all_put. Outcome all_put (to.old.clauses.clauses ++ keyed (key_view key) (flat_map (differing_at all.now name.now) (givers_of all.now name.now))) to.new) }
    ensures same { SameFrame to.old to.new }
{
    if !has_several(all, name) {
        return Ok(true);
    }
    let mut givers = Vec::new(alloc);
    all.all_giving(name, None, &mut givers)?;
    put_each_differing(all, key, name, &givers, to)
}
