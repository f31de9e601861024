//! Merging of two sorted lists of variables, and formulas, sorted.
ghost use Rattle.std.specs.Prelude.{◌≡◌, ◌≤◌, [], OnOk, IfOk, drop, length, take, ◌<◌, ◌^◌, slice_index_or};
ghost use Rattle.cudf_better.specs.Cardinality.{added, at_least, both_of, compared, evens, merged, sum_definition, counter, sorted};
ghost use Rattle.cudf_better.specs.Working.Definitions.{Puts, is_direct, with_terms, at_most, single};

use crate::constraint::{Definitions, Formulas};
use cudf_cnf::positive_literal;
use std::alloc::{AllocError, Global};

/// Two lists of at most so many variables are merged by their sums.
const SHORT: usize = 32;

/// Puts a term of a sum: so many of one list are true, and so many of the other.
fn put_pair(
    definitions: &mut Definitions,
    xs: &[u32],
    i: usize,
    ys: &[u32],
    j: usize,
) -> Result<(), AllocError>
    ensures { OnOk result (definitions.new ≡ with_terms definitions.old (both_of (at_least i xs.now) (at_least j ys.now))) }
{
    if i > xs.len() || j > ys.len() {
        return Ok(());
    }
    if i == 0 {
        if j == 0 {
            return definitions.put(&[]);
        }
        return definitions.put(&[positive_literal(ys[j - 1] as u64)]);
    }
    if j == 0 {
        return definitions.put(&[positive_literal(xs[i - 1] as u64)]);
    }
    definitions.put(&[
        positive_literal(xs[i - 1] as u64),
        positive_literal(ys[j - 1] as u64),
    ])
}

/// Puts the definition of a sum: so many of two sorted lists are true.
fn put_sum(
    definitions: &mut Definitions,
    xs: &[u32],
    ys: &[u32],
    total: usize,
) -> Result<(), AllocError>
    ensures { OnOk result (definitions.new ≡ with_terms definitions.old (sum_definition xs.now ys.now total)) }
{
    for i in 0..=total {
        put_pair(definitions, xs, i, ys, total - i)?;
    }
    Ok(())
}

/// Merges two sorted lists by their sums up to `most`: the outputs.
fn put_added(
    definitions: &mut Definitions,
    most: usize,
    xs: &[u32],
    ys: &[u32],
) -> Result<Vec<u32>, AllocError>
    ensures { IfOk result (λ outputs. Puts (added most definitions.old.next xs.now ys.now) definitions.old [] definitions.new outputs.items) }
{
    let mut outputs = Vec::new(definitions.alloc());
    let n = most.min(xs.len() + ys.len());
    for total in 0..n {
        put_sum(definitions, xs, ys, total + 1)?;
        let variable = definitions.finish_variable();
        outputs.push(variable)?;
    }
    Ok(outputs)
}

/// Puts a comparator for the two variables of each index, and adds the outputs; those without another as they are.
fn put_compared(
    definitions: &mut Definitions,
    xs: &[u32],
    ys: &[u32],
    outputs: &mut Vec<u32>,
) -> Result<(), AllocError>
    ensures { OnOk result (Puts (compared definitions.old.next xs.now ys.now) definitions.old outputs.old.items definitions.new outputs.new.items) }
{
    let n = xs.len().min(ys.len());
    for i in 0..n {
        let x = positive_literal(xs[i] as u64);
        let y = positive_literal(ys[i] as u64);
        definitions.put(&[x])?;
        definitions.put(&[y])?;
        let one = definitions.finish_variable();
        outputs.push(one)?;
        definitions.put(&[x, y])?;
        let both = definitions.finish_variable();
        outputs.push(both)?;
    }
    let more = &xs[n..];
    outputs.extend_from_slice(more)?;
    let others = &ys[n..];
    outputs.extend_from_slice(others)?;
    Ok(())
}

/// Every second variable, from an index on.
fn every_second(alloc: Global, variables: &[u32], from: usize) -> Result<Vec<u32>, AllocError>
    requires { from ≤ length variables.now }
    ensures { IfOk result (λ found. found.items ≡ evens (drop from variables.now)) }
{
    let mut found = Vec::new(alloc);
    let mut i = from;
    while i < variables.len() {
        found.push(variables[i])?;
        i += 1;
        if i < variables.len() {
            i += 1;
        }
    }
    Ok(found)
}

/// Whether two lists are merged by their sums: at depth 0, or where neither has more than 32 variables.
fn is_direct(depth: u32, xs: &[u32], ys: &[u32]) -> bool
    ensures { result ≡ is_direct depth xs.now ys.now }
{
    depth == 0 || (xs.len() <= SHORT && ys.len() <= SHORT)
}

/// The same variables.
fn copied(alloc: Global, variables: &[u32]) -> Result<Vec<u32>, AllocError>
    ensures { IfOk result (λ copy. copy.items ≡ variables.now) }
{
    let mut copy = Vec::new(alloc);
    copy.extend_from_slice(variables)?;
    Ok(copy)
}

/// Puts the last step of a merge, where the elements of even index and those of odd index were merged: the outputs.
fn put_last(
    definitions: &mut Definitions,
    even: &[u32],
    odd: &[u32],
) -> Result<Vec<u32>, AllocError>
    ensures { IfOk result (λ outputs. Puts (compared definitions.old.next odd.now (drop 1 even.now)) definitions.old (take 1 even.now) definitions.new outputs.items) }
{
    let first = even.len().min(1);
    let front = &even[..first];
    let mut outputs = copied(definitions.alloc(), front)?;
    let rest = &even[first..];
    put_compared(definitions, odd, rest, &mut outputs)?;
    Ok(outputs)
}

/// Merges two sorted lists: the outputs.
pub(crate) fn put_merged(
    definitions: &mut Definitions,
    most: usize,
    depth: u32,
    xs: &[u32],
    ys: &[u32],
) -> Result<Vec<u32>, AllocError>
    ensures { IfOk result (λ outputs. Puts (merged most depth definitions.old.next xs.now ys.now) definitions.old [] definitions.new outputs.items) }
{
    let alloc = definitions.alloc();
    if xs.len() == 0 {
        return copied(alloc, ys);
    }
    if ys.len() == 0 {
        return copied(alloc, xs);
    }
    if is_direct(depth, xs, ys) {
        return put_added(definitions, most, xs, ys);
    }
    let even_xs = every_second(alloc, xs, 0)?;
    let even_ys = every_second(alloc, ys, 0)?;
    let even = put_merged(definitions, most, depth - 1, &even_xs, &even_ys)?;
    let odd_xs = every_second(alloc, xs, 1)?;
    let odd_ys = every_second(alloc, ys, 1)?;
    let odd = put_merged(definitions, most, depth - 1, &odd_xs, &odd_ys)?;
    put_last(definitions, &even, &odd)
}

/// Puts the definition of a formula, by its index: the variable, alone.
fn put_one(
    definitions: &mut Definitions,
    formulas: &Formulas,
    index: usize,
) -> Result<Vec<u32>, AllocError>
    requires { index < length formulas.now }
    ensures { IfOk result (λ outputs. Puts (single definitions.old.next (slice_index_or formulas.now index [])) definitions.old [] definitions.new outputs.items) }
{
    let mut outputs = Vec::new(definitions.alloc());
    formulas.put(definitions, index)?;
    let variable = definitions.finish_variable();
    outputs.push(variable)?;
    Ok(outputs)
}

/// Puts a network that sorts the next 2 ^ `depth` formulas, or those that are left, and goes on behind them: its outputs.
fn put_sorted(
    definitions: &mut Definitions,
    formulas: &Formulas,
    at: &mut usize,
    most: usize,
    depth: u32,
) -> Result<Vec<u32>, AllocError>
    ensures sorted { IfOk result (λ outputs. Puts (sorted most depth definitions.old.next (take (2 ^ depth) (drop at.old formulas.now))) definitions.old [] definitions.new outputs.items) }
    ensures at { OnOk result (drop at.new formulas.now ≡ drop (2 ^ depth) (drop at.old formulas.now)) }
{
    let index = *at;
    if index >= formulas.len() {
        return Ok(Vec::new(definitions.alloc()));
    }
    if depth == 0 {
        *at = index + 1;
        return put_one(definitions, formulas, index);
    }
    let left = put_sorted(definitions, formulas, at, most, depth - 1)?;
    let right = put_sorted(definitions, formulas, at, most, depth - 1)?;
    let mut outputs = put_merged(definitions, most, depth - 1, &left, &right)?;
    outputs.truncate(most);
    Ok(outputs)
}

/// Puts the counter of a constraint: its outputs.
pub(crate) fn put_counter(
    definitions: &mut Definitions,
    formulas: &Formulas,
    most: usize,
) -> Result<Vec<u32>, AllocError>
    ensures { IfOk result (λ outputs. Puts (counter definitions.old.next (at_most most formulas.now)) definitions.old [] definitions.new outputs.items) }
{
    let wanted = most.saturating_add(1).min(formulas.len());
    let mut at = 0;
    put_sorted(definitions, formulas, &mut at, wanted, 32)
}
