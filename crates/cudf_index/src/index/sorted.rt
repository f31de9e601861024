//! Numbers in ascending order, to be counted; mostly there are one or two.
ghost use Rattle.std.specs.Prelude.{◌≡◌, ◌==◌, ◌<◌, ◌≤◌, ◌+◌, ◌*◌, ℕ, Bool, Some, [], ◌∷◌, nat_lt, nat_le, length, slice_index_or};
ghost use Rattle.std.specs.List.{count_by};
ghost use Rattle.std.specs.List.Sorted.{IsNonDecreasing, IsPermutation};
ghost use Rattle.cudf_value.specs.declared.vpkg.Relop.TheVariants.{Eq};
ghost use Rattle.cudf_value.specs.Vpkgs.{meets};
ghost use Rattle.cudf_index.specs.Promises.Members.{IsLeast, IsGreatest};
ghost use Rattle.cudf_index.specs.Promises.Prices.{digits};
ghost use Rattle.cudf_index.specs.Working.Ends.{StandsUnder};
ghost use Rattle.cudf_index.specs.Working.Numbers.{numbers_in};

use crate::steps::Steps;
use cudf_value::{Relop, meets};
use std::alloc::Global;
use std::marker::Model;
use std::slice;

/// Numbers in ascending order, with repeats.
#[derive(Drop)]
pub(crate) struct SortedNumbers {
    numbers: Numbers,
}

impl Model for SortedNumbers {
    ghost use Rattle.std.specs.Prelude.{List, ℕ};
    ghost use Rattle.std.specs.List.Sorted.{IsNonDecreasing};
    ghost use Rattle.cudf_index.specs.Working.Numbers.{numbers_in};

    ghost Value = { List ℕ };

    ghost view = { λ s. numbers_in s.numbers };

    ghost invariant = { λ s. IsNonDecreasing (numbers_in s.numbers) };
}

impl SortedNumbers {
    /// No numbers. It takes no memory.
    pub(crate) fn none(alloc: Global) -> Self
        ensures { result ≡ [] }
    {
        SortedNumbers {
            numbers: Numbers::Others(Vec::new(alloc)),
        }
    }

    /// One number. It takes no memory.
    pub(crate) fn one(number: u64) -> Self
        ensures { result ≡ number ∷ [] }
    {
        SortedNumbers {
            numbers: Numbers::One(number),
        }
    }

    /// These numbers, in ascending order.
    pub(crate) fn new(numbers: Vec<u64>) -> Self
        ensures counts { (p : ℕ → Bool) → count_by p result ≡ count_by p numbers.items }
        ensures ascending { IsNonDecreasing result }
        ensures permutation { IsPermutation numbers.items result }
    {
        let mut numbers = numbers;
        numbers.sort_unstable();
        SortedNumbers {
            numbers: Numbers::new(numbers),
        }
    }

    /// Whether one of them meets the bound: by both ends, or by one search.
    pub(crate) fn any(&self, bound: Option<(Relop, u64)>, steps: &mut Steps) -> bool
        ensures answer { result ≡ nat_lt 0 (count_by (meets bound) self.now) }
        ensures price { steps.new ≤ steps.old + 2 * digits (length self.now) }
        ensures grows { steps.old ≤ steps.new }
    {
        match bound {
            Some((Relop::Eq, number)) => self.holds(number, steps),
            _ => self.any_end(bound, steps),
        }
    }

    /// Whether the least or the greatest of them meets the bound, as one does where any does: unless it is that of one
    /// number alone.
    fn any_end(&self, bound: Option<(Relop, u64)>, steps: &mut Steps) -> bool
        requires { (n : ℕ) → bound ≡ Some (Eq, n) → ⊥ }
        ensures answer { result ≡ nat_lt 0 (count_by (meets bound) self.now) }
        ensures price { steps.new ≤ steps.old + 2 * digits (length self.now) }
        ensures grows { steps.old ≤ steps.new }
    {
        let _ = &self.numbers; // for the prover
        let len = self.len();
        if len == 0 {
            return false;
        }
        let least = self.at(0, steps);
        let greatest = self.at(len - 1, steps);
        meets(bound, least) | meets(bound, greatest)
    }

    /// Whether the number is one of them: the greatest is compared first, which most names have alone.
    fn holds(&self, number: u64, steps: &mut Steps) -> bool
        ensures answer { result ≡ nat_lt 0 (count_by (λ n. n == number) self.now) }
        ensures price { steps.new ≤ steps.old + 2 * digits (length self.now) }
        ensures grows { steps.old ≤ steps.new }
    {
        let _ = &self.numbers; // for the prover
        let len = self.len();
        if len == 0 {
            return false;
        }
        let greatest = self.at(len - 1, steps);
        if greatest <= number {
            return greatest == number;
        }
        let place = self.below(u128::from(number), len - 1, steps);
        self.at(place, steps) == number
    }

    /// How many of them meet the bound.
    pub(crate) fn count(&self, bound: Option<(Relop, u64)>, steps: &mut Steps) -> usize
        ensures counted { result ≡ count_by (meets bound) self.now }
        ensures price { steps.new ≤ steps.old + 2 * digits (length self.now) }
        ensures grows { steps.old ≤ steps.new }
    {
        match bound {
            None => self.len(),
            Some((Relop::Eq, number)) => self.equal(number, steps),
            Some((Relop::Neq, number)) => self.len() - self.equal(number, steps),
            Some((Relop::Geq, number)) => self.len() - self.under(number, steps),
            Some((Relop::Gt, number)) => self.len() - self.up_to(number, steps),
            Some((Relop::Leq, number)) => self.up_to(number, steps),
            Some((Relop::Lt, number)) => self.under(number, steps),
        }
    }

    /// The least of them.
    pub(crate) fn least(&self, steps: &mut Steps) -> Option<u64>
        ensures least { IsLeast self.now result }
        ensures price { steps.new ≤ steps.old + 1 }
        ensures grows { steps.old ≤ steps.new }
    {
        let _ = &self.numbers; // for the prover
        if self.len() == 0 {
            return None;
        }
        Some(self.at(0, steps))
    }

    /// The greatest of them.
    pub(crate) fn greatest(&self, steps: &mut Steps) -> Option<u64>
        ensures greatest { IsGreatest self.now result }
        ensures price { steps.new ≤ steps.old + 1 }
        ensures grows { steps.old ≤ steps.new }
    {
        let _ = &self.numbers; // for the prover
        let len = self.len();
        if len == 0 {
            return None;
        }
        Some(self.at(len - 1, steps))
    }

    /// How many there are.
    pub(crate) fn len(&self) -> usize
        ensures { result ≡ length self.now }
    {
        self.numbers.as_slice().len()
    }

    /// The numbers, ascending.
    pub(crate) fn as_slice(&self) -> &[u64]
        ensures { result.now ≡ self.now }
    {
        self.numbers.as_slice()
    }

    /// How many of the numbers are equal to this one.
    fn equal(&self, number: u64, steps: &mut Steps) -> usize
        ensures counted { result ≡ count_by (λ n. n == number) self.now }
        ensures price { steps.new ≤ steps.old + 2 * digits (length self.now) }
        ensures grows { steps.old ≤ steps.new }
    {
        let up_to = self.up_to(number, steps);
        up_to - self.under(number, steps)
    }

    /// How many of the numbers are less than this one.
    fn under(&self, number: u64, steps: &mut Steps) -> usize
        ensures counted { result ≡ count_by (λ n. nat_lt n number) self.now }
        ensures price { steps.new ≤ steps.old + digits (length self.now) }
        ensures grows { steps.old ≤ steps.new }
    {
        self.below(u128::from(number), self.len(), steps)
    }

    /// How many of the numbers are at most this one.
    fn up_to(&self, number: u64, steps: &mut Steps) -> usize
        ensures counted { result ≡ count_by (λ n. nat_le n number) self.now }
        ensures price { steps.new ≤ steps.old + digits (length self.now) }
        ensures grows { steps.old ≤ steps.new }
    {
        self.below(u128::from(number) + 1, self.len(), steps)
    }

    /// How many of them are less than the bound, where those from `high` on aren't.
    fn below(&self, bound: u128, high: usize, steps: &mut Steps) -> usize
        requires within { high ≤ length self.now }
        requires behind { (k : ℕ) → high ≤ k → k < length self.now → bound ≤ slice_index_or self.now k 0 }
        ensures counted { result ≡ count_by (λ n. nat_lt n bound) self.now }
        ensures stands { StandsUnder self.now bound high result }
        ensures price { steps.new ≤ steps.old + digits high }
        ensures grows { steps.old ≤ steps.new }
    {
        let _ = &self.numbers; // for the prover
        let mut low = 0;
        let mut high = high;
        while low < high {
            let middle = low + (high - low) / 2;
            if u128::from(self.at(middle, steps)) < bound {
                low = middle + 1;
            } else {
                high = middle;
            }
        }
        low
    }

    /// The number at this index, from 0, for one step. No other function reads numbers.
    fn at(&self, place: usize, steps: &mut Steps) -> u64
        requires { place < length self.now }
        ensures value { (d : ℕ) → result ≡ slice_index_or self.now place d }
        ensures price { steps.new ≡ steps.old + 1 }
    {
        steps.tick();
        self.numbers.as_slice()[place]
    }
}

/// Numbers in their order. One or two, as most names have, are next to what else is kept of the
/// name, so that a look at them goes to no other block of memory.
#[derive(Drop)]
pub(crate) enum Numbers {
    One(u64),
    Two([u64; 2]),
    Others(Vec<u64>),
}

impl Numbers {
    ghost use Rattle.std.specs.Prelude.{◌≡◌};
    ghost use Rattle.cudf_index.specs.Working.Numbers.{numbers_in};

    pub(crate) fn new(numbers: Vec<u64>) -> Self
        ensures { numbers_in result ≡ numbers.items }
    {
        match numbers.as_slice() {
            [number] => Numbers::One(*number),
            [first, second] => Numbers::Two([*first, *second]),
            _ => Numbers::Others(numbers),
        }
    }

    pub(crate) fn as_slice(&self) -> &[u64]
        ensures { result.now ≡ numbers_in self.now }
    {
        match self {
            Numbers::One(number) => slice::from_ref(number),
            Numbers::Two(both) => both,
            Numbers::Others(numbers) => numbers.as_slice(),
        }
    }
}
