//! The numbers that some packages give of a name, to be counted by package.
ghost use Rattle.std.specs.Prelude.{◌≡◌, ◌≤◌, ◌+◌, ◌-◌, ◌*◌, ◌/◌, ◌==◌, length};
ghost use Rattle.std.specs.List.{count_by};
ghost use Rattle.cudf_index.specs.Promises.Counts.{count_pairs};
ghost use Rattle.cudf_index.specs.Working.NumbersByPackage.{count_over, is_same};

use crate::index::sorted::SortedNumbers;
use crate::steps::Steps;
use cudf_value::Relop;

/// What packages that give numbers of a name give of it. A package gives a number that meets a bound exactly where its
/// least or its greatest does, or where the bound is that of one number.
#[derive(Drop)]
pub(crate) struct NumbersByPackage {
    /// The least number of each package.
    pub(crate) least: SortedNumbers,
    /// The greatest of each.
    pub(crate) greatest: SortedNumbers,
    /// All numbers, those of one package each once.
    pub(crate) each: SortedNumbers,
    /// The numbers of those packages that give one alone.
    pub(crate) only: SortedNumbers,
    ghost fewer: { length only ≤ length least },
}

impl NumbersByPackage {
    /// How many of the packages give a number that meets the bound.
    pub(crate) fn count(&self, bound: Option<(Relop, u64)>) -> usize
        ensures { result ≡ count_over bound self.now.least self.now.greatest self.now.each self.now.only }
    {
        let steps = &mut Steps::new();
        match bound {
            None => self.least.len(),
            Some((Relop::Eq, _)) => self.each.count(bound, steps),
            Some((Relop::Neq, number)) => self.least.len() - self.alone(number, steps),
            Some((Relop::Geq | Relop::Gt, _)) => self.greatest.count(bound, steps),
            Some((Relop::Leq | Relop::Lt, _)) => self.least.count(bound, steps),
        }
    }

    /// How many give this number alone.
    fn alone(&self, number: u64, steps: &mut Steps) -> usize
        ensures counted { result ≡ count_by (λ m. m == number) self.now.only }
        ensures fewer { result ≤ length self.now.least }
    {
        self.only.count(Some((Relop::Eq, number)), steps)
    }
}

/// How many pairs of packages give two different numbers, each package with itself, and with each after it: of all pairs
/// those that don't are of two packages that give one number alone, and the same.
pub(crate) fn differing(numbers: &NumbersByPackage) -> u128
    ensures { result ≡ (length numbers.now.least * length numbers.now.least + length numbers.now.least - 2 * count_pairs is_same numbers.now.only) / 2 }
{
    let all = numbers.least.len() as u128;
    let single = numbers.only.len() as u128;
    (all * all + all - (equal_pairs(&numbers.only) + single)) / 2
}

/// How many ordered pairs of the numbers are equal, each number with itself too.
fn equal_pairs(numbers: &SortedNumbers) -> u128
    ensures counted { result + length numbers.now ≡ 2 * count_pairs is_same numbers.now }
    ensures within { result ≤ length numbers.now * length numbers.now }
{
    let mut pairs = 0;
    for number in numbers.as_slice() {
        pairs += numbers.count(Some((Relop::Eq, *number)), &mut Steps::new()) as u128;
    }
    pairs
}
