//! How counted costs make up others.
ghost use Rattle.std.specs.Prelude.{◌≡◌, ◌+◌, ◌*◌, ℕ};
ghost use Rattle.box_costs.specs.declared.cost.Cost.{Cost as AnyCost};
ghost use Rattle.box_costs.specs.Costs.{nothing as no_cost, instructions as instructions_cost, objects as objects_cost, pushed as pushed_cost, made as made_cost, above as above_cost, both as both_costs, either as either_cost, with_variables as with_variables_cost};
ghost use Rattle.space_costs.specs.inner.Standing.{IsCostOf, counted as counted_number};

use box_costs::Cost;
use hume_base::limits::{MAX_SPACE_WORDS, MAX_WORK};

/// The number, as it is counted.
pub(crate) fn counted(number: usize) -> u32
    ensures { result ≡ counted_number number }
{
    number.min(MAX_SPACE_WORDS as usize + 1) as u32
}

pub(crate) fn sum(left: u32, right: u32) -> u32
    ensures { (a b : ℕ) → left ≡ counted_number a → right ≡ counted_number b → result ≡ counted_number (a + b) }
{
    left.saturating_add(right).min(MAX_SPACE_WORDS + 1)
}

pub(crate) fn nothing() -> Cost
    ensures { IsCostOf result no_cost }
{
    Cost {
        heap: 0,
        stack: 0,
        work: 0,
    }
}

pub(crate) fn pushed() -> Cost
    ensures { IsCostOf result pushed_cost }
{
    Cost {
        heap: 0,
        stack: 1,
        work: 1,
    }
}

pub(crate) fn instructions(count: u32) -> Cost
    ensures { (n : ℕ) → count ≡ counted_number n → IsCostOf result (instructions_cost n) }
{
    Cost {
        heap: 0,
        stack: 0,
        work: count.min(MAX_WORK + 1),
    }
}

pub(crate) fn objects(words: u32) -> Cost
    ensures { (n : ℕ) → words ≡ counted_number n → IsCostOf result (objects_cost n) }
{
    Cost {
        heap: words,
        stack: 0,
        work: 0,
    }
}

pub(crate) fn made(words: u32) -> Cost
    ensures { (n : ℕ) → words ≡ counted_number n → IsCostOf result (made_cost n) }
{
    Cost {
        heap: words.saturating_add(1).min(MAX_SPACE_WORDS + 1),
        stack: 1,
        work: 1,
    }
}

pub(crate) fn above(words: u32, x: Cost) -> Cost
    ensures { (n : ℕ) (a : AnyCost) → words ≡ counted_number n → IsCostOf x a → IsCostOf result (above_cost n a) }
{
    Cost {
        heap: x.heap,
        stack: words.saturating_add(x.stack).min(MAX_SPACE_WORDS + 1),
        work: x.work,
    }
}

pub(crate) fn both(x: Cost, y: Cost) -> Cost
    ensures { (a b : AnyCost) → IsCostOf x a → IsCostOf y b → IsCostOf result (both_costs a b) }
{
    Cost {
        heap: x.heap.saturating_add(y.heap).min(MAX_SPACE_WORDS + 1),
        stack: x.stack.max(y.stack),
        work: x.work.saturating_add(y.work).min(MAX_WORK + 1),
    }
}

pub(crate) fn either(x: Cost, y: Cost) -> Cost
    ensures { (a b : AnyCost) → IsCostOf x a → IsCostOf y b → IsCostOf result (either_cost a b) }
{
    Cost {
        heap: x.heap.max(y.heap),
        stack: x.stack.max(y.stack),
        work: x.work.max(y.work),
    }
}

/// A part, and those that stand above it.
pub(crate) fn before(part: Cost, parts: Cost) -> Cost
    ensures { (a b : AnyCost) → IsCostOf part a → IsCostOf parts b → IsCostOf result (both_costs a (above_cost 1 b)) }
{
    both(part, above(1, parts))
}

pub(crate) fn with_variables(variables: u32, ending: u32, x: Cost) -> Cost
    ensures { (n m : ℕ) (a : AnyCost) → variables ≡ counted_number n → ending ≡ counted_number m → IsCostOf x a
        → IsCostOf result (with_variables_cost n m a) }
{
    above(
        variables,
        both(instructions(variables), both(x, instructions(ending))),
    )
}

/// The tests of several ways, and the dearest of them.
pub(crate) fn one_way(tests: u32, taken: Cost) -> Cost
    ensures { (n : ℕ) (a : AnyCost) → tests ≡ counted_number n → IsCostOf taken a
        → IsCostOf result (both_costs (instructions_cost n) (either_cost (instructions_cost 1) a)) }
{
    both(instructions(tests), either(instructions(1), taken))
}
