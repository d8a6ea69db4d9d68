ghost use Rattle.std.specs.Prelude.{◌≡◌, ◌≤◌, ◌+◌, [], ◌∷◌, length, take, drop, reverse, IfOk, OnOk, OnErr, IfSome, MatchOption};

use std::alloc::{AllocError, Global};
use std::marker::Model;

/// Numbers, the last one first.
#[derive(Drop)]
pub(crate) struct NumberStack {
    numbers: Vec<u32>,
}

impl Model for NumberStack {
    ghost use Rattle.std.specs.Prelude.{List, ℕ, reverse};

    ghost Value = { List ℕ };

    ghost view = { λ stack. reverse stack.numbers.items };
}

impl NumberStack {
    pub(crate) fn new(alloc: Global) -> NumberStack
        ensures { result ≡ [] }
    {
        NumberStack {
            numbers: Vec::new(alloc),
        }
    }

    pub(crate) fn push(&mut self, number: u32) -> Result<(), AllocError>
        ensures ok { OnOk result (self.new ≡ number ∷ self.old) }
        ensures err { OnErr result (self.new ≡ self.old) }
    {
        self.numbers.push(number)?;
        Ok(())
    }

    pub(crate) fn pop(&mut self) -> Option<u32>
        ensures { MatchOption result ((self.old ≡ []) × (self.new ≡ [])) (λ number. self.old ≡ number ∷ self.new) }
    {
        self.numbers.pop()
    }

    pub(crate) fn last(&self) -> Option<u32>
        ensures { MatchOption result (self.now ≡ []) (λ number. self.now ≡ number ∷ drop 1 self.now) }
    {
        self.from_last(0)
    }

    pub(crate) fn before_last(&self) -> Option<u32>
        ensures { IfSome result (λ number. drop 1 self.now ≡ number ∷ drop 2 self.now) }
    {
        self.from_last(1)
    }

    // The number below so many others.
    fn from_last(&self, others: usize) -> Option<u32>
        ensures { MatchOption result (length self.now ≤ others) (λ number. drop others self.now ≡ number ∷ drop (others + 1) self.now) }
    {
        let count = self.numbers.len();
        if count <= others {
            return None;
        }
        Some(self.numbers[count - 1 - others])
    }

    /// Takes the last numbers out, in the order in which they were pushed.
    pub(crate) fn take_last(&mut self, count: usize) -> Result<Vec<u32>, AllocError>
        ensures taken { IfOk result (λ numbers. numbers.items ≡ reverse (take count self.old)) }
        ensures left { OnOk result (self.new ≡ drop count self.old) }
        ensures err { OnErr result (self.new ≡ self.old) }
    {
        if count > self.numbers.len() {
            return Err(AllocError);
        }
        let at = self.numbers.len() - count;
        let numbers = self.numbers.split_off(at)?;
        Ok(numbers)
    }
}
