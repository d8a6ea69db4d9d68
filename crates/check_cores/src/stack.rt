ghost use Rattle.std.specs.Prelude.{◌≡◌, [], ◌∷◌, ◌++◌, take, drop, reverse, IfOk, OnOk, MatchOption};
ghost use Rattle.check_cores.specs.Stacks.{lifted};

use std::alloc::{AllocError, Global};
use std::marker::Model;

/// Items, the last one first.
#[derive(Drop)]
pub struct Stack<T> {
    items: Vec<T>,
}

impl<T> Model for Stack<T> {
    ghost use Rattle.std.specs.Prelude.{List, reverse};
    ghost use Rattle.std.specs.Coded.{coded_list};

    ghost Value = { List T };

    ghost coded = { coded_list T.code };

    ghost view = { λ stack. reverse stack.items.items };
}

impl<T> Stack<T> {
    pub fn new(alloc: Global) -> Stack<T>
        ensures { result ≡ [] }
    {
        Stack {
            items: Vec::new(alloc),
        }
    }

    /// Where memory for the items comes from.
    pub(crate) fn alloc(&self) -> Global {
        *self.items.allocator()
    }
}

impl<T: Drop> Stack<T> {
    pub fn push(&mut self, item: T) -> Result<(), AllocError>
        ensures { OnOk result (self.new ≡ item ∷ self.old) }
    {
        self.items.push(item)?;
        Ok(())
    }

    pub fn pop(&mut self) -> Option<T>
        ensures { MatchOption result ((self.old ≡ []) × (self.new ≡ [])) (λ item. self.old ≡ item ∷ self.new) }
    {
        self.items.pop()
    }

    /// Takes the last items out, in the order in which they were pushed.
    pub fn take_last(&mut self, count: usize) -> Result<Vec<T>, AllocError>
        ensures taken { IfOk result (λ items. items.items ≡ reverse (take count self.old)) }
        ensures left { OnOk result (self.new ≡ drop count self.old) }
    {
        if count > self.items.len() {
            return Err(AllocError);
        }
        let at = self.items.len() - count;
        let items = self.items.split_off(at)?;
        Ok(items)
    }

    /// Puts items on the stack, so that the first of them is the last one of the stack.
    pub fn push_all(&mut self, items: &[T]) -> Result<(), AllocError>
    where
        T: Copy,
        ensures { OnOk result (self.new ≡ items.now ++ self.old) }
    {
        let mut left = items.len();
        while left > 0 {
            left -= 1;
            self.push(items[left])?;
        }
        Ok(())
    }

    /// Moves the item below so many others to the end.
    pub fn lift(&mut self, others: usize) -> Result<(), AllocError>
        ensures { OnOk result (self.new ≡ lifted others self.old) }
    {
        if others >= self.items.len() {
            return Err(AllocError);
        }
        let at = self.items.len() - 1 - others;
        let item = self.items.remove(at);
        self.items.push(item)?;
        Ok(())
    }
}
