ghost use Rattle.std.specs.Prelude.{◌≡◌, ◌<◌, ◌≤◌, ◌+◌, ◌++◌, ◌∷◌, [], ℕ, length, take, max, Some, IfOk};
ghost use Rattle.hume_base.specs.declared.limits.TheConstants.{MAX_STACK_WORDS as MOST_WORDS};
ghost use Rattle.std.specs.Borrow.{sem};
ghost use Rattle.box_heap.specs.Lending.{LendsRoom};
ghost use Rattle.box_heap.specs.Stacks.{at_depth, last, under, with_word};

use std::alloc::{AllocError, Global};
use std::marker::Model;

/// Words in a fixed room, the last one on top.
#[derive(Drop)]
pub struct BoxStack {
    words: Vec<u64>,
    top: usize,
    peak: usize,
}

impl Model for BoxStack {
    ghost use Rattle.std.specs.Prelude.{length, take, ◌≤◌};
    ghost use Rattle.hume_base.specs.declared.limits.TheConstants.{MAX_STACK_WORDS as MOST};
    ghost use Rattle.box_heap.specs.Stacks.{StackView};

    ghost Value = { StackView };

    ghost view = { λ stack. record { words = take stack.top stack.words.items; peak = stack.peak; room = length stack.words.items } };

    ghost invariant = { λ stack. (stack.top ≤ length stack.words.items) × (stack.peak ≤ length stack.words.items) × (length stack.words.items ≤ MOST) };
}

impl BoxStack {
    /// An empty stack with room for so many words.
    pub fn make(alloc: Global, words: u32) -> Result<BoxStack, AllocError>
        requires { words ≤ MOST_WORDS }
        ensures { IfOk result (λ stack. stack ≡ record { words = []; peak = 0; room = words }) }
    {
        Ok(BoxStack {
            words: Vec::from_elem(alloc, 0u64, words as usize)?,
            top: 0,
            peak: 0,
        })
    }

    /// Takes all words away.
    pub fn empty(&mut self)
        ensures { self.new ≡ record self.old { words = [] } }
    {
        self.top = 0;
    }

    #[inline(always)]
    pub fn push(&mut self, word: u64)
        requires { length self.old.words < self.old.room }
        ensures { self.new ≡ with_word self.old word }
    {
        self.words[self.top] = word;
        self.top += 1;
        if self.top > self.peak {
            self.peak = self.top;
        }
    }

    /// Takes the top word away.
    #[inline(always)]
    pub fn pop(&mut self) -> u64
        requires { 1 ≤ length self.old.words }
        ensures word { at_depth 0 self.old.words ≡ Some result }
        ensures left { self.new ≡ record self.old { words = under 1 self.old.words } }
    {
        self.top -= 1;
        self.words[self.top]
    }

    /// The word at that depth, 0 at the top.
    #[inline(always)]
    pub fn at(&self, depth: u32) -> u64
        requires { depth < length self.now.words }
        ensures { at_depth depth self.now.words ≡ Some result }
    {
        self.words[self.top - 1 - depth as usize]
    }

    /// The last words, the deepest first.
    pub fn top(&self, count: u32) -> &[u64]
        requires { count ≤ length self.now.words }
        ensures { result.now ≡ last count self.now.words }
    {
        &self.words[self.top - count as usize..self.top]
    }

    /// Takes so many words out under the top one.
    pub fn slide(&mut self, count: u32)
        requires { count + 1 ≤ length self.old.words }
        ensures { (word : ℕ) → at_depth 0 self.old.words ≡ Some word
            → self.new ≡ record self.old { words = under (1 + count) self.old.words ++ word ∷ [] } }
    {
        self.keeps_room();
        let word = self.pop();
        self.drop_last(count);
        self.put_back(word);
    }

    // Takes the last words away.
    #[inline(always)]
    fn drop_last(&mut self, count: u32)
        requires { count ≤ length self.old.words }
        ensures { self.new ≡ record self.old { words = under count self.old.words } }
    {
        self.top -= count as usize;
    }

    // There are no more words than it has room for.
    #[inline(always)]
    fn keeps_room(&self)
        ensures { length self.now.words ≤ self.now.room }
    {
        let _room = self.top;
    }

    // A word more, where there were as many before.
    fn put_back(&mut self, word: u64)
        requires { length self.old.words < self.old.room }
        ensures { self.new ≡ record self.old { words = self.old.words ++ word ∷ [] } }
    {
        self.words[self.top] = word;
        self.top += 1;
    }

    /// Lends all words of its room, those on the stack first. Then all of them are on the stack, until `set` says how many.
    pub fn lend(&mut self) -> &mut [u64]
        ensures* writes_back { sem 𝓛 (LendsRoom self.entry result) }
        ensures front { take (length self.old.words) result.now ≡ self.old.words }
        ensures whole { length result.now ≡ self.old.room }
    {
        self.top = self.words.len();
        self.words.as_mut_slice()
    }

    /// Leaves only the first `count` words, and sets the most that there were to `peak`; nothing else changes. It is called once
    /// after `lend`, by who wrote the words: `peak` has to be the most words that were in use at any time since the stack was made,
    /// so no less than `count`, and no less than before `lend`.
    pub fn set(&mut self, count: usize, peak: usize)
        requires count { count ≤ length self.old.words }
        requires peak { peak ≤ self.old.room }
        ensures { self.new ≡ record self.old { words = take count self.old.words; peak = peak } }
    {
        self.top = count;
        self.peak = peak;
    }

    /// How many words there are.
    pub fn len(&self) -> u32
        ensures { result ≡ length self.now.words }
    {
        self.top as u32
    }

    /// The most words that there were since it was made.
    pub fn peak(&self) -> u32
        ensures { result ≡ self.now.peak }
    {
        self.peak as u32
    }
}
