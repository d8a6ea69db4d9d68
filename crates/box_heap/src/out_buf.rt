ghost use Rattle.std.specs.Prelude.{◌≡◌, ◌<◌, ℕ, List, [], ◌∷◌, length, map, Option, Some, None, slice_get, slice_set, replicate, IfOk, MatchOption};
ghost use Rattle.std.specs.Borrow.{sem};
ghost use Rattle.box_heap.specs.Lending.{LendsOutput};
ghost use Rattle.box_heap.specs.inner.LentOutputs.{LendsWords};
ghost use Rattle.box_heap.specs.Outputs.{OutputView, absent, with_words, begun};

use std::alloc::{AllocError, Global};
use std::marker::Model;

// Room for the words of one output.
#[derive(Drop)]
struct Output {
    words: Vec<u64>,
    present: bool,
}

impl Model for Output {
    ghost use Rattle.box_heap.specs.Outputs.{OutputView, output_in};

    ghost Value = { OutputView };

    ghost view = { λ output. output_in output.present output.words.items };
}

impl Output {
    #[inline(always)]
    fn remove(&mut self)
        ensures { self.new ≡ absent self.old.size }
    {
        self.present = false;
    }

    fn begin(&mut self)
        ensures { self.new ≡ begun self.old }
    {
        self.words.fill(0);
        self.present = true;
    }

    fn open(&mut self) -> &mut [u64]
        ensures* writes_back { sem 𝓛 (LendsWords self.entry result) }
        ensures zeros { result.now ≡ replicate self.old.size 0 }
    {
        self.begin();
        self.words.as_mut_slice()
    }

    #[inline(always)]
    fn fill(&mut self, word: u64)
        requires { self.old.size ≡ 1 }
        ensures { self.new ≡ with_words self.old (word ∷ []) }
    {
        self.words[0] = word;
        self.present = true;
    }

    fn put(&mut self, at: usize, word: u64)
        requires { (words : List ℕ) × (self.old.words ≡ Some words) × (at < length words) }
        ensures { (words : List ℕ) → self.old.words ≡ Some words → self.new ≡ with_words self.old (slice_set words at word) }
    {
        self.words[at] = word;
    }

    fn get(&self) -> Option<&[u64]>
        ensures { MatchOption result (self.now.words ≡ None) (λ words. self.now.words ≡ Some words.now) }
    {
        if self.present {
            Some(self.words.as_slice())
        } else {
            None
        }
    }
}

/// The words of a box's outputs, each of which is present or absent.
#[derive(Drop)]
pub struct OutBuf {
    outputs: Vec<Output>,
}

impl Model for OutBuf {
    ghost use Rattle.std.specs.Prelude.{List};
    ghost use Rattle.box_heap.specs.Outputs.{OutputView};

    ghost Value = { List OutputView };

    ghost view = { λ buffer. buffer.outputs.items };
}

impl OutBuf {
    /// Room for outputs of so many words each, all absent.
    pub fn make(alloc: Global, sizes: &[u32]) -> Result<OutBuf, AllocError>
        ensures { IfOk result (λ buffer. buffer ≡ map absent sizes.now) }
    {
        let mut outputs = Vec::new(alloc);
        for size in sizes {
            outputs.push(Output {
                words: Vec::from_elem(alloc, 0u64, *size as usize)?,
                present: false,
            })?;
        }
        Ok(OutBuf { outputs })
    }

    /// The output becomes absent.
    #[inline(always)]
    pub fn remove(&mut self, i: usize)
        requires { i < length self.old }
        ensures { (output : OutputView) → slice_get self.old i ≡ Some output → self.new ≡ slice_set self.old i (absent output.size) }
    {
        self.outputs[i].remove();
    }

    /// The output becomes present, with words that are all 0.
    pub fn begin(&mut self, i: u32)
        requires { i < length self.old }
        ensures { (output : OutputView) → slice_get self.old i ≡ Some output → self.new ≡ slice_set self.old i (begun output) }
    {
        self.outputs[i as usize].begin();
    }

    /// The output becomes present, with words that are all 0, and lends them.
    pub fn open(&mut self, i: usize) -> &mut [u64]
        requires { i < length self.old }
        ensures* writes_back { sem 𝓛 (LendsOutput self.entry i result) }
        ensures zeros { (output : OutputView) → slice_get self.old i ≡ Some output → result.now ≡ replicate output.size 0 }
    {
        self.outputs[i].open()
    }

    /// The output, which has room for one word, becomes present with this word.
    #[inline(always)]
    pub fn fill(&mut self, i: usize, word: u64)
        requires { (output : OutputView) × (slice_get self.old i ≡ Some output) × (output.size ≡ 1) }
        ensures { (output : OutputView) → slice_get self.old i ≡ Some output → self.new ≡ slice_set self.old i (with_words output (word ∷ [])) }
    {
        self.outputs[i].fill(word);
    }

    /// Changes one word of an output that is present.
    #[inline(always)]
    pub fn put(&mut self, i: u32, at: u32, word: u64)
        requires { (output : OutputView) × (slice_get self.old i ≡ Some output) × (words : List ℕ) × (output.words ≡ Some words) × (at < length words) }
        ensures { (output : OutputView) (words : List ℕ) → slice_get self.old i ≡ Some output → output.words ≡ Some words
            → self.new ≡ slice_set self.old i (with_words output (slice_set words at word)) }
    {
        self.outputs[i as usize].put(at as usize, word);
    }

    /// The words of an output; none where it is absent.
    pub fn get(&self, i: u32) -> Option<&[u64]>
        requires { i < length self.now }
        ensures { (output : OutputView) → slice_get self.now i ≡ Some output
            → MatchOption result (output.words ≡ None) (λ words. output.words ≡ Some words.now) }
    {
        self.outputs[i as usize].get()
    }
}
