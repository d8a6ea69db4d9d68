ghost use Rattle.std.specs.Prelude.{◌≡◌, ◌<◌, ◌≤◌, ◌+◌, ◌*◌, ◌++◌, ◌∷◌, [], ℕ, List, length, take, drop, replicate, max, Some, slice_get, slice_set, IfOk};
ghost use Rattle.hume_base.specs.declared.limits.TheConstants.{MAX_HEAP_WORDS as MOST_WORDS};
ghost use Rattle.box_heap.specs.Heaps.{HasObjects, Object, object_at, with_field, with_object};

use std::alloc::{AllocError, Global};
use std::marker::Model;

/// Objects in a fixed room of words, one behind another.
#[derive(Drop)]
pub struct BoxHeap {
    words: Vec<u64>,
    used: usize,
    peak: usize,
}

impl Model for BoxHeap {
    ghost use Rattle.std.specs.Prelude.{length, take, ◌≤◌};
    ghost use Rattle.hume_base.specs.declared.limits.TheConstants.{MAX_HEAP_WORDS as MOST};
    ghost use Rattle.box_heap.specs.Heaps.{HeapView};

    ghost Value = { HeapView };

    ghost view = { λ heap. record { words = take heap.used heap.words.items; peak = heap.peak; room = length heap.words.items } };

    ghost invariant = { λ heap. (heap.used ≤ length heap.words.items) × (heap.peak ≤ length heap.words.items) × (length heap.words.items ≤ MOST) };
}

impl BoxHeap {
    /// A heap without objects that has room for so many words.
    pub fn make(alloc: Global, words: u32) -> Result<BoxHeap, AllocError>
        requires { words ≤ MOST_WORDS }
        ensures { IfOk result (λ heap. heap ≡ record { words = []; peak = 0; room = words }) }
    {
        Ok(BoxHeap {
            words: Vec::from_elem(alloc, 0u64, words as usize)?,
            used: 0,
            peak: 0,
        })
    }

    /// Forgets all objects.
    pub fn empty(&mut self)
        ensures { self.new ≡ record self.old { words = [] } }
    {
        self.used = 0;
    }

    /// Puts an object behind the others, and gives its place.
    pub fn put(&mut self, tag: u32, fields: &[u64]) -> u64
        requires { length self.old.words + (1 + length fields.now) ≤ self.old.room }
        ensures place { result ≡ length self.old.words }
        ensures heap { self.new ≡ with_object self.old (tag, fields.now) }
    {
        let place = self.used;
        self.push(header(tag, fields.len()));
        self.push_all(fields);
        self.raise_peak();
        place as u64
    }

    /// Puts the object at the place behind the others once more, with another word in one field if it has that field, and gives
    /// the new place. The object that was there stays.
    pub fn put_changed(&mut self, at: u64, i: u32, word: u64) -> u64
        requires { (objects : List Object) × HasObjects self.old objects × (object : Object) × (object_at objects at ≡ Some object)
            × (length self.old.words + (1 + length object.1) ≤ self.old.room) }
        ensures place { result ≡ length self.old.words }
        ensures heap { (objects : List Object) (object : Object) → HasObjects self.old objects → object_at objects at ≡ Some object
            → self.new ≡ with_object self.old (object.0, slice_set object.1 i word) }
    {
        let place = self.used;
        let count = self.count(at);
        self.push_again(at as usize, 1 + count as usize);
        self.change_field(place as u64, i, word);
        self.raise_peak();
        place as u64
    }

    /// Puts an object behind the others whose fields are all 0, and gives its place.
    pub fn put_zeros(&mut self, tag: u32, count: usize) -> u64
        requires { length self.old.words + (1 + count) ≤ self.old.room }
        ensures place { result ≡ length self.old.words }
        ensures heap { self.new ≡ with_object self.old (tag, replicate count 0) }
    {
        let place = self.used;
        self.push(header(tag, count));
        self.push_zeros(count);
        self.raise_peak();
        place as u64
    }

    /// Gives a field of an object another word. All else stays: every other field and object, and the tag and the number of fields
    /// of this one, if an object is at the place and has that field. Whoever calls it puts an object part by part: no word that
    /// leads to the object is handed on before its last field is set, so that no value changes that a word stands for.
    #[inline(always)]
    pub fn set_field(&mut self, at: u64, i: usize, word: u64)
        requires { at + 1 + i < length self.old.words }
        ensures words { self.new ≡ record self.old { words = slice_set self.old.words (at + 1 + i) word } }
        ensures objects { (objects : List Object) (object : Object) → HasObjects self.old objects → object_at objects at ≡ Some object → i < length object.1
            → HasObjects self.new (with_field objects at i word) }
    {
        self.words[at as usize + 1 + i] = word;
    }

    // Gives a field of the last object another word, if it has that field.
    fn change_field(&mut self, at: u64, i: u32, word: u64)
        requires { at ≤ length self.old.words }
        ensures { self.new ≡ record self.old { words = slice_set self.old.words (at + 1 + i) word } }
    {
        self.keeps_room();
        if at + 1 + u64::from(i) < self.used as u64 {
            self.set_field(at, i as usize, word);
        }
    }

    // Words that are there once more behind the others.
    fn push_again(&mut self, from: usize, count: usize)
        requires there { from + count ≤ length self.old.words }
        requires fits { length self.old.words + count ≤ self.old.room }
        ensures { self.new ≡ record self.old { words = self.old.words ++ take count (drop from self.old.words) } }
    {
        self.words.copy_within(from..from + count, self.used);
        self.used += count;
    }

    fn push_zeros(&mut self, count: usize)
        requires { length self.old.words + count ≤ self.old.room }
        ensures { self.new ≡ record self.old { words = self.old.words ++ replicate count 0 } }
    {
        let end = self.used + count;
        self.words[self.used..end].fill(0);
        self.used = end;
    }

    #[inline(always)]
    fn push(&mut self, word: u64)
        requires { length self.old.words < self.old.room }
        ensures { self.new ≡ record self.old { words = self.old.words ++ word ∷ [] } }
    {
        self.words[self.used] = word;
        self.used += 1;
    }

    fn push_all(&mut self, words: &[u64])
        requires { length self.old.words + length words.now ≤ self.old.room }
        ensures { self.new ≡ record self.old { words = self.old.words ++ words.now } }
    {
        let end = self.used + words.len();
        self.words[self.used..end].copy_from_slice(words);
        self.used = end;
    }

    #[inline(always)]
    fn raise_peak(&mut self)
        ensures { self.new ≡ record self.old { peak = max self.old.peak (length self.old.words) } }
    {
        if self.used > self.peak {
            self.peak = self.used;
        }
    }

    // The objects take no more words than a heap may have.
    #[inline(always)]
    fn keeps_room(&self)
        ensures { length self.now.words ≤ MOST_WORDS }
    {
        let _used = self.used;
    }

    #[inline(always)]
    fn word(&self, at: usize) -> u64
        requires { at < length self.now.words }
        ensures { slice_get self.now.words at ≡ Some result }
    {
        self.words[at]
    }

    /// How many fields the object at the place has.
    #[inline(always)]
    pub fn count(&self, at: u64) -> u32
        requires { (objects : List Object) × HasObjects self.now objects × (object : Object) × (object_at objects at ≡ Some object) }
        ensures { (objects : List Object) (object : Object) → HasObjects self.now objects → object_at objects at ≡ Some object → result ≡ length object.1 }
    {
        (self.word(at as usize) >> 32) as u32
    }

    #[inline(always)]
    pub fn tag(&self, at: u64) -> u32
        requires { (objects : List Object) × HasObjects self.now objects × (object : Object) × (object_at objects at ≡ Some object) }
        ensures { (objects : List Object) (object : Object) → HasObjects self.now objects → object_at objects at ≡ Some object → result ≡ object.0 }
    {
        (self.word(at as usize) % 0x1_0000_0000) as u32
    }

    /// The field of that number, counted from 0, of the object at the place.
    #[inline(always)]
    pub fn field(&self, at: u64, i: u32) -> u64
        requires { (objects : List Object) × HasObjects self.now objects × (object : Object) × (object_at objects at ≡ Some object) × (i < length object.1) }
        ensures { (objects : List Object) (object : Object) → HasObjects self.now objects → object_at objects at ≡ Some object → i < length object.1
            → slice_get object.1 i ≡ Some result }
    {
        self.keeps_room();
        self.word(at as usize + 1 + i as usize)
    }

    /// How many words the objects take.
    pub fn used(&self) -> u32
        ensures { result ≡ length self.now.words }
    {
        self.used as u32
    }

    /// The most words that objects took since it was made.
    pub fn peak(&self) -> u32
        ensures { result ≡ self.now.peak }
    {
        self.peak as u32
    }
}

// The word in front of an object's fields.
#[inline(always)]
fn header(tag: u32, count: usize) -> u64
    requires { count ≤ MOST_WORDS }
    ensures { result ≡ tag + 4294967296 * count }
{
    u64::from(tag) + 0x1_0000_0000 * count as u64
}
