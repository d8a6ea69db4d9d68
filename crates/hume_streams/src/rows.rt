ghost use Rattle.std.specs.Prelude.{◌≡◌, ◌+◌, ◌*◌, ◌<◌, ◌≤◌, ◌^◌, ◌++◌, [], ◌∷◌, length, take, drop, slice_get, IfOk, Some, vec_len, vec_capacity};

use std::alloc::{AllocError, Global};

/// Rows of words of one width, at most so many. All memory is taken when they are made.
#[derive(Drop)]
pub struct Rows {
    words: Vec<u64>,
    width: u32,
    span: u32,
    // the words of rows that were dropped, at the front
    start: usize,
    count: u32,
    ghost filled: { vec_len words ≡ start + count * width },
    ghost reserved: { span * width ≤ vec_capacity words },
    ghost within: { count ≤ span },
}

impl Rows {
    ghost use Rattle.hume_streams.specs.Contents.{rows_in};

    pub fn make(alloc: Global, width: u32, span: u32) -> Result<Rows, AllocError>
        ensures { IfOk result (λ rows. (rows_in rows ≡ []) × (rows.width ≡ width) × (rows.span ≡ span)) }
    {
        Ok(Rows {
            words: Vec::with_capacity(alloc, span as usize * width as usize)?,
            width,
            span,
            start: 0,
            count: 0,
        })
    }

    pub fn count(&self) -> u32
        ensures { result ≡ length (rows_in self.now) }
    {
        self.count
    }

    pub fn width(&self) -> u32
        ensures { result ≡ self.now.width }
    {
        self.width
    }

    /// The row at that place.
    pub fn at(&self, place: u32) -> &[u64]
        requires { place < length (rows_in self.now) }
        ensures { slice_get (rows_in self.now) place ≡ Some result.now }
    {
        let from = self.start + place as usize * self.width as usize;
        row_from(&self.words, from, self.width as usize)
    }

    pub fn push(&mut self, row: &[u64])
        requires room { length (rows_in self.old) < self.old.span }
        requires width { length row.now ≡ self.old.width }
        ensures rows { rows_in self.new ≡ rows_in self.old ++ row.now ∷ [] }
        ensures width { self.new.width ≡ self.old.width }
        ensures span { self.new.span ≡ self.old.span }
    {
        self.close_up();
        append(&mut self.words, row);
        self.count += 1;
    }

    // Moves the rows to the front.
    fn close_up(&mut self)
        ensures start { self.new.start ≡ 0 }
        ensures rows { self.new.words.items ≡ drop self.old.start self.old.words.items }
        ensures count { self.new.count ≡ self.old.count }
        ensures width { self.new.width ≡ self.old.width }
        ensures span { self.new.span ≡ self.old.span }
    {
        if self.start > 0 {
            remove_front(&mut self.words, self.start);
            self.start = 0;
        }
    }

    pub fn drop_front(&mut self)
        requires { 0 < length (rows_in self.old) }
        ensures rows { rows_in self.new ≡ drop 1 (rows_in self.old) }
        ensures width { self.new.width ≡ self.old.width }
        ensures span { self.new.span ≡ self.old.span }
    {
        self.start += self.width as usize;
        self.count -= 1;
    }

    pub fn clear(&mut self)
        ensures rows { rows_in self.new ≡ [] }
        ensures width { self.new.width ≡ self.old.width }
        ensures span { self.new.span ≡ self.old.span }
    {
        self.words.clear();
        self.start = 0;
        self.count = 0;
    }
}

// The words of a row that begins there.
fn row_from(words: &[u64], from: usize, width: usize) -> &[u64]
    requires { from + width ≤ length words.now }
    ensures { result.now ≡ take width (drop from words.now) }
{
    &words[from..from + width]
}

// Puts words behind those that are there, for which there is room.
fn append(words: &mut Vec<u64>, more: &[u64])
    requires { vec_len words.old + length more.now ≤ vec_capacity words.old }
    ensures items { words.new.items ≡ words.old.items ++ more.now }
    ensures length { vec_len words.new ≡ vec_len words.old + length more.now }
    ensures capacity { vec_capacity words.old ≤ vec_capacity words.new }
{
    words.extend_from_slice(more).unwrap();
}

/// Takes so many items away from the front, and moves the others there.
pub fn remove_front<T: Copy + Drop>(items: &mut Vec<T>, count: usize)
    requires { count ≤ vec_len items.old }
    ensures items { items.new.items ≡ drop count items.old.items }
    ensures length { vec_len items.new + count ≡ vec_len items.old }
    ensures capacity { vec_capacity items.new ≡ vec_capacity items.old }
{
    let length = items.len();
    items.as_mut_slice().copy_within(count..length, 0);
    items.truncate(length - count);
}
