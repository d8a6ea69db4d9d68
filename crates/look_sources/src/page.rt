//! A page: text that grows.
ghost use Rattle.std.specs.Prelude.{◌≡◌, [], ◌↔◌, IfOk, IsTrue, OnErr, decimal, true, false};
ghost use Rattle.look_sources.specs.Pages.{Appends, is_lost, on};

use itoa::Buffer;
use std::alloc::{AllocError, Global};

/// What is printed at the end. Where memory runs out the page remembers it, and `finish` tells it.
#[derive(Drop)]
pub struct Page {
    bytes: Vec<u8>,
    failed: bool,
}

impl Page {
    pub fn make(alloc: Global) -> Page
        ensures empty { on result ≡ [] }
        ensures whole { is_lost result ≡ false }
    {
        Page {
            bytes: Vec::new(alloc),
            failed: false,
        }
    }

    pub fn put(&mut self, bytes: &[u8])
        ensures { Appends self.old self.new bytes.now }
    {
        if self.bytes.extend_from_slice(bytes).is_err() {
            self.failed = true;
        }
    }

    /// Puts the number in decimal digits.
    pub fn number(&mut self, number: u64)
        ensures { Appends self.old self.new (decimal number) }
    {
        self.put(Buffer::new().format(number).as_bytes());
    }

    /// Puts all that is on the other page.
    pub fn append(&mut self, other: &Page)
        ensures appended { Appends self.old self.new (on other.now) }
        ensures earlier { is_lost self.new ≡ false → is_lost other.now ≡ false }
    {
        self.put(other.bytes.as_slice());
        if other.failed {
            self.failed = true;
        }
    }

    /// All that was put so far.
    pub fn bytes(&self) -> &[u8]
        ensures { result.now ≡ on self.now }
    {
        self.bytes.as_slice()
    }

    pub fn has_failed(&self) -> bool
        ensures { result ≡ is_lost self.now }
    {
        self.failed
    }

    pub fn is_empty(&self) -> bool
        ensures { IsTrue result ↔ (on self.now ≡ []) }
    {
        self.bytes.is_empty()
    }

    /// Remembers that memory ran out.
    pub fn fail(&mut self)
        ensures bytes { on self.new ≡ on self.old }
        ensures lost { is_lost self.new ≡ true }
    {
        self.failed = true;
    }

    /// All that was put, unless memory ran out.
    pub fn finish(self) -> Result<Vec<u8>, AllocError>
        ensures whole { IfOk result (λ bytes. bytes.items ≡ on self × is_lost self ≡ false) }
        ensures failed { OnErr result (is_lost self ≡ true) }
    {
        let Page { bytes, failed } = self;
        if failed { Err(AllocError) } else { Ok(bytes) }
    }
}
