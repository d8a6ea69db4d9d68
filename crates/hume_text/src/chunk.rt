ghost use Rattle.std.specs.Prelude.{◌≡◌, ◌≤◌, ◌+◌, ◌-◌, ◌++◌, [], length, take, IfOk, vec_len, vec_capacity};

use std::alloc::{AllocError, Global};

/// A buffer for a fixed number of bytes, all of whose memory is taken when it is made.
#[derive(Drop)]
pub struct Chunk {
    filled: Vec<u8>,
    room: u32,
    ghost fits: { vec_len filled ≤ room },
    ghost reserved: { room ≤ vec_capacity filled },
}

impl Chunk {
    ghost use Rattle.hume_text.specs.Chunks.{bytes_in, room_of};

    pub fn make(alloc: Global, bytes: u32) -> Result<Chunk, AllocError>
        ensures { IfOk result (λ chunk. (bytes_in chunk ≡ []) × (room_of chunk ≡ bytes)) }
    {
        Ok(Chunk {
            filled: Vec::with_capacity(alloc, bytes as usize)?,
            room: bytes,
        })
    }

    pub fn clear(&mut self)
        ensures bytes { bytes_in self.new ≡ [] }
        ensures room { room_of self.new ≡ room_of self.old }
    {
        self.filled.clear();
    }

    pub fn put(&mut self, bytes: &[u8])
        requires { length (bytes_in self.old) + length bytes.now ≤ room_of self.old }
        ensures bytes { bytes_in self.new ≡ bytes_in self.old ++ bytes.now }
        ensures room { room_of self.new ≡ room_of self.old }
    {
        self.filled.extend_from_slice(bytes).unwrap();
    }

    // Puts as many of the bytes as there is room for.
    pub(crate) fn add(&mut self, bytes: &[u8])
        ensures bytes { bytes_in self.new ≡ take (room_of self.old) (bytes_in self.old ++ bytes.now) }
        ensures room { room_of self.new ≡ room_of self.old }
    {
        let count = bytes.len().min(self.room as usize - self.filled.len());
        self.filled.extend_from_slice(&bytes[..count]).unwrap();
    }

    pub fn bytes(&self) -> &[u8]
        ensures { result.now ≡ bytes_in self.now }
    {
        self.filled.as_slice()
    }

    /// How many more bytes it takes.
    pub fn spare(&self) -> u32
        ensures { result ≡ room_of self.now - length (bytes_in self.now) }
    {
        self.room - self.filled.len() as u32
    }
}
