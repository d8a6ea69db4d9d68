ghost use Rattle.std.specs.Prelude.{◌≡◌, ◌≤◌, length};
ghost use Rattle.hume_base.specs.Places.{line_at};

use crate::limits::MAX_SOURCE_BYTES;

/// The line of a place, counted from 1.
pub fn line_of(bytes: &[u8], place: u32) -> u32
    requires within { place ≤ length bytes.now }
    requires small { place ≤ MAX_SOURCE_BYTES }
    ensures { result ≡ line_at bytes.now place }
{
    let before = &bytes[..place as usize];
    1 + before.iter().filter(|byte| **byte == b'\n').count() as u32
}
