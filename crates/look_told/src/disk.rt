//! What is asked of the files of a call.
ghost use Rattle.std.specs.Prelude.{◌≤◌};
ghost use Rattle.hume_base.specs.declared.limits.TheConstants.{MAX_TYPE_WORDS};
ghost use Rattle.hume_base.specs.Sizes.{size_of, HaveTheirSizes};
ghost use Rattle.hume_text.specs.Bounds.{IsPrintable};
ghost use Rattle.hume_text.specs.Names.{HaveNames};

use crate::lines::Bad;
use hume_base::{Ty, Types};
use look_sources::Page;
use std::alloc::{AllocError, Global};

/// The files, as the system shows them. Each call that reads one begins at its first byte.
pub trait Disk {
    /// The first bytes of a file, at most `most`; none where it can't be read.
    fn text(&self, alloc: Global, name: &str, most: usize) -> Result<Option<Vec<u8>>, AllocError>;

    /// The line that `first_bad` finds in a file.
    fn first_bad(
        &self,
        alloc: Global,
        name: &str,
        types: &Types,
        ty: &Ty,
        most: u32,
    ) -> Result<Option<Bad>, AllocError>
        requires sizes { HaveTheirSizes types.now }
        requires names { HaveNames types.now }
        requires printable { IsPrintable types.now ty.now }
        requires small { size_of types.now ty.now ≤ MAX_TYPE_WORDS };

    /// Puts what `put_front` puts of a line of a file.
    fn put_front(
        &self,
        alloc: Global,
        name: &str,
        line: u64,
        page: &mut Page,
    ) -> Result<(), AllocError>;

    /// Whether it is a file that can be read again, as neither a pipe nor a standard stream can.
    fn can_be_read_again(&self, name: &str) -> bool;

    /// Why it can't be read, if that can be seen.
    fn why_unreadable(&self, name: &str) -> Option<&'static [u8]>;

    /// Why it can't be written, if that can be seen.
    fn why_unwritable(&self, name: &str) -> Option<&'static [u8]>;
}

/// The bytes of a file, at most `most`; none where it can't be read again.
pub fn text_of_file<D: Disk>(
    disk: &D,
    alloc: Global,
    name: &str,
    most: usize,
) -> Result<Option<Vec<u8>>, AllocError> {
    if disk.can_be_read_again(name) {
        disk.text(alloc, name, most)
    } else {
        Ok(None)
    }
}
