//! What was read in the place of a line.
ghost use Rattle.std.specs.Prelude.{◌≤◌, IsTrue, IsFalse, length};
ghost use Rattle.run_log.specs.Faults.{EndsWithin};
ghost use Rattle.run_log.specs.inner.LineReads.{IsLineRead};

/// What is told of the bytes that were read in the place of a line.
#[derive(Clone, Copy)]
pub(crate) struct LineRead {
    /// Whether they are those of the line, as far as there are any.
    pub(crate) agrees: bool,
    /// Whether they are as many as the line has.
    pub(crate) whole: bool,
}

/// What is told of these bytes.
pub(crate) fn line_read(line: &[u8], read: &[u8]) -> LineRead
    requires { length read.now ≤ length line.now }
    ensures { IsLineRead line.now read.now result }
{
    LineRead {
        agrees: agrees(line, read),
        whole: read.len() == line.len(),
    }
}

fn agrees(line: &[u8], read: &[u8]) -> bool
    ensures yes { IsTrue result → EndsWithin line.now read.now }
    ensures no { IsFalse result → EndsWithin line.now read.now → ⊥ }
{
    line.starts_with(read)
}
