ghost use Rattle.std.specs.Prelude.{◌≡◌, ◌≤◌, length, IfOk};
ghost use Rattle.hume_base.specs.Places.{line_at};
ghost use Rattle.hume_base.specs.lines.inner.Lines.{AreLines};

use crate::limits::MAX_SOURCE_BYTES;
use std::alloc::{AllocError, Global};
use std::marker::Model;

/// The lines of all places of a source.
#[derive(Drop)]
pub struct LineTable<'a> {
    text: &'a [u8],
    lines: Vec<u32>,
}

impl<'a> Model for LineTable<'a> {
    ghost use Rattle.std.specs.Prelude.{List, ℕ};
    ghost use Rattle.hume_base.specs.lines.inner.Lines.{AreLines};

    ghost Value = { List ℕ };

    ghost view = { λ table. table.text.now };

    ghost invariant = { λ table. AreLines table.text.now table.lines.items };
}

impl<'a> LineTable<'a> {
    pub fn make(alloc: Global, text: &'a [u8]) -> Result<LineTable<'a>, AllocError>
        requires { length text.now ≤ MAX_SOURCE_BYTES }
        ensures { IfOk result (λ table. table ≡ text.now) }
    {
        let lines = lines_of(alloc, text)?;
        Ok(LineTable { text, lines })
    }

    /// The line of a place. One behind the end has the line of the end.
    #[tactic(auto, using(crate::proofs::lines_lemmas::Steps::place_steps))]
    pub fn line(&self, place: u32) -> u32
        ensures { result ≡ line_at self.now place }
    {
        let place = (place as usize).min(self.text.len());
        self.lines[place]
    }
}

// The lines of all places, that of the end with them.
#[tactic(auto, using(crate::proofs::lines_lemmas::Steps::line_steps))]
fn lines_of(alloc: Global, text: &[u8]) -> Result<Vec<u32>, AllocError>
    requires { length text.now ≤ MAX_SOURCE_BYTES }
    ensures { IfOk result (λ lines. AreLines text.now lines.items) }
{
    let mut lines = Vec::new(alloc);
    let mut line: u32 = 1;
    for byte in text {
        lines.push(line)?;
        if *byte == b'\n' {
            line += 1;
        }
    }
    lines.push(line)?;
    Ok(lines)
}
