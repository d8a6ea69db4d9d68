//! Where a place of a source is, for people.
ghost use Rattle.std.specs.Prelude.{◌≡◌, ◌++◌, codes, decimal, min};
ghost use Rattle.hume_base.specs.Places.{line_at};
ghost use Rattle.look_sources.specs.Pages.{Appends, Grows};
ghost use Rattle.look_sources.specs.Spots.{column_at};

use crate::page::Page;

// How many bytes of a line are shown at most, and how many of them before the caret where the line is longer.
const MAX_SHOWN: usize = 160;

const MAX_BEFORE: usize = 80;

/// The line and the column of a place, counted from 1, and where its line begins.
#[derive(Clone, Copy, Debug)]
pub struct Spot {
    pub line: u32,
    pub column: u32,
    begin: usize,
}

impl Spot {
    /// The spot of a place; of one past the end, that of the end. Columns count bytes.
    #[tactic(auto, using(crate::proofs::Columns::spot_steps))]
    pub fn of(text: &[u8], place: usize) -> Spot
        ensures line { result.line ≡ min (line_at text.now place) u32.MAX }
        ensures column { result.column ≡ min (column_at text.now place) u32.MAX }
    {
        let mut line: u32 = 1;
        let mut column: u32 = 1;
        let mut begin: usize = 0;
        let mut at: usize = 0;
        for byte in text {
            if at >= place {
                break;
            }
            at = at.saturating_add(1);
            if *byte == b'\n' {
                line = line.saturating_add(1);
                column = 1;
                begin = at;
            } else {
                column = column.saturating_add(1);
            }
        }
        Spot {
            line,
            column,
            begin,
        }
    }

    /// Puts `FILE:LINE:COLUMN: `.
    #[tactic(auto, using(crate::proofs::Growing::appends_more))]
    pub fn put_head(&self, file: &[u8], page: &mut Page)
        ensures { Appends page.old page.new (file.now ++ codes ":" ++ decimal self.now.line ++ codes ":" ++ decimal self.now.column ++ codes ": ") }
    {
        page.put(file);
        page.put(b":");
        page.number(u64::from(self.line));
        page.put(b":");
        page.number(u64::from(self.column));
        page.put(b": ");
    }

    /// Puts the line, and under it a caret at the column. Of a long line the bytes around the column are put, with `..` where it
    /// is cut.
    #[tactic(auto, using(crate::proofs::Growing::growing))]
    pub fn put_line(&self, text: &[u8], page: &mut Page)
        ensures { Grows page.old page.new }
    {
        let place = self
            .begin
            .saturating_add(self.column.saturating_sub(1) as usize);
        let from = self.first_shown(text, place);
        let to = shown_end(text, from);
        let is_cut = from > self.begin;
        page.put(if is_cut { b"  ..".as_slice() } else { b"  " });
        for byte in text.get(from..to).unwrap_or(b"") {
            page.put(&[shown(*byte)]);
        }
        page.put(if is_end(text, to) {
            b"\n  ".as_slice()
        } else {
            b"..\n  "
        });
        page.put(if is_cut { b"  ".as_slice() } else { b"" });
        for byte in text.get(from..place).unwrap_or(b"") {
            put_blank(*byte, page);
        }
        page.put(b"^\n");
    }

    // From where on the line is shown: from its begin if it can be shown whole, and else from shortly before the place.
    fn first_shown(&self, text: &[u8], place: usize) -> usize {
        if is_end(text, shown_end(text, self.begin)) {
            self.begin
        } else {
            self.begin.max(place.saturating_sub(MAX_BEFORE))
        }
    }
}

// Whether a line ends at the place.
fn is_end(text: &[u8], place: usize) -> bool {
    match text.get(place) {
        None => true,
        Some(byte) => *byte == b'\n',
    }
}

// To where a line is shown that is shown from there on.
fn shown_end(text: &[u8], from: usize) -> usize {
    let mut end = from;
    for _ in 0..MAX_SHOWN {
        if is_end(text, end) {
            return end;
        }
        end = end.saturating_add(1);
    }
    end
}

// What stands for a byte where a line is shown.
fn shown(byte: u8) -> u8 {
    if byte == b'\t' || byte >= 32 && byte != 127 {
        byte
    } else {
        b'?'
    }
}

// Puts what is as wide as the byte: a tab for a tab, and nothing for a byte that goes on a letter outside ASCII.
#[tactic(auto, using(crate::proofs::Growing::growing))]
fn put_blank(byte: u8, page: &mut Page)
    ensures { Grows page.old page.new }
{
    if byte == b'\t' {
        page.put(b"\t");
    } else if byte < 128 || byte >= 192 {
        page.put(b" ");
    }
}
