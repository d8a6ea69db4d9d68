//! The line of an input that is no value of its type.
//!
//! Which of several bad lines ended a run depends on how fast the net took the values before them, and no net is run here. In the first
//! round each input stream needs as many values as the round has supersteps. So a stream whose bad line comes before them ended the run,
//! the first such one if there are several. In any round no stream needs more values than the run has supersteps.
ghost use Rattle.std.specs.Prelude.{◌≡◌, ◌<◌, ◌≤◌, [], length, IfOk, IfSome, false, true};
ghost use Rattle.hume_base.specs.declared.limits.TheConstants.{MAX_TYPE_WORDS};
ghost use Rattle.hume_base.specs.Sizes.{size_of, HaveTheirSizes};
ghost use Rattle.hume_text.specs.Bounds.{IsPrintable};
ghost use Rattle.hume_text.specs.Names.{HaveNames};
ghost use Rattle.look_sources.specs.Pages.{Grows};
ghost use Rattle.look_told.specs.Readable.{HasReadableLines};

use crate::disk::Disk;
use crate::numbers::put_numbers;
use crate::places::put_head;
use crate::quoted::put_quoted;
use hume_base::{Ty, Types};
use hume_model::{Core, NodeC, StreamC};
use hume_ports::Port;
use hume_streams::{FillError, InQueue};
use look_cores::put_type;
use look_sources::Page;
use std::alloc::{AllocError, Global};

// How many bytes of a bad line are shown.
const MAX_SHOWN: usize = 200;

/// The bad lines that may have ended a run: what is said of each.
#[derive(Drop)]
pub struct BadLines {
    lines: Vec<Page>,
    // whether the first of them did
    is_certain: bool,
    // whether an input can't be read again
    is_unknown: bool,
}

/// A run: how many supersteps it was to make, and how many make a round.
#[derive(Clone, Copy)]
pub struct Rounds {
    pub steps: u32,
    pub span: u32,
}

impl BadLines {
    /// No bad lines yet.
    pub fn none(alloc: Global) -> BadLines
        ensures lines { result.lines.items ≡ [] }
        ensures known { result.is_unknown ≡ false }
    {
        BadLines {
            lines: Vec::new(alloc),
            is_certain: false,
            is_unknown: false,
        }
    }

    /// Notes that a program can't be read again, and so its lines neither.
    pub fn miss(&mut self)
        ensures { self.new.is_unknown ≡ true }
    {
        self.is_unknown = true;
    }

    /// Adds those of the input streams of a core.
    pub fn add<D: Disk>(
        &mut self,
        disk: &D,
        alloc: Global,
        core: &Core,
        rounds: Rounds,
    ) -> Result<(), AllocError>
        requires { HasReadableLines core.now }
        ensures { self.old.is_unknown ≡ true → self.new.is_unknown ≡ true }
    {
        let nodes = core.nodes.as_slice();
        for number in 0..nodes.len() {
            if let NodeC::From(stream) = &nodes[number] {
                self.add_stream(disk, alloc, core, number, stream, rounds)?;
            }
        }
        Ok(())
    }

    fn add_stream<D: Disk>(
        &mut self,
        disk: &D,
        alloc: Global,
        core: &Core,
        number: usize,
        stream: &StreamC,
        rounds: Rounds,
    ) -> Result<(), AllocError>
        requires { HasReadableLines core.now }
        ensures { self.old.is_unknown ≡ true → self.new.is_unknown ≡ true }
    {
        let (Ok(name), Some(wire)) = (str::from_utf8(stream.port.bytes()), wire_from(core, number))
        else {
            return Ok(());
        };
        if !disk.can_be_read_again(name) {
            self.is_unknown = true;
            return Ok(());
        }
        let ty = &core.wires[wire].ty;
        let Some(bad) = disk.first_bad(alloc, name, &core.types, ty, rounds.steps)? else {
            return Ok(());
        };
        let mut page = Page::make(alloc);
        put_head(name.as_bytes(), bad.line, &mut page);
        put_stream(&core.types, ty, stream, &mut page);
        disk.put_front(alloc, name, bad.line, &mut page)?;
        self.note(page, bad.good < rounds.span.min(rounds.steps))
    }

    // Notes a bad line, which comes in the first round or later.
    fn note(&mut self, line: Page, is_early: bool) -> Result<(), AllocError>
        ensures { self.old.is_unknown ≡ true → self.new.is_unknown ≡ true }
    {
        if is_early && !self.is_certain {
            self.is_certain = true;
            self.lines.clear();
        }
        self.lines.push(line)?;
        Ok(())
    }

    /// Puts the line that ended the run, or each that may have.
    #[tactic(auto, using(look_sources::proofs::Growing::growing))]
    pub fn put(&self, page: &mut Page)
        ensures { Grows page.old page.new }
    {
        if self.is_unknown || self.lines.is_empty() {
            page.put(
                b"hume: a line of an input is no value of its type, as the standard output says\n",
            );
            return;
        }
        let shown = if self.is_certain { 1 } else { self.lines.len() };
        for number in 0..shown {
            page.put(if number > 0 { b"; or ".as_slice() } else { b"" });
            self.put_line(number, page);
        }
        page.put(if shown > 1 {
            b"; the standard output says which\n".as_slice()
        } else {
            b"\n"
        });
    }

    #[tactic(auto, using(look_sources::proofs::Growing::growing))]
    fn put_line(&self, number: usize, page: &mut Page)
        ensures { Grows page.old page.new }
    {
        if let Some(line) = self.lines.get(number) {
            page.append(line);
        }
    }
}

// The place of the wire from a node that is an input stream.
fn wire_from(core: &Core, node: usize) -> Option<usize>
    ensures { IfSome result (λ place. place < length core.now.wires) }
{
    let wires = core.wires.as_slice();
    for place in 0..wires.len() {
        if wires[place].from as usize == node {
            return Some(place);
        }
    }
    None
}

/// A bad line: its number, and how many values come before it.
#[derive(Clone, Copy)]
pub struct Bad {
    pub line: u64,
    pub good: u32,
}

/// The first bad line of a port, if fewer than `most` values come before it.
pub fn first_bad(
    alloc: Global,
    types: &Types,
    ty: &Ty,
    port: &mut Box<dyn Port>,
    most: u32,
) -> Result<Option<Bad>, AllocError>
    requires sizes { HaveTheirSizes types.now }
    requires names { HaveNames types.now }
    requires printable { IsPrintable types.now ty.now }
    requires small { size_of types.now ty.now ≤ MAX_TYPE_WORDS }
    ensures { IfOk result (λ found. IfSome found (λ bad. bad.good < most)) }
{
    let mut queue = InQueue::make(alloc, types, ty, 1)?;
    'values: for good in 0..most {
        match queue.fill(types, ty, port, 1) {
            Err(FillError::BadValue(line)) => return Ok(Some(Bad { line, good })),
            Err(FillError::Failed) => return Ok(None),
            Ok(()) => {
                if queue.count() == 0 {
                    return Ok(None);
                }
                queue.drop_front();
            }
        }
    }
    Ok(None)
}

fn put_stream(types: &Types, ty: &Ty, stream: &StreamC, page: &mut Page)
    ensures { Grows page.old page.new }
{
    page.put(b"no value of the type of stream ");
    page.put(stream.name.bytes());
    page.put(b" (");
    put_type(page, types, ty);
    put_numbers(ty, page);
    page.put(b"): ");
}

/// Puts the front of the line of that number in quotes.
#[tactic(auto, using(look_sources::proofs::Growing::growing))]
pub fn put_front(
    alloc: Global,
    port: &mut Box<dyn Port>,
    line: u64,
    page: &mut Page,
) -> Result<(), AllocError>
    ensures { Grows page.old page.new }
{
    let mut front = Front {
        lines: line,
        bytes: Vec::new(alloc),
    };
    for _ in 0..u64::MAX {
        let mut chunk = [0u8; 8_192];
        match port.read(&mut chunk) {
            Ok(count) if count > 0 => {
                if front.take(chunk.get(..count).unwrap_or(b""))? {
                    break;
                }
            }
            _ => break,
        }
    }
    front.put(page);
    Ok(())
}

// The front of a line that is looked for.
#[derive(Drop)]
struct Front {
    // how many lines begin up to it, itself too
    lines: u64,
    bytes: Vec<u8>,
}

impl Front {
    // Goes on with these bytes, and says whether all that is shown of the line was among them.
    fn take(&mut self, bytes: &[u8]) -> Result<bool, AllocError> {
        for byte in bytes {
            if self.lines > 1 {
                if *byte == b'\n' {
                    self.lines -= 1;
                }
            } else {
                if *byte == b'\n' || self.bytes.len() > MAX_SHOWN {
                    return Ok(true);
                }
                self.bytes.push(*byte)?;
            }
        }
        Ok(false)
    }

    #[tactic(auto, using(look_sources::proofs::Growing::growing))]
    fn put(&mut self, page: &mut Page)
        ensures { Grows page.old page.new }
    {
        let is_cut = self.bytes.len() > MAX_SHOWN;
        self.bytes.truncate(MAX_SHOWN);
        if !is_cut && self.bytes.last() == Some(&b'\r') {
            let _ = self.bytes.pop();
        }
        for byte in self.bytes.iter_mut() {
            if *byte == 0 {
                *byte = b'?';
            }
        }
        put_quoted(self.bytes.as_slice(), page);
        page.put(if is_cut { b"..".as_slice() } else { b"" });
    }
}
