ghost use Rattle.std.specs.Prelude.{◌≡◌, ◌≤◌, IfOk, OnOk, string_bytes};
ghost use Rattle.std.specs.Io.{ReadsAtMost};
ghost use Rattle.std.specs.Io.KnownBytes.{Appends, ReadConsumes};
ghost use Rattle.hume_ports.specs.Port.{IsRead, IsWrite, IsFinish, last_count, next_count, untold};
ghost use Rattle.hume_ports.specs.Files.{GoesOn};

use hume_ports::{Failed, Port, read_once, write_whole};
use std::alloc::{AllocError, Global};
use std::fs;
use std::rt::Files;

/// The file of a name. The first read opens it, and the first write creates or empties it, as does a finish before which nothing
/// was read or written. It tells neither its bytes nor a room.
///
/// Nothing that is written waits in a buffer.
#[derive(Drop)]
pub struct DirectFile<R: Files + Clone + Drop> {
    rt: R,
    name: String,
    reader: Option<R::File>,
    writer: Option<R::File>,
    used: bool,
    read_faults: u64,
    write_faults: u64,
    finish_faults: u64,
    flushed: bool,
}

impl<R: Files + Clone + Drop> DirectFile<R> {
    /// A port over the file of that name, which is left alone until the first call.
    pub fn make(rt: &R, alloc: Global, name: &str) -> Result<DirectFile<R>, AllocError>
        ensures { IfOk result (λ port. ⟦<DirectFile<R> as Port>⟧.view port ≡ untold name.now) }
    {
        Ok(DirectFile {
            rt: rt.clone()?,
            name: String::from_str(alloc, name)?,
            reader: None,
            writer: None,
            used: false,
            read_faults: 0,
            write_faults: 0,
            finish_faults: 0,
            flushed: false,
        })
    }
}

impl<R: Files + Clone + Drop> Port for DirectFile<R> {
    ghost view = { λ port. record (untold (string_bytes port.name)) {
      read_faults = port.read_faults;
      write_faults = port.write_faults;
      finish_faults = port.finish_faults;
      flushed = port.flushed;
    } };

    fn name(&self) -> &str {
        self.name.as_str()
    }

    /// Where the open file tells what it has left, the bytes come from there.
    fn read(&mut self, buf: &mut [u8]) -> Result<usize, Failed>
        ensures port { IsRead (⟦<DirectFile<R> as Port>⟧.view self.old) (⟦<DirectFile<R> as Port>⟧.view self.new) result buf.new }
        ensures file { IfOk result (λ count.
            GoesOn (λ earlier later. ReadConsumes (R.File.remaining earlier) (R.File.remaining later) result buf.new) self.old.reader self.new.reader) }
    {
        self.used = true;
        match read_file(&self.rt, self.name.as_str(), &mut self.reader, buf) {
            Ok(count) => Ok(count),
            Err(_) => Err(raise(&mut self.read_faults)),
        }
    }

    /// Where the open file tells its bytes, the written ones follow them.
    fn write(&mut self, bytes: &[u8]) -> Result<(), Failed>
        ensures port { IsWrite (⟦<DirectFile<R> as Port>⟧.view self.old) (⟦<DirectFile<R> as Port>⟧.view self.new) result bytes.now }
        ensures file { OnOk result
            (GoesOn (λ earlier later. Appends (R.File.contents earlier) (R.File.contents later) bytes.now) self.old.writer self.new.writer) }
    {
        self.used = true;
        self.flushed = false;
        match write_file(&self.rt, self.name.as_str(), &mut self.writer, bytes) {
            Ok(()) => Ok(()),
            Err(_) => Err(raise(&mut self.write_faults)),
        }
    }

    /// All that was written is in the file already.
    fn finish(&mut self) -> Result<(), Failed>
        ensures port { IsFinish (⟦<DirectFile<R> as Port>⟧.view self.old) (⟦<DirectFile<R> as Port>⟧.view self.new) result }
    {
        let finished = finish_file(&self.rt, self.name.as_str(), self.used, &mut self.writer);
        self.flushed = finished.is_ok();
        match finished {
            Ok(()) => Ok(()),
            Err(_) => Err(raise(&mut self.finish_faults)),
        }
    }

    fn written(&self) -> Option<&[u8]> {
        None
    }
}

// Counts a fault.
fn raise(count: &mut u64) -> Failed
    ensures counted { count.new ≡ next_count count.old }
    ensures never_falls { count.old ≤ count.new }
    ensures stays_last { last_count ≤ count.old → count.new ≡ count.old }
{
    *count = count.saturating_add(1);
    Failed
}

fn read_file<R: Files>(
    rt: &R,
    name: &str,
    reader: &mut Option<R::File>,
    buf: &mut [u8],
) -> Result<usize, Failed>
    ensures bound { ReadsAtMost result buf.new }
    ensures file { IfOk result (λ count.
        GoesOn (λ earlier later. ReadConsumes (R.File.remaining earlier) (R.File.remaining later) result buf.new) reader.old reader.new) }
{
    if reader.is_none() {
        match fs::open(rt, name) {
            Ok(opened) => *reader = Some(opened),
            Err(_) => return Err(Failed),
        }
    }
    match reader {
        Some(file) => read_once(file, buf),
        None => Err(Failed),
    }
}

fn write_file<R: Files>(
    rt: &R,
    name: &str,
    writer: &mut Option<R::File>,
    bytes: &[u8],
) -> Result<(), Failed>
    ensures { OnOk result
        (GoesOn (λ earlier later. Appends (R.File.contents earlier) (R.File.contents later) bytes.now) writer.old writer.new) }
{
    create(rt, name, writer)?;
    match writer {
        Some(file) => write_whole(file, bytes),
        None => Err(Failed),
    }
}

// A file that wasn't used is created.
fn finish_file<R: Files>(
    rt: &R,
    name: &str,
    used: bool,
    writer: &mut Option<R::File>,
) -> Result<(), Failed> {
    if !used {
        create(rt, name, writer)?;
    }
    Ok(())
}

fn create<R: Files>(rt: &R, name: &str, writer: &mut Option<R::File>) -> Result<(), Failed>
    ensures { OnOk result (GoesOn (λ earlier later. later ≡ earlier) writer.old writer.new) }
{
    if writer.is_none() {
        match fs::create(rt, name) {
            Ok(file) => *writer = Some(file),
            Err(_) => return Err(Failed),
        }
    }
    Ok(())
}
