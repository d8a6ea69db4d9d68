//! Which file or stream of a call couldn't be read or written.
#![tactic(auto, using(look_sources::proofs::Growing::growing))]

ghost use Rattle.look_sources.specs.Pages.{Grows};

use crate::disk::Disk;
use crate::forms::{Call, Kind};
use crate::places::Program;
use crate::quoted::put_quoted;
use hume_model::NodeC;
use look_sources::Page;

/// What the shell knows of ports that can't be used: pairs of a reason and the name of the port.
#[derive(Clone, Copy)]
pub struct Known<'a> {
    pub pairs: &'a [String],
}

impl<'a> Known<'a> {
    fn why(&self, name: &str) -> Option<&'a [u8]> {
        let mut rest = self.pairs;
        for _ in 0..self.pairs.len() {
            let [why, port, others @ ..] = rest else {
                return None;
            };
            if port.as_str() == name {
                return Some(why.as_bytes());
            }
            rest = others;
        }
        None
    }
}

/// Puts the first source, standard stream, log, script or port of a stream, in the order in which they are used, of which can be seen why
/// it failed.
pub fn put_fault<D: Disk>(
    disk: &D,
    call: &Call,
    known: Known,
    programs: &[Program],
    page: &mut Page,
)
    ensures { Grows page.old page.new }
{
    if put_of_call(disk, call, known, page) {
        return;
    }
    if put_of_streams(disk, call, known, programs, page) {
        return;
    }
    page.put(b"hume: a read or a write of a port failed\n");
}

fn put_of_call<D: Disk>(disk: &D, call: &Call, known: Known, page: &mut Page) -> bool
    ensures { Grows page.old page.new }
{
    if put_of_sources(disk, call, known, page) {
        return true;
    }
    if put_of_standard(call, known, page) {
        return true;
    }
    put_of_words(disk, call, known, page)
}

// No output is written where there is a log.
fn put_of_streams<D: Disk>(
    disk: &D,
    call: &Call,
    known: Known,
    programs: &[Program],
    page: &mut Page,
) -> bool
    ensures { Grows page.old page.new }
{
    if put_of_inputs(disk, known, programs, page) {
        return true;
    }
    if call.first(Kind::Log).is_some() {
        return false;
    }
    put_of_outputs(disk, known, programs, page)
}

fn put_of_sources<D: Disk>(disk: &D, call: &Call, known: Known, page: &mut Page) -> bool
    ensures { Grows page.old page.new }
{
    for place in 0..call.kinds.len() {
        match call.word_at(Kind::Source, place) {
            None | Some("std_out") => {}
            Some("std_in") => {
                if let Some(why) = known.why("std_in") {
                    put_line(
                        b"can't read the source, which is the standard input",
                        why,
                        page,
                    );
                    return true;
                }
            }
            Some(source) => {
                if let Some(why) = disk.why_unreadable(source) {
                    put_of_name(b"can't read the source ", source, why, page);
                    return true;
                }
            }
        }
    }
    false
}

fn put_of_standard(call: &Call, known: Known, page: &mut Page) -> bool
    ensures { Grows page.old page.new }
{
    if let Some(why) = known.why("std_out") {
        put_line(b"can't write the standard output", why, page);
        return true;
    }
    match known.why("std_in") {
        Some(why) if call.command() == "console" => {
            put_line(
                b"can't read the commands from the standard input",
                why,
                page,
            );
            true
        }
        _ => false,
    }
}

// The log or the script.
fn put_of_words<D: Disk>(disk: &D, call: &Call, known: Known, page: &mut Page) -> bool
    ensures { Grows page.old page.new }
{
    if let Some(script) = call.first(Kind::Script) {
        if let Some(why) = disk.why_unreadable(script) {
            put_of_name(b"can't read the script ", script, why, page);
            return true;
        }
    }
    let Some(log) = call.first(Kind::Log) else {
        return false;
    };
    let reads = call.command() == "verify";
    let why = if reads {
        disk.why_unreadable(log)
    } else {
        why_unwritten(disk, known, log)
    };
    match why {
        None => false,
        Some(why) => {
            let what: &[u8] = if reads {
                b"can't read the log "
            } else {
                b"can't write the log "
            };
            put_of_name(what, log, why, page);
            true
        }
    }
}

fn why_unwritten<'a, D: Disk>(disk: &D, known: Known<'a>, name: &str) -> Option<&'a [u8]> {
    match disk.why_unwritable(name) {
        None => known.why(name),
        Some(why) => Some(why),
    }
}

fn put_of_inputs<D: Disk>(disk: &D, known: Known, programs: &[Program], page: &mut Page) -> bool
    ensures { Grows page.old page.new }
{
    for program in programs {
        for node in program.core.nodes.as_slice() {
            let NodeC::From(stream) = node else {
                continue;
            };
            if put_unread(disk, known, stream.port.bytes(), page) {
                return true;
            }
        }
    }
    false
}

fn put_of_outputs<D: Disk>(disk: &D, known: Known, programs: &[Program], page: &mut Page) -> bool
    ensures { Grows page.old page.new }
{
    for program in programs {
        for node in program.core.nodes.as_slice() {
            let NodeC::To(stream) = node else {
                continue;
            };
            if put_unwritten(disk, known, stream.port.bytes(), page) {
                return true;
            }
        }
    }
    false
}

fn put_unread<D: Disk>(disk: &D, known: Known, port: &[u8], page: &mut Page) -> bool
    ensures { Grows page.old page.new }
{
    let Ok(name) = str::from_utf8(port) else {
        return false;
    };
    if name == "std_in" {
        return match known.why(name) {
            None => false,
            Some(why) => {
                put_line(b"can't read the standard input", why, page);
                true
            }
        };
    }
    match disk.why_unreadable(name) {
        None => false,
        Some(why) => {
            put_of_port(b"can't read the port '", port, why, page);
            true
        }
    }
}

fn put_unwritten<D: Disk>(disk: &D, known: Known, port: &[u8], page: &mut Page) -> bool
    ensures { Grows page.old page.new }
{
    let Ok(name) = str::from_utf8(port) else {
        return false;
    };
    if name == "std_out" {
        return false;
    }
    if name == "std_in" {
        put_line(b"can't write the standard input", b"it is only read", page);
        return true;
    }
    match why_unwritten(disk, known, name) {
        None => false,
        Some(why) => {
            put_of_port(b"can't write the port '", port, why, page);
            true
        }
    }
}

// Puts `hume: WHAT: WHY`.
fn put_line(what: &[u8], why: &[u8], page: &mut Page)
    ensures { Grows page.old page.new }
{
    page.put(b"hume: ");
    page.put(what);
    put_why(why, page);
}

fn put_of_name(what: &[u8], name: &str, why: &[u8], page: &mut Page)
    ensures { Grows page.old page.new }
{
    page.put(b"hume: ");
    page.put(what);
    put_quoted(name.as_bytes(), page);
    put_why(why, page);
}

fn put_of_port(what: &[u8], port: &[u8], why: &[u8], page: &mut Page)
    ensures { Grows page.old page.new }
{
    page.put(b"hume: ");
    page.put(what);
    page.put(port);
    page.put(b"'");
    put_why(why, page);
}

fn put_why(why: &[u8], page: &mut Page)
    ensures { Grows page.old page.new }
{
    page.put(b": ");
    page.put(why);
    page.put(b"\n");
}
