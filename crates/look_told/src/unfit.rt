//! Which stream can't have the port that it names.
#![tactic(auto, using(look_sources::proofs::Growing::growing))]

ghost use Rattle.look_sources.specs.Pages.{Grows};

use crate::forms::{Call, Kind};
use crate::places::{Program, put_head, stream_of, stream_with_port};
use crate::quoted::put_name;
use hume_base::Rule;
use hume_model::{NodeC, StreamC};
use look_sources::Page;

/// Puts the first stream that can't have its port, and says why; and whether there is one. Of each program in turn it is asked whether
/// its ports would do for it alone, and then whether an earlier program has one of them.
pub fn put_unfit_port(call: &Call, programs: &[Program], page: &mut Page) -> bool
    ensures { Grows page.old page.new }
{
    for number in 0..programs.len() {
        if put_of_program(call, &programs[number], page) {
            return true;
        }
        if put_of_union(call, programs, number, page) {
            return true;
        }
    }
    false
}

fn put_of_program(call: &Call, program: &Program, page: &mut Page) -> bool
    ensures { Grows page.old page.new }
{
    let nodes = program.core.nodes.as_slice();
    for place in 0..nodes.len() {
        let Some(stream) = stream_of(&nodes[place]) else {
            continue;
        };
        if put_of_stream(call, program, &nodes[..place], stream, page) {
            return true;
        }
    }
    false
}

// Puts the stream if it can't have its port behind those nodes, even if no other program has it.
fn put_of_stream(
    call: &Call,
    program: &Program,
    earlier: &[NodeC],
    stream: &StreamC,
    page: &mut Page,
) -> bool
    ensures { Grows page.old page.new }
{
    let port = stream.port.bytes();
    if let Some(why) = why_taken(call, program, port) {
        put_why(program, stream, why, page);
        return true;
    }
    if let Some(other) = stream_with_port(earlier, port) {
        put_start(program, Rule::C55, stream, b" has the port '", page);
        page.put(b" of stream ");
        page.put(other.name.bytes());
        page.put(b"\n");
        return true;
    }
    if is_handed_in(call, port) {
        return false;
    }
    put_start(program, Rule::C55, stream, b" needs the port '", page);
    page.put(b" among the words\n");
    true
}

// What else of the call the port is.
fn why_taken(call: &Call, program: &Program, port: &[u8]) -> Option<&'static [u8]> {
    if port == program.source.as_bytes() {
        Some(b", which is the source")
    } else if call.has(Kind::Log, port) {
        Some(b", which is the log")
    } else if call.has(Kind::Script, port) {
        Some(b", which is the script")
    } else {
        None
    }
}

fn put_why(program: &Program, stream: &StreamC, why: &[u8], page: &mut Page)
    ensures { Grows page.old page.new }
{
    put_start(program, Rule::C55, stream, b" has the port '", page);
    page.put(why);
    page.put(b"\n");
}

fn is_handed_in(call: &Call, port: &[u8]) -> bool {
    port == b"std_in".as_slice()
        || port == b"std_out".as_slice()
        || call.has(Kind::Port, port)
        || call.has(Kind::Source, port)
}

// Puts the first stream of that program whose port is another program's source or an earlier one's.
fn put_of_union(call: &Call, programs: &[Program], number: usize, page: &mut Page) -> bool
    ensures { Grows page.old page.new }
{
    let (Some(program), Some(earlier)) = (programs.get(number), programs.get(..number)) else {
        return false;
    };
    for node in program.core.nodes.as_slice() {
        let Some(stream) = stream_of(node) else {
            continue;
        };
        if put_used(call, program, earlier, stream, page) {
            return true;
        }
    }
    false
}

fn put_used(
    call: &Call,
    program: &Program,
    earlier: &[Program],
    stream: &StreamC,
    page: &mut Page,
) -> bool
    ensures { Grows page.old page.new }
{
    let port = stream.port.bytes();
    if call.has(Kind::Source, port) {
        put_start(program, Rule::C57, stream, b" has the port '", page);
        page.put(b", which is the source of another program\n");
        return true;
    }
    for other in earlier {
        let Some(first) = stream_with_port(other.core.nodes.as_slice(), port) else {
            continue;
        };
        put_start(program, Rule::C57, stream, b" has the port '", page);
        put_other(first, other, page);
        return true;
    }
    false
}

// Puts the stream of another program.
fn put_other(stream: &StreamC, program: &Program, page: &mut Page)
    ensures { Grows page.old page.new }
{
    page.put(b", which is that of stream ");
    page.put(stream.name.bytes());
    page.put(b" of ");
    put_name(program.source.as_bytes(), page);
    page.put(b"\n");
}

// Puts `SOURCE:LINE: refused CODE: stream STREAM has the port 'PORT'`.
fn put_start(program: &Program, rule: Rule, stream: &StreamC, has: &[u8], page: &mut Page)
    ensures { Grows page.old page.new }
{
    put_head(program.source.as_bytes(), u64::from(stream.line), page);
    page.put(b"refused ");
    page.number(u64::from(rule.code()));
    put_stream(stream, has, page);
}

fn put_stream(stream: &StreamC, has: &[u8], page: &mut Page)
    ensures { Grows page.old page.new }
{
    page.put(b": stream ");
    page.put(stream.name.bytes());
    page.put(has);
    page.put(stream.port.bytes());
    page.put(b"'");
}
