//! The code of a box.
ghost use Rattle.trials.specs.inner.Sources.{IsOfSource};

use crate::error::TrialError;
use box_code::BoxProgram;
use box_compile::compile;
use hume_front::Accepted;
use hume_model::{Core, NodeC};
use std::alloc::Global;
use std::io;

/// Tells the code of the box of that name, where its rules and handlers begin, and the room that it needs.
pub(crate) fn tell_code(
    rt: &HostRuntime,
    alloc: Global,
    accepted: &Accepted,
    name: &str,
) -> Result<(), TrialError>
    requires { IsOfSource accepted.now }
{
    let programs = compile(alloc, &accepted.core, &accepted.costs)?;
    match program_of(&accepted.core, name.as_bytes(), programs.as_slice()) {
        Some(program) => {
            tell_program(rt, program)?;
            Ok(())
        }
        None => Err(TrialError::NoBox),
    }
}

// The program of the first box of that name: programs stand in the order of the boxes.
fn program_of<'a>(core: &Core, name: &[u8], programs: &'a [BoxProgram]) -> Option<&'a BoxProgram> {
    let mut left = programs;
    for i in 0..core.nodes.len() {
        if let Some(NodeC::Rules(b)) = core.nodes.get(i) {
            let [program, more @ ..] = left else {
                return None;
            };
            if b.name.bytes() == name {
                return Some(program);
            }
            left = more;
        }
    }
    None
}

fn tell_program(rt: &HostRuntime, program: &BoxProgram) -> io::Result<()> {
    let words = program.code.words();
    println!(rt; "code {}", words.len())?;
    for word in words {
        println!(rt; "{}", *word)?;
    }
    tell_places(rt, "rules", program.rules.as_slice())?;
    tell_places(rt, "handlers", program.handlers.as_slice())?;
    println!(rt; "heap {}", program.heap)?;
    println!(rt; "stack {}", program.stack)?;
    println!(rt; "outputs {}", program.outs.len())
}

// How many places there are, and each of them.
fn tell_places(rt: &HostRuntime, what: &str, places: &[u32]) -> io::Result<()> {
    println!(rt; "{what} {}", places.len())?;
    for place in places {
        println!(rt; "{}", *place)?;
    }
    Ok(())
}
