//! The header.
ghost use Rattle.std.specs.Prelude.{◌≡◌, ◌++◌, ◌∷◌, [], IfOk, OnOk};
ghost use Rattle.c_main.specs.Texts.{filled as filled_told};
ghost use Rattle.c_main.specs.Main.{header_file, header_text};

use crate::lines::filled;
use c_forms::joined;
use c_tree::{CItem, CProgram, put_program};
use hume_base::{List, Text};
use std::alloc::{AllocError, Global};

const GUARD: [&[u8]; 2] = [b"#ifndef @0_H", b"#define @0_H"];

/// Appends the header of a file: the types of its hooks, the hooks and the two calls.
#[tactic(auto, using(crate::proofs::Steps::text_steps))]
pub fn put_header(
    alloc: Global,
    text: &mut Vec<u8>,
    items: List<CItem>,
    headers: List<Text>,
    program: &[u8],
) -> Result<(), AllocError>
    ensures { OnOk result (text.new.items ≡ text.old.items ++ header_text items headers program.now) }
{
    put_guard(alloc, text, program)?;
    let file = header_file(alloc, items, headers, program)?;
    put_program(text, &file)?;
    text.extend_from_slice(b"\n#endif\n")
}

fn put_guard(alloc: Global, text: &mut Vec<u8>, program: &[u8]) -> Result<(), AllocError>
    ensures { OnOk result (text.new.items ≡ text.old.items ++ filled_told GUARD (program.now ∷ [])) }
{
    let guard = filled(alloc, &GUARD, &[program])?;
    text.extend_from_slice(guard.bytes())
}

#[tactic(auto, unfolding(crate::specs::Main::header_file))]
fn header_file(
    alloc: Global,
    items: List<CItem>,
    headers: List<Text>,
    program: &[u8],
) -> Result<CProgram, AllocError>
    ensures { IfOk result (λ file. file ≡ header_file items headers program.now) }
{
    Ok(CProgram {
        comment: joined(alloc, &[program, b": its streams are yours to define"])?,
        headers,
        items,
    })
}
