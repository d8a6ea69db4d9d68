ghost use Rattle.std.specs.Prelude.{◌≡◌, ◌≤◌, ◌++◌, ◌<◌, IfOk, OnOk};
ghost use Rattle.demo_net.specs.Source.{boxes_behind, chain_text, demo_text, end_lines, head_lines};

use crate::boxes::{put_box, put_numbered};
use std::alloc::{AllocError, Global};

/// The greatest number that a net of `demo` is made for.
pub const MAX_NUMBER: u32 = 1_000_000;

/// Chains of boxes, each with a stream at its end.
pub const CHAINS: u32 = 10;

/// Boxes of a chain behind its head.
pub const BOXES_BEHIND: u32 = 19;

/// What the boxes of all chains use.
const DECLARATIONS: &[u8] =
    b"data Pair = P int 64 int 64 ;\nless :: int 64 -> int 64 -> int 64 ;\nless a b = a - b ;\n";

/// The source of the net of `demo` for that number.
pub fn demo_source(alloc: Global, number: u32) -> Result<Vec<u8>, AllocError>
    requires { number ≤ MAX_NUMBER }
    ensures { IfOk result (λ source. source.items ≡ demo_text number) }
{
    let mut text = Vec::from_slice(alloc, DECLARATIONS)?;
    for chain in 0..CHAINS {
        match put_chain(&mut text, number, chain) {
            Ok(()) => {}
            Err(error) => return Err(error),
        }
    }
    Ok(text)
}

fn put_chain(text: &mut Vec<u8>, number: u32, chain: u32) -> Result<(), AllocError>
    requires number { number ≤ MAX_NUMBER }
    requires chain { chain < CHAINS }
    ensures { OnOk result (text.new.items ≡ text.old.items ++ chain_text number chain) }
{
    put_head(text, chain)?;
    put_boxes(text, number, chain)?;
    put_end(text, chain)
}

// The box that counts, at the head of a chain.
fn put_head(text: &mut Vec<u8>, chain: u32) -> Result<(), AllocError>
    ensures { OnOk result (text.new.items ≡ text.old.items ++ head_lines chain) }
{
    put_numbered(text, b"box h", chain)?;
    text.extend_from_slice(
        b" in (n :: int 64) out (m :: int 64, y :: int 64) match (n) -> (n + 1, n) ;\n",
    )?;
    put_numbered(text, b"wire h", chain)?;
    put_numbered(text, b".m to h", chain)?;
    text.extend_from_slice(b".n initial 0 ;\n")
}

// The boxes behind it.
fn put_boxes(text: &mut Vec<u8>, number: u32, chain: u32) -> Result<(), AllocError>
    requires number { number ≤ MAX_NUMBER }
    requires chain { chain < CHAINS }
    ensures { OnOk result (text.new.items ≡ text.old.items ++ boxes_behind number chain) }
{
    for before in 0..BOXES_BEHIND {
        match put_box(text, number, chain, before + 1) {
            Ok(()) => {}
            Err(error) => return Err(error),
        }
    }
    Ok(())
}

// The stream at its end.
fn put_end(text: &mut Vec<u8>, chain: u32) -> Result<(), AllocError>
    ensures { OnOk result (text.new.items ≡ text.old.items ++ end_lines chain) }
{
    put_numbered(text, b"stream c", chain)?;
    put_numbered(text, b" to \"c", chain)?;
    text.extend_from_slice(b"\" ;\n")?;
    put_numbered(text, b"wire b", chain)?;
    put_numbered(text, b"_19.y to c", chain)?;
    text.extend_from_slice(b" ;\n")
}
