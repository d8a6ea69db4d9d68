//! Texts from lines with gaps, and strings of C.
ghost use Rattle.std.specs.Prelude.{◌≡◌, ◌++◌, ◌∷◌, [], false, map, IfOk, OnOk};
ghost use Rattle.std.specs.List.{flat_map};
ghost use Rattle.c_main.specs.Texts.{byte_text, filled_from, filled_lines, part_of, string_text};

use c_forms::joined;
use hume_base::Text;
use std::alloc::{AllocError, Global};

/// Lines in which `@` and a digit stand for the part of that place.
#[tactic(auto, using(crate::proofs::Steps::text_steps), unfolding(crate::specs::Texts::filled_lines))]
pub(crate) fn filled(alloc: Global, lines: &[&[u8]], parts: &[&[u8]]) -> Result<Text, AllocError>
    ensures { IfOk result (λ text. text ≡ filled_lines (map (λ line. line.now) lines.now) (map (λ part. part.now) parts.now)) }
{
    let mut text = Vec::new(alloc);
    for line in lines {
        put_filled_line(&mut text, line, parts)?;
        put_one(&mut text, b'\n')?;
    }
    Text::from_bytes(alloc, text.as_slice())
}

#[tactic(auto, using(crate::proofs::Steps::text_steps))]
fn put_filled_line(text: &mut Vec<u8>, line: &[u8], parts: &[&[u8]]) -> Result<(), AllocError>
    ensures { OnOk result (text.new.items ≡ text.old.items ++ filled_from (map (λ part. part.now) parts.now) false line.now) }
{
    let mut behind_sign = false;
    for byte in line {
        if behind_sign {
            put_part(text, *byte, parts)?;
            behind_sign = false;
        } else if *byte == b'@' {
            behind_sign = true;
        } else {
            put_one(text, *byte)?;
        }
    }
    Ok(())
}

fn put_part(text: &mut Vec<u8>, digit: u8, parts: &[&[u8]]) -> Result<(), AllocError>
    ensures { OnOk result (text.new.items ≡ text.old.items ++ part_of (map (λ part. part.now) parts.now) digit) }
{
    match parts.get(usize::from(digit.saturating_sub(b'0'))) {
        None => Ok(()),
        Some(part) => text.extend_from_slice(part),
    }
}

/// A string of C.
#[tactic(auto, using(crate::proofs::Steps::text_steps))]
pub(crate) fn string(alloc: Global, bytes: &[u8]) -> Result<Text, AllocError>
    ensures { IfOk result (λ text. text ≡ string_text bytes.now) }
{
    let mut text = Vec::new(alloc);
    put_bytes(&mut text, bytes)?;
    joined(alloc, &[b"\"", text.as_slice(), b"\""])
}

#[tactic(auto, using(crate::proofs::Steps::text_steps))]
fn put_bytes(text: &mut Vec<u8>, bytes: &[u8]) -> Result<(), AllocError>
    ensures { OnOk result (text.new.items ≡ text.old.items ++ flat_map byte_text bytes.now) }
{
    for byte in bytes {
        put_byte(text, *byte)?;
    }
    Ok(())
}

#[tactic(auto, using(crate::proofs::Steps::text_steps))]
fn put_byte(text: &mut Vec<u8>, byte: u8) -> Result<(), AllocError>
    ensures { OnOk result (text.new.items ≡ text.old.items ++ byte_text byte) }
{
    if byte == b'"' || byte == b'\\' || byte == b'?' {
        text.extend_from_slice(&[b'\\', byte])
    } else if 32 <= byte && byte <= 126 {
        put_one(text, byte)
    } else {
        text.extend_from_slice(&[
            b'\\',
            b'0' + byte / 64,
            b'0' + byte / 8 % 8,
            b'0' + byte % 8,
        ])
    }
}

fn put_one(text: &mut Vec<u8>, byte: u8) -> Result<(), AllocError>
    ensures { OnOk result (text.new.items ≡ text.old.items ++ byte ∷ []) }
{
    text.push(byte)?;
    Ok(())
}
