//! The text of lines, types and constants.
ghost use Rattle.std.specs.Prelude.{◌≡◌, ◌++◌, ◌==◌, OnOk, IfOk, decimal};
ghost use Rattle.c_tree.specs.Words.{bits, comment_line, deeper, is_wide, least_amount, negative_text, positive_text, truth_text, type_text};
ghost use Rattle.c_tree.specs.Words.{unsigned_text, wide_text};

use crate::tree::{CType, Width};
use itoa::Buffer;
use std::alloc::{AllocError, Global};

/// The margin of what stands in a block.
pub fn deeper(alloc: Global, margin: &[u8]) -> Result<Vec<u8>, AllocError>
    ensures { IfOk result (λ inner. inner.items ≡ deeper margin.now) }
{
    let mut inner = Vec::from_slice(alloc, margin)?;
    inner.extend_from_slice(b"    ")?;
    Ok(inner)
}

#[tactic(auto, using(crate::proofs::Steps::text_steps))]
pub fn put_comment(text: &mut Vec<u8>, margin: &[u8], comment: &[u8]) -> Result<(), AllocError>
    ensures { OnOk result (text.new.items ≡ text.old.items ++ comment_line margin.now comment.now) }
{
    text.extend_from_slice(margin)?;
    text.extend_from_slice(b"/* ")?;
    text.extend_from_slice(comment)?;
    text.extend_from_slice(b" */\n")
}

pub fn put_number(text: &mut Vec<u8>, number: u64) -> Result<(), AllocError>
    ensures { OnOk result (text.new.items ≡ text.old.items ++ decimal number) }
{
    text.extend_from_slice(Buffer::new().format(number).as_bytes())
}

fn bits(width: Width) -> u64
    ensures { result ≡ bits width }
{
    match width {
        Width::W8 => 8,
        Width::W16 => 16,
        Width::W32 => 32,
        Width::W64 => 64,
    }
}

#[tactic(auto, using(crate::proofs::Steps::text_steps))]
pub fn put_type(text: &mut Vec<u8>, ty: &CType) -> Result<(), AllocError>
    ensures { OnOk result (text.new.items ≡ text.old.items ++ type_text ty.now) }
{
    match ty {
        CType::Bool => text.extend_from_slice(b"bool"),
        CType::Signed(width) => {
            text.extend_from_slice(b"int")?;
            put_number(text, bits(*width))?;
            text.extend_from_slice(b"_t")
        }
        CType::Unsigned(width) => {
            text.extend_from_slice(b"uint")?;
            put_number(text, bits(*width))?;
            text.extend_from_slice(b"_t")
        }
        CType::Named(name) => text.extend_from_slice(name.bytes()),
    }
}

pub fn put_truth(text: &mut Vec<u8>, holds: bool) -> Result<(), AllocError>
    ensures { OnOk result (text.new.items ≡ text.old.items ++ truth_text holds) }
{
    if holds {
        text.extend_from_slice(b"true")
    } else {
        text.extend_from_slice(b"false")
    }
}

fn is_wide(width: Width) -> bool
    ensures { result ≡ is_wide width }
{
    match width {
        Width::W8 | Width::W16 => false,
        Width::W32 | Width::W64 => true,
    }
}

#[tactic(auto, using(crate::proofs::Steps::text_steps))]
fn put_wide(text: &mut Vec<u8>, width: Width, amount: u64) -> Result<(), AllocError>
    ensures { OnOk result (text.new.items ≡ text.old.items ++ wide_text width amount) }
{
    put_number(text, bits(width))?;
    text.extend_from_slice(b"_C(")?;
    put_number(text, amount)?;
    text.extend_from_slice(b")")
}

#[tactic(auto, using(crate::proofs::Steps::text_steps))]
pub fn put_unsigned(text: &mut Vec<u8>, width: Width, amount: u64) -> Result<(), AllocError>
    ensures { OnOk result (text.new.items ≡ text.old.items ++ unsigned_text width amount) }
{
    if is_wide(width) {
        text.extend_from_slice(b"UINT")?;
        put_wide(text, width, amount)
    } else {
        put_number(text, amount)?;
        text.extend_from_slice(b"u")
    }
}

#[tactic(auto, using(crate::proofs::Steps::text_steps))]
pub fn put_positive(text: &mut Vec<u8>, width: Width, amount: u64) -> Result<(), AllocError>
    ensures { OnOk result (text.new.items ≡ text.old.items ++ positive_text width amount) }
{
    if is_wide(width) {
        text.extend_from_slice(b"INT")?;
        put_wide(text, width, amount)
    } else {
        put_number(text, amount)
    }
}

fn least_amount(width: Width) -> u64
    ensures { result ≡ least_amount width }
{
    match width {
        Width::W8 => 128,
        Width::W16 => 32_768,
        Width::W32 => 2_147_483_648,
        Width::W64 => 9_223_372_036_854_775_808,
    }
}

fn is_least(width: Width, amount: u64) -> bool
    ensures { result ≡ (amount == least_amount width) }
{
    amount == least_amount(width)
}

#[tactic(auto, using(crate::proofs::Steps::text_steps))]
pub fn put_negative(text: &mut Vec<u8>, width: Width, amount: u64) -> Result<(), AllocError>
    ensures { OnOk result (text.new.items ≡ text.old.items ++ negative_text width amount) }
{
    if is_least(width, amount) {
        text.extend_from_slice(b"INT")?;
        put_number(text, bits(width))?;
        text.extend_from_slice(b"_MIN")
    } else {
        text.extend_from_slice(b"-")?;
        put_positive(text, width, amount)
    }
}
