//! The deepest calls of a file.
ghost use Rattle.std.specs.Prelude.{◌≡◌, OnOk, IfOk, reverse};
ghost use Rattle.c_sizes.specs.Calls.{chain, chain_of, seen_from_outside, seen_of, with_frame, with_item};

use crate::bytes::Bytes;
use crate::frame::{Deepest, Frame, Functions};
use crate::layout::{Types, declare};
use crate::statements::function_frame;
use c_tree::{CFunction, CItem, CProgram, Linkage};
use hume_base::{List, Text};
use std::alloc::{AllocError, Global};

/// The functions of the deepest calls, each of which calls the one behind it, and the bytes of their variables.
///
/// The functions are the deepest where numbers align to 8 bytes. The bytes are in each column those of the deepest calls there.
#[derive(Drop)]
pub struct Chain {
    pub names: List<Text>,
    pub bytes: Bytes,
}

/// A function, and the number of its deepest callee, or 0.
#[derive(Drop)]
pub(crate) struct Entry {
    pub(crate) name: Text,
    pub(crate) callee: usize,
}

/// What is known of the items before a place.
#[derive(Drop)]
pub(crate) struct Seen<'a> {
    pub(crate) types: Types<'a>,
    pub(crate) functions: Functions<'a>,
    pub(crate) entries: List<Entry>,
    pub(crate) deepest: Deepest,
}

/// The deepest calls of a function that other files see.
pub fn deepest_calls(alloc: Global, program: &CProgram) -> Result<Chain, AllocError>
    ensures { IfOk result (λ calls. calls ≡ chain_of (seen_of program.now.items)) }
{
    let seen = seen_of(alloc, program.items.as_slice())?;
    Ok(Chain {
        names: chain_names(alloc, seen.entries.as_slice(), seen.deepest.function)?,
        bytes: seen.deepest.bytes,
    })
}

fn seen_of<'a>(alloc: Global, items: &'a [CItem]) -> Result<Seen<'a>, AllocError>
    ensures { IfOk result (λ seen. seen ≡ seen_of items.now) }
{
    let mut seen = Seen {
        types: Types::new(alloc),
        functions: Functions::new(alloc),
        entries: List::new(alloc),
        deepest: Deepest::no_call(),
    };
    for item in items {
        see(&mut seen, item)?;
    }
    Ok(seen)
}

fn see<'a>(seen: &mut Seen<'a>, item: &'a CItem) -> Result<(), AllocError>
    ensures { OnOk result (seen.new ≡ with_item seen.old item.now) }
{
    match item {
        CItem::Function(function) => {
            let frame = function_frame(&seen.types, &seen.functions, function);
            see_function(seen, function, frame)
        }
        CItem::Alias(_, _) => declare(&mut seen.types, item),
        CItem::Struct(_, _) => declare(&mut seen.types, item),
        CItem::Part(_) => Ok(()),
        CItem::Comment(_) => Ok(()),
        CItem::Enum(_) => Ok(()),
        CItem::Object(_, _) => Ok(()),
        CItem::StructObject(_, _) => Ok(()),
        CItem::Prototype(_) => Ok(()),
    }
}

fn see_function<'a>(
    seen: &mut Seen<'a>,
    function: &'a CFunction,
    frame: Frame,
) -> Result<(), AllocError>
    ensures { OnOk result (seen.new ≡ with_frame seen.old function.now frame) }
{
    let name = &function.head.name;
    let callee = frame.calls.function;
    seen.entries.push(Entry {
        name: name.copy()?,
        callee,
    })?;
    let call = Deepest {
        bytes: frame.depth(),
        function: seen.entries.len(),
    };
    seen.functions.add(name.bytes(), call)?;
    seen.deepest = seen_from_outside(function.head.linkage, seen.deepest, call);
    Ok(())
}

fn seen_from_outside(linkage: Linkage, deepest: Deepest, call: Deepest) -> Deepest
    ensures { result ≡ seen_from_outside linkage deepest call }
{
    match linkage {
        Linkage::External => deepest.deeper(call),
        Linkage::Static => deepest,
        Linkage::StaticInline => deepest,
    }
}

/// The names from the function of the number on, each followed by its deepest callee.
fn chain_names(alloc: Global, entries: &[Entry], number: usize) -> Result<List<Text>, AllocError>
    ensures { IfOk result (λ names. names ≡ chain number (reverse entries.now)) }
{
    let mut names = List::new(alloc);
    let mut wanted = number;
    let mut left = entries.len();
    while left > 0 {
        let entry = &entries[left - 1];
        if wanted == left {
            names.push(entry.name.copy()?)?;
            wanted = entry.callee;
        }
        left -= 1;
    }
    Ok(names)
}
