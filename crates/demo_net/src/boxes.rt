//! The boxes of a chain behind its head.
ghost use Rattle.std.specs.Prelude.{◌≡◌, ◌≤◌, ◌<◌, ◌++◌, decimal, OnOk};
ghost use Rattle.demo_net.specs.declared.source.TheConstants.{BOXES_BEHIND, CHAINS, MAX_NUMBER};
ghost use Rattle.demo_net.specs.Source.{box_line, box_lines, box_name, growth as growth_at, input_line, output as output_at, state_line};

use itoa::Buffer;
use std::alloc::AllocError;

/// The lines of the box at that place of a chain, counted from 1: the box, and the wires from the box before it and to itself.
pub(crate) fn put_box(
    text: &mut Vec<u8>,
    number: u32,
    chain: u32,
    place: u32,
) -> Result<(), AllocError>
    requires number { number ≤ MAX_NUMBER }
    requires chain { chain < CHAINS }
    requires first { 1 ≤ place }
    requires last { place ≤ BOXES_BEHIND }
    ensures { OnOk result (text.new.items ≡ text.old.items ++ box_lines number chain place) }
{
    put_box_line(text, chain, place)?;
    put_input_line(text, chain, place)?;
    put_state_line(text, chain, place, number + 31 * chain + 17 * place)
}

fn put_box_line(text: &mut Vec<u8>, chain: u32, place: u32) -> Result<(), AllocError>
    ensures { OnOk result (text.new.items ≡ text.old.items ++ box_line chain place) }
{
    text.extend_from_slice(b"box ")?;
    put_name(text, chain, place)?;
    text.extend_from_slice(
        b" in (x :: int 64, s :: int 64) out (y :: int 64, r :: int 64) match (x, s) -> (",
    )?;
    text.extend_from_slice(output(place))?;
    text.extend_from_slice(b", s + ")?;
    text.extend_from_slice(growth(place))?;
    text.extend_from_slice(b") ;\n")
}

fn put_input_line(text: &mut Vec<u8>, chain: u32, place: u32) -> Result<(), AllocError>
    requires { 1 ≤ place }
    ensures { OnOk result (text.new.items ≡ text.old.items ++ input_line chain place) }
{
    text.extend_from_slice(b"wire ")?;
    put_name(text, chain, place - 1)?;
    text.extend_from_slice(b".y to ")?;
    put_name(text, chain, place)?;
    text.extend_from_slice(b".x ;\n")
}

fn put_state_line(
    text: &mut Vec<u8>,
    chain: u32,
    place: u32,
    initial: u32,
) -> Result<(), AllocError>
    ensures { OnOk result (text.new.items ≡ text.old.items ++ state_line chain place initial) }
{
    text.extend_from_slice(b"wire ")?;
    put_name(text, chain, place)?;
    text.extend_from_slice(b".r to ")?;
    put_name(text, chain, place)?;
    put_numbered(text, b".s initial ", initial)?;
    text.extend_from_slice(b" ;\n")
}

fn put_name(text: &mut Vec<u8>, chain: u32, place: u32) -> Result<(), AllocError>
    ensures { OnOk result (text.new.items ≡ text.old.items ++ box_name chain place) }
{
    if place == 0 {
        return put_numbered(text, b"h", chain);
    }
    put_numbered(text, b"b", chain)?;
    put_numbered(text, b"_", place)
}

/// A text with a number behind it.
pub(crate) fn put_numbered(text: &mut Vec<u8>, label: &[u8], number: u32) -> Result<(), AllocError>
    ensures { OnOk result (text.new.items ≡ text.old.items ++ (label.now ++ decimal number)) }
{
    text.extend_from_slice(label)?;
    text.extend_from_slice(Buffer::new().format(number).as_bytes())
}

// What the box makes of its input `x` and its state `s`.
fn output(place: u32) -> &'static [u8]
    ensures { result.now ≡ output_at place }
{
    match place % 4 {
        0 => b"x + s",
        1 => b"less x s",
        2 => b"case P s x of P a b -> a + b end",
        _ => b"x - <<s, 0>> @ 1",
    }
}

// By how much its state grows.
fn growth(place: u32) -> &'static [u8]
    ensures { result.now ≡ growth_at place }
{
    match place % 4 {
        1 | 3 => b"2",
        _ => b"1",
    }
}
