//! What the functions of arithmetic do.
ghost use Rattle.std.specs.Prelude.{◌≡◌, ◌≤◌, ◌+◌, ◌-◌};
ghost use Rattle.c_tree.specs.Words.{bits};
ghost use Rattle.c_forms.specs.Gives.{Gives};
ghost use Rattle.c_arithmetic.specs.Widths.{greatest};
ghost use Rattle.c_arithmetic.specs.Bodies.{below_half, body, brought_back, divided, low_bits, negative_low, of_both, operand, opposite, returned, signed_body};
ghost use Rattle.c_arithmetic.specs.Bodies.{signed_low, turned_low, unsigned_low, wrapping};

use crate::functions::{Helper, Numbers, helper_name};
use c_forms::{
    binary, called, cast, choice, define, equal, name, negate, of_one, of_two, one_if, returns,
    signed, text, unsigned,
};
use c_names::Names;
use c_tree::{CExp, COp, CStm, CType, Width};
use c_types::width_of;
use hume_base::{Box, List};
use std::alloc::Global;

pub(crate) fn body(
    alloc: Global,
    names: &Names,
    helper: Helper,
    numbers: Numbers,
) -> Option<List<CStm>>
    requires { (1 ≤ numbers.bits) × (numbers.bits ≤ 64) }
    ensures { Gives result (body names.now helper numbers) }
{
    match helper {
        Helper::To if numbers.signed => signed_body(alloc, numbers),
        Helper::To => returned(alloc, unsigned_low(alloc, numbers)),
        Helper::Neg => brought_back(alloc, names, numbers, opposite(alloc, numbers)),
        Helper::Add => wrapping(alloc, names, numbers, COp::Add),
        Helper::Sub => wrapping(alloc, names, numbers, COp::Subtract),
        Helper::Mul => wrapping(alloc, names, numbers, COp::Multiply),
        Helper::Div => {
            let negative = helper_name(alloc, names, Helper::Neg, numbers);
            let negative = called(alloc, negative, of_one(alloc, name(alloc, b"a")));
            divided(alloc, numbers, COp::Divide, negative)
        }
        Helper::Mod => {
            let zero = signed(alloc, width_of(numbers.bits), false, 0);
            divided(alloc, numbers, COp::Remainder, zero)
        }
        Helper::Less => returned(alloc, of_both(alloc, COp::Less)),
        Helper::LessEqual => returned(alloc, of_both(alloc, COp::LessEqual)),
        Helper::Equal => returned(alloc, of_both(alloc, COp::Equal)),
    }
}

fn returned(alloc: Global, value: Option<Box<CExp>>) -> Option<List<CStm>>
    ensures { (v : CExp) → Gives value v → Gives result (returned v) }
{
    of_one(alloc, returns(alloc, value))
}

fn of_both(alloc: Global, operator: COp) -> Option<Box<CExp>>
    ensures { Gives result (of_both operator) }
{
    binary(alloc, operator, name(alloc, b"a"), name(alloc, b"b"))
}

fn opposite(alloc: Global, numbers: Numbers) -> Option<Box<CExp>>
    ensures { Gives result (opposite numbers) }
{
    let zero = unsigned(alloc, numbers.work(), 0);
    binary(alloc, COp::Subtract, zero, operand(alloc, b"a", numbers))
}

// The greatest number of so many bits.
fn greatest(bits: u8) -> u64
    requires { bits ≤ 64 }
    ensures { result ≡ greatest bits }
{
    if bits == 64 {
        return u64::MAX;
    }
    (1u64 << bits) - 1
}

fn bits_of(width: Width) -> u8
    ensures { result ≡ bits width }
{
    match width {
        Width::W8 => 8,
        Width::W16 => 16,
        Width::W32 => 32,
        Width::W64 => 64,
    }
}

// `u`, but for the bits above those of the numbers.
fn low_bits(alloc: Global, numbers: Numbers) -> Option<Box<CExp>>
    requires { (1 ≤ numbers.bits) × (numbers.bits ≤ 64) }
    ensures { Gives result (low_bits numbers) }
{
    let u = name(alloc, b"u");
    if bits_of(numbers.work()) == numbers.bits {
        return u;
    }
    let mask = unsigned(alloc, numbers.work(), greatest(numbers.bits));
    binary(alloc, COp::BitAnd, u, mask)
}

fn unsigned_low(alloc: Global, numbers: Numbers) -> Option<Box<CExp>>
    requires { (1 ≤ numbers.bits) × (numbers.bits ≤ 64) }
    ensures { Gives result (unsigned_low numbers) }
{
    if bits_of(width_of(numbers.bits)) == numbers.bits {
        return cast(alloc, numbers.c_type(), name(alloc, b"u"));
    }
    cast(alloc, numbers.c_type(), low_bits(alloc, numbers))
}

fn signed_body(alloc: Global, numbers: Numbers) -> Option<List<CStm>>
    requires { (1 ≤ numbers.bits) × (numbers.bits ≤ 64) }
    ensures { Gives result (signed_body numbers) }
{
    let work = CType::Unsigned(numbers.work());
    let name = text(alloc, b"low").ok();
    let low = define(alloc, work, name, low_bits(alloc, numbers));
    let value = returns(alloc, signed_low(alloc, numbers));
    of_two(alloc, low, value)
}

// The number that the low bits stand for in two's complement.
fn signed_low(alloc: Global, numbers: Numbers) -> Option<Box<CExp>>
    requires { (1 ≤ numbers.bits) × (numbers.bits ≤ 64) }
    ensures { Gives result (signed_low numbers) }
{
    let inner = (CType::Signed(numbers.work()), CType::Signed(numbers.work()));
    let below = below_half(alloc, numbers);
    let negative = negative_low(alloc, numbers);
    choice(
        alloc,
        numbers.c_type(),
        inner,
        below,
        name(alloc, b"low"),
        negative,
    )
}

fn below_half(alloc: Global, numbers: Numbers) -> Option<Box<CExp>>
    requires { (1 ≤ numbers.bits) × (numbers.bits ≤ 64) }
    ensures { Gives result (below_half numbers) }
{
    let half = unsigned(alloc, numbers.work(), half(numbers.bits));
    binary(alloc, COp::Less, name(alloc, b"low"), half)
}

// Half of so many bits' numbers lie below it.
fn half(bits: u8) -> u64
    requires { (1 ≤ bits) × (bits ≤ 64) }
    ensures { result ≡ greatest (bits - 1) + 1 }
{
    1u64 << (bits - 1)
}

// Where the highest bit is set, the number is -1 less the other bits turned.
fn negative_low(alloc: Global, numbers: Numbers) -> Option<Box<CExp>>
    requires { (1 ≤ numbers.bits) × (numbers.bits ≤ 64) }
    ensures { Gives result (negative_low numbers) }
{
    let turned = turned_low(alloc, numbers);
    let turned = cast(alloc, CType::Signed(numbers.work()), turned);
    let one = signed(alloc, numbers.work(), false, 1);
    binary(alloc, COp::Subtract, negate(alloc, turned), one)
}

fn turned_low(alloc: Global, numbers: Numbers) -> Option<Box<CExp>>
    requires { numbers.bits ≤ 64 }
    ensures { Gives result (turned_low numbers) }
{
    let mask = unsigned(alloc, numbers.work(), greatest(numbers.bits));
    binary(alloc, COp::Subtract, mask, name(alloc, b"low"))
}

// A parameter without its sign, in the width of the work.
fn operand(alloc: Global, parameter: &[u8], numbers: Numbers) -> Option<Box<CExp>>
    ensures { Gives result (operand numbers parameter.now) }
{
    cast(
        alloc,
        CType::Unsigned(numbers.work()),
        name(alloc, parameter),
    )
}

fn brought_back(
    alloc: Global,
    names: &Names,
    numbers: Numbers,
    value: Option<Box<CExp>>,
) -> Option<List<CStm>>
    ensures { (v : CExp) → Gives value v → Gives result (brought_back names.now numbers v) }
{
    let to = helper_name(alloc, names, Helper::To, numbers);
    returned(alloc, called(alloc, to, of_one(alloc, value)))
}

fn wrapping(alloc: Global, names: &Names, numbers: Numbers, operator: COp) -> Option<List<CStm>>
    ensures { Gives result (wrapping names.now numbers operator) }
{
    let a = operand(alloc, b"a", numbers);
    let b = operand(alloc, b"b", numbers);
    brought_back(alloc, names, numbers, binary(alloc, operator, a, b))
}

// The quotient or the rest of numbers with a sign; by -1 the value.
fn divided(
    alloc: Global,
    numbers: Numbers,
    operator: COp,
    by_minus_one: Option<Box<CExp>>,
) -> Option<List<CStm>>
    ensures { (v : CExp) → Gives by_minus_one v → Gives result (divided numbers operator v) }
{
    let minus_one = signed(alloc, width_of(numbers.bits), true, 1);
    let test = equal(alloc, name(alloc, b"b"), minus_one);
    let special = one_if(alloc, test, returned(alloc, by_minus_one));
    let exact = cast(alloc, numbers.c_type(), of_both(alloc, operator));
    of_two(alloc, special, returns(alloc, exact))
}
