//! The functions of arithmetic, by width.
ghost use Rattle.std.specs.Prelude.{◌≡◌, ◌≤◌, ◌++◌, map, OnSome};
ghost use Rattle.std.specs.List.{flat_map, range_with_len};
ghost use Rattle.c_forms.specs.Gives.{Gives};
ghost use Rattle.c_arithmetic.specs.Widths.{c_type, work};
ghost use Rattle.c_arithmetic.specs.Bodies.{helper_name, sign_word, word_of};
ghost use Rattle.c_arithmetic.specs.Helpers.{function_item, head, helpers, helpers_at, helpers_for, helpers_of, parameter, parameters};
ghost use Rattle.c_arithmetic.specs.Helpers.{result as result_type, two_parameters};

use crate::bodies::body;
use c_forms::{function, numbered, of_one, of_two, parameter, push, text};
use c_names::Names;
use c_tree::{CHead, CItem, CParameter, CType, Linkage, Passing, Width};
use c_types::width_of;
use hume_base::{Box, List, Text};
use std::alloc::Global;

/// What a function of arithmetic does.
#[derive(Clone, Copy)]
pub enum Helper {
    /// Brings a number without a sign back to the bits of the type.
    To,
    Neg,
    Add,
    Sub,
    Mul,
    Div,
    Mod,
    Less,
    LessEqual,
    Equal,
}

/// The numbers that a function is for.
#[derive(Clone, Copy)]
pub struct Numbers {
    pub signed: bool,
    pub bits: u8,
}

impl Numbers {
    pub(crate) fn c_type(self) -> CType
        ensures { result ≡ c_type self }
    {
        if self.signed {
            return CType::Signed(width_of(self.bits));
        }
        CType::Unsigned(width_of(self.bits))
    }

    /// The width in which they are added and multiplied.
    pub(crate) fn work(self) -> Width
        ensures { result ≡ work self }
    {
        if self.bits <= 32 {
            Width::W32
        } else {
            Width::W64
        }
    }
}

// The functions that numbers with a sign have, each behind those that it calls.
const SIGNED: [Helper; 10] = [
    Helper::To,
    Helper::Neg,
    Helper::Add,
    Helper::Sub,
    Helper::Mul,
    Helper::Div,
    Helper::Mod,
    Helper::Less,
    Helper::LessEqual,
    Helper::Equal,
];

// Those of numbers without a sign, which C's own operators divide.
const UNSIGNED: [Helper; 8] = [
    Helper::To,
    Helper::Neg,
    Helper::Add,
    Helper::Sub,
    Helper::Mul,
    Helper::Less,
    Helper::LessEqual,
    Helper::Equal,
];

fn helpers_of(numbers: Numbers) -> &'static [Helper]
    ensures { result.now ≡ helpers_of numbers }
{
    if numbers.signed { &SIGNED } else { &UNSIGNED }
}

fn word_of(helper: Helper) -> &'static [u8]
    ensures { result.now ≡ word_of helper }
{
    match helper {
        Helper::To => b"to_",
        Helper::Neg => b"neg_",
        Helper::Add => b"add_",
        Helper::Sub => b"sub_",
        Helper::Mul => b"mul_",
        Helper::Div => b"div_",
        Helper::Mod => b"mod_",
        Helper::Less => b"less_",
        Helper::LessEqual => b"most_",
        Helper::Equal => b"same_",
    }
}

fn sign_of(numbers: Numbers) -> &'static [u8]
    ensures { result.now ≡ sign_word numbers }
{
    if numbers.signed { b"i" } else { b"u" }
}

/// The name of a function.
pub(crate) fn helper_name(
    alloc: Global,
    names: &Names,
    helper: Helper,
    numbers: Numbers,
) -> Option<Text>
    ensures { Gives result (helper_name names.now helper numbers) }
{
    let width = numbered(alloc, sign_of(numbers), u64::from(numbers.bits)).ok()?;
    names.inner(alloc, word_of(helper), width.bytes()).ok()
}

/// The functions of all widths, each behind those that it calls.
#[tactic(auto, unfolding(crate::specs::Helpers::helpers))]
pub fn helpers(alloc: Global, names: &Names) -> Option<List<CItem>>
    ensures { Gives result (helpers names.now) }
{
    helpers_up_to(alloc, names, 64)
}

// The functions of the widths from 1 on.
#[tactic(auto, using(crate::proofs::Ranges::flat_more))]
fn helpers_up_to(alloc: Global, names: &Names, most: u8) -> Option<List<CItem>>
    requires { most ≤ 64 }
    ensures { Gives result (flat_map (helpers_at names.now) (range_with_len 1 most)) }
{
    let mut items = List::new(alloc);
    for below in 0..most {
        put_width(alloc, &mut items, names, below + 1)?;
    }
    Some(items)
}

#[tactic(auto, unfolding(crate::specs::Helpers::helpers_at))]
fn put_width(alloc: Global, items: &mut List<CItem>, names: &Names, bits: u8) -> Option<()>
    requires { (1 ≤ bits) × (bits ≤ 64) }
    ensures { OnSome result (items.new ≡ items.old ++ helpers_at names.now bits) }
{
    let unsigned = Numbers {
        signed: false,
        bits,
    };
    put_helpers(alloc, items, names, unsigned)?;
    put_helpers(alloc, items, names, Numbers { signed: true, bits })
}

#[tactic(auto, unfolding(crate::specs::Helpers::helpers_for))]
fn put_helpers(
    alloc: Global,
    items: &mut List<CItem>,
    names: &Names,
    numbers: Numbers,
) -> Option<()>
    requires { (1 ≤ numbers.bits) × (numbers.bits ≤ 64) }
    ensures { OnSome result (items.new ≡ items.old ++ helpers_for names.now numbers) }
{
    put_each(alloc, items, names, numbers, helpers_of(numbers))
}

fn put_each(
    alloc: Global,
    items: &mut List<CItem>,
    names: &Names,
    numbers: Numbers,
    helpers: &[Helper],
) -> Option<()>
    requires { (1 ≤ numbers.bits) × (numbers.bits ≤ 64) }
    ensures { OnSome result (items.new ≡ items.old ++ map (function_item names.now numbers) helpers.now) }
{
    for helper in helpers {
        push(items, function_item(alloc, names, *helper, numbers))?;
    }
    Some(())
}

fn function_item(
    alloc: Global,
    names: &Names,
    helper: Helper,
    numbers: Numbers,
) -> Option<Box<CItem>>
    requires { (1 ≤ numbers.bits) × (numbers.bits ≤ 64) }
    ensures { Gives result (function_item names.now numbers helper) }
{
    let head = head(alloc, names, helper, numbers);
    function(alloc, head, body(alloc, names, helper, numbers))
}

fn head(alloc: Global, names: &Names, helper: Helper, numbers: Numbers) -> Option<Box<CHead>>
    ensures { Gives result (head names.now helper numbers) }
{
    let name = helper_name(alloc, names, helper, numbers);
    match (name, parameters(alloc, helper, numbers)) {
        (Some(name), Some(parameters)) => {
            let head = CHead {
                linkage: Linkage::StaticInline,
                result: Some(result_of(helper, numbers)),
                name,
                parameters,
            };
            Box::new(alloc, head).ok()
        }
        _ => None,
    }
}

fn result_of(helper: Helper, numbers: Numbers) -> CType
    ensures { result ≡ result_type helper numbers }
{
    match helper {
        Helper::Less | Helper::LessEqual | Helper::Equal => CType::Bool,
        _ => numbers.c_type(),
    }
}

fn parameters(alloc: Global, helper: Helper, numbers: Numbers) -> Option<List<CParameter>>
    ensures { Gives result (parameters helper numbers) }
{
    match helper {
        Helper::To => of_one(alloc, number(alloc, b"u", CType::Unsigned(numbers.work()))),
        Helper::Neg => of_one(alloc, number(alloc, b"a", numbers.c_type())),
        _ => two_parameters(alloc, numbers),
    }
}

fn two_parameters(alloc: Global, numbers: Numbers) -> Option<List<CParameter>>
    ensures { Gives result (two_parameters numbers) }
{
    let first = number(alloc, b"a", numbers.c_type());
    of_two(alloc, first, number(alloc, b"b", numbers.c_type()))
}

fn number(alloc: Global, name: &[u8], ty: CType) -> Option<Box<CParameter>>
    ensures { Gives result (parameter name.now ty) }
{
    parameter(alloc, ty, Passing::Value, text(alloc, name).ok())
}
