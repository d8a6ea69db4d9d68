//! From words to instructions.
ghost use Rattle.std.specs.Prelude.{◌≡◌, ◌<◌, ◌≤◌, ◌+◌, ℕ, IsTrue, Some, length, slice_get};
ghost use Rattle.std.specs.Option.{is_some};
ghost use Rattle.box_code.specs.declared.instr.Instr.{Instr as AnyInstr};
ghost use Rattle.box_code.specs.declared.instr.Instr.TheVariants.{Finish};
ghost use Rattle.box_code.specs.Words.{StandsAt};
ghost use Rattle.box_code.specs.Reading.{comparison_of, high_operand, instr_at, instr_of, low_operand, other_instr, scalar_of};

use crate::code::Code;
use crate::instr::{Comparison, Instr, Path, Scalar};

/// The instruction that begins at the place, and the place after it.
#[inline(always)]
pub fn decode(code: &Code, at: u32) -> (Instr, usize)
    requires { (instr : AnyInstr) × (next : ℕ) × StandsAt code.now.words at instr next }
    ensures { (instr : AnyInstr) (next : ℕ) → StandsAt code.now.words at instr next → (result.0 ≡ instr) × (result.1 ≡ next) }
{
    decode_words(code.words(), at as usize)
}

/// The same over the words of a code, by what the words there make up.
#[inline(always)]
pub fn decode_words(words: &[u64], at: usize) -> (Instr, usize)
    requires there { IsTrue (is_some (instr_at words.now at)) }
    requires short { length words.now ≤ 4294967295 }
    ensures { instr_at words.now at ≡ Some (result.0, result.1) }
{
    let head = words[at];
    decode_kind(words, at, head % 0x20, head)
}

// By the kind and the operands of the first word. Each kind fits five bits.
#[inline(always)]
fn decode_kind(words: &[u64], at: usize, kind: u64, head: u64) -> (Instr, usize)
    requires there { IsTrue (is_some
        (instr_of kind (low_operand head) (high_operand head) (slice_get words.now (at + 1)) (slice_get words.now (at + 2)) (length words.now) at)) }
    requires short { length words.now ≤ 4294967295 }
    requires within { at < length words.now }
    ensures { instr_of kind (low_operand head) (high_operand head) (slice_get words.now (at + 1)) (slice_get words.now (at + 2)) (length words.now) at
        ≡ Some (result.0, result.1) }
{
    match kind {
        0 => (
            Instr::Push {
                word: words[at + 1],
            },
            at + 2,
        ),
        1 => (Instr::Load { depth: high(head) }, at + 1),
        2 => (
            Instr::Make {
                tag: high(head),
                count: low(head),
            },
            at + 1,
        ),
        3 => (Instr::Add { ty: ty_of(head) }, at + 1),
        4 => (Instr::Sub { ty: ty_of(head) }, at + 1),
        5 => (Instr::Mul { ty: ty_of(head) }, at + 1),
        6 => (Instr::Div { ty: ty_of(head) }, at + 1),
        7 => (Instr::Mod { ty: ty_of(head) }, at + 1),
        8 => (Instr::Neg { ty: ty_of(head) }, at + 1),
        9 => (Instr::Not, at + 1),
        10 => (Instr::Convert { ty: ty_of(head) }, at + 1),
        11 => (
            Instr::Compare {
                comparison: comparison(low(head) / 4),
                ty: scalar(low(head) % 4, high(head)),
            },
            at + 1,
        ),
        kind => decode_other(words, at, kind, head),
    }
}

// The same for the kinds from 12 on.
#[inline(always)]
fn decode_other(words: &[u64], at: usize, kind: u64, head: u64) -> (Instr, usize)
    requires there { IsTrue (is_some
        (other_instr kind (low_operand head) (high_operand head) (slice_get words.now (at + 1)) (slice_get words.now (at + 2)) (length words.now) at)) }
    requires short { length words.now ≤ 4294967295 }
    requires within { at < length words.now }
    ensures { other_instr kind (low_operand head) (high_operand head) (slice_get words.now (at + 1)) (slice_get words.now (at + 2)) (length words.now) at
        ≡ Some (result.0, result.1) }
{
    match kind {
        12 => (Instr::Index { count: high(head) }, at + 1),
        13 => (Instr::Update { count: high(head) }, at + 1),
        14 => (Instr::Jump { to: high(head) }, at + 1),
        15 => (Instr::JumpFalse { to: high(head) }, at + 1),
        16 => match_word(words, at, low(head), high(head)),
        17 => match_tag(words, at, low(head), high(head)),
        18 => (
            Instr::Field {
                depth: low(head),
                path: Path {
                    at: (at + 1) as u32,
                    length: high(head),
                },
            },
            at + 1 + high(head) as usize,
        ),
        19 => (Instr::Slide { count: high(head) }, at + 1),
        20 => (
            Instr::Call {
                to: high(head),
                count: low(head),
            },
            at + 1,
        ),
        21 => (
            Instr::Return {
                count: low(head),
                variables: high(head),
            },
            at + 1,
        ),
        22 => (
            Instr::Raise {
                exn: high(head),
                carried: low(head) == 1,
            },
            at + 1,
        ),
        23 => finish(head, at),
        // It is proved that no kind from 24 on comes. With an arm for each number of five bits the build has nothing to test.
        24 => finish(head, at),
        25 => finish(head, at),
        26 => finish(head, at),
        27 => finish(head, at),
        28 => finish(head, at),
        29 => finish(head, at),
        30 => finish(head, at),
        31 => finish(head, at),
        _ => unreachable!(),
    }
}

// The operands of an instruction's first word. Each is cut out where it is used alone.
#[inline(always)]
fn low(head: u64) -> u32
    ensures { result ≡ low_operand head }
{
    (head / 0x100 % 0x100_0000) as u32
}

#[inline(always)]
fn high(head: u64) -> u32
    ensures { result ≡ high_operand head }
{
    (head / 0x1_0000_0000) as u32
}

// The type of words that both operands stand for.
#[inline(always)]
fn ty_of(head: u64) -> Scalar
    ensures { result ≡ scalar_of (low_operand head) (high_operand head) }
{
    scalar(low(head), high(head))
}

#[inline(always)]
fn scalar(number: u32, bits: u32) -> Scalar
    ensures { result ≡ scalar_of number bits }
{
    match number {
        0 => Scalar::Bool,
        1 => Scalar::Char,
        2 => Scalar::Int((bits % 256) as u8),
        _ => Scalar::Nat((bits % 256) as u8),
    }
}

#[inline(always)]
fn comparison(number: u32) -> Comparison
    ensures { result ≡ comparison_of number }
{
    match number {
        0 => Comparison::Eq,
        1 => Comparison::Ne,
        2 => Comparison::Lt,
        3 => Comparison::Le,
        4 => Comparison::Gt,
        _ => Comparison::Ge,
    }
}

#[inline(always)]
fn finish(head: u64, at: usize) -> (Instr, usize)
    requires { at < 4294967295 }
    ensures { result ≡ (Finish (high_operand head), at + 1) }
{
    (Instr::Finish { mask: high(head) }, at + 1)
}

#[inline(always)]
fn match_word(words: &[u64], at: usize, depth: u32, to: u32) -> (Instr, usize)
    requires there { IsTrue (is_some (other_instr 16 depth to (slice_get words.now (at + 1)) (slice_get words.now (at + 2)) (length words.now) at)) }
    requires short { length words.now ≤ 4294967295 }
    ensures { other_instr 16 depth to (slice_get words.now (at + 1)) (slice_get words.now (at + 2)) (length words.now) at ≡ Some (result.0, result.1) }
{
    let length = (words[at + 1] % 0x1_0000_0000) as u32;
    let word = words[at + 2];
    (
        Instr::MatchWord {
            depth,
            path: Path {
                at: (at + 3) as u32,
                length,
            },
            word,
            to,
        },
        at + 3 + length as usize,
    )
}

#[inline(always)]
fn match_tag(words: &[u64], at: usize, depth: u32, to: u32) -> (Instr, usize)
    requires there { IsTrue (is_some (other_instr 17 depth to (slice_get words.now (at + 1)) (slice_get words.now (at + 2)) (length words.now) at)) }
    requires short { length words.now ≤ 4294967295 }
    ensures { other_instr 17 depth to (slice_get words.now (at + 1)) (slice_get words.now (at + 2)) (length words.now) at ≡ Some (result.0, result.1) }
{
    let length = (words[at + 1] % 0x1_0000_0000) as u32;
    let tag = (words[at + 2] % 0x1_0000_0000) as u32;
    (
        Instr::MatchTag {
            depth,
            path: Path {
                at: (at + 3) as u32,
                length,
            },
            tag,
            to,
        },
        at + 3 + length as usize,
    )
}
