//! Calls, returns and exceptions.
ghost use Rattle.std.specs.Prelude.{◌≡◌, ◌≤◌, ◌∷◌, [], length, Some};
ghost use Rattle.box_code.specs.Machine.{Setting, handler_place as place_of_handler};
ghost use Rattle.box_code.specs.declared.instr.Instr.TheVariants.{Call, Return, Raise};
ghost use Rattle.box_machine.specs.inner.Stepping.{CanDo, Does, IsOf, Stacked};

use crate::registers::Registers;
use crate::stack_words::{push, put_at, word_at};
use box_code::BoxProgram;

/// Pushes the place to return to and the height below the arguments, and goes on at the function.
#[inline(always)]
pub(crate) fn call(to: u32, count: u32, registers: Registers, words: &mut [u64]) -> Registers
    requires top { registers.top ≤ length words.old }
    requires can { (setting : Setting) × CanDo setting (Call to count) registers words.old }
    ensures { (setting : Setting) → Does setting (Call to count) registers words.old result words.new }
{
    let base = registers.top - count as usize;
    let framed = push(registers, words, registers.at as u64);
    let pushed = push(framed, words, base as u64);
    Registers {
        at: to as usize,
        ..pushed
    }
}

/// The top word takes the place of the frame, and goes on where the call was.
#[inline(always)]
pub(crate) fn return_with(
    count: u32,
    variables: u32,
    registers: Registers,
    words: &mut [u64],
) -> Registers
    requires top { registers.top ≤ length words.old }
    requires can { (setting : Setting) × CanDo setting (Return count variables) registers words.old }
    ensures { (setting : Setting) → CanDo setting (Return count variables) registers words.old
        → Does setting (Return count variables) registers words.old result words.new }
{
    let word = word_at(words, registers.top, 0);
    let back = word_at(words, registers.top, 2 + variables as usize);
    let base = registers.top - 3 - variables as usize - count as usize;
    put_at(
        Registers {
            at: back as usize,
            ..registers
        },
        words,
        base,
        word,
    )
}

/// What the exception carries is alone on the stack, and goes on at the handler.
#[inline(always)]
pub(crate) fn hand_over(
    program: &BoxProgram,
    exn: u32,
    word: u64,
    registers: Registers,
    words: &mut [u64],
) -> Registers
    requires { 1 ≤ length words.old }
    ensures { Stacked result words.new (place_of_handler program.now exn) (word ∷ []) registers.peak (Some exn) }
{
    words[0] = word;
    Registers {
        at: handler_place(program, exn) as usize,
        top: 1,
        peak: registers.peak,
        raised: Some(exn),
    }
}

// The end of the code where there is no handler.
#[inline(always)]
fn handler_place(program: &BoxProgram, exn: u32) -> u32
    ensures { result ≡ place_of_handler program.now exn }
{
    match program.handlers.get(exn as usize) {
        Some(place) => *place,
        None => program.code.len(),
    }
}

/// Raises the exception, which carries the top word, or 0.
#[inline(always)]
pub(crate) fn raise(
    exn: u32,
    carried: bool,
    program: &BoxProgram,
    registers: Registers,
    words: &mut [u64],
) -> Registers
    requires top { registers.top ≤ length words.old }
    requires can { (setting : Setting) × CanDo setting (Raise exn carried) registers words.old }
    ensures { (setting : Setting) → IsOf program.now setting → Does setting (Raise exn carried) registers words.old result words.new }
{
    let word = if carried {
        word_at(words, registers.top, 0)
    } else {
        0
    };
    hand_over(program, exn, word, registers, words)
}
