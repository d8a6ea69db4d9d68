//! The loop: one instruction after another.
ghost use Rattle.std.specs.Prelude.{◌≡◌, ◌≤◌, length};
ghost use Rattle.box_code.specs.Machine.{Setting};
ghost use Rattle.box_machine.specs.inner.Stepping.{EndsIn, IsHeap, IsOf, Keeps, ended, finished, machine_in};

use crate::registers::{Halted, Registers, Turn};
use crate::turn::turn;
use box_code::{BoxProgram, decode_words};
use box_heap::BoxHeap;

/// Runs the code from where the registers say on, up to the instruction that ends it, which is among the next so many.
pub(crate) fn run_code(
    program: &BoxProgram,
    start: Registers,
    most: u32,
    words: &mut [u64],
    heap: &mut BoxHeap,
) -> Halted
    requires top { start.top ≤ length words.old }
    requires held { IsHeap heap.old }
    requires ends { (setting : Setting) × IsOf program.now setting
        × EndsIn (ended setting most (machine_in start words.old heap.old)) (length words.old) heap.old.room }
    ensures end { (setting : Setting) → IsOf program.now setting
        → ended setting most (machine_in start words.old heap.old) ≡ finished setting result.left result.mask (machine_in result.registers words.new heap.new) }
    ensures top { result.registers.top ≤ length words.new }
    ensures kept { Keeps heap.old heap.new }
{
    let code = program.code.words();
    let mut registers = start;
    let mut left = most;
    loop {
        let (instr, next) = decode_words(code, registers.at);
        match turn(
            instr,
            program,
            code,
            Registers {
                at: next,
                ..registers
            },
            words,
            heap,
        ) {
            // Counting here gives all ways back one end. Without it, those that leave the stack as it is may become a loop within the
            // loop, and what holds there is computed again by each of the others.
            Turn::Goes(new) => {
                registers = new;
                left -= 1;
            }
            Turn::Ends(last, mask) => {
                return Halted {
                    registers: Registers {
                        at: registers.at,
                        ..last
                    },
                    mask,
                    left: left - 1,
                };
            }
        }
    }
}
