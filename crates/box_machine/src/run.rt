//! A rule of a box is run.
ghost use Rattle.std.specs.Prelude.{◌≡◌, ◌≤◌, ℕ, length, take, Some};
ghost use Rattle.hume_base.specs.Sizes.{HaveTheirSizes};
ghost use Rattle.hume_model.specs.Reading.{HaveReadableSizes};
ghost use Rattle.box_code.specs.Machine.{Machine, setting_of};
ghost use Rattle.box_machine.specs.Running.{EndsInRoom, HasPut, RunsTo, answer_of, with_outputs};
ghost use Rattle.box_machine.specs.inner.PutOutputs.{HoldsEnd, Reaches};
ghost use Rattle.box_machine.specs.inner.Stepping.{IsHeap, Keeps, ended, machine_in};

use crate::code_run::run_code;
use crate::outputs::write_outputs;
use crate::ran::Ran;
use crate::registers::{Halted, Registers};
use box_code::BoxProgram;
use box_heap::{BoxHeap, BoxStack, OutBuf};
use hume_base::Types;

/// Runs the code of a rule of a box, on a heap and a stack that hold the built inputs, and writes the outputs. It takes no memory.
#[inline(never)]
pub fn run_rule(
    types: &Types,
    program: &BoxProgram,
    rule: u32,
    heap: &mut BoxHeap,
    stack: &mut BoxStack,
    out: &mut OutBuf,
    work: &mut u32,
) -> Ran
    requires sizes { HaveTheirSizes types.now }
    requires readable { HaveReadableSizes types.now }
    requires ends { EndsInRoom types.now program.now rule heap.old stack.old out.old }
    ensures answer { (count : ℕ) (final : Machine) → RunsTo types.now program.now rule heap.old stack.old count final → result ≡ answer_of final.raised }
    ensures work { (count : ℕ) (final : Machine) → RunsTo types.now program.now rule heap.old stack.old count final → work.new ≡ count }
    ensures stack { (count : ℕ) (final : Machine) → RunsTo types.now program.now rule heap.old stack.old count final
        → stack.new ≡ record stack.old { words = final.stack; peak = final.peak } }
    ensures heap { (count : ℕ) (final : Machine) (runs : RunsTo types.now program.now rule heap.old stack.old count final)
        → HasPut heap.old heap.new runs.objects final.objects }
    ensures outputs { (count : ℕ) (final : Machine) → RunsTo types.now program.now rule heap.old stack.old count final
        → out.new ≡ with_outputs out.old final.outs }
{
    let Some(place) = program.rules.get(rule as usize) else {
        return Ran::Outputs;
    };
    let start = Registers {
        at: *place as usize,
        top: stack.len() as usize,
        peak: stack.peak() as usize,
        raised: None,
    };
    let halted = run_on(types, program, start, stack.lend(), heap, out);
    stack.set(halted.registers.top, halted.registers.peak);
    *work = program.work - halted.left;
    answer(halted.registers.raised)
}

// Runs the code from where the registers say on to its end, with the outputs.
fn run_on(
    types: &Types,
    program: &BoxProgram,
    start: Registers,
    words: &mut [u64],
    heap: &mut BoxHeap,
    out: &mut OutBuf,
) -> Halted
    requires sizes { HaveTheirSizes types.now }
    requires readable { HaveReadableSizes types.now }
    requires top { start.top ≤ length words.old }
    requires held { IsHeap heap.old }
    requires ends { Reaches (ended (setting_of types.now program.now) program.now.work (machine_in start words.old heap.old)) (length words.old)
        heap.old.room out.old }
    ensures end { (end : ℕ × Machine) → ended (setting_of types.now program.now) program.now.work (machine_in start words.old heap.old) ≡ Some end
        → HoldsEnd end result.left result.registers words.new heap.new out.old out.new }
    ensures top { result.registers.top ≤ length words.new }
    ensures kept { Keeps heap.old heap.new }
{
    let halted = run_code(program, start, program.work, words, heap);
    let outs = program.outs.as_slice();
    let top = halted.registers.top;
    let base = write_outputs(types, outs, halted.mask, words, top, heap, out);
    Halted {
        registers: Registers {
            top: base,
            ..halted.registers
        },
        ..halted
    }
}

fn answer(raised: Option<u32>) -> Ran
    ensures { result ≡ answer_of raised }
{
    match raised {
        None => Ran::Outputs,
        Some(exn) => Ran::Handled(exn),
    }
}
