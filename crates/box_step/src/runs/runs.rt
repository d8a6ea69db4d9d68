//! The call that runs a rule.
ghost use Rattle.std.specs.Prelude.{List, Option};
ghost use Rattle.hume_base.specs.declared.types.Value.{Value};
ghost use Rattle.hume_model.specs.declared.core_tree.BoxC.{BoxC};
ghost use Rattle.hume_model.specs.declared.core_tree.Core.{Core};
ghost use Rattle.hume_model.specs.declared.core_tree.RuleC.{RuleC};
ghost use Rattle.box_step.specs.runs.Runs.{HasRun, IsReadyToRun, memory};

use box_code::BoxProgram;
use box_heap::{BoxHeap, BoxStack, OutBuf};
use box_machine::Ran;
use hume_base::Types;

/// Runs the code of the rule of that number, which is ready. What it leaves is said in the words of the meaning;
/// `box_machine::run_rule`, which does the work, says it in those of the machine. It takes no memory.
#[inline(always)]
pub fn run_ready_rule(
    types: &Types,
    program: &BoxProgram,
    rule: u32,
    heap: &mut BoxHeap,
    stack: &mut BoxStack,
    out: &mut OutBuf,
    work: &mut u32,
) -> Ran
    requires { (core : Core) × (b : BoxC) × (fired : RuleC) × (ins : List (Option Value))
        × IsReadyToRun core b fired ins types.now program.now rule (memory heap.old stack.old out.old) }
    ensures { (core : Core) (b : BoxC) (fired : RuleC) (ins : List (Option Value))
        → IsReadyToRun core b fired ins types.now program.now rule (memory heap.old stack.old out.old)
        → HasRun core b fired ins (memory heap.old stack.old out.old) (memory heap.new stack.new out.new) work.new result }
{
    box_machine::run_rule(types, program, rule, heap, stack, out, work)
}
