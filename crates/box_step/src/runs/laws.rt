//! Laws of the definitions, as contracts of functions that do nothing.
ghost use Rattle.std.specs.Prelude.{ℕ, List, Option};
ghost use Rattle.hume_base.specs.declared.types.Types.{Types};
ghost use Rattle.hume_base.specs.declared.types.Value.{Value};
ghost use Rattle.hume_model.specs.declared.core_tree.BoxC.{BoxC};
ghost use Rattle.hume_model.specs.declared.core_tree.Core.{Core};
ghost use Rattle.hume_model.specs.declared.core_tree.RuleC.{RuleC};
ghost use Rattle.box_code.specs.declared.program.BoxProgram.{BoxProgram};
ghost use Rattle.box_machine.specs.Running.{EndsInRoom};
ghost use Rattle.box_step.specs.runs.Runs.{IsReadyToRun, Memory};

/// The code of a rule that is ready to run ends within the program's work and the room that there is.
pub fn ready_rules_end()
    ensures { (core : Core) (b : BoxC) (rule : RuleC) (ins : List (Option Value)) (types : Types) (program : BoxProgram) (number : ℕ) (m : Memory)
        → IsReadyToRun core b rule ins types program number m → EndsInRoom types program number m.heap m.stack m.outputs }
{}
