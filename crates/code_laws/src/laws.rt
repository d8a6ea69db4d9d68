//! Laws of the definitions, as contracts of functions that do nothing.
ghost use Rattle.std.specs.Prelude.{◌≡◌, ◌≤◌, ◌∷◌, [], ℕ, true, List, Option, Some, length, slice_get};
ghost use Rattle.hume_base.specs.declared.types.Ty.{Ty};
ghost use Rattle.hume_base.specs.declared.types.Value.{Value};
ghost use Rattle.hume_model.specs.declared.core_tree.BoxC.{BoxC};
ghost use Rattle.hume_model.specs.declared.core_tree.Core.{Core};
ghost use Rattle.hume_model.specs.declared.core_tree.Expr.{Expr};
ghost use Rattle.hume_model.specs.declared.core_tree.HandC.{HandC};
ghost use Rattle.hume_model.specs.declared.core_tree.Res.{Res};
ghost use Rattle.hume_model.specs.declared.core_tree.RuleC.{RuleC};
ghost use Rattle.hume_model.specs.BoxTyping.{BoxIsTyped, port_types};
ghost use Rattle.hume_model.specs.Handling.{HandlesAll};
ghost use Rattle.hume_model.specs.Matching.{fits};
ghost use Rattle.hume_model.specs.ResultTyping.{GivesOutputs, are_outputs};
ghost use Rattle.hume_model.specs.Typing.{AreOf, HasType, is_raised};
ghost use Rattle.hume_model.specs.WellFormed.{HasSoundParts};
ghost use Rattle.box_costs.specs.Spending.{spent};
ghost use Rattle.box_costs.specs.ResultSpending.{handler_spent, result_spent};
ghost use Rattle.box_code.specs.declared.program.BoxProgram.{BoxProgram};
ghost use Rattle.box_code.specs.Machine.{Machine, Setting, setting_of};
ghost use Rattle.box_code.specs.Represents.{FunctionsStand, HandlerStands, Represents, ResultStands};
ghost use Rattle.box_code.specs.RepresentsBox.{RepresentsBox};
ghost use Rattle.code_laws.specs.Ending.{ResultRunsSpent};
ghost use Rattle.code_laws.specs.RuleEnding.{IsReady, RuleRuns};
ghost use Rattle.code_laws.specs.Running.{RunsSpent, StandsFor};
ghost use Rattle.code_laws.specs.Variables.{Fits};

/// Where code stands for an expression and words for its variables, a machine comes to a word for the value, or to the handler
/// with a word for what is raised, and spends just what the expression spends.
pub fn expressions_run()
    ensures { (core : Core) → HasSoundParts core → (s : Setting) (entry : ℕ → Option ℕ) → FunctionsStand s.code entry core
        → (vars : List Ty) (e : Expr) (ty : Ty) → HasType core vars e ty → (env : List Value) → AreOf core.types vars env
        → (below high to : ℕ) (places : List ℕ) (m : Machine) → Represents s.code entry places high m.at to e → Fits below places env high m
        → RunsSpent s m m.stack (length m.stack) to (spent core env e) }
{}

/// The same for a result, whose outputs a machine ends with.
pub fn results_run()
    ensures { (core : Core) → HasSoundParts core → (s : Setting) → s.types ≡ core.types → (entry : ℕ → Option ℕ) → FunctionsStand s.code entry core
        → (vars : List Ty) (res : Res) → GivesOutputs core s.outs vars res → (env : List Value) → AreOf core.types vars env
        → (below high to : ℕ) (places : List ℕ) (m : Machine) → ResultStands s.code entry places high m.at to res → Fits below places env high m
        → ResultRunsSpent s m (length m.stack) (result_spent core env res) }
{}

/// The same for a handler, on a machine with nothing but a word for what the exception carries on its stack.
pub fn handlers_run()
    ensures { (core : Core) → HasSoundParts core → (b : BoxC) → BoxIsTyped core b
        → (s : Setting) → s.types ≡ core.types → s.outs ≡ port_types b.outs → (entry : ℕ → Option ℕ) → FunctionsStand s.code entry core
        → (number : ℕ) (handler : HandC) → slice_get b.handlers number ≡ Some handler
        → (carried : Option Value) → is_raised core.types (slice_get core.exns handler.exn) carried ≡ true
        → (m : Machine) (word : ℕ) → m.stack ≡ word ∷ [] → 1 ≤ m.peak → StandsFor m.objects carried word → HandlerStands s.code entry handler m.at
        → ResultRunsSpent s m 0 (handler_spent core carried handler) }
{}

/// A program that represents a box runs each rule that fits: from where it begins, and words for the inputs that are built, to
/// the outputs that the meaning gives. It spends just what the rule spends, and knows the exception that was handled.
pub fn rules_run()
    ensures { (core : Core) → HasSoundParts core → (b : BoxC) → BoxIsTyped core b → HandlesAll core b
        → (program : BoxProgram) → RepresentsBox core b program → (number : ℕ) (rule : RuleC) → slice_get b.rules number ≡ Some rule
        → (ins : List (Option Value)) → are_outputs core.types (port_types b.ins) ins ≡ true → fits rule.pats ins ≡ true
        → (m : Machine) → IsReady program number rule ins m → RuleRuns (setting_of core.types program) core b rule ins m }
{}
