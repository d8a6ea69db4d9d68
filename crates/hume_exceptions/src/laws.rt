//! Laws of the definitions, as contracts of functions that do nothing.
ghost use Rattle.std.specs.Prelude.{◌≡◌, ℕ, true, List, Option, Some, None, slice_get};
ghost use Rattle.hume_base.specs.declared.types.Ty.{Ty};
ghost use Rattle.hume_base.specs.declared.types.Types.{Types};
ghost use Rattle.hume_base.specs.declared.types.Value.{Value};
ghost use Rattle.hume_base.specs.Holding.{HoldSmaller};
ghost use Rattle.hume_base.specs.Least.{IsLeast};
ghost use Rattle.hume_base.specs.Values.{is_value};
ghost use Rattle.hume_model.specs.declared.core_tree.BoxC.{BoxC};
ghost use Rattle.hume_model.specs.declared.core_tree.Core.{Core};
ghost use Rattle.hume_model.specs.declared.core_tree.Expr.{Expr};
ghost use Rattle.hume_model.specs.declared.core_tree.NodeC.TheVariants.{Rules};
ghost use Rattle.hume_model.specs.declared.core_tree.PatC.{PatC};
ghost use Rattle.hume_model.specs.declared.core_tree.Res.{Res};
ghost use Rattle.hume_model.specs.declared.outcome.Outcome.TheVariants.{Raises};
ghost use Rattle.hume_model.specs.declared.outcome.Outputs.TheVariants.{Throws};
ghost use Rattle.hume_model.specs.Completeness.{are_complete};
ghost use Rattle.hume_model.specs.Forms.{forms_of};
ghost use Rattle.hume_model.specs.HandlerRules.{BreaksHandlers};
ghost use Rattle.hume_model.specs.Handling.{HandlesAll};
ghost use Rattle.hume_model.specs.Meaning.{eval};
ghost use Rattle.hume_model.specs.Raising.{may_raise, result_may_raise};
ghost use Rattle.hume_model.specs.Results.{result_of};
ghost use Rattle.hume_model.specs.ResultTyping.{GivesOutputs};
ghost use Rattle.hume_model.specs.Typing.{HasType, AreOf};
ghost use Rattle.hume_model.specs.WellFormed.{HasSoundParts, IsWellFormed};
ghost use Rattle.hume_exceptions.specs.Matched.{ArePatternsOf, is_matched};

/// Complete patterns leave no value of their type out.
pub fn complete_patterns_match()
    ensures { (types : Types) → HoldSmaller types → (ty : Ty) (pats : List PatC) → ArePatternsOf types ty pats
        → are_complete types (forms_of ty) pats ≡ true → (v : Value) → is_value types ty v ≡ true → is_matched pats v ≡ true }
{}

/// Whatever an expression or a result raises, on values of its variables' types, it may raise.
pub fn raised_is_expected()
    ensures expressions { (core : Core) → HasSoundParts core → (vars : List Ty) (e : Expr) (ty : Ty) → HasType core vars e ty
        → (env : List Value) → AreOf core.types vars env → (exn : ℕ) (carried : Option Value) → eval core env e ≡ Raises exn carried
        → may_raise core exn e ≡ true }
    ensures results { (core : Core) → HasSoundParts core → (tys vars : List Ty) (res : Res) → GivesOutputs core tys vars res
        → (env : List Value) → AreOf core.types vars env → (exn : ℕ) (carried : Option Value) → result_of core env res ≡ Throws exn carried
        → result_may_raise core exn res ≡ true }
{}

/// A well-formed core that breaks no rule on handlers handles all that its rules raise.
pub fn fine_handlers_handle_all()
    ensures { (core : Core) → IsWellFormed core → IsLeast (BreaksHandlers core) None
        → (n : ℕ) (b : BoxC) → slice_get core.nodes n ≡ Some (Rules b) → HandlesAll core b }
{}
