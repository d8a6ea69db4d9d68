//! Laws of the definitions, as contracts of functions that do nothing.
ghost use Rattle.std.specs.Prelude.{List};
ghost use Rattle.hume_base.specs.declared.types.Ty.{Ty};
ghost use Rattle.hume_model.specs.declared.core_tree.BoxC.{BoxC};
ghost use Rattle.hume_model.specs.declared.core_tree.Core.{Core};
ghost use Rattle.hume_model.specs.declared.core_tree.FunC.{FunC};
ghost use Rattle.hume_model.specs.BoxTyping.{HandlerIsTyped, RuleIsTyped};
ghost use Rattle.hume_model.specs.ResultTyping.{GivesOutputs};
ghost use Rattle.hume_model.specs.Typing.{EquationsHave, HasType};
ghost use Rattle.typed_core.specs.declared.typed_tree.TypedExpr.{TypedExpr};
ghost use Rattle.typed_core.specs.declared.typed_tree.TypedEquation.{TypedEquation};
ghost use Rattle.typed_core.specs.declared.typed_tree.TypedHandler.{TypedHandler};
ghost use Rattle.typed_core.specs.declared.typed_tree.TypedResult.{TypedResult};
ghost use Rattle.typed_core.specs.declared.typed_tree.TypedRule.{TypedRule};
ghost use Rattle.typed_core.specs.Declarations.{AreEquationsOf, TypedHandlerFits, TypedRuleFits};
ghost use Rattle.typed_core.specs.Erasing.{erased, erased_handler, erased_result, erased_rule};
ghost use Rattle.typed_core.specs.Parts.{EachIsTyped, parts};
ghost use Rattle.typed_core.specs.ResultParts.{EachGives, inners, result_parts};
ghost use Rattle.typed_core.specs.ResultTyping.{ResultIsTyped};
ghost use Rattle.typed_core.specs.Typing.{IsTyped};

/// Each part of a typed expression has the one type that its place gives, and so have the variables around it.
pub fn places_give_types()
    ensures { (core : Core) (vars : List Ty) (e : TypedExpr) (ty : Ty) → IsTyped core vars e ty
        → EachIsTyped core (parts core vars e ty) }
{}

/// So it is with the expressions in a typed result, and the results in it give the same outputs as the whole.
pub fn places_in_results_give_types()
    ensures parts { (core : Core) (tys vars : List Ty) (r : TypedResult) → ResultIsTyped core tys vars r
        → EachIsTyped core (result_parts core tys vars r) }
    ensures inners { (core : Core) (tys vars : List Ty) (r : TypedResult) → ResultIsTyped core tys vars r
        → EachGives core tys (inners core vars r) }
{}

/// What a typed expression erases to has its type.
pub fn erased_expressions_have_their_types()
    ensures { (core : Core) (vars : List Ty) (e : TypedExpr) (ty : Ty) → IsTyped core vars e ty
        → HasType core vars (erased e) ty }
{}

/// What a typed result erases to gives outputs of the types.
pub fn erased_results_give_their_outputs()
    ensures { (core : Core) (tys vars : List Ty) (r : TypedResult) → ResultIsTyped core tys vars r
        → GivesOutputs core tys vars (erased_result r) }
{}

/// A function of the core whose equations are typed ones, erased, is typed.
pub fn erased_functions_are_typed()
    ensures { (core : Core) (function : FunC) (equations : List TypedEquation) → AreEquationsOf core function equations
        → EquationsHave core function function.equations }
{}

/// What a typed rule of a box erases to is a typed rule of the box.
pub fn erased_rules_are_typed()
    ensures { (core : Core) (b : BoxC) (rule : TypedRule) → TypedRuleFits core b rule
        → RuleIsTyped core b (erased_rule rule) }
{}

/// What a typed handler of a box erases to is a typed handler of the box.
pub fn erased_handlers_are_typed()
    ensures { (core : Core) (b : BoxC) (handler : TypedHandler) → TypedHandlerFits core b handler
        → HandlerIsTyped core b (erased_handler handler) }
{}
