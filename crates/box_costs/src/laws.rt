//! Laws of the definitions, as contracts of functions that do nothing.
ghost use Rattle.std.specs.Prelude.{◌≡◌, ◌≤◌, ℕ, true, List, Option, None, Some, slice_get};
ghost use Rattle.std.specs.Option.{option_map};
ghost use Rattle.hume_base.specs.declared.types.Ty.{Ty};
ghost use Rattle.hume_base.specs.declared.types.Types.{Types};
ghost use Rattle.hume_base.specs.declared.types.Value.{Value};
ghost use Rattle.hume_base.specs.Least.{IsLeast};
ghost use Rattle.hume_base.specs.Values.{is_value};
ghost use Rattle.hume_base.specs.declared.limits.TheConstants.{MAX_HEAP_WORDS, MAX_STACK_WORDS, MAX_WORK};
ghost use Rattle.hume_model.specs.declared.core_tree.BoxC.{BoxC};
ghost use Rattle.hume_model.specs.declared.core_tree.Core.{Core};
ghost use Rattle.hume_model.specs.declared.core_tree.Expr.{Expr};
ghost use Rattle.hume_model.specs.declared.core_tree.NodeC.TheVariants.{Rules};
ghost use Rattle.hume_model.specs.declared.core_tree.Res.{Res};
ghost use Rattle.hume_model.specs.declared.core_tree.RuleC.{RuleC};
ghost use Rattle.hume_model.specs.declared.outcome.Firing.{Firing};
ghost use Rattle.hume_model.specs.declared.outcome.Outcome.TheVariants.{Gives};
ghost use Rattle.hume_model.specs.declared.outcome.Outputs.TheVariants.{Asserts};
ghost use Rattle.hume_model.specs.BoxTyping.{BoxIsTyped, port_types};
ghost use Rattle.hume_model.specs.Firing.{fire};
ghost use Rattle.hume_model.specs.Matching.{fits};
ghost use Rattle.hume_model.specs.Meaning.{eval};
ghost use Rattle.hume_model.specs.Results.{result_of};
ghost use Rattle.hume_model.specs.ResultTyping.{are_outputs};
ghost use Rattle.hume_model.specs.WellFormed.{HasSoundParts};
ghost use Rattle.box_costs.specs.CostRules.{BreaksCosts};
ghost use Rattle.box_costs.specs.Costs.{IsAtMost};
ghost use Rattle.box_costs.specs.Building.{built_of, build_of};
ghost use Rattle.box_costs.specs.Bounds.{expression_bound, result_bound, rule_bound, box_bound};
ghost use Rattle.box_costs.specs.Spending.{Spent, spent};
ghost use Rattle.box_costs.specs.ResultSpending.{result_spent, rule_spent, fire_spent, box_spent};
ghost use Rattle.box_costs.specs.Straight.{is_straight, is_straight_result, has_one_form, HasOneWay};

/// An expression takes a word of stack at least. So the words below the last part of several are never all that they take.
pub fn every_expression_takes_a_word()
    ensures { (core : Core) (e : Expr) → 1 ≤ (expression_bound core e).stack }
{}

/// What spends is the evaluation: it comes to what an expression and a result mean, and to what a box gives when it fires.
pub fn what_spends_is_the_meaning()
    ensures expressions { (core : Core) (env : List Value) (e : Expr) → (spent core env e).outcome ≡ eval core env e }
    ensures results { (core : Core) (env : List Value) (res : Res) → (result_spent core env res).outcome ≡ result_of core env res }
    ensures firings { (core : Core) (b : BoxC) (order : List ℕ) (ins : List (Option Value))
        → option_map (λ (s : Spent (List (Option Value))). s.outcome) (fire_spent core b order ins)
        ≡ option_map (λ (x : Firing). x.outs) (fire core b order ins) }
{}

/// No evaluation takes more than its bound, whatever the values of its variables. Neither does a rule that fits, or a box that
/// fires, if the values at its inputs are of their types.
pub fn bounds_are_kept()
    ensures expressions { (core : Core) (env : List Value) (e : Expr) → IsAtMost (spent core env e).cost (expression_bound core e) }
    ensures results { (core : Core) (env : List Value) (res : Res) → IsAtMost (result_spent core env res).cost (result_bound core res) }
    ensures inputs { (types : Types) (ty : Ty) (v : Value) → is_value types ty v ≡ true → built_of v ≤ build_of types ty }
    ensures rules { (core : Core) → HasSoundParts core → (b : BoxC) → BoxIsTyped core b → (number : ℕ) (rule : RuleC) → slice_get b.rules number ≡ Some rule
        → (ins : List (Option Value)) → are_outputs core.types (port_types b.ins) ins ≡ true → fits rule.pats ins ≡ true
        → IsAtMost (rule_spent core b ins rule).cost (rule_bound core b rule) }
    ensures boxes { (core : Core) → HasSoundParts core → (b : BoxC) → BoxIsTyped core b
        → (ins : List (Option Value)) → are_outputs core.types (port_types b.ins) ins ≡ true
        → (order : List ℕ) → IsAtMost (box_spent core b order ins) (box_bound core b) }
{}

/// Where nothing is chosen and nothing is raised, an evaluation takes just its bound: each of heap, stack and work.
pub fn bounds_are_met()
    ensures expressions { (core : Core) (e : Expr) → is_straight core e ≡ true → (env : List Value) (v : Value) → (spent core env e).outcome ≡ Gives v
        → (spent core env e).cost ≡ expression_bound core e }
    ensures results { (core : Core) (res : Res) → is_straight_result core res ≡ true → (env : List Value) (outs : List (Option Value))
        → (result_spent core env res).outcome ≡ Asserts outs → (result_spent core env res).cost ≡ result_bound core res }
    ensures inputs { (types : Types) (ty : Ty) (v : Value) → is_value types ty v ≡ true → has_one_form types ty ≡ true → built_of v ≡ build_of types ty }
    ensures rules { (core : Core) → HasSoundParts core → (b : BoxC) → BoxIsTyped core b → (number : ℕ) (rule : RuleC) → slice_get b.rules number ≡ Some rule
        → HasOneWay core b rule
        → (ins : List (Option Value)) → are_outputs core.types (port_types b.ins) ins ≡ true → fits rule.pats ins ≡ true
        → (rule_spent core b ins rule).cost ≡ rule_bound core b rule }
{}

/// A core that breaks no rule on costs has only boxes whose heap, stack and work are within the limits.
pub fn boxes_keep_the_limits()
    ensures heap { (core : Core) → IsLeast (BreaksCosts core) None → (n : ℕ) (b : BoxC) → slice_get core.nodes n ≡ Some (Rules b)
        → (box_bound core b).heap ≤ MAX_HEAP_WORDS }
    ensures stack { (core : Core) → IsLeast (BreaksCosts core) None → (n : ℕ) (b : BoxC) → slice_get core.nodes n ≡ Some (Rules b)
        → (box_bound core b).stack ≤ MAX_STACK_WORDS }
    ensures work { (core : Core) → IsLeast (BreaksCosts core) None → (n : ℕ) (b : BoxC) → slice_get core.nodes n ≡ Some (Rules b)
        → (box_bound core b).work ≤ MAX_WORK }
{}
