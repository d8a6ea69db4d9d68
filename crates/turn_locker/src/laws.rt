//! Laws of the rule, as contracts of functions that do nothing.
ghost use Rattle.std.specs.Prelude.{◌≡◌, ◌<◌, ◌≤◌, ◌+◌, ◌*◌, ◌==◌, ℕ, false, [], ◌∷◌, None, Option, Some};
ghost use mathlib.Core.Option.{none, some};
ghost use prog.Atomic.{either};
ghost use Rattle.atomic_table.specs.Table.{Allows, Joins, Me, Splits, State, step};
ghost use Rattle.hume_net.specs.declared.plan.Plan.{Plan};
ghost use Rattle.hume_net.specs.Plan.{IsPlan};
ghost use Rattle.hume_net.specs.Times.{AreBalanced, IsOfSide};
ghost use Rattle.superstep_core.specs.Schedules.{AreScheduled, IsEnabled};
ghost use Rattle.turn_locker.specs.declared.view.View.{View};
ghost use Rattle.turn_locker.specs.Asking.{MayPass, MayPutBack};
ghost use Rattle.turn_locker.specs.Counts.{count_in};
ghost use Rattle.turn_locker.specs.Held.{held_at, items_of};
ghost use Rattle.turn_locker.specs.Plays.{claimed, looked, passed_on, released};
ghost use Rattle.turn_locker.specs.Rule.{AreTied, KeepsTurns, held_word, home_word};
ghost use Rattle.turn_locker.specs.Seats.{outs_of};
ghost use Rattle.turn_locker.specs.Views.{HoldsNothing, both_shares, kept_share, new_share, spent};

use crate::timed::Timed;

/// Each kind of step keeps the rule, whatever the table is at that moment: the seat has a new view that does, and learns which. The kinds
/// are a load, a claim, a put back, a pass of a wire or node, a split and a join.
pub fn steps_keep_the_rule<T: Timed>()
    ensures load { (plan : Plan) (slots id item : ℕ) (me : Me (Option T) View) → 0 < me.0.share
        → ((out : ℕ) → me.0.out ≡ Some out → (time : ℕ) × (held_at out me.0.held ≡ some time)) → me.1 ≡ outs_of me.0.out
        → Allows (KeepsTurns T.number_of T.time_of T.right plan) slots id me item (λ word. word) (looked (step slots item 0 0 none) me) }
    ensures claim { (plan : Plan) (slots id item time : ℕ) (me : Me (Option T) View) → item < items_of plan → 0 < me.0.share → me.1 ≡ [] → me.0.out ≡ None
        → Allows (KeepsTurns T.number_of T.time_of T.right plan) slots id me item (λ word. either (word == home_word time) (held_word time) word)
        (claimed T.number_of T.time_of T.right (step slots item (home_word time) (held_word time) none) me) }
    ensures put_back { (plan : Plan) (slots id item : ℕ) (value : T) (me : Me (Option T) View) → 0 < me.0.share → me.1 ≡ (item, Some value) ∷ []
        → me.0.out ≡ Some item
        → T.number_of value ≡ item → T.right value → MayPutBack plan item (T.time_of value) me.0
        → Allows (KeepsTurns T.number_of T.time_of T.right plan) slots id me item (λ _. home_word (T.time_of value))
        (λ _. released (step slots item (home_word (T.time_of value)) 0 none) me (home_word (T.time_of value))) }
    ensures pass { (plan : Plan) (slots id item time : ℕ) (value : T) (me : Me (Option T) View) → me.0.plan ≡ plan → 0 < me.0.share
        → me.1 ≡ (item, Some value) ∷ [] → me.0.out ≡ Some item
        → T.number_of value ≡ item → T.time_of value ≡ time + 1 → T.right value → MayPass plan item time me.0
        → Allows (KeepsTurns T.number_of T.time_of T.right plan) slots id me item (λ _. home_word (T.time_of value))
        (λ _. passed_on (step slots item (home_word (T.time_of value)) 0 none) me (home_word (T.time_of value))) }
    ensures split { (plan : Plan) (id : ℕ) (v : View) → 2 ≤ v.share
        → Splits (KeepsTurns T.number_of T.time_of T.right plan) id v (kept_share v) (new_share v) }
    ensures join { (plan : Plan) (id other : ℕ) (v w : View) → 0 < v.share → HoldsNothing w
        → Joins (KeepsTurns T.number_of T.time_of T.right plan) id v other w (both_shares v w) spent }
{}

/// Between any two steps the nodes' half steps are those of a schedule, where one that has passed a wire counts as made.
pub fn counts_are_times_of_a_schedule<T: Timed>()
    ensures balanced { (plan : Plan) (s : State (Option T) View) → KeepsTurns T.number_of T.time_of T.right plan s → AreBalanced plan (count_in s) }
    ensures scheduled { (plan : Plan) (s : State (Option T) View) → KeepsTurns T.number_of T.time_of T.right plan s
        → (steps : ℕ) → ((n : ℕ) → n < plan.nodes → count_in s n ≤ 2 * steps) → AreScheduled plan steps (count_in s) }
{}

/// Where nothing is passed, a node of the least time may make its next half step, and each wire of its side has its time.
pub fn nodes_of_the_least_time_are_enabled()
    ensures enabled { (plan : Plan) (clock : ℕ → ℕ) (steps n : ℕ) → IsPlan plan → AreTied plan clock (λ n w. false) → n < plan.nodes → clock n < 2 * steps
        → ((m : ℕ) → m < plan.nodes → clock n ≤ clock m) → IsEnabled plan steps clock n }
    ensures wires { (plan : Plan) (clock : ℕ → ℕ) (n w : ℕ) → IsPlan plan → AreTied plan clock (λ n w. false) → n < plan.nodes
        → ((m : ℕ) → m < plan.nodes → clock n ≤ clock m) → IsOfSide plan (clock n) n w → clock (plan.nodes + w) ≡ clock n }
{}
