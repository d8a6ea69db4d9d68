//! The costs of expressions, by those of functions.
ghost use Rattle.std.specs.Prelude.{◌≡◌, ◌+◌, ◌*◌, ℕ, map, length};
ghost use Rattle.std.specs.Option.{option_map};
ghost use Rattle.hume_model.specs.declared.core_tree.Expr.{Expr as Expression};
ghost use Rattle.hume_model.specs.declared.core_tree.PatC.{PatC as Pattern};
ghost use Rattle.box_costs.specs.declared.cost.Cost.{Cost as AnyCost};
ghost use Rattle.box_costs.specs.Costs.{in_order, made as made_cost, both as both_costs, one_way as one_way_of};
ghost use Rattle.box_costs.specs.Bounds.{arm_way, raise_bound, bound_with};
ghost use Rattle.space_costs.specs.inner.Standing.{IsCostOf, AreCostsOf, or_absent};

use crate::combine::{
    above, before, both, counted, either, instructions, made, nothing, one_way, pushed, sum,
    with_variables,
};
use crate::patterns::{tests, variables};
use box_costs::Cost;
use hume_base::Box;
use hume_model::{Expr, PatC};

#[cycle(expression)]
pub(crate) fn expression_cost(called: &[Cost], e: &Expr) -> Cost
    ensures { (bounds : ℕ → AnyCost) → AreCostsOf called.now bounds → IsCostOf result (bound_with bounds e.now) }
{
    match e {
        Expr::Word(_) => pushed(),
        Expr::Var(_) => pushed(),
        Expr::Con(_, parts) => object_cost(called, parts.as_slice()),
        Expr::Tuple(parts) => object_cost(called, parts.as_slice()),
        Expr::Vect(parts) => object_cost(called, parts.as_slice()),
        Expr::Prim(_, _, parts) => both(parts_cost(called, parts.as_slice()), pushed()),
        Expr::Index(_, vector, place) => {
            let vector = expression_cost(called, vector);
            let place = expression_cost(called, place);
            both(before(vector, before(place, nothing())), pushed())
        }
        Expr::Update(count, vector, place, item) => {
            let vector = expression_cost(called, vector);
            let place = expression_cost(called, place);
            let item = expression_cost(called, item);
            let parts = before(vector, before(place, before(item, nothing())));
            both(parts, made(counted(*count as usize)))
        }
        Expr::If(test, when_true, when_false) => {
            let test = expression_cost(called, test);
            let when_true = both(expression_cost(called, when_true), instructions(1));
            let when_false = expression_cost(called, when_false);
            both(test, both(instructions(1), either(when_true, when_false)))
        }
        Expr::Case(part, _, arms) => {
            let part = expression_cost(called, part);
            before(part, arms_cost(called, arms.as_slice()))
        }
        Expr::Let(part, body) => {
            let part = expression_cost(called, part);
            before(part, both(expression_cost(called, body), instructions(1)))
        }
        Expr::Call(function, parts) => {
            let parts = parts.as_slice();
            let words = sum(counted(parts.len()), 2);
            let call = above(words, both(instructions(1), called_cost(called, *function)));
            both(parts_cost(called, parts), call)
        }
        Expr::Raise(_, part) => raise_cost(called, part),
    }
}

/// The instruction that raises, after what is carried or a word for nothing.
#[cycle(expression)]
fn raise_cost(called: &[Cost], part: &Option<Box<Expr>>) -> Cost
    ensures { (bounds : ℕ → AnyCost) → AreCostsOf called.now bounds → IsCostOf result (raise_bound (option_map (bound_with bounds) part.now)) }
{
    match part {
        None => both(pushed(), instructions(1)),
        Some(part) => both(expression_cost(called, part), instructions(1)),
    }
}

/// An object of the parts.
#[cycle(expression)]
fn object_cost(called: &[Cost], parts: &[Expr]) -> Cost
    ensures { (bounds : ℕ → AnyCost) → AreCostsOf called.now bounds
        → IsCostOf result (both_costs (in_order (map (bound_with bounds) parts.now)) (made_cost (length (map (bound_with bounds) parts.now)))) }
{
    both(parts_cost(called, parts), made(counted(parts.len())))
}

#[cycle(expression)]
fn parts_cost(called: &[Cost], parts: &[Expr]) -> Cost
    ensures { (bounds : ℕ → AnyCost) → AreCostsOf called.now bounds → IsCostOf result (in_order (map (bound_with bounds) parts.now)) }
{
    let mut cost = nothing();
    for i in (0..parts.len()).rev() {
        cost = before(expression_cost(called, &parts[i]), cost);
    }
    cost
}

#[cycle(expression)]
fn arms_cost(called: &[Cost], arms: &[(PatC, Expr)]) -> Cost
    ensures { (bounds : ℕ → AnyCost) → AreCostsOf called.now bounds
        → IsCostOf result (one_way_of (map (λ (arm : Pattern × Expression). arm_way 2 (arm.0, bound_with bounds arm.1)) arms.now)) }
{
    let mut all_tests = 0;
    let mut taken = nothing();
    for i in (0..arms.len()).rev() {
        let arm = &arms[i];
        all_tests = sum(tests(&arm.0), all_tests);
        let branch = expression_cost(called, &arm.1);
        taken = either(with_variables(variables(&arm.0), 2, branch), taken);
    }
    one_way(all_tests, taken)
}

/// The cost of a function; one that isn't there raises at once.
pub(crate) fn called_cost(called: &[Cost], function: u32) -> Cost
    ensures { result ≡ or_absent (Rattle.std.specs.Prelude.slice_get called.now function) }
{
    match called.get(function as usize) {
        None => Cost {
            heap: 0,
            stack: 0,
            work: 1,
        },
        Some(cost) => *cost,
    }
}
