//! The bounds of results, by those of functions.
use crate::bound::{Bound, before, both, either, instructions, one_way, pushed, with_variables};
use crate::expression_bounds::{chosen, expression_bound};
use crate::pattern_counts::{tests, variables};
use crate::slices;
use hume_base::{Box, List};
use hume_model::{Expr, PatC, Res};

#[cycle(result)]
pub(crate) fn result_bound(called: &[Bound], res: &Res) -> Bound {
    match res {
        Res::Outs(outs) => both(outs_bound(called, outs), instructions(1)),
        Res::If(test, when_true, when_false) => {
            let test = expression_bound(called, test);
            let when_true = part_bound(called, when_true);
            chosen(test, when_true, part_bound(called, when_false))
        }
        Res::Case(part, _, arms) => {
            let part = expression_bound(called, part);
            before(part, arms_bound(called, arms))
        }
        Res::Let(part, body) => {
            let part = expression_bound(called, part);
            before(part, part_bound(called, body))
        }
        Res::Raise(_, part) => raise_bound(called, part),
    }
}

#[cycle(result)]
fn part_bound(called: &[Bound], part: &Box<Res>) -> Bound {
    result_bound(called, slices::result_part(part))
}

#[cycle(result)]
fn arms_bound(called: &[Bound], arms: &List<(PatC, Res)>) -> Bound {
    let arms = slices::result_arms(arms);
    let mut all_tests: u64 = 0;
    let mut taken = Bound::nothing();
    for i in 0..arms.len() {
        all_tests = all_tests.saturating_add(tests(&arms[i].0));
        let branch = result_bound(called, &arms[i].1);
        taken = either(taken, with_variables(variables(&arms[i].0), 0, branch));
    }
    one_way(all_tests, taken)
}

fn outs_bound(called: &[Bound], outs: &List<Option<Expr>>) -> Bound {
    let outs = slices::outputs(outs);
    let mut bound = Bound::nothing();
    for i in (0..outs.len()).rev() {
        if let Some(e) = &outs[i] {
            bound = before(expression_bound(called, e), bound);
        }
    }
    bound
}

fn raise_bound(called: &[Bound], part: &Option<Expr>) -> Bound {
    match part {
        None => both(pushed(), instructions(1)),
        Some(e) => both(expression_bound(called, e), instructions(1)),
    }
}
