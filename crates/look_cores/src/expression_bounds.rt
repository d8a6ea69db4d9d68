//! The bounds of expressions, by those of functions.
use crate::bound::{
    Bound, above, before, both, either, instructions, made, one_way, pushed, with_variables,
};
use crate::pattern_counts::{tests, variables};
use crate::slices;
use hume_base::{Box, List};
use hume_model::{Expr, PatC};

#[cycle(expression)]
pub(crate) fn expression_bound(called: &[Bound], e: &Expr) -> Bound {
    match e {
        Expr::Word(_) | Expr::Var(_) => pushed(),
        Expr::Con(_, parts) | Expr::Tuple(parts) | Expr::Vect(parts) => {
            object_bound(called, parts)
        }
        Expr::Prim(_, _, parts) => both(parts_bound(called, parts), pushed()),
        Expr::Index(_, vector, place) => {
            let vector = expression_bound(called, slices::part(vector));
            indexed(vector, expression_bound(called, slices::part(place)))
        }
        Expr::Update(count, vector, place, item) => {
            let vector = expression_bound(called, slices::part(vector));
            let place = expression_bound(called, slices::part(place));
            let item = expression_bound(called, slices::part(item));
            updated(*count, vector, place, item)
        }
        Expr::If(test, when_true, when_false) => {
            let test = expression_bound(called, slices::part(test));
            let when_true = expression_bound(called, slices::part(when_true));
            let when_false = expression_bound(called, slices::part(when_false));
            chosen(test, both(when_true, instructions(1)), when_false)
        }
        Expr::Case(part, _, arms) => {
            let part = expression_bound(called, slices::part(part));
            before(part, arms_bound(called, arms))
        }
        Expr::Let(part, body) => {
            let part = expression_bound(called, slices::part(part));
            let body = expression_bound(called, slices::part(body));
            before(part, both(body, instructions(1)))
        }
        Expr::Call(function, parts) => call_with_arguments(called, *function, parts),
        Expr::Raise(_, part) => raise_bound(called, part),
    }
}

fn indexed(vector: Bound, place: Bound) -> Bound {
    both(before(vector, before(place, Bound::nothing())), pushed())
}

fn updated(count: u32, vector: Bound, place: Bound, item: Bound) -> Bound {
    let parts = before(vector, before(place, before(item, Bound::nothing())));
    both(parts, made(u64::from(count)))
}

/// The test of an `if`, and one of two ways.
pub(crate) fn chosen(test: Bound, when_true: Bound, when_false: Bound) -> Bound {
    both(test, both(instructions(1), either(when_true, when_false)))
}

#[cycle(expression)]
fn call_with_arguments(called: &[Bound], function: u32, parts: &List<Expr>) -> Bound {
    let arguments = parts_bound(called, parts);
    both(
        arguments,
        call_bound(called, function, slices::parts(parts).len()),
    )
}

/// The bound of a call alone, above its arguments.
pub(crate) fn call_bound(called: &[Bound], function: u32, arguments: usize) -> Bound {
    let words = (arguments as u64).saturating_add(2);
    above(words, both(instructions(1), called_bound(called, function)))
}

#[cycle(expression)]
fn raise_bound(called: &[Bound], part: &Option<Box<Expr>>) -> Bound {
    match part {
        None => both(pushed(), instructions(1)),
        Some(part) => both(
            expression_bound(called, slices::part(part)),
            instructions(1),
        ),
    }
}

#[cycle(expression)]
fn object_bound(called: &[Bound], parts: &List<Expr>) -> Bound {
    let words = slices::parts(parts).len() as u64;
    both(parts_bound(called, parts), made(words))
}

#[cycle(expression)]
fn parts_bound(called: &[Bound], parts: &List<Expr>) -> Bound {
    let parts = slices::parts(parts);
    let mut bound = Bound::nothing();
    for i in (0..parts.len()).rev() {
        bound = before(expression_bound(called, &parts[i]), bound);
    }
    bound
}

#[cycle(expression)]
fn arms_bound(called: &[Bound], arms: &List<(PatC, Expr)>) -> Bound {
    let arms = slices::arms(arms);
    let mut all_tests: u64 = 0;
    let mut taken = Bound::nothing();
    for i in 0..arms.len() {
        all_tests = all_tests.saturating_add(tests(&arms[i].0));
        let branch = expression_bound(called, &arms[i].1);
        taken = either(taken, with_variables(variables(&arms[i].0), 2, branch));
    }
    one_way(all_tests, taken)
}

/// The bound of a function; one that isn't there raises at once.
pub(crate) fn called_bound(called: &[Bound], function: u32) -> Bound {
    match called.get(function as usize) {
        None => instructions(1),
        Some(bound) => *bound,
    }
}
