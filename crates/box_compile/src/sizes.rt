//! How many words the code of each form takes. The writers compare it with what they have written, so that no proof needs it.
use crate::needed::Needed;
use hume_base::{Box, List};
use hume_model::{BoxC, Core, EqC, Expr, InPat, PatC, Res, RuleC};

/// The words of a pattern's tests and of its variables, where its value is so many fields away from the stack.
#[cycle(pattern_words)]
pub(crate) fn pattern_words(pat: &PatC, fields: u32) -> u32 {
    match pat {
        PatC::Var => fields.saturating_add(1),
        PatC::Any => 0,
        PatC::Word(_) => fields.saturating_add(3),
        PatC::Con(_, parts) => {
            let own = fields.saturating_add(3);
            own.saturating_add(fields_words(parts.as_slice(), fields.saturating_add(1)))
        }
        PatC::Tuple(parts) => fields_words(parts.as_slice(), fields.saturating_add(1)),
    }
}

#[cycle(pattern_words)]
fn fields_words(parts: &[PatC], fields: u32) -> u32 {
    let mut words: u32 = 0;
    for part in parts {
        words = words.saturating_add(pattern_words(part, fields));
    }
    words
}

/// The words of an expression.
#[cycle(expression_words)]
pub(crate) fn expression_words(e: &Expr) -> u32 {
    match e {
        Expr::Word(_) => 2,
        Expr::Var(_) => 1,
        Expr::Con(_, parts) => parts_words(parts),
        Expr::Tuple(parts) => parts_words(parts),
        Expr::Vect(parts) => parts_words(parts),
        Expr::Prim(_, _, parts) => parts_words(parts),
        Expr::Index(_, vector, place) => more(two_words(vector, place), 1),
        Expr::Update(_, vector, place, item) => more(three_words(vector, place, item), 1),
        Expr::If(test, when_true, when_false) => more(three_words(test, when_true, when_false), 2),
        Expr::Case(part, _, arms) => case_words(part, arms),
        Expr::Let(part, body) => more(two_words(part, body), 1),
        Expr::Call(_, parts) => parts_words(parts),
        Expr::Raise(_, part) => raise_words(part),
    }
}

#[cycle(expression_words)]
fn two_words(first: &Box<Expr>, second: &Box<Expr>) -> u32 {
    let words = expression_words(first);
    words.saturating_add(expression_words(second))
}

#[cycle(expression_words)]
fn three_words(first: &Box<Expr>, second: &Box<Expr>, third: &Box<Expr>) -> u32 {
    let words = expression_words(first);
    words.saturating_add(two_words(second, third))
}

#[cycle(expression_words)]
fn case_words(part: &Box<Expr>, arms: &List<(PatC, Expr)>) -> u32 {
    let words = expression_words(part);
    words.saturating_add(arms_words(arms.as_slice()))
}

#[cycle(expression_words)]
fn raise_words(part: &Option<Box<Expr>>) -> u32 {
    match part {
        None => 3,
        Some(part) => more(expression_words(part), 1),
    }
}

// The words of parts, and of the instruction behind them.
#[cycle(expression_words)]
fn parts_words(parts: &List<Expr>) -> u32 {
    let mut words: u32 = 1;
    for part in parts.as_slice() {
        words = words.saturating_add(expression_words(part));
    }
    words
}

/// The words of alternatives, and of what raises behind them.
#[cycle(expression_words)]
pub(crate) fn arms_words(arms: &[(PatC, Expr)]) -> u32 {
    let mut words: u32 = 1;
    for arm in arms {
        words = words.saturating_add(arm_words(pattern_words(&arm.0, 0), expression_words(&arm.1)));
    }
    words
}

/// The words of an alternative: its pattern's, its expression's, and two instructions.
pub(crate) fn arm_words(pattern: u32, expression: u32) -> u32 {
    more(pattern.saturating_add(expression), 2)
}

fn more(words: u32, instructions: u32) -> u32 {
    words.saturating_add(instructions)
}

/// The words of an equation, with its `Return`.
pub(crate) fn equation_words(equation: &EqC) -> u32 {
    let mut words: u32 = 1;
    for pat in equation.pats.as_slice() {
        words = words.saturating_add(pattern_words(pat, 0));
    }
    words.saturating_add(expression_words(&equation.body))
}

/// The words of a result.
#[cycle(result_words)]
pub(crate) fn result_words(res: &Res) -> u32 {
    match res {
        Res::Outs(outs) => outs_words(outs),
        Res::If(test, when_true, when_false) => choice_words(test, when_true, when_false),
        Res::Case(part, _, arms) => result_case_words(part, arms),
        Res::Let(part, body) => binding_words(part, body),
        Res::Raise(_, part) => result_raise_words(part),
    }
}

#[cycle(result_words)]
fn choice_words(test: &Expr, when_true: &Box<Res>, when_false: &Box<Res>) -> u32 {
    let when_true = result_words(when_true);
    let when_false = result_words(when_false);
    more(
        expression_words(test).saturating_add(when_true.saturating_add(when_false)),
        1,
    )
}

#[cycle(result_words)]
fn result_case_words(part: &Expr, arms: &List<(PatC, Res)>) -> u32 {
    expression_words(part).saturating_add(result_arms_words(arms.as_slice()))
}

#[cycle(result_words)]
fn binding_words(part: &Expr, body: &Box<Res>) -> u32 {
    expression_words(part).saturating_add(result_words(body))
}

fn result_raise_words(part: &Option<Expr>) -> u32 {
    match part {
        None => 3,
        Some(part) => more(expression_words(part), 1),
    }
}

// The words of alternatives, and of what raises behind them.
#[cycle(result_words)]
fn result_arms_words(arms: &[(PatC, Res)]) -> u32 {
    let mut words: u32 = 1;
    for arm in arms {
        words = words.saturating_add(pattern_words(&arm.0, 0).saturating_add(result_words(&arm.1)));
    }
    words
}

// The words of the outputs that are there, and of the instruction behind them.
fn outs_words(outs: &List<Option<Expr>>) -> u32 {
    let mut words: u32 = 1;
    for out in outs.as_slice() {
        if let Some(e) = out {
            words = words.saturating_add(expression_words(e));
        }
    }
    words
}

/// The words of functions that are needed, of rules and of handlers.
pub(crate) fn box_words(core: &Core, b: &BoxC, needed: &Needed) -> u32 {
    let mut words: u32 = 0;
    for (i, function) in core.funs.as_slice().iter().enumerate() {
        if needed.has(i) {
            words = words.saturating_add(function_words(function.equations.as_slice()));
        }
    }
    for rule in b.rules.as_slice() {
        words = words.saturating_add(rule_words(rule));
    }
    for handler in b.handlers.as_slice() {
        words = words.saturating_add(more(result_words(&handler.result), 1));
    }
    words
}

fn function_words(equations: &[EqC]) -> u32 {
    let mut words: u32 = 1;
    for equation in equations {
        words = words.saturating_add(equation_words(equation));
    }
    words
}

fn rule_words(rule: &RuleC) -> u32 {
    let mut words = result_words(&rule.result);
    for pat in rule.pats.as_slice() {
        if let InPat::Built(pat) = pat {
            words = words.saturating_add(pattern_words(pat, 0));
        }
    }
    words
}
