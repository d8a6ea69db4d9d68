//! Which functions the code of a box needs. A function that were missed would be answered by want of memory.
use hume_base::{Box, List};
use hume_model::{BoxC, Core, EqC, Expr, PatC, Res};
use std::alloc::{AllocError, Global};

/// For each function whether it is needed.
#[derive(Drop)]
pub(crate) struct Needed {
    functions: List<bool>,
}

impl Needed {
    pub(crate) fn has(&self, number: usize) -> bool {
        match self.functions.get(number) {
            None => false,
            Some(needed) => *needed,
        }
    }

    fn add(&mut self, number: u32) {
        if (number as usize) < self.functions.len() {
            self.functions.set(number as usize, true);
        }
    }
}

/// What the rules and handlers of a box call, and what those functions call. A function calls only smaller ones.
pub(crate) fn needed_functions(alloc: Global, core: &Core, b: &BoxC) -> Result<Needed, AllocError> {
    let funs = core.funs.as_slice();
    let mut needed = Needed {
        functions: List::from_vec(Vec::from_elem(alloc, false, funs.len())?),
    };
    for rule in b.rules.as_slice() {
        add_result(&mut needed, &rule.result);
    }
    for handler in b.handlers.as_slice() {
        add_result(&mut needed, &handler.result);
    }
    for i in (0..funs.len()).rev() {
        if needed.has(i) {
            add_equations(&mut needed, funs[i].equations.as_slice());
        }
    }
    Ok(needed)
}

fn add_equations(needed: &mut Needed, equations: &[EqC]) {
    for equation in equations {
        add_expression(needed, &equation.body);
    }
}

#[cycle(add_expression)]
fn add_expression(needed: &mut Needed, e: &Expr) {
    match e {
        Expr::Word(_) => {}
        Expr::Var(_) => {}
        Expr::Con(_, parts) => add_parts(needed, parts),
        Expr::Tuple(parts) => add_parts(needed, parts),
        Expr::Vect(parts) => add_parts(needed, parts),
        Expr::Prim(_, _, parts) => add_parts(needed, parts),
        Expr::Index(_, vector, place) => add_two(needed, vector, place),
        Expr::Update(_, vector, place, item) => add_three(needed, vector, place, item),
        Expr::If(test, when_true, when_false) => add_three(needed, test, when_true, when_false),
        Expr::Case(part, _, arms) => add_case(needed, part, arms),
        Expr::Let(part, body) => add_two(needed, part, body),
        Expr::Call(number, parts) => add_call(needed, *number, parts),
        Expr::Raise(_, part) => add_carried(needed, part),
    }
}

#[cycle(add_expression)]
fn add_two(needed: &mut Needed, first: &Box<Expr>, second: &Box<Expr>) {
    add_expression(needed, first);
    add_expression(needed, second);
}

#[cycle(add_expression)]
fn add_three(needed: &mut Needed, first: &Box<Expr>, second: &Box<Expr>, third: &Box<Expr>) {
    add_expression(needed, first);
    add_two(needed, second, third);
}

#[cycle(add_expression)]
fn add_case(needed: &mut Needed, part: &Box<Expr>, arms: &List<(PatC, Expr)>) {
    add_expression(needed, part);
    for arm in arms.as_slice() {
        add_expression(needed, &arm.1);
    }
}

#[cycle(add_expression)]
fn add_call(needed: &mut Needed, number: u32, parts: &List<Expr>) {
    needed.add(number);
    add_parts(needed, parts);
}

#[cycle(add_expression)]
fn add_parts(needed: &mut Needed, parts: &List<Expr>) {
    for part in parts.as_slice() {
        add_expression(needed, part);
    }
}

#[cycle(add_expression)]
fn add_carried(needed: &mut Needed, part: &Option<Box<Expr>>) {
    if let Some(part) = part {
        add_expression(needed, part);
    }
}

#[cycle(add_result)]
fn add_result(needed: &mut Needed, res: &Res) {
    match res {
        Res::Outs(outs) => add_outs(needed, outs),
        Res::If(test, when_true, when_false) => add_choice(needed, test, when_true, when_false),
        Res::Case(part, _, arms) => add_result_case(needed, part, arms),
        Res::Let(part, body) => add_binding(needed, part, body),
        Res::Raise(_, part) => add_given(needed, part),
    }
}

#[cycle(add_result)]
fn add_choice(needed: &mut Needed, test: &Expr, when_true: &Box<Res>, when_false: &Box<Res>) {
    add_expression(needed, test);
    add_result(needed, when_true);
    add_result(needed, when_false);
}

#[cycle(add_result)]
fn add_result_case(needed: &mut Needed, part: &Expr, arms: &List<(PatC, Res)>) {
    add_expression(needed, part);
    for arm in arms.as_slice() {
        add_result(needed, &arm.1);
    }
}

#[cycle(add_result)]
fn add_binding(needed: &mut Needed, part: &Expr, body: &Box<Res>) {
    add_expression(needed, part);
    add_result(needed, body);
}

fn add_outs(needed: &mut Needed, outs: &List<Option<Expr>>) {
    for out in outs.as_slice() {
        add_given(needed, out);
    }
}

fn add_given(needed: &mut Needed, part: &Option<Expr>) {
    if let Some(part) = part {
        add_expression(needed, part);
    }
}
