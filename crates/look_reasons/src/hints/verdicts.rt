//! What the comparisons of an expression or a result give by the types of their operands alone.
use crate::ranges::spare_bits;
use crate::slices;
use hume_base::{Box, List, Ty, int_of_word};
use hume_model::{Expr, Op, PatC, Res};
use std::alloc::{AllocError, Global};

/// For each comparison, in the order in which the source ends them, what it gives for each value of the type, if that is one answer.
#[derive(Drop)]
pub(super) struct Verdicts {
    answers: Vec<Option<bool>>,
    failed: bool,
}

impl Verdicts {
    pub(super) fn make(alloc: Global) -> Verdicts {
        Verdicts {
            answers: Vec::new(alloc),
            failed: false,
        }
    }

    pub(super) fn finish(self) -> Result<Vec<Option<bool>>, AllocError> {
        let Verdicts { answers, failed } = self;
        if failed { Err(AllocError) } else { Ok(answers) }
    }

    fn note(&mut self, op: Op, ty: &Ty, operands: &[Expr]) {
        if is_comparison(op) && self.answers.push(answer(op, ty, operands)).is_err() {
            self.failed = true;
        }
    }
}

fn is_comparison(op: Op) -> bool {
    matches!(op, Op::Eq | Op::Ne | Op::Lt | Op::Le | Op::Gt | Op::Ge)
}

/// Gathers the comparisons of a result.
#[cycle(gather_of_result)]
pub(super) fn gather_of_result(verdicts: &mut Verdicts, res: &Res) {
    match res {
        Res::Outs(outs) => gather_outputs(verdicts, slices::outputs(outs)),
        Res::If(test, when_true, when_false) => {
            gather(verdicts, test);
            gather_of_result(verdicts, slices::result_part(when_true));
            gather_of_result(verdicts, slices::result_part(when_false));
        }
        Res::Case(subject, _, arms) => {
            gather(verdicts, subject);
            gather_results(verdicts, arms);
        }
        Res::Let(value, body) => {
            gather(verdicts, value);
            gather_of_result(verdicts, slices::result_part(body));
        }
        Res::Raise(_, value) => gather_one(verdicts, value),
    }
}

#[cycle(gather_of_result)]
fn gather_results(verdicts: &mut Verdicts, arms: &List<(PatC, Res)>) {
    let arms = slices::result_arms(arms);
    for i in 0..arms.len() {
        gather_of_result(verdicts, &arms[i].1);
    }
}

fn gather_outputs(verdicts: &mut Verdicts, outs: &[Option<Expr>]) {
    for i in 0..outs.len() {
        gather_one(verdicts, &outs[i]);
    }
}

fn gather_one(verdicts: &mut Verdicts, value: &Option<Expr>) {
    if let Some(value) = value {
        gather(verdicts, value);
    }
}

/// Gathers the comparisons of an expression.
#[cycle(gather)]
pub(super) fn gather(verdicts: &mut Verdicts, exp: &Expr) {
    match exp {
        Expr::Word(_) | Expr::Var(_) => {}
        Expr::Con(_, parts) | Expr::Tuple(parts) | Expr::Vect(parts) | Expr::Call(_, parts) => {
            gather_all(verdicts, parts);
        }
        Expr::Prim(op, ty, parts) => {
            gather_all(verdicts, parts);
            verdicts.note(*op, ty, slices::parts(parts));
        }
        Expr::Index(_, first, second) | Expr::Let(first, second) => {
            gather(verdicts, slices::part(first));
            gather(verdicts, slices::part(second));
        }
        Expr::Update(_, first, second, third) | Expr::If(first, second, third) => {
            gather_three(verdicts, first, second, third);
        }
        Expr::Case(subject, _, arms) => {
            gather(verdicts, slices::part(subject));
            gather_arms(verdicts, arms);
        }
        Expr::Raise(_, None) => {}
        Expr::Raise(_, Some(value)) => gather(verdicts, slices::part(value)),
    }
}

#[cycle(gather)]
fn gather_three(verdicts: &mut Verdicts, first: &Box<Expr>, second: &Box<Expr>, third: &Box<Expr>) {
    gather(verdicts, slices::part(first));
    gather(verdicts, slices::part(second));
    gather(verdicts, slices::part(third));
}

#[cycle(gather)]
fn gather_all(verdicts: &mut Verdicts, parts: &List<Expr>) {
    let parts = slices::parts(parts);
    for i in 0..parts.len() {
        gather(verdicts, &parts[i]);
    }
}

#[cycle(gather)]
fn gather_arms(verdicts: &mut Verdicts, arms: &List<(PatC, Expr)>) {
    let arms = slices::arms(arms);
    for i in 0..arms.len() {
        gather(verdicts, &arms[i].1);
    }
}

// What a comparison with a literal that is the least or the greatest number of its type gives.
fn answer(op: Op, ty: &Ty, operands: &[Expr]) -> Option<bool> {
    match operands {
        [Expr::Word(_), Expr::Word(_)] => None,
        [Expr::Word(word), _] => answer_of(turned(op), ty, *word),
        [_, Expr::Word(word)] => answer_of(op, ty, *word),
        _ => None,
    }
}

// The operator that says the same of exchanged operands.
fn turned(op: Op) -> Op {
    match op {
        Op::Lt => Op::Gt,
        Op::Le => Op::Ge,
        Op::Gt => Op::Lt,
        Op::Ge => Op::Le,
        _ => op,
    }
}

fn answer_of(op: Op, ty: &Ty, word: u64) -> Option<bool> {
    match op {
        Op::Lt if is_least(ty, word) => Some(false),
        Op::Ge if is_least(ty, word) => Some(true),
        Op::Gt if is_greatest(ty, word) => Some(false),
        Op::Le if is_greatest(ty, word) => Some(true),
        _ => None,
    }
}

fn is_least(ty: &Ty, word: u64) -> bool {
    match ty {
        Ty::Nat(_) => word == 0,
        Ty::Int(width) => int_of_word(word) == i64::MIN >> spare_bits(u32::from(*width)),
        _ => false,
    }
}

fn is_greatest(ty: &Ty, word: u64) -> bool {
    match ty {
        Ty::Nat(width) => word == u64::MAX >> spare_bits(u32::from(*width)),
        Ty::Int(width) => int_of_word(word) == i64::MAX >> spare_bits(u32::from(*width)),
        _ => false,
    }
}
