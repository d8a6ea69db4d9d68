//! The tasks of an expression by itself.
ghost use Rattle.std.specs.Prelude.{◌≡◌, None, OnOk, IfErr};
ghost use Rattle.check_typing.specs.Partial.{given};
ghost use Rattle.check_typing.specs.inner.Walk.{walk, binary_walk};
ghost use Rattle.check_tasks.specs.States.{State, scope_in, signatures_in};
ghost use Rattle.check_tasks.specs.Tasks.{run, own_of};
ghost use Rattle.check_expressions.specs.inner.Plans.{DoesOwn};
ghost use Rattle.check_expressions.specs.declared.stop.Stop.TheVariants.{NoType, NoMemory};

use crate::elaboration::Elaboration;
use crate::first::first;
use crate::leaves::{letter_own, number_own, truth_own};
use crate::named_tasks::{
    call_own, cast_own, constructor_own, raise_own, raise_with_own, variable_own,
};
use crate::own_forms::{
    and_own, arithmetic_own, case_own, comparison_own, if_own, index_own, let_own, neg_own,
    not_own, or_own, tuple_own, update_own, vector_own,
};
use crate::stop::Stop;
use check_cores::Stack;
use check_tasks::Task;
use hume_ast::{BinOp, Exp};
use hume_model::Op;

/// Puts the tasks of an expression by itself before the others.
#[tactic(auto, using(crate::proofs::Dispatch::own_steps))]
pub(crate) fn own_tasks<'a>(
    at: &mut Elaboration<'a>,
    tasks: &mut Stack<Task<'a>>,
    e: &'a Exp,
) -> Result<(), Stop>
    ensures ok { OnOk result (run tasks.new at.new ≡ given (own_of ((walk (signatures_in at.old) e.now).own (scope_in at.old)) at.old) (run tasks.old)) }
    ensures none { IfErr result (λ stop. stop ≡ NoType → (walk (signatures_in at.old) e.now).own (scope_in at.old) ≡ None) }
{
    match e {
        Exp::Let(name, a, b) => let_own(at, tasks, name, a, b),
        Exp::If(test, a, b) => if_own(tasks, test, a, b),
        Exp::Case(a, arms) => case_own(tasks, a, arms.as_slice()),
        Exp::Raise(name, None) => raise_own(at, name),
        Exp::Raise(name, Some(a)) => raise_with_own(at, tasks, name, a),
        Exp::Binary(sign, a, b) => binary_own(tasks, *sign, a, b),
        Exp::Neg(a) => neg_own(tasks, a),
        Exp::Not(a) => not_own(tasks, a),
        Exp::App(name, parts) => match parts.as_slice() {
            [] => variable_own(at, name),
            [_, ..] => call_own(at, tasks, name, parts.as_slice()),
        },
        Exp::Con(name, parts) => constructor_own(at, tasks, name, parts.as_slice()),
        Exp::Update(a, b, d) => update_own(tasks, a, b, d),
        Exp::Num(negative, amount) => number_own(at, *negative, *amount),
        Exp::Letter(byte) => letter_own(at, *byte),
        Exp::Truth(truth) => truth_own(at, *truth),
        Exp::Paren(a) => paren_own(tasks, a),
        Exp::Tuple(parts) => tuple_own(tasks, parts.as_slice()),
        Exp::Cast(a, ty) => cast_own(at, tasks, a, ty),
        Exp::Vect(parts) => vector_own(tasks, parts.as_slice()),
        Exp::Star => Err(Stop::NoType),
    }
}

#[tactic(auto, using(crate::proofs::Dispatch::binary_steps))]
fn binary_own<'a>(
    tasks: &mut Stack<Task<'a>>,
    sign: BinOp,
    a: &'a Exp,
    b: &'a Exp,
) -> Result<(), Stop>
    ensures ok { OnOk result ((state : State) → DoesOwn ((binary_walk sign (walk (signatures_in state) a.now) (walk (signatures_in state) b.now)).own
        (scope_in state)) state tasks.old tasks.new) }
    ensures none { IfErr result (λ stop. stop ≡ NoMemory) }
{
    match sign {
        BinOp::Or => or_own(tasks, a, b),
        BinOp::And => and_own(tasks, a, b),
        BinOp::At => index_own(tasks, a, b),
        BinOp::Eq => comparison_own(tasks, Op::Eq, a, b),
        BinOp::Ne => comparison_own(tasks, Op::Ne, a, b),
        BinOp::Lt => comparison_own(tasks, Op::Lt, a, b),
        BinOp::Le => comparison_own(tasks, Op::Le, a, b),
        BinOp::Gt => comparison_own(tasks, Op::Gt, a, b),
        BinOp::Ge => comparison_own(tasks, Op::Ge, a, b),
        BinOp::Add => arithmetic_own(tasks, Op::Add, a, b),
        BinOp::Sub => arithmetic_own(tasks, Op::Sub, a, b),
        BinOp::Mul => arithmetic_own(tasks, Op::Mul, a, b),
        BinOp::Div => arithmetic_own(tasks, Op::Div, a, b),
        BinOp::Mod => arithmetic_own(tasks, Op::Mod, a, b),
    }
}

#[tactic(auto, using(crate::proofs::Dispatch::same_steps))]
fn paren_own<'a>(tasks: &mut Stack<Task<'a>>, a: &'a Exp) -> Result<(), Stop>
    ensures ok { OnOk result ((state : State) → DoesOwn ((walk (signatures_in state) a.now).own (scope_in state)) state tasks.old tasks.new) }
    ensures none { IfErr result (λ stop. stop ≡ NoMemory) }
{
    first(tasks, &[Task::Own(a)])
}
