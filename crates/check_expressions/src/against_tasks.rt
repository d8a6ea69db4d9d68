//! The tasks of an expression against the last type.
ghost use Rattle.std.specs.Prelude.{◌≡◌, None, OnOk, IfErr};
ghost use Rattle.check_scopes.specs.types.Contexts.{top};
ghost use Rattle.check_typing.specs.Partial.{given};
ghost use Rattle.check_typing.specs.inner.Walk.{walk, expected, binary_walk, vector_walk};
ghost use Rattle.check_tasks.specs.States.{State, scope_in, types_in, signatures_in};
ghost use Rattle.check_tasks.specs.Tasks.{run, against_of, walks};
ghost use Rattle.check_expressions.specs.inner.Plans.{DoesAgainst};
ghost use Rattle.check_expressions.specs.declared.stop.Stop.TheVariants.{NoType, NoMemory};

use crate::against_forms::{
    arithmetic_against, case_against, if_against, let_against, neg_against, tuple_against,
    update_against,
};
use crate::elaboration::Elaboration;
use crate::first::first;
use crate::leaves::number_against;
use crate::named_tasks::{raise_alone, raise_with};
use crate::stop::Stop;
use check_cores::Stack;
use check_tasks::{CoreTask, Task, TypeTask};
use hume_ast::{BinOp, Exp};
use hume_model::Op;

/// Puts the tasks of an expression against the last type before the others.
#[tactic(auto, using(crate::proofs::Dispatch::against_steps))]
pub(crate) fn against_tasks<'a>(
    at: &mut Elaboration<'a>,
    tasks: &mut Stack<Task<'a>>,
    e: &'a Exp,
) -> Result<(), Stop>
    ensures ok { OnOk result (run tasks.new at.new ≡ given (against_of
        ((walk (signatures_in at.old) e.now).against (scope_in at.old) (top (types_in at.old))) at.old) (run tasks.old)) }
    ensures none { IfErr result (λ stop. stop ≡ NoType → (walk (signatures_in at.old) e.now).against (scope_in at.old) (top (types_in at.old)) ≡ None) }
{
    match e {
        Exp::Let(name, a, b) => let_against(at, tasks, name, a, b),
        Exp::If(test, a, b) => if_against(tasks, test, a, b),
        Exp::Case(a, arms) => case_against(tasks, a, arms.as_slice()),
        Exp::Raise(name, None) => raise_alone(at, name),
        Exp::Raise(name, Some(a)) => raise_with(at, tasks, name, a),
        Exp::Binary(sign, a, b) => binary_against(at, tasks, *sign, e, a, b),
        Exp::Neg(a) => neg_against(tasks, a),
        Exp::Update(a, b, d) => update_against(tasks, a, b, d),
        Exp::Num(negative, amount) => number_against(at, *negative, *amount),
        Exp::Paren(a) => paren_against(tasks, a),
        Exp::Tuple(parts) => tuple_against(tasks, parts.as_slice()),
        Exp::Vect(parts) => vector_against(at, tasks, parts.as_slice()),
        _ => closed(tasks, e),
    }
}

// An expression that must have the last type by itself.
#[tactic(auto, using(crate::proofs::Forms::closed_steps))]
fn closed<'a>(tasks: &mut Stack<Task<'a>>, e: &'a Exp) -> Result<(), Stop>
    ensures ok { OnOk result ((state : State) → DoesAgainst (expected ((walk (signatures_in state) e.now).own (scope_in state))
        (top (types_in state))) state tasks.old tasks.new) }
    ensures none { IfErr result (λ stop. stop ≡ NoMemory) }
{
    first(tasks, &[Task::Own(e), Task::Types(TypeTask::IsSame)])
}

// An operator that gives no number is checked against the last type by itself.
#[tactic(auto, using(crate::proofs::Dispatch::binary_steps))]
fn binary_against<'a>(
    at: &Elaboration<'a>,
    tasks: &mut Stack<Task<'a>>,
    sign: BinOp,
    e: &'a Exp,
    a: &'a Exp,
    b: &'a Exp,
) -> Result<(), Stop>
    ensures ok { walk (signatures_in at.now) e.now ≡ binary_walk sign (walk (signatures_in at.now) a.now) (walk (signatures_in at.now) b.now)
        → OnOk result (DoesAgainst ((walk (signatures_in at.now) e.now).against (scope_in at.now) (top (types_in at.now))) at.now tasks.old tasks.new) }
    ensures none { IfErr result (λ stop. stop ≡ NoMemory) }
{
    match sign {
        BinOp::Add => arithmetic_against(tasks, Op::Add, a, b),
        BinOp::Sub => arithmetic_against(tasks, Op::Sub, a, b),
        BinOp::Mul => arithmetic_against(tasks, Op::Mul, a, b),
        BinOp::Div => arithmetic_against(tasks, Op::Div, a, b),
        BinOp::Mod => arithmetic_against(tasks, Op::Mod, a, b),
        _ => closed(tasks, e),
    }
}

#[tactic(auto, using(crate::proofs::Dispatch::same_steps))]
fn paren_against<'a>(tasks: &mut Stack<Task<'a>>, a: &'a Exp) -> Result<(), Stop>
    ensures ok { OnOk result ((state : State) → DoesAgainst ((walk (signatures_in state) a.now).against (scope_in state) (top (types_in state))) state
        tasks.old tasks.new) }
    ensures none { IfErr result (λ stop. stop ≡ NoMemory) }
{
    first(tasks, &[Task::Against(a)])
}

#[tactic(auto, using(crate::proofs::Dispatch::vector_steps))]
fn vector_against<'a>(
    at: &Elaboration<'a>,
    tasks: &mut Stack<Task<'a>>,
    parts: &'a [Exp],
) -> Result<(), Stop>
    ensures ok { OnOk result (DoesAgainst ((vector_walk (walks (signatures_in at.now) parts.now)).against (scope_in at.now)
        (top (types_in at.now))) at.now tasks.old tasks.new) }
    ensures none { IfErr result (λ stop. stop ≡ NoType → (vector_walk (walks (signatures_in at.now) parts.now)).against (scope_in at.now)
        (top (types_in at.now)) ≡ None) }
{
    let count = at.expect_vector()?;
    if parts.len() != count as usize {
        return Err(Stop::NoType);
    }
    first(
        tasks,
        &[
            Task::Types(TypeTask::PushItem),
            Task::Each(parts),
            Task::Types(TypeTask::Pop),
            Task::Cores(CoreTask::Vector(parts.len())),
        ],
    )
}
