//! The tasks of outputs and of alternatives.
ghost use Rattle.std.specs.Prelude.{◌≡◌, None, OnOk, IfErr};
ghost use Rattle.check_typing.specs.Partial.{given};
ghost use Rattle.check_typing.specs.inner.ResultWalk.{result_walk};
ghost use Rattle.check_tasks.specs.States.{signatures_in};
ghost use Rattle.check_expressions.specs.declared.stop.Stop.TheVariants.{NoType, NoMemory};
ghost use Rattle.check_tasks.specs.declared.results.task.ResultTask.TheVariants.{Outputs as OutputsTask, Arms as ArmsTask};
ghost use Rattle.check_tasks.specs.results.ResultTasks.{result_run, result_step};
ghost use Rattle.check_declarations.specs.results.inner.ResultPlans.{DoesOutput, IsValued};

use crate::results::elaboration::ResultElaboration;
use crate::results::first::first;
use check_cores::Stack;
use check_expressions::Stop;
use check_tasks::results::{ResultMake, ResultTask};
use check_tasks::{Task, TypeTask};
use hume_ast::{Exp, Pat};

/// Puts the tasks of one output of the last type before the others.
#[tactic(auto, using(crate::proofs::results_lemmas::Dispatch::output_steps))]
pub(crate) fn output_tasks<'a>(
    at: &ResultElaboration<'a>,
    tasks: &mut Stack<ResultTask<'a>>,
    e: &'a Exp,
) -> Result<(), Stop>
    ensures ok { OnOk result (DoesOutput (result_walk (signatures_in at.now.0) e.now) at.now tasks.old tasks.new) }
    ensures none { IfErr result (λ stop. stop ≡ NoMemory) }
{
    match e {
        Exp::Star => first(tasks, &[ResultTask::Make(ResultMake::Absent)]),
        Exp::Paren(a) => first(tasks, &[ResultTask::Output(a)]),
        Exp::Let(_, _, _) => value_output(at, tasks, e),
        Exp::If(_, _, _) => value_output(at, tasks, e),
        Exp::Case(_, _) => value_output(at, tasks, e),
        Exp::Raise(_, None) => value_output(at, tasks, e),
        Exp::Raise(_, Some(_)) => value_output(at, tasks, e),
        Exp::Binary(_, _, _) => value_output(at, tasks, e),
        Exp::Neg(_) => value_output(at, tasks, e),
        Exp::Not(_) => value_output(at, tasks, e),
        Exp::App(_, _) => value_output(at, tasks, e),
        Exp::Con(_, _) => value_output(at, tasks, e),
        Exp::Update(_, _, _) => value_output(at, tasks, e),
        Exp::Num(_, _) => value_output(at, tasks, e),
        Exp::Letter(_) => value_output(at, tasks, e),
        Exp::Truth(_) => value_output(at, tasks, e),
        Exp::Tuple(_) => value_output(at, tasks, e),
        Exp::Cast(_, _) => value_output(at, tasks, e),
        Exp::Vect(_) => value_output(at, tasks, e),
    }
}

// An output that is there.
#[tactic(auto, using(crate::proofs::results_lemmas::Outputs::value_steps))]
fn value_output<'a>(
    at: &ResultElaboration<'a>,
    tasks: &mut Stack<ResultTask<'a>>,
    e: &'a Exp,
) -> Result<(), Stop>
    requires { IsValued (signatures_in at.now.0) e.now }
    ensures ok { OnOk result (DoesOutput (result_walk (signatures_in at.now.0) e.now) at.now tasks.old tasks.new) }
    ensures none { IfErr result (λ stop. stop ≡ NoMemory) }
{
    first(
        tasks,
        &[
            ResultTask::Plain(Task::Against(e)),
            ResultTask::Make(ResultMake::Value),
        ],
    )
}

/// Outputs of the types of the last type, a tuple, from a part on. There must be as many.
#[tactic(auto, using(crate::proofs::results_lemmas::Outputs::list_steps))]
pub(crate) fn outputs_tasks<'a>(
    at: &ResultElaboration<'a>,
    tasks: &mut Stack<ResultTask<'a>>,
    parts: &'a [Exp],
    place: usize,
) -> Result<(), Stop>
    ensures ok { OnOk result (result_run tasks.new at.now ≡ given (result_step (OutputsTask parts.entry place) at.now) (result_run tasks.old)) }
    ensures none { IfErr result (λ stop. stop ≡ NoType → result_step (OutputsTask parts.entry place) at.now ≡ None) }
{
    let count = at.output_count()?;
    match parts.split_first() {
        None => {
            if place < count {
                return Err(Stop::NoType);
            }
            Ok(())
        }
        Some((part, rest)) => {
            if place >= count {
                return Err(Stop::NoType);
            }
            first(
                tasks,
                &[
                    ResultTask::Plain(Task::Types(TypeTask::PushPart(place))),
                    ResultTask::Output(part),
                    ResultTask::Plain(Task::Types(TypeTask::Pop)),
                    ResultTask::Outputs(rest, place + 1),
                ],
            )
        }
    }
}

/// Alternatives, whose bodies are results.
#[tactic(auto, using(crate::proofs::results_lemmas::Outputs::arms_steps))]
pub(crate) fn arms_tasks<'a>(
    at: &ResultElaboration<'a>,
    tasks: &mut Stack<ResultTask<'a>>,
    arms: &'a [(Pat, Exp)],
) -> Result<(), Stop>
    ensures ok { OnOk result (result_run tasks.new at.now ≡ given (result_step (ArmsTask arms.entry) at.now) (result_run tasks.old)) }
    ensures none { IfErr result (λ stop. stop ≡ NoMemory) }
{
    let count = at.plain.variables();
    match arms.split_first() {
        None => Ok(()),
        Some(((pattern, body), rest)) => first(
            tasks,
            &[
                ResultTask::Plain(Task::Types(TypeTask::RepeatBelow)),
                ResultTask::Plain(Task::Match(pattern)),
                ResultTask::Plain(Task::Types(TypeTask::Pop)),
                ResultTask::Result(body),
                ResultTask::Plain(Task::Leave(count)),
                ResultTask::Make(ResultMake::Arm),
                ResultTask::Arms(rest),
            ],
        ),
    }
}
