//! The tasks of expressions at which a result ends.
ghost use Rattle.std.specs.Prelude.{◌≡◌, None, length, OnOk, IfErr};
ghost use Rattle.check_typing.specs.inner.Walk.{walk};
ghost use Rattle.check_typing.specs.inner.ResultWalk.{result_walk, tuple_result_walk};
ghost use Rattle.check_tasks.specs.States.{signatures_in};
ghost use Rattle.check_expressions.specs.declared.stop.Stop.TheVariants.{NoType, NoMemory};
ghost use Rattle.check_tasks.specs.results.ResultTasks.{last_outputs, result_walks};
ghost use Rattle.check_declarations.specs.results.inner.ResultPlans.{IsLeaf, EndsHere, DoesResult, HasNoResult};

use crate::results::elaboration::ResultElaboration;
use crate::results::first::first;
use check_cores::Stack;
use check_expressions::Stop;
use check_tasks::results::{ResultMake, ResultTask};
use check_tasks::{Task, TypeTask};
use hume_ast::Exp;

/// An expression without parts that are outputs: it is one output.
#[tactic(auto, using(crate::proofs::results_lemmas::Outputs::single_steps))]
pub(crate) fn single_result<'a>(
    at: &ResultElaboration<'a>,
    tasks: &mut Stack<ResultTask<'a>>,
    e: &'a Exp,
) -> Result<(), Stop>
    requires { IsLeaf (result_walk (signatures_in at.now.0) e.now) }
    ensures ok { OnOk result (DoesResult (result_walk (signatures_in at.now.0) e.now) at.now tasks.old tasks.new) }
    ensures none { IfErr result (λ stop. stop ≡ NoType → HasNoResult (result_walk (signatures_in at.now.0) e.now) at.now) }
{
    if at.output_count()? != 1 {
        return Err(Stop::NoType);
    }
    one_output(at, tasks, e)
}

/// A tuple: it is one output, or its parts are the outputs.
#[tactic(auto, using(crate::proofs::results_lemmas::Outputs::tuple_steps))]
pub(crate) fn tuple_result<'a>(
    at: &ResultElaboration<'a>,
    tasks: &mut Stack<ResultTask<'a>>,
    e: &'a Exp,
    parts: &'a [Exp],
) -> Result<(), Stop>
    requires { result_walk (signatures_in at.now.0) e.now ≡ tuple_result_walk (walk (signatures_in at.now.0) e.now)
        (result_walks (signatures_in at.now.0) parts.now) }
    ensures ok { OnOk result (DoesResult (result_walk (signatures_in at.now.0) e.now) at.now tasks.old tasks.new) }
    ensures none { IfErr result (λ stop. stop ≡ NoMemory) }
{
    if at.output_count()? == 1 {
        return one_output(at, tasks, e);
    }
    first(
        tasks,
        &[
            ResultTask::Outputs(parts, 0),
            ResultTask::Make(ResultMake::Outs(parts.len())),
        ],
    )
}

// The only output.
#[tactic(auto, using(crate::proofs::results_lemmas::Outputs::one_steps))]
fn one_output<'a>(
    at: &ResultElaboration<'a>,
    tasks: &mut Stack<ResultTask<'a>>,
    e: &'a Exp,
) -> Result<(), Stop>
    requires one { length (last_outputs at.now) ≡ 1 }
    requires leaf { EndsHere (result_walk (signatures_in at.now.0) e.now) at.now }
    ensures ok { OnOk result (DoesResult (result_walk (signatures_in at.now.0) e.now) at.now tasks.old tasks.new) }
    ensures none { IfErr result (λ stop. stop ≡ NoMemory) }
{
    first(
        tasks,
        &[
            ResultTask::Plain(Task::Types(TypeTask::PushPart(0))),
            ResultTask::Output(e),
            ResultTask::Plain(Task::Types(TypeTask::Pop)),
            ResultTask::Make(ResultMake::Outs(1)),
        ],
    )
}
