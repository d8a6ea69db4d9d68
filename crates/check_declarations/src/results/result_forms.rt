//! The tasks of forms through which a result is followed.
ghost use Rattle.std.specs.Prelude.{◌≡◌, OnOk, IfErr};
ghost use Rattle.check_typing.specs.inner.ResultWalk.{result_walk};
ghost use Rattle.check_tasks.specs.States.{signatures_in};
ghost use Rattle.check_expressions.specs.declared.stop.Stop.TheVariants.{NoMemory};
ghost use Rattle.check_declarations.specs.results.inner.ResultPlans.{DoesResult, let_found, if_found, case_found};

use crate::results::elaboration::ResultElaboration;
use crate::results::first::first;
use check_cores::Stack;
use check_expressions::Stop;
use check_tasks::results::{ResultMake, ResultTask};
use check_tasks::{Task, TypeTask};
use hume_ast::{Exp, Pat};
use hume_base::Text;

#[tactic(auto, using(crate::proofs::results_lemmas::ResultForms::let_steps))]
pub(crate) fn let_result<'a>(
    at: &ResultElaboration<'a>,
    tasks: &mut Stack<ResultTask<'a>>,
    name: &'a Text,
    a: &'a Exp,
    b: &'a Exp,
) -> Result<(), Stop>
    ensures ok { OnOk result (DoesResult (let_found (signatures_in at.now.0) name.now a.now b.now) at.now tasks.old tasks.new) }
    ensures none { IfErr result (λ stop. stop ≡ NoMemory) }
{
    let count = at.plain.variables();
    first(
        tasks,
        &[
            ResultTask::Plain(Task::Own(a)),
            ResultTask::Plain(Task::Enter(name.bytes())),
            ResultTask::Result(b),
            ResultTask::Make(ResultMake::Binding),
            ResultTask::Plain(Task::Leave(count)),
        ],
    )
}

#[tactic(auto, using(crate::proofs::results_lemmas::ResultForms::if_steps))]
pub(crate) fn if_result<'a>(
    at: &ResultElaboration<'a>,
    tasks: &mut Stack<ResultTask<'a>>,
    test: &'a Exp,
    a: &'a Exp,
    b: &'a Exp,
) -> Result<(), Stop>
    ensures ok { OnOk result (DoesResult (if_found (signatures_in at.now.0) test.now a.now b.now) at.now tasks.old tasks.new) }
    ensures none { IfErr result (λ stop. stop ≡ NoMemory) }
{
    first(
        tasks,
        &[
            ResultTask::Plain(Task::Types(TypeTask::PushBool)),
            ResultTask::Plain(Task::Against(test)),
            ResultTask::Plain(Task::Types(TypeTask::Pop)),
            ResultTask::Result(a),
            ResultTask::Result(b),
            ResultTask::Make(ResultMake::Branches),
        ],
    )
}

#[tactic(auto, using(crate::proofs::results_lemmas::ResultForms::case_steps))]
pub(crate) fn case_result<'a>(
    at: &ResultElaboration<'a>,
    tasks: &mut Stack<ResultTask<'a>>,
    a: &'a Exp,
    arms: &'a [(Pat, Exp)],
) -> Result<(), Stop>
    ensures ok { OnOk result (DoesResult (case_found (signatures_in at.now.0) a.now arms.now) at.now tasks.old tasks.new) }
    ensures none { IfErr result (λ stop. stop ≡ NoMemory) }
{
    first(
        tasks,
        &[
            ResultTask::Plain(Task::Own(a)),
            ResultTask::Plain(Task::Types(TypeTask::RepeatBelow)),
            ResultTask::Arms(arms),
            ResultTask::Plain(Task::Types(TypeTask::Pop)),
            ResultTask::Make(ResultMake::Alternatives(arms.len())),
            ResultTask::Plain(Task::Types(TypeTask::Pop)),
        ],
    )
}

#[tactic(auto, using(crate::proofs::results_lemmas::ResultForms::same_steps))]
pub(crate) fn paren_result<'a>(
    at: &ResultElaboration<'a>,
    tasks: &mut Stack<ResultTask<'a>>,
    a: &'a Exp,
) -> Result<(), Stop>
    ensures ok { OnOk result (DoesResult (result_walk (signatures_in at.now.0) a.now) at.now tasks.old tasks.new) }
    ensures none { IfErr result (λ stop. stop ≡ NoMemory) }
{
    first(tasks, &[ResultTask::Result(a)])
}
