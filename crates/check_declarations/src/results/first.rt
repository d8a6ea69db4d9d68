//! Tasks that go before the others.
ghost use Rattle.std.specs.Prelude.{◌≡◌, OnOk, IfErr};
ghost use Rattle.check_typing.specs.Partial.{given};
ghost use Rattle.check_expressions.specs.declared.stop.Stop.TheVariants.{NoMemory};
ghost use Rattle.check_tasks.specs.results.ResultStates.{ResultState};
ghost use Rattle.check_tasks.specs.results.ResultTasks.{result_run};

use check_cores::Stack;
use check_expressions::Stop;
use check_tasks::results::ResultTask;

/// The tasks go before the others.
#[tactic(auto, using(crate::proofs::results_lemmas::Running::first_steps))]
pub(crate) fn first<'a>(
    tasks: &mut Stack<ResultTask<'a>>,
    more: &[ResultTask<'a>],
) -> Result<(), Stop>
    ensures ok { OnOk result ((state : ResultState) → result_run tasks.new state ≡ given (result_run more.now state) (result_run tasks.old)) }
    ensures none { IfErr result (λ stop. stop ≡ NoMemory) }
{
    tasks.push_all(more)?;
    Ok(())
}
