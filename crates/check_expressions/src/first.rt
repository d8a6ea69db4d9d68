//! Tasks that go before the others.
ghost use Rattle.std.specs.Prelude.{◌≡◌, OnOk, IfErr};
ghost use Rattle.check_typing.specs.Partial.{given};
ghost use Rattle.check_tasks.specs.States.{State};
ghost use Rattle.check_tasks.specs.Tasks.{run};
ghost use Rattle.check_expressions.specs.declared.stop.Stop.TheVariants.{NoMemory};

use crate::stop::Stop;
use check_cores::Stack;
use check_tasks::Task;

/// The tasks go before the others.
#[tactic(auto, using(crate::proofs::Forms::first_steps))]
pub(crate) fn first<'a>(tasks: &mut Stack<Task<'a>>, more: &[Task<'a>]) -> Result<(), Stop>
    ensures ok { OnOk result ((state : State) → run tasks.new state ≡ given (run more.now state) (run tasks.old)) }
    ensures none { IfErr result (λ stop. stop ≡ NoMemory) }
{
    tasks.push_all(more)?;
    Ok(())
}
