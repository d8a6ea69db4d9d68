//! Variables that come into scope and go out of it, and tasks that can't fail but for memory.
ghost use Rattle.std.specs.Prelude.{◌≡◌, Some, OnOk, IfErr};
ghost use Rattle.check_tasks.specs.Tasks.{step};
ghost use Rattle.check_tasks.specs.declared.task.Task.TheVariants.{Enter as EnterTask, Leave as LeaveTask, Cores as CoresTask};
ghost use Rattle.check_expressions.specs.declared.stop.Stop.TheVariants.{NoMemory};

use crate::elaboration::Elaboration;
use crate::stop::Stop;
use check_tasks::CoreTask;
use std::alloc::Global;

impl<'a> Elaboration<'a> {
    pub(crate) fn enter(&mut self, name: &'a [u8]) -> Result<(), Stop>
        ensures ok { OnOk result (step (EnterTask name.entry) self.old ≡ Some self.new) }
        ensures none { IfErr result (λ stop. stop ≡ NoMemory) }
    {
        self.environment.enter(name)?;
        Ok(())
    }

    pub(crate) fn leave(&mut self, count: usize) -> Result<(), Stop>
        ensures ok { OnOk result (step (LeaveTask count) self.old ≡ Some self.new) }
        ensures none { IfErr result (λ stop. stop ≡ NoMemory) }
    {
        self.environment.leave(count);
        Ok(())
    }

    pub(crate) fn make(&mut self, alloc: Global, task: CoreTask) -> Result<(), Stop>
        ensures ok { OnOk result (step (CoresTask task) self.old ≡ Some self.new) }
        ensures none { IfErr result (λ stop. stop ≡ NoMemory) }
    {
        self.core_task(alloc, task)?;
        Ok(())
    }
}
