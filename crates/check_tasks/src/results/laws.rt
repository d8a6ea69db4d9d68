//! Laws of tasks of results.
ghost use Rattle.std.specs.Prelude.{◌≡◌, ◌++◌, List};
ghost use Rattle.check_typing.specs.Partial.{given};
ghost use Rattle.check_tasks.specs.declared.results.task.ResultTask.{ResultTask};
ghost use Rattle.check_tasks.specs.results.ResultStates.{ResultState};
ghost use Rattle.check_tasks.specs.results.ResultTasks.{result_run};

/// Tasks that stand first are done first.
pub fn result_tasks_are_done_in_order()
    ensures { (first rest : List ResultTask) (state : ResultState) → result_run (first ++ rest) state ≡ given (result_run first state) (result_run rest) }
{}
