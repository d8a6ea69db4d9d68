//! Results, task by task.
ghost use Rattle.std.specs.Prelude.{◌≡◌, Some, None, OnOk, IfErr};
ghost use Rattle.check_typing.specs.Partial.{given};
ghost use Rattle.check_typing.specs.inner.ResultWalk.{result_walk};
ghost use Rattle.check_tasks.specs.States.{signatures_in};
ghost use Rattle.check_expressions.specs.declared.stop.Stop.TheVariants.{NoType};
ghost use Rattle.check_tasks.specs.results.ResultTasks.{scope_of, last_outputs, result_run, result_step, result_of};
ghost use Rattle.check_declarations.specs.results.inner.ResultPlans.{HasNoResult};

use crate::results::elaboration::ResultElaboration;
use crate::results::leaves::{single_result, tuple_result};
use crate::results::output_tasks::{arms_tasks, output_tasks, outputs_tasks};
use crate::results::raises::raise_result;
use crate::results::result_forms::{case_result, if_result, let_result, paren_result};
use check_cores::Stack;
use check_expressions::{Stop, perform_one};
use check_tasks::results::ResultTask;
use hume_ast::Exp;
use std::alloc::Global;

impl<'a> ResultElaboration<'a> {
    /// The core of the result for outputs whose types are the parts of the last type, a tuple. It goes on the stack of results.
    #[tactic(auto, using(crate::proofs::results_lemmas::Running::walk_steps))]
    pub(crate) fn result(&mut self, alloc: Global, e: &'a Exp) -> Result<(), Stop>
        ensures ok { OnOk result (result_of ((result_walk (signatures_in self.old.0) e.now).result (scope_of self.old) (last_outputs self.old)) self.old
            ≡ Some self.new) }
        ensures none { IfErr result (λ stop. stop ≡ NoType → (result_walk (signatures_in self.old.0) e.now).result (scope_of self.old)
            (last_outputs self.old) ≡ None) }
    {
        let mut tasks = Stack::new(alloc);
        tasks.push(ResultTask::Result(e))?;
        run_all(alloc, self, &mut tasks)
    }
}

// One task after the other. More of them than can be counted would be answered with want of memory.
#[tactic(auto, using(crate::proofs::results_lemmas::Running::walk_steps))]
fn run_all<'a>(
    alloc: Global,
    at: &mut ResultElaboration<'a>,
    tasks: &mut Stack<ResultTask<'a>>,
) -> Result<(), Stop>
    ensures ok { OnOk result (result_run tasks.old at.old ≡ Some at.new) }
    ensures none { IfErr result (λ stop. stop ≡ NoType → result_run tasks.old at.old ≡ None) }
{
    for _ in 0..usize::MAX {
        match tasks.pop() {
            None => return Ok(()),
            Some(task) => perform(alloc, at, tasks, task)?,
        }
    }
    Err(Stop::NoMemory)
}

// Does a task, or puts those before the others that it comes to.
#[tactic(auto, using(crate::proofs::results_lemmas::Running::perform_steps))]
fn perform<'a>(
    alloc: Global,
    at: &mut ResultElaboration<'a>,
    tasks: &mut Stack<ResultTask<'a>>,
    task: ResultTask<'a>,
) -> Result<(), Stop>
    ensures ok { OnOk result (result_run tasks.new at.new ≡ given (result_step task.entry at.old) (result_run tasks.old)) }
    ensures none { IfErr result (λ stop. stop ≡ NoType → result_step task.entry at.old ≡ None) }
{
    match task {
        ResultTask::Result(e) => result_tasks(at, tasks, e),
        ResultTask::Output(e) => output_tasks(at, tasks, e),
        ResultTask::Outputs(parts, place) => outputs_tasks(at, tasks, parts, place),
        ResultTask::Arms(arms) => arms_tasks(at, tasks, arms),
        ResultTask::Plain(task) => perform_one(alloc, &mut at.plain, task),
        ResultTask::Make(make) => Ok(at.make(alloc, make)?),
    }
}

// Puts the tasks of a result before the others.
#[tactic(auto, using(crate::proofs::results_lemmas::Dispatch::followed_steps))]
fn result_tasks<'a>(
    at: &mut ResultElaboration<'a>,
    tasks: &mut Stack<ResultTask<'a>>,
    e: &'a Exp,
) -> Result<(), Stop>
    ensures ok { OnOk result (result_run tasks.new at.new ≡ given
        (result_of ((result_walk (signatures_in at.old.0) e.now).result (scope_of at.old) (last_outputs at.old)) at.old) (result_run tasks.old)) }
    ensures none { IfErr result (λ stop. stop ≡ NoType → HasNoResult (result_walk (signatures_in at.old.0) e.now) at.old) }
{
    match e {
        Exp::Let(name, a, b) => let_result(at, tasks, name, a, b),
        Exp::If(test, a, b) => if_result(at, tasks, test, a, b),
        Exp::Case(a, arms) => case_result(at, tasks, a, arms.as_slice()),
        Exp::Raise(name, carried) => raise_result(at, tasks, name, carried),
        Exp::Paren(a) => paren_result(at, tasks, a),
        Exp::Tuple(parts) => tuple_result(at, tasks, e, parts.as_slice()),
        _ => single_result(at, tasks, e),
    }
}
