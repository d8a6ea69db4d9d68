//! Expressions by themselves and against a type, task by task. So the depth of an expression takes no stack.
ghost use Rattle.std.specs.Prelude.{◌≡◌, Some, None, OnOk, IfErr};
ghost use Rattle.check_scopes.specs.types.Contexts.{top};
ghost use Rattle.check_typing.specs.Partial.{given};
ghost use Rattle.check_typing.specs.inner.Walk.{walk};
ghost use Rattle.check_tasks.specs.States.{scope_in, types_in, signatures_in};
ghost use Rattle.check_tasks.specs.Tasks.{run, step, own_of, against_of};
ghost use Rattle.check_expressions.specs.declared.stop.Stop.TheVariants.{NoType};

use crate::against_tasks::against_tasks;
use crate::elaboration::Elaboration;
use crate::list_tasks::{
    arms_tasks, each_tasks, index_tasks, own_arms_tasks, own_each_tasks, own_parts_tasks,
    parts_tasks, two_tasks, update_tasks,
};
use crate::own_tasks::own_tasks;
use crate::pattern_tasks::{match_parts_tasks, pattern_tasks};
use crate::stop::Stop;
use check_cores::Stack;
use check_tasks::Task;
use hume_ast::Exp;
use std::alloc::Global;

/// The type and the core of an expression by itself. They go on the stacks.
#[tactic(auto, using(crate::proofs::Walking::walk_steps))]
pub fn own<'a>(alloc: Global, at: &mut Elaboration<'a>, e: &'a Exp) -> Result<(), Stop>
    ensures ok { OnOk result (own_of ((walk (signatures_in at.old) e.now).own (scope_in at.old)) at.old ≡ Some at.new) }
    ensures none { IfErr result (λ stop. stop ≡ NoType → (walk (signatures_in at.old) e.now).own (scope_in at.old) ≡ None) }
{
    perform_one(alloc, at, Task::Own(e))
}

/// The core of an expression against the last type of the stack. It goes on the stack of cores.
#[tactic(auto, using(crate::proofs::Walking::walk_steps))]
pub fn against<'a>(alloc: Global, at: &mut Elaboration<'a>, e: &'a Exp) -> Result<(), Stop>
    ensures ok { OnOk result (against_of ((walk (signatures_in at.old) e.now).against (scope_in at.old) (top (types_in at.old))) at.old ≡ Some at.new) }
    ensures none { IfErr result (λ stop. stop ≡ NoType → (walk (signatures_in at.old) e.now).against (scope_in at.old) (top (types_in at.old)) ≡ None) }
{
    perform_one(alloc, at, Task::Against(e))
}

/// Does one task, with all that it comes to.
#[tactic(auto, using(crate::proofs::Walking::walk_steps))]
pub fn perform_one<'a>(alloc: Global, at: &mut Elaboration<'a>, task: Task<'a>) -> Result<(), Stop>
    ensures ok { OnOk result (step task.entry at.old ≡ Some at.new) }
    ensures none { IfErr result (λ stop. stop ≡ NoType → step task.entry at.old ≡ None) }
{
    let mut tasks = Stack::new(alloc);
    tasks.push(task)?;
    run_all(alloc, at, &mut tasks)
}

// One task after the other. More of them than can be counted would be answered with want of memory.
#[tactic(auto, using(crate::proofs::Walking::walk_steps))]
fn run_all<'a>(
    alloc: Global,
    at: &mut Elaboration<'a>,
    tasks: &mut Stack<Task<'a>>,
) -> Result<(), Stop>
    ensures ok { OnOk result (run tasks.old at.old ≡ Some at.new) }
    ensures none { IfErr result (λ stop. stop ≡ NoType → run tasks.old at.old ≡ None) }
{
    for _ in 0..usize::MAX {
        match tasks.pop() {
            None => return Ok(()),
            Some(task) => perform(alloc, at, tasks, task)?,
        }
    }
    Err(Stop::NoMemory)
}

// Does a task, or puts those before the others that it comes to.
#[tactic(auto, using(crate::proofs::Walking::perform_steps))]
fn perform<'a>(
    alloc: Global,
    at: &mut Elaboration<'a>,
    tasks: &mut Stack<Task<'a>>,
    task: Task<'a>,
) -> Result<(), Stop>
    ensures ok { OnOk result (run tasks.new at.new ≡ given (step task.entry at.old) (run tasks.old)) }
    ensures none { IfErr result (λ stop. stop ≡ NoType → step task.entry at.old ≡ None) }
{
    match task {
        Task::Own(e) => own_tasks(at, tasks, e),
        Task::Against(e) => against_tasks(at, tasks, e),
        Task::Two(a, b) => two_tasks(at, tasks, a, b),
        Task::Match(p) => pattern_tasks(at, tasks, p),
        Task::MatchParts(parts, place) => match_parts_tasks(at, tasks, parts, place),
        Task::Enter(name) => at.enter(name),
        Task::Leave(count) => at.leave(count),
        Task::Parts(parts, place) => parts_tasks(at, tasks, parts, place),
        Task::Each(parts) => each_tasks(tasks, parts),
        Task::OwnParts(parts) => own_parts_tasks(tasks, parts),
        Task::OwnEach(parts) => own_each_tasks(at, tasks, parts),
        Task::Arms(arms) => arms_tasks(at, tasks, arms),
        Task::OwnArms(arms) => own_arms_tasks(at, tasks, arms),
        Task::Index(b) => index_tasks(at, tasks, b),
        Task::Update(b, d) => update_tasks(at, tasks, b, d),
        Task::Types(task) => at.type_task(task),
        Task::Cores(task) => at.make(alloc, task),
    }
}
