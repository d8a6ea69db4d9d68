//! The tasks of exceptions.
ghost use Rattle.std.specs.Prelude.{◌≡◌, Some, None, true, OnOk, IfOk, IfErr};
ghost use Rattle.check_typing.specs.Partial.{given};
ghost use Rattle.check_typing.specs.Signatures.{exn_named};
ghost use Rattle.check_scopes.specs.Known.{with_exception};
ghost use Rattle.check_tasks.specs.States.{signatures_in};
ghost use Rattle.check_expressions.specs.declared.stop.Stop.TheVariants.{NoType};
ghost use Rattle.check_tasks.specs.results.ResultTasks.{scope_of, last_outputs, result_run, result_of};
ghost use Rattle.check_declarations.specs.results.inner.ResultPlans.{carried_by, raised_found, raise_found, raise_with_found, HasNoResult};

use crate::results::elaboration::ResultElaboration;
use crate::results::first::first;
use check_cores::Stack;
use check_expressions::Stop;
use check_tasks::results::{ResultMake, ResultTask};
use check_tasks::{Task, TypeTask};
use hume_ast::Exp;
use hume_base::{Box, Text};

/// An exception, alone or with what it carries.
#[tactic(auto, using(crate::proofs::results_lemmas::FoundExceptions::raised_steps))]
pub(crate) fn raise_result<'a>(
    at: &mut ResultElaboration<'a>,
    tasks: &mut Stack<ResultTask<'a>>,
    name: &Text,
    carried: &'a Option<Box<Exp>>,
) -> Result<(), Stop>
    ensures ok { OnOk result (result_run tasks.new at.new ≡ given
        (result_of ((raised_found (signatures_in at.old.0) name.now carried.now).result (scope_of at.old) (last_outputs at.old)) at.old)
        (result_run tasks.old)) }
    ensures none { IfErr result (λ stop. stop ≡ NoType → HasNoResult (raised_found (signatures_in at.old.0) name.now carried.now) at.old) }
{
    match carried {
        None => raise_alone(at, tasks, name),
        Some(a) => raise_with(at, tasks, name, a),
    }
}

// An exception that carries nothing.
#[tactic(auto, using(crate::proofs::results_lemmas::FoundExceptions::raise_steps))]
fn raise_alone<'a>(
    at: &mut ResultElaboration<'a>,
    tasks: &mut Stack<ResultTask<'a>>,
    name: &Text,
) -> Result<(), Stop>
    ensures ok { OnOk result (result_run tasks.new at.new ≡ given
        (result_of ((raise_found (signatures_in at.old.0) name.now).result (scope_of at.old) (last_outputs at.old)) at.old) (result_run tasks.old)) }
    ensures none { IfErr result (λ stop. stop ≡ NoType → HasNoResult (raise_found (signatures_in at.old.0) name.now) at.old) }
{
    match at.plain.push_exception(name.bytes())? {
        None => Err(Stop::NoType),
        Some((_, true)) => Err(Stop::NoType),
        Some((number, false)) => { first(tasks, &[ResultTask::Make(ResultMake::Raise(number))]) }
    }
}

// An exception with what it carries.
#[tactic(auto, using(crate::proofs::results_lemmas::FoundExceptions::raise_with_steps))]
fn raise_with<'a>(
    at: &mut ResultElaboration<'a>,
    tasks: &mut Stack<ResultTask<'a>>,
    name: &Text,
    a: &'a Exp,
) -> Result<(), Stop>
    ensures ok { OnOk result (result_run tasks.new at.new ≡ given
        (result_of ((raise_with_found (signatures_in at.old.0) name.now a.now).result (scope_of at.old) (last_outputs at.old)) at.old) (result_run tasks.old)) }
    ensures none { IfErr result (λ stop. stop ≡ NoType → HasNoResult (raise_with_found (signatures_in at.old.0) name.now a.now) at.old) }
{
    let number = carrying(at, name)?;
    first(
        tasks,
        &[
            ResultTask::Plain(Task::Against(a)),
            ResultTask::Plain(Task::Types(TypeTask::Pop)),
            ResultTask::Make(ResultMake::RaiseWith(number)),
        ],
    )
}

// The number of the exception of a name, which must carry something. The type of that goes on the stack.
#[tactic(auto, using(crate::proofs::results_lemmas::FoundExceptions::carrying_steps))]
fn carrying(at: &mut ResultElaboration, name: &Text) -> Result<u32, Stop>
    ensures found { IfOk result (λ number. (Some (number, true), at.new.0.0) ≡ with_exception (exn_named name.now (signatures_in at.old.0)) at.old.0.0) }
    ensures keeps { OnOk result (at.new ≡ ((at.new.0.0, at.old.0.1, at.old.0.2, at.old.0.3), at.old.1, at.old.2, at.old.3)) }
    ensures none { IfErr result (λ stop. stop ≡ NoType → carried_by (signatures_in at.old.0) name.now ≡ None) }
{
    match at.plain.push_exception(name.bytes())? {
        None => Err(Stop::NoType),
        Some((_, false)) => Err(Stop::NoType),
        Some((number, true)) => Ok(number),
    }
}
