//! The tasks of each form of expression against the last type.
ghost use Rattle.std.specs.Prelude.{◌≡◌, OnOk, IfErr};
ghost use Rattle.check_scopes.specs.types.Contexts.{top};
ghost use Rattle.check_typing.specs.inner.Walk.{walk, let_walk, if_walk, case_walk, arithmetic_walk, neg_walk, update_walk, tuple_walk};
ghost use Rattle.check_tasks.specs.States.{State, scope_in, types_in, signatures_in};
ghost use Rattle.check_tasks.specs.Tasks.{walks, arm_walks};
ghost use Rattle.check_expressions.specs.inner.Plans.{DoesAgainst};
ghost use Rattle.check_expressions.specs.declared.stop.Stop.TheVariants.{NoMemory};

use crate::elaboration::Elaboration;
use crate::first::first;
use crate::stop::Stop;
use check_cores::Stack;
use check_tasks::{CoreTask, Task, TypeTask};
use hume_ast::{Exp, Pat};
use hume_base::Text;
use hume_model::Op;

#[tactic(auto, using(crate::proofs::Forms::let_against_steps))]
pub(crate) fn let_against<'a>(
    at: &Elaboration<'a>,
    tasks: &mut Stack<Task<'a>>,
    name: &'a Text,
    a: &'a Exp,
    b: &'a Exp,
) -> Result<(), Stop>
    ensures ok { OnOk result (DoesAgainst ((let_walk name.now (walk (signatures_in at.now) a.now) (walk (signatures_in at.now) b.now)).against
        (scope_in at.now) (top (types_in at.now))) at.now tasks.old tasks.new) }
    ensures none { IfErr result (λ stop. stop ≡ NoMemory) }
{
    let count = at.environment.variables();
    first(
        tasks,
        &[
            Task::Own(a),
            Task::Enter(name.bytes()),
            Task::Against(b),
            Task::Cores(CoreTask::Binding),
            Task::Leave(count),
        ],
    )
}

#[tactic(auto, using(crate::proofs::Forms::if_against_steps))]
pub(crate) fn if_against<'a>(
    tasks: &mut Stack<Task<'a>>,
    test: &'a Exp,
    a: &'a Exp,
    b: &'a Exp,
) -> Result<(), Stop>
    ensures ok { OnOk result ((state : State) → DoesAgainst ((if_walk (walk (signatures_in state) test.now) (walk (signatures_in state) a.now)
        (walk (signatures_in state) b.now)).against (scope_in state) (top (types_in state))) state tasks.old tasks.new) }
    ensures none { IfErr result (λ stop. stop ≡ NoMemory) }
{
    first(
        tasks,
        &[
            Task::Types(TypeTask::PushBool),
            Task::Against(test),
            Task::Types(TypeTask::Pop),
            Task::Against(a),
            Task::Against(b),
            Task::Cores(CoreTask::Branches),
        ],
    )
}

#[tactic(auto, using(crate::proofs::Forms::case_against_steps))]
pub(crate) fn case_against<'a>(
    tasks: &mut Stack<Task<'a>>,
    a: &'a Exp,
    arms: &'a [(Pat, Exp)],
) -> Result<(), Stop>
    ensures ok { OnOk result ((state : State) → DoesAgainst ((case_walk (signatures_in state) (walk (signatures_in state) a.now)
        (arm_walks (signatures_in state) arms.now)).against (scope_in state) (top (types_in state))) state tasks.old tasks.new) }
    ensures none { IfErr result (λ stop. stop ≡ NoMemory) }
{
    first(
        tasks,
        &[
            Task::Own(a),
            Task::Types(TypeTask::RepeatBelow),
            Task::Arms(arms),
            Task::Types(TypeTask::Pop),
            Task::Cores(CoreTask::Alternatives(arms.len())),
            Task::Types(TypeTask::Pop),
        ],
    )
}

#[tactic(auto, using(crate::proofs::Forms::arithmetic_against_steps))]
pub(crate) fn arithmetic_against<'a>(
    tasks: &mut Stack<Task<'a>>,
    operation: Op,
    a: &'a Exp,
    b: &'a Exp,
) -> Result<(), Stop>
    ensures ok { OnOk result ((state : State) → DoesAgainst ((arithmetic_walk operation (walk (signatures_in state) a.now)
        (walk (signatures_in state) b.now)).against
        (scope_in state) (top (types_in state))) state tasks.old tasks.new) }
    ensures none { IfErr result (λ stop. stop ≡ NoMemory) }
{
    first(
        tasks,
        &[
            Task::Types(TypeTask::IsNumber),
            Task::Against(a),
            Task::Against(b),
            Task::Cores(CoreTask::Operation(operation)),
        ],
    )
}

#[tactic(auto, using(crate::proofs::Forms::neg_against_steps))]
pub(crate) fn neg_against<'a>(tasks: &mut Stack<Task<'a>>, a: &'a Exp) -> Result<(), Stop>
    ensures ok { OnOk result ((state : State) → DoesAgainst ((neg_walk (walk (signatures_in state) a.now)).against (scope_in state)
        (top (types_in state))) state tasks.old tasks.new) }
    ensures none { IfErr result (λ stop. stop ≡ NoMemory) }
{
    first(
        tasks,
        &[
            Task::Types(TypeTask::IsNumber),
            Task::Against(a),
            Task::Cores(CoreTask::Negation),
        ],
    )
}

#[tactic(auto, using(crate::proofs::Forms::update_against_steps))]
pub(crate) fn update_against<'a>(
    tasks: &mut Stack<Task<'a>>,
    a: &'a Exp,
    b: &'a Exp,
    d: &'a Exp,
) -> Result<(), Stop>
    ensures ok { OnOk result ((state : State) → DoesAgainst ((update_walk (walk (signatures_in state) a.now) (walk (signatures_in state) b.now)
        (walk (signatures_in state) d.now)).against (scope_in state) (top (types_in state))) state tasks.old tasks.new) }
    ensures none { IfErr result (λ stop. stop ≡ NoMemory) }
{
    first(tasks, &[Task::Against(a), Task::Update(b, d)])
}

#[tactic(auto, using(crate::proofs::Forms::tuple_against_steps))]
pub(crate) fn tuple_against<'a>(tasks: &mut Stack<Task<'a>>, parts: &'a [Exp]) -> Result<(), Stop>
    ensures ok { OnOk result ((state : State) → DoesAgainst ((tuple_walk (walks (signatures_in state) parts.now)).against (scope_in state)
        (top (types_in state))) state tasks.old tasks.new) }
    ensures none { IfErr result (λ stop. stop ≡ NoMemory) }
{
    first(
        tasks,
        &[
            Task::Parts(parts, 0),
            Task::Cores(CoreTask::Tuple(parts.len())),
        ],
    )
}
