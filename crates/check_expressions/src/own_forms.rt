//! The tasks of each form of expression by itself.
ghost use Rattle.std.specs.Prelude.{◌≡◌, OnOk, IfErr};
ghost use Rattle.check_typing.specs.Cores.{and_core, or_core};
ghost use Rattle.check_typing.specs.inner.Walk.{walk, let_walk, if_walk, case_walk, arithmetic_walk, comparison_walk, logic_walk, index_walk, neg_walk, not_walk, update_walk, tuple_walk, vector_walk};
ghost use Rattle.check_tasks.specs.States.{State, scope_in, signatures_in};
ghost use Rattle.check_tasks.specs.Tasks.{walks, arm_walks};
ghost use Rattle.check_expressions.specs.inner.Plans.{DoesOwn};
ghost use Rattle.check_expressions.specs.declared.stop.Stop.TheVariants.{NoMemory};

use crate::elaboration::Elaboration;
use crate::first::first;
use crate::stop::Stop;
use check_cores::Stack;
use check_tasks::{CoreTask, Task, TypeTask};
use hume_ast::{Exp, Pat};
use hume_base::Text;
use hume_model::Op;

#[tactic(auto, using(crate::proofs::Forms::let_own_steps))]
pub(crate) fn let_own<'a>(
    at: &Elaboration<'a>,
    tasks: &mut Stack<Task<'a>>,
    name: &'a Text,
    a: &'a Exp,
    b: &'a Exp,
) -> Result<(), Stop>
    ensures ok { OnOk result (DoesOwn ((let_walk name.now (walk (signatures_in at.now) a.now) (walk (signatures_in at.now) b.now)).own
        (scope_in at.now)) at.now tasks.old tasks.new) }
    ensures none { IfErr result (λ stop. stop ≡ NoMemory) }
{
    let count = at.environment.variables();
    first(
        tasks,
        &[
            Task::Own(a),
            Task::Enter(name.bytes()),
            Task::Own(b),
            Task::Cores(CoreTask::Binding),
            Task::Leave(count),
        ],
    )
}

#[tactic(auto, using(crate::proofs::Forms::if_own_steps))]
pub(crate) fn if_own<'a>(
    tasks: &mut Stack<Task<'a>>,
    test: &'a Exp,
    a: &'a Exp,
    b: &'a Exp,
) -> Result<(), Stop>
    ensures ok { OnOk result ((state : State) → DoesOwn ((if_walk (walk (signatures_in state) test.now) (walk (signatures_in state) a.now)
        (walk (signatures_in state) b.now)).own (scope_in state)) state tasks.old tasks.new) }
    ensures none { IfErr result (λ stop. stop ≡ NoMemory) }
{
    first(
        tasks,
        &[
            Task::Types(TypeTask::PushBool),
            Task::Against(test),
            Task::Types(TypeTask::Pop),
            Task::Two(a, b),
            Task::Cores(CoreTask::Branches),
        ],
    )
}

#[tactic(auto, using(crate::proofs::Forms::case_own_steps))]
pub(crate) fn case_own<'a>(
    tasks: &mut Stack<Task<'a>>,
    a: &'a Exp,
    arms: &'a [(Pat, Exp)],
) -> Result<(), Stop>
    ensures ok { OnOk result ((state : State) → DoesOwn ((case_walk (signatures_in state) (walk (signatures_in state) a.now)
        (arm_walks (signatures_in state) arms.now)).own (scope_in state)) state tasks.old tasks.new) }
    ensures none { IfErr result (λ stop. stop ≡ NoMemory) }
{
    first(
        tasks,
        &[
            Task::Own(a),
            Task::OwnArms(arms),
            Task::Types(TypeTask::RepeatBelow),
            Task::Cores(CoreTask::Alternatives(arms.len())),
            Task::Types(TypeTask::Pop),
            Task::Types(TypeTask::PopBelow),
        ],
    )
}

#[tactic(auto, using(crate::proofs::Forms::arithmetic_own_steps))]
pub(crate) fn arithmetic_own<'a>(
    tasks: &mut Stack<Task<'a>>,
    operation: Op,
    a: &'a Exp,
    b: &'a Exp,
) -> Result<(), Stop>
    ensures ok { OnOk result ((state : State) → DoesOwn ((arithmetic_walk operation (walk (signatures_in state) a.now) (walk (signatures_in state) b.now)).own
        (scope_in state)) state tasks.old tasks.new) }
    ensures none { IfErr result (λ stop. stop ≡ NoMemory) }
{
    first(
        tasks,
        &[
            Task::Two(a, b),
            Task::Types(TypeTask::IsNumber),
            Task::Cores(CoreTask::Operation(operation)),
        ],
    )
}

#[tactic(auto, using(crate::proofs::Forms::comparison_own_steps))]
pub(crate) fn comparison_own<'a>(
    tasks: &mut Stack<Task<'a>>,
    operation: Op,
    a: &'a Exp,
    b: &'a Exp,
) -> Result<(), Stop>
    ensures ok { OnOk result ((state : State) → DoesOwn ((comparison_walk operation (walk (signatures_in state) a.now) (walk (signatures_in state) b.now)).own
        (scope_in state)) state tasks.old tasks.new) }
    ensures none { IfErr result (λ stop. stop ≡ NoMemory) }
{
    first(
        tasks,
        &[
            Task::Two(a, b),
            Task::Types(TypeTask::IsCompared(operation)),
            Task::Cores(CoreTask::Operation(operation)),
            Task::Types(TypeTask::Pop),
            Task::Types(TypeTask::PushBool),
        ],
    )
}

#[tactic(auto, using(crate::proofs::Forms::and_own_steps))]
pub(crate) fn and_own<'a>(tasks: &mut Stack<Task<'a>>, a: &'a Exp, b: &'a Exp) -> Result<(), Stop>
    ensures ok { OnOk result ((state : State) → DoesOwn ((logic_walk and_core (walk (signatures_in state) a.now) (walk (signatures_in state) b.now)).own
        (scope_in state)) state tasks.old tasks.new) }
    ensures none { IfErr result (λ stop. stop ≡ NoMemory) }
{
    first(
        tasks,
        &[
            Task::Types(TypeTask::PushBool),
            Task::Against(a),
            Task::Against(b),
            Task::Cores(CoreTask::Both),
        ],
    )
}

#[tactic(auto, using(crate::proofs::Forms::or_own_steps))]
pub(crate) fn or_own<'a>(tasks: &mut Stack<Task<'a>>, a: &'a Exp, b: &'a Exp) -> Result<(), Stop>
    ensures ok { OnOk result ((state : State) → DoesOwn ((logic_walk or_core (walk (signatures_in state) a.now) (walk (signatures_in state) b.now)).own
        (scope_in state)) state tasks.old tasks.new) }
    ensures none { IfErr result (λ stop. stop ≡ NoMemory) }
{
    first(
        tasks,
        &[
            Task::Types(TypeTask::PushBool),
            Task::Against(a),
            Task::Against(b),
            Task::Cores(CoreTask::Either),
        ],
    )
}

#[tactic(auto, using(crate::proofs::Forms::index_own_steps))]
pub(crate) fn index_own<'a>(tasks: &mut Stack<Task<'a>>, a: &'a Exp, b: &'a Exp) -> Result<(), Stop>
    ensures ok { OnOk result ((state : State) → DoesOwn ((index_walk (walk (signatures_in state) a.now) (walk (signatures_in state) b.now)).own
        (scope_in state)) state tasks.old tasks.new) }
    ensures none { IfErr result (λ stop. stop ≡ NoMemory) }
{
    first(tasks, &[Task::Own(a), Task::Index(b)])
}

#[tactic(auto, using(crate::proofs::Forms::neg_own_steps))]
pub(crate) fn neg_own<'a>(tasks: &mut Stack<Task<'a>>, a: &'a Exp) -> Result<(), Stop>
    ensures ok { OnOk result ((state : State) → DoesOwn ((neg_walk (walk (signatures_in state) a.now)).own (scope_in state)) state tasks.old tasks.new) }
    ensures none { IfErr result (λ stop. stop ≡ NoMemory) }
{
    first(
        tasks,
        &[
            Task::Own(a),
            Task::Types(TypeTask::IsNumber),
            Task::Cores(CoreTask::Negation),
        ],
    )
}

#[tactic(auto, using(crate::proofs::Forms::not_own_steps))]
pub(crate) fn not_own<'a>(tasks: &mut Stack<Task<'a>>, a: &'a Exp) -> Result<(), Stop>
    ensures ok { OnOk result ((state : State) → DoesOwn ((not_walk (walk (signatures_in state) a.now)).own (scope_in state)) state tasks.old tasks.new) }
    ensures none { IfErr result (λ stop. stop ≡ NoMemory) }
{
    first(
        tasks,
        &[
            Task::Types(TypeTask::PushBool),
            Task::Against(a),
            Task::Cores(CoreTask::Opposite),
        ],
    )
}

#[tactic(auto, using(crate::proofs::Forms::update_own_steps))]
pub(crate) fn update_own<'a>(
    tasks: &mut Stack<Task<'a>>,
    a: &'a Exp,
    b: &'a Exp,
    d: &'a Exp,
) -> Result<(), Stop>
    ensures ok { OnOk result ((state : State) → DoesOwn ((update_walk (walk (signatures_in state) a.now) (walk (signatures_in state) b.now)
        (walk (signatures_in state) d.now)).own (scope_in state)) state tasks.old tasks.new) }
    ensures none { IfErr result (λ stop. stop ≡ NoMemory) }
{
    first(tasks, &[Task::Own(a), Task::Update(b, d)])
}

#[tactic(auto, using(crate::proofs::Forms::tuple_own_steps))]
pub(crate) fn tuple_own<'a>(tasks: &mut Stack<Task<'a>>, parts: &'a [Exp]) -> Result<(), Stop>
    ensures ok { OnOk result ((state : State) → DoesOwn ((tuple_walk (walks (signatures_in state) parts.now)).own (scope_in state)) state tasks.old tasks.new) }
    ensures none { IfErr result (λ stop. stop ≡ NoMemory) }
{
    first(
        tasks,
        &[
            Task::OwnParts(parts),
            Task::Cores(CoreTask::OwnTuple(parts.len())),
        ],
    )
}

#[tactic(auto, using(crate::proofs::Forms::vector_own_steps))]
pub(crate) fn vector_own<'a>(tasks: &mut Stack<Task<'a>>, parts: &'a [Exp]) -> Result<(), Stop>
    ensures ok { OnOk result ((state : State) → DoesOwn ((vector_walk (walks (signatures_in state) parts.now)).own (scope_in state)) state tasks.old
        tasks.new) }
    ensures none { IfErr result (λ stop. stop ≡ NoMemory) }
{
    first(
        tasks,
        &[
            Task::OwnEach(parts),
            Task::Cores(CoreTask::OwnVector(parts.len())),
        ],
    )
}
