//! The tasks of lists.
ghost use Rattle.std.specs.Prelude.{◌≡◌, ◌∷◌, ◌++◌, true, false, None, OnOk, IfErr};
ghost use Rattle.check_typing.specs.Partial.{given};
ghost use Rattle.check_tasks.specs.States.{State, signatures_in};
ghost use Rattle.check_typing.specs.inner.Walk.{walk, arm_walks_open};
ghost use Rattle.check_tasks.specs.Tasks.{run, step, arm_walks};
ghost use Rattle.check_tasks.specs.declared.task.Task.TheVariants.{Two as TwoTask, Parts as PartsTask, Each as EachTask, OwnParts as OwnPartsTask, OwnEach as OwnEachTask, Arms as ArmsTask, OwnArms as OwnArmsTask, Index as IndexTask, Update as UpdateTask};
ghost use Rattle.check_expressions.specs.declared.stop.Stop.TheVariants.{NoType, NoMemory};

use crate::elaboration::Elaboration;
use crate::first::first;
use crate::open::{first_closed, first_closed_arm, is_open};
use crate::stop::Stop;
use check_cores::Stack;
use check_tasks::{CoreTask, Task, TypeTask};
use hume_ast::{Exp, Pat};

/// Two expressions by themselves, of the type of the first that has one.
#[tactic(auto, using(crate::proofs::Lists::two_steps))]
pub(crate) fn two_tasks<'a>(
    at: &Elaboration<'a>,
    tasks: &mut Stack<Task<'a>>,
    a: &'a Exp,
    b: &'a Exp,
) -> Result<(), Stop>
    ensures ok { OnOk result (run tasks.new at.now ≡ given (step (TwoTask a.entry b.entry) at.now) (run tasks.old)) }
    ensures none { IfErr result (λ stop. stop ≡ NoMemory) }
{
    if !is_open(at, a) {
        return first(tasks, &[Task::Own(a), Task::Against(b)]);
    }
    if !is_open(at, b) {
        return first(
            tasks,
            &[
                Task::Own(b),
                Task::Against(a),
                Task::Cores(CoreTask::Lift(1)),
            ],
        );
    }
    first(
        tasks,
        &[
            Task::Types(TypeTask::PushInt32),
            Task::Against(a),
            Task::Against(b),
        ],
    )
}

/// Expressions against the parts of the last type, a tuple, from one on. There must be as many.
#[tactic(auto, using(crate::proofs::Lists::parts_steps))]
pub(crate) fn parts_tasks<'a>(
    at: &Elaboration<'a>,
    tasks: &mut Stack<Task<'a>>,
    parts: &'a [Exp],
    place: usize,
) -> Result<(), Stop>
    ensures ok { OnOk result (run tasks.new at.now ≡ given (step (PartsTask parts.entry place) at.now) (run tasks.old)) }
    ensures none { IfErr result (λ stop. stop ≡ NoType → step (PartsTask parts.entry place) at.now ≡ None) }
{
    let count = at.expect_tuple()?;
    match parts.split_first() {
        None => {
            if place < count {
                return Err(Stop::NoType);
            }
            Ok(())
        }
        Some((part, rest)) => {
            if place >= count {
                return Err(Stop::NoType);
            }
            first(
                tasks,
                &[
                    Task::Types(TypeTask::PushPart(place)),
                    Task::Against(part),
                    Task::Types(TypeTask::Pop),
                    Task::Parts(rest, place + 1),
                ],
            )
        }
    }
}

/// Expressions against the last type.
#[tactic(auto, using(crate::proofs::Lists::each_steps))]
pub(crate) fn each_tasks<'a>(tasks: &mut Stack<Task<'a>>, parts: &'a [Exp]) -> Result<(), Stop>
    ensures ok { OnOk result ((state : State) → run tasks.new state ≡ given (step (EachTask parts.entry) state) (run tasks.old)) }
    ensures none { IfErr result (λ stop. stop ≡ NoMemory) }
{
    match parts.split_first() {
        None => Ok(()),
        Some((part, rest)) => first(tasks, &[Task::Against(part), Task::Each(rest)]),
    }
}

/// Expressions by themselves.
#[tactic(auto, using(crate::proofs::Lists::own_parts_steps))]
pub(crate) fn own_parts_tasks<'a>(tasks: &mut Stack<Task<'a>>, parts: &'a [Exp]) -> Result<(), Stop>
    ensures ok { OnOk result ((state : State) → run tasks.new state ≡ given (step (OwnPartsTask parts.entry) state) (run tasks.old)) }
    ensures none { IfErr result (λ stop. stop ≡ NoMemory) }
{
    match parts.split_first() {
        None => Ok(()),
        Some((part, rest)) => first(tasks, &[Task::Own(part), Task::OwnParts(rest)]),
    }
}

/// Alternatives, whose bodies are checked against the last type.
#[tactic(auto, using(crate::proofs::Lists::arms_steps))]
pub(crate) fn arms_tasks<'a>(
    at: &Elaboration<'a>,
    tasks: &mut Stack<Task<'a>>,
    arms: &'a [(Pat, Exp)],
) -> Result<(), Stop>
    ensures ok { OnOk result (run tasks.new at.now ≡ given (step (ArmsTask arms.entry) at.now) (run tasks.old)) }
    ensures none { IfErr result (λ stop. stop ≡ NoMemory) }
{
    let count = at.environment.variables();
    match arms.split_first() {
        None => Ok(()),
        Some(((pattern, body), rest)) => first(
            tasks,
            &[
                Task::Types(TypeTask::RepeatBelow),
                Task::Match(pattern),
                Task::Types(TypeTask::Pop),
                Task::Against(body),
                Task::Leave(count),
                Task::Cores(CoreTask::Arm),
                Task::Arms(rest),
            ],
        ),
    }
}

/// Expressions by themselves, of the type of the first that has one.
#[tactic(auto, using(crate::proofs::Lists::own_each_steps))]
pub(crate) fn own_each_tasks<'a>(
    at: &Elaboration<'a>,
    tasks: &mut Stack<Task<'a>>,
    parts: &'a [Exp],
) -> Result<(), Stop>
    ensures ok { OnOk result (run tasks.new at.now ≡ given (step (OwnEachTask parts.entry) at.now) (run tasks.old)) }
    ensures none { IfErr result (λ stop. stop ≡ NoMemory) }
{
    let Some(place) = first_closed(at, parts) else {
        return first(
            tasks,
            &[Task::Types(TypeTask::PushInt32), Task::Each(parts)],
        );
    };
    let (front, rest) = parts.split_at(place);
    let Some((part, behind)) = rest.split_first() else {
        return Err(Stop::NoMemory);
    };
    first(
        tasks,
        &[
            Task::Own(part),
            Task::Each(front),
            Task::Cores(CoreTask::Lift(place)),
            Task::Each(behind),
        ],
    )
}

/// Alternatives, whose bodies have the type of the first that has one by itself.
#[tactic(auto, using(crate::proofs::Lists::own_arms_steps))]
pub(crate) fn own_arms_tasks<'a>(
    at: &Elaboration<'a>,
    tasks: &mut Stack<Task<'a>>,
    arms: &'a [(Pat, Exp)],
) -> Result<(), Stop>
    ensures ok { OnOk result (run tasks.new at.now ≡ given (step (OwnArmsTask arms.entry) at.now) (run tasks.old)) }
    ensures none { IfErr result (λ stop. stop ≡ NoMemory) }
{
    let Some(place) = first_closed_arm(at, arms) else {
        return first(tasks, &[Task::Types(TypeTask::PushInt32), Task::Arms(arms)]);
    };
    let (front, rest) = arms.split_at(place);
    let Some(((pattern, body), behind)) = rest.split_first() else {
        return Err(Stop::NoMemory);
    };
    parted_arms_tasks(at, tasks, arms, front, pattern, body, behind)
}

// Alternatives in three parts: those before the first that has a type by itself, its pattern and its body, and the others.
#[tactic(auto, using(crate::proofs::Lists::own_arms_steps))]
fn parted_arms_tasks<'a>(
    at: &Elaboration<'a>,
    tasks: &mut Stack<Task<'a>>,
    arms: &'a [(Pat, Exp)],
    front: &'a [(Pat, Exp)],
    pattern: &'a Pat,
    body: &'a Exp,
    behind: &'a [(Pat, Exp)],
) -> Result<(), Stop>
    requires whole { arms.now ≡ front.now ++ (pattern.now, body.now) ∷ behind.now }
    requires all_open { arm_walks_open (arm_walks (signatures_in at.now) front.now) ≡ true }
    requires is_closed { (walk (signatures_in at.now) body.now).is_open ≡ false }
    ensures ok { OnOk result (run tasks.new at.now ≡ given (step (OwnArmsTask arms.entry) at.now) (run tasks.old)) }
    ensures none { IfErr result (λ stop. stop ≡ NoMemory) }
{
    let count = at.environment.variables();
    first(
        tasks,
        &[
            Task::Match(pattern),
            Task::Own(body),
            Task::Leave(count),
            Task::Cores(CoreTask::Arm),
            Task::Arms(front),
            Task::Cores(CoreTask::LiftArm(front.len())),
            Task::Arms(behind),
        ],
    )
}

/// An element of the last core, a vector.
#[tactic(auto, using(crate::proofs::Lists::vector_steps))]
pub(crate) fn index_tasks<'a>(
    at: &Elaboration<'a>,
    tasks: &mut Stack<Task<'a>>,
    b: &'a Exp,
) -> Result<(), Stop>
    ensures ok { OnOk result (run tasks.new at.now ≡ given (step (IndexTask b.entry) at.now) (run tasks.old)) }
    ensures none { IfErr result (λ stop. stop ≡ NoType → step (IndexTask b.entry) at.now ≡ None) }
{
    let _count = at.expect_vector()?;
    first(
        tasks,
        &[
            Task::Own(b),
            Task::Types(TypeTask::IsNumber),
            Task::Cores(CoreTask::Element),
            Task::Types(TypeTask::Pop),
            Task::Types(TypeTask::PushItem),
            Task::Types(TypeTask::PopBelow),
        ],
    )
}

/// The last core, a vector, with another element.
#[tactic(auto, using(crate::proofs::Lists::vector_steps))]
pub(crate) fn update_tasks<'a>(
    at: &Elaboration<'a>,
    tasks: &mut Stack<Task<'a>>,
    b: &'a Exp,
    d: &'a Exp,
) -> Result<(), Stop>
    ensures ok { OnOk result (run tasks.new at.now ≡ given (step (UpdateTask b.entry d.entry) at.now) (run tasks.old)) }
    ensures none { IfErr result (λ stop. stop ≡ NoType → step (UpdateTask b.entry d.entry) at.now ≡ None) }
{
    let _count = at.expect_vector()?;
    first(
        tasks,
        &[
            Task::Own(b),
            Task::Types(TypeTask::IsNumber),
            Task::Types(TypeTask::RepeatBelow),
            Task::Types(TypeTask::PushItem),
            Task::Against(d),
            Task::Types(TypeTask::Pop),
            Task::Cores(CoreTask::Update),
            Task::Types(TypeTask::Pop),
            Task::Types(TypeTask::Pop),
        ],
    )
}
