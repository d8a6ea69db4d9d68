//! The tasks of forms that name something.
ghost use Rattle.std.specs.Prelude.{◌≡◌, [], ◌∷◌, List, Some, None, OnOk, IfErr};
ghost use Rattle.hume_ast.specs.declared.tree.Exp.{Exp as Expression};
ghost use Rattle.check_typing.specs.Partial.{given};
ghost use Rattle.check_typing.specs.Signatures.{exn_named};
ghost use Rattle.check_typing.specs.Cores.{raise_core, raise_with_core};
ghost use Rattle.check_typing.specs.inner.Walk.{walk, app_walk, con_walk, cast_walk, raise_walk, raise_with_walk, raised_alone, raised_with};
ghost use Rattle.check_tasks.specs.States.{scope_in, signatures_in};
ghost use Rattle.check_tasks.specs.Tasks.{run, own_of, against_of, walks};
ghost use Rattle.check_expressions.specs.declared.stop.Stop.TheVariants.{NoType};

use crate::elaboration::Elaboration;
use crate::first::first;
use crate::numbers::number_node;
use crate::stop::Stop;
use check_cores::Stack;
use check_scopes::types::Node;
use check_tasks::{CoreTask, Task, TypeTask};
use hume_ast::{Exp, TyExp};
use hume_base::Text;

/// A variable by itself.
#[tactic(auto, using(crate::proofs::Named::named_steps))]
pub(crate) fn variable_own(at: &mut Elaboration, name: &Text) -> Result<(), Stop>
    ensures ok { OnOk result (own_of ((app_walk (signatures_in at.old) name.now []).own (scope_in at.old)) at.old ≡ Some at.new) }
    ensures none { IfErr result (λ stop. stop ≡ NoType → (app_walk (signatures_in at.old) name.now []).own (scope_in at.old) ≡ None) }
{
    let Some(number) = at.environment.find(name.bytes())? else {
        return Err(Stop::NoType);
    };
    at.builder.variable(number)?;
    Ok(())
}

/// A call of a function by itself.
#[tactic(auto, using(crate::proofs::Named::named_steps))]
pub(crate) fn call_own<'a>(
    at: &mut Elaboration<'a>,
    tasks: &mut Stack<Task<'a>>,
    name: &Text,
    parts: &'a [Exp],
) -> Result<(), Stop>
    ensures ok { (part : Expression) (rest : List Expression) → parts.now ≡ part ∷ rest
        → OnOk result (run tasks.new at.new ≡ given (own_of ((app_walk (signatures_in at.old) name.now (walks (signatures_in at.old) parts.now)).own
        (scope_in at.old)) at.old) (run tasks.old)) }
    ensures none { (part : Expression) (rest : List Expression) → parts.now ≡ part ∷ rest
        → IfErr result (λ stop. stop ≡ NoType → (app_walk (signatures_in at.old) name.now (walks (signatures_in at.old) parts.now)).own (scope_in at.old)
        ≡ None) }
{
    let Some(number) = at.environment.push_function(name.bytes())? else {
        return Err(Stop::NoType);
    };
    first(
        tasks,
        &[
            Task::Types(TypeTask::PushPart(0)),
            Task::Parts(parts, 0),
            Task::Types(TypeTask::Pop),
            Task::Types(TypeTask::PushPart(1)),
            Task::Types(TypeTask::PopBelow),
            Task::Cores(CoreTask::Call(number, parts.len())),
        ],
    )
}

/// A constructor by itself.
#[tactic(auto, using(crate::proofs::Named::named_steps))]
pub(crate) fn constructor_own<'a>(
    at: &mut Elaboration<'a>,
    tasks: &mut Stack<Task<'a>>,
    name: &Text,
    parts: &'a [Exp],
) -> Result<(), Stop>
    ensures ok { OnOk result (run tasks.new at.new ≡ given (own_of
        ((con_walk (signatures_in at.old) name.now (walks (signatures_in at.old) parts.now)).own (scope_in at.old)) at.old) (run tasks.old)) }
    ensures none { IfErr result (λ stop. stop ≡ NoType → (con_walk (signatures_in at.old) name.now (walks (signatures_in at.old) parts.now)).own
        (scope_in at.old) ≡ None) }
{
    let Some((sum, place)) = at.environment.push_constructor(name.bytes())? else {
        return Err(Stop::NoType);
    };
    first(
        tasks,
        &[
            Task::Parts(parts, 0),
            Task::Types(TypeTask::Pop),
            Task::Types(TypeTask::PushNamed(sum)),
            Task::Cores(CoreTask::Constructor(place, parts.len())),
        ],
    )
}

/// An exception that carries nothing.
#[tactic(auto, using(crate::proofs::Named::named_steps))]
pub(crate) fn raise_alone(at: &mut Elaboration, name: &Text) -> Result<(), Stop>
    ensures ok { OnOk result (against_of (given (raised_alone (exn_named name.now (signatures_in at.old))) (λ number. Some (raise_core number))) at.old
        ≡ Some at.new) }
    ensures none { IfErr result (λ stop. stop ≡ NoType → raised_alone (exn_named name.now (signatures_in at.old)) ≡ None) }
{
    match at.environment.push_exception(name.bytes())? {
        None => Err(Stop::NoType),
        Some((_, true)) => Err(Stop::NoType),
        Some((number, false)) => {
            at.builder.raise(number)?;
            Ok(())
        }
    }
}

/// An exception that carries nothing, by itself.
#[tactic(auto, using(crate::proofs::Named::opened_steps))]
pub(crate) fn raise_own(at: &mut Elaboration, name: &Text) -> Result<(), Stop>
    ensures ok { OnOk result (own_of ((raise_walk (signatures_in at.old) name.now).own (scope_in at.old)) at.old ≡ Some at.new) }
    ensures none { IfErr result (λ stop. stop ≡ NoType → (raise_walk (signatures_in at.old) name.now).own (scope_in at.old) ≡ None) }
{
    at.environment.push(Node::Int(32))?;
    raise_alone(at, name)
}

/// An exception with what it carries, by itself.
#[tactic(auto, using(crate::proofs::Named::opened_steps))]
pub(crate) fn raise_with_own<'a>(
    at: &mut Elaboration<'a>,
    tasks: &mut Stack<Task<'a>>,
    name: &Text,
    a: &'a Exp,
) -> Result<(), Stop>
    ensures ok { OnOk result (run tasks.new at.new ≡ given (own_of
        ((raise_with_walk (signatures_in at.old) name.now (walk (signatures_in at.old) a.now)).own (scope_in at.old)) at.old) (run tasks.old)) }
    ensures none { IfErr result (λ stop. stop ≡ NoType → (raise_with_walk (signatures_in at.old) name.now (walk (signatures_in at.old) a.now)).own
        (scope_in at.old) ≡ None) }
{
    at.environment.push(Node::Int(32))?;
    raise_with(at, tasks, name, a)
}

/// An exception with what it carries.
#[tactic(auto, using(crate::proofs::Named::named_steps))]
pub(crate) fn raise_with<'a>(
    at: &mut Elaboration<'a>,
    tasks: &mut Stack<Task<'a>>,
    name: &Text,
    a: &'a Exp,
) -> Result<(), Stop>
    ensures ok { OnOk result (run tasks.new at.new ≡ given (against_of
        (given (raised_with (exn_named name.now (signatures_in at.old)) (walk (signatures_in at.old) a.now) (scope_in at.old))
        (λ raised. Some (raise_with_core raised.0 raised.1))) at.old) (run tasks.old)) }
    ensures none { IfErr result (λ stop. stop ≡ NoType → given
        (raised_with (exn_named name.now (signatures_in at.old)) (walk (signatures_in at.old) a.now) (scope_in at.old))
        (λ raised. Some (raise_with_core raised.0 raised.1)) ≡ None) }
{
    match at.environment.push_exception(name.bytes())? {
        None => Err(Stop::NoType),
        Some((_, false)) => Err(Stop::NoType),
        Some((number, true)) => first(
            tasks,
            &[
                Task::Against(a),
                Task::Types(TypeTask::Pop),
                Task::Cores(CoreTask::RaiseWith(number)),
            ],
        ),
    }
}

/// A number as one of another type.
#[tactic(auto, using(crate::proofs::Named::named_steps))]
pub(crate) fn cast_own<'a>(
    at: &mut Elaboration<'a>,
    tasks: &mut Stack<Task<'a>>,
    a: &'a Exp,
    ty: &TyExp,
) -> Result<(), Stop>
    ensures ok { OnOk result (run tasks.new at.new ≡ given (own_of
        ((cast_walk (signatures_in at.old) (walk (signatures_in at.old) a.now) ty.now).own (scope_in at.old)) at.old) (run tasks.old)) }
    ensures none { IfErr result (λ stop. stop ≡ NoType → (cast_walk (signatures_in at.old) (walk (signatures_in at.old) a.now) ty.now).own (scope_in at.old)
        ≡ None) }
{
    let Some(node) = number_node(ty) else {
        return Err(Stop::NoType);
    };
    at.environment.push(node)?;
    first(
        tasks,
        &[
            Task::Own(a),
            Task::Types(TypeTask::IsNumber),
            Task::Cores(CoreTask::Conversion),
            Task::Types(TypeTask::Pop),
        ],
    )
}
