//! The tasks of patterns.
ghost use Rattle.std.specs.Prelude.{◌≡◌, Some, None, map, OnOk, IfErr};
ghost use Rattle.hume_base.specs.declared.types.Ty.{out-Ty};
ghost use Rattle.hume_ast.specs.declared.tree.Pat.TheOpen as kind;
ghost use Rattle.check_scopes.specs.types.Contexts.{top};
ghost use Rattle.check_typing.specs.Partial.{given};
ghost use Rattle.check_typing.specs.Signatures.{con_named};
ghost use Rattle.check_typing.specs.Patterns.{pattern, pattern_step, con_bound, tuple_bound};
ghost use Rattle.check_tasks.specs.States.{State, types_in, signatures_in};
ghost use Rattle.check_tasks.specs.declared.task.Task.TheVariants.{MatchParts as MatchPartsTask};
ghost use Rattle.check_tasks.specs.Tasks.{run, step, bound_of};
ghost use Rattle.check_expressions.specs.declared.stop.Stop.TheVariants.{NoType, NoMemory};

use crate::elaboration::Elaboration;
use crate::first::first;
use crate::literals::{is_no_char, literal_of, truth_word};
use crate::stop::Stop;
use check_cores::Stack;
use check_scopes::types::Shape;
use check_tasks::{CoreTask, Task, TypeTask};
use hume_ast::Pat;
use hume_base::Text;

/// Puts the tasks of a pattern against the last type before the others.
#[tactic(auto, using(crate::proofs::Binding::pattern_steps))]
pub(crate) fn pattern_tasks<'a>(
    at: &mut Elaboration<'a>,
    tasks: &mut Stack<Task<'a>>,
    p: &'a Pat,
) -> Result<(), Stop>
    ensures ok { OnOk result (run tasks.new at.new ≡ given (bound_of (pattern (signatures_in at.old) p.now (top (types_in at.old))) at.old) (run tasks.old)) }
    ensures none { IfErr result (λ stop. stop ≡ NoType → pattern (signatures_in at.old) p.now (top (types_in at.old)) ≡ None) }
{
    match p {
        Pat::Name(name) => name_pattern(at, name),
        Pat::Any => any_pattern(at),
        Pat::Num(negative, amount) => number_pattern(at, *negative, *amount),
        Pat::Letter(byte) => letter_pattern(at, *byte),
        Pat::Truth(truth) => truth_pattern(at, *truth),
        Pat::Con(name, parts) => constructor_pattern(at, tasks, name, parts.as_slice()),
        Pat::Paren(inner) => paren_pattern(tasks, inner),
        Pat::Tuple(parts) => tuple_pattern(tasks, parts.as_slice()),
        Pat::Star => Err(Stop::NoType),
        Pat::AnyStar => Err(Stop::NoType),
    }
}

#[tactic(auto, using(crate::proofs::Binding::constructor_steps))]
fn constructor_pattern<'a>(
    at: &mut Elaboration<'a>,
    tasks: &mut Stack<Task<'a>>,
    name: &Text,
    parts: &'a [Pat],
) -> Result<(), Stop>
    ensures ok { OnOk result (run tasks.new at.new ≡ given (bound_of
        (con_bound (con_named name.now (signatures_in at.old)) (map (pattern (signatures_in at.old)) parts.now) (top (types_in at.old))) at.old)
        (run tasks.old)) }
    ensures none { IfErr result (λ stop. stop ≡ NoType → con_bound (con_named name.now (signatures_in at.old))
        (map (pattern (signatures_in at.old)) parts.now) (top (types_in at.old)) ≡ None) }
{
    let Shape::Named(expected) = at.environment.shape()? else {
        return Err(Stop::NoType);
    };
    let Some((sum, place)) = at.environment.push_constructor(name.bytes())? else {
        return Err(Stop::NoType);
    };
    if sum != expected {
        return Err(Stop::NoType);
    }
    first(
        tasks,
        &[
            Task::MatchParts(parts, 0),
            Task::Types(TypeTask::Pop),
            Task::Cores(CoreTask::SameConstructor(place, parts.len())),
        ],
    )
}

#[tactic(auto, using(crate::proofs::Binding::tuple_steps))]
fn tuple_pattern<'a>(tasks: &mut Stack<Task<'a>>, parts: &'a [Pat]) -> Result<(), Stop>
    ensures ok { OnOk result ((state : State) → run tasks.new state ≡ given (bound_of
        (tuple_bound (map (pattern (signatures_in state)) parts.now) (out-Ty (top (types_in state)))) state) (run tasks.old)) }
    ensures none { IfErr result (λ stop. stop ≡ NoMemory) }
{
    first(
        tasks,
        &[
            Task::MatchParts(parts, 0),
            Task::Cores(CoreTask::SameTuple(parts.len())),
        ],
    )
}

#[tactic(auto, using(crate::proofs::Binding::part_steps))]
fn paren_pattern<'a>(tasks: &mut Stack<Task<'a>>, inner: &'a Pat) -> Result<(), Stop>
    ensures ok { OnOk result ((state : State) → run tasks.new state ≡ given (bound_of (pattern (signatures_in state) inner.now (top (types_in state))) state)
        (run tasks.old)) }
    ensures none { IfErr result (λ stop. stop ≡ NoMemory) }
{
    first(tasks, &[Task::Match(inner)])
}

/// Patterns against the parts of the last type, a tuple, from one on. There must be as many.
#[tactic(auto, using(crate::proofs::Binding::parts_steps))]
pub(crate) fn match_parts_tasks<'a>(
    at: &Elaboration<'a>,
    tasks: &mut Stack<Task<'a>>,
    parts: &'a [Pat],
    place: usize,
) -> Result<(), Stop>
    ensures ok { OnOk result (run tasks.new at.now ≡ given (step (MatchPartsTask parts.entry place) at.now) (run tasks.old)) }
    ensures none { IfErr result (λ stop. stop ≡ NoType → step (MatchPartsTask parts.entry place) at.now ≡ None) }
{
    let count = at.expect_tuple()?;
    match parts.split_first() {
        None => {
            if place < count {
                return Err(Stop::NoType);
            }
            Ok(())
        }
        Some((part, rest)) => {
            if place >= count {
                return Err(Stop::NoType);
            }
            first(
                tasks,
                &[
                    Task::Types(TypeTask::PushPart(place)),
                    Task::Match(part),
                    Task::Types(TypeTask::Pop),
                    Task::MatchParts(rest, place + 1),
                ],
            )
        }
    }
}

#[tactic(auto, using(crate::proofs::Binding::leaf_steps))]
fn name_pattern<'a>(at: &mut Elaboration<'a>, name: &'a Text) -> Result<(), Stop>
    ensures ok { OnOk result (bound_of (pattern_step (signatures_in at.old) (kind.Name name.now) (top (types_in at.old))) at.old ≡ Some at.new) }
    ensures none { IfErr result (λ stop. stop ≡ NoMemory) }
{
    at.environment.repeat()?;
    at.environment.enter(name.bytes())?;
    at.builder.any_name()?;
    Ok(())
}

#[tactic(auto, using(crate::proofs::Binding::leaf_steps))]
fn any_pattern(at: &mut Elaboration) -> Result<(), Stop>
    ensures ok { OnOk result (bound_of (pattern_step (signatures_in at.old) kind.Any (top (types_in at.old))) at.old ≡ Some at.new) }
    ensures none { IfErr result (λ stop. stop ≡ NoMemory) }
{
    at.builder.any_value()?;
    Ok(())
}

#[tactic(auto, using(crate::proofs::Binding::leaf_steps))]
fn number_pattern(at: &mut Elaboration, negative: bool, amount: u64) -> Result<(), Stop>
    ensures ok { OnOk result (bound_of (pattern_step (signatures_in at.old) (kind.Num negative amount) (top (types_in at.old))) at.old ≡ Some at.new) }
    ensures none { IfErr result (λ stop. stop ≡ NoType → pattern_step (signatures_in at.old) (kind.Num negative amount) (top (types_in at.old)) ≡ None) }
{
    let shape = at.environment.shape()?;
    match literal_of(shape, negative, amount) {
        None => Err(Stop::NoType),
        Some((word, too_wide)) => {
            at.builder.same_word(word, too_wide)?;
            Ok(())
        }
    }
}

#[tactic(auto, using(crate::proofs::Binding::leaf_steps))]
fn letter_pattern(at: &mut Elaboration, byte: u8) -> Result<(), Stop>
    ensures ok { OnOk result (bound_of (pattern_step (signatures_in at.old) (kind.Letter byte) (top (types_in at.old))) at.old ≡ Some at.new) }
    ensures none { IfErr result (λ stop. stop ≡ NoType → pattern_step (signatures_in at.old) (kind.Letter byte) (top (types_in at.old)) ≡ None) }
{
    match at.environment.shape()? {
        Shape::Char => {
            at.builder.same_word(u64::from(byte), is_no_char(byte))?;
            Ok(())
        }
        _ => Err(Stop::NoType),
    }
}

#[tactic(auto, using(crate::proofs::Binding::leaf_steps))]
fn truth_pattern(at: &mut Elaboration, truth: bool) -> Result<(), Stop>
    ensures ok { OnOk result (bound_of (pattern_step (signatures_in at.old) (kind.Truth truth) (top (types_in at.old))) at.old ≡ Some at.new) }
    ensures none { IfErr result (λ stop. stop ≡ NoType → pattern_step (signatures_in at.old) (kind.Truth truth) (top (types_in at.old)) ≡ None) }
{
    match at.environment.shape()? {
        Shape::Bool => {
            at.builder.same_word(truth_word(truth), false)?;
            Ok(())
        }
        _ => Err(Stop::NoType),
    }
}
