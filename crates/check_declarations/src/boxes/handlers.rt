//! The handlers of a box whose types are the last ones of the stack.
ghost use Rattle.std.specs.Prelude.{◌≡◌, [], false, Some, None, OnOk, IfOk, IfErr};
ghost use Rattle.check_expressions.specs.declared.stop.Stop.TheVariants.{NoType};
ghost use Rattle.check_declarations.specs.boxes.inner.Rules.{together};
ghost use Rattle.check_declarations.specs.boxes.inner.Handlers.{with_carried, with_caught, with_handler, handler_at, handlers_at};

use crate::results::ResultElaboration;
use check_expressions::Stop;
use check_scopes::Environment;
use hume_ast::{Exp, Pat};
use hume_base::{List, Text};
use std::alloc::Global;
use typed_core::TypedHandler;

/// A handler: its exception, what it says of what that carries, and its result.
type Handler = (Text, Option<Pat>, Exp);

/// The trees of handlers, and whether a literal in one of them is out of the range of its type.
#[tactic(auto, using(crate::proofs::boxes_lemmas::Lists::handlers_steps))]
pub(crate) fn handler_cores<'a>(
    alloc: Global,
    at: &mut ResultElaboration<'a>,
    handlers: &'a [Handler],
) -> Result<(List<TypedHandler>, bool), Stop>
    ensures keeps { OnOk result (at.new ≡ at.old) }
    ensures ok { IfOk result (λ found. together ([], false) (handlers_at at.old handlers.now) ≡ Some found) }
    ensures none { IfErr result (λ stop. stop ≡ NoType → together ([], false) (handlers_at at.old handlers.now) ≡ None) }
{
    let mut cores = List::new(alloc);
    let mut some_too_wide = false;
    for handler in handlers {
        let (core, too_wide) = handler_core(alloc, at, handler)?;
        cores.push(core)?;
        some_too_wide = some_too_wide || too_wide;
    }
    Ok((cores, some_too_wide))
}

// The tree of a handler, and whether a literal in it is out of the range of its type.
#[tactic(auto, using(crate::proofs::boxes_lemmas::HandlerLaws::found_steps))]
fn handler_core<'a>(
    alloc: Global,
    at: &mut ResultElaboration<'a>,
    handler: &'a Handler,
) -> Result<(TypedHandler, bool), Stop>
    ensures keeps { OnOk result (at.new ≡ at.old) }
    ensures ok { IfOk result (λ found. handler_at at.old handler.now ≡ Some found) }
    ensures none { IfErr result (λ stop. stop ≡ NoType → handler_at at.old handler.now ≡ None) }
{
    let count = at.plain.environment.variables();
    let (exn, bound) = check_handler(alloc, at, handler)?;
    at.plain.environment.leave(count);
    let (result, too_wide) = at.take_result()?;
    let result = result.into_inner();
    Ok((TypedHandler { exn, bound, result }, too_wide))
}

// What is carried is brought into scope, and the result is checked against the types of the outputs.
#[tactic(auto, using(crate::proofs::boxes_lemmas::HandlerLaws::checked_steps))]
fn check_handler<'a>(
    alloc: Global,
    at: &mut ResultElaboration<'a>,
    handler: &'a Handler,
) -> Result<(u32, bool), Stop>
    ensures ok { IfOk result (λ found. with_handler handler.now at.old ≡ Some (found, at.new)) }
    ensures none { IfErr result (λ stop. stop ≡ NoType → with_handler handler.now at.old ≡ None) }
{
    let found = caught(&mut at.plain.environment, handler.0.bytes(), &handler.1)?;
    at.result(alloc, &handler.2)?;
    Ok(found)
}

// The number of the exception, and whether what it carries is bound: then it is a variable in scope.
#[tactic(auto, using(crate::proofs::boxes_lemmas::HandlerLaws::caught_steps))]
fn caught<'a>(
    at: &mut Environment<'a>,
    name: &[u8],
    pat: &'a Option<Pat>,
) -> Result<(u32, bool), Stop>
    ensures ok { IfOk result (λ found. with_caught name.now pat.now at.old ≡ Some (found, at.new)) }
    ensures none { IfErr result (λ stop. stop ≡ NoType → with_caught name.now pat.now at.old ≡ None) }
{
    match (at.push_exception(name)?, pat) {
        (Some((number, false)), None) => Ok((number, false)),
        (Some((number, true)), Some(pat)) => {
            let bound = carried(at, pat)?;
            Ok((number, bound))
        }
        (Some((_, false)), Some(_)) => Err(Stop::NoType),
        (Some((_, true)), None) => Err(Stop::NoType),
        (None, _) => Err(Stop::NoType),
    }
}

// Whether what is carried, of the last type, is bound.
#[tactic(auto, using(crate::proofs::boxes_lemmas::HandlerLaws::carried_steps))]
fn carried<'a>(at: &mut Environment<'a>, pat: &'a Pat) -> Result<bool, Stop>
    ensures ok { IfOk result (λ bound. with_carried pat.now at.old ≡ Some (bound, at.new)) }
    ensures none { IfErr result (λ stop. stop ≡ NoType → with_carried pat.now at.old ≡ None) }
{
    match pat {
        Pat::Name(name) => {
            at.enter(name.bytes())?;
            Ok(true)
        }
        Pat::Any => {
            at.pop();
            Ok(false)
        }
        Pat::Num(_, _) => Err(Stop::NoType),
        Pat::Letter(_) => Err(Stop::NoType),
        Pat::Truth(_) => Err(Stop::NoType),
        Pat::Con(_, _) => Err(Stop::NoType),
        Pat::Paren(_) => Err(Stop::NoType),
        Pat::Tuple(_) => Err(Stop::NoType),
        Pat::Star => Err(Stop::NoType),
        Pat::AnyStar => Err(Stop::NoType),
    }
}
