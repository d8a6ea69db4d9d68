//! What stands at the positions of a rule.
ghost use Rattle.std.specs.Prelude.{◌≡◌, Some, None, OnOk, IfOk, IfErr};
ghost use Rattle.hume_ast.specs.declared.tree.Pat.{out-Pat};
ghost use Rattle.check_scopes.specs.types.Contexts.{top};
ghost use Rattle.check_typing.specs.inner.Walk.{tuple_parts};
ghost use Rattle.check_tasks.specs.States.{types_in};
ghost use Rattle.check_expressions.specs.declared.stop.Stop.TheVariants.{NoType};
ghost use Rattle.check_declarations.specs.boxes.inner.Rules.{HasParts, bare as bare_position, with_position, with_position_of, with_positions};

use check_expressions::{Elaboration, Stop, perform_one};
use check_scopes::types::Shape;
use check_tasks::Task;
use hume_ast::Pat;
use hume_base::List;
use hume_model::InPat;
use std::alloc::Global;

/// The cores of the positions against the parts of the last type, a tuple with as many, and whether a literal in one of them is
/// out of the range of its type. Their variables come into scope.
#[tactic(auto, using(crate::proofs::boxes_lemmas::PositionLaws::positions_steps))]
pub(crate) fn positions<'a>(
    alloc: Global,
    at: &mut Elaboration<'a>,
    pats: &'a [Pat],
) -> Result<(List<InPat>, bool), Stop>
    ensures ok { IfOk result (λ found. with_positions pats.now at.old ≡ Some (found, at.new)) }
    ensures none { IfErr result (λ stop. stop ≡ NoType → with_positions pats.now at.old ≡ None) }
{
    if count_parts(at)? != pats.len() {
        return Err(Stop::NoType);
    }
    let mut cores = List::new(alloc);
    let mut some_too_wide = false;
    for (place, pat) in pats.iter().enumerate() {
        let (core, too_wide) = position_of(alloc, at, pat, place)?;
        cores.push(core)?;
        some_too_wide = some_too_wide || too_wide;
    }
    Ok((cores, some_too_wide))
}

// How many parts the last type has, which must be a tuple.
#[tactic(auto, using(crate::proofs::boxes_lemmas::PositionLaws::count_steps))]
fn count_parts(at: &Elaboration) -> Result<usize, Stop>
    ensures count { IfOk result (λ count. HasParts count at.now) }
    ensures none { IfErr result (λ stop. stop ≡ NoType → tuple_parts (top (types_in at.now)) ≡ None) }
{
    match at.environment.shape()? {
        Shape::Tuple(count) => Ok(count),
        _ => Err(Stop::NoType),
    }
}

// What stands at a position, against a part of the last type.
#[tactic(auto, using(crate::proofs::boxes_lemmas::PositionLaws::part_steps))]
fn position_of<'a>(
    alloc: Global,
    at: &mut Elaboration<'a>,
    pat: &'a Pat,
    place: usize,
) -> Result<(InPat, bool), Stop>
    ensures ok { IfOk result (λ found. with_position_of place pat.now at.old ≡ Some (found, at.new)) }
    ensures none { IfErr result (λ stop. stop ≡ NoType → with_position_of place pat.now at.old ≡ None) }
{
    at.environment.push_part(place)?;
    let found = position(alloc, at, pat)?;
    at.environment.pop();
    Ok(found)
}

// What stands at a position, against the last type.
#[tactic(auto, using(crate::proofs::boxes_lemmas::PositionLaws::position_steps))]
fn position<'a>(
    alloc: Global,
    at: &mut Elaboration<'a>,
    pat: &'a Pat,
) -> Result<(InPat, bool), Stop>
    ensures ok { IfOk result (λ found. with_position pat.now at.old ≡ Some (found, at.new)) }
    ensures none { IfErr result (λ stop. stop ≡ NoType → with_position pat.now at.old ≡ None) }
{
    if let Some(core) = bare(pat) {
        return Ok((core, false));
    }
    perform_one(alloc, at, Task::Match(pat))?;
    let (core, too_wide) = at.builder.take_pattern()?;
    Ok((InPat::Built(core), too_wide))
}

// What stands at a position without a pattern.
#[tactic(auto, using(crate::proofs::boxes_lemmas::PositionLaws::bare_steps))]
fn bare(pat: &Pat) -> Option<InPat>
    ensures { result ≡ bare_position (out-Pat pat.now) }
{
    match pat {
        Pat::Star => Some(InPat::Star),
        Pat::AnyStar => Some(InPat::AnyStar),
        Pat::Any => Some(InPat::Any),
        Pat::Name(_) => None,
        Pat::Num(_, _) => None,
        Pat::Letter(_) => None,
        Pat::Truth(_) => None,
        Pat::Con(_, _) => None,
        Pat::Paren(_) => None,
        Pat::Tuple(_) => None,
    }
}
