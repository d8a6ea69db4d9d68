//! The equations of a function whose types are the last ones of the stack.
ghost use Rattle.std.specs.Prelude.{◌≡◌, [], false, Some, None, OnOk, IfOk, IfErr};
ghost use Rattle.check_expressions.specs.declared.stop.Stop.TheVariants.{NoType};
ghost use Rattle.check_declarations.specs.functions.inner.Equations.{with_equation, equation_at, equations_at, together};

use check_expressions::{Elaboration, Stop, against, perform_one};
use check_tasks::Task;
use hume_ast::{Exp, Pat};
use hume_base::{List, Text};
use std::alloc::Global;
use typed_core::TypedEquation;

/// The trees of equations, and whether a literal in one of them is out of the range of its type.
#[tactic(auto, using(crate::proofs::functions_lemmas::FunctionLaws::equations_steps))]
pub(crate) fn equation_cores<'a>(
    alloc: Global,
    at: &mut Elaboration<'a>,
    equations: &'a [(Text, List<Pat>, Exp)],
) -> Result<(List<TypedEquation>, bool), Stop>
    ensures keeps { OnOk result (at.new ≡ at.old) }
    ensures ok { IfOk result (λ found. together ([], false) (equations_at at.old equations.now) ≡ Some found) }
    ensures none { IfErr result (λ stop. stop ≡ NoType → together ([], false) (equations_at at.old equations.now) ≡ None) }
{
    let mut cores = List::new(alloc);
    let mut some_too_wide = false;
    for equation in equations {
        let (core, too_wide) = equation_core(alloc, at, equation.1.as_slice(), &equation.2)?;
        cores.push(core)?;
        some_too_wide = some_too_wide || too_wide;
    }
    Ok((cores, some_too_wide))
}

// The tree of an equation, and whether a literal in it is out of the range of its type.
#[tactic(auto, using(crate::proofs::functions_lemmas::EquationLaws::found_steps))]
fn equation_core<'a>(
    alloc: Global,
    at: &mut Elaboration<'a>,
    patterns: &'a [Pat],
    body: &'a Exp,
) -> Result<(TypedEquation, bool), Stop>
    ensures keeps { OnOk result (at.new ≡ at.old) }
    ensures ok { IfOk result (λ found. equation_at at.old patterns.now body.now ≡ Some found) }
    ensures none { IfErr result (λ stop. stop ≡ NoType → equation_at at.old patterns.now body.now ≡ None) }
{
    let count = at.environment.variables();
    check_equation(alloc, at, patterns, body)?;
    at.environment.leave(count);
    let (body, body_too_wide) = at.builder.take_core()?;
    let (pats, pats_too_wide) = at.builder.take_patterns(alloc, patterns.len())?;
    let body = body.into_inner();
    Ok((TypedEquation { pats, body }, pats_too_wide || body_too_wide))
}

// The patterns against the types of the parameters, and the body against the type that is given.
#[tactic(auto, using(crate::proofs::functions_lemmas::EquationLaws::checked_steps))]
fn check_equation<'a>(
    alloc: Global,
    at: &mut Elaboration<'a>,
    patterns: &'a [Pat],
    body: &'a Exp,
) -> Result<(), Stop>
    ensures ok { OnOk result (with_equation patterns.now body.now at.old ≡ Some at.new) }
    ensures none { IfErr result (λ stop. stop ≡ NoType → with_equation patterns.now body.now at.old ≡ None) }
{
    at.environment.repeat_below()?;
    perform_one(alloc, at, Task::MatchParts(patterns, 0))?;
    at.environment.pop();
    against(alloc, at, body)
}
