//! Functions from their types and equations to trees.
ghost use Rattle.std.specs.Prelude.{◌≡◌, ℕ, List as ListOf, Some, None, OnOk, IfOk, IfErr};
ghost use Rattle.check_typing.specs.inner.DeclarationWalk.{function_walk};
ghost use Rattle.check_tasks.specs.States.{signatures_in};
ghost use Rattle.check_expressions.specs.declared.stop.Stop.TheVariants.{NoType};
ghost use Rattle.check_declarations.specs.functions.inner.Functions.{found_together};

use crate::functions::equations::equation_cores;
use crate::functions::signature::push_signature;
use check_expressions::{Elaboration, Stop};
use hume_ast::{Exp, Pat, TyExp};
use hume_base::{List, Text};
use std::alloc::Global;
use typed_core::TypedEquation;

/// The trees of the equations of a function, and whether a literal in one of them is out of the range of its type. Where
/// variables are in scope it is answered with want of memory, as a function sees none.
#[tactic(auto, using(crate::proofs::functions_lemmas::FunctionLaws::function_steps))]
pub(crate) fn function_cores<'a>(
    alloc: Global,
    at: &mut Elaboration<'a>,
    types: &[TyExp],
    equations: &'a [(Text, List<Pat>, Exp)],
) -> Result<(List<TypedEquation>, bool), Stop>
    ensures keeps { OnOk result (at.new ≡ at.old) }
    ensures ok { IfOk result (λ found. (name : ListOf ℕ) → found_together (function_walk (signatures_in at.old) name types.now equations.now) ≡ Some found) }
    ensures none { IfErr result (λ stop. stop ≡ NoType → (name : ListOf ℕ) → function_walk (signatures_in at.old) name types.now equations.now ≡ None) }
{
    if at.environment.variables() != 0 {
        return Err(Stop::NoMemory);
    }
    push_signature(at, types)?;
    let found = equation_cores(alloc, at, equations)?;
    at.environment.pop();
    at.environment.pop();
    Ok(found)
}
