//! The types that a function is written with.
ghost use Rattle.std.specs.Prelude.{◌≡◌, Some, None, OnOk, IfErr};
ghost use Rattle.check_expressions.specs.declared.stop.Stop.TheVariants.{NoType};
ghost use Rattle.check_declarations.specs.functions.inner.Functions.{with_signature};

use check_expressions::{Elaboration, Stop};
use hume_ast::TyExp;

/// Puts the types of the parameters on the stack as one tuple, and on top of it the type that the function gives.
#[tactic(auto, using(crate::proofs::functions_lemmas::SignatureLaws::signature_steps))]
pub(crate) fn push_signature(at: &mut Elaboration, types: &[TyExp]) -> Result<(), Stop>
    ensures ok { OnOk result (with_signature types.now at.old ≡ Some at.new) }
    ensures none { IfErr result (λ stop. stop ≡ NoType → with_signature types.now at.old ≡ None) }
{
    let Some((gives, params)) = types.split_last() else {
        return Err(Stop::NoType);
    };
    if !at.environment.push_written_tuple(params)? {
        return Err(Stop::NoType);
    }
    if !at.environment.push_written(gives)? {
        return Err(Stop::NoType);
    }
    Ok(())
}
