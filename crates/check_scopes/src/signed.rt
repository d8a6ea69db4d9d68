//! The types of signatures, each with its number from the start.
ghost use Rattle.std.specs.Prelude.{◌≡◌, ◌∷◌, [], ◌++◌, map, reverse, OnOk, IfOk};
ghost use Rattle.hume_base.specs.declared.types.Ty.{Tuple as TupleTy};
ghost use Rattle.check_scopes.specs.Known.{signature_type};
ghost use Rattle.check_scopes.specs.inner.Kept.{kept_types, type_or_bool, carried_type, fields_type, constructor_types};

use crate::types::{Context, Node};
use check_typing::{Signature, Signatures};
use hume_base::{ConDef, Shared, SumDef, Ty};
use hume_model::ExnDef;
use std::alloc::{AllocError, Global};

/// A context without variables that keeps the types of the signatures.
#[tactic(auto, using(crate::proofs::Keeping::keeping_steps))]
pub(crate) fn signed_context<'a>(
    alloc: Global,
    signatures: &Signatures,
) -> Result<Context<'a>, AllocError>
    ensures { IfOk result (λ context. context ≡ ([], [], kept_types signatures.now)) }
{
    let mut context = Context::new(alloc);
    keep_signatures(alloc, &mut context, signatures)?;
    Ok(context)
}

#[tactic(auto, using(crate::proofs::Keeping::keeping_steps))]
fn keep_signatures(
    alloc: Global,
    context: &mut Context,
    signatures: &Signatures,
) -> Result<(), AllocError>
    ensures { OnOk result (context.new ≡ (context.old.0, context.old.1, context.old.2 ++ kept_types signatures.now)) }
{
    keep_functions(alloc, context, signatures.funs.as_slice())?;
    keep_exceptions(alloc, context, signatures.exns.as_slice())?;
    keep_data_types(alloc, context, signatures.types.sums.as_slice())
}

#[tactic(auto, using(crate::proofs::Keeping::keeping_steps))]
fn keep_functions(
    alloc: Global,
    context: &mut Context,
    functions: &[Signature],
) -> Result<(), AllocError>
    ensures { OnOk result (context.new ≡ (context.old.0, context.old.1, context.old.2 ++ map signature_type functions.now)) }
{
    for function in functions {
        keep_function(alloc, context, function)?;
    }
    Ok(())
}

#[tactic(auto, using(crate::proofs::Keeping::keeping_steps))]
fn keep_function(
    alloc: Global,
    context: &mut Context,
    function: &Signature,
) -> Result<(), AllocError>
    ensures { OnOk result (context.new ≡ (context.old.0, context.old.1, context.old.2 ++ signature_type function.now ∷ [])) }
{
    push_tuple(alloc, context, function.params.as_slice())?;
    context.push_tree(alloc, &function.gives)?;
    context.tuple(2)?;
    context.keep()
}

#[tactic(auto, using(crate::proofs::Keeping::keeping_steps))]
fn keep_exceptions(
    alloc: Global,
    context: &mut Context,
    exceptions: &[ExnDef],
) -> Result<(), AllocError>
    ensures { OnOk result (context.new ≡ (context.old.0, context.old.1, context.old.2 ++ map carried_type exceptions.now)) }
{
    for exception in exceptions {
        keep_carried(alloc, context, &exception.carries)?;
    }
    Ok(())
}

fn keep_carried(
    alloc: Global,
    context: &mut Context,
    carries: &Option<Ty>,
) -> Result<(), AllocError>
    ensures { OnOk result (context.new ≡ (context.old.0, context.old.1, context.old.2 ++ type_or_bool carries.now ∷ [])) }
{
    match carries {
        None => context.push(Node::Bool)?,
        Some(ty) => context.push_tree(alloc, ty)?,
    }
    context.keep()
}

#[tactic(auto, using(crate::proofs::Keeping::keeping_steps))]
fn keep_data_types(
    alloc: Global,
    context: &mut Context,
    data_types: &[SumDef],
) -> Result<(), AllocError>
    ensures { OnOk result (context.new ≡ (context.old.0, context.old.1, context.old.2 ++ constructor_types data_types.now)) }
{
    for data_type in data_types {
        keep_constructors(alloc, context, data_type.cons.as_slice())?;
    }
    Ok(())
}

#[tactic(auto, using(crate::proofs::Keeping::keeping_steps))]
fn keep_constructors(
    alloc: Global,
    context: &mut Context,
    constructors: &[ConDef],
) -> Result<(), AllocError>
    ensures { OnOk result (context.new ≡ (context.old.0, context.old.1, context.old.2 ++ map fields_type constructors.now)) }
{
    for constructor in constructors {
        push_tuple(alloc, context, constructor.fields.as_slice())?;
        context.keep()?;
    }
    Ok(())
}

#[tactic(auto, using(crate::proofs::Keeping::keeping_steps))]
fn push_tuple(alloc: Global, context: &mut Context, types: &[Shared<Ty>]) -> Result<(), AllocError>
    ensures { OnOk result (context.new ≡ (context.old.0, TupleTy types.now ∷ context.old.1, context.old.2)) }
{
    push_all(alloc, context, types)?;
    context.tuple(types.len())
}

#[tactic(auto, using(crate::proofs::Keeping::keeping_steps))]
fn push_all(alloc: Global, context: &mut Context, types: &[Shared<Ty>]) -> Result<(), AllocError>
    ensures { OnOk result (context.new ≡ (context.old.0, reverse types.now ++ context.old.1, context.old.2)) }
{
    for ty in types {
        context.push_tree(alloc, ty)?;
    }
    Ok(())
}
