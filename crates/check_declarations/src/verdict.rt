//! The trees of a declaration, or the rule that it breaks.
ghost use Rattle.std.specs.Prelude.{◌≡◌, Some, None, IfOk, IfErr, OnOk};
ghost use Rattle.check_typing.specs.inner.DeclarationWalk.{declaration_walk};
ghost use Rattle.check_tasks.specs.States.{signatures_in};
ghost use Rattle.check_expressions.specs.declared.stop.Stop.TheVariants.{NoType};
ghost use Rattle.check_declarations.specs.inner.Verdicts.{verdict_on};

use crate::boxes::box_cores;
use crate::functions::function_cores;
use crate::results::ResultElaboration;
use check_expressions::Stop;
use hume_ast::Decl;
use hume_base::Rule;
use std::alloc::{AllocError, Global};
use typed_core::TypedDeclaration;

/// The trees of the declaration, or the rule that it breaks. Where it breaks one, nothing is said of the elaboration.
#[tactic(auto, using(crate::proofs::VerdictLaws::verdict_steps))]
pub(crate) fn verdict_of<'a>(
    alloc: Global,
    at: &mut ResultElaboration<'a>,
    decl: &'a Decl,
) -> Result<Result<TypedDeclaration, Rule>, AllocError>
    ensures is { IfOk result (λ found. found ≡ verdict_on (declaration_walk (signatures_in at.old.0) decl.now)) }
    ensures keeps { IfOk result (λ found. OnOk found (at.new ≡ at.old)) }
{
    match cored_declaration(alloc, at, decl) {
        Ok((trees, false)) => Ok(Ok(trees)),
        Ok((_, true)) => Ok(Err(Rule::C41)),
        Err(Stop::NoType) => Ok(Err(Rule::C40)),
        Err(Stop::NoMemory) => Err(AllocError),
    }
}

// The trees of the declaration, and whether a literal in it is out of the range of its type.
#[tactic(auto, using(crate::proofs::VerdictLaws::declaration_steps))]
fn cored_declaration<'a>(
    alloc: Global,
    at: &mut ResultElaboration<'a>,
    decl: &'a Decl,
) -> Result<(TypedDeclaration, bool), Stop>
    ensures keeps { OnOk result (at.new ≡ at.old) }
    ensures ok { IfOk result (λ found. declaration_walk (signatures_in at.old.0) decl.now ≡ Some found) }
    ensures none { IfErr result (λ stop. stop ≡ NoType → declaration_walk (signatures_in at.old.0) decl.now ≡ None) }
{
    match decl {
        Decl::Fun(_, types, equations) => {
            let (cores, too_wide) = function_cores(
                alloc,
                &mut at.plain,
                types.as_slice(),
                equations.as_slice(),
            )?;
            Ok((TypedDeclaration::Equations(cores), too_wide))
        }
        Decl::BoxD(_, inputs, outputs, _, rules, handlers) => {
            let found = box_cores(
                alloc,
                at,
                inputs.as_slice(),
                outputs.as_slice(),
                rules.as_slice(),
                handlers.as_slice(),
            )?;
            Ok((
                TypedDeclaration::Rules(found.rules, found.handlers),
                found.too_wide,
            ))
        }
        Decl::Sum(_, _) => Ok((TypedDeclaration::NoTrees, false)),
        Decl::Exn(_, _) => Ok((TypedDeclaration::NoTrees, false)),
        Decl::Stream(_, _, _) => Ok((TypedDeclaration::NoTrees, false)),
        Decl::Wire(_, _, _, _) => Ok((TypedDeclaration::NoTrees, false)),
    }
}
