//! The functions of a core.
ghost use Rattle.std.specs.Prelude.{◌≡◌, IfOk};
ghost use Rattle.check_typing.specs.Declarations.{InPlaces};
ghost use Rattle.check_rules.specs.Declared.{function_of, in_order};
ghost use Rattle.check_rules.specs.CoreOf.{IsFunctionOf};
ghost use Rattle.hume_check.specs.inner.Trees.{HaveTrees};
ghost use Rattle.hume_check.specs.nodes.inner.Parts.{AreSigned, function_from};

use crate::nodes::declared::{FunctionParts, function_declared};
use check_scopes::signatures::SignatureTable;
use check_typing::Signature;
use hume_ast::Decl;
use hume_base::lines::LineTable;
use hume_base::{List, Shared, Ty, copy_ty};
use hume_model::FunC;
use std::alloc::{AllocError, Global};
use typed_core::{TypedDeclaration, erase_equations};

/// The functions of the declarations in the order of their numbers, in which their signatures are.
#[tactic(auto, using(crate::proofs::nodes_lemmas::FunctionLaws::order_steps))]
pub(crate) fn functions_in_order(
    alloc: Global,
    lines: &LineTable,
    decls: &[(u32, Decl)],
    trees: &[TypedDeclaration],
    order: &[u32],
    table: &SignatureTable,
) -> Result<List<FunC>, AllocError>
    requires trees { HaveTrees table.now decls.now trees.now }
    requires signed { AreSigned table.now.types (in_order function_of order.now decls.now) table.now.funs }
    ensures { IfOk result (InPlaces (IsFunctionOf lines.now table.now) (in_order function_of order.now decls.now)) }
{
    let signatures = table.signatures().funs.as_slice();
    let mut functions = List::new(alloc);
    for number in order {
        if let Some(parts) = function_declared(decls, trees, *number) {
            let signature = &signatures[functions.len()];
            functions.push(function_core(alloc, lines, parts, signature)?)?;
        }
    }
    Ok(functions)
}

// A function with its signature and what the trees of its equations erase to.
fn function_core(
    alloc: Global,
    lines: &LineTable,
    parts: FunctionParts,
    signature: &Signature,
) -> Result<FunC, AllocError>
    ensures { IfOk result (λ function. function ≡ function_from lines.now parts.entry signature.now) }
{
    Ok(FunC {
        name: signature.name.copy()?,
        line: lines.line(parts.place),
        params: parameters(alloc, signature.params.as_slice())?,
        gives: copy_ty(alloc, &signature.gives)?,
        equations: erase_equations(alloc, parts.equations)?,
    })
}

fn parameters(alloc: Global, params: &[Shared<Ty>]) -> Result<List<Ty>, AllocError>
    ensures { IfOk result (λ copies. copies ≡ params.now) }
{
    let mut copies = List::new(alloc);
    for ty in params {
        copies.push(copy_ty(alloc, ty)?)?;
    }
    Ok(copies)
}
