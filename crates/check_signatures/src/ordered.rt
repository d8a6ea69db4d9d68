ghost use Rattle.std.specs.Prelude.{◌≡◌, ℕ, ◌<◌, ◌^◌, length, None, IfOk, IfSome};
ghost use Rattle.check_typing.specs.declared.signatures.Signatures.{Signatures as SignaturesIn};
ghost use Rattle.check_tables.specs.graph.Orders.{IsOrder};
ghost use Rattle.check_names.specs.Leading.{graph_of};
ghost use Rattle.hume_base.specs.declared.finding.Finding.{Finding as BrokenRule};
ghost use Rattle.hume_ast.specs.Fits.{DeclsFit};
ghost use Rattle.check_names.specs.Misnamed.{BreaksNames};
ghost use Rattle.check_rules.specs.SignaturesOf.{AreSignatures};
ghost use Rattle.check_rules.specs.CheckRules.{BreaksCounts};
ghost use Rattle.check_signatures.specs.inner.Named.{AreWritten, IsUnwritten};

use crate::data_types::ordered_data_types;
use crate::exceptions::{all_exceptions, declared_exceptions};
use crate::functions::ordered_functions;
use crate::names::data_type_numbers;
use check_names::{NameKind, name_graph};
use check_tables::graph::order;
use check_tables::names::NameTable;
use check_typing::Signatures;
use hume_ast::Decl;
use hume_base::List;
use std::alloc::{AllocError, Global};

/// Signatures, and the numbers of the declarations in the order in which functions are numbered: declarations of
/// functions stand among others.
#[derive(Drop)]
pub struct Ordered {
    pub signatures: Signatures,
    pub functions: List<u32>,
}

/// The signatures of the declarations, if there are any. There are where no rule on names and counts is broken.
pub fn signatures_of(alloc: Global, decls: &[(u32, Decl)]) -> Result<Option<Ordered>, AllocError>
    requires { length decls.now < 2 ^ 32 }
    ensures are { IfOk result (λ found. IfSome found (λ ordered.
        (are : AreSignatures decls.now ordered.signatures) × (are.funs.order ≡ ordered.functions))) }
    ensures none { IfOk result (λ found. found ≡ None → (other : SignaturesIn) → AreSignatures decls.now other → ⊥) }
    ensures fine { IfOk result (λ found. (bound : ℕ) → DeclsFit bound decls.now → ((f : BrokenRule) → BreaksNames decls.now f → ⊥)
        → ((f : BrokenRule) → BreaksCounts decls.now f → ⊥) → found ≡ None → ⊥) }
{
    let data_order = order_of(alloc, NameKind::DataType, decls)?;
    let functions = order_of(alloc, NameKind::Function, decls)?;
    let names = data_type_numbers(alloc, decls, data_order.as_slice())?;
    written_signatures(alloc, &names, decls, data_order.as_slice(), functions)
}

// The declarations in the order of their numbers, which go by the names of a kind that they mention.
fn order_of(alloc: Global, kind: NameKind, decls: &[(u32, Decl)]) -> Result<List<u32>, AllocError>
    requires { length decls.now < 2 ^ 32 }
    ensures { IfOk result (IsOrder (graph_of kind decls.now)) }
{
    let graph = name_graph(alloc, kind, decls)?;
    let found = order(alloc, &graph)?;
    Ok(found)
}

fn written_signatures(
    alloc: Global,
    names: &NameTable,
    decls: &[(u32, Decl)],
    data_order: &[u32],
    functions: List<u32>,
) -> Result<Option<Ordered>, AllocError>
    ensures are { IfOk result (λ found. IfSome found (λ ordered.
        AreWritten names.now decls.now data_order.now functions ordered.signatures × (ordered.functions ≡ functions))) }
    ensures none { IfOk result (λ found. found ≡ None → IsUnwritten names.now decls.now data_order.now functions) }
{
    let Some(types) = ordered_data_types(alloc, names, decls, data_order)? else {
        return Ok(None);
    };
    let Some(declared) = declared_exceptions(alloc, names, decls)? else {
        return Ok(None);
    };
    let Some(funs) = ordered_functions(alloc, names, decls, functions.as_slice())? else {
        return Ok(None);
    };
    let exns = all_exceptions(alloc, declared)?;
    Ok(Some(Ordered {
        signatures: Signatures { types, exns, funs },
        functions,
    }))
}
