//! The rules on types, and the trees of declarations that break none.
ghost use Rattle.std.specs.Prelude.{◌≡◌, ◌<◌, ◌^◌, length, Some, IfOk};
ghost use Rattle.hume_base.specs.Least.{earlier_of};
ghost use Rattle.check_rules.specs.SignaturesOf.{AreSignatures};
ghost use Rattle.check_rules.specs.CheckRules.{BreaksTypes};
ghost use Rattle.hume_check.specs.inner.Trees.{HaveTreesOr, unless};

use check_declarations::typed_declarations;
use check_scopes::signatures::SignatureTable;
use check_wires::first_values::first_without_value;
use hume_ast::Decl;
use hume_base::{Finding, List, earlier};
use std::alloc::{AllocError, Global};
use typed_core::TypedDeclaration;

/// The trees of the declarations, or the least rule on types that they break.
pub(crate) fn trees_or_least_in_types(
    alloc: Global,
    decls: &[(u32, Decl)],
    table: &SignatureTable,
) -> Result<Result<List<TypedDeclaration>, Finding>, AllocError>
    requires few { length decls.now < 2 ^ 32 }
    requires are { AreSignatures decls.now table.now }
    ensures { IfOk result (HaveTreesOr (BreaksTypes decls.now) table.now decls.now) }
{
    let without_value = first_without_value(alloc, decls, table)?;
    match typed_declarations(alloc, decls, table.signatures())? {
        Ok(trees) => Ok(trees_unless(trees, without_value)),
        Err(mistyped) => Ok(Err(earlier_than(mistyped, without_value))),
    }
}

/// The trees, if nothing is found in the declarations.
pub(crate) fn trees_unless(
    trees: List<TypedDeclaration>,
    found: Option<Finding>,
) -> Result<List<TypedDeclaration>, Finding>
    ensures { result ≡ unless found trees }
{
    match found {
        None => Ok(trees),
        Some(finding) => Err(finding),
    }
}

fn earlier_than(finding: Finding, other: Option<Finding>) -> Finding
    ensures { Some result ≡ earlier_of (Some finding) other }
{
    match earlier(Some(finding), other) {
        None => finding,
        Some(earliest) => earliest,
    }
}
