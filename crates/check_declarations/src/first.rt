//! The trees of declarations, or the first one that has none.
ghost use Rattle.std.specs.Prelude.{◌<◌, ◌^◌, ℕ, Some, None, length, OnOk, IfOk, IfErr};
ghost use Rattle.hume_base.specs.Least.{IsLeast};
ghost use Rattle.hume_ast.specs.declared.tree.Decl.{Decl as DeclTold};
ghost use Rattle.check_typing.specs.Declarations.{HasTrees, InPlaces};
ghost use Rattle.check_tasks.specs.States.{signatures_in};
ghost use Rattle.check_rules.specs.SignaturesOf.{AreSignatures};
ghost use Rattle.check_declarations.specs.Mistyped.{IsMistyped};
ghost use Rattle.check_declarations.specs.inner.Verdicts.{AreVerdicts};

use crate::results::ResultElaboration;
use crate::verdict::verdict_of;
use check_expressions::Elaboration;
use check_rules::signatures_are_unique;
use check_typing::{Signatures, declaration_walk_is_typing};
use hume_ast::Decl;
use hume_base::{Finding, List};
use std::alloc::{AllocError, Global};
use typed_core::TypedDeclaration;

/// The trees of each declaration in order, or the first declaration in which something has no type, or a literal is out of the
/// range of its type, with the rule that it breaks so; by the signatures of the program.
pub fn typed_declarations(
    alloc: Global,
    decls: &[(u32, Decl)],
    signatures: &Signatures,
) -> Result<Result<List<TypedDeclaration>, Finding>, AllocError>
    requires few { length decls.now < 2 ^ 32 }
    requires are { AreSignatures decls.now signatures.now }
    ensures fine { IfOk result (λ found. OnOk found (IsLeast (IsMistyped decls.now) None)) }
    ensures trees { IfOk result (λ found. IfOk found (λ trees.
        InPlaces (λ (d : ℕ × DeclTold) t. HasTrees signatures.now d.1 t) decls.now trees)) }
    ensures mistyped { IfOk result (λ found. IfErr found (λ f. IsLeast (IsMistyped decls.now) (Some f))) }
{
    // by these laws the rules speak of these signatures, and of what is found by them
    signatures_are_unique();
    declaration_walk_is_typing();
    verdicts(alloc, decls, signatures)
}

// What is found of the declarations by the signatures.
fn verdicts<'a>(
    alloc: Global,
    decls: &'a [(u32, Decl)],
    signatures: &'a Signatures,
) -> Result<Result<List<TypedDeclaration>, Finding>, AllocError>
    requires { length decls.now < 2 ^ 32 }
    ensures { IfOk result (AreVerdicts signatures.now decls.now) }
{
    let plain = Elaboration::new(alloc, signatures)?;
    let mut at = ResultElaboration::new(alloc, plain);
    let found = verdicts_by(alloc, &mut at, decls);
    // a call drops all tables at once: their types aren't spelled out here
    drop(at);
    found
}

// The same by an elaboration that has the signatures.
fn verdicts_by<'a>(
    alloc: Global,
    at: &mut ResultElaboration<'a>,
    decls: &'a [(u32, Decl)],
) -> Result<Result<List<TypedDeclaration>, Finding>, AllocError>
    requires { length decls.now < 2 ^ 32 }
    ensures { IfOk result (AreVerdicts (signatures_in at.old.0) decls.now) }
{
    let mut all = List::new(alloc);
    for (i, decl) in decls.iter().enumerate() {
        match verdict_of(alloc, at, &decl.1)? {
            Ok(trees) => all.push(trees)?,
            Err(rule) => return Ok(Err(Finding {
                rule,
                declaration: i as u32,
            })),
        }
    }
    Ok(Ok(all))
}
