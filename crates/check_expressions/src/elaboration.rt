ghost use Rattle.std.specs.Prelude.{◌≡◌, [], IfOk};

use check_cores::Builder;
use check_scopes::Environment;
use check_typing::Signatures;
use std::alloc::{AllocError, Global};
use std::marker::Model;

/// What is known where an elaboration stands, and the cores that it has made so far.
#[derive(Drop)]
pub struct Elaboration<'a> {
    pub environment: Environment<'a>,
    pub builder: Builder,
}

impl<'a> Model for Elaboration<'a> {
    ghost use Rattle.std.specs.Prelude.{List, ℕ, Bool};
    ghost use Rattle.std.specs.Coded.{codes};
    ghost use Rattle.hume_base.specs.declared.types.Ty.{Ty};
    ghost use Rattle.hume_base.specs.contracts.types.Ty as ty;
    ghost use Rattle.check_typing.specs.declared.signatures.Signatures.{Signatures};
    ghost use Rattle.check_typing.specs.contracts.signatures.Signatures as sigs;
    ghost use Rattle.typed_core.specs.declared.typed_tree.TypedExpr.{TypedExpr};
    ghost use Rattle.hume_model.specs.declared.core_tree.PatC.{PatC};
    ghost use Rattle.typed_core.specs.contracts.typed_tree.TypedExpr as expr;
    ghost use Rattle.hume_model.specs.contracts.core_tree.PatC as pat;

    ghost Value = { (List (List ℕ × Ty) × List Ty × Signatures) × List (TypedExpr × Bool) × List (PatC × Bool) × List ((PatC × Bool) × (TypedExpr × Bool)) };

    ghost coded = { Prim.hlevel (codes, ty.the_row.coded, sigs.the_row.coded, expr.the_row.coded, pat.the_row.coded) };

    ghost view = { λ e. (e.environment, e.builder.0, e.builder.1, e.builder.2) };
}

impl<'a> Elaboration<'a> {
    pub fn new(alloc: Global, signatures: &'a Signatures) -> Result<Elaboration<'a>, AllocError>
        ensures { IfOk result (λ e. e ≡ (([], [], signatures.now), [], [], [])) }
    {
        let environment = Environment::new(alloc, signatures)?;
        Ok(Elaboration {
            environment,
            builder: Builder::new(alloc),
        })
    }
}
