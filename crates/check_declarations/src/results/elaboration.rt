ghost use Rattle.std.specs.Prelude.{◌≡◌, [], drop, length, IfOk, OnOk};
ghost use Rattle.hume_base.specs.declared.types.Ty.{out-Ty};
ghost use Rattle.check_cores.specs.results.Stacks.{top_result};
ghost use Rattle.check_tasks.specs.results.ResultTasks.{last_outputs};

use check_cores::results::ResultBuilder;
use check_expressions::Elaboration;
use check_scopes::types::Shape;
use hume_base::Box;
use std::alloc::{AllocError, Global};
use std::marker::Model;
use typed_core::TypedResult;

/// What is known where an elaboration of results stands, and the cores that it has made so far.
#[derive(Drop)]
pub(crate) struct ResultElaboration<'a> {
    pub(crate) plain: Elaboration<'a>,
    pub(crate) builder: ResultBuilder,
}

impl<'a> Model for ResultElaboration<'a> {
    ghost use Rattle.std.specs.Prelude.{List, ℕ, Bool, Option};
    ghost use Rattle.std.specs.Coded.{codes};
    ghost use Rattle.hume_base.specs.declared.types.Ty.{Ty};
    ghost use Rattle.hume_base.specs.contracts.types.Ty as ty;
    ghost use Rattle.check_typing.specs.declared.signatures.Signatures.{Signatures};
    ghost use Rattle.check_typing.specs.contracts.signatures.Signatures as sigs;
    ghost use Rattle.typed_core.specs.declared.typed_tree.TypedExpr.{TypedExpr};
    ghost use Rattle.hume_model.specs.declared.core_tree.PatC.{PatC};
    ghost use Rattle.typed_core.specs.declared.typed_tree.TypedResult.{TypedResult};
    ghost use Rattle.typed_core.specs.contracts.typed_tree.TypedExpr as expr;
    ghost use Rattle.hume_model.specs.contracts.core_tree.PatC as pat;
    ghost use Rattle.typed_core.specs.contracts.typed_tree.TypedResult as res;

    ghost Value = { ((List (List ℕ × Ty) × List Ty × Signatures) × List (TypedExpr × Bool) × List (PatC × Bool) × List ((PatC × Bool) × (TypedExpr × Bool)))
        × List (TypedResult × Bool) × List (Option TypedExpr × Bool) × List ((PatC × Bool) × (TypedResult × Bool)) };

    ghost coded = { Prim.hlevel (codes, ty.the_row.coded, sigs.the_row.coded, expr.the_row.coded, pat.the_row.coded, res.the_row.coded) };

    ghost view = { λ e. (e.plain, e.builder.0, e.builder.1, e.builder.2) };
}

impl<'a> ResultElaboration<'a> {
    /// It goes on from an elaboration of expressions.
    pub(crate) fn new(alloc: Global, plain: Elaboration<'a>) -> ResultElaboration<'a>
        ensures { result ≡ (plain.entry, [], [], []) }
    {
        ResultElaboration {
            plain,
            builder: ResultBuilder::new(alloc),
        }
    }

    /// Takes the last result out.
    pub(crate) fn take_result(&mut self) -> Result<(Box<TypedResult>, bool), AllocError>
        ensures taken { IfOk result (λ taken. taken ≡ top_result self.old.1) }
        ensures left { OnOk result (self.new ≡ (self.old.0, drop 1 self.old.1, self.old.2, self.old.3)) }
    {
        self.builder.take_result()
    }

    /// The number of outputs: of the parts of the last type, a tuple.
    #[tactic(auto, using(crate::proofs::results_lemmas::Outputs::count_steps))]
    pub(crate) fn output_count(&self) -> Result<usize, AllocError>
        ensures { IfOk result (λ count. count ≡ length (last_outputs self.now)) }
    {
        match self.plain.shape()? {
            Shape::Tuple(count) => Ok(count),
            _ => Ok(0),
        }
    }
}
