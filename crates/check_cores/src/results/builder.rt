ghost use Rattle.std.specs.Prelude.{◌≡◌, [], ◌∷◌, take, drop, reverse, OnOk, IfOk};
ghost use Rattle.check_typing.specs.Results.{absent_out, value_out, outs_core, let_result_core, if_result_core, case_result_core, raise_result_core, raise_with_result_core};
ghost use Rattle.check_cores.specs.results.Stacks.{top_result};

use crate::Stack;
use crate::results::{forms, gather};
use hume_base::{Box, Shared, Ty};
use hume_model::PatC;
use std::alloc::{AllocError, Global};
use std::marker::Model;
use typed_core::{TypedExpr, TypedResult};

/// An alternative: its pattern and its result, each with whether a literal in it is out of range.
pub(crate) type ResultArm = ((PatC, bool), (Box<TypedResult>, bool));

/// Cores of results, of outputs and of alternatives that wait to become parts of larger ones. What finds too few of them is
/// answered with want of memory.
#[derive(Drop)]
pub struct ResultBuilder {
    results: Stack<(Box<TypedResult>, bool)>,
    outputs: Stack<(Option<Box<TypedExpr>>, bool)>,
    arms: Stack<ResultArm>,
}

impl Model for ResultBuilder {
    ghost use Rattle.std.specs.Prelude.{List, Bool, Option};
    ghost use Rattle.std.specs.Coded.{codes};
    ghost use Rattle.typed_core.specs.declared.typed_tree.TypedExpr.{TypedExpr};
    ghost use Rattle.hume_model.specs.declared.core_tree.PatC.{PatC};
    ghost use Rattle.typed_core.specs.declared.typed_tree.TypedResult.{TypedResult};
    ghost use Rattle.typed_core.specs.contracts.typed_tree.TypedExpr as expr;
    ghost use Rattle.hume_model.specs.contracts.core_tree.PatC as pat;
    ghost use Rattle.typed_core.specs.contracts.typed_tree.TypedResult as res;

    ghost Value = { List (TypedResult × Bool) × List (Option TypedExpr × Bool) × List ((PatC × Bool) × (TypedResult × Bool)) };

    ghost coded = { Prim.hlevel (codes, expr.the_row.coded, pat.the_row.coded, res.the_row.coded) };

    ghost view = { λ builder. (builder.results, builder.outputs, builder.arms) };
}

impl ResultBuilder {
    pub fn new(alloc: Global) -> ResultBuilder
        ensures { result ≡ ([], [], []) }
    {
        ResultBuilder {
            results: Stack::new(alloc),
            outputs: Stack::new(alloc),
            arms: Stack::new(alloc),
        }
    }

    /// An output that isn't there.
    pub fn absent(&mut self) -> Result<(), AllocError>
        ensures { OnOk result (self.new ≡ (self.old.0, absent_out ∷ self.old.1, self.old.2)) }
    {
        self.outputs.push((None, false))
    }

    /// An output of the core.
    pub fn value(&mut self, core: (Box<TypedExpr>, bool)) -> Result<(), AllocError>
        ensures { OnOk result (self.new ≡ (self.old.0, value_out core ∷ self.old.1, self.old.2)) }
    {
        let (core, too_wide) = core;
        self.outputs.push((Some(core), too_wide))
    }

    /// A result of the last outputs.
    pub fn outs(&mut self, alloc: Global, count: usize) -> Result<(), AllocError>
        ensures { OnOk result (self.new ≡ (outs_core (reverse (take count self.old.1)) ∷ self.old.0, drop count self.old.1, self.old.2)) }
    {
        let (outputs, too_wide) = gather::outputs(alloc, &mut self.outputs, count)?;
        forms::put(
            alloc,
            &mut self.results,
            TypedResult::Outs(outputs),
            too_wide,
        )
    }

    /// A `let` of the core, which has the type, and the last result.
    pub fn binding(
        &mut self,
        alloc: Global,
        of: Shared<Ty>,
        part: (Box<TypedExpr>, bool),
    ) -> Result<(), AllocError>
        ensures { OnOk result (self.new ≡ (let_result_core of part (top_result self.old.0) ∷ drop 1 self.old.0, self.old.1, self.old.2)) }
    {
        forms::binding(alloc, &mut self.results, of, part)
    }

    /// An `if` of the core and the last two results.
    pub fn branches(
        &mut self,
        alloc: Global,
        test: (Box<TypedExpr>, bool),
    ) -> Result<(), AllocError>
        ensures { OnOk result (self.new ≡ (
          if_result_core test (top_result (drop 1 self.old.0)) (top_result self.old.0)
              ∷ drop 2 self.old.0,
          self.old.1,
          self.old.2,
        )) }
    {
        forms::branches(alloc, &mut self.results, test)
    }

    /// An exception that carries nothing.
    pub fn raise(&mut self, exn: u32) -> Result<(), AllocError>
        ensures { OnOk result (self.new ≡ (raise_result_core exn ∷ self.old.0, self.old.1, self.old.2)) }
    {
        let alloc = self.results.alloc();
        forms::put(
            alloc,
            &mut self.results,
            TypedResult::Raise(exn, None),
            false,
        )
    }

    /// An exception that carries the core.
    pub fn raise_with(&mut self, exn: u32, part: (Box<TypedExpr>, bool)) -> Result<(), AllocError>
        ensures { OnOk result (self.new ≡ (raise_with_result_core exn part ∷ self.old.0, self.old.1, self.old.2)) }
    {
        let (part, too_wide) = part;
        let alloc = self.results.alloc();
        let raise = TypedResult::Raise(exn, Some(part.into_inner()));
        forms::put(alloc, &mut self.results, raise, too_wide)
    }

    /// An alternative of the pattern and the last result.
    pub fn arm(&mut self, pattern: (PatC, bool)) -> Result<(), AllocError>
        ensures { OnOk result (self.new ≡ (drop 1 self.old.0, self.old.1, (pattern, top_result self.old.0) ∷ self.old.2)) }
    {
        let body = forms::last(&mut self.results)?;
        self.arms.push((pattern, body))
    }

    /// A `case` of the core, which has the type, with the last alternatives.
    pub fn alternatives(
        &mut self,
        alloc: Global,
        of: Shared<Ty>,
        part: (Box<TypedExpr>, bool),
        count: usize,
    ) -> Result<(), AllocError>
        ensures { OnOk result (self.new ≡ (case_result_core of part (reverse (take count self.old.2)) ∷ self.old.0, self.old.1, drop count self.old.2)) }
    {
        let (part, too_wide) = part;
        let (arms, some_too_wide) = gather::arms(alloc, &mut self.arms, count)?;
        let case = TypedResult::Case(of, part.into_inner(), arms);
        forms::put(alloc, &mut self.results, case, too_wide || some_too_wide)
    }

    /// Takes the last result out.
    pub fn take_result(&mut self) -> Result<(Box<TypedResult>, bool), AllocError>
        ensures taken { IfOk result (λ taken. taken ≡ top_result self.old.0) }
        ensures left { OnOk result (self.new ≡ (drop 1 self.old.0, self.old.1, self.old.2)) }
    {
        forms::last(&mut self.results)
    }
}
