//! Which exceptions functions may raise.
ghost use Rattle.std.specs.Prelude.{◌≡◌, ◌==◌, ◌&&◌, ◌||◌, ◌<◌, IfOk, Some};
ghost use Rattle.std.specs.List.{list_any};
ghost use Rattle.hume_model.specs.declared.core_tree.EqC.{EqC as Equation};
ghost use Rattle.hume_model.specs.declared.exceptions.TheConstants.{NO_CASE};
ghost use Rattle.hume_model.specs.Completeness.{are_complete_equations as leave_none_out, last_passes, is_irrefutable_equation};
ghost use Rattle.hume_model.specs.Raising.{raises_with, function_raises};
ghost use Rattle.hume_exceptions.specs.Sets.{IsSetOf, called_by, IsRaisesOf};

use crate::completeness::are_complete;
use crate::exn_set::ExnSet;
use crate::expressions::expression_set;
use crate::function_sets::Raises;
use crate::patterns::are_irrefutable;
use hume_base::{List, Ty, Types};
use hume_model::{Core, EqC, FunC, NO_CASE, forms_of};
use std::alloc::{AllocError, Global};

/// The exceptions that each function of the core may raise, computed once for each in the order of their numbers.
pub fn raises(alloc: Global, core: &Core) -> Result<Raises, AllocError>
    ensures { IfOk result (IsRaisesOf core.now) }
{
    let mut sets = List::new(alloc);
    for function in core.funs.as_slice() {
        sets.push(function_set(&core.types, sets.as_slice(), function))?;
    }
    Ok(Raises::of(sets))
}

fn function_set(types: &Types, called: &[ExnSet], function: &FunC) -> ExnSet
    ensures { IsSetOf result (λ exn. function_raises types.now (raises_with types.now (called_by called.now exn) exn) exn (Some function.now)) }
{
    let equations = function.equations.as_slice();
    let complete = are_complete_equations(types, function.params.as_slice(), equations);
    bodies_set(types, called, equations).or(ExnSet::only_if(NO_CASE, !complete))
}

fn bodies_set(types: &Types, called: &[ExnSet], equations: &[EqC]) -> ExnSet
    ensures { IsSetOf result (λ exn. list_any (λ (equation : Equation). raises_with types.now (called_by called.now exn) exn equation.body) equations.now) }
{
    let mut set = ExnSet::empty();
    for equation in equations {
        set = set.or(expression_set(types, called, &equation.body));
    }
    set
}

/// Whether the equations of a function with these parameters leave no arguments out.
fn are_complete_equations(types: &Types, params: &[Ty], equations: &[EqC]) -> bool
    ensures { result ≡ leave_none_out types.now params.now equations.now }
{
    last_is_irrefutable(equations)
        || (params.len() == 1 && are_complete(types, forms_of(&params[0]), equations))
}

#[tactic(auto, using(crate::proofs::Lasts::last_steps))]
fn last_is_irrefutable(equations: &[EqC]) -> bool
    ensures { result ≡ last_passes is_irrefutable_equation equations.now }
{
    let mut last = false;
    for equation in equations {
        last = are_irrefutable(equation.pats.as_slice());
    }
    last
}
