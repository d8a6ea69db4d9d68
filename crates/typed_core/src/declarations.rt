//! Erasing equations, rules and handlers.
ghost use Rattle.std.specs.Prelude.{◌≡◌, map, IfOk};
ghost use Rattle.typed_core.specs.Erasing.{erased_equation, erased_handler, erased_rule};

use crate::expressions::erase_boxed;
use crate::patterns::{copy_patterns, copy_positions};
use crate::results::erase_boxed_result;
use crate::typed_tree::{TypedEquation, TypedHandler, TypedRule};
use hume_base::List;
use hume_model::{EqC, HandC, RuleC};
use std::alloc::{AllocError, Global};

/// The equations of a function of the core.
pub fn erase_equations(alloc: Global, equations: &[TypedEquation]) -> Result<List<EqC>, AllocError>
    ensures { IfOk result (λ core. core ≡ map erased_equation equations.now) }
{
    let mut core = List::new(alloc);
    for equation in equations {
        let pats = copy_patterns(alloc, equation.pats.as_slice())?;
        let body = erase_boxed(alloc, &equation.body)?.into_inner();
        core.push(EqC { pats, body })?;
    }
    Ok(core)
}

/// The rules of a box of the core.
pub fn erase_rules(alloc: Global, rules: &[TypedRule]) -> Result<List<RuleC>, AllocError>
    ensures { IfOk result (λ core. core ≡ map erased_rule rules.now) }
{
    let mut core = List::new(alloc);
    for rule in rules {
        let pats = copy_positions(alloc, rule.pats.as_slice())?;
        let result = erase_boxed_result(alloc, &rule.result)?.into_inner();
        core.push(RuleC { pats, result })?;
    }
    Ok(core)
}

/// The handlers of a box of the core.
pub fn erase_handlers(alloc: Global, handlers: &[TypedHandler]) -> Result<List<HandC>, AllocError>
    ensures { IfOk result (λ core. core ≡ map erased_handler handlers.now) }
{
    let mut core = List::new(alloc);
    for handler in handlers {
        let result = erase_boxed_result(alloc, &handler.result)?.into_inner();
        core.push(HandC {
            exn: handler.exn,
            bound: handler.bound,
            result,
        })?;
    }
    Ok(core)
}
