//! Which rule of a box fires, and what it gives.
ghost use Rattle.std.specs.Prelude.{◌≡◌, IfOk, MatchOption, slice_get, ◌==◌, [], Some, None, if◌then◌else◌};
ghost use Rattle.std.specs.List.{find};
ghost use Rattle.std.specs.Option.{option_map, option_to_list};
ghost use Rattle.hume_model.specs.declared.core_tree.HandC.{HandC};
ghost use Rattle.hume_model.specs.Firing.{fire, firing_of, rule_fits, handled, handled_by};

use crate::core_tree::{BoxC, Core, HandC, RuleC};
use crate::matching::{bound_values, is_fitting, taken_inputs};
use crate::outcome::{Firing, Outputs};
use crate::results::outputs_of;
use hume_base::{List, Value};
use std::alloc::{AllocError, Global};

/// What the first rule in the order that fits does; none where no rule fits.
pub fn first_firing(
    alloc: Global,
    core: &Core,
    b: &BoxC,
    order: &[u32],
    ins: &[Option<Value>],
) -> Result<Option<Firing>, AllocError>
    ensures { IfOk result (λ firing. firing ≡ fire core.now b.now order.now ins.now) }
{
    match first_fitting(alloc, b.rules.as_slice(), order, ins)? {
        None => Ok(None),
        Some(number) => firing_at(alloc, core, b, number, ins),
    }
}

fn firing_at(
    alloc: Global,
    core: &Core,
    b: &BoxC,
    number: u32,
    ins: &[Option<Value>],
) -> Result<Option<Firing>, AllocError>
    ensures { IfOk result (λ at. at ≡ option_map (firing_of core.now b.now number ins.now) (slice_get b.now.rules number)) }
{
    match b.rules.get(number as usize) {
        None => Ok(None),
        Some(rule) => Ok(Some(firing(alloc, core, b, number, rule, ins)?)),
    }
}

fn first_fitting(
    alloc: Global,
    rules: &[RuleC],
    order: &[u32],
    ins: &[Option<Value>],
) -> Result<Option<u32>, AllocError>
    ensures { IfOk result (λ first. first ≡ find (λ number. rule_fits ins.now (slice_get rules.now number)) order.now) }
{
    for number in order {
        if is_fitting_rule(alloc, rules, *number, ins)? {
            return Ok(Some(*number));
        }
    }
    Ok(None)
}

fn is_fitting_rule(
    alloc: Global,
    rules: &[RuleC],
    number: u32,
    ins: &[Option<Value>],
) -> Result<bool, AllocError>
    ensures { IfOk result (λ fitting. fitting ≡ rule_fits ins.now (slice_get rules.now number)) }
{
    match rules.get(number as usize) {
        None => Ok(false),
        Some(rule) => is_fitting(alloc, rule.pats.as_slice(), ins),
    }
}

fn firing(
    alloc: Global,
    core: &Core,
    b: &BoxC,
    number: u32,
    rule: &RuleC,
    ins: &[Option<Value>],
) -> Result<Firing, AllocError>
    ensures { IfOk result (λ firing. firing ≡ firing_of core.now b.now number ins.now rule.now) }
{
    let env = bound_values(alloc, rule.pats.as_slice(), ins)?;
    let taken = taken_inputs(alloc, rule.pats.as_slice(), ins)?;
    let outputs = outputs_of(alloc, core, &env, &rule.result)?;
    let outs = handled_outputs(alloc, core, b.handlers.as_slice(), outputs)?;
    Ok(Firing {
        rule: number,
        taken,
        outs,
    })
}

fn handled_outputs(
    alloc: Global,
    core: &Core,
    handlers: &[HandC],
    outputs: Outputs,
) -> Result<List<Option<Value>>, AllocError>
    ensures { IfOk result (λ outs. outs ≡ handled core.now handlers.now outputs) }
{
    match outputs {
        Outputs::Asserts(outs) => Ok(outs),
        Outputs::Throws(exn, carried) => match handler_for(handlers, exn) {
            None => Ok(List::new(alloc)),
            Some(handler) => handler_outputs(alloc, core, handler, carried),
        },
    }
}

fn handler_for(handlers: &[HandC], exn: u32) -> Option<&HandC>
    ensures { let found = find (λ (handler : HandC). handler.exn == exn) handlers.now in
        MatchOption result (found ≡ None) (λ handler. found ≡ Some handler.now) }
{
    for handler in handlers {
        if handler.exn == exn {
            return Some(handler);
        }
    }
    None
}

fn handler_outputs(
    alloc: Global,
    core: &Core,
    handler: &HandC,
    carried: Option<Value>,
) -> Result<List<Option<Value>>, AllocError>
    ensures { IfOk result (λ outs. outs ≡ handled_by core.now carried (Some handler.now)) }
{
    let env = carried_values(alloc, handler.bound, carried)?;
    match outputs_of(alloc, core, &env, &handler.result)? {
        Outputs::Asserts(outs) => Ok(outs),
        Outputs::Throws(_, _) => Ok(List::new(alloc)),
    }
}

fn carried_values(
    alloc: Global,
    bound: bool,
    carried: Option<Value>,
) -> Result<List<Value>, AllocError>
    ensures { IfOk result (λ env. env ≡ (if bound then option_to_list carried else [])) }
{
    let mut values = List::new(alloc);
    if let Some(value) = carried {
        if bound {
            values.push(value)?;
        }
    }
    Ok(values)
}
