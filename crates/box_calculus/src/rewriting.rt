//! The call that makes a step.
ghost use Rattle.std.specs.Prelude.{◌≡◌, ◌⊎◌, ◌<◌, IfOk, IfErr, IfSome, OnOk, None, Some, length, slice_get, slice_set};
ghost use Rattle.std.specs.Option.{option_map};
ghost use Rattle.calculus_laws.specs.declared.step.CalcError.TheVariants.{NoMemory};
ghost use Rattle.calculus_laws.specs.Boxes.{box_at, with_box};
ghost use Rattle.calculus_laws.specs.Naming.{calling_box, named_function, named_output, output_at, output_refusal, variables};
ghost use Rattle.calculus_laws.specs.Swapping.{swap_refusal, swapped_box};
ghost use Rattle.calculus_laws.specs.Steps.{IsOnRule, refusal, rewritten};
ghost use Rattle.box_calculus.specs.inner.Known.{IsKnown};

use crate::known::{Known, Seen, clear_alternatives, expected_size, known_most};
use crate::naming::name_output;
use crate::sizes::Size;
use crate::swap::swap_rules;
use crate::unfold::{unfold_rule, variable_count};
use calculus_laws::{CalcError, Step};
use hume_base::{List, Text};
use hume_model::{Core, NodeC};
use std::alloc::{AllocError, Global};

/// The core after the step, which moves its trees and copies nothing of what stays.
pub fn rewrite(alloc: Global, core: Core, step: &Step) -> Result<Core, CalcError>
    requires { IsOnRule core step.now }
    ensures new { IfOk result (λ new. new ≡ rewritten core step.now) }
    ensures allowed { OnOk result (refusal core step.now ≡ None) }
    ensures refused { IfErr result (λ error. (error ≡ NoMemory) ⊎ (refusal core step.now ≡ Some error)) }
{
    let (new, _) = rewrite_known(alloc, core, step, None)?;
    Ok(new)
}

/// The same, where something is known of the result of a rule: a step that unfolds a call in it then looks only at what it changes. It
/// gives what is known after the step.
pub(crate) fn rewrite_known(
    alloc: Global,
    core: Core,
    step: &Step,
    known: Option<Known>,
) -> Result<(Core, Option<Known>), CalcError>
    requires step { IsOnRule core step.now }
    requires known { IfSome known (IsKnown core) }
    ensures new { IfOk result (λ made. made.0 ≡ rewritten core step.now) }
    ensures known { IfOk result (λ made. IfSome made.1 (IsKnown made.0)) }
    ensures allowed { OnOk result (refusal core step.now ≡ None) }
    ensures refused { IfErr result (λ error. (error ≡ NoMemory) ⊎ (refusal core step.now ≡ Some error)) }
{
    match step {
        Step::Unfold { node, rule } => unfold_in(alloc, core, *node, *rule, known),
        Step::Swap { node, rule } => {
            let new = swap_in(alloc, core, *node, *rule)?;
            Ok((new, None))
        }
        Step::Name { node, rule, name } => {
            let new = name_in(alloc, core, *node, *rule, name)?;
            Ok((new, None))
        }
    }
}

#[tactic(auto, using(crate::proofs::Unfolded::unfold_steps))]
fn unfold_in(
    alloc: Global,
    core: Core,
    node: u32,
    rule: u32,
    known: Option<Known>,
) -> Result<(Core, Option<Known>), CalcError>
    requires step { IsOnRule core (Step.Unfold node rule) }
    requires known { IfSome known (IsKnown core) }
    ensures new { IfOk result (λ made. made.0 ≡ rewritten core (Step.Unfold node rule)) }
    ensures known { IfOk result (λ made. IfSome made.1 (IsKnown made.0)) }
    ensures allowed { OnOk result (refusal core (Step.Unfold node rule) ≡ None) }
    ensures refused { IfErr result (λ error.
        (error ≡ NoMemory) ⊎ (refusal core (Step.Unfold node rule) ≡ Some error)) }
{
    let scope = rule_scope(alloc, &core, node, rule)?;
    let most = known_most(core.funs.as_slice(), known)?;
    let Core {
        types,
        exns,
        funs,
        nodes,
        wires,
    } = core;
    let mut nodes = nodes.into_vec();
    let seen = match &mut nodes[node as usize] {
        NodeC::Rules(b) => unfold_rule(
            alloc,
            funs.as_slice(),
            b,
            rule,
            scope,
            expected_size(known, node, rule),
            clear_alternatives(known, node, rule),
        )?,
        _ => unreachable!(),
    };
    let new = Core {
        types,
        exns,
        funs,
        nodes: List::from_vec(nodes),
        wires,
    };
    Ok((new, known_after(node, rule, seen, most)))
}

// What is known of a rule of whose result this is seen, if it is known how much a function adds.
fn known_after(node: u32, rule: u32, seen: Seen, most: Option<Size>) -> Option<Known>
    ensures { result ≡ option_map (λ most. record { node = node; rule = rule; size = seen.size; clear = seen.clear; most = most }) most }
{
    match most {
        None => None,
        Some(most) => Some(Known {
            node,
            rule,
            size: seen.size,
            clear: seen.clear,
            most,
        }),
    }
}

// How many variables the rule has.
fn rule_scope(alloc: Global, core: &Core, node: u32, rule: u32) -> Result<u32, AllocError>
    requires { IsOnRule core.now (Step.Unfold node rule) }
    ensures { IfOk result (λ scope. IfSome (box_at core.now node) (λ b. IfSome (slice_get b.rules rule)
        (λ old. scope ≡ length (variables core.now.types b old)))) }
{
    match core.nodes.get(node as usize) {
        Some(NodeC::Rules(b)) => variable_count(alloc, &core.types, b, rule),
        _ => unreachable!(),
    }
}

fn swap_in(alloc: Global, core: Core, node: u32, rule: u32) -> Result<Core, CalcError>
    requires { IsOnRule core (Step.Swap node rule) }
    ensures new { IfOk result (λ new. new ≡ rewritten core (Step.Swap node rule)) }
    ensures allowed { OnOk result (refusal core (Step.Swap node rule) ≡ None) }
    ensures refused { IfErr result (λ error. refusal core (Step.Swap node rule) ≡ Some error) }
{
    let Core {
        types,
        exns,
        funs,
        nodes,
        wires,
    } = core;
    let mut nodes = nodes.into_vec();
    match &mut nodes[node as usize] {
        NodeC::Rules(b) => swap_rules(alloc, b, rule)?,
        _ => unreachable!(),
    }
    Ok(Core {
        types,
        exns,
        funs,
        nodes: List::from_vec(nodes),
        wires,
    })
}

fn name_in(alloc: Global, core: Core, node: u32, rule: u32, name: &Text) -> Result<Core, CalcError>
    requires { IsOnRule core (Step.Name node rule name.now) }
    ensures new { IfOk result (λ new. new ≡ rewritten core (Step.Name node rule name.now)) }
    ensures allowed { OnOk result (refusal core (Step.Name node rule name.now) ≡ None) }
    ensures refused { IfErr result (λ error.
        (error ≡ NoMemory) ⊎ (refusal core (Step.Name node rule name.now) ≡ Some error)) }
{
    let Core {
        types,
        exns,
        mut funs,
        nodes,
        wires,
    } = core;
    let mut nodes = nodes.into_vec();
    let function = match &mut nodes[node as usize] {
        NodeC::Rules(b) => name_output(alloc, &types, funs.as_slice(), b, rule, name)?,
        _ => unreachable!(),
    };
    funs.push(function)?;
    Ok(Core {
        types,
        exns,
        funs,
        nodes: List::from_vec(nodes),
        wires,
    })
}
