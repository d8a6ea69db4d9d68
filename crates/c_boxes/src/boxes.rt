//! The functions of a box.
ghost use Rattle.std.specs.Prelude.{◌≡◌, IfOk};
ghost use Rattle.std.specs.List.{list_any};
ghost use Rattle.hume_exceptions.specs.Sets.{IsRaisesOf};
ghost use Rattle.c_analysis.specs.Targets.{target};
ghost use Rattle.c_boxes.specs.Boxes.{box_functions, handler_functions, step_functions};
ghost use Rattle.c_boxes.specs.Rules.{node_of};
ghost use Rattle.c_boxes.specs.inner.Nodes.{shown};

use crate::execute::{execute_function, put_rule_functions};
use crate::handlers::handler_function;
use crate::rules::{Node, rules_raise};
use c_analysis::Setting;
use c_nets::{all_are_given, super_function};
use c_tree::CItem;
use hume_base::List;
use hume_exceptions::Raises;
use hume_model::BoxC;
use std::alloc::AllocError;
use typed_core::{BoxTrees, TypedHandler, TypedRule};

/// The functions of a box, the node of that number.
pub fn box_functions(
    s: Setting,
    number: usize,
    b: &BoxC,
    raises: &Raises,
    trees: &BoxTrees,
) -> Result<List<CItem>, AllocError>
    requires { IsRaisesOf s.core.now raises.now }
    ensures { IfOk result (λ items. items ≡ box_functions (target s.entry) (node_of (target s.entry).core number b.now) trees.now.rules trees.now.handlers) }
{
    let raising = rules_raise(s.alloc, s.core, raises, b)?;
    let node = Node {
        number,
        core: b,
        raising: raising.as_slice(),
    };
    functions_of(s, node, trees)
}

#[tactic(auto, using(crate::proofs::CaseSteps::case_steps))]
fn functions_of(s: Setting, node: Node, trees: &BoxTrees) -> Result<List<CItem>, AllocError>
    ensures { IfOk result (λ items. items ≡ box_functions (target s.entry) (shown node.entry) trees.now.rules trees.now.handlers) }
{
    let rules = trees.rules.as_slice();
    let handlers = trees.handlers.as_slice();
    let mut items = handler_functions(s, node, handlers)?;
    put_rule_functions(s, &mut items, node, rules)?;
    items.append(step_functions(s, node, rules, handlers)?)?;
    Ok(items)
}

// The function that handles what the rules raise, if one of them may.
fn handler_functions(
    s: Setting,
    node: Node,
    handlers: &[TypedHandler],
) -> Result<List<CItem>, AllocError>
    ensures { IfOk result (λ items. items ≡ handler_functions (target s.entry) (shown node.entry) handlers.now) }
{
    if some_raises(node.raising) {
        return List::of_one(s.alloc, handler_function(s, node.core, handlers)?);
    }
    Ok(List::new(s.alloc))
}

// The functions of its two steps.
fn step_functions(
    s: Setting,
    node: Node,
    rules: &[TypedRule],
    handlers: &[TypedHandler],
) -> Result<List<CItem>, AllocError>
    ensures { IfOk result (λ items. items ≡ step_functions (target s.entry) (shown node.entry) rules.now handlers.now) }
{
    let mut items = List::of_one(s.alloc, execute_function(s, node, rules)?.into_inner())?;
    let all = all_are_given(rules, handlers);
    let step = super_function(s.alloc, s.core, s.names(), node.number, node.core, all);
    items.push(step.ok_or(AllocError)?.into_inner())?;
    Ok(items)
}

fn some_raises(raising: &[bool]) -> bool
    ensures { result ≡ list_any (λ raises. raises) raising.now }
{
    for raises in raising {
        if *raises {
            return true;
        }
    }
    false
}
