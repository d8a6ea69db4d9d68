//! The execute step of a box, and the rules that are functions of their own.
ghost use Rattle.std.specs.Prelude.{◌≡◌, ◌∷◌, ◌++◌, List, codes, IfOk, OnOk};
ghost use Rattle.c_names.specs.Names.{inner};
ghost use Rattle.c_forms.specs.Gives.{Gives};
ghost use Rattle.c_nets.specs.SuperSteps.{plain_function};
ghost use Rattle.c_nets.specs.Taking.{wait};
ghost use Rattle.c_analysis.specs.Targets.{target};
ghost use Rattle.c_boxes.specs.Boxes.{execute_function, first_rule, rule_body, rule_function, rule_functions};
ghost use Rattle.c_boxes.specs.inner.Nodes.{shown};

use crate::fair::fair_rules;
use crate::handlers::static_function;
use crate::results::result_made;
use crate::rules::{Node, next_place, positions_match, raises_at, rules_made};
use c_analysis::Setting;
use c_expressions::Made;
use c_forms::{before, number, whole};
use c_names::Names;
use c_nets::{is_fair, plain_function, wait};
use c_tree::{CItem, CStm, CType, Width};
use hume_base::{Box, List};
use hume_model::BoxC;
use std::alloc::{AllocError, Global};
use typed_core::TypedRule;

/// The function of the execute step: the first rule that fits fires, if no outputs are pending.
pub(crate) fn execute_function(
    s: Setting,
    node: Node,
    rules: &[TypedRule],
) -> Result<Box<CItem>, AllocError>
    ensures { IfOk result (λ item. item ≡ execute_function (target s.entry) (shown node.entry) rules.now) }
{
    let made = first_rule(s, node, rules)?;
    function_with(s, node.core, made.statements)
}

fn function_with(s: Setting, b: &BoxC, statements: List<CStm>) -> Result<Box<CItem>, AllocError>
    ensures { IfOk result (λ item. item ≡ plain_function (inner (target s.entry).file.names (codes "execute_") b.now.name)
        (wait (target s.entry).file.names b.now ∷ statements)) }
{
    whole(waiting_function(s.alloc, s.names(), b, Some(statements)))
}

// The function with statements that are left out while outputs are pending.
fn waiting_function(
    alloc: Global,
    names: &Names,
    b: &BoxC,
    statements: Option<List<CStm>>,
) -> Option<Box<CItem>>
    ensures { (own : List CStm) → Gives statements own → Gives result
        (plain_function (inner names.now (codes "execute_") b.now.name) (wait names.now b.now ∷ own)) }
{
    let body = before(alloc, wait(alloc, names, b), statements);
    plain_function(alloc, names.execute(alloc, b.name.bytes()).ok(), body)
}

fn first_rule(s: Setting, node: Node, rules: &[TypedRule]) -> Result<Made, AllocError>
    ensures { IfOk result (λ all. all ≡ first_rule (target s.entry) (shown node.entry) rules.now) }
{
    if is_fair(node.core) {
        fair_rules(s, node, 1, rules)
    } else {
        rules_made(s, node, 1, rules)
    }
}

/// Adds the functions of the rules that may raise.
#[tactic(auto, using(crate::proofs::CaseSteps::case_steps))]
pub(crate) fn put_rule_functions(
    s: Setting,
    items: &mut List<CItem>,
    node: Node,
    rules: &[TypedRule],
) -> Result<(), AllocError>
    ensures { OnOk result (items.new ≡ items.old ++ rule_functions (target s.entry) (shown node.entry) 0 rules.now) }
{
    for (place, rule) in rules.iter().enumerate() {
        if raises_at(node, place) {
            items.push(rule_function(s, node, place, rule)?)?;
        }
    }
    Ok(())
}

fn rule_function(
    s: Setting,
    node: Node,
    place: usize,
    rule: &TypedRule,
) -> Result<CItem, AllocError>
    ensures { IfOk result (λ item. item ≡ rule_function (target s.entry) (shown node.entry) place rule.now) }
{
    let body = rule_body(s, node, rule)?;
    let number = next_place(place)? as u64;
    let name = s.names().rule(s.alloc, number, node.core.name.bytes())?;
    let status = CType::Unsigned(Width::W8);
    Ok(static_function(Some(status), name, List::new(s.alloc), body))
}

// What a rule that may raise does; it returns 0 where it doesn't.
fn rule_body(s: Setting, node: Node, rule: &TypedRule) -> Result<List<CStm>, AllocError>
    ensures { IfOk result (λ body. body ≡ rule_body (target s.entry) (shown node.entry) rule.now) }
{
    let mut scope = List::new(s.alloc);
    let _ = positions_match(s, node, &mut scope, rule.pats.as_slice())?;
    let mut body = result_made(s, node.core, &mut scope, 1, &rule.result)?.statements;
    let zero = number(s.alloc, 0).ok_or(AllocError)?;
    body.push(CStm::Return(Some(zero)))?;
    Ok(body)
}
