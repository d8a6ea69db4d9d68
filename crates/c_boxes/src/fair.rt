//! Fair boxes: the rule that fired goes last.
ghost use Rattle.std.specs.Prelude.{◌≡◌, IfOk, codes};
ghost use Rattle.c_tree.specs.declared.tree.CStm.TheVariants as stm;
ghost use Rattle.c_nets.specs.FairRules.{counted};
ghost use Rattle.c_analysis.specs.Targets.{target};
ghost use Rattle.c_boxes.specs.Boxes.{fair_body, fair_rules, fired_defined, fired_set, if_tests, moved_if_fired, noted, rule_cases, rule_defined, rule_tried};
ghost use Rattle.c_boxes.specs.inner.Nodes.{shown};

use crate::rules::{Node, rule_way};
use c_analysis::Setting;
use c_expressions::{Made, Way, conjunction, ended};
use c_forms::{counting, define, name, number, of_one, one_if, set, text, truth, whole};
use c_nets::{byte, counted, moved_last, ordered};
use c_tree::{CExp, CStm, CType, CVariable};
use hume_base::{Box, List};
use std::alloc::{AllocError, Global};
use typed_core::TypedRule;

/// The cases of a `switch`, and the first number that no name of the function has then.
pub(crate) type Cases = (List<(CExp, List<CStm>)>, u32);

/// The first rule in the order of the box that fits fires.
pub(crate) fn fair_rules(
    s: Setting,
    node: Node,
    next: u32,
    rules: &[TypedRule],
) -> Result<Made, AllocError>
    ensures { IfOk result (λ all. all ≡ fair_rules (target s.entry) (shown node.entry) rules.now next) }
{
    let (cases, next) = rule_cases(s, node, next, rules)?;
    let body = fair_body(s, node, cases)?;
    let all = for_each_place(s.alloc, rules.len(), body)?;
    let statements = List::of_one(s.alloc, all.into_inner())?;
    Ok(Made { statements, next })
}

// The body for each place of the order.
fn for_each_place(alloc: Global, count: usize, body: List<CStm>) -> Result<Box<CStm>, AllocError>
    ensures { IfOk result (λ made. made ≡ stm.For (counted (codes "i") count) body) }
{
    whole(counting(alloc, counted(alloc, b"i", count), Some(body)))
}

// What is done for a place of the order.
fn fair_body(
    s: Setting,
    node: Node,
    cases: List<(CExp, List<CStm>)>,
) -> Result<List<CStm>, AllocError>
    ensures { IfOk result (λ all. all ≡ fair_body (target s.entry) (shown node.entry) cases) }
{
    let mut statements = List::of_one(s.alloc, rule_defined(s, node)?.into_inner())?;
    statements.push(fired_defined(s.alloc)?)?;
    let rule = name(s.alloc, b"rule").ok_or(AllocError)?;
    statements.push(CStm::Switch(rule, cases, List::new(s.alloc)))?;
    statements.push(moved_if_fired(s, node)?.into_inner())?;
    Ok(statements)
}

fn rule_defined(s: Setting, node: Node) -> Result<Box<CStm>, AllocError>
    ensures { IfOk result (λ made. made ≡ rule_defined (target s.entry) (shown node.entry)) }
{
    let order = ordered(s.alloc, s.names(), node.core, name(s.alloc, b"i"));
    let name = text(s.alloc, b"rule").ok();
    whole(define(s.alloc, byte(), name, order))
}

// No rule has fired yet.
fn fired_defined(alloc: Global) -> Result<CStm, AllocError>
    ensures { IfOk result (λ made. made ≡ fired_defined) }
{
    let not_yet = truth(alloc, false).ok_or(AllocError)?;
    let name = text(alloc, b"fired")?;
    let fired = CVariable {
        constant: false,
        ty: CType::Bool,
        name,
    };
    Ok(CStm::Define(fired, not_yet))
}

fn moved_if_fired(s: Setting, node: Node) -> Result<Box<CStm>, AllocError>
    ensures { IfOk result (λ made. made ≡ moved_if_fired (target s.entry) (shown node.entry)) }
{
    let moved = moved_last(s.alloc, s.names(), node.core);
    whole(one_if(s.alloc, name(s.alloc, b"fired"), moved))
}

// The rules, each by its number.
#[tactic(auto, using(crate::proofs::CaseSteps::case_steps))]
fn rule_cases(s: Setting, node: Node, next: u32, rules: &[TypedRule]) -> Result<Cases, AllocError>
    ensures cases { IfOk result (λ all. all.0 ≡ (rule_cases (target s.entry) (shown node.entry) 0 rules.now next).cases) }
    ensures next { IfOk result (λ all. all.1 ≡ (rule_cases (target s.entry) (shown node.entry) 0 rules.now next).next) }
{
    let mut cases = List::new(s.alloc);
    let mut next = next;
    for (place, rule) in rules.iter().enumerate() {
        let body = rule_tried(s, node, next, place, rule)?;
        next = body.next;
        let label = number(s.alloc, place as u64).ok_or(AllocError)?;
        cases.push((label.into_inner(), body.statements))?;
    }
    Ok((cases, next))
}

// A rule that fits fires, and this is noted.
fn rule_tried(
    s: Setting,
    node: Node,
    next: u32,
    place: usize,
    rule: &TypedRule,
) -> Result<Made, AllocError>
    ensures { IfOk result (λ all. all ≡ rule_tried (target s.entry) (shown node.entry) place rule.now next) }
{
    let way = rule_way(s, node, next, place, rule)?;
    noted(s, way)
}

fn noted(s: Setting, way: Way) -> Result<Made, AllocError>
    ensures { IfOk result (λ all. all ≡ noted way) }
{
    let Way { tests, made } = way;
    let made = ended(made.statements, fired_set(s.alloc)?.into_inner(), made.next)?;
    let statements = if_tests(s, tests, made.statements)?;
    Ok(Made {
        statements,
        next: made.next,
    })
}

fn fired_set(alloc: Global) -> Result<Box<CStm>, AllocError>
    ensures { IfOk result (λ made. made ≡ fired_set) }
{
    whole(set(alloc, name(alloc, b"fired"), true))
}

fn if_tests(s: Setting, tests: List<CExp>, body: List<CStm>) -> Result<List<CStm>, AllocError>
    ensures { IfOk result (λ all. all ≡ if_tests tests body) }
{
    if tests.is_empty() {
        return Ok(body);
    }
    let test = conjunction(s.alloc, tests)?;
    whole(of_one(s.alloc, one_if(s.alloc, Some(test), Some(body))))
}
