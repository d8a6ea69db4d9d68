//! Rules: when they fit, what they do, and what they take.
ghost use Rattle.std.specs.Prelude.{◌≡◌, ◌+◌, ◌++◌, [], IfOk, OnOk, option_copied};
ghost use Rattle.c_tree.specs.declared.tree.CExp.TheVariants as exp;
ghost use Rattle.c_names.specs.Names.{rule_name};
ghost use Rattle.hume_exceptions.specs.Sets.{IsRaisesOf};
ghost use Rattle.c_analysis.specs.Targets.{target};
ghost use Rattle.c_boxes.specs.Rules.{called, done, fired, pattern_match, position_at, position_match, positions_match};
ghost use Rattle.c_boxes.specs.Rules.{raises_at, rule_raises, rule_way, rules_made, rules_raise};
ghost use Rattle.c_boxes.specs.inner.Nodes.{shown};

use crate::results::result_made;
use c_analysis::Setting;
use c_expressions::{Made, Way, defined, ended, is_last_way, matched, nothing, plain, ways_tried};
use c_forms::{called as function_called, whole};
use c_functions::has_some;
use c_nets::{Inlet, handled, input_at, is_there, oldest, taken};
use c_tree::{CExp, CType, Width};
use hume_base::{Box, List};
use hume_exceptions::{Raises, result_may_raise};
use hume_model::{BoxC, Core, InPat, PatC, PortC, RuleC};
use std::alloc::{AllocError, Global};
use typed_core::TypedRule;

/// A box of the net: the number of its node, and which of its rules may raise an exception.
#[derive(Clone, Copy)]
pub(crate) struct Node<'a> {
    pub(crate) number: usize,
    pub(crate) core: &'a BoxC,
    pub(crate) raising: &'a [bool],
}

/// Which rules of a box may raise an exception.
pub(crate) fn rules_raise(
    alloc: Global,
    core: &Core,
    raises: &Raises,
    b: &BoxC,
) -> Result<List<bool>, AllocError>
    requires { IsRaisesOf core.now raises.now }
    ensures { IfOk result (λ all. all ≡ rules_raise core.now b.now) }
{
    let mut all = List::new(alloc);
    for rule in b.rules.as_slice() {
        all.push(rule_raises(core, raises, rule))?;
    }
    Ok(all)
}

#[tactic(auto, using(crate::proofs::Raising::raising_steps))]
fn rule_raises(core: &Core, raises: &Raises, rule: &RuleC) -> bool
    requires { IsRaisesOf core.now raises.now }
    ensures { result ≡ rule_raises core.now rule.now }
{
    has_some(result_may_raise(core, raises, &rule.result))
}

pub(crate) fn raises_at(node: Node, place: usize) -> bool
    ensures { result ≡ raises_at (shown node.entry) place }
{
    match node.raising.get(place) {
        Some(raises) => *raises,
        None => false,
    }
}

/// The tests of the positions of a rule; its variables come into scope.
#[tactic(auto, using(crate::proofs::RuleForms::rule_steps))]
pub(crate) fn positions_match(
    s: Setting,
    node: Node,
    scope: &mut List<CExp>,
    positions: &[InPat],
) -> Result<List<CExp>, AllocError>
    ensures tests { IfOk result (λ tests. tests ≡ (positions_match (target s.entry) (shown node.entry) 0 positions.now).tests) }
    ensures objects { OnOk result (scope.new ≡ scope.old ++ (positions_match (target s.entry) (shown node.entry) 0 positions.now).objects) }
{
    let mut tests = List::new(s.alloc);
    for (place, position) in positions.iter().enumerate() {
        let inlet = input_at(s.alloc, s.core, s.names(), node.number, node.core, place)?;
        let port = node.core.ins.get(place);
        position_at(s, scope, &mut tests, position, port, &inlet)?;
    }
    Ok(tests)
}

fn position_at(
    s: Setting,
    scope: &mut List<CExp>,
    tests: &mut List<CExp>,
    position: &InPat,
    port: Option<&PortC>,
    inlet: &Option<Inlet>,
) -> Result<(), AllocError>
    ensures tests { OnOk result (tests.new ≡ tests.old ++ (position_at (target s.entry) position.now (option_copied port.entry) inlet.now).tests) }
    ensures objects { OnOk result (scope.new ≡ scope.old ++ (position_at (target s.entry) position.now (option_copied port.entry) inlet.now).objects) }
{
    match inlet {
        None => Ok(()),
        Some(inlet) => position_match(s, scope, tests, position, port, inlet),
    }
}

#[tactic(auto, using(crate::proofs::RuleForms::rule_steps))]
fn position_match(
    s: Setting,
    scope: &mut List<CExp>,
    tests: &mut List<CExp>,
    position: &InPat,
    port: Option<&PortC>,
    inlet: &Inlet,
) -> Result<(), AllocError>
    ensures tests { OnOk result (tests.new ≡ tests.old ++ (position_match (target s.entry) position.now (option_copied port.entry) inlet.now).tests) }
    ensures objects { OnOk result (scope.new ≡ scope.old ++ (position_match (target s.entry) position.now (option_copied port.entry) inlet.now).objects) }
{
    match position {
        InPat::Star | InPat::AnyStar => Ok(()),
        InPat::Any => tests.push(is_there(s.alloc, inlet).ok_or(AllocError)?.into_inner()),
        InPat::Built(pattern) => {
            tests.push(is_there(s.alloc, inlet).ok_or(AllocError)?.into_inner())?;
            pattern_match(s, scope, tests, pattern, port, inlet)
        }
    }
}

fn pattern_match(
    s: Setting,
    scope: &mut List<CExp>,
    tests: &mut List<CExp>,
    pattern: &PatC,
    port: Option<&PortC>,
    inlet: &Inlet,
) -> Result<(), AllocError>
    ensures tests { OnOk result (tests.new ≡ tests.old ++ (pattern_match (target s.entry) pattern.now (option_copied port.entry) inlet.now).tests) }
    ensures objects { OnOk result (scope.new ≡ scope.old ++ (pattern_match (target s.entry) pattern.now (option_copied port.entry) inlet.now).objects) }
{
    match port {
        None => Ok(()),
        Some(port) => {
            let object = oldest(s.alloc, inlet).ok_or(AllocError)?;
            matched(s, scope, tests, &port.ty, &object, pattern)
        }
    }
}

/// The statements of a rule that fits, whose variables are in scope. One that may raise is a function of its own.
pub(crate) fn fired(
    s: Setting,
    node: Node,
    scope: &mut List<CExp>,
    next: u32,
    place: usize,
    rule: &TypedRule,
) -> Result<Made, AllocError>
    ensures made { IfOk result (λ all. all ≡ fired (target s.entry) (shown node.entry) scope.old place rule.now next) }
    ensures scope { OnOk result (scope.new ≡ scope.old) }
{
    let all = done(s, node, scope, next, place, rule)?;
    let positions = rule.pats.as_slice();
    let more = taken(
        s.alloc,
        s.core,
        s.names(),
        node.number,
        node.core,
        positions,
    );
    let mut statements = all.statements;
    statements.append(more.ok_or(AllocError)?)?;
    Ok(Made {
        statements,
        next: all.next,
    })
}

fn done(
    s: Setting,
    node: Node,
    scope: &mut List<CExp>,
    next: u32,
    place: usize,
    rule: &TypedRule,
) -> Result<Made, AllocError>
    ensures made { IfOk result (λ all. all ≡ done (target s.entry) (shown node.entry) scope.old place rule.now next) }
    ensures scope { OnOk result (scope.new ≡ scope.old) }
{
    if raises_at(node, place) {
        return called(s, node, next, place);
    }
    result_made(s, node.core, scope, next, &rule.result)
}

// The function of the rule is called; the exception that it raises is handled.
fn called(s: Setting, node: Node, next: u32, place: usize) -> Result<Made, AllocError>
    ensures { IfOk result (λ all. all ≡ called (target s.entry) (shown node.entry) place next) }
{
    let call = rule_called(s, node, place)?;
    let status = defined(
        s.alloc,
        CType::Unsigned(Width::W8),
        plain(s.alloc, call, next),
    )?;
    let last = handled(s.alloc, s.names(), node.core, status.exp).ok_or(AllocError)?;
    ended(status.statements, last.into_inner(), status.next)
}

fn rule_called(s: Setting, node: Node, place: usize) -> Result<Box<CExp>, AllocError>
    ensures { IfOk result (λ e. e ≡ exp.Call (rule_name (target s.entry).file.names (place + 1) (shown node.entry).core.name) []) }
{
    let number = next_place(place)? as u64;
    let rule = s.names().rule(s.alloc, number, node.core.name.bytes())?;
    whole(function_called(s.alloc, Some(rule), Some(List::new(s.alloc))))
}

/// The place behind a place. It is also the number of the rule at the place, as these count from 1 on.
pub(crate) fn next_place(place: usize) -> Result<usize, AllocError>
    ensures { IfOk result (λ it. it ≡ place + 1) }
{
    if place == usize::MAX {
        return Err(AllocError);
    }
    Ok(place + 1)
}

/// The first rule that fits fires. No rules are complete: none is known to fit where those before it don't.
pub(crate) fn rules_made(
    s: Setting,
    node: Node,
    next: u32,
    rules: &[TypedRule],
) -> Result<Made, AllocError>
    ensures { IfOk result (λ all. all ≡ rules_made (target s.entry) (shown node.entry) 0 rules.now next) }
{
    let mut ways = List::new(s.alloc);
    let mut next = next;
    for (place, rule) in rules.iter().enumerate() {
        let way = rule_way(s, node, next, place, rule)?;
        if is_last_way(&way, rules, place, false) {
            return ways_tried(s.alloc, ways, way.made);
        }
        next = way.made.next;
        ways.push(way)?;
    }
    ways_tried(s.alloc, ways, nothing(s.alloc, next))
}

/// The tests of a rule, and what it does where all of them hold.
pub(crate) fn rule_way(
    s: Setting,
    node: Node,
    next: u32,
    place: usize,
    rule: &TypedRule,
) -> Result<Way, AllocError>
    ensures { IfOk result (λ way. way ≡ rule_way (target s.entry) (shown node.entry) place rule.now next) }
{
    let mut scope = List::new(s.alloc);
    let tests = positions_match(s, node, &mut scope, rule.pats.as_slice())?;
    let made = fired(s, node, &mut scope, next, place, rule)?;
    Ok(Way { tests, made })
}
