//! Lines of a script, and the steps that they ask for.
ghost use Rattle.std.specs.Prelude.{◌≡◌, ◌⊎◌, ◌≤◌, ◌<◌, [], ◌∷◌, IfErr, IfOk, IfSome, MatchOption, None, Some, codes, length};
ghost use Rattle.std.specs.List.{position};
ghost use Rattle.calculus_laws.specs.Boxes.{box_at};
ghost use Rattle.box_calculus.specs.declared.lines.StepError.TheVariants.{Bad, NoMemory as OutOfMemory};
ghost use Rattle.box_calculus.specs.Lines.{box_number, is_box_named, is_space, name_of, number_of, rule_in, rule_place, on_rule_of, rule_within, rules_of, step_of, words_of};

use crate::numbers::{is_number, value};
use calculus_laws::Step;
use hume_base::Text;
use hume_base::limits::MAX_NODES;
use hume_model::{Core, NodeC};
use std::alloc::{AllocError, Global};

/// Why a line isn't read.
#[derive(Clone, Copy)]
pub enum StepError {
    /// The line has no form of a step, there is no such box, or the box has no such rule.
    Bad,
    /// Memory has run out.
    NoMemory,
}

impl From<AllocError> for StepError {
    ghost use Rattle.std.specs.Prelude.{◌≡◌};
    ghost use Rattle.box_calculus.specs.declared.lines.StepError.TheVariants.{NoMemory};

    ghost from_gives = { λ _ error. error ≡ NoMemory };

    fn from(_: AllocError) -> Self {
        StepError::NoMemory
    }
}

/// The numbers of a box and of one of its rules, from 0.
#[derive(Clone, Copy)]
pub struct RulePlace {
    pub node: u32,
    pub rule: u32,
}

/// The step that a line asks for: `swap BOX RULE`, `unfold BOX RULE` or `name BOX RULE FUNCTION`, where RULE counts from 1.
#[tactic(auto, using(crate::proofs::Cuts::too_many_words))]
pub fn read_step(alloc: Global, core: &Core, line: &[u8]) -> Result<Step, StepError>
    requires { length core.now.nodes ≤ MAX_NODES }
    ensures step { IfOk result (λ step. step_of core.now line.now ≡ Some step) }
    ensures bad { IfErr result (λ error. (error ≡ OutOfMemory) ⊎ ((error ≡ Bad) × (step_of core.now line.now ≡ None))) }
{
    let Some((verb, later)) = cut(line) else {
        return Err(StepError::Bad);
    };
    let Some((name, later)) = cut(later) else {
        return Err(StepError::Bad);
    };
    match cut(later) {
        None => read_on_rule(core, verb, name, later),
        Some((rule, function)) => match cut(function) {
            None => read_name(alloc, core, verb, name, rule, function),
            Some(_) => Err(StepError::Bad),
        },
    }
}

fn read_on_rule(core: &Core, verb: &[u8], name: &[u8], rule: &[u8]) -> Result<Step, StepError>
    requires { length core.now.nodes ≤ MAX_NODES }
    ensures step { IfOk result (λ step. on_rule_of core.now verb.now name.now rule.now ≡ Some step) }
    ensures bad { IfErr result (λ error. (error ≡ Bad) × (on_rule_of core.now verb.now name.now rule.now ≡ None)) }
{
    let Some(at) = find_rule(core, name, rule) else {
        return Err(StepError::Bad);
    };
    if verb == b"swap".as_slice() {
        return Ok(Step::Swap {
            node: at.node,
            rule: at.rule,
        });
    }
    if verb == b"unfold".as_slice() {
        return Ok(Step::Unfold {
            node: at.node,
            rule: at.rule,
        });
    }
    Err(StepError::Bad)
}

fn read_name(
    alloc: Global,
    core: &Core,
    verb: &[u8],
    name: &[u8],
    rule: &[u8],
    function: &[u8],
) -> Result<Step, StepError>
    requires { length core.now.nodes ≤ MAX_NODES }
    ensures step { IfOk result (λ step. name_of core.now verb.now name.now rule.now function.now ≡ Some step) }
    ensures bad { IfErr result (λ error.
        (error ≡ OutOfMemory) ⊎ ((error ≡ Bad) × (name_of core.now verb.now name.now rule.now function.now ≡ None))) }
{
    if verb != b"name".as_slice() || function.is_empty() {
        return Err(StepError::Bad);
    }
    match find_rule(core, name, rule) {
        Some(at) => Ok(Step::Name {
            node: at.node,
            rule: at.rule,
            name: Text::from_bytes(alloc, function)?,
        }),
        None => Err(StepError::Bad),
    }
}

fn find_rule(core: &Core, name: &[u8], word: &[u8]) -> Option<RulePlace>
    requires { length core.now.nodes ≤ MAX_NODES }
    ensures { result ≡ rule_place core.now name.now word.now }
{
    let node = find_box(core, name)?;
    let rule = rule_number(count_rules(core, node), word)?;
    Some(RulePlace { node, rule })
}

#[tactic(auto, using(std::proofs::lemmas::Option::slice_get_within))]
fn find_box(core: &Core, name: &[u8]) -> Option<u32>
    requires { length core.now.nodes ≤ MAX_NODES }
    ensures { result ≡ box_number core.now name.now }
{
    let place = box_place(core.nodes.as_slice(), name)?;
    Some(place as u32)
}

#[tactic(auto, using(crate::proofs::Cuts::position_within))]
fn box_place(nodes: &[NodeC], name: &[u8]) -> Option<usize>
    ensures place { result ≡ position (is_box_named name.now) nodes.now }
    ensures within { IfSome result (λ place. place < length nodes.now) }
{
    nodes.iter().position(|node| is_box_named(node, name))
}

fn is_box_named(node: &NodeC, name: &[u8]) -> bool
    ensures { result ≡ is_box_named name.now node.now }
{
    match node {
        NodeC::Rules(b) => b.name.bytes() == name,
        _ => false,
    }
}

fn count_rules(core: &Core, node: u32) -> usize
    ensures { result ≡ rules_of (box_at core.now node) }
{
    match core.nodes.get(node as usize) {
        Some(NodeC::Rules(b)) => b.rules.len(),
        _ => 0,
    }
}

fn rule_number(count: usize, word: &[u8]) -> Option<u32>
    ensures { result ≡ rule_within count (number_of word.now) }
{
    if !is_number(word) {
        return None;
    }
    let number = value(word);
    if 1 <= number && number as usize <= count {
        return Some(number - 1);
    }
    None
}

// The bytes before the first space and those after it, if there is one.
#[tactic(auto, using(crate::proofs::Cuts::cut_steps))]
fn cut(line: &[u8]) -> Option<(&[u8], &[u8])>
    ensures { MatchOption result (words_of line.now ≡ line.now ∷ []) (λ p. words_of line.now ≡ p.0.now ∷ words_of p.1.now) }
{
    match space_place(line) {
        None => None,
        Some(at) => Some((&line[..at], &line[at + 1..])),
    }
}

fn space_place(line: &[u8]) -> Option<usize>
    ensures { result ≡ position is_space line.now }
{
    line.iter().position(|byte| *byte == b' ')
}
