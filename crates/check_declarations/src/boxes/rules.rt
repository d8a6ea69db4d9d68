//! The rules of a box whose types are the last ones of the stack.
ghost use Rattle.std.specs.Prelude.{◌≡◌, [], false, Some, None, OnOk, IfOk, IfErr};
ghost use Rattle.check_expressions.specs.declared.stop.Stop.TheVariants.{NoType};
ghost use Rattle.check_declarations.specs.boxes.inner.Rules.{with_rule, rule_at, rules_at, together};

use crate::boxes::positions::positions;
use crate::results::ResultElaboration;
use check_expressions::Stop;
use hume_ast::{Exp, Pat};
use hume_base::List;
use hume_model::InPat;
use std::alloc::Global;
use typed_core::TypedRule;

/// The trees of rules, and whether a literal in one of them is out of the range of its type.
#[tactic(auto, using(crate::proofs::boxes_lemmas::Lists::rules_steps))]
pub(crate) fn rule_cores<'a>(
    alloc: Global,
    at: &mut ResultElaboration<'a>,
    rules: &'a [(List<Pat>, Exp)],
) -> Result<(List<TypedRule>, bool), Stop>
    ensures keeps { OnOk result (at.new ≡ at.old) }
    ensures ok { IfOk result (λ found. together ([], false) (rules_at at.old rules.now) ≡ Some found) }
    ensures none { IfErr result (λ stop. stop ≡ NoType → together ([], false) (rules_at at.old rules.now) ≡ None) }
{
    let mut cores = List::new(alloc);
    let mut some_too_wide = false;
    for rule in rules {
        let (core, too_wide) = rule_core(alloc, at, rule.0.as_slice(), &rule.1)?;
        cores.push(core)?;
        some_too_wide = some_too_wide || too_wide;
    }
    Ok((cores, some_too_wide))
}

// The tree of a rule, and whether a literal in it is out of the range of its type.
#[tactic(auto, using(crate::proofs::boxes_lemmas::RuleLaws::found_steps))]
fn rule_core<'a>(
    alloc: Global,
    at: &mut ResultElaboration<'a>,
    pats: &'a [Pat],
    e: &'a Exp,
) -> Result<(TypedRule, bool), Stop>
    ensures keeps { OnOk result (at.new ≡ at.old) }
    ensures ok { IfOk result (λ found. rule_at at.old pats.now e.now ≡ Some found) }
    ensures none { IfErr result (λ stop. stop ≡ NoType → rule_at at.old pats.now e.now ≡ None) }
{
    let count = at.plain.environment.variables();
    let (pats, some_too_wide) = check_rule(alloc, at, pats, e)?;
    at.plain.environment.leave(count);
    let (result, too_wide) = at.take_result()?;
    let result = result.into_inner();
    Ok((TypedRule { pats, result }, some_too_wide || too_wide))
}

// The positions against the types of the inputs, and the result against those of the outputs.
#[tactic(auto, using(crate::proofs::boxes_lemmas::RuleLaws::checked_steps))]
fn check_rule<'a>(
    alloc: Global,
    at: &mut ResultElaboration<'a>,
    pats: &'a [Pat],
    e: &'a Exp,
) -> Result<(List<InPat>, bool), Stop>
    ensures ok { IfOk result (λ found. with_rule pats.now e.now at.old ≡ Some (found, at.new)) }
    ensures none { IfErr result (λ stop. stop ≡ NoType → with_rule pats.now e.now at.old ≡ None) }
{
    at.plain.environment.repeat_below()?;
    let found = positions(alloc, &mut at.plain, pats)?;
    at.plain.environment.pop();
    at.result(alloc, e)?;
    Ok(found)
}
