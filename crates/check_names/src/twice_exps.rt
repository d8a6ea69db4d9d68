//! Patterns in expressions that bind a variable twice.
ghost use Rattle.std.specs.Prelude.{◌≡◌, [], ◌||◌, map, IfOk};
ghost use Rattle.check_names.specs.Names.{repeats};
ghost use Rattle.check_names.specs.Mentions.{variables_of};
ghost use Rattle.check_names.specs.Twice as twice;
ghost use Rattle.check_names.specs.inner.Alternatives.{alternative_twice};

use crate::mention_types::bind;
use crate::name_list::NameList;
use crate::repeated::come_twice;
use hume_ast::{Exp, Pat};
use hume_base::{Box, List};
use std::alloc::{AllocError, Global};

/// Whether a `case` in an expression has a pattern that binds a variable twice.
#[cycle(twice_exps)]
#[tactic(auto, using(crate::proofs::MentionSteps::exp_steps))]
pub(crate) fn exp_binds_twice(alloc: Global, exp: &Exp) -> Result<bool, AllocError>
    ensures { IfOk result (λ yes. yes ≡ twice.exp_binds_twice exp.now) }
{
    match exp {
        Exp::Let(_, value, body) => one_of_two(alloc, value, body),
        Exp::If(test, first, second) => one_of_three(alloc, test, first, second),
        Exp::Case(subject, alternatives) => {
            let yes = case_binds_twice(alloc, subject, alternatives)?;
            Ok(yes)
        }
        Exp::Raise(_, None) => Ok(false),
        Exp::Raise(_, Some(value)) => part_binds_twice(alloc, value),
        Exp::Binary(_, left, right) => one_of_two(alloc, left, right),
        Exp::Neg(part) => part_binds_twice(alloc, part),
        Exp::Not(part) => part_binds_twice(alloc, part),
        Exp::App(_, parts) => one_binds_twice(alloc, parts),
        Exp::Con(_, parts) => one_binds_twice(alloc, parts),
        Exp::Update(vector, at, item) => one_of_three(alloc, vector, at, item),
        Exp::Num(_, _) => Ok(false),
        Exp::Letter(_) => Ok(false),
        Exp::Truth(_) => Ok(false),
        Exp::Paren(inner) => part_binds_twice(alloc, inner),
        Exp::Tuple(parts) => one_binds_twice(alloc, parts),
        Exp::Cast(inner, _) => part_binds_twice(alloc, inner),
        Exp::Vect(items) => one_binds_twice(alloc, items),
        Exp::Star => Ok(false),
    }
}

#[cycle(twice_exps)]
fn part_binds_twice(alloc: Global, part: &Box<Exp>) -> Result<bool, AllocError>
    ensures { IfOk result (λ yes. yes ≡ twice.exp_binds_twice part.now) }
{
    exp_binds_twice(alloc, part.get())
}

#[cycle(twice_exps)]
fn one_of_two(alloc: Global, left: &Box<Exp>, right: &Box<Exp>) -> Result<bool, AllocError>
    ensures { IfOk result (λ yes. yes ≡ (twice.exp_binds_twice left.now || twice.exp_binds_twice right.now)) }
{
    let in_left = part_binds_twice(alloc, left)?;
    let in_right = part_binds_twice(alloc, right)?;
    Ok(in_left | in_right)
}

#[cycle(twice_exps)]
fn one_of_three(
    alloc: Global,
    first: &Box<Exp>,
    second: &Box<Exp>,
    third: &Box<Exp>,
) -> Result<bool, AllocError>
    ensures { IfOk result (λ yes. yes ≡ (twice.exp_binds_twice first.now || (twice.exp_binds_twice second.now || twice.exp_binds_twice third.now))) }
{
    let in_first = part_binds_twice(alloc, first)?;
    let in_second = part_binds_twice(alloc, second)?;
    let in_third = part_binds_twice(alloc, third)?;
    Ok(in_first | (in_second | in_third))
}

#[cycle(twice_exps)]
#[tactic(auto, using(crate::proofs::MentionSteps::exp_steps))]
fn one_binds_twice(alloc: Global, exps: &List<Exp>) -> Result<bool, AllocError>
    ensures { IfOk result (λ yes. yes ≡ twice.any_true (map twice.exp_binds_twice exps.now)) }
{
    for exp in exps.as_slice() {
        if exp_binds_twice(alloc, exp)? {
            return Ok(true);
        }
    }
    Ok(false)
}

#[cycle(twice_exps)]
fn case_binds_twice(
    alloc: Global,
    subject: &Box<Exp>,
    alternatives: &List<(Pat, Exp)>,
) -> Result<bool, AllocError>
    ensures { IfOk result (λ yes. yes ≡ (twice.exp_binds_twice subject.now || twice.any_alternative (map alternative_twice alternatives.now))) }
{
    let in_subject = part_binds_twice(alloc, subject)?;
    let in_alternatives = alternatives_bind_twice(alloc, alternatives)?;
    Ok(in_subject | in_alternatives)
}

#[cycle(twice_exps)]
#[tactic(auto, using(crate::proofs::MentionSteps::exp_steps))]
fn alternatives_bind_twice(
    alloc: Global,
    alternatives: &List<(Pat, Exp)>,
) -> Result<bool, AllocError>
    ensures { IfOk result (λ yes. yes ≡ twice.any_alternative (map alternative_twice alternatives.now)) }
{
    for alternative in alternatives.as_slice() {
        if alternative_binds_twice(alloc, &alternative.0, &alternative.1)? {
            return Ok(true);
        }
    }
    Ok(false)
}

#[cycle(twice_exps)]
fn alternative_binds_twice(alloc: Global, pattern: &Pat, exp: &Exp) -> Result<bool, AllocError>
    ensures { IfOk result (λ yes. yes ≡ (repeats [] (variables_of pattern.now) || twice.exp_binds_twice exp.now)) }
{
    let own = pattern_binds_twice(alloc, pattern)?;
    let inner = exp_binds_twice(alloc, exp)?;
    Ok(own | inner)
}

fn pattern_binds_twice(alloc: Global, pattern: &Pat) -> Result<bool, AllocError>
    ensures { IfOk result (λ yes. yes ≡ repeats [] (variables_of pattern.now)) }
{
    let mut names = NameList::new(alloc);
    bind(&mut names, pattern)?;
    come_twice(alloc, names)
}
