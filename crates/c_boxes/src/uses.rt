//! Which variables a result uses.
ghost use Rattle.std.specs.Prelude.{◌≡◌, ◌+◌, ◌<◌, ◌||◌, map, not, drop, length, IfOk, OnOk};
ghost use Rattle.c_analysis.specs.Raises.{arms_complete};
ghost use Rattle.c_analysis.specs.Targets.{target};
ghost use Rattle.c_expressions.specs.Expressions.{no_arm};
ghost use Rattle.c_boxes.specs.Marks.{arms_mark, case_marks, expression_marks, let_marks, marks_if, outputs_mark};
ghost use Rattle.c_boxes.specs.Results.{arm_mark, given, is_looked_at, uses_next};
ghost use Rattle.c_boxes.specs.inner.Arms.{arm_given, arm_left, body_left, result_marks};

use c_analysis::{
    Setting, are_complete, mark_used, may_raise, needs_test, pop_some_marked, push_unmarked,
};
use c_nets::Arm;
use hume_base::Ty;
use std::alloc::AllocError;
use typed_core::{TypedExpr, TypedResult};

/// Whether the body of a `let` uses its variable, the next one behind so many.
#[tactic(auto, using(crate::proofs::MarkForms::mark_forms))]
pub(crate) fn result_uses_next(
    s: Setting,
    count: usize,
    body: &TypedResult,
) -> Result<bool, AllocError>
    ensures { IfOk result (λ it. it ≡ uses_next (given (target s.entry) body.now) count) }
{
    let mut used = vec![in s.alloc; false; count]?;
    used.push(false)?;
    mark_result(s, &mut used, body)?;
    Ok(pop_some_marked(&mut used, count))
}

/// Whether the object of a `case` behind so many variables is looked at.
pub(crate) fn is_looked_at(
    s: Setting,
    count: usize,
    of: &Ty,
    arms: &[Arm],
) -> Result<bool, AllocError>
    ensures { IfOk result (λ it. it ≡ is_looked_at (target s.entry) of.now (arms_complete (target s.entry) of.now arms.now)
        (map (arm_given (target s.entry)) arms.now) count) }
{
    let mut used = vec![in s.alloc; false; count]?;
    mark_arms(s, &mut used, of, arms)
}

// Sets the marks of the variables that a result uses, of those that are in scope where it stands.
#[cycle(mark_result)]
#[tactic(auto, using(crate::proofs::MarkForms::mark_forms))]
fn mark_result(s: Setting, used: &mut Vec<bool>, it: &TypedResult) -> Result<(), AllocError>
    ensures { OnOk result (used.new.items ≡ result_marks (target s.entry) it.now used.old.items) }
{
    match it {
        TypedResult::Outs(outs) => mark_outputs(s, used, outs.as_slice()),
        TypedResult::If(test, first, second) => mark_choice(s, used, test, first, second),
        TypedResult::Case(of, part, arms) => mark_case(s, used, of, part, arms.as_slice()),
        TypedResult::Let(_, part, body) => mark_let(s, used, part, body),
        TypedResult::Raise(_, None) => Ok(()),
        TypedResult::Raise(_, Some(part)) => mark_used(s, used, part),
    }
}

#[cycle(mark_result)]
fn mark_choice(
    s: Setting,
    used: &mut Vec<bool>,
    test: &TypedExpr,
    first: &TypedResult,
    second: &TypedResult,
) -> Result<(), AllocError>
    ensures { OnOk result (used.new.items ≡ result_marks (target s.entry) second.now
        (result_marks (target s.entry) first.now (expression_marks (target s.entry) test.now used.old.items))) }
{
    mark_used(s, used, test)?;
    mark_result(s, used, first)?;
    mark_result(s, used, second)
}

#[cycle(mark_result)]
fn mark_case(
    s: Setting,
    used: &mut Vec<bool>,
    of: &Ty,
    part: &TypedExpr,
    arms: &[Arm],
) -> Result<(), AllocError>
    ensures { OnOk result (used.new.items ≡ case_marks (target s.entry) part.now
        (arms_mark (target s.entry) of.now (arms_complete (target s.entry) of.now arms.now)
        (map arm_mark (map (arm_given (target s.entry)) arms.now)) used.old.items)) }
{
    let looked_at = mark_arms(s, used, of, arms)?;
    mark_if(s, used, looked_at, part)
}

#[cycle(mark_result)]
fn mark_let(
    s: Setting,
    used: &mut Vec<bool>,
    part: &TypedExpr,
    body: &TypedResult,
) -> Result<(), AllocError>
    ensures { OnOk result (used.new.items ≡ let_marks (target s.entry) part.now (body_left (target s.entry) body.now used.old.items)) }
{
    let count = used.len();
    used.push(false)?;
    mark_result(s, used, body)?;
    let needed = pop_some_marked(used, count);
    mark_if(s, used, needed, part)
}

// Those of an expression that is evaluated only where it is needed, or may raise.
fn mark_if(
    s: Setting,
    used: &mut Vec<bool>,
    needed: bool,
    part: &TypedExpr,
) -> Result<(), AllocError>
    ensures { OnOk result (used.new.items ≡ marks_if (target s.entry) needed part.now used.old.items) }
{
    if needed || may_raise(s, part) {
        return mark_used(s, used, part);
    }
    Ok(())
}

fn mark_outputs(
    s: Setting,
    used: &mut Vec<bool>,
    outs: &[Option<TypedExpr>],
) -> Result<(), AllocError>
    ensures { OnOk result (used.new.items ≡ outputs_mark (target s.entry) outs.now used.old.items) }
{
    for out in outs {
        if let Some(e) = out {
            mark_used(s, used, e)?;
        }
    }
    Ok(())
}

// Whether the object of a `case` is looked at: by a test, or by a variable that is used. Arms behind one that matches all values
// are never written.
#[cycle(mark_result)]
#[tactic(auto, using(crate::proofs::MarkForms::arm_steps))]
fn mark_arms(s: Setting, used: &mut Vec<bool>, of: &Ty, arms: &[Arm]) -> Result<bool, AllocError>
    ensures marks { OnOk result (used.new.items ≡ (arms_mark (target s.entry) of.now (arms_complete (target s.entry) of.now arms.now)
        (map arm_mark (map (arm_given (target s.entry)) arms.now)) used.old.items).marks) }
    ensures object { IfOk result (λ it. it ≡ (arms_mark (target s.entry) of.now (arms_complete (target s.entry) of.now arms.now)
        (map arm_mark (map (arm_given (target s.entry)) arms.now)) used.old.items).object) }
{
    let complete = arms_leave_none_out(s, of, arms);
    let mut looked_at = false;
    for (place, arm) in arms.iter().enumerate() {
        let object = mark_arm(s, used, arm)?;
        if !needs_test(s, of, &arm.0) {
            return Ok(looked_at || object);
        }
        looked_at = looks(looked_at, object, goes_on(arms, place, complete));
    }
    Ok(looked_at)
}

/// Whether the alternatives of a `case` leave no value of the type out, as far as their forms tell.
pub(crate) fn arms_leave_none_out(s: Setting, of: &Ty, arms: &[Arm]) -> bool
    ensures { result ≡ arms_complete (target s.entry) of.now arms.now }
{
    are_complete(s.data(), of, arms)
}

fn looks(looked_at: bool, object: bool, goes_on: bool) -> bool
    ensures { result ≡ (looked_at || (object || goes_on)) }
{
    looked_at || object || goes_on
}

// Whether something is tried behind an arm that has tests.
#[tactic(auto, using(crate::proofs::MarkForms::arm_steps))]
fn goes_on(arms: &[Arm], place: usize, complete: bool) -> bool
    requires { place < length arms.now }
    ensures { result ≡ (not (no_arm (drop (place + 1) arms.now)) || not complete) }
{
    place + 1 != arms.len() || !complete
}

// Whether the body of an arm uses a variable of its pattern.
#[cycle(mark_result)]
fn mark_arm(s: Setting, used: &mut Vec<bool>, arm: &Arm) -> Result<bool, AllocError>
    ensures marks { OnOk result (used.new.items ≡ (arm_left (target s.entry) arm.now used.old.items).marks) }
    ensures object { IfOk result (λ it. it ≡ (arm_left (target s.entry) arm.now used.old.items).object) }
{
    let count = used.len();
    push_unmarked(used, &arm.0)?;
    mark_result(s, used, &arm.1)?;
    Ok(pop_some_marked(used, count))
}
