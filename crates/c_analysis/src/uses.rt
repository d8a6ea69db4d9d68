//! Which variables an expression uses.
ghost use Rattle.std.specs.Prelude.{◌≡◌, ◌+◌, ◌<◌, ◌||◌, [], ◌∷◌, ◌++◌, IfOk, OnOk, drop, false, not, length, map, replicate, slice_get, slice_set, sum, take, true};
ghost use Rattle.hume_model.specs.declared.core_tree.PatC.{PatC as Pattern};
ghost use Rattle.typed_core.specs.declared.typed_tree.TypedExpr.{TypedExpr as Tree};
ghost use Rattle.c_analysis.specs.Needs.{variables};
ghost use Rattle.c_analysis.specs.Plain.{uses_argument};
ghost use Rattle.c_analysis.specs.Raises.{arms_complete};
ghost use Rattle.c_analysis.specs.Seen.{seen};
ghost use Rattle.c_analysis.specs.Targets.{target};
ghost use Rattle.c_analysis.specs.Uses.{call_uses, looked_at, marked, uses, uses_step};
ghost use Rattle.c_analysis.specs.inner.Marks.{arguments_mark, arm_marks, arms_mark, arm_seen, case_marks, is_last, let_marks, mark_if, marks_of, parts_mark, seen_marks, some_set};

use crate::complete::arms_are_complete;
use crate::needs::needs_test;
use crate::raises::may_raise;
use crate::setting::{Called, Setting};
use hume_base::Ty;
use hume_model::PatC;
use std::alloc::AllocError;
use typed_core::TypedExpr;

/// Which variables an expression uses, of those that are in scope where it stands: a mark for each.
#[tactic(auto, using(crate::proofs::MarkLaws::mark_laws))]
pub fn mark_used(s: Setting, used: &mut Vec<bool>, e: &TypedExpr) -> Result<(), AllocError>
    ensures { OnOk result (used.new.items ≡ marked (uses (target s.entry) e.now (length used.old.items)) used.old.items) }
{
    set_marks(s, used, e)
}

// The marks go from part to part.
#[cycle(mark_used)]
#[tactic(auto, using(crate::proofs::MarkForms::mark_forms))]
fn set_marks(s: Setting, used: &mut Vec<bool>, e: &TypedExpr) -> Result<(), AllocError>
    ensures { OnOk result (used.new.items ≡ marks_of (target s.entry) e.now used.old.items) }
{
    match e {
        TypedExpr::Word(_) | TypedExpr::Raise(_, None) => Ok(()),
        TypedExpr::Var(number) => {
            mark(used, *number as usize);
            Ok(())
        }
        TypedExpr::Con(_, parts) => mark_parts(s, used, parts.as_slice()),
        TypedExpr::Tuple(parts) => mark_parts(s, used, parts.as_slice()),
        TypedExpr::Vect(parts) => mark_parts(s, used, parts.as_slice()),
        TypedExpr::Prim(_, _, parts) => mark_parts(s, used, parts.as_slice()),
        TypedExpr::Convert(_, _, part) | TypedExpr::Raise(_, Some(part)) => {
            set_marks(s, used, part)
        }
        TypedExpr::Index(_, _, vector, place) => mark_two(s, used, vector, place),
        TypedExpr::Update(_, _, vector, place, item) => mark_three(s, used, vector, place, item),
        TypedExpr::If(test, yes, no) => mark_three(s, used, test, yes, no),
        TypedExpr::Case(of, part, arms) => mark_case(s, used, of, part, arms.as_slice()),
        TypedExpr::Let(_, part, body) => mark_let(s, used, part, body),
        TypedExpr::Call(function, parts) => mark_arguments(s, used, *function, parts.as_slice()),
    }
}

#[cycle(mark_used)]
fn mark_two(
    s: Setting,
    used: &mut Vec<bool>,
    first: &TypedExpr,
    second: &TypedExpr,
) -> Result<(), AllocError>
    ensures { OnOk result (used.new.items ≡ marks_of (target s.entry) second.now (marks_of (target s.entry) first.now used.old.items)) }
{
    set_marks(s, used, first)?;
    set_marks(s, used, second)
}

#[cycle(mark_used)]
fn mark_three(
    s: Setting,
    used: &mut Vec<bool>,
    first: &TypedExpr,
    second: &TypedExpr,
    third: &TypedExpr,
) -> Result<(), AllocError>
    ensures { OnOk result (used.new.items ≡ marks_of (target s.entry) third.now
        (marks_of (target s.entry) second.now (marks_of (target s.entry) first.now used.old.items))) }
{
    mark_two(s, used, first, second)?;
    set_marks(s, used, third)
}

// What a part uses, where its value is needed.
#[cycle(mark_used)]
fn mark_needed(
    s: Setting,
    used: &mut Vec<bool>,
    part: &TypedExpr,
    needed: bool,
) -> Result<(), AllocError>
    ensures { OnOk result (used.new.items ≡ mark_if needed (seen_marks (target s.entry) part.now) used.old.items) }
{
    if needed {
        set_marks(s, used, part)
    } else {
        Ok(())
    }
}

#[cycle(mark_used)]
fn mark_case(
    s: Setting,
    used: &mut Vec<bool>,
    of: &Ty,
    part: &TypedExpr,
    arms: &[(PatC, TypedExpr)],
) -> Result<(), AllocError>
    ensures { OnOk result (used.new.items ≡ case_marks (target s.entry) (seen_marks (target s.entry) part.now)
        (arms_mark (target s.entry) of.now (arms_complete (target s.entry) of.now arms.now) (map (arm_seen (target s.entry)) arms.now) used.old.items)) }
{
    let looked_at = mark_arms(s, used, of, arms)?;
    mark_needed(s, used, part, looked_at || may_raise(s, part))
}

#[cycle(mark_used)]
fn mark_let(
    s: Setting,
    used: &mut Vec<bool>,
    part: &TypedExpr,
    body: &TypedExpr,
) -> Result<(), AllocError>
    ensures { OnOk result (used.new.items ≡ let_marks (target s.entry) (seen_marks (target s.entry) part.now) (length used.old.items)
        (marks_of (target s.entry) body.now (used.old.items ++ false ∷ []))) }
{
    let count = used.len();
    used.push(false)?;
    set_marks(s, used, body)?;
    let next_used = pop_some_marked(used, count);
    mark_needed(s, used, part, next_used || may_raise(s, part))
}

fn mark(used: &mut Vec<bool>, number: usize)
    ensures { used.new.items ≡ slice_set used.old.items number true }
{
    if number < used.len() {
        used[number] = true;
    }
}

/// Takes the marks behind the first `count`, and tells whether one of them is set.
pub fn pop_some_marked(used: &mut Vec<bool>, count: usize) -> bool
    ensures some { result ≡ some_set count used.old.items }
    ensures rest { used.new.items ≡ take count used.old.items }
{
    let some = some_marked(used.as_slice(), count);
    used.truncate(count);
    some
}

// Whether a mark behind the first `count` is set.
fn some_marked(used: &[bool], count: usize) -> bool
    ensures { result ≡ some_set count used.now }
{
    for (place, marked) in used.iter().enumerate() {
        if place >= count && *marked {
            return true;
        }
    }
    false
}

/// A mark for each variable of a pattern, none of which is set.
#[cycle(push_unmarked)]
#[tactic(auto, using(crate::proofs::MarkForms::variable_forms))]
pub fn push_unmarked(used: &mut Vec<bool>, pattern: &PatC) -> Result<(), AllocError>
    ensures { OnOk result (used.new.items ≡ used.old.items ++ replicate (variables pattern.now) false) }
{
    match pattern {
        PatC::Var => {
            used.push(false)?;
            Ok(())
        }
        PatC::Any | PatC::Word(_) => Ok(()),
        PatC::Con(_, parts) | PatC::Tuple(parts) => push_all_unmarked(used, parts.as_slice()),
    }
}

#[cycle(push_unmarked)]
#[tactic(auto, using(crate::proofs::MarkForms::variable_forms))]
fn push_all_unmarked(used: &mut Vec<bool>, patterns: &[PatC]) -> Result<(), AllocError>
    ensures { OnOk result (used.new.items ≡ used.old.items ++ replicate (sum (map variables patterns.now)) false) }
{
    for pattern in patterns {
        push_unmarked(used, pattern)?;
    }
    Ok(())
}

#[cycle(mark_used)]
fn mark_parts(s: Setting, used: &mut Vec<bool>, parts: &[TypedExpr]) -> Result<(), AllocError>
    ensures { OnOk result (used.new.items ≡ parts_mark (map (seen_marks (target s.entry)) parts.now) used.old.items) }
{
    for part in parts {
        set_marks(s, used, part)?;
    }
    Ok(())
}

// Whether the object of a `case` is looked at: by a test, or by a variable that is used. Arms behind one that matches all values
// are never written.
#[cycle(mark_used)]
#[tactic(auto, using(crate::proofs::MarkForms::arm_steps))]
fn mark_arms(
    s: Setting,
    used: &mut Vec<bool>,
    of: &Ty,
    arms: &[(PatC, TypedExpr)],
) -> Result<bool, AllocError>
    ensures marks { OnOk result (used.new.items ≡ (arms_mark (target s.entry) of.now (arms_complete (target s.entry) of.now arms.now)
        (map (arm_seen (target s.entry)) arms.now) used.old.items).marks) }
    ensures object { IfOk result (λ it. it ≡ (arms_mark (target s.entry) of.now (arms_complete (target s.entry) of.now arms.now)
        (map (arm_seen (target s.entry)) arms.now) used.old.items).object) }
{
    let complete = arms_are_complete(s, of, arms);
    let mut looked_at = false;
    for (place, arm) in arms.iter().enumerate() {
        let object = mark_arm(s, used, arm)?;
        if !needs_test(s, of, &arm.0) {
            return Ok(looked_at || object);
        }
        looked_at = looks(looked_at, object, goes_on(arms, place, complete));
    }
    Ok(looked_at)
}

fn looks(looked_at: bool, object: bool, goes_on: bool) -> bool
    ensures { result ≡ (looked_at || (object || goes_on)) }
{
    looked_at || object || goes_on
}

// Whether something is tried behind an arm that has tests.
#[tactic(auto, using(crate::proofs::MarkForms::arm_steps))]
fn goes_on(arms: &[(PatC, TypedExpr)], place: usize, complete: bool) -> bool
    requires { place < length arms.now }
    ensures { result ≡ (not (is_last (drop (place + 1) arms.now)) || not complete) }
{
    place + 1 != arms.len() || !complete
}

// Whether the body of an arm uses a variable of its pattern.
#[cycle(mark_used)]
fn mark_arm(s: Setting, used: &mut Vec<bool>, arm: &(PatC, TypedExpr)) -> Result<bool, AllocError>
    ensures marks { OnOk result (used.new.items ≡ (arm_marks (length used.old.items)
        (marks_of (target s.entry) arm.now.1 (used.old.items ++ replicate (variables arm.now.0) false))).marks) }
    ensures object { IfOk result (λ it. it ≡ (arm_marks (length used.old.items)
        (marks_of (target s.entry) arm.now.1 (used.old.items ++ replicate (variables arm.now.0) false))).object) }
{
    let count = used.len();
    push_unmarked(used, &arm.0)?;
    set_marks(s, used, &arm.1)?;
    Ok(pop_some_marked(used, count))
}

// An argument that the function doesn't use is evaluated only for what it may raise.
#[cycle(mark_used)]
fn mark_arguments(
    s: Setting,
    used: &mut Vec<bool>,
    function: u32,
    parts: &[TypedExpr],
) -> Result<(), AllocError>
    ensures { OnOk result (used.new.items ≡ arguments_mark (target s.entry) (slice_get (target s.entry).called function) 0
        (map (seen_marks (target s.entry)) parts.now) used.old.items) }
{
    for (place, part) in parts.iter().enumerate() {
        let needed = call_uses(s, function, place) || may_raise(s, part);
        mark_needed(s, used, part, needed)?;
    }
    Ok(())
}

/// Whether the body of a `let` uses its variable, the next one behind so many.
#[tactic(auto, using(crate::proofs::MarkLaws::mark_laws))]
pub fn uses_next(s: Setting, count: usize, body: &TypedExpr) -> Result<bool, AllocError>
    ensures { IfOk result (λ it. it ≡ uses (target s.entry) body.now (count + 1) count) }
{
    let mut used = vec![in s.alloc; false; count]?;
    used.push(false)?;
    mark_used(s, &mut used, body)?;
    Ok(pop_some_marked(&mut used, count))
}

/// Whether the object of a `case` behind so many variables is looked at.
#[tactic(auto, using(crate::proofs::MarkLaws::mark_laws))]
pub fn is_looked_at(
    s: Setting,
    count: usize,
    of: &Ty,
    arms: &[(PatC, TypedExpr)],
) -> Result<bool, AllocError>
    ensures { IfOk result (λ it. it ≡ looked_at (target s.entry) of.now (arms_complete (target s.entry) of.now arms.now) count
        (map (λ (arm : Pattern × Tree). (arm.0, seen (uses_step (target s.entry)) arm.1)) arms.now)) }
{
    let mut used = vec![in s.alloc; false; count]?;
    mark_arms(s, &mut used, of, arms)
}

/// Whether a function uses its parameter of that place.
pub fn uses_argument(called: &Called, place: usize) -> bool
    ensures { result ≡ uses_argument called.now place }
{
    match called.used.get(place) {
        Some(used) => *used,
        None => true,
    }
}

// Whether the function of the number does.
fn call_uses(s: Setting, function: u32, place: usize) -> bool
    ensures { result ≡ call_uses (slice_get (target s.entry).called function) place }
{
    match s.called.get(function as usize) {
        Some(called) => uses_argument(called, place),
        None => true,
    }
}
