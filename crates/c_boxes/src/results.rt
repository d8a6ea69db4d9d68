//! Results of rules and handlers: the outputs that are to be asserted, or an exception.
ghost use Rattle.std.specs.Prelude.{◌≡◌, ◌++◌, ◌∷◌, [], map, IfOk, OnOk, option_copied, slice_get};
ghost use Rattle.c_forms.specs.Statements.{tested};
ghost use Rattle.c_expressions.specs.Made.{ended, made, nothing, without_value};
ghost use Rattle.c_expressions.specs.Expressions.{raised};
ghost use Rattle.c_analysis.specs.Raises.{arms_complete};
ghost use Rattle.c_analysis.specs.Targets.{target};
ghost use Rattle.c_boxes.specs.Results.{arm_way, arms_behind, arms_made, bound, case_made, given, given_bit, given_bits, if_made, let_made};
ghost use Rattle.c_boxes.specs.inner.Arms.{arm_given};
ghost use Rattle.c_boxes.specs.Results.{output_made, outputs_made, outs_made, pending_set, result_made, sides_made};

use crate::rules::next_place;
use crate::uses::{arms_leave_none_out, is_looked_at, result_uses_next};
use c_analysis::Setting;
use c_expressions::{
    Code, Destination, Made, Way, behind, behind_object, built, ended, enter, is_last_way,
    none_tried, nothing, raised, raised_with, subject, tests_of, value, ways_tried,
};
use c_forms::{assign, tested, unsigned, whole};
use c_nets::{Arm, bit_of, mask_width, output_of, pending};
use c_tree::{CExp, CStm};
use hume_base::{Box, List, Ty};
use hume_model::{BoxC, PortC};
use std::alloc::AllocError;
use typed_core::{TypedExpr, TypedResult};

/// The statements of a result.
#[cycle(result_made)]
#[tactic(auto, using(crate::proofs::ResultForms::result_forms))]
pub(crate) fn result_made<'a>(
    s: Setting<'a>,
    b: &'a BoxC,
    scope: &mut List<CExp>,
    next: u32,
    it: &'a TypedResult,
) -> Result<Made, AllocError>
    ensures made { IfOk result (λ all. all ≡ result_made (target s.entry) it.now b.now scope.old next) }
    ensures scope { OnOk result (scope.new ≡ scope.old) }
{
    match it {
        TypedResult::Outs(outs) => outs_made(s, b, scope, next, outs.as_slice()),
        TypedResult::If(test, first, second) => if_made(s, b, scope, next, test, first, second),
        TypedResult::Case(of, part, arms) => {
            case_made(s, b, scope, next, of, part, arms.as_slice())
        }
        TypedResult::Let(of, part, body) => let_made(s, b, scope, next, of, part, body),
        TypedResult::Raise(exn, None) => raised_alone(s, *exn, next),
        TypedResult::Raise(exn, Some(part)) => raised_with(s, scope, next, *exn, part),
    }
}

fn raised_alone(s: Setting, exn: u32, next: u32) -> Result<Made, AllocError>
    ensures { IfOk result (λ all. all ≡ made (raised (target s.entry) exn) next) }
{
    let statements = raised(s, exn)?;
    Ok(Made { statements, next })
}

// Each output that gets a value is built in its object, and these outputs are pending.
fn outs_made<'a>(
    s: Setting<'a>,
    b: &'a BoxC,
    scope: &mut List<CExp>,
    next: u32,
    outs: &'a [Option<TypedExpr>],
) -> Result<Made, AllocError>
    ensures made { IfOk result (λ all. all ≡ outs_made (target s.entry) outs.now b.now scope.old next) }
    ensures scope { OnOk result (scope.new ≡ scope.old) }
{
    let all = outputs_made(s, b, scope, next, outs)?;
    let last = pending_set(s, b, outs)?;
    ended(all.statements, last.into_inner(), all.next)
}

// The outputs that get a value are pending.
fn pending_set(s: Setting, b: &BoxC, outs: &[Option<TypedExpr>]) -> Result<Box<CStm>, AllocError>
    ensures { IfOk result (λ made. made ≡ pending_set (target s.entry) outs.now b.now) }
{
    let bits = given_bits(b, 0, outs)?;
    let bits = unsigned(s.alloc, mask_width(b), bits);
    let has = pending(s.alloc, s.names(), b);
    whole(assign(s.alloc, has, bits))
}

fn outputs_made<'a>(
    s: Setting<'a>,
    b: &'a BoxC,
    scope: &mut List<CExp>,
    next: u32,
    outs: &'a [Option<TypedExpr>],
) -> Result<Made, AllocError>
    ensures made { IfOk result (λ all. all ≡ outputs_made (target s.entry) b.now scope.old 0 outs.now (nothing next)) }
    ensures scope { OnOk result (scope.new ≡ scope.old) }
{
    let mut all = nothing(s.alloc, next);
    for (place, out) in outs.iter().enumerate() {
        let port = b.outs.get(place);
        let more = output_made(s, b, scope, all.next, place, out, port)?;
        all.add(more)?;
    }
    Ok(all)
}

fn output_made<'a>(
    s: Setting<'a>,
    b: &'a BoxC,
    scope: &mut List<CExp>,
    next: u32,
    place: usize,
    out: &'a Option<TypedExpr>,
    port: Option<&'a PortC>,
) -> Result<Made, AllocError>
    ensures made { IfOk result (λ all. all ≡ output_made (target s.entry) b.now scope.old place out.now (option_copied port.entry) next) }
    ensures scope { OnOk result (scope.new ≡ scope.old) }
{
    match (out, port) {
        (Some(e), Some(port)) => {
            let object = output_of(s.alloc, s.names(), b, place).ok_or(AllocError)?;
            built(s, scope, next, &Destination::Place(object), &port.ty, e)
        }
        _ => Ok(nothing(s.alloc, next)),
    }
}

// The bits of the outputs from a place on that get a value.
#[cycle(given_bits)]
fn given_bits(b: &BoxC, place: usize, outs: &[Option<TypedExpr>]) -> Result<u64, AllocError>
    ensures { IfOk result (λ bits. bits ≡ given_bits b.now place outs.now) }
{
    match outs.split_first() {
        None => Ok(0),
        Some((out, others)) => {
            let bit = given_bit(place, out, b.outs.get(place));
            Ok(bit | given_bits(b, next_place(place)?, others)?)
        }
    }
}

fn given_bit(place: usize, out: &Option<TypedExpr>, port: Option<&PortC>) -> u64
    ensures { result ≡ given_bit place out.now (option_copied port.entry) }
{
    match (out, port) {
        (Some(_), Some(_)) => bit_of(place),
        _ => 0,
    }
}

#[cycle(result_made)]
#[tactic(auto, using(crate::proofs::ResultForms::result_forms))]
fn if_made<'a>(
    s: Setting<'a>,
    b: &'a BoxC,
    scope: &mut List<CExp>,
    next: u32,
    test: &'a TypedExpr,
    first: &'a TypedResult,
    second: &'a TypedResult,
) -> Result<Made, AllocError>
    ensures made { IfOk result (λ all. all ≡ if_made (target s.entry) test.now (given (target s.entry) first.now)
        (given (target s.entry) second.now) b.now scope.old next) }
    ensures scope { OnOk result (scope.new ≡ scope.old) }
{
    let test = value(s, scope, next, &Ty::Bool, test)?;
    sides_made(s, b, scope, test, first, second)
}

// The two sides of a choice behind its test.
#[cycle(result_made)]
#[tactic(auto, using(crate::proofs::ResultForms::result_forms))]
fn sides_made<'a>(
    s: Setting<'a>,
    b: &'a BoxC,
    scope: &mut List<CExp>,
    test: Code,
    first: &'a TypedResult,
    second: &'a TypedResult,
) -> Result<Made, AllocError>
    ensures made { IfOk result (λ all. all ≡ sides_made test (given (target s.entry) first.now) (given (target s.entry) second.now) b.now scope.old) }
    ensures scope { OnOk result (scope.new ≡ scope.old) }
{
    let body = result_made(s, b, scope, test.next, first)?;
    let otherwise = result_made(s, b, scope, body.next, second)?;
    chosen(s, test, body, otherwise)
}

fn chosen(s: Setting, test: Code, body: Made, otherwise: Made) -> Result<Made, AllocError>
    ensures { IfOk result (λ all. all ≡ ended test.statements (tested test.exp body.statements otherwise.statements) otherwise.next) }
{
    let last = tested(s.alloc, test.exp, body.statements, otherwise.statements)?;
    ended(test.statements, last, otherwise.next)
}

#[cycle(result_made)]
#[tactic(auto, using(crate::proofs::ResultForms::result_forms))]
fn let_made<'a>(
    s: Setting<'a>,
    b: &'a BoxC,
    scope: &mut List<CExp>,
    next: u32,
    of: &'a Ty,
    part: &'a TypedExpr,
    body: &'a TypedResult,
) -> Result<Made, AllocError>
    ensures made { IfOk result (λ all. all ≡ let_made (target s.entry) of.now part.now (given (target s.entry) body.now) b.now scope.old next) }
    ensures scope { OnOk result (scope.new ≡ scope.old) }
{
    let count = scope.len();
    let before = bound(s, scope, next, of, part, body)?;
    let all = result_made(s, b, scope, before.next, body)?;
    scope.truncate(count);
    behind(before.statements, all)
}

// Brings the object of what a `let` binds into scope, behind the statements that are given.
fn bound<'a>(
    s: Setting<'a>,
    scope: &mut List<CExp>,
    next: u32,
    of: &'a Ty,
    part: &'a TypedExpr,
    body: &'a TypedResult,
) -> Result<Made, AllocError>
    ensures made { IfOk result (λ all. all ≡ without_value (bound (target s.entry) of.now part.now (given (target s.entry) body.now) scope.old next)) }
    ensures scope { OnOk result (scope.new ≡ scope.old ++ (bound (target s.entry) of.now part.now (given (target s.entry) body.now) scope.old next).exp ∷ []) }
{
    let used = result_uses_next(s, scope.len(), body)?;
    let object = subject(s, scope, next, of, part, used)?;
    enter(scope, object)
}

#[cycle(result_made)]
#[tactic(auto, using(crate::proofs::ResultForms::result_forms))]
fn case_made<'a>(
    s: Setting<'a>,
    b: &'a BoxC,
    scope: &mut List<CExp>,
    next: u32,
    of: &'a Ty,
    part: &'a TypedExpr,
    arms: &'a [Arm],
) -> Result<Made, AllocError>
    ensures made { IfOk result (λ all. all ≡ case_made (target s.entry) of.now part.now (map (arm_given (target s.entry)) arms.now) b.now scope.old next) }
    ensures scope { OnOk result (scope.new ≡ scope.old) }
{
    let looked_at = is_looked_at(s, scope.len(), of, arms)?;
    let object = subject(s, scope, next, of, part, looked_at)?;
    arms_behind(s, b, scope, object, of, arms)
}

// The alternatives of a `case`, behind the object that they look at.
#[cycle(result_made)]
#[tactic(auto, using(crate::proofs::ResultForms::result_forms))]
fn arms_behind<'a>(
    s: Setting<'a>,
    b: &'a BoxC,
    scope: &mut List<CExp>,
    object: Code,
    of: &'a Ty,
    arms: &'a [Arm],
) -> Result<Made, AllocError>
    ensures made { IfOk result (λ all. all ≡ arms_behind (target s.entry) of.now object (arms_complete (target s.entry) of.now arms.now)
        (map (arm_given (target s.entry)) arms.now) b.now scope.old) }
    ensures scope { OnOk result (scope.new ≡ scope.old) }
{
    let complete = arms_leave_none_out(s, of, arms);
    let all = arms_made(s, b, scope, object.next, of, &object.exp, arms, complete)?;
    behind_object(object, all)
}

// The statements of the first alternative that the object matches. The last of complete ones needs no test.
#[cycle(result_made)]
#[tactic(auto, using(crate::proofs::ResultForms::result_forms))]
fn arms_made<'a>(
    s: Setting<'a>,
    b: &'a BoxC,
    scope: &mut List<CExp>,
    next: u32,
    of: &'a Ty,
    object: &'a CExp,
    arms: &'a [Arm],
    complete: bool,
) -> Result<Made, AllocError>
    ensures made { IfOk result (λ all. all ≡ arms_made (target s.entry) of.now object.now complete
        (map (arm_given (target s.entry)) arms.now) b.now scope.old next) }
    ensures scope { OnOk result (scope.new ≡ scope.old) }
{
    let mut ways = List::new(s.alloc);
    let mut next = next;
    for (place, arm) in arms.iter().enumerate() {
        let way = arm_way(s, b, scope, next, of, object, arm)?;
        if is_last_way(&way, arms, place, complete) {
            return ways_tried(s.alloc, ways, way.made);
        }
        next = way.made.next;
        ways.push(way)?;
    }
    none_tried(s, ways, next)
}

#[cycle(result_made)]
#[tactic(auto, using(crate::proofs::ResultForms::result_forms))]
fn arm_way<'a>(
    s: Setting<'a>,
    b: &'a BoxC,
    scope: &mut List<CExp>,
    next: u32,
    of: &'a Ty,
    object: &'a CExp,
    arm: &'a Arm,
) -> Result<Way, AllocError>
    ensures made { IfOk result (λ way. way ≡ arm_way (target s.entry) of.now object.now (arm_given (target s.entry) arm.now) b.now scope.old next) }
    ensures scope { OnOk result (scope.new ≡ scope.old) }
{
    let count = scope.len();
    let tests = tests_of(s, scope, of, object, &arm.0)?;
    let made = result_made(s, b, scope, next, &arm.1)?;
    scope.truncate(count);
    Ok(Way { tests, made })
}
