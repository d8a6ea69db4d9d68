//! Calls of functions.
ghost use Rattle.std.specs.Prelude.{◌≡◌, [], ◌∷◌, ◌++◌, List, IfOk, OnOk, slice_get, if◌then◌else◌};
ghost use Rattle.c_tree.specs.declared.tree.CStm.TheVariants as statement;
ghost use Rattle.c_tree.specs.declared.tree.CType.TheVariants as type;
ghost use Rattle.c_tree.specs.declared.tree.Width.TheVariants.{W8};
ghost use Rattle.c_forms.specs.Expressions.{read_of};
ghost use Rattle.c_forms.specs.Gives.{Gives};
ghost use Rattle.c_analysis.specs.Plain.{uses_argument};
ghost use Rattle.c_analysis.specs.Targets.{callee_of, is_number, known, target, type_of};
ghost use Rattle.c_expressions.specs.Made.{declared, defined, ended, with_value};
ghost use Rattle.c_expressions.specs.Expressions.{all_arguments, argument_typed, call_built, call_in, call_valued, part_of, placeholder};
ghost use Rattle.c_expressions.specs.inner.Parts.{parts_of};
ghost use Rattle.c_expressions.specs.Expressions.{is_skipped, arguments as argument_code, passed, joined, call_written, call_value, call_of, ended_by, with_object, call_to, status_tested};

use crate::building::built;
use crate::made::{
    Code, Destination, Made, code_whole, declared, defined, ended_whole, given, nothing, with_value,
};
use crate::parts::{PartTypes, built_parts};
use crate::values::{value, with_placeholder, without_expression};
use c_analysis::{Called, Callee, Setting, uses_argument};
use c_forms::{binary, call, calls, copy_exp, number, of_one, one_if, read_of, returns, with};
use c_tree::{CExp, COp, CStm, CType, Width};
use hume_base::{Box, List, Ty};
use std::alloc::{AllocError, Global};
use typed_core::TypedExpr;

/// Statements, the arguments that are passed behind them, and the first number that no name of the function has then.
#[derive(Drop)]
pub(crate) struct ArgumentCode {
    pub statements: List<CStm>,
    pub exps: List<CExp>,
    pub next: u32,
}

/// A call whose value goes to a destination.
#[cycle(built)]
pub(crate) fn built_call<'a>(
    s: Setting<'a>,
    scope: &mut List<CExp>,
    next: u32,
    to: &'a Destination,
    ty: &'a Ty,
    function: u32,
    parts: &'a [TypedExpr],
) -> Result<Made, AllocError>
    ensures made { IfOk result (λ it. it ≡ call_built (target s.entry) (callee_of (target s.entry) function)
        (parts_of (target s.entry) parts.now) scope.old to.now ty.now next) }
    ensures scope { OnOk result (scope.new ≡ scope.old) }
{
    let Some(callee) = s.callee(function) else {
        return Ok(nothing(s.alloc, next));
    };
    if is_skipped(callee, to) {
        let tys = PartTypes::Parameters(callee.function.params.as_slice());
        return built_parts(s, scope, next, tys, to, parts);
    }
    let arguments = arguments(s, scope, next, callee, parts)?;
    call_written(s, to, ty, callee, arguments)
}

// A call that can't raise, and whose value goes nowhere.
fn is_skipped(callee: Callee, to: &Destination) -> bool
    ensures { result ≡ is_skipped (known callee.entry) to.now }
{
    match to {
        Destination::Nowhere => !callee.called.raises,
        _ => false,
    }
}

/// The value of a call.
#[cycle(built)]
pub(crate) fn value_call<'a>(
    s: Setting<'a>,
    scope: &mut List<CExp>,
    next: u32,
    ty: &'a Ty,
    function: u32,
    parts: &'a [TypedExpr],
) -> Result<Code, AllocError>
    ensures made { IfOk result (λ it. it ≡ call_valued (target s.entry) (callee_of (target s.entry) function)
        (parts_of (target s.entry) parts.now) scope.old ty.now next) }
    ensures scope { OnOk result (scope.new ≡ scope.old) }
{
    let Some(callee) = s.callee(function) else {
        return without_expression(s.alloc, next);
    };
    let arguments = arguments(s, scope, next, callee, parts)?;
    call_value(s, ty, callee, arguments)
}

// The arguments that the function uses. Others are evaluated for what they may raise.
#[cycle(built)]
fn arguments<'a>(
    s: Setting<'a>,
    scope: &mut List<CExp>,
    next: u32,
    callee: Callee<'a>,
    parts: &'a [TypedExpr],
) -> Result<ArgumentCode, AllocError>
    ensures made { IfOk result (λ it. it ≡ all_arguments (target s.entry) (known callee.entry) scope.old next (parts_of (target s.entry) parts.now)) }
    ensures scope { OnOk result (scope.new ≡ scope.old) }
{
    let mut passed = no_arguments(s.alloc, next);
    for (place, part) in parts.iter().enumerate() {
        let one = argument(s, scope, passed.next, callee, place, part)?;
        passed.add(one)?;
    }
    Ok(passed)
}

#[cycle(built)]
fn argument<'a>(
    s: Setting<'a>,
    scope: &mut List<CExp>,
    next: u32,
    callee: Callee<'a>,
    place: usize,
    part: &'a TypedExpr,
) -> Result<ArgumentCode, AllocError>
    ensures made { IfOk result (λ it. it ≡ argument_typed (target s.entry) (part_of (target s.entry) part.now) scope.old
        (slice_get (known callee.entry).function.params place) (uses_argument (known callee.entry).called place) next) }
    ensures scope { OnOk result (scope.new ≡ scope.old) }
{
    match callee.function.params.get(place) {
        None => Ok(no_arguments(s.alloc, next)),
        Some(ty) if uses_argument(callee.called, place) => {
            let code = value(s, scope, next, ty, part)?;
            passed(s, ty, code)
        }
        Some(ty) => {
            let made = built(s, scope, next, &Destination::Nowhere, ty, part)?;
            Ok(not_passed(s.alloc, made))
        }
    }
}

fn no_arguments(alloc: Global, next: u32) -> ArgumentCode
    ensures { result ≡ argument_code [] [] next }
{
    ArgumentCode {
        statements: List::new(alloc),
        exps: List::new(alloc),
        next,
    }
}

fn passed(s: Setting, ty: &Ty, code: Code) -> Result<ArgumentCode, AllocError>
    ensures { IfOk result (λ it. it ≡ passed (target s.entry) ty.now code) }
{
    let exps = passed_exp(s, ty, code.exp);
    arguments_whole(Some(code.statements), exps, code.next)
}

// Arguments behind statements, or that memory ran out.
fn arguments_whole(
    statements: Option<List<CStm>>,
    exps: Option<List<CExp>>,
    next: u32,
) -> Result<ArgumentCode, AllocError>
    ensures { (s : List CStm) (e : List CExp) → Gives statements s → Gives exps e → IfOk result (λ it. it ≡ argument_code s e next) }
{
    match (statements, exps) {
        (Some(statements), Some(exps)) => Ok(ArgumentCode {
            statements,
            exps,
            next,
        }),
        _ => Err(AllocError),
    }
}

// A scalar is passed by value, another one by a pointer to its object.
fn passed_exp(s: Setting, ty: &Ty, exp: Box<CExp>) -> Option<List<CExp>>
    ensures { Gives result ((if is_number (target s.entry) ty.now then exp else read_of exp) ∷ []) }
{
    if s.is_scalar(ty) {
        of_one(s.alloc, Some(exp))
    } else {
        of_one(s.alloc, read_of(s.alloc, Some(exp)))
    }
}

fn not_passed(alloc: Global, made: Made) -> ArgumentCode
    ensures { result ≡ argument_code made.statements [] made.next }
{
    ArgumentCode {
        statements: made.statements,
        exps: List::new(alloc),
        next: made.next,
    }
}

impl ArgumentCode {
    fn add(&mut self, more: ArgumentCode) -> Result<(), AllocError>
        ensures { OnOk result (self.new ≡ joined self.old more) }
    {
        self.statements.append(more.statements)?;
        self.exps.append(more.exps)?;
        self.next = more.next;
        Ok(())
    }
}

fn call_written(
    s: Setting,
    to: &Destination,
    ty: &Ty,
    callee: Callee,
    arguments: ArgumentCode,
) -> Result<Made, AllocError>
    ensures { IfOk result (λ it. it ≡ call_written (target s.entry) to.now ty.now (known callee.entry) arguments) }
{
    if s.gives_value(callee) {
        let code = call_of(s.alloc, callee.called, arguments)?;
        return given(s.alloc, to, code);
    }
    if !callee.called.gives {
        return ended_by(s.alloc, callee.called, arguments);
    }
    call_in(s, to, ty, callee.called, arguments)
}

fn call_in(
    s: Setting,
    to: &Destination,
    ty: &Ty,
    called: &Called,
    arguments: ArgumentCode,
) -> Result<Made, AllocError>
    ensures { IfOk result (λ it. it ≡ call_in (target s.entry) to.now ty.now called.now arguments) }
{
    match to {
        Destination::Place(object) => {
            let object = copy_exp(s.alloc, object).ok_or(AllocError)?;
            call_to(s.alloc, called, arguments, object)
        }
        _ => {
            let (object, arguments) = with_object(s, ty, arguments)?;
            call_to(s.alloc, called, arguments, object)
        }
    }
}

fn call_value(
    s: Setting,
    ty: &Ty,
    callee: Callee,
    arguments: ArgumentCode,
) -> Result<Code, AllocError>
    ensures { IfOk result (λ it. it ≡ call_value (target s.entry) ty.now (known callee.entry) arguments) }
{
    if s.gives_value(callee) {
        return call_of(s.alloc, callee.called, arguments);
    }
    if !callee.called.gives {
        return never_behind(s.alloc, callee.called, arguments, ty);
    }
    call_to_variable(s, ty, callee.called, arguments)
}

// What stands behind a call that never goes on.
fn never_behind(
    alloc: Global,
    called: &Called,
    arguments: ArgumentCode,
    ty: &Ty,
) -> Result<Code, AllocError>
    ensures { IfOk result (λ it. it ≡ with_value (ended_by called.now arguments) (placeholder ty.now)) }
{
    let made = ended_by(alloc, called, arguments)?;
    with_placeholder(alloc, made, ty)
}

fn call_to_variable(
    s: Setting,
    ty: &Ty,
    called: &Called,
    arguments: ArgumentCode,
) -> Result<Code, AllocError>
    ensures { IfOk result (λ it. it ≡ (let object = (declared (type_of (target s.entry) ty.now) arguments.next).exp in
        with_value (call_to called.now (with_object (type_of (target s.entry) ty.now) arguments) object) object)) }
{
    let (object, arguments) = with_object(s, ty, arguments)?;
    let own = copy_exp(s.alloc, &object).ok_or(AllocError)?;
    let made = call_to(s.alloc, called, arguments, own)?;
    Ok(with_value(made, object))
}

// A call that is an expression.
fn call_of(alloc: Global, called: &Called, arguments: ArgumentCode) -> Result<Code, AllocError>
    ensures { IfOk result (λ it. it ≡ call_of called.now arguments) }
{
    let value = call(alloc, called.name.bytes(), Some(arguments.exps));
    code_whole(Some(arguments.statements), value, arguments.next)
}

// A call of a function that always raises: so does the caller.
fn ended_by(alloc: Global, called: &Called, arguments: ArgumentCode) -> Result<Made, AllocError>
    ensures { IfOk result (λ it. it ≡ ended_by called.now arguments) }
{
    let status = call(alloc, called.name.bytes(), Some(arguments.exps));
    ended_whole(arguments.statements, returns(alloc, status), arguments.next)
}

// An object of the type, behind the statements of arguments.
fn with_object(
    s: Setting,
    ty: &Ty,
    arguments: ArgumentCode,
) -> Result<(Box<CExp>, ArgumentCode), AllocError>
    ensures { IfOk result (λ it. it ≡ (
      (declared (type_of (target s.entry) ty.now) arguments.next).exp,
      with_object (type_of (target s.entry) ty.now) arguments,
    )) }
{
    let object = declared(s, arguments.next, ty)?;
    let mut statements = arguments.statements;
    statements.append(object.statements)?;
    let arguments = ArgumentCode {
        statements,
        exps: arguments.exps,
        next: object.next,
    };
    Ok((object.exp, arguments))
}

// A call that writes its result through a pointer. Where it raises, so does the caller.
fn call_to(
    alloc: Global,
    called: &Called,
    arguments: ArgumentCode,
    object: Box<CExp>,
) -> Result<Made, AllocError>
    ensures { IfOk result (λ it. it ≡ call_to called.now arguments object) }
{
    let arguments = with_pointer(alloc, arguments, object)?;
    if called.raises {
        call_tested(alloc, called, arguments)
    } else {
        call_alone(alloc, called, arguments)
    }
}

fn with_pointer(
    alloc: Global,
    arguments: ArgumentCode,
    object: Box<CExp>,
) -> Result<ArgumentCode, AllocError>
    ensures { IfOk result (λ it. it ≡ argument_code arguments.statements (arguments.exps ++ read_of object ∷ []) arguments.next) }
{
    let exps = with(Some(arguments.exps), read_of(alloc, Some(object)));
    arguments_whole(Some(arguments.statements), exps, arguments.next)
}

fn call_alone(alloc: Global, called: &Called, arguments: ArgumentCode) -> Result<Made, AllocError>
    ensures { IfOk result (λ it. it ≡ ended arguments.statements (statement.Call called.now.name arguments.exps) arguments.next) }
{
    let last = calls(alloc, called.name.copy().ok(), Some(arguments.exps));
    ended_whole(arguments.statements, last, arguments.next)
}

fn call_tested(alloc: Global, called: &Called, arguments: ArgumentCode) -> Result<Made, AllocError>
    ensures { IfOk result (λ it. it ≡ status_tested (defined (type.Unsigned W8) (call_of called.now arguments))) }
{
    let call = call_of(alloc, called, arguments)?;
    let status = defined(alloc, CType::Unsigned(Width::W8), call)?;
    status_tested(alloc, status)
}

// Where a status is the number of an exception, it is returned.
fn status_tested(alloc: Global, status: Code) -> Result<Made, AllocError>
    ensures { IfOk result (λ it. it ≡ status_tested status) }
{
    let zero = number(alloc, 0);
    let test = binary(alloc, COp::NotEqual, copy_exp(alloc, &status.exp), zero);
    let body = of_one(alloc, returns(alloc, Some(status.exp)));
    ended_whole(status.statements, one_if(alloc, test, body), status.next)
}
