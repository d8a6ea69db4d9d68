//! The frames of statements and functions.
ghost use Rattle.std.specs.Prelude.{◌≡◌, map};
ghost use Rattle.c_sizes.specs.Frames.{all_of, also, arm_of, arms_of, for_of, function_frame, parameters_size, passed, pointer};
ghost use Rattle.c_sizes.specs.Frames.{return_of, statement_frame, value_of, variable};
ghost use Rattle.c_sizes.specs.inner.Arms.{framed_arm};

use crate::bytes::Bytes;
use crate::expressions::{call_of, value_of};
use crate::frame::{Frame, Functions};
use crate::layout::{Types, type_layout};
use c_tree::{CCount, CExp, CFunction, CParameter, CStm, CType, Passing};
use hume_base::{Box, List};

#[cycle(statement_frame)]
#[tactic(auto, using(crate::proofs::StatementForms::frame_forms))]
fn statement_frame(types: &Types, functions: &Functions, statement: &CStm) -> Frame
    ensures { result ≡ statement_frame types.now functions.now statement.now }
{
    match statement {
        CStm::Comment(_) => Frame::nothing(),
        CStm::Declare(declared) => Frame::variable(types, &declared.ty),
        CStm::Define(declared, value) => define_frame(types, functions, &declared.ty, value),
        CStm::Assign(object, value) => assign_frame(functions, object, value),
        CStm::Increment(object) => value_of(functions, object),
        CStm::Decrement(object) => value_of(functions, object),
        CStm::Call(name, arguments) => {
            Frame::calling(call_of(functions, name.bytes(), arguments.as_slice()))
        }
        CStm::If(test, body, others, otherwise) => if_frame(
            types,
            functions,
            test,
            body.as_slice(),
            others.as_slice(),
            otherwise.as_slice(),
        ),
        CStm::Switch(subject, cases, otherwise) => switch_frame(
            types,
            functions,
            subject,
            cases.as_slice(),
            otherwise.as_slice(),
        ),
        CStm::For(count, body) => for_frame(types, functions, count, body.as_slice()),
        CStm::Break => Frame::nothing(),
        CStm::Return(value) => return_frame(functions, value),
    }
}

#[cycle(statement_frame)]
fn if_frame(
    types: &Types,
    functions: &Functions,
    test: &CExp,
    body: &[CStm],
    others: &[(CExp, List<CStm>)],
    otherwise: &[CStm],
) -> Frame
    ensures { result ≡ also (arm_of functions.now (test.now, map (statement_frame types.now functions.now) body.now))
        (arms_of functions.now (map (framed_arm types.now functions.now) others.now)
        (map (statement_frame types.now functions.now) otherwise.now)) }
{
    let first = arm_frame(types, functions, test, body);
    first.also(arms_frame(types, functions, others, otherwise))
}

#[cycle(statement_frame)]
fn switch_frame(
    types: &Types,
    functions: &Functions,
    subject: &CExp,
    cases: &[(CExp, List<CStm>)],
    otherwise: &[CStm],
) -> Frame
    ensures { result ≡ also (value_of functions.now subject.now)
        (arms_of functions.now (map (framed_arm types.now functions.now) cases.now)
        (map (statement_frame types.now functions.now) otherwise.now)) }
{
    let first = value_of(functions, subject);
    first.also(arms_frame(types, functions, cases, otherwise))
}

/// The frames of statements together.
#[cycle(statement_frame)]
fn all_frames(types: &Types, functions: &Functions, statements: &[CStm]) -> Frame
    ensures { result ≡ all_of (map (statement_frame types.now functions.now) statements.now) }
{
    let mut all = Frame::nothing();
    for statement in statements {
        all = all.also(statement_frame(types, functions, statement));
    }
    all
}

#[cycle(statement_frame)]
fn arm_frame(types: &Types, functions: &Functions, test: &CExp, body: &[CStm]) -> Frame
    ensures { result ≡ arm_of functions.now (test.now, map (statement_frame types.now functions.now) body.now) }
{
    value_of(functions, test).also(all_frames(types, functions, body))
}

/// Several arms, and the statements where none is taken.
#[cycle(statement_frame)]
fn arms_frame(
    types: &Types,
    functions: &Functions,
    arms: &[(CExp, List<CStm>)],
    otherwise: &[CStm],
) -> Frame
    ensures { result ≡ arms_of functions.now (map (framed_arm types.now functions.now) arms.now)
        (map (statement_frame types.now functions.now) otherwise.now) }
{
    each_arm(types, functions, arms).also(all_frames(types, functions, otherwise))
}

#[cycle(statement_frame)]
fn each_arm(types: &Types, functions: &Functions, arms: &[(CExp, List<CStm>)]) -> Frame
    ensures { result ≡ all_of (map (arm_of functions.now) (map (framed_arm types.now functions.now) arms.now)) }
{
    let mut all = Frame::nothing();
    for arm in arms {
        all = all.also(arm_frame(types, functions, &arm.0, arm.1.as_slice()));
    }
    all
}

#[cycle(statement_frame)]
fn for_frame(types: &Types, functions: &Functions, count: &CCount, body: &[CStm]) -> Frame
    ensures { result ≡ for_of types.now functions.now count.now (map (statement_frame types.now functions.now) body.now) }
{
    let limit = value_of(functions, &count.limit);
    let inner = limit.also(all_frames(types, functions, body));
    Frame::variable(types, &count.ty).also(inner)
}

fn define_frame(types: &Types, functions: &Functions, ty: &CType, value: &CExp) -> Frame
    ensures { result ≡ also (variable types.now ty.now) (value_of functions.now value.now) }
{
    Frame::variable(types, ty).also(value_of(functions, value))
}

fn assign_frame(functions: &Functions, object: &CExp, value: &CExp) -> Frame
    ensures { result ≡ also (value_of functions.now object.now) (value_of functions.now value.now) }
{
    value_of(functions, object).also(value_of(functions, value))
}

fn return_frame(functions: &Functions, value: &Option<Box<CExp>>) -> Frame
    ensures { result ≡ return_of functions.now value.now }
{
    match value {
        None => Frame::nothing(),
        Some(value) => value_of(functions, value),
    }
}

fn passed(types: &Types, passing: Passing, ty: &CType) -> Bytes
    ensures { result ≡ passed types.now passing ty.now }
{
    match passing {
        Passing::Value => type_layout(types, ty).size,
        Passing::Read => pointer(),
        Passing::Written => pointer(),
    }
}

fn pointer() -> Bytes
    ensures { result ≡ pointer }
{
    Bytes {
        one: 2,
        two: 2,
        four: 4,
        eight: 8,
    }
}

fn parameters_size(types: &Types, parameters: &[CParameter]) -> Bytes
    ensures { result ≡ parameters_size types.now parameters.now }
{
    let mut sum = Bytes::same(0);
    for parameter in parameters {
        sum = sum.plus(passed(types, parameter.passing, &parameter.ty));
    }
    sum
}

/// The variables of a function, and its deepest call.
pub(crate) fn function_frame(types: &Types, functions: &Functions, function: &CFunction) -> Frame
    ensures { result ≡ function_frame types.now functions.now function.now }
{
    let body = all_frames(types, functions, function.body.as_slice());
    let parameters = parameters_size(types, function.head.parameters.as_slice());
    Frame {
        variables: parameters.plus(body.variables),
        calls: body.calls,
    }
}
