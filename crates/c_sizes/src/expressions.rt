//! The deepest calls of expressions.
ghost use Rattle.std.specs.Prelude.{◌≡◌, map};
ghost use Rattle.c_sizes.specs.Frames.{call_of, deeper, deepest_of, expression_calls, value_of};

use crate::frame::{Deepest, Frame, Functions, function_called};
use c_tree::CExp;

#[cycle(expression_calls)]
#[tactic(auto, using(crate::proofs::ExpressionForms::call_forms))]
fn expression_calls(functions: &Functions, exp: &CExp) -> Deepest
    ensures { result ≡ expression_calls functions.now exp.now }
{
    match exp {
        CExp::Truth(_) => Deepest::no_call(),
        CExp::Unsigned(_, _) => Deepest::no_call(),
        CExp::Signed(_, _, _) => Deepest::no_call(),
        CExp::Name(_) => Deepest::no_call(),
        CExp::Pointed(_) => Deepest::no_call(),
        CExp::Member(object, _) => expression_calls(functions, object.get()),
        CExp::Element(array, index) => two_calls(functions, array.get(), index.get()),
        CExp::Call(name, arguments) => call_of(functions, name.bytes(), arguments.as_slice()),
        CExp::Cast(_, part) => expression_calls(functions, part.get()),
        CExp::Negate(part) => expression_calls(functions, part.get()),
        CExp::Not(part) => expression_calls(functions, part.get()),
        CExp::Address(part) => expression_calls(functions, part.get()),
        CExp::Binary(_, left, right) => two_calls(functions, left.get(), right.get()),
        CExp::All(parts) => deepest_of(functions, parts.as_slice()),
        CExp::Any(parts) => deepest_of(functions, parts.as_slice()),
        CExp::Choice(test, first, second) => {
            let test = expression_calls(functions, test.get());
            test.deeper(two_calls(functions, first.get(), second.get()))
        }
    }
}

#[cycle(expression_calls)]
fn two_calls(functions: &Functions, first: &CExp, second: &CExp) -> Deepest
    ensures { result ≡ deeper (expression_calls functions.now first.now) (expression_calls functions.now second.now) }
{
    let calls = expression_calls(functions, first);
    calls.deeper(expression_calls(functions, second))
}

/// The deepest call of a call with these arguments.
#[cycle(expression_calls)]
pub(crate) fn call_of(functions: &Functions, name: &[u8], arguments: &[CExp]) -> Deepest
    ensures { result ≡ call_of functions.now name.now (map (expression_calls functions.now) arguments.now) }
{
    function_called(functions, name).deeper(deepest_of(functions, arguments))
}

#[cycle(expression_calls)]
fn deepest_of(functions: &Functions, parts: &[CExp]) -> Deepest
    ensures { result ≡ deepest_of (map (expression_calls functions.now) parts.now) }
{
    let mut calls = Deepest::no_call();
    for part in parts {
        calls = calls.deeper(expression_calls(functions, part));
    }
    calls
}

pub(crate) fn value_of(functions: &Functions, exp: &CExp) -> Frame
    ensures { result ≡ value_of functions.now exp.now }
{
    Frame::calling(expression_calls(functions, exp))
}
