//! Whether a box gives all its outputs whenever it gives some.
ghost use Rattle.std.specs.Prelude.{◌≡◌, is_some};
ghost use Rattle.std.specs.List.{list_all};
ghost use Rattle.c_nets.specs.GivenOutputs.{all_are_given, gives_all};

use hume_model::PatC;
use typed_core::{TypedExpr, TypedHandler, TypedResult, TypedRule};

/// A pattern of a `case` and its result.
pub type Arm = (PatC, TypedResult);

/// Whether each result of the rules and of the handlers gives a value to each output.
pub fn all_are_given(rules: &[TypedRule], handlers: &[TypedHandler]) -> bool
    ensures { result ≡ all_are_given rules.now handlers.now }
{
    rules_give_all(rules) && handlers_give_all(handlers)
}

#[tactic(auto, using(crate::proofs::GivenForms::given_forms))]
fn rules_give_all(rules: &[TypedRule]) -> bool
    ensures { result ≡ list_all (λ rule. gives_all rule.result) rules.now }
{
    for rule in rules {
        if !gives_all(&rule.result) {
            return false;
        }
    }
    true
}

#[tactic(auto, using(crate::proofs::GivenForms::given_forms))]
fn handlers_give_all(handlers: &[TypedHandler]) -> bool
    ensures { result ≡ list_all (λ handler. gives_all handler.result) handlers.now }
{
    for handler in handlers {
        if !gives_all(&handler.result) {
            return false;
        }
    }
    true
}

#[cycle(gives_all)]
#[tactic(auto, using(crate::proofs::GivenForms::given_forms))]
fn gives_all(given: &TypedResult) -> bool
    ensures { result ≡ gives_all given.now }
{
    match given {
        TypedResult::Outs(outs) => are_there(outs.as_slice()),
        TypedResult::If(_, yes, no) => gives_all(yes) && gives_all(no),
        TypedResult::Case(_, _, arms) => arms_give_all(arms.as_slice()),
        TypedResult::Let(_, _, body) => gives_all(body),
        TypedResult::Raise(_, _) => true,
    }
}

#[tactic(auto, using(crate::proofs::GivenForms::given_forms))]
fn are_there(outs: &[Option<TypedExpr>]) -> bool
    ensures { result ≡ list_all is_some outs.now }
{
    for out in outs {
        if out.is_none() {
            return false;
        }
    }
    true
}

#[cycle(gives_all)]
#[tactic(auto, using(crate::proofs::GivenForms::given_forms))]
fn arms_give_all(arms: &[Arm]) -> bool
    ensures { result ≡ list_all (λ arm. gives_all arm.1) arms.now }
{
    for arm in arms {
        if !gives_all(&arm.1) {
            return false;
        }
    }
    true
}
