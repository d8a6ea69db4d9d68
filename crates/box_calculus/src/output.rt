//! The output of a rule, as it is taken out of its box.
ghost use Rattle.std.specs.Prelude.{◌≡◌, ◌<◌, IfOk, IfSome, Some, [], ◌∷◌, length, slice_get, slice_set};
ghost use Rattle.hume_model.specs.declared.core_tree.Res.{out-Res};
ghost use Rattle.hume_model.specs.BoxTyping.{port_types};
ghost use Rattle.calculus_laws.specs.Naming.{body_of, only_body};

use hume_base::{Box, List, Ty, copy_ty};
use hume_model::{BoxC, Expr, PortC, Res};
use std::alloc::{AllocError, Global};
use std::mem;

/// Exchanges the result of a rule. Answers the expression of the old one, if it was one output.
pub(crate) fn exchange_result(alloc: Global, b: &mut BoxC, rule: u32, new: Res) -> Option<Expr>
    requires { rule < length b.old.rules }
    ensures body { IfSome (slice_get b.old.rules rule) (λ old. result ≡ body_of (out-Res old.result)) }
    ensures exchanged { IfSome (slice_get b.old.rules rule) (λ old.
        b.new ≡ record b.old { rules = slice_set b.old.rules rule (record old { result = new }) }) }
{
    let rules = mem::replace(&mut b.rules, List::new(alloc));
    let mut rules = rules.into_vec();
    let old = mem::replace(&mut rules[rule as usize].result, new);
    b.rules = List::from_vec(rules);
    take_body(old)
}

fn take_body(given: Res) -> Option<Expr>
    ensures { result ≡ body_of (out-Res given) }
{
    match given {
        Res::Outs(outs) => only_body(outs),
        other => {
            drop(other);
            None
        }
    }
}

fn only_body(outs: List<Option<Expr>>) -> Option<Expr>
    ensures { result ≡ only_body outs }
{
    let mut outs = outs;
    let first = outs.take_first()?;
    if outs.is_empty() { first } else { None }
}

/// The type of the first output.
pub(crate) fn first_type(alloc: Global, outs: &[PortC]) -> Result<Box<Ty>, AllocError>
    requires { 0 < length outs.now }
    ensures { IfOk result (λ ty. slice_get (port_types outs.now) 0 ≡ Some ty) }
{
    Box::new(alloc, copy_ty(alloc, &outs[0].ty)?)
}
