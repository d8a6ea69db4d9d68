//! Copies of expressions and types.
ghost use Rattle.std.specs.Prelude.{◌≡◌, IfOk};
ghost use Rattle.c_tree.specs.declared.tree.CExp.TheVariants as exp;
ghost use Rattle.c_forms.specs.Expressions.{is_lasting};
ghost use Rattle.c_forms.specs.Gives.{Gives};

use crate::expressions::{
    address, all, any, binary, call, cast, chosen, element, member, named, negate, not, signed,
    truth, unsigned,
};
use crate::lists::push;
use c_tree::{CExp, CType};
use hume_base::{Box, List, Text};
use std::alloc::{AllocError, Global};

pub fn copy_type(ty: &CType) -> Result<CType, AllocError>
    ensures { IfOk result (λ copy. copy ≡ ty.now) }
{
    match ty {
        CType::Bool => Ok(CType::Bool),
        CType::Signed(width) => Ok(CType::Signed(*width)),
        CType::Unsigned(width) => Ok(CType::Unsigned(*width)),
        CType::Named(name) => Ok(CType::Named(name.copy()?)),
    }
}

#[cycle(copy_exp)]
pub fn copy_exp(alloc: Global, exp: &CExp) -> Option<Box<CExp>>
    ensures { Gives result exp.now }
{
    match exp {
        CExp::Truth(holds) => truth(alloc, *holds),
        CExp::Unsigned(width, amount) => unsigned(alloc, *width, *amount),
        CExp::Signed(width, negative, amount) => signed(alloc, *width, *negative, *amount),
        CExp::Name(name) => named(alloc, name.copy().ok()),
        CExp::Pointed(name) => pointed(alloc, name),
        CExp::Member(object, name) => member(alloc, copy_exp(alloc, object), name.bytes()),
        CExp::Element(array, index) => {
            element(alloc, copy_exp(alloc, array), copy_exp(alloc, index))
        }
        CExp::Call(name, arguments) => {
            call(alloc, name.bytes(), copy_parts(alloc, arguments.as_slice()))
        }
        CExp::Cast(ty, part) => cast_to(alloc, ty, copy_exp(alloc, part)),
        CExp::Negate(part) => negate(alloc, copy_exp(alloc, part)),
        CExp::Not(part) => not(alloc, copy_exp(alloc, part)),
        CExp::Address(part) => address(alloc, copy_exp(alloc, part)),
        CExp::Binary(operator, left, right) => {
            binary(
                alloc,
                *operator,
                copy_exp(alloc, left),
                copy_exp(alloc, right),
            )
        }
        CExp::All(parts) => all(alloc, copy_parts(alloc, parts.as_slice())),
        CExp::Any(parts) => any(alloc, copy_parts(alloc, parts.as_slice())),
        CExp::Choice(test, first, second) => {
            let test = copy_exp(alloc, test);
            chosen(alloc, test, copy_exp(alloc, first), copy_exp(alloc, second))
        }
    }
}

#[cycle(copy_exp)]
fn copy_parts(alloc: Global, parts: &[CExp]) -> Option<List<CExp>>
    ensures { Gives result parts.now }
{
    let mut copies = List::new(alloc);
    for part in parts {
        push(&mut copies, copy_exp(alloc, part))?;
    }
    Some(copies)
}

fn pointed(alloc: Global, name: &Text) -> Option<Box<CExp>>
    ensures { Gives result (exp.Pointed name.now) }
{
    match name.copy() {
        Ok(name) => Box::new(alloc, CExp::Pointed(name)).ok(),
        Err(_) => None,
    }
}

fn cast_to(alloc: Global, ty: &CType, part: Option<Box<CExp>>) -> Option<Box<CExp>>
    ensures { (p : CExp) → Gives part p → Gives result (exp.Cast ty.now p) }
{
    match copy_type(ty) {
        Ok(ty) => cast(alloc, ty, part),
        Err(_) => None,
    }
}

/// Whether the expression names an object or is a constant: it may be written anew wherever it is needed.
#[cycle(is_lasting)]
#[tactic(auto, using(crate::proofs::LastingForms::lasting_forms))]
pub fn is_lasting(exp: &CExp) -> bool
    ensures { result ≡ is_lasting exp.now }
{
    match exp {
        CExp::Truth(_) | CExp::Unsigned(_, _) | CExp::Signed(_, _, _) => true,
        CExp::Name(_) | CExp::Pointed(_) => true,
        CExp::Member(object, _) => is_lasting(object),
        CExp::Element(array, index) => is_lasting(array) && is_lasting(index),
        _ => false,
    }
}
