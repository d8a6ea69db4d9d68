//! Statements from their parts. Where a part is lacking, as memory ran out, so is the whole.
ghost use Rattle.std.specs.Prelude.{◌≡◌, [], ◌∷◌, true, ℕ, List, Some, None, IfOk};
ghost use Rattle.c_tree.specs.declared.tree.CExp.TheVariants as exp;
ghost use Rattle.c_tree.specs.declared.tree.CStm.TheVariants as stm;
ghost use Rattle.c_tree.specs.declared.tree.CStm.{out-CStm};
ghost use Rattle.c_forms.specs.Gives.{Gives};
ghost use Rattle.c_forms.specs.Statements.{one_if, tested, tested_last, variable};

use crate::expressions::truth;
use crate::texts::text;
use c_tree::{CCount, CExp, CStm, CType, CVariable};
use hume_base::{Box, List, Text};
use std::alloc::{AllocError, Global};

pub fn comment(alloc: Global, bytes: &[u8]) -> Option<Box<CStm>>
    ensures { Gives result (stm.Comment bytes.now) }
{
    match text(alloc, bytes) {
        Ok(text) => Box::new(alloc, CStm::Comment(text)).ok(),
        Err(_) => None,
    }
}

pub fn assign(
    alloc: Global,
    object: Option<Box<CExp>>,
    value: Option<Box<CExp>>,
) -> Option<Box<CStm>>
    ensures { (o v : CExp) → Gives object o → Gives value v → Gives result (stm.Assign o v) }
{
    match (object, value) {
        (Some(object), Some(value)) => Box::new(alloc, CStm::Assign(object, value)).ok(),
        _ => None,
    }
}

/// A variable that keeps its value.
pub fn define(
    alloc: Global,
    ty: CType,
    name: Option<Text>,
    value: Option<Box<CExp>>,
) -> Option<Box<CStm>>
    ensures { (n : List ℕ) (v : CExp) → Gives name n → Gives value v → Gives result (stm.Define (variable true ty n) v) }
{
    match (name, value) {
        (Some(name), Some(value)) => {
            let variable = CVariable {
                constant: true,
                ty,
                name,
            };
            Box::new(alloc, CStm::Define(variable, value)).ok()
        }
        _ => None,
    }
}

pub fn set(alloc: Global, object: Option<Box<CExp>>, holds: bool) -> Option<Box<CStm>>
    ensures { (o : CExp) → Gives object o → Gives result (stm.Assign o (exp.Truth holds)) }
{
    assign(alloc, object, truth(alloc, holds))
}

pub fn increment(alloc: Global, object: Option<Box<CExp>>) -> Option<Box<CStm>>
    ensures { (o : CExp) → Gives object o → Gives result (stm.Increment o) }
{
    match object {
        Some(object) => Box::new(alloc, CStm::Increment(object)).ok(),
        None => None,
    }
}

pub fn decrement(alloc: Global, object: Option<Box<CExp>>) -> Option<Box<CStm>>
    ensures { (o : CExp) → Gives object o → Gives result (stm.Decrement o) }
{
    match object {
        Some(object) => Box::new(alloc, CStm::Decrement(object)).ok(),
        None => None,
    }
}

/// A call of the function of that name, which gives nothing.
pub fn calls(alloc: Global, name: Option<Text>, arguments: Option<List<CExp>>) -> Option<Box<CStm>>
    ensures { (n : List ℕ) (a : List CExp) → Gives name n → Gives arguments a → Gives result (stm.Call n a) }
{
    match (name, arguments) {
        (Some(name), Some(arguments)) => Box::new(alloc, CStm::Call(name, arguments)).ok(),
        _ => None,
    }
}

/// The function ends with a value.
pub fn returns(alloc: Global, value: Option<Box<CExp>>) -> Option<Box<CStm>>
    ensures { (v : CExp) → Gives value v → Gives result (stm.Return (Some v)) }
{
    match value {
        Some(value) => Box::new(alloc, CStm::Return(Some(value))).ok(),
        None => None,
    }
}

/// The function ends without a value.
pub fn ends(alloc: Global) -> Option<Box<CStm>>
    ensures { Gives result (stm.Return None) }
{
    Box::new(alloc, CStm::Return(None)).ok()
}

pub fn one_if(alloc: Global, test: Option<Box<CExp>>, body: Option<List<CStm>>) -> Option<Box<CStm>>
    ensures { (t : CExp) (b : List CStm) → Gives test t → Gives body b → Gives result (one_if t b) }
{
    match (test, body) {
        (Some(test), Some(body)) => {
            Box::new(
                alloc,
                CStm::If(test, body, List::new(alloc), List::new(alloc)),
            )
            .ok()
        }
        _ => None,
    }
}

/// A test with its statements, and those for where it doesn't hold.
pub fn either(
    alloc: Global,
    test: Option<Box<CExp>>,
    body: Option<List<CStm>>,
    otherwise: Option<List<CStm>>,
) -> Option<Box<CStm>>
    ensures { (t : CExp) (b o : List CStm) → Gives test t → Gives body b → Gives otherwise o → Gives result (stm.If t b [] o) }
{
    match (test, body, otherwise) {
        (Some(test), Some(body), Some(otherwise)) => {
            Box::new(alloc, CStm::If(test, body, List::new(alloc), otherwise)).ok()
        }
        _ => None,
    }
}

/// The statements for each number below a limit.
pub fn counting(
    alloc: Global,
    count: Option<Box<CCount>>,
    body: Option<List<CStm>>,
) -> Option<Box<CStm>>
    ensures { (c : CCount) (b : List CStm) → Gives count c → Gives body b → Gives result (stm.For c b) }
{
    match (count, body) {
        (Some(count), Some(body)) => Box::new(alloc, CStm::For(count.into_inner(), body)).ok(),
        _ => None,
    }
}

/// Leaves the innermost `for` or `switch`.
pub fn leaves(alloc: Global) -> Option<Box<CStm>>
    ensures { Gives result stm.Break }
{
    Box::new(alloc, CStm::Break).ok()
}

/// A choice between statements. Where the second ones are a choice alone, its tests follow this one's.
pub fn tested(
    alloc: Global,
    test: Box<CExp>,
    body: List<CStm>,
    otherwise: List<CStm>,
) -> Result<CStm, AllocError>
    ensures { IfOk result (λ s. s ≡ tested test body otherwise) }
{
    if otherwise.len() != 1 {
        return Ok(CStm::If(test, body, List::new(alloc), otherwise));
    }
    let mut otherwise = otherwise;
    match otherwise.take_first() {
        Some(last) => tested_last(alloc, test, body, last),
        None => Ok(CStm::If(test, body, List::new(alloc), List::new(alloc))),
    }
}

#[tactic(auto, using(crate::proofs::OpenedForms::opened_statements))]
fn tested_last(
    alloc: Global,
    test: Box<CExp>,
    body: List<CStm>,
    last: CStm,
) -> Result<CStm, AllocError>
    ensures { IfOk result (λ s. s ≡ tested_last test body last (out-CStm last)) }
{
    match last {
        CStm::If(next, inner, others, otherwise) => {
            let arms = followed(alloc, (next.into_inner(), inner), others)?;
            Ok(CStm::If(test, body, arms, otherwise))
        }
        last => {
            let otherwise = List::of_one(alloc, last)?;
            Ok(CStm::If(test, body, List::new(alloc), otherwise))
        }
    }
}

type Arm = (CExp, List<CStm>);

fn followed(alloc: Global, first: Arm, others: List<Arm>) -> Result<List<Arm>, AllocError>
    ensures { IfOk result (λ arms. arms ≡ first ∷ others) }
{
    let mut arms = List::of_one(alloc, first)?;
    arms.append(others)?;
    Ok(arms)
}
