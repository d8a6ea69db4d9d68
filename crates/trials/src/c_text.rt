//! A function of C as a tree, and its text.
use crate::error::TrialError;
use c_tree::{
    CExp, CFunction, CHead, CItem, COp, CParameter, CProgram, CStm, CType, Linkage, Passing, Width,
    put_program,
};
use hume_base::{Box, List, Text};
use std::alloc::{AllocError, Global};
use std::io::Write;

fn int8() -> CType {
    CType::Signed(Width::W8)
}

// The operation on the variable `n` and a number.
fn of_n(alloc: Global, operator: COp, number: u64) -> Result<Box<CExp>, AllocError> {
    let n = Box::new(alloc, CExp::Name(Text::from_bytes(alloc, b"n")?))?;
    let number = Box::new(alloc, CExp::Signed(Width::W8, false, number))?;
    Box::new(alloc, CExp::Binary(operator, n, number))
}

fn is_even(alloc: Global) -> Result<Box<CExp>, AllocError> {
    let rest = of_n(alloc, COp::Remainder, 2)?;
    let zero = Box::new(alloc, CExp::Signed(Width::W8, false, 0))?;
    Box::new(alloc, CExp::Binary(COp::Equal, rest, zero))
}

fn halved(alloc: Global) -> Result<Box<CExp>, AllocError> {
    let half = of_n(alloc, COp::Divide, 2)?;
    Box::new(alloc, CExp::Cast(int8(), half))
}

fn giving(alloc: Global, value: Box<CExp>) -> Result<List<CStm>, AllocError> {
    List::of_one(alloc, CStm::Return(Some(value)))
}

fn body(alloc: Global) -> Result<CStm, AllocError> {
    let half = giving(alloc, halved(alloc)?)?;
    let minus_one = Box::new(alloc, CExp::Signed(Width::W8, true, 1))?;
    let none = giving(alloc, minus_one)?;
    Ok(CStm::If(is_even(alloc)?, half, List::new(alloc), none))
}

fn head(alloc: Global) -> Result<CHead, AllocError> {
    let n = CParameter {
        ty: int8(),
        passing: Passing::Value,
        name: Text::from_bytes(alloc, b"n")?,
    };
    Ok(CHead {
        linkage: Linkage::Static,
        result: Some(int8()),
        name: Text::from_bytes(alloc, b"half")?,
        parameters: List::of_one(alloc, n)?,
    })
}

fn function(alloc: Global) -> Result<CItem, AllocError> {
    let body = List::of_one(alloc, body(alloc)?)?;
    Ok(CItem::Function(CFunction {
        comment: None,
        head: head(alloc)?,
        body,
    }))
}

fn program(alloc: Global) -> Result<CProgram, AllocError> {
    let header = Text::from_bytes(alloc, b"stdint.h")?;
    let items = List::of_one(alloc, function(alloc)?)?;
    Ok(CProgram {
        comment: Text::from_bytes(alloc, b"half")?,
        headers: List::of_one(alloc, header)?,
        items,
    })
}

/// Prints a C file that halves even numbers.
pub(crate) fn tell_text(rt: &HostRuntime, alloc: Global) -> Result<(), TrialError> {
    let program = program(alloc)?;
    let mut text = Vec::new(alloc);
    put_program(&mut text, &program)?;
    rt.stdout().write_all(text.as_slice())?;
    Ok(())
}
