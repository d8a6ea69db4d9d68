//! The types of which values are read or written.
ghost use Rattle.std.specs.Prelude.{◌≡◌, ◌++◌, true, slice_set, IfOk, OnOk, []};
ghost use Rattle.std.specs.List.{flat_map, list_any};
ghost use Rattle.c_types.specs.Gathered.{data_type, with_each, with_type};
ghost use Rattle.c_types.specs.inner.SameTypes.{is_same};
ghost use Rattle.c_main.specs.Found.{data_in, fields_data, fields_parts, found_types, number_text, parts_of, place_from, with_data, with_one};
ghost use Rattle.c_main.specs.inner.Places.{is_marked};
ghost use Rattle.c_main.specs.inner.Marks.{marked_by, marks_of, reached, with_marks};

use c_forms::numbered;
use hume_base::{ConDef, List, Shared, SumDef, Text, Ty, Types, copy_ty, same_ty};
use std::alloc::{AllocError, Global};

/// The types, behind those that they are made of. A data type holds only those of smaller numbers.
#[tactic(auto, using(crate::proofs::Needed::marked_data))]
pub(crate) fn found_types(alloc: Global, types: &Types, tys: &[Ty]) -> Result<List<Ty>, AllocError>
    ensures { IfOk result (λ found. found ≡ found_types types.now tys.now) }
{
    let sums = types.sums.as_slice();
    let marks = needed_data(alloc, sums, tys)?;
    let mut found = needed_types(alloc, marks.as_slice(), sums)?;
    gather_types(alloc, &mut found, tys)?;
    Ok(found)
}

// The data types that are needed, each behind what its fields are made of.
#[tactic(auto, using(crate::proofs::Parts::part_steps))]
fn needed_types(alloc: Global, marks: &[bool], sums: &[SumDef]) -> Result<List<Ty>, AllocError>
    ensures { IfOk result (λ found. found ≡ with_data (is_marked marks.now) [] 0 sums.now) }
{
    let mut found = List::new(alloc);
    for (number, sum) in sums.iter().enumerate() {
        add_data(alloc, &mut found, is_marked(marks, number), number, sum)?;
    }
    Ok(found)
}

fn add_data(
    alloc: Global,
    found: &mut List<Ty>,
    needed: bool,
    number: usize,
    sum: &SumDef,
) -> Result<(), AllocError>
    ensures { OnOk result (found.new ≡ with_one needed found.old number sum.now) }
{
    if !needed {
        return Ok(());
    }
    gather_constructors(alloc, found, sum.cons.as_slice())?;
    found.push(data_type(number))
}

fn is_marked(marks: &[bool], number: usize) -> bool
    ensures { result ≡ is_marked marks.now number }
{
    match marks.get(number) {
        Some(marked) => *marked,
        None => false,
    }
}

// For each data type whether the types need it.
fn needed_data(alloc: Global, sums: &[SumDef], tys: &[Ty]) -> Result<Vec<bool>, AllocError>
    ensures { IfOk result (λ marks. marks.items ≡ marks_of tys.now sums.now) }
{
    let mut marks = vec![in alloc; false; sums.len()]?;
    mark_types(&mut marks, tys);
    mark_needed(&mut marks, sums);
    Ok(marks)
}

#[tactic(auto, using(crate::proofs::Marks::mark_steps))]
fn mark_types(marks: &mut [bool], tys: &[Ty])
    ensures { marks.new ≡ with_marks marks.old (flat_map data_in tys.now) }
{
    for ty in tys {
        mark(marks, ty);
    }
}

// From the last data type on, what a marked one holds is marked.
#[tactic(auto, using(crate::proofs::Marks::mark_steps))]
fn mark_needed(marks: &mut [bool], sums: &[SumDef])
    ensures { marks.new ≡ reached marks.old 0 sums.now }
{
    let mut left = sums.len();
    while left > 0 {
        left -= 1;
        mark_fields(marks, left, &sums[left]);
    }
}

fn mark_fields(marks: &mut [bool], number: usize, sum: &SumDef)
    ensures { marks.new ≡ marked_by marks.old number sum.now }
{
    if is_marked(marks, number) {
        mark_constructors(marks, sum.cons.as_slice());
    }
}

#[cycle(mark)]
#[tactic(auto, using(crate::proofs::Marks::mark_steps))]
fn mark(marks: &mut [bool], ty: &Ty)
    ensures { marks.new ≡ with_marks marks.old (data_in ty.now) }
{
    match ty {
        Ty::Bool | Ty::Char | Ty::Int(_) | Ty::Nat(_) => {}
        Ty::Tuple(parts) => mark_each(marks, parts.as_slice()),
        Ty::Vector(_, item) => mark(marks, item),
        Ty::Named(number) => mark_one(marks, *number as usize),
    }
}

#[tactic(auto, using(std::proofs::lemmas::List::set_past))]
fn mark_one(marks: &mut [bool], number: usize)
    ensures { marks.new ≡ slice_set marks.old number true }
{
    if number < marks.len() {
        marks[number] = true;
    }
}

#[cycle(mark)]
#[tactic(auto, using(crate::proofs::Marks::mark_steps))]
fn mark_each(marks: &mut [bool], tys: &[Shared<Ty>])
    ensures { marks.new ≡ with_marks marks.old (flat_map data_in tys.now) }
{
    for ty in tys {
        mark(marks, ty);
    }
}

#[tactic(auto, using(crate::proofs::Marks::mark_steps))]
fn mark_constructors(marks: &mut [bool], cons: &[ConDef])
    ensures { marks.new ≡ with_marks marks.old (fields_data cons.now) }
{
    for con in cons {
        mark_each(marks, con.fields.as_slice());
    }
}

#[tactic(auto, using(crate::proofs::Parts::part_steps))]
fn gather_types(alloc: Global, found: &mut List<Ty>, tys: &[Ty]) -> Result<(), AllocError>
    ensures { OnOk result (found.new ≡ with_each found.old (flat_map parts_of tys.now)) }
{
    for ty in tys {
        gather(alloc, found, ty)?;
    }
    Ok(())
}

// Adds a type, behind those that it is made of. Data types are there.
#[cycle(gather)]
#[tactic(auto, using(crate::proofs::Parts::part_steps))]
fn gather(alloc: Global, found: &mut List<Ty>, ty: &Ty) -> Result<(), AllocError>
    ensures { OnOk result (found.new ≡ with_each found.old (parts_of ty.now)) }
{
    match ty {
        Ty::Named(_) => Ok(()),
        Ty::Bool | Ty::Char | Ty::Int(_) | Ty::Nat(_) => add_new(alloc, found, ty),
        Ty::Tuple(parts) => {
            gather_each(alloc, found, parts.as_slice())?;
            add_new(alloc, found, ty)
        }
        Ty::Vector(_, item) => {
            gather(alloc, found, item)?;
            add_new(alloc, found, ty)
        }
    }
}

#[cycle(gather)]
#[tactic(auto, using(crate::proofs::Parts::part_steps))]
fn gather_each(alloc: Global, found: &mut List<Ty>, tys: &[Shared<Ty>]) -> Result<(), AllocError>
    ensures { OnOk result (found.new ≡ with_each found.old (flat_map parts_of tys.now)) }
{
    for ty in tys {
        gather(alloc, found, ty)?;
    }
    Ok(())
}

#[tactic(auto, using(crate::proofs::Parts::part_steps))]
fn add_new(alloc: Global, found: &mut List<Ty>, ty: &Ty) -> Result<(), AllocError>
    ensures { OnOk result (found.new ≡ with_type found.old ty.now) }
{
    if is_found(found.as_slice(), ty) {
        return Ok(());
    }
    found.push(copy_ty(alloc, ty)?)
}

#[tactic(auto, using(crate::proofs::Parts::part_steps))]
fn is_found(found: &[Ty], ty: &Ty) -> bool
    ensures { result ≡ list_any (λ other. is_same other ty.now) found.now }
{
    number_of(found, ty).is_some()
}

#[tactic(auto, using(crate::proofs::Parts::part_steps))]
fn gather_constructors(
    alloc: Global,
    found: &mut List<Ty>,
    cons: &[ConDef],
) -> Result<(), AllocError>
    ensures { OnOk result (found.new ≡ with_each found.old (fields_parts cons.now)) }
{
    for con in cons {
        gather_each(alloc, found, con.fields.as_slice())?;
    }
    Ok(())
}

// The number of a type among others.
fn number_of(found: &[Ty], ty: &Ty) -> Option<u64>
    ensures { result ≡ place_from 0 ty.now found.now }
{
    for (place, other) in found.iter().enumerate() {
        if is_same(other, ty) {
            return Some(place as u64);
        }
    }
    None
}

/// The number of a type among others.
pub(crate) fn number_text(alloc: Global, found: &[Ty], ty: &Ty) -> Result<Text, AllocError>
    ensures { IfOk result (λ text. text ≡ number_text found.now ty.now) }
{
    match number_of(found, ty) {
        Some(number) => numbered(alloc, b"", number),
        None => numbered(alloc, b"", 0),
    }
}

fn is_same(left: &Ty, right: &Ty) -> bool
    ensures { result ≡ is_same left.now right.now }
{
    same_ty(left, right)
}

// The data type of a number.
fn data_type(number: usize) -> Ty
    ensures { result ≡ data_type number }
{
    match u32::try_from(number) {
        Ok(number) => Ty::Named(number),
        Err(_) => Ty::Bool,
    }
}
