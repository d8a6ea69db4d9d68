//! The types of a file.
ghost use Rattle.std.specs.Prelude.{◌≡◌, ◌↔◌, IsTrue, IfOk, OnOk, codes};
ghost use Rattle.std.specs.List.{flat_map, list_any};
ghost use Rattle.hume_base.specs.declared.types.Ty.{out-Ty};
ghost use Rattle.c_forms.specs.Gives.{Gives};
ghost use Rattle.c_types.specs.Shapes.{seen, form_of};
ghost use Rattle.c_types.specs.inner.SameTypes.{is_same};
ghost use Rattle.c_types.specs.Gathered.{gathered, gathered_of, with_added, c_type, numbered_type, tag, added, made_of, with_each, with_type};
ghost use Rattle.c_types.specs.Gathered.{with_fields, with_data_types, data_type, made_count, number_of};
ghost use Rattle.c_types.specs.Declarations.{items};

use crate::declarations::items_of;
use crate::shapes::{Shape, scalar_width, shape_of};
use c_forms::{named, numbered, unsigned};
use c_names::Names;
use c_tree::{CExp, CItem, CType, Width};
use hume_base::{Box, List, Shared, SumDef, Ty, Types, copy_ty, same_ty};
use std::alloc::{AllocError, Global};

/// The types that a file declares, each behind those that it is made of: the data types of a program in their order, and the
/// tuples and vectors that were taken in.
#[derive(Drop)]
pub struct CTypes<'a> {
    types: &'a Types,
    names: &'a Names,
    tys: List<Ty>,
}

impl<'a> CTypes<'a> {
    /// The data types of a program, with what their fields are made of.
    pub fn of(alloc: Global, types: &'a Types, names: &'a Names) -> Result<CTypes<'a>, AllocError>
        ensures { IfOk result (λ all. gathered all ≡ gathered_of types.now names.now) }
    {
        let mut tys = List::new(alloc);
        add_data_types(alloc, &mut tys, types.sums.as_slice())?;
        Ok(CTypes { types, names, tys })
    }

    pub fn types(&self) -> &'a Types
        ensures { result.now ≡ (gathered self.now).types }
    {
        self.types
    }

    pub fn names(&self) -> &'a Names
        ensures { result.now ≡ (gathered self.now).names }
    {
        self.names
    }

    /// The types that the file declares, in their order.
    pub fn declared(&self) -> &[Ty]
        ensures { result.now ≡ (gathered self.now).tys }
    {
        self.tys.as_slice()
    }

    pub fn shape(&self, ty: &Ty) -> Shape<'a>
        ensures { seen result ≡ form_of (gathered self.now).types ty.now }
    {
        shape_of(self.types, ty)
    }

    /// The type of C that the type is.
    pub fn c_type(&self, alloc: Global, ty: &Ty) -> Result<CType, AllocError>
        ensures { IfOk result (λ made. made ≡ c_type (gathered self.now) ty.now) }
    {
        match ty {
            Ty::Tuple(_) => self.numbered_type(alloc, b"Tuple", ty),
            Ty::Vector(_, _) => self.numbered_type(alloc, b"Vector", ty),
            Ty::Named(number) => match self.types.sums.get(*number as usize) {
                None => Ok(CType::Bool),
                Some(sum) => { Ok(CType::Named(self.names.data_type(alloc, sum.name.bytes())?)) }
            },
            Ty::Bool | Ty::Char | Ty::Int(_) | Ty::Nat(_) => Ok(scalar_width(ty)),
        }
    }

    // A tuple or a vector has a number: how many of them stand up to it.
    fn numbered_type(&self, alloc: Global, word: &[u8], ty: &Ty) -> Result<CType, AllocError>
        ensures { IfOk result (λ made. made ≡ numbered_type (gathered self.now) word.now ty.now) }
    {
        let number = number_of(self.tys.as_slice(), ty);
        let name = numbered(alloc, b"", number)?;
        Ok(CType::Named(self.names.inner(alloc, word, name.bytes())?))
    }

    /// Takes a type in, behind the tuples and vectors that it is made of.
    pub fn add(&mut self, alloc: Global, ty: &Ty) -> Result<(), AllocError>
        ensures { OnOk result (gathered self.new ≡ with_added (gathered self.old) ty.now) }
    {
        add_ty(alloc, &mut self.tys, ty)
    }

    /// Their declarations.
    pub fn items(&self, alloc: Global) -> Result<List<CItem>, AllocError>
        ensures { IfOk result (λ made. made ≡ items (gathered self.now)) }
    {
        let mut items = List::new(alloc);
        for ty in self.tys.as_slice() {
            items.append(items_of(alloc, self, ty)?)?;
        }
        Ok(items)
    }

    /// A constructor's constant: by its name, or by its number where an `int` of 16 bits doesn't hold that.
    pub fn tag(&self, alloc: Global, sum: &SumDef, place: u32) -> Option<Box<CExp>>
        ensures { Gives result (tag (gathered self.now).names sum.now place) }
    {
        match sum.cons.get(place as usize) {
            Some(con) if place < 32_768 => {
                named(alloc, self.names.constructor(alloc, con.name.bytes()).ok())
            }
            _ => unsigned(alloc, Width::W16, u64::from(place)),
        }
    }
}

fn add_data_types(alloc: Global, tys: &mut List<Ty>, sums: &[SumDef]) -> Result<(), AllocError>
    ensures { OnOk result (tys.new ≡ with_data_types tys.old 0 sums.now) }
{
    for (number, sum) in sums.iter().enumerate() {
        add_fields(alloc, tys, sum)?;
        tys.push(data_type(number))?;
    }
    Ok(())
}

// Adds a type behind the tuples and vectors that it is made of, where it isn't there.
#[cycle(add_ty)]
#[tactic(auto, using(crate::proofs::MadeOf::made_steps))]
fn add_ty(alloc: Global, tys: &mut List<Ty>, ty: &Ty) -> Result<(), AllocError>
    ensures { OnOk result (tys.new ≡ added tys.old ty.now) }
{
    match ty {
        Ty::Bool | Ty::Char | Ty::Int(_) | Ty::Nat(_) | Ty::Named(_) => Ok(()),
        Ty::Tuple(parts) => {
            add_each(alloc, tys, parts.as_slice())?;
            add_new(alloc, tys, ty)
        }
        Ty::Vector(_, item) => {
            add_ty(alloc, tys, item)?;
            add_new(alloc, tys, ty)
        }
    }
}

#[cycle(add_ty)]
#[tactic(auto, using(crate::proofs::MadeOf::made_steps))]
fn add_each(alloc: Global, tys: &mut List<Ty>, parts: &[Shared<Ty>]) -> Result<(), AllocError>
    ensures { OnOk result (tys.new ≡ with_each tys.old (flat_map made_of parts.now)) }
{
    for ty in parts {
        add_ty(alloc, tys, ty)?;
    }
    Ok(())
}

fn add_new(alloc: Global, tys: &mut List<Ty>, ty: &Ty) -> Result<(), AllocError>
    ensures { OnOk result (tys.new ≡ with_type tys.old ty.now) }
{
    if is_among(tys.as_slice(), ty) {
        return Ok(());
    }
    tys.push(copy_ty(alloc, ty)?)
}

fn is_among(tys: &[Ty], ty: &Ty) -> bool
    ensures { result ≡ list_any (λ other. is_same other ty.now) tys.now }
{
    for other in tys {
        if is_same(other, ty) {
            return true;
        }
    }
    false
}

fn is_same(left: &Ty, right: &Ty) -> bool
    ensures { result ≡ is_same left.now right.now }
{
    same_ty(left, right)
}

#[tactic(auto, using(crate::proofs::MadeOf::made_steps))]
fn add_fields(alloc: Global, tys: &mut List<Ty>, sum: &SumDef) -> Result<(), AllocError>
    ensures { OnOk result (tys.new ≡ with_fields tys.old sum.now) }
{
    for con in sum.cons.as_slice() {
        add_each(alloc, tys, con.fields.as_slice())?;
    }
    Ok(())
}

// How many tuples and vectors stand among the types up to this one.
fn number_of(tys: &[Ty], ty: &Ty) -> u64
    ensures { result ≡ number_of tys.now ty.now }
{
    let mut number = 0u64;
    for other in tys {
        number += made_count(other);
        if is_same(other, ty) {
            return number;
        }
    }
    number
}

fn made_count(ty: &Ty) -> u64
    ensures { result ≡ made_count (out-Ty ty.now) }
{
    match ty {
        Ty::Tuple(_) | Ty::Vector(_, _) => 1,
        Ty::Bool | Ty::Char | Ty::Int(_) | Ty::Nat(_) | Ty::Named(_) => 0,
    }
}

// The data type of a number.
fn data_type(number: usize) -> Ty
    ensures { result ≡ data_type number }
{
    match u32::try_from(number) {
        Ok(number) => Ty::Named(number),
        Err(_) => Ty::Bool,
    }
}
