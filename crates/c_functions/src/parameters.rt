//! Parameters of the functions of C.
ghost use Rattle.std.specs.Prelude.{◌≡◌, ◌++◌, Some, IfOk, OnOk, slice_get};
ghost use Rattle.c_analysis.specs.Targets.{target};
ghost use Rattle.c_functions.specs.Functions.{out_parameter, parameter, parameter_if, parameter_name, parameter_object, parameters, parameters_from, passing_of, is_used, used_from};

use c_analysis::Setting;
use c_forms::{mentions, text};
use c_names::argument;
use c_tree::{CExp, CParameter, CStm, Passing};
use hume_base::{Box, List, Text, Ty};
use hume_model::FunC;
use std::alloc::{AllocError, Global};

fn parameter_name(alloc: Global, place: usize) -> Result<Text, AllocError>
    ensures { IfOk result (λ name. name ≡ parameter_name place) }
{
    if place == usize::MAX {
        return Err(AllocError);
    }
    argument(alloc, (place + 1) as u64)
}

/// The object that a parameter is: a number, or what a pointer points to.
pub(crate) fn parameter_object(s: Setting, ty: &Ty, place: usize) -> Result<Box<CExp>, AllocError>
    ensures { IfOk result (λ object. object ≡ parameter_object (target s.entry) ty.now place) }
{
    let name = parameter_name(s.alloc, place)?;
    if s.is_scalar(ty) {
        return Box::new(s.alloc, CExp::Name(name));
    }
    Box::new(s.alloc, CExp::Pointed(name))
}

/// Which parameters the statements use.
pub(crate) fn used_parameters(
    alloc: Global,
    function: &FunC,
    statements: &[CStm],
) -> Result<List<bool>, AllocError>
    ensures { IfOk result (λ used. used ≡ used_from statements.now 0 function.now.params) }
{
    let mut used = List::new(alloc);
    for (place, _) in function.params.as_slice().iter().enumerate() {
        used.push(is_used(alloc, place, statements)?)?;
    }
    Ok(used)
}

fn is_used(alloc: Global, place: usize, statements: &[CStm]) -> Result<bool, AllocError>
    ensures { IfOk result (λ used. used ≡ is_used statements.now place) }
{
    let name = parameter_name(alloc, place)?;
    Ok(mentions(name.bytes(), statements))
}

/// The parameters of a function: those that it uses, and `out` if it writes its result there.
pub(crate) fn parameters(
    s: Setting,
    function: &FunC,
    used: &[bool],
    writes: bool,
) -> Result<List<CParameter>, AllocError>
    ensures { IfOk result (λ all. all ≡ parameters (target s.entry) function.now used.now writes) }
{
    let mut all = parameters_used(s, function.params.as_slice(), used)?;
    if writes {
        all.push(out_parameter(s, &function.gives)?)?;
    }
    Ok(all)
}

#[tactic(auto, using(crate::proofs::EquationForms::match_steps))]
fn parameters_used(s: Setting, tys: &[Ty], used: &[bool]) -> Result<List<CParameter>, AllocError>
    ensures { IfOk result (λ all. all ≡ parameters_from (target s.entry) used.now 0 tys.now) }
{
    let mut all = List::new(s.alloc);
    for (place, ty) in tys.iter().enumerate() {
        put_parameter(s, &mut all, place, ty, used)?;
    }
    Ok(all)
}

fn put_parameter(
    s: Setting,
    all: &mut List<CParameter>,
    place: usize,
    ty: &Ty,
    used: &[bool],
) -> Result<(), AllocError>
    ensures { OnOk result (all.new ≡ all.old ++ parameter_if (target s.entry) place ty.now (slice_get used.now place)) }
{
    match used.get(place) {
        Some(told) => put_told(s, all, place, ty, *told),
        None => Ok(()),
    }
}

#[tactic(auto, using(crate::proofs::EquationForms::match_steps))]
fn put_told(
    s: Setting,
    all: &mut List<CParameter>,
    place: usize,
    ty: &Ty,
    used: bool,
) -> Result<(), AllocError>
    ensures { OnOk result (all.new ≡ all.old ++ parameter_if (target s.entry) place ty.now (Some used)) }
{
    if used {
        all.push(parameter(s, place, ty)?)
    } else {
        Ok(())
    }
}

fn parameter(s: Setting, place: usize, ty: &Ty) -> Result<CParameter, AllocError>
    ensures { IfOk result (λ it. it ≡ parameter (target s.entry) place ty.now) }
{
    Ok(CParameter {
        ty: s.types.c_type(s.alloc, ty)?,
        passing: passing(s, ty),
        name: parameter_name(s.alloc, place)?,
    })
}

fn passing(s: Setting, ty: &Ty) -> Passing
    ensures { result ≡ passing_of (target s.entry) ty.now }
{
    if s.is_scalar(ty) {
        Passing::Value
    } else {
        Passing::Read
    }
}

fn out_parameter(s: Setting, ty: &Ty) -> Result<CParameter, AllocError>
    ensures { IfOk result (λ it. it ≡ out_parameter (target s.entry) ty.now) }
{
    Ok(CParameter {
        ty: s.types.c_type(s.alloc, ty)?,
        passing: Passing::Written,
        name: text(s.alloc, b"out")?,
    })
}
