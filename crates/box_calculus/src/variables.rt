//! The types of the variables of patterns and rules.
ghost use Rattle.std.specs.Prelude.{◌≡◌, IfOk, map};
ghost use Rattle.hume_base.specs.declared.types.Ty.{out-Ty};
ghost use Rattle.hume_model.specs.BoxTyping.{port_types};
ghost use Rattle.calculus_laws.specs.VariableTypes.{con_binds, parts_bind, pattern_binds, position_binds, rule_binds, tuple_binds};

use hume_base::{List, Shared, Ty, Types, copy_ty};
use hume_model::{InPat, PatC, PortC};
use std::alloc::{AllocError, Global};

/// The types of a rule's variables, by the inputs of its box.
#[tactic(auto, using(crate::proofs::ShortTypes::type_steps))]
pub(crate) fn rule_variables(
    alloc: Global,
    types: &Types,
    pats: &[InPat],
    ins: &[PortC],
) -> Result<List<Ty>, AllocError>
    ensures { IfOk result (λ tys. tys ≡ rule_binds types.now pats.now (port_types ins.now)) }
{
    let mut tys = List::new(alloc);
    for (i, pat) in pats.iter().enumerate() {
        let Some(input) = ins.get(i) else {
            return Ok(tys);
        };
        tys.append(position_variables(alloc, types, pat, &input.ty)?)?;
    }
    Ok(tys)
}

fn position_variables(
    alloc: Global,
    types: &Types,
    pat: &InPat,
    ty: &Ty,
) -> Result<List<Ty>, AllocError>
    ensures { IfOk result (λ tys. tys ≡ position_binds types.now pat.now ty.now) }
{
    match pat {
        InPat::Built(pattern) => pattern_variables(alloc, types, pattern, ty),
        _ => Ok(List::new(alloc)),
    }
}

#[cycle(pattern_variables)]
fn pattern_variables(
    alloc: Global,
    types: &Types,
    pattern: &PatC,
    ty: &Ty,
) -> Result<List<Ty>, AllocError>
    ensures { IfOk result (λ tys. tys ≡ pattern_binds types.now pattern.now ty.now) }
{
    match pattern {
        PatC::Var => List::of_one(alloc, copy_ty(alloc, ty)?),
        PatC::Any | PatC::Word(_) => Ok(List::new(alloc)),
        PatC::Con(place, parts) => con_variables(alloc, types, *place, parts.as_slice(), ty),
        PatC::Tuple(parts) => tuple_variables(alloc, types, parts.as_slice(), ty),
    }
}

#[cycle(pattern_variables)]
fn con_variables(
    alloc: Global,
    types: &Types,
    place: u32,
    parts: &[PatC],
    ty: &Ty,
) -> Result<List<Ty>, AllocError>
    ensures { IfOk result (λ tys. tys ≡ con_binds types.now place (map (pattern_binds types.now) parts.now) (out-Ty ty.now)) }
{
    let Ty::Named(number) = ty else {
        return Ok(List::new(alloc));
    };
    let Some(sum) = types.sums.get(*number as usize) else {
        return all_variables(alloc, types, parts, &[]);
    };
    let Some(con) = sum.cons.get(place as usize) else {
        return all_variables(alloc, types, parts, &[]);
    };
    all_variables(alloc, types, parts, con.fields.as_slice())
}

#[cycle(pattern_variables)]
fn tuple_variables(
    alloc: Global,
    types: &Types,
    parts: &[PatC],
    ty: &Ty,
) -> Result<List<Ty>, AllocError>
    ensures { IfOk result (λ tys. tys ≡ tuple_binds (map (pattern_binds types.now) parts.now) (out-Ty ty.now)) }
{
    match ty {
        Ty::Tuple(tys) => all_variables(alloc, types, parts, tys.as_slice()),
        _ => Ok(List::new(alloc)),
    }
}

#[cycle(pattern_variables)]
#[tactic(auto, using(crate::proofs::ShortTypes::type_steps))]
fn all_variables(
    alloc: Global,
    types: &Types,
    parts: &[PatC],
    tys: &[Shared<Ty>],
) -> Result<List<Ty>, AllocError>
    ensures { IfOk result (λ all. all ≡ parts_bind (map (pattern_binds types.now) parts.now) tys.now) }
{
    let mut all = List::new(alloc);
    for (i, part) in parts.iter().enumerate() {
        let Some(ty) = tys.get(i) else {
            return Ok(all);
        };
        all.append(pattern_variables(alloc, types, part, ty)?)?;
    }
    Ok(all)
}
