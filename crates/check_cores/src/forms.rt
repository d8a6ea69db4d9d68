//! The core of each form of expression, from the last cores of a stack.
ghost use Rattle.std.specs.Prelude.{◌≡◌, ◌∷◌, [], ◌||◌, drop, IfOk, OnOk};
ghost use Rattle.typed_core.specs.declared.typed_tree.TypedExpr.{Prim, Case as CaseCore};
ghost use Rattle.check_typing.specs.Cores.{let_core, if_core, and_core, or_core, operation_core, convert_core, index_core, update_core, raise_with_core};
ghost use Rattle.check_cores.specs.Stacks.{top_core};

use crate::stack::Stack;
use hume_base::{Box, List, Shared, Ty};
use hume_model::{Op, PatC};
use std::alloc::{AllocError, Global};
use typed_core::TypedExpr;

type Cores = Stack<(Box<TypedExpr>, bool)>;

pub(crate) fn raise_with(alloc: Global, cores: &mut Cores, exn: u32) -> Result<(), AllocError>
    ensures { OnOk result (cores.new ≡ raise_with_core exn (top_core cores.old) ∷ drop 1 cores.old) }
{
    let (part, too_wide) = last(cores)?;
    put(alloc, cores, TypedExpr::Raise(exn, Some(part)), too_wide)
}

pub(crate) fn binding(alloc: Global, cores: &mut Cores, of: Shared<Ty>) -> Result<(), AllocError>
    ensures { OnOk result (cores.new ≡ let_core of (top_core (drop 1 cores.old)) (top_core cores.old) ∷ drop 2 cores.old) }
{
    let (body, body_wide) = last(cores)?;
    let (part, part_wide) = last(cores)?;
    put(
        alloc,
        cores,
        TypedExpr::Let(of, part, body),
        part_wide || body_wide,
    )
}

pub(crate) fn branches(alloc: Global, cores: &mut Cores) -> Result<(), AllocError>
    ensures { OnOk result (cores.new ≡ if_core (top_core (drop 2 cores.old)) (top_core (drop 1 cores.old)) (top_core cores.old) ∷ drop 3 cores.old) }
{
    let (when_false, b) = last(cores)?;
    let (when_true, a) = last(cores)?;
    let (test, t) = last(cores)?;
    put(
        alloc,
        cores,
        TypedExpr::If(test, when_true, when_false),
        t || (a || b),
    )
}

pub(crate) fn both(alloc: Global, cores: &mut Cores) -> Result<(), AllocError>
    ensures { OnOk result (cores.new ≡ and_core (top_core (drop 1 cores.old)) (top_core cores.old) ∷ drop 2 cores.old) }
{
    put(alloc, cores, TypedExpr::Word(0), false)?;
    branches(alloc, cores)
}

pub(crate) fn either(alloc: Global, cores: &mut Cores) -> Result<(), AllocError>
    ensures { OnOk result (cores.new ≡ or_core (top_core (drop 1 cores.old)) (top_core cores.old) ∷ drop 2 cores.old) }
{
    let right = last(cores)?;
    put(alloc, cores, TypedExpr::Word(1), false)?;
    cores.push(right)?;
    branches(alloc, cores)
}

pub(crate) fn operation(
    alloc: Global,
    cores: &mut Cores,
    operation: Op,
    ty: Ty,
) -> Result<(), AllocError>
    ensures { OnOk result (cores.new ≡ operation_core operation ty (top_core (drop 1 cores.old)) (top_core cores.old) ∷ drop 2 cores.old) }
{
    let (right, right_wide) = last(cores)?;
    let (left, left_wide) = last(cores)?;
    let mut parts = List::of_one(alloc, left.into_inner())?;
    parts.push(right.into_inner())?;
    let operation = TypedExpr::Prim(operation, ty, parts);
    put(alloc, cores, operation, left_wide || right_wide)
}

/// An operation on one core.
pub(crate) fn applied(
    alloc: Global,
    cores: &mut Cores,
    operation: Op,
    ty: Ty,
) -> Result<(), AllocError>
    ensures { OnOk result (cores.new ≡ (Prim operation ty ((top_core cores.old).0 ∷ []), (top_core cores.old).1) ∷ drop 1 cores.old) }
{
    let (part, too_wide) = last(cores)?;
    let parts = List::of_one(alloc, part.into_inner())?;
    put(
        alloc,
        cores,
        TypedExpr::Prim(operation, ty, parts),
        too_wide,
    )
}

pub(crate) fn conversion(
    alloc: Global,
    cores: &mut Cores,
    from: Ty,
    to: Ty,
) -> Result<(), AllocError>
    ensures { OnOk result (cores.new ≡ convert_core from to (top_core cores.old) ∷ drop 1 cores.old) }
{
    let (part, too_wide) = last(cores)?;
    put(alloc, cores, TypedExpr::Convert(from, to, part), too_wide)
}

pub(crate) fn element(
    alloc: Global,
    cores: &mut Cores,
    of: Shared<Ty>,
    places: Ty,
) -> Result<(), AllocError>
    ensures { OnOk result (cores.new ≡ index_core of places (top_core (drop 1 cores.old)) (top_core cores.old) ∷ drop 2 cores.old) }
{
    let (place, p) = last(cores)?;
    let (vector, v) = last(cores)?;
    put(
        alloc,
        cores,
        TypedExpr::Index(of, places, vector, place),
        v || p,
    )
}

pub(crate) fn update(
    alloc: Global,
    cores: &mut Cores,
    of: Shared<Ty>,
    places: Ty,
) -> Result<(), AllocError>
    ensures { OnOk result (cores.new
        ≡ update_core of places (top_core (drop 2 cores.old)) (top_core (drop 1 cores.old)) (top_core cores.old) ∷ drop 3 cores.old) }
{
    let (item, i) = last(cores)?;
    let (place, p) = last(cores)?;
    let (vector, v) = last(cores)?;
    let update = TypedExpr::Update(of, places, vector, place, item);
    put(alloc, cores, update, v || (p || i))
}

pub(crate) fn alternatives(
    alloc: Global,
    cores: &mut Cores,
    of: Shared<Ty>,
    arms: (List<(PatC, TypedExpr)>, bool),
) -> Result<(), AllocError>
    ensures { OnOk result (cores.new ≡ (CaseCore of (top_core cores.old).0 arms.0, (top_core cores.old).1 || arms.1) ∷ drop 1 cores.old) }
{
    let (arms, some_too_wide) = arms;
    let (part, too_wide) = last(cores)?;
    put(
        alloc,
        cores,
        TypedExpr::Case(of, part, arms),
        too_wide || some_too_wide,
    )
}

/// Puts a core onto the stack, and whether a literal in it is out of range.
pub(crate) fn put(
    alloc: Global,
    cores: &mut Cores,
    core: TypedExpr,
    too_wide: bool,
) -> Result<(), AllocError>
    ensures { OnOk result (cores.new ≡ (core, too_wide) ∷ cores.old) }
{
    cores.push((Box::new(alloc, core)?, too_wide))
}

/// Takes the last core out, to be a part of another.
pub(crate) fn last(cores: &mut Cores) -> Result<(Box<TypedExpr>, bool), AllocError>
    ensures taken { IfOk result (λ taken. taken ≡ top_core cores.old) }
    ensures left { OnOk result (cores.new ≡ drop 1 cores.old) }
{
    match cores.pop() {
        None => Err(AllocError),
        Some(core) => Ok(core),
    }
}
