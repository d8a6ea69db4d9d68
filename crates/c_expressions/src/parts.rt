//! Parts of a value, one after the other.
ghost use Rattle.std.specs.Prelude.{◌≡◌, IfOk, MatchOption, None, OnOk, Some};
ghost use Rattle.c_forms.specs.Gives.{Gives};
ghost use Rattle.c_expressions.specs.Made.{nothing};
ghost use Rattle.c_analysis.specs.Targets.{target};
ghost use Rattle.c_expressions.specs.declared.made.Destination.TheVariants as goes;
ghost use Rattle.c_expressions.specs.Expressions.{part_built, part_of, parts_built, element_of};
ghost use Rattle.c_expressions.specs.inner.Parts.{type_at, part_in, parts_of};

use crate::building::built;
use crate::made::{Destination, Made, nothing, place_whole};
use crate::patterns::field_of;
use c_analysis::Setting;
use c_forms::{copy_exp, element, member, unsigned};
use c_tree::{CExp, Width};
use hume_base::{Box, List, Shared, Ty};
use std::alloc::AllocError;
use typed_core::TypedExpr;

/// The types of parts: one of all, or one of each.
#[derive(Clone, Copy)]
pub(crate) enum PartTypes<'a> {
    /// Elements of a vector, or operands.
    Same(&'a Ty),
    /// Fields of a struct.
    Fields(&'a [Shared<Ty>]),
    /// Arguments of a function.
    Parameters(&'a [Ty]),
}

impl<'a> PartTypes<'a> {
    pub(crate) fn at(self, place: usize) -> Option<&'a Ty>
        ensures { MatchOption result (type_at self.entry place ≡ None) (λ ty. type_at self.entry place ≡ Some ty.now) }
    {
        match self {
            PartTypes::Same(ty) => Some(ty),
            PartTypes::Fields(tys) => match tys.get(place) {
                Some(ty) => Some(ty),
                None => None,
            },
            PartTypes::Parameters(tys) => tys.get(place),
        }
    }
}

/// Each part at its place within the destination.
#[cycle(built)]
pub(crate) fn built_parts<'a>(
    s: Setting<'a>,
    scope: &mut List<CExp>,
    next: u32,
    tys: PartTypes<'a>,
    to: &'a Destination,
    parts: &'a [TypedExpr],
) -> Result<Made, AllocError>
    ensures made { IfOk result (λ it. it ≡ parts_built (type_at tys.entry) (part_in tys.entry to.now) scope.old 0
        (parts_of (target s.entry) parts.now) (nothing next)) }
    ensures scope { OnOk result (scope.new ≡ scope.old) }
{
    let mut made = nothing(s.alloc, next);
    for (place, part) in parts.iter().enumerate() {
        let more = built_part(s, scope, made.next, tys, to, place, part)?;
        made.add(more)?;
    }
    Ok(made)
}

#[cycle(built)]
fn built_part<'a>(
    s: Setting<'a>,
    scope: &mut List<CExp>,
    next: u32,
    tys: PartTypes<'a>,
    to: &'a Destination,
    place: usize,
    part: &'a TypedExpr,
) -> Result<Made, AllocError>
    ensures made { IfOk result (λ it. it ≡ part_built (part_of (target s.entry) part.now) scope.old (part_in tys.entry to.now place)
        (type_at tys.entry place) next) }
    ensures scope { OnOk result (scope.new ≡ scope.old) }
{
    let Some(ty) = tys.at(place) else {
        return Ok(nothing(s.alloc, next));
    };
    let one = part_destination(s, tys, to, place)?;
    built(s, scope, next, &one, ty, part)
}

// Where a part goes: elements to the array, others to fields of the struct.
fn part_destination(
    s: Setting,
    tys: PartTypes,
    to: &Destination,
    place: usize,
) -> Result<Destination, AllocError>
    ensures { IfOk result (λ it. it ≡ part_in tys.entry to.now place) }
{
    match (tys, to) {
        (PartTypes::Same(_), Destination::Place(object)) => {
            element_place(s, object, unsigned(s.alloc, Width::W16, place as u64))
        }
        (_, Destination::Place(object)) => place_whole(field_of(s, object, place)),
        _ => Ok(Destination::Nowhere),
    }
}

/// An element of a vector, as a destination.
pub(crate) fn element_place(
    s: Setting,
    vector: &CExp,
    index: Option<Box<CExp>>,
) -> Result<Destination, AllocError>
    ensures { (i : CExp) → Gives index i → IfOk result (λ it. it ≡ goes.Place (element_of vector.now i)) }
{
    place_whole(element_of(s, copy_exp(s.alloc, vector), index))
}

/// An element of a vector.
pub(crate) fn element_of(
    s: Setting,
    vector: Option<Box<CExp>>,
    index: Option<Box<CExp>>,
) -> Option<Box<CExp>>
    ensures { (v i : CExp) → Gives vector v → Gives index i → Gives result (element_of v i) }
{
    element(s.alloc, member(s.alloc, vector, b"e"), index)
}
