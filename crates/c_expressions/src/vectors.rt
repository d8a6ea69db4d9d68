//! Elements of vectors.
ghost use Rattle.std.specs.Prelude.{◌≡◌, List, IfOk, OnOk};
ghost use Rattle.c_tree.specs.declared.tree.CExp.TheVariants as tree;
ghost use Rattle.c_tree.specs.declared.tree.COp.TheVariants as operator;
ghost use Rattle.c_tree.specs.declared.tree.CStm.TheVariants as statement;
ghost use Rattle.c_tree.specs.declared.tree.CType.TheVariants as type;
ghost use Rattle.c_tree.specs.declared.tree.Width.TheVariants.{W16};
ghost use Rattle.c_forms.specs.Gives.{Gives};
ghost use Rattle.c_forms.specs.Statements.{one_if};
ghost use Rattle.hume_base.specs.declared.types.Ty.{out-Ty};
ghost use Rattle.hume_model.specs.declared.exceptions.TheConstants.{RANGE};
ghost use Rattle.c_analysis.specs.Raises.{word_of};
ghost use Rattle.c_analysis.specs.Targets.{target};
ghost use Rattle.c_expressions.specs.declared.made.Destination.TheVariants as goes;
ghost use Rattle.c_expressions.specs.Made.{behind, plain};
ghost use Rattle.c_expressions.specs.Expressions.{element_of, index_effects, index_of, indexed, item_in, item_written, part_of, raised, update_built};
ghost use Rattle.c_expressions.specs.Expressions.{index_in, index_variable, width_of_places, range_test, index_tested, element_at, item_left_out, item_assigned};

use crate::building::{built, raised};
use crate::made::{
    Code, Destination, Made, behind, behind_object, code_whole, defined, made_whole, plain_whole,
    without_value,
};
use crate::parts::{element_of, element_place};
use crate::values::value;
use c_analysis::{Setting, is_inside, word_of};
use c_forms::{appended, assign, binary, cast, copy_exp, of_one, one_if, unsigned, with};
use c_tree::{CExp, COp, CStm, CType, Width};
use hume_base::{Box, List, Ty};
use hume_model::RANGE;
use std::alloc::{AllocError, Global};
use typed_core::TypedExpr;

// The index of a place: a literal within the length, or else a variable with the place less one, without a sign, which lies within the
// length if it is below it.
#[cycle(built)]
fn index_of<'a>(
    s: Setting<'a>,
    scope: &mut List<CExp>,
    next: u32,
    of: &'a Ty,
    place_ty: &'a Ty,
    place: &'a TypedExpr,
) -> Result<Code, AllocError>
    ensures made { IfOk result (λ it. it ≡ index_of of.now place_ty.now (part_of (target s.entry) place.now) scope.old next) }
    ensures scope { OnOk result (scope.new ≡ scope.old) }
{
    if is_inside(of, place) {
        return sure_index(s.alloc, place, next);
    }
    let code = value(s, scope, next, place_ty, place)?;
    index_variable(s, place_ty, code)
}

fn sure_index(alloc: Global, place: &TypedExpr, next: u32) -> Result<Code, AllocError>
    ensures { IfOk result (λ it. it ≡ plain (index_in (word_of place.now)) next) }
{
    plain_whole(alloc, unsigned(alloc, Width::W16, sure_place(place)), next)
}

fn sure_place(place: &TypedExpr) -> u64
    ensures { tree.Unsigned W16 result ≡ index_in (word_of place.now) }
{
    match word_of(place) {
        Some(word) => word.saturating_sub(1),
        None => 0,
    }
}

fn index_variable(s: Setting, place_ty: &Ty, code: Code) -> Result<Code, AllocError>
    ensures { IfOk result (λ it. it ≡ index_variable place_ty.now code) }
{
    let width = width_of_places(place_ty);
    let exp = less_one(s.alloc, width, code.exp);
    let code = code_whole(Some(code.statements), exp, code.next)?;
    defined(s.alloc, CType::Unsigned(width), code)
}

// A place less one, without a sign.
fn less_one(alloc: Global, width: Width, place: Box<CExp>) -> Option<Box<CExp>>
    ensures { Gives result (tree.Binary operator.Subtract (tree.Cast (type.Unsigned width) place) (tree.Unsigned width 1)) }
{
    let place = cast(alloc, CType::Unsigned(width), Some(place));
    let one = unsigned(alloc, width, 1);
    binary(alloc, COp::Subtract, place, one)
}

#[tactic(auto, using(c_analysis::proofs::Forms::type_forms))]
fn width_of_places(ty: &Ty) -> Width
    ensures { result ≡ width_of_places ty.now }
{
    match ty {
        Ty::Int(bits) | Ty::Nat(bits) if *bits > 32 => Width::W64,
        _ => Width::W32,
    }
}

// Raises `Range` where an index isn't within the length.
#[tactic(auto, using(c_analysis::proofs::Forms::type_forms))]
fn range_test(
    s: Setting,
    of: &Ty,
    place_ty: &Ty,
    place: &TypedExpr,
    index: &CExp,
) -> Option<List<CStm>>
    ensures { Gives result (range_test (target s.entry) of.now place_ty.now place.now index.now) }
{
    match of {
        Ty::Vector(count, _) if !is_inside(of, place) => {
            let end = u64::from(*count);
            of_one(s.alloc, end_test(s, width_of_places(place_ty), end, index))
        }
        _ => Some(List::new(s.alloc)),
    }
}

fn end_test(s: Setting, width: Width, end: u64, index: &CExp) -> Option<Box<CStm>>
    ensures { Gives result (one_if (tree.Binary operator.GreaterEqual index.now (tree.Unsigned width end)) (raised (target s.entry) RANGE)) }
{
    let end = unsigned(s.alloc, width, end);
    let test = binary(s.alloc, COp::GreaterEqual, copy_exp(s.alloc, index), end);
    one_if(s.alloc, test, raised(s, RANGE).ok())
}

// An index whose range is tested.
fn index_tested(
    s: Setting,
    of: &Ty,
    place_ty: &Ty,
    place: &TypedExpr,
    index: Code,
) -> Result<Code, AllocError>
    ensures { IfOk result (λ it. it ≡ index_tested (target s.entry) of.now place_ty.now place.now index) }
{
    let tests = range_test(s, of, place_ty, place, &index.exp);
    let statements = appended(Some(index.statements), tests);
    code_whole(statements, Some(index.exp), index.next)
}

// The index of a place, whose range is tested.
#[cycle(built)]
fn index_within<'a>(
    s: Setting<'a>,
    scope: &mut List<CExp>,
    next: u32,
    of: &'a Ty,
    place_ty: &'a Ty,
    place: &'a TypedExpr,
) -> Result<Code, AllocError>
    ensures made { IfOk result (λ it. it ≡ index_tested (target s.entry) of.now place_ty.now place.now
        (index_of of.now place_ty.now (part_of (target s.entry) place.now) scope.old next)) }
    ensures scope { OnOk result (scope.new ≡ scope.old) }
{
    let index = index_of(s, scope, next, of, place_ty, place)?;
    index_tested(s, of, place_ty, place, index)
}

/// What taking an element may raise.
#[cycle(built)]
pub(crate) fn index_effects<'a>(
    s: Setting<'a>,
    scope: &mut List<CExp>,
    next: u32,
    of: &'a Ty,
    place_ty: &'a Ty,
    vector: &'a Box<TypedExpr>,
    place: &'a Box<TypedExpr>,
) -> Result<Made, AllocError>
    ensures made { IfOk result (λ it. it ≡ index_effects (target s.entry) of.now place_ty.now (part_of (target s.entry) vector.now)
        (part_of (target s.entry) place.now) scope.old next) }
    ensures scope { OnOk result (scope.new ≡ scope.old) }
{
    let made = built(s, scope, next, &Destination::Nowhere, of, vector)?;
    let index = index_within(s, scope, made.next, of, place_ty, place)?;
    behind(made.statements, without_value(index))
}

/// The element of a vector at a place.
#[cycle(built)]
pub(crate) fn indexed<'a>(
    s: Setting<'a>,
    scope: &mut List<CExp>,
    next: u32,
    of: &'a Ty,
    place_ty: &'a Ty,
    vector: &'a Box<TypedExpr>,
    place: &'a Box<TypedExpr>,
) -> Result<Code, AllocError>
    ensures made { IfOk result (λ it. it ≡ indexed (target s.entry) of.now place_ty.now (part_of (target s.entry) vector.now)
        (part_of (target s.entry) place.now) scope.old next) }
    ensures scope { OnOk result (scope.new ≡ scope.old) }
{
    let vector = value(s, scope, next, of, vector)?;
    let index = index_within(s, scope, vector.next, of, place_ty, place)?;
    element_at(s, vector, index)
}

fn element_at(s: Setting, vector: Code, index: Code) -> Result<Code, AllocError>
    ensures { IfOk result (λ it. it ≡ element_at vector index) }
{
    let statements = appended(Some(vector.statements), Some(index.statements));
    let exp = element_of(s, Some(vector.exp), Some(index.exp));
    code_whole(statements, exp, index.next)
}

/// A vector with another element. All parts are evaluated before the place is tested.
#[cycle(built)]
pub(crate) fn built_update<'a>(
    s: Setting<'a>,
    scope: &mut List<CExp>,
    next: u32,
    to: &'a Destination,
    of: &'a Ty,
    place_ty: &'a Ty,
    vector: &'a Box<TypedExpr>,
    place: &'a Box<TypedExpr>,
    item: &'a Box<TypedExpr>,
) -> Result<Made, AllocError>
    ensures made { IfOk result (λ it. it ≡ update_built (target s.entry) of.now place_ty.now (part_of (target s.entry) vector.now)
        (part_of (target s.entry) place.now) (part_of (target s.entry) item.now) scope.old to.now next) }
    ensures scope { OnOk result (scope.new ≡ scope.old) }
{
    let made = built(s, scope, next, to, of, vector)?;
    let item = built_item(s, scope, made.next, to, of, place_ty, place, item)?;
    behind(made.statements, item)
}

// The new element, behind the index of its place.
#[cycle(built)]
fn built_item<'a>(
    s: Setting<'a>,
    scope: &mut List<CExp>,
    next: u32,
    to: &'a Destination,
    of: &'a Ty,
    place_ty: &'a Ty,
    place: &'a TypedExpr,
    item: &'a TypedExpr,
) -> Result<Made, AllocError>
    ensures made { IfOk result (λ it. it ≡ item_written (target s.entry) of.now (out-Ty of.now) place_ty.now (part_of (target s.entry) place.now)
        (part_of (target s.entry) item.now) scope.old to.now (index_of of.now place_ty.now (part_of (target s.entry) place.now) scope.old next)) }
    ensures scope { OnOk result (scope.new ≡ scope.old) }
{
    let index = index_of(s, scope, next, of, place_ty, place)?;
    item_written(s, scope, to, of, place_ty, place, index, item)
}

#[cycle(built)]
#[tactic(auto, using(c_analysis::proofs::Forms::type_forms))]
fn item_written<'a>(
    s: Setting<'a>,
    scope: &mut List<CExp>,
    to: &'a Destination,
    of: &'a Ty,
    place_ty: &'a Ty,
    place: &'a TypedExpr,
    index: Code,
    item: &'a TypedExpr,
) -> Result<Made, AllocError>
    ensures made { IfOk result (λ it. it ≡ item_written (target s.entry) of.now (out-Ty of.now) place_ty.now (part_of (target s.entry) place.now)
        (part_of (target s.entry) item.now) scope.old to.now index) }
    ensures scope { OnOk result (scope.new ≡ scope.old) }
{
    let Ty::Vector(_, item_ty) = of else {
        return Ok(without_value(index));
    };
    let Destination::Place(object) = to else {
        return item_evaluated(s, scope, of, item_ty, place_ty, place, index, item);
    };
    if is_inside(of, place) {
        return item_inside(s, scope, object, item_ty, index, item);
    }
    item_behind_test(s, scope, object, of, item_ty, place_ty, place, index, item)
}

// An element that goes nowhere, behind which the range is tested.
#[cycle(built)]
fn item_evaluated<'a>(
    s: Setting<'a>,
    scope: &mut List<CExp>,
    of: &'a Ty,
    item_ty: &'a Ty,
    place_ty: &'a Ty,
    place: &'a TypedExpr,
    index: Code,
    item: &'a TypedExpr,
) -> Result<Made, AllocError>
    ensures made { IfOk result (λ it. it ≡ item_in (target s.entry) of.now item_ty.now place_ty.now (part_of (target s.entry) place.now)
        (part_of (target s.entry) item.now) scope.old goes.Nowhere index) }
    ensures scope { OnOk result (scope.new ≡ scope.old) }
{
    let made = built(s, scope, index.next, &Destination::Nowhere, item_ty, item)?;
    let tests = range_test(s, of, place_ty, place, &index.exp);
    item_left_out(index, made, tests)
}

// An element at a literal place, which is written there at once.
#[cycle(built)]
fn item_inside<'a>(
    s: Setting<'a>,
    scope: &mut List<CExp>,
    object: &'a CExp,
    item_ty: &'a Ty,
    index: Code,
    item: &'a TypedExpr,
) -> Result<Made, AllocError>
    ensures made { IfOk result (λ it. it ≡ behind index.statements
        ((part_of (target s.entry) item.now).value.build scope.old (goes.Place (element_of object.now index.exp)) item_ty.now index.next)) }
    ensures scope { OnOk result (scope.new ≡ scope.old) }
{
    let made = item_at(s, scope, index.next, object, &index.exp, item_ty, item)?;
    behind_object(index, made)
}

#[cycle(built)]
fn item_at<'a>(
    s: Setting<'a>,
    scope: &mut List<CExp>,
    next: u32,
    object: &'a CExp,
    index: &'a CExp,
    item_ty: &'a Ty,
    item: &'a TypedExpr,
) -> Result<Made, AllocError>
    ensures made { IfOk result (λ it. it ≡ (part_of (target s.entry) item.now).value.build scope.old
        (goes.Place (element_of object.now index.now)) item_ty.now next) }
    ensures scope { OnOk result (scope.new ≡ scope.old) }
{
    let to = element_place(s, object, copy_exp(s.alloc, index))?;
    built(s, scope, next, &to, item_ty, item)
}

// An element whose value is there before the range is tested.
#[cycle(built)]
fn item_behind_test<'a>(
    s: Setting<'a>,
    scope: &mut List<CExp>,
    object: &'a CExp,
    of: &'a Ty,
    item_ty: &'a Ty,
    place_ty: &'a Ty,
    place: &'a TypedExpr,
    index: Code,
    item: &'a TypedExpr,
) -> Result<Made, AllocError>
    ensures made { IfOk result (λ it. it ≡ item_assigned object.now index
        ((part_of (target s.entry) item.now).value.value scope.old item_ty.now index.next)
        (range_test (target s.entry) of.now place_ty.now place.now index.exp)) }
    ensures scope { OnOk result (scope.new ≡ scope.old) }
{
    let value = value(s, scope, index.next, item_ty, item)?;
    let tests = range_test(s, of, place_ty, place, &index.exp);
    item_assigned(s, object, index, value, tests)
}

fn item_left_out(index: Code, made: Made, tests: Option<List<CStm>>) -> Result<Made, AllocError>
    ensures { (t : List CStm) → Gives tests t → IfOk result (λ it. it ≡ item_left_out index.statements made t) }
{
    let statements = appended(Some(index.statements), Some(made.statements));
    made_whole(appended(statements, tests), made.next)
}

fn item_assigned(
    s: Setting,
    object: &CExp,
    index: Code,
    value: Code,
    tests: Option<List<CStm>>,
) -> Result<Made, AllocError>
    ensures { (t : List CStm) → Gives tests t → IfOk result (λ it. it ≡ item_assigned object.now index value t) }
{
    let statements = appended(Some(index.statements), Some(value.statements));
    let last = element_assigned(s, object, index.exp, value.exp);
    made_whole(with(appended(statements, tests), last), value.next)
}

fn element_assigned(
    s: Setting,
    object: &CExp,
    index: Box<CExp>,
    value: Box<CExp>,
) -> Option<Box<CStm>>
    ensures { Gives result (statement.Assign (element_of object.now index) value) }
{
    let one = element_of(s, copy_exp(s.alloc, object), Some(index));
    assign(s.alloc, one, Some(value))
}
