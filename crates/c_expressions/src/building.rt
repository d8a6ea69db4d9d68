//! Values that are built at a destination.
ghost use Rattle.std.specs.Prelude.{◌≡◌, [], ◌∷◌, ◌++◌, IfOk, OnOk, slice_get};
ghost use Rattle.c_forms.specs.Gives.{Gives};
ghost use Rattle.c_types.specs.Shapes.{form_of};
ghost use Rattle.hume_base.specs.declared.types.Ty.{out-Ty};
ghost use Rattle.typed_core.specs.declared.typed_tree.TypedExpr.{out-TypedExpr};
ghost use Rattle.c_analysis.specs.Raises.{arms_complete};
ghost use Rattle.c_analysis.specs.Targets.{callee_of, con_of, target};
ghost use Rattle.c_expressions.specs.Made.{behind, made, nothing, without_value};
ghost use Rattle.c_expressions.specs.Expressions.{arms_built, bound, built, call_built, case_built, con_built, effects, form_built, if_built, let_built, object_built, part_of, raised_with, tuple_built, vector_built};
ghost use Rattle.c_expressions.specs.inner.Parts.{arms_of, layer_of, parts_of};
ghost use Rattle.c_expressions.specs.Expressions.{chosen, field_in, fields_in, parts_built, raised, raised_carrying, raised_typed, returned, sides_built, tag_written, value};
ghost use Rattle.c_expressions.specs.Expressions.{is_left_out, has_statements};

use crate::arms::arms_from;
use crate::calls::built_call;
use crate::made::{
    Code, Destination, Made, behind, behind_object, enter, given, made_whole, nothing, place_of,
    place_whole, tested_behind, without_value,
};
use crate::parts::{PartTypes, built_parts};
use crate::patterns::fields_of;
use crate::values::{subject, value};
use crate::vectors::{built_update, index_effects};
use c_analysis::{
    Setting, arms_are_complete, is_connective, is_division, is_looked_at, is_plain, may_raise,
    uses_next,
};
use c_forms::{appended, assign, copy_exp, member, named, of_one, returns, whole, with};
use c_tree::{CExp, CStm};
use c_types::Shape;
use hume_base::{Box, ConDef, List, Ty};
use hume_model::{ExnDef, PatC};
use std::alloc::{AllocError, Global};
use typed_core::TypedExpr;

/// The statements that write the value of an expression of the type to a destination.
#[cycle(built)]
#[tactic(auto, using(crate::proofs::WaysForms::built_forms))]
pub fn built<'a>(
    s: Setting<'a>,
    scope: &mut List<CExp>,
    next: u32,
    to: &'a Destination,
    ty: &'a Ty,
    e: &'a TypedExpr,
) -> Result<Made, AllocError>
    ensures made { IfOk result (λ it. it ≡ built (target s.entry) e.now scope.old to.now ty.now next) }
    ensures scope { OnOk result (scope.new ≡ scope.old) }
{
    if is_left_out(s, to, e) {
        return Ok(nothing(s.alloc, next));
    }
    if has_statements(s, ty, e) {
        return built_form(s, scope, next, to, ty, e);
    }
    if let Destination::Nowhere = to {
        return effects(s, scope, next, ty, e);
    }
    let code = value(s, scope, next, ty, e)?;
    given(s.alloc, to, code)
}

// Nothing is written of a value that goes nowhere, unless it may raise.
fn is_left_out(s: Setting, to: &Destination, e: &TypedExpr) -> bool
    ensures { result ≡ is_left_out (target s.entry) to.now e.now }
{
    match to {
        Destination::Nowhere => !may_raise(s, e),
        _ => false,
    }
}

// Whether the form has statements of its own: it is neither an expression of C nor an object that is already there.
#[tactic(auto, using(c_analysis::proofs::Forms::out_forms))]
fn has_statements(s: Setting, ty: &Ty, e: &TypedExpr) -> bool
    ensures { result ≡ has_statements (target s.entry) (out-TypedExpr e.now) e.now ty.now }
{
    match e {
        TypedExpr::Word(_) | TypedExpr::Var(_) | TypedExpr::Prim(_, _, _) => false,
        TypedExpr::Convert(_, _, _) | TypedExpr::Index(_, _, _, _) => false,
        TypedExpr::If(_, yes, no) => !(is_connective(ty, yes, no) && is_plain(s, ty, e)),
        TypedExpr::Con(_, _) => !s.is_scalar(ty),
        _ => true,
    }
}

/// The statements of a form that has some of its own.
#[cycle(built)]
#[tactic(auto, using(c_analysis::proofs::Forms::out_forms))]
pub(crate) fn built_form<'a>(
    s: Setting<'a>,
    scope: &mut List<CExp>,
    next: u32,
    to: &'a Destination,
    ty: &'a Ty,
    e: &'a TypedExpr,
) -> Result<Made, AllocError>
    ensures made { IfOk result (λ it. it ≡ form_built (target s.entry) (layer_of (target s.entry) e.now) scope.old to.now ty.now next) }
    ensures scope { OnOk result (scope.new ≡ scope.old) }
{
    match e {
        TypedExpr::If(test, yes, no) => built_if(s, scope, next, to, ty, test, yes, no),
        TypedExpr::Case(of, part, arms) => {
            built_case(s, scope, next, to, ty, of, part, arms.as_slice())
        }
        TypedExpr::Let(of, part, body) => built_let(s, scope, next, to, ty, of, part, body),
        TypedExpr::Raise(exn, None) => raised_alone(s, *exn, next),
        TypedExpr::Raise(exn, Some(part)) => raised_with(s, scope, next, *exn, part),
        TypedExpr::Call(function, parts) => {
            built_call(s, scope, next, to, ty, *function, parts.as_slice())
        }
        _ => built_object(s, scope, next, to, ty, e),
    }
}

// The statements of a form that fills an object.
#[cycle(built)]
#[tactic(auto, using(c_analysis::proofs::Forms::out_forms))]
fn built_object<'a>(
    s: Setting<'a>,
    scope: &mut List<CExp>,
    next: u32,
    to: &'a Destination,
    ty: &'a Ty,
    e: &'a TypedExpr,
) -> Result<Made, AllocError>
    ensures made { IfOk result (λ it. it ≡ object_built (target s.entry) (layer_of (target s.entry) e.now) scope.old to.now ty.now next) }
    ensures scope { OnOk result (scope.new ≡ scope.old) }
{
    match e {
        TypedExpr::Update(of, place_ty, vector, place, item) => {
            built_update(s, scope, next, to, of, place_ty, vector, place, item)
        }
        TypedExpr::Tuple(parts) => built_tuple(s, scope, next, to, ty, parts.as_slice()),
        TypedExpr::Vect(parts) => built_vector(s, scope, next, to, ty, parts.as_slice()),
        TypedExpr::Con(place, parts) => {
            built_constructor(s, scope, next, to, ty, *place, parts.as_slice())
        }
        _ => Ok(nothing(s.alloc, next)),
    }
}

// What an expression of C may raise: the parts of an operation that can't itself go nowhere each.
#[cycle(built)]
#[tactic(auto, using(crate::proofs::WaysForms::value_forms))]
fn effects<'a>(
    s: Setting<'a>,
    scope: &mut List<CExp>,
    next: u32,
    ty: &'a Ty,
    e: &'a TypedExpr,
) -> Result<Made, AllocError>
    ensures made { IfOk result (λ it. it ≡ effects (target s.entry) (layer_of (target s.entry) e.now) scope.old ty.now next) }
    ensures scope { OnOk result (scope.new ≡ scope.old) }
{
    match e {
        TypedExpr::Prim(op, of, parts) if !is_division(*op) => {
            let tys = PartTypes::Same(of);
            built_parts(s, scope, next, tys, &Destination::Nowhere, parts.as_slice())
        }
        TypedExpr::Convert(from, _, part) => {
            built(s, scope, next, &Destination::Nowhere, from, part)
        }
        TypedExpr::Index(of, place_ty, vector, place) => {
            index_effects(s, scope, next, of, place_ty, vector, place)
        }
        _ => value_effects(s, scope, next, ty, e),
    }
}

#[cycle(built)]
fn value_effects<'a>(
    s: Setting<'a>,
    scope: &mut List<CExp>,
    next: u32,
    ty: &'a Ty,
    e: &'a TypedExpr,
) -> Result<Made, AllocError>
    ensures made { IfOk result (λ it. it ≡ without_value (value (target s.entry) e.now scope.old ty.now next)) }
    ensures scope { OnOk result (scope.new ≡ scope.old) }
{
    let code = value(s, scope, next, ty, e)?;
    Ok(without_value(code))
}

#[cycle(built)]
fn built_if<'a>(
    s: Setting<'a>,
    scope: &mut List<CExp>,
    next: u32,
    to: &'a Destination,
    ty: &'a Ty,
    test: &'a Box<TypedExpr>,
    yes: &'a Box<TypedExpr>,
    no: &'a Box<TypedExpr>,
) -> Result<Made, AllocError>
    ensures made { IfOk result (λ it. it ≡ if_built (part_of (target s.entry) test.now) (part_of (target s.entry) yes.now)
        (part_of (target s.entry) no.now) scope.old to.now ty.now next) }
    ensures scope { OnOk result (scope.new ≡ scope.old) }
{
    let test = value(s, scope, next, &Ty::Bool, test)?;
    sides_built(s, scope, test, to, ty, yes, no)
}

// The two sides of a choice behind its test.
#[cycle(built)]
fn sides_built<'a>(
    s: Setting<'a>,
    scope: &mut List<CExp>,
    test: Code,
    to: &'a Destination,
    ty: &'a Ty,
    yes: &'a TypedExpr,
    no: &'a TypedExpr,
) -> Result<Made, AllocError>
    ensures made { IfOk result (λ it. it ≡ sides_built test (part_of (target s.entry) yes.now) (part_of (target s.entry) no.now) scope.old to.now ty.now) }
    ensures scope { OnOk result (scope.new ≡ scope.old) }
{
    let body = built(s, scope, test.next, to, ty, yes)?;
    let otherwise = built(s, scope, body.next, to, ty, no)?;
    chosen(s.alloc, test, body, otherwise)
}

// A choice between statements; of none, only what stands before it.
fn chosen(alloc: Global, test: Code, body: Made, otherwise: Made) -> Result<Made, AllocError>
    ensures { IfOk result (λ it. it ≡ chosen test.statements test.exp body.statements otherwise) }
{
    if body.statements.is_empty() && otherwise.statements.is_empty() {
        return Ok(Made {
            statements: test.statements,
            next: otherwise.next,
        });
    }
    tested_behind(alloc, test.statements, test.exp, body.statements, otherwise)
}

#[cycle(built)]
fn built_case<'a>(
    s: Setting<'a>,
    scope: &mut List<CExp>,
    next: u32,
    to: &'a Destination,
    ty: &'a Ty,
    of: &'a Ty,
    part: &'a TypedExpr,
    arms: &'a [(PatC, TypedExpr)],
) -> Result<Made, AllocError>
    ensures made { IfOk result (λ it. it ≡ case_built (target s.entry) of.now (part_of (target s.entry) part.now)
        (arms_of (target s.entry) arms.now) scope.old to.now ty.now next) }
    ensures scope { OnOk result (scope.new ≡ scope.old) }
{
    let looked_at = is_looked_at(s, scope.len(), of, arms)?;
    let object = subject(s, scope, next, of, part, looked_at)?;
    arms_behind(s, scope, object, to, ty, of, arms)
}

// The alternatives of a `case`, behind the object that they look at.
#[cycle(built)]
fn arms_behind<'a>(
    s: Setting<'a>,
    scope: &mut List<CExp>,
    object: Code,
    to: &'a Destination,
    ty: &'a Ty,
    of: &'a Ty,
    arms: &'a [(PatC, TypedExpr)],
) -> Result<Made, AllocError>
    ensures made { IfOk result (λ it. it ≡ behind object.statements
        (arms_built (target s.entry) scope.old to.now ty.now of.now object.exp (arms_complete (target s.entry) of.now arms.now) object.next
        (arms_of (target s.entry) arms.now))) }
    ensures scope { OnOk result (scope.new ≡ scope.old) }
{
    let complete = arms_are_complete(s, of, arms);
    let made = arms_from(
        s,
        scope,
        object.next,
        to,
        ty,
        of,
        &object.exp,
        arms,
        complete,
    )?;
    behind_object(object, made)
}

#[cycle(built)]
fn built_let<'a>(
    s: Setting<'a>,
    scope: &mut List<CExp>,
    next: u32,
    to: &'a Destination,
    ty: &'a Ty,
    of: &'a Ty,
    part: &'a Box<TypedExpr>,
    body: &'a Box<TypedExpr>,
) -> Result<Made, AllocError>
    ensures made { IfOk result (λ it. it ≡ let_built (target s.entry) of.now (part_of (target s.entry) part.now)
        (part_of (target s.entry) body.now) scope.old to.now ty.now next) }
    ensures scope { OnOk result (scope.new ≡ scope.old) }
{
    let count = scope.len();
    let before = bind(s, scope, next, of, part, body)?;
    let made = built(s, scope, before.next, to, ty, body)?;
    scope.truncate(count);
    behind(before.statements, made)
}

/// Brings the object of what a `let` binds into scope, behind the statements that are given.
#[cycle(built)]
pub(crate) fn bind<'a>(
    s: Setting<'a>,
    scope: &mut List<CExp>,
    next: u32,
    of: &'a Ty,
    part: &'a TypedExpr,
    body: &'a TypedExpr,
) -> Result<Made, AllocError>
    ensures made { IfOk result (λ it. it ≡ without_value (bound (target s.entry) of.now (part_of (target s.entry) part.now)
        (part_of (target s.entry) body.now) scope.old next)) }
    ensures scope { OnOk result (scope.new ≡ scope.old ++ (bound (target s.entry) of.now (part_of (target s.entry) part.now)
        (part_of (target s.entry) body.now) scope.old next).exp ∷ []) }
{
    let used = uses_next(s, scope.len(), body)?;
    let object = subject(s, scope, next, of, part, used)?;
    enter(scope, object)
}

/// Returns the number of an exception.
pub fn raised(s: Setting, exn: u32) -> Result<List<CStm>, AllocError>
    ensures { IfOk result (λ it. it ≡ raised (target s.entry) exn) }
{
    match s.core.exns.get(exn as usize) {
        None => Ok(List::new(s.alloc)),
        Some(definition) => whole(of_one(s.alloc, returned(s, definition))),
    }
}

fn returned(s: Setting, exn: &ExnDef) -> Option<Box<CStm>>
    ensures { Gives result (returned (target s.entry) exn.now) }
{
    let number = s.names().exception(s.alloc, exn.name.bytes()).ok();
    returns(s.alloc, named(s.alloc, number))
}

fn raised_alone(s: Setting, exn: u32, next: u32) -> Result<Made, AllocError>
    ensures { IfOk result (λ it. it ≡ made (raised (target s.entry) exn) next) }
{
    let statements = raised(s, exn)?;
    Ok(Made { statements, next })
}

/// Returns the number of an exception; what it carries goes to its object.
#[cycle(built)]
pub fn raised_with<'a>(
    s: Setting<'a>,
    scope: &mut List<CExp>,
    next: u32,
    exn: u32,
    part: &'a TypedExpr,
) -> Result<Made, AllocError>
    ensures made { IfOk result (λ it. it ≡ raised_with (target s.entry) (part_of (target s.entry) part.now) scope.old next
        (slice_get (target s.entry).core.exns exn)) }
    ensures scope { OnOk result (scope.new ≡ scope.old) }
{
    match s.core.exns.get(exn as usize) {
        None => Ok(nothing(s.alloc, next)),
        Some(definition) => raised_typed(s, scope, next, definition, part),
    }
}

#[cycle(built)]
fn raised_typed<'a>(
    s: Setting<'a>,
    scope: &mut List<CExp>,
    next: u32,
    exn: &'a ExnDef,
    part: &'a TypedExpr,
) -> Result<Made, AllocError>
    ensures made { IfOk result (λ it. it ≡ raised_typed (target s.entry) (part_of (target s.entry) part.now) scope.old next exn.now exn.now.carries) }
    ensures scope { OnOk result (scope.new ≡ scope.old) }
{
    let Some(ty) = &exn.carries else {
        return carrying_nothing(s, exn, next);
    };
    let code = value(s, scope, next, ty, part)?;
    raised_carrying(s, exn, code)
}

fn carrying_nothing(s: Setting, exn: &ExnDef, next: u32) -> Result<Made, AllocError>
    ensures { IfOk result (λ it. it ≡ made (returned (target s.entry) exn.now ∷ []) next) }
{
    made_whole(of_one(s.alloc, returned(s, exn)), next)
}

fn raised_carrying(s: Setting, exn: &ExnDef, code: Code) -> Result<Made, AllocError>
    ensures { IfOk result (λ it. it ≡ raised_carrying (target s.entry) exn.now code) }
{
    let carried = named(s.alloc, s.names().carried(s.alloc, exn.name.bytes()).ok());
    let last = assign(s.alloc, carried, Some(code.exp));
    let statements = with(Some(code.statements), last);
    made_whole(with(statements, returned(s, exn)), code.next)
}

#[cycle(built)]
#[tactic(auto, using(c_analysis::proofs::Forms::out_forms))]
fn built_tuple<'a>(
    s: Setting<'a>,
    scope: &mut List<CExp>,
    next: u32,
    to: &'a Destination,
    ty: &'a Ty,
    parts: &'a [TypedExpr],
) -> Result<Made, AllocError>
    ensures made { IfOk result (λ it. it ≡ tuple_built (out-Ty ty.now) scope.old to.now next (parts_of (target s.entry) parts.now)) }
    ensures scope { OnOk result (scope.new ≡ scope.old) }
{
    match ty {
        Ty::Tuple(tys) => {
            built_parts(s, scope, next, PartTypes::Fields(tys.as_slice()), to, parts)
        }
        _ => Ok(nothing(s.alloc, next)),
    }
}

#[cycle(built)]
#[tactic(auto, using(c_analysis::proofs::Forms::out_forms))]
fn built_vector<'a>(
    s: Setting<'a>,
    scope: &mut List<CExp>,
    next: u32,
    to: &'a Destination,
    ty: &'a Ty,
    parts: &'a [TypedExpr],
) -> Result<Made, AllocError>
    ensures made { IfOk result (λ it. it ≡ vector_built (out-Ty ty.now) scope.old to.now next (parts_of (target s.entry) parts.now)) }
    ensures scope { OnOk result (scope.new ≡ scope.old) }
{
    match ty {
        Ty::Vector(_, item) => built_parts(s, scope, next, PartTypes::Same(item), to, parts),
        _ => Ok(nothing(s.alloc, next)),
    }
}

#[cycle(built)]
fn built_constructor<'a>(
    s: Setting<'a>,
    scope: &mut List<CExp>,
    next: u32,
    to: &'a Destination,
    ty: &'a Ty,
    place: u32,
    parts: &'a [TypedExpr],
) -> Result<Made, AllocError>
    ensures made { IfOk result (λ it. it ≡ con_built (target s.entry) (con_of (target s.entry) ty.now place)
        (form_of (target s.entry).file.types ty.now) scope.old to.now next place (parts_of (target s.entry) parts.now)) }
    ensures scope { OnOk result (scope.new ≡ scope.old) }
{
    let Some(con) = s.con(ty, place) else {
        return Ok(nothing(s.alloc, next));
    };
    let made = built_fields(s, scope, next, to, ty, con, parts)?;
    tagged(s, to, ty, place, made)
}

#[cycle(built)]
fn built_fields<'a>(
    s: Setting<'a>,
    scope: &mut List<CExp>,
    next: u32,
    to: &'a Destination,
    ty: &'a Ty,
    con: &'a ConDef,
    parts: &'a [TypedExpr],
) -> Result<Made, AllocError>
    ensures made { IfOk result (λ it. it ≡ parts_built (slice_get con.now.fields)
        (field_in (fields_in (form_of (target s.entry).file.types ty.now) to.now con.now)) scope.old 0 (parts_of (target s.entry) parts.now) (nothing next)) }
    ensures scope { OnOk result (scope.new ≡ scope.old) }
{
    let inner = fields_destination(s, to, ty, con)?;
    let tys = PartTypes::Fields(con.fields.as_slice());
    built_parts(s, scope, next, tys, &inner, parts)
}

fn tagged(s: Setting, to: &Destination, ty: &Ty, place: u32, made: Made) -> Result<Made, AllocError>
    ensures { IfOk result (λ it. it ≡ behind (tag_written (target s.entry) (form_of (target s.entry).file.types ty.now) to.now place) made) }
{
    let before = tag_written(s, to, ty, place);
    made_whole(appended(before, Some(made.statements)), made.next)
}

// A value that has a tag gets it first.
fn tag_written(s: Setting, to: &Destination, ty: &Ty, place: u32) -> Option<List<CStm>>
    ensures { Gives result (tag_written (target s.entry) (form_of (target s.entry).file.types ty.now) to.now place) }
{
    match (s.types.shape(ty), to) {
        (Shape::Tagged(sum), Destination::Place(object)) => {
            let tag = member(s.alloc, copy_exp(s.alloc, object), b"tag");
            let constant = s.types.tag(s.alloc, sum, place);
            of_one(s.alloc, assign(s.alloc, tag, constant))
        }
        _ => Some(List::new(s.alloc)),
    }
}

// Where the fields of a constructor go.
fn fields_destination(
    s: Setting,
    to: &Destination,
    ty: &Ty,
    con: &ConDef,
) -> Result<Destination, AllocError>
    ensures { IfOk result (λ it. it ≡ fields_in (form_of (target s.entry).file.types ty.now) to.now con.now) }
{
    match (s.types.shape(ty), to) {
        (Shape::Tagged(_), Destination::Place(object)) => { place_whole(fields_of(s, object, con)) }
        (_, Destination::Place(object)) => place_of(s.alloc, object),
        _ => Ok(Destination::Nowhere),
    }
}
