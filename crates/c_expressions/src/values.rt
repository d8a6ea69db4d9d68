//! Expressions of C that have the values of expressions.
ghost use Rattle.std.specs.Prelude.{◌≡◌, ◌&&◌, [], ◌∷◌, false, IfOk, OnOk};
ghost use Rattle.c_tree.specs.declared.tree.CExp.TheVariants as tree;
ghost use Rattle.c_forms.specs.Gives.{Gives};
ghost use Rattle.c_types.specs.Shapes.{literal};
ghost use Rattle.c_analysis.specs.Plain.{is_plain};
ghost use Rattle.c_analysis.specs.Targets.{target, sum_of};
ghost use Rattle.c_expressions.specs.declared.made.Destination.TheVariants as goes;
ghost use Rattle.c_expressions.specs.Made.{plain, with_value};
ghost use Rattle.c_expressions.specs.Expressions.{form_built, form_value, if_chosen, in_variable, let_value, operation_value, part_of, scalar_value, subject, two_values, value};
ghost use Rattle.c_expressions.specs.inner.Parts.{layer_of, parts_of};
ghost use Rattle.c_expressions.specs.Expressions.{object_of, tag_in, placeholder, kept, is_constructor};

use crate::building::{bind, built, built_form};
use crate::calls::value_call;
use crate::made::{
    Code, Destination, Made, behind_code, code_whole, declared, defined, in_object, place_of,
    plain_whole,
};
use crate::operations::{chosen_value, converted, operated, operated_with};
use crate::vectors::indexed;
use c_analysis::{Setting, is_plain};
use c_forms::{copy_exp, is_lasting, truth};
use c_tree::CExp;
use c_types::literal;
use hume_base::{Box, List, Ty};
use hume_model::Op;
use std::alloc::{AllocError, Global};
use typed_core::TypedExpr;

/// The number that an expression of a scalar type gives; of another type, the object that has its value.
#[cycle(built)]
#[tactic(auto, using(crate::proofs::WaysForms::value_forms))]
pub fn value<'a>(
    s: Setting<'a>,
    scope: &mut List<CExp>,
    next: u32,
    ty: &'a Ty,
    e: &'a TypedExpr,
) -> Result<Code, AllocError>
    ensures made { IfOk result (λ it. it ≡ value (target s.entry) e.now scope.old ty.now next) }
    ensures scope { OnOk result (scope.new ≡ scope.old) }
{
    match e {
        TypedExpr::Word(word) => value_literal(s.alloc, ty, *word, next),
        TypedExpr::Var(number) => variable_value(s.alloc, scope, *number, next),
        TypedExpr::Prim(op, of, parts) => {
            value_operation(s, scope, next, *op, of, parts.as_slice())
        }
        TypedExpr::Convert(from, to, part) => {
            let code = value(s, scope, next, from, part)?;
            converted(s, from, to, code)
        }
        TypedExpr::Index(of, place_ty, vector, place) => {
            indexed(s, scope, next, of, place_ty, vector, place)
        }
        TypedExpr::Let(of, part, body) => value_let(s, scope, next, ty, of, part, body),
        _ => value_form(s, scope, next, ty, e),
    }
}

fn value_literal(alloc: Global, ty: &Ty, word: u64, next: u32) -> Result<Code, AllocError>
    ensures { IfOk result (λ it. it ≡ plain (literal ty.now word) next) }
{
    plain_whole(alloc, literal(alloc, ty, word), next)
}

fn variable_value(
    alloc: Global,
    scope: &List<CExp>,
    number: u32,
    next: u32,
) -> Result<Code, AllocError>
    ensures { IfOk result (λ it. it ≡ plain (object_of scope.now number) next) }
{
    plain_whole(alloc, object_of(alloc, scope, number), next)
}

// A form that has statements of its own, but for some whose type is a scalar.
#[cycle(built)]
fn value_form<'a>(
    s: Setting<'a>,
    scope: &mut List<CExp>,
    next: u32,
    ty: &'a Ty,
    e: &'a TypedExpr,
) -> Result<Code, AllocError>
    ensures made { IfOk result (λ it. it ≡ form_value (target s.entry) (layer_of (target s.entry) e.now) scope.old ty.now next) }
    ensures scope { OnOk result (scope.new ≡ scope.old) }
{
    if s.is_scalar(ty) {
        scalar_value(s, scope, next, ty, e)
    } else {
        in_variable(s, scope, next, ty, e)
    }
}

#[cycle(built)]
#[tactic(auto, using(c_analysis::proofs::Forms::out_forms))]
fn scalar_value<'a>(
    s: Setting<'a>,
    scope: &mut List<CExp>,
    next: u32,
    ty: &'a Ty,
    e: &'a TypedExpr,
) -> Result<Code, AllocError>
    ensures made { IfOk result (λ it. it ≡ scalar_value (target s.entry) (layer_of (target s.entry) e.now) scope.old ty.now next) }
    ensures scope { OnOk result (scope.new ≡ scope.old) }
{
    match e {
        TypedExpr::Con(place, _) => tag_value(s, ty, *place, next),
        TypedExpr::If(test, yes, no) if are_plain(s, ty, yes, no) => {
            value_choice(s, scope, next, ty, test, yes, no)
        }
        TypedExpr::Call(function, parts) => {
            value_call(s, scope, next, ty, *function, parts.as_slice())
        }
        TypedExpr::Raise(_, _) => {
            let made = built_form(s, scope, next, &Destination::Nowhere, ty, e)?;
            with_placeholder(s.alloc, made, ty)
        }
        _ => in_variable(s, scope, next, ty, e),
    }
}

// The object of a variable.
fn object_of(alloc: Global, scope: &List<CExp>, number: u32) -> Option<Box<CExp>>
    ensures { Gives result (object_of scope.now number) }
{
    match scope.get(number as usize) {
        Some(object) => copy_exp(alloc, object),
        None => truth(alloc, false),
    }
}

fn tag_value(s: Setting, ty: &Ty, place: u32, next: u32) -> Result<Code, AllocError>
    ensures { IfOk result (λ it. it ≡ plain (tag_in (target s.entry) (sum_of (target s.entry) ty.now) place) next) }
{
    plain_whole(s.alloc, tag_of(s, ty, place), next)
}

// The constant of a constructor.
fn tag_of(s: Setting, ty: &Ty, place: u32) -> Option<Box<CExp>>
    ensures { Gives result (tag_in (target s.entry) (sum_of (target s.entry) ty.now) place) }
{
    match s.sum(ty) {
        Some(sum) => s.types.tag(s.alloc, sum, place),
        None => truth(s.alloc, false),
    }
}

// What stands behind a statement that never goes on.
#[tactic(auto, using(c_analysis::proofs::Forms::type_forms))]
fn placeholder(alloc: Global, ty: &Ty) -> Option<Box<CExp>>
    ensures { Gives result (placeholder ty.now) }
{
    match ty {
        Ty::Named(_) => literal(alloc, &Ty::Nat(8), 0),
        _ => literal(alloc, ty, 0),
    }
}

pub(crate) fn with_placeholder(alloc: Global, made: Made, ty: &Ty) -> Result<Code, AllocError>
    ensures { IfOk result (λ it. it ≡ with_value made (placeholder ty.now)) }
{
    code_whole(Some(made.statements), placeholder(alloc, ty), made.next)
}

// A variable to which the value is built.
#[cycle(built)]
fn in_variable<'a>(
    s: Setting<'a>,
    scope: &mut List<CExp>,
    next: u32,
    ty: &'a Ty,
    e: &'a TypedExpr,
) -> Result<Code, AllocError>
    ensures made { IfOk result (λ it. it ≡ in_variable (target s.entry) (form_built (target s.entry) (layer_of (target s.entry) e.now) scope.old) ty.now next) }
    ensures scope { OnOk result (scope.new ≡ scope.old) }
{
    let variable = declared(s, next, ty)?;
    let made = built_at(s, scope, variable.next, &variable.exp, ty, e)?;
    in_object(variable, made)
}

#[cycle(built)]
fn built_at<'a>(
    s: Setting<'a>,
    scope: &mut List<CExp>,
    next: u32,
    object: &'a CExp,
    ty: &'a Ty,
    e: &'a TypedExpr,
) -> Result<Made, AllocError>
    ensures made { IfOk result (λ it. it ≡ form_built (target s.entry) (layer_of (target s.entry) e.now) scope.old (goes.Place object.now) ty.now next) }
    ensures scope { OnOk result (scope.new ≡ scope.old) }
{
    let to = place_of(s.alloc, object)?;
    built_form(s, scope, next, &to, ty, e)
}

fn are_plain(s: Setting, ty: &Ty, yes: &Box<TypedExpr>, no: &Box<TypedExpr>) -> bool
    ensures { result ≡ (is_plain (target s.entry) ty.now yes.now && is_plain (target s.entry) ty.now no.now) }
{
    is_plain(s, ty, yes) && is_plain(s, ty, no)
}

#[cycle(built)]
fn value_choice<'a>(
    s: Setting<'a>,
    scope: &mut List<CExp>,
    next: u32,
    ty: &'a Ty,
    test: &'a Box<TypedExpr>,
    yes: &'a Box<TypedExpr>,
    no: &'a Box<TypedExpr>,
) -> Result<Code, AllocError>
    ensures made { IfOk result (λ it. it ≡ if_chosen (target s.entry) (part_of (target s.entry) test.now) (part_of (target s.entry) yes.now)
        (part_of (target s.entry) no.now) scope.old ty.now next) }
    ensures scope { OnOk result (scope.new ≡ scope.old) }
{
    let test = value(s, scope, next, &Ty::Bool, test)?;
    let (first, second) = two_values(s, scope, test.next, ty, yes, no)?;
    chosen_value(s, ty, (yes, no), test, first, second)
}

#[cycle(built)]
fn value_let<'a>(
    s: Setting<'a>,
    scope: &mut List<CExp>,
    next: u32,
    ty: &'a Ty,
    of: &'a Ty,
    part: &'a Box<TypedExpr>,
    body: &'a Box<TypedExpr>,
) -> Result<Code, AllocError>
    ensures made { IfOk result (λ it. it ≡ let_value (target s.entry) of.now (part_of (target s.entry) part.now)
        (part_of (target s.entry) body.now) scope.old ty.now next) }
    ensures scope { OnOk result (scope.new ≡ scope.old) }
{
    let count = scope.len();
    let before = bind(s, scope, next, of, part, body)?;
    let code = value(s, scope, before.next, ty, body)?;
    scope.truncate(count);
    behind_code(before.statements, code)
}

/// The object of the value of an expression, or a constant. Where it isn't used, the expression is evaluated for what it may raise.
#[cycle(built)]
pub fn subject<'a>(
    s: Setting<'a>,
    scope: &mut List<CExp>,
    next: u32,
    ty: &'a Ty,
    part: &'a TypedExpr,
    used: bool,
) -> Result<Code, AllocError>
    ensures made { IfOk result (λ it. it ≡ subject (target s.entry) (part_of (target s.entry) part.now) used scope.old ty.now next) }
    ensures scope { OnOk result (scope.new ≡ scope.old) }
{
    if used {
        let code = value(s, scope, next, ty, part)?;
        kept(s, ty, part, code)
    } else {
        let made = built(s, scope, next, &Destination::Nowhere, ty, part)?;
        unused(s.alloc, made)
    }
}

fn unused(alloc: Global, made: Made) -> Result<Code, AllocError>
    ensures { IfOk result (λ it. it ≡ with_value made (tree.Truth false)) }
{
    code_whole(Some(made.statements), truth(alloc, false), made.next)
}

// A number that may change, or that isn't written twice, gets a variable.
fn kept(s: Setting, ty: &Ty, part: &TypedExpr, code: Code) -> Result<Code, AllocError>
    ensures { IfOk result (λ it. it ≡ kept (target s.entry) ty.now part.now code) }
{
    if !s.is_scalar(ty) || (is_lasting(&code.exp) && !is_constructor(part)) {
        return Ok(code);
    }
    let ty = s.types.c_type(s.alloc, ty)?;
    defined(s.alloc, ty, code)
}

// A constructor's constant isn't compared with itself, as compilers warn of that: a variable has it.
#[tactic(auto, using(c_analysis::proofs::Forms::out_forms))]
fn is_constructor(e: &TypedExpr) -> bool
    ensures { result ≡ is_constructor e.now }
{
    match e {
        TypedExpr::Con(_, _) => true,
        _ => false,
    }
}

#[cycle(built)]
fn value_operation<'a>(
    s: Setting<'a>,
    scope: &mut List<CExp>,
    next: u32,
    op: Op,
    of: &'a Ty,
    parts: &'a [TypedExpr],
) -> Result<Code, AllocError>
    ensures made { IfOk result (λ it. it ≡ operation_value (target s.entry) op of.now (parts_of (target s.entry) parts.now) scope.old next) }
    ensures scope { OnOk result (scope.new ≡ scope.old) }
{
    match parts {
        [] => without_expression(s.alloc, next),
        [part] => {
            let code = value(s, scope, next, of, part)?;
            operated(s, op, of, code)
        }
        [left, right, ..] => value_operated_with(s, scope, next, op, of, left, right),
    }
}

/// What has no value.
pub(crate) fn without_expression(alloc: Global, next: u32) -> Result<Code, AllocError>
    ensures { IfOk result (λ it. it ≡ plain (tree.Truth false) next) }
{
    plain_whole(alloc, truth(alloc, false), next)
}

#[cycle(built)]
fn value_operated_with<'a>(
    s: Setting<'a>,
    scope: &mut List<CExp>,
    next: u32,
    op: Op,
    of: &'a Ty,
    left: &'a TypedExpr,
    right: &'a TypedExpr,
) -> Result<Code, AllocError>
    ensures made { IfOk result (λ it. it ≡ operation_value (target s.entry) op of.now
        (part_of (target s.entry) left.now ∷ part_of (target s.entry) right.now ∷ []) scope.old next) }
    ensures scope { OnOk result (scope.new ≡ scope.old) }
{
    let (first, second) = two_values(s, scope, next, of, left, right)?;
    operated_with(s, op, of, right, first, second)
}

// The values of two expressions, one after the other.
#[cycle(built)]
fn two_values<'a>(
    s: Setting<'a>,
    scope: &mut List<CExp>,
    next: u32,
    ty: &'a Ty,
    left: &'a TypedExpr,
    right: &'a TypedExpr,
) -> Result<(Code, Code), AllocError>
    ensures made { IfOk result (λ it. it ≡ two_values (part_of (target s.entry) left.now) (part_of (target s.entry) right.now) scope.old ty.now next) }
    ensures scope { OnOk result (scope.new ≡ scope.old) }
{
    let first = value(s, scope, next, ty, left)?;
    let second = value(s, scope, first.next, ty, right)?;
    Ok((first, second))
}
