//! Operations, conversions and choices of numbers that are written.
ghost use Rattle.std.specs.Prelude.{◌≡◌, ◌++◌, IfOk, Some};
ghost use Rattle.c_tree.specs.declared.tree.CExp.TheVariants as tree;
ghost use Rattle.c_tree.specs.declared.tree.COp.TheVariants as operator;
ghost use Rattle.c_forms.specs.Expressions.{choice};
ghost use Rattle.c_forms.specs.Gives.{Gives};
ghost use Rattle.c_forms.specs.Same.{is_same};
ghost use Rattle.c_forms.specs.Statements.{one_if};
ghost use Rattle.c_types.specs.Shapes.{literal};
ghost use Rattle.c_arithmetic.specs.Operations.{operation_of};
ghost use Rattle.hume_model.specs.declared.exceptions.TheConstants.{DIV_ZERO};
ghost use Rattle.c_analysis.specs.Targets.{target, type_of};
ghost use Rattle.c_expressions.specs.Made.{code};
ghost use Rattle.c_expressions.specs.Expressions.{converted, operated, operated_with, divided, divided_by_zero, divided_by_literal, lasting_divisor, divided_if_not_zero, raised};
ghost use Rattle.c_expressions.specs.Expressions.{chosen_value, chosen_exp, alternatives, conditions};

use crate::building::raised;
use crate::made::{Code, behind_code, code_whole, defined_divisor};
use c_analysis::{Setting, is_connective, is_division, is_nonzero, is_word, word_of};
use c_arithmetic::{conversion, operation, quotient};
use c_forms::{all, any, appended, choice, copy_exp, equal, is_lasting, is_same, one_if, with};
use c_tree::{CExp, CStm, CType};
use c_types::literal;
use hume_base::{Box, List, Ty};
use hume_model::{DIV_ZERO, Op};
use std::alloc::{AllocError, Global};
use typed_core::TypedExpr;

/// A number of the first type as one of the second.
pub(crate) fn converted(s: Setting, from: &Ty, to: &Ty, code: Code) -> Result<Code, AllocError>
    ensures { IfOk result (λ it. it ≡ converted (target s.entry) from.now to.now code) }
{
    let exp = conversion(s.alloc, s.names(), from, to, Some(code.exp));
    code_whole(Some(code.statements), exp, code.next)
}

/// An operation on one operand.
pub(crate) fn operated(s: Setting, op: Op, of: &Ty, part: Code) -> Result<Code, AllocError>
    ensures { IfOk result (λ it. it ≡ operated (target s.entry) op of.now part) }
{
    let exp = operation(s.alloc, s.names(), op, of, (part.exp, None));
    code_whole(Some(part.statements), exp, part.next)
}

/// An operation on two operands, of which the tree of the right one is given too.
pub(crate) fn operated_with(
    s: Setting,
    op: Op,
    of: &Ty,
    tree: &TypedExpr,
    left: Code,
    right: Code,
) -> Result<Code, AllocError>
    ensures { IfOk result (λ it. it ≡ operated_with (target s.entry) op of.now tree.now left right) }
{
    let right = behind_code(left.statements, right)?;
    if is_division(op) {
        return divided(s, op, of, tree, left.exp, right);
    }
    operated_on(s, op, of, left.exp, right)
}

fn operated_on(
    s: Setting,
    op: Op,
    of: &Ty,
    left: Box<CExp>,
    right: Code,
) -> Result<Code, AllocError>
    ensures { IfOk result (λ it. it ≡ code right.statements (operation_of (target s.entry).file.names op of.now left (Some right.exp)) right.next) }
{
    let operands = (left, Some(right.exp));
    let exp = operation(s.alloc, s.names(), op, of, operands);
    code_whole(Some(right.statements), exp, right.next)
}

// A division. By 0 it raises, which is tested unless the divisor is a literal.
fn divided(
    s: Setting,
    op: Op,
    of: &Ty,
    tree: &TypedExpr,
    left: Box<CExp>,
    divisor: Code,
) -> Result<Code, AllocError>
    ensures { IfOk result (λ it. it ≡ divided (target s.entry) op of.now tree.now left divisor) }
{
    if is_zero(s.alloc, of, &divisor.exp)? {
        return divided_by_zero(s, left, divisor);
    }
    if is_nonzero(tree) {
        return divided_by_literal(s, op, of, tree, left, divisor);
    }
    let divisor = lasting_divisor(s, of, divisor)?;
    divided_if_not_zero(s, op, of, left, divisor)
}

fn is_zero(alloc: Global, of: &Ty, exp: &CExp) -> Result<bool, AllocError>
    ensures { IfOk result (λ it. it ≡ is_same exp.now (literal of.now 0)) }
{
    let zero = literal(alloc, of, 0).ok_or(AllocError)?;
    Ok(is_same(exp, &zero))
}

fn divided_by_zero(s: Setting, left: Box<CExp>, divisor: Code) -> Result<Code, AllocError>
    ensures { IfOk result (λ it. it ≡ divided_by_zero (target s.entry) left divisor) }
{
    let raising = raised(s, DIV_ZERO).ok();
    let statements = appended(Some(divisor.statements), raising);
    code_whole(statements, Some(left), divisor.next)
}

fn divided_by_literal(
    s: Setting,
    op: Op,
    of: &Ty,
    tree: &TypedExpr,
    left: Box<CExp>,
    divisor: Code,
) -> Result<Code, AllocError>
    ensures { IfOk result (λ it. it ≡ divided_by_literal (target s.entry) op of.now tree.now left divisor) }
{
    let word = word_of(tree);
    let exp = quotient(s.alloc, s.names(), op, of, left, divisor.exp, word);
    code_whole(Some(divisor.statements), exp, divisor.next)
}

// A divisor that may be written twice.
fn lasting_divisor(s: Setting, of: &Ty, divisor: Code) -> Result<Code, AllocError>
    ensures { IfOk result (λ it. it ≡ lasting_divisor (target s.entry) of.now divisor) }
{
    if is_lasting(&divisor.exp) {
        return Ok(divisor);
    }
    let ty = s.types.c_type(s.alloc, of)?;
    defined_divisor(s.alloc, ty, divisor)
}

fn divided_if_not_zero(
    s: Setting,
    op: Op,
    of: &Ty,
    left: Box<CExp>,
    divisor: Code,
) -> Result<Code, AllocError>
    ensures { IfOk result (λ it. it ≡ divided_if_not_zero (target s.entry) op of.now left divisor) }
{
    let last = division_test(s, of, &divisor.exp);
    let statements = with(Some(divisor.statements), last);
    let exp = quotient(s.alloc, s.names(), op, of, left, divisor.exp, None);
    code_whole(statements, exp, divisor.next)
}

// Raises where a divisor is 0.
fn division_test(s: Setting, of: &Ty, divisor: &CExp) -> Option<Box<CStm>>
    ensures { Gives result (one_if (tree.Binary operator.Equal divisor.now (literal of.now 0)) (raised (target s.entry) DIV_ZERO)) }
{
    let zero = literal(s.alloc, of, 0);
    let test = equal(s.alloc, copy_exp(s.alloc, divisor), zero);
    one_if(s.alloc, test, raised(s, DIV_ZERO).ok())
}

/// An `and`, an `or`, or a choice of C.
pub(crate) fn chosen_value(
    s: Setting,
    ty: &Ty,
    sides: (&TypedExpr, &TypedExpr),
    test: Code,
    first: Code,
    second: Code,
) -> Result<Code, AllocError>
    ensures { IfOk result (λ it. it ≡ chosen_value (target s.entry) ty.now sides.entry.0.now sides.entry.1.now test first second) }
{
    let (yes, no) = sides;
    let others = appended(Some(first.statements), Some(second.statements));
    let statements = appended(Some(test.statements), others);
    let exp = chosen_exp(s, ty, yes, no, test.exp, first.exp, second.exp);
    code_whole(statements, exp, second.next)
}

fn chosen_exp(
    s: Setting,
    ty: &Ty,
    yes: &TypedExpr,
    no: &TypedExpr,
    test: Box<CExp>,
    first: Box<CExp>,
    second: Box<CExp>,
) -> Option<Box<CExp>>
    ensures { Gives result (chosen_exp (target s.entry) ty.now yes.now no.now test first second) }
{
    if !is_connective(ty, yes, no) {
        return choice_of(s, ty, test, first, second);
    }
    if is_word(yes, 1) {
        return any_of(s.alloc, test, second);
    }
    all_of(s.alloc, test, first)
}

fn choice_of(
    s: Setting,
    ty: &Ty,
    test: Box<CExp>,
    first: Box<CExp>,
    second: Box<CExp>,
) -> Option<Box<CExp>>
    ensures { Gives result (choice (type_of (target s.entry) ty.now) (type_of (target s.entry) ty.now, type_of (target s.entry) ty.now) test first second) }
{
    match (type_made(s, ty), type_made(s, ty), type_made(s, ty)) {
        (Some(own), Some(one), Some(other)) => {
            let inner = (one.into_inner(), other.into_inner());
            choice(
                s.alloc,
                own.into_inner(),
                inner,
                Some(test),
                Some(first),
                Some(second),
            )
        }
        _ => None,
    }
}

fn type_made(s: Setting, ty: &Ty) -> Option<Box<CType>>
    ensures { Gives result (type_of (target s.entry) ty.now) }
{
    Box::new(s.alloc, s.types.c_type(s.alloc, ty).ok()?).ok()
}

fn any_of(alloc: Global, test: Box<CExp>, second: Box<CExp>) -> Option<Box<CExp>>
    ensures { Gives result (tree.Any (alternatives test ++ alternatives second)) }
{
    any(
        alloc,
        appended(alternatives(alloc, test), alternatives(alloc, second)),
    )
}

fn all_of(alloc: Global, test: Box<CExp>, first: Box<CExp>) -> Option<Box<CExp>>
    ensures { Gives result (tree.All (conditions test ++ conditions first)) }
{
    all(
        alloc,
        appended(conditions(alloc, test), conditions(alloc, first)),
    )
}

#[tactic(auto, using(c_forms::proofs::OpenedForms::opened_forms))]
fn alternatives(alloc: Global, exp: Box<CExp>) -> Option<List<CExp>>
    ensures { Gives result (alternatives exp) }
{
    match exp.into_inner() {
        CExp::Any(parts) => Some(parts),
        other => List::of_one(alloc, other).ok(),
    }
}

#[tactic(auto, using(c_forms::proofs::OpenedForms::opened_forms))]
fn conditions(alloc: Global, exp: Box<CExp>) -> Option<List<CExp>>
    ensures { Gives result (conditions exp) }
{
    match exp.into_inner() {
        CExp::All(parts) => Some(parts),
        other => List::of_one(alloc, other).ok(),
    }
}
