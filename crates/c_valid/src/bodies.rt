//! The statements of functions of types.
ghost use Rattle.std.specs.Prelude.{◌≡◌, ◌++◌, Option, List, Some, codes, IfOk};
ghost use Rattle.hume_base.specs.declared.types.Ty.{out-Ty};
ghost use Rattle.c_tree.specs.declared.tree.CExp.TheVariants as exp;
ghost use Rattle.c_forms.specs.Expressions.{numbered as numbered_told};
ghost use Rattle.c_forms.specs.Gives.{Gives};
ghost use Rattle.c_types.specs.Shapes.{Parts, Elements};
ghost use Rattle.c_types.specs.Gathered.{tag};
ghost use Rattle.c_valid.specs.Tests.{tag_test as tag_test_told, test_of as test_told};
ghost use Rattle.c_valid.specs.inner.Known.{known};
ghost use Rattle.c_valid.specs.Functions.{all_hold, body_in, body_of, body_of_tests, by_tag, case_at, case_of, cases_from, counted};
ghost use Rattle.c_valid.specs.Functions.{each_holds, elements_body, failed, field_test, fields_body, fields_of, given_back as back_told};
ghost use Rattle.c_valid.specs.Functions.{one_element, one_or_none, record_body, rest_of, tag_alone, tag_member, tagged_body, tests_from, value as value_told};

use crate::tested::Tested;
use crate::tests::{tag_test, test_of};
use c_forms::{
    all, append, appended, before, copy_exp, counting, element, equal, member, member_named, name,
    not, numbered, of_one, one_if, returns, text, truth, unsigned,
};
use c_names::constructor_member;
use c_tree::{CCount, CExp, CStm, CType, Width};
use c_types::Shape;
use hume_base::{Box, ConDef, List, Shared, SumDef, Ty};
use std::alloc::{AllocError, Global};

/// The statements of a type's function; none where each object holds a value, or it is no struct.
#[tactic(auto, unfolding(crate::specs::Functions::body_of))]
pub(crate) fn body_of(
    alloc: Global,
    tested: &Tested,
    ty: &Ty,
) -> Result<Option<List<CStm>>, AllocError>
    ensures { IfOk result (λ body. body ≡ body_of (known tested.now) ty.now) }
{
    match tested.types.shape(ty) {
        Shape::Record(sum) => record_body(alloc, tested, sum.cons.as_slice()),
        Shape::Tagged(sum) => tagged_body(alloc, tested, sum),
        Shape::Tuple => tuple_body(alloc, tested, ty),
        Shape::Vector(count) => vector_body(alloc, tested, ty, count),
        Shape::Bool | Shape::Signed(_) | Shape::Unsigned(_) | Shape::Enumeration(_) => Ok(None),
    }
}

// There are statements, if memory was enough.
fn some(body: Option<List<CStm>>) -> Result<Option<List<CStm>>, AllocError>
    ensures { (b : List CStm) → Gives body b → IfOk result (λ it. it ≡ Some b) }
{
    match body {
        Some(body) => Ok(Some(body)),
        None => Err(AllocError),
    }
}

/// What the function's parameter points to.
pub(crate) fn value(alloc: Global) -> Option<Box<CExp>>
    ensures { Gives result value_told }
{
    match text(alloc, b"value") {
        Ok(name) => Box::new(alloc, CExp::Pointed(name)).ok(),
        Err(_) => None,
    }
}

/// The value of an expression is given back.
pub(crate) fn given_back(alloc: Global, answer: Option<Box<CExp>>) -> Option<List<CStm>>
    ensures { (a : CExp) → Gives answer a → Gives result (back_told a) }
{
    of_one(alloc, returns(alloc, answer))
}

fn tuple_body(alloc: Global, tested: &Tested, ty: &Ty) -> Result<Option<List<CStm>>, AllocError>
    ensures { IfOk result (λ body. body ≡ body_in (known tested.now) (out-Ty ty.now) Parts) }
{
    match ty {
        Ty::Tuple(tys) => fields_body(alloc, tested, tys.as_slice()),
        Ty::Bool | Ty::Char | Ty::Int(_) | Ty::Nat(_) => Ok(None),
        Ty::Vector(_, _) | Ty::Named(_) => Ok(None),
    }
}

fn record_body(
    alloc: Global,
    tested: &Tested,
    cons: &[ConDef],
) -> Result<Option<List<CStm>>, AllocError>
    ensures { IfOk result (λ body. body ≡ record_body (known tested.now) cons.now) }
{
    match cons.first() {
        None => Ok(None),
        Some(con) => fields_body(alloc, tested, con.fields.as_slice()),
    }
}

fn fields_body(
    alloc: Global,
    tested: &Tested,
    tys: &[Shared<Ty>],
) -> Result<Option<List<CStm>>, AllocError>
    ensures { IfOk result (λ body. body ≡ fields_body (known tested.now) tys.now) }
{
    body_of_tests(alloc, field_tests(alloc, tested, value(alloc), tys))
}

fn body_of_tests(alloc: Global, tests: Option<List<CExp>>) -> Result<Option<List<CStm>>, AllocError>
    ensures { (t : List CExp) → Gives tests t → IfOk result (λ body. body ≡ body_of_tests t) }
{
    match tests {
        None => Err(AllocError),
        Some(tests) => {
            if tests.is_empty() {
                return Ok(None);
            }
            some(all_hold(alloc, tests))
        }
    }
}

// Whether all tests hold is given back.
fn all_hold(alloc: Global, tests: List<CExp>) -> Option<List<CStm>>
    ensures { Gives result (all_hold tests) }
{
    given_back(alloc, all(alloc, Some(tests)))
}

// The tests of the fields of an object.
fn field_tests(
    alloc: Global,
    tested: &Tested,
    object: Option<Box<CExp>>,
    tys: &[Shared<Ty>],
) -> Option<List<CExp>>
    ensures { (o : CExp) → Gives object o → Gives result (tests_from (known tested.now) o 0 tys.now) }
{
    match object {
        None => None,
        Some(object) => tests_of(alloc, tested, &object, tys),
    }
}

#[tactic(auto, using(crate::proofs::ListSteps::list_steps))]
fn tests_of(alloc: Global, tested: &Tested, object: &CExp, tys: &[Shared<Ty>]) -> Option<List<CExp>>
    ensures { Gives result (tests_from (known tested.now) object.now 0 tys.now) }
{
    let mut tests = List::new(alloc);
    for (place, ty) in tys.iter().enumerate() {
        append(&mut tests, field_test(alloc, tested, object, place, ty))?;
    }
    Some(tests)
}

// The test of a field of an object, if it has one.
fn field_test(
    alloc: Global,
    tested: &Tested,
    object: &CExp,
    place: usize,
    ty: &Ty,
) -> Option<List<CExp>>
    ensures { Gives result (field_test (known tested.now) object.now place ty.now) }
{
    let field = field_of(alloc, object, place)?;
    one_or_none(alloc, test_of(alloc, tested, ty, &field))
}

fn one_or_none(alloc: Global, test: Result<Option<Box<CExp>>, AllocError>) -> Option<List<CExp>>
    ensures { (t : Option CExp) → IfOk test (λ it. it ≡ t) → Gives result (one_or_none t) }
{
    match test {
        Err(_) => None,
        Ok(None) => Some(List::new(alloc)),
        Ok(Some(test)) => of_one(alloc, Some(test)),
    }
}

fn field_of(alloc: Global, object: &CExp, place: usize) -> Option<Box<CExp>>
    ensures { Gives result (exp.Member object.now (numbered_told (codes "f") place)) }
{
    let own = numbered(alloc, b"f", place as u64).ok();
    member_named(alloc, copy_exp(alloc, object), own)
}

fn tagged_body(
    alloc: Global,
    tested: &Tested,
    sum: &SumDef,
) -> Result<Option<List<CStm>>, AllocError>
    ensures { IfOk result (λ body. body ≡ tagged_body (known tested.now) sum.now) }
{
    let test = own_tag_test(alloc, sum.cons.len())?;
    by_tag(alloc, test, constructor_cases(alloc, tested, sum))
}

// The tag of a struct that has one.
fn tag_member(alloc: Global) -> Option<Box<CExp>>
    ensures { Gives result tag_member }
{
    member(alloc, value(alloc), b"tag")
}

fn own_tag_test(alloc: Global, count: usize) -> Result<Option<Box<CExp>>, AllocError>
    ensures { IfOk result (λ test. test ≡ tag_test_told count tag_member) }
{
    match tag_member(alloc) {
        None => Err(AllocError),
        Some(tag) => tag_test(alloc, count, &tag),
    }
}

fn by_tag(
    alloc: Global,
    test: Option<Box<CExp>>,
    cases: Option<List<CStm>>,
) -> Result<Option<List<CStm>>, AllocError>
    ensures { (c : List CStm) → Gives cases c → IfOk result (λ body. body ≡ by_tag test c) }
{
    match cases {
        None => Err(AllocError),
        Some(cases) => by_cases(alloc, test, cases),
    }
}

fn by_cases(
    alloc: Global,
    test: Option<Box<CExp>>,
    cases: List<CStm>,
) -> Result<Option<List<CStm>>, AllocError>
    ensures { IfOk result (λ body. body ≡ by_tag test cases) }
{
    if cases.is_empty() {
        return tag_alone(alloc, test);
    }
    with_rest(alloc, test, cases)
}

fn with_rest(
    alloc: Global,
    test: Option<Box<CExp>>,
    cases: List<CStm>,
) -> Result<Option<List<CStm>>, AllocError>
    ensures { IfOk result (λ body. body ≡ Some (cases ++ rest_of test)) }
{
    some(appended(Some(cases), rest_of(alloc, test)))
}

// Where no fields have tests, the tag alone is tested.
fn tag_alone(alloc: Global, test: Option<Box<CExp>>) -> Result<Option<List<CStm>>, AllocError>
    ensures { IfOk result (λ body. body ≡ tag_alone test) }
{
    match test {
        None => Ok(None),
        Some(test) => some(given_back(alloc, Some(test))),
    }
}

fn rest_of(alloc: Global, test: Option<Box<CExp>>) -> Option<List<CStm>>
    ensures { Gives result (rest_of test) }
{
    match test {
        None => given_back(alloc, truth(alloc, true)),
        Some(test) => given_back(alloc, Some(test)),
    }
}

// Of each constructor whose fields have tests.
#[tactic(auto, using(crate::proofs::ListSteps::list_steps))]
fn constructor_cases(alloc: Global, tested: &Tested, sum: &SumDef) -> Option<List<CStm>>
    ensures { Gives result (cases_from (known tested.now) sum.now 0 sum.now.cons) }
{
    let mut cases = List::new(alloc);
    for (place, con) in sum.cons.as_slice().iter().enumerate() {
        append(&mut cases, constructor_case(alloc, tested, sum, place, con))?;
    }
    Some(cases)
}

fn constructor_case(
    alloc: Global,
    tested: &Tested,
    sum: &SumDef,
    place: usize,
    con: &ConDef,
) -> Option<List<CStm>>
    ensures { Gives result (case_at (known tested.now) sum.now place con.now) }
{
    let place = u32::try_from(place).ok()?;
    let tests = field_tests(alloc, tested, fields_of(alloc, con), con.fields.as_slice());
    case_of(alloc, tested.types.tag(alloc, sum, place), tests)
}

fn case_of(alloc: Global, tag: Option<Box<CExp>>, tests: Option<List<CExp>>) -> Option<List<CStm>>
    ensures { (l : CExp) (t : List CExp) → Gives tag l → Gives tests t → Gives result (case_of l t) }
{
    match tests {
        None => None,
        Some(tests) => {
            if tests.is_empty() {
                return Some(List::new(alloc));
            }
            let is_it = equal(alloc, tag_member(alloc), tag);
            of_one(alloc, one_if(alloc, is_it, all_hold(alloc, tests)))
        }
    }
}

// The fields of a constructor, in its member of the union.
fn fields_of(alloc: Global, con: &ConDef) -> Option<Box<CExp>>
    ensures { Gives result (fields_of con.now) }
{
    let union = member(alloc, value(alloc), b"u");
    member_named(
        alloc,
        union,
        constructor_member(alloc, con.name.bytes()).ok(),
    )
}

fn vector_body(
    alloc: Global,
    tested: &Tested,
    ty: &Ty,
    count: u32,
) -> Result<Option<List<CStm>>, AllocError>
    ensures { IfOk result (λ body. body ≡ body_in (known tested.now) (out-Ty ty.now) (Elements count)) }
{
    match ty {
        Ty::Vector(_, item) => each_holds(alloc, count, element_test(alloc, tested, item)?),
        Ty::Bool | Ty::Char | Ty::Int(_) | Ty::Nat(_) => Ok(None),
        Ty::Tuple(_) | Ty::Named(_) => Ok(None),
    }
}

fn element_test(alloc: Global, tested: &Tested, item: &Ty) -> Result<Option<Box<CExp>>, AllocError>
    ensures { IfOk result (λ test. test ≡ test_told (known tested.now) item.now one_element) }
{
    match one_element(alloc) {
        None => Err(AllocError),
        Some(one) => test_of(alloc, tested, item, &one),
    }
}

// The element at the index that is counted.
fn one_element(alloc: Global) -> Option<Box<CExp>>
    ensures { Gives result one_element }
{
    let elements = member(alloc, value(alloc), b"e");
    element(alloc, elements, name(alloc, b"i"))
}

// Each of so many elements is tested.
fn each_holds(
    alloc: Global,
    count: u32,
    test: Option<Box<CExp>>,
) -> Result<Option<List<CStm>>, AllocError>
    ensures { IfOk result (λ body. body ≡ each_holds count test) }
{
    match test {
        None => Ok(None),
        Some(test) => some(elements_body(alloc, count, failed(alloc, test))),
    }
}

// Where the test doesn't hold, false is given back.
fn failed(alloc: Global, test: Box<CExp>) -> Option<List<CStm>>
    ensures { Gives result (failed test) }
{
    let back = given_back(alloc, truth(alloc, false));
    of_one(alloc, one_if(alloc, not(alloc, Some(test)), back))
}

fn elements_body(alloc: Global, count: u32, body: Option<List<CStm>>) -> Option<List<CStm>>
    ensures { (b : List CStm) → Gives body b → Gives result (elements_body count b) }
{
    let each = counting(alloc, counted(alloc, count), body);
    before(alloc, each, given_back(alloc, truth(alloc, true)))
}

// An index counts so many elements.
fn counted(alloc: Global, count: u32) -> Option<Box<CCount>>
    ensures { Gives result (counted count) }
{
    let limit = unsigned(alloc, Width::W16, u64::from(count))?;
    let name = text(alloc, b"i").ok()?;
    let ty = CType::Unsigned(Width::W16);
    Box::new(alloc, CCount { ty, name, limit }).ok()
}
