//! Patterns: tests on an object, and the objects of their variables.
ghost use Rattle.std.specs.Prelude.{◌≡◌, IfOk};
ghost use Rattle.c_expressions.specs.Patterns.{word_test, fields_of, field_of, conjunction};
ghost use Rattle.std.specs.Prelude.{◌++◌, [], ◌∷◌, codes, map, OnOk, slice_get};
ghost use Rattle.c_tree.specs.declared.tree.CExp.TheVariants as tree;
ghost use Rattle.c_forms.specs.Gives.{Gives};
ghost use Rattle.c_types.specs.Shapes.{Enumeration, form_of};
ghost use Rattle.c_analysis.specs.Needs.{fields_of_first};
ghost use Rattle.c_expressions.specs.Patterns.{matched, con_match, fields_match, inner_match, is_tag};
ghost use Rattle.c_expressions.specs.inner.Fields.{field_matched};
ghost use Rattle.c_analysis.specs.Targets.{target};

use c_analysis::Setting;
use c_forms::{copy_exp, equal, member, member_named, not, numbered, whole};
use c_names::constructor_member;
use c_tree::CExp;
use c_types::{Shape, literal};
use hume_base::{Box, ConDef, List, Shared, SumDef, Ty};
use hume_model::PatC;
use std::alloc::{AllocError, Global};

/// Adds the tests that an object passes where its value matches, and brings the variables into scope.
#[cycle(matched)]
#[tactic(auto, using(crate::proofs::MatchForms::match_forms))]
pub fn matched<'a>(
    s: Setting<'a>,
    scope: &mut List<CExp>,
    tests: &mut List<CExp>,
    ty: &'a Ty,
    object: &'a CExp,
    pattern: &'a PatC,
) -> Result<(), AllocError>
    ensures tests { OnOk result (tests.new ≡ tests.old ++ (matched (target s.entry) pattern.now ty.now object.now).tests) }
    ensures objects { OnOk result (scope.new ≡ scope.old ++ (matched (target s.entry) pattern.now ty.now object.now).objects) }
{
    match pattern {
        PatC::Var => put(scope, copy_exp(s.alloc, object)),
        PatC::Any => Ok(()),
        PatC::Word(word) => put(tests, word_test(s, ty, object, *word)),
        PatC::Con(place, parts) => {
            match_constructor(s, scope, tests, ty, object, *place, parts.as_slice())
        }
        PatC::Tuple(parts) => match ty {
            Ty::Tuple(tys) => match_fields(
                s,
                scope,
                tests,
                tys.as_slice(),
                object,
                parts.as_slice(),
            ),
            _ => Ok(()),
        },
    }
}

// Puts what was made at the end of a list.
fn put(list: &mut List<CExp>, made: Option<Box<CExp>>) -> Result<(), AllocError>
    ensures { (e : CExp) → Gives made e → OnOk result (list.new ≡ list.old ++ e ∷ []) }
{
    match made {
        Some(made) => list.push(made.into_inner()),
        None => Err(AllocError),
    }
}

#[tactic(auto, using(c_analysis::proofs::Forms::type_forms))]
fn word_test(s: Setting, ty: &Ty, object: &CExp, word: u64) -> Option<Box<CExp>>
    ensures { Gives result (word_test ty.now object.now word) }
{
    let object = copy_exp(s.alloc, object);
    match ty {
        Ty::Bool if word == 0 => not(s.alloc, object),
        Ty::Bool => object,
        _ => equal(s.alloc, object, literal(s.alloc, ty, word)),
    }
}

#[cycle(matched)]
#[tactic(auto, using(crate::proofs::MatchForms::match_forms))]
fn match_constructor<'a>(
    s: Setting<'a>,
    scope: &mut List<CExp>,
    tests: &mut List<CExp>,
    ty: &'a Ty,
    object: &'a CExp,
    place: u32,
    parts: &'a [PatC],
) -> Result<(), AllocError>
    ensures tests { OnOk result (tests.new ≡ tests.old ++ (con_match (target s.entry) (form_of (target s.entry).file.types ty.now) place object.now
        (map (matched (target s.entry)) parts.now)).tests) }
    ensures objects { OnOk result (scope.new ≡ scope.old ++ (con_match (target s.entry) (form_of (target s.entry).file.types ty.now) place object.now
        (map (matched (target s.entry)) parts.now)).objects) }
{
    match s.types.shape(ty) {
        Shape::Enumeration(sum) => match_enumeration(s, tests, sum, place, object),
        Shape::Record(sum) => match_record(s, scope, tests, sum, object, parts),
        Shape::Tagged(sum) => {
            test_own_tag(s, tests, sum, place, object)?;
            match_inner(s, scope, tests, sum, place, object, parts)
        }
        _ => Ok(()),
    }
}

// The test that a tag is that of the constructor.
fn test_tag(
    s: Setting,
    tests: &mut List<CExp>,
    sum: &SumDef,
    place: u32,
    own: Option<Box<CExp>>,
) -> Result<(), AllocError>
    ensures { (o : CExp) → Gives own o → OnOk result (tests.new ≡ tests.old ++ (is_tag (target s.entry) sum.now place o).tests) }
{
    put(tests, equal(s.alloc, own, s.types.tag(s.alloc, sum, place)))
}

// The test that an object has the tag of the constructor.
fn test_own_tag(
    s: Setting,
    tests: &mut List<CExp>,
    sum: &SumDef,
    place: u32,
    object: &CExp,
) -> Result<(), AllocError>
    ensures { OnOk result (tests.new ≡ tests.old ++ (is_tag (target s.entry) sum.now place (tree.Member object.now (codes "tag"))).tests) }
{
    let own = member(s.alloc, copy_exp(s.alloc, object), b"tag");
    test_tag(s, tests, sum, place, own)
}

// Of a data type with one constructor no value is tested.
fn match_enumeration(
    s: Setting,
    tests: &mut List<CExp>,
    sum: &SumDef,
    place: u32,
    object: &CExp,
) -> Result<(), AllocError>
    ensures { OnOk result (tests.new ≡ tests.old ++ (con_match (target s.entry) (Enumeration sum.now) place object.now []).tests) }
{
    if sum.cons.len() > 1 {
        return test_tag(s, tests, sum, place, copy_exp(s.alloc, object));
    }
    Ok(())
}

#[cycle(matched)]
#[tactic(auto, using(crate::proofs::MatchForms::match_forms))]
fn match_record<'a>(
    s: Setting<'a>,
    scope: &mut List<CExp>,
    tests: &mut List<CExp>,
    sum: &'a SumDef,
    object: &'a CExp,
    parts: &'a [PatC],
) -> Result<(), AllocError>
    ensures tests { OnOk result (tests.new ≡ tests.old ++ (fields_match object.now 0 (fields_of_first sum.now.cons)
        (map (matched (target s.entry)) parts.now)).tests) }
    ensures objects { OnOk result (scope.new ≡ scope.old ++ (fields_match object.now 0 (fields_of_first sum.now.cons)
        (map (matched (target s.entry)) parts.now)).objects) }
{
    match sum.cons.get(0) {
        Some(con) => match_fields(s, scope, tests, con.fields.as_slice(), object, parts),
        None => Ok(()),
    }
}

// The fields of a constructor within an object that has a tag.
#[cycle(matched)]
#[tactic(auto, using(crate::proofs::MatchForms::match_forms))]
fn match_inner<'a>(
    s: Setting<'a>,
    scope: &mut List<CExp>,
    tests: &mut List<CExp>,
    sum: &'a SumDef,
    place: u32,
    object: &'a CExp,
    parts: &'a [PatC],
) -> Result<(), AllocError>
    ensures tests { OnOk result (tests.new ≡ tests.old ++ (inner_match object.now (slice_get sum.now.cons place)
        (map (matched (target s.entry)) parts.now)).tests) }
    ensures objects { OnOk result (scope.new ≡ scope.old ++ (inner_match object.now (slice_get sum.now.cons place)
        (map (matched (target s.entry)) parts.now)).objects) }
{
    match sum.cons.get(place as usize) {
        Some(con) if !con.fields.is_empty() => {
            let inner = whole(fields_of(s, object, con))?;
            match_fields(s, scope, tests, con.fields.as_slice(), &inner, parts)
        }
        _ => Ok(()),
    }
}

/// The struct of the fields of a constructor within an object.
pub(crate) fn fields_of(s: Setting, object: &CExp, con: &ConDef) -> Option<Box<CExp>>
    ensures { Gives result (fields_of object.now con.now) }
{
    let name = constructor_member(s.alloc, con.name.bytes()).ok();
    let union = member(s.alloc, copy_exp(s.alloc, object), b"u");
    member_named(s.alloc, union, name)
}

/// A field of a struct.
pub(crate) fn field_of(s: Setting, object: &CExp, place: usize) -> Option<Box<CExp>>
    ensures { Gives result (field_of object.now place) }
{
    let name = numbered(s.alloc, b"f", place as u64).ok();
    member_named(s.alloc, copy_exp(s.alloc, object), name)
}

#[cycle(matched)]
#[tactic(auto, using(crate::proofs::MatchForms::field_steps))]
fn match_fields<'a>(
    s: Setting<'a>,
    scope: &mut List<CExp>,
    tests: &mut List<CExp>,
    tys: &'a [Shared<Ty>],
    object: &'a CExp,
    parts: &'a [PatC],
) -> Result<(), AllocError>
    ensures tests { OnOk result (tests.new ≡ tests.old ++ (fields_match object.now 0 tys.now (map (matched (target s.entry)) parts.now)).tests) }
    ensures objects { OnOk result (scope.new ≡ scope.old ++ (fields_match object.now 0 tys.now (map (matched (target s.entry)) parts.now)).objects) }
{
    for (place, part) in parts.iter().enumerate() {
        match_field(s, scope, tests, tys, object, place, part)?;
    }
    Ok(())
}

#[cycle(matched)]
#[tactic(auto, using(crate::proofs::MatchForms::match_forms))]
fn match_field<'a>(
    s: Setting<'a>,
    scope: &mut List<CExp>,
    tests: &mut List<CExp>,
    tys: &'a [Shared<Ty>],
    object: &'a CExp,
    place: usize,
    part: &'a PatC,
) -> Result<(), AllocError>
    ensures tests { OnOk result (tests.new ≡ tests.old ++ (field_matched (matched (target s.entry) part.now) object.now place
        (slice_get tys.now place)).tests) }
    ensures objects { OnOk result (scope.new ≡ scope.old ++ (field_matched (matched (target s.entry) part.now) object.now place
        (slice_get tys.now place)).objects) }
{
    match tys.get(place) {
        Some(ty) => {
            let field = whole(field_of(s, object, place))?;
            matched(s, scope, tests, ty, &field, part)
        }
        None => Ok(()),
    }
}

/// All of the tests as one.
pub fn conjunction(alloc: Global, tests: List<CExp>) -> Result<Box<CExp>, AllocError>
    ensures { IfOk result (λ it. it ≡ conjunction tests) }
{
    if tests.len() == 1 {
        let mut tests = tests;
        return Box::new(alloc, tests.take_first().ok_or(AllocError)?);
    }
    Box::new(alloc, CExp::All(tests))
}
