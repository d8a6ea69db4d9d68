//! Whether words are those of a value that a pattern matches.
ghost use Rattle.std.specs.Prelude.{◌≡◌, map};
ghost use Rattle.hume_base.specs.declared.types.Ty.{out-Ty};
ghost use Rattle.hume_base.specs.Sizes.{HaveTheirSizes};
ghost use Rattle.match_rules.specs.inner.WordTests.{word_test, tests_pass, begins_with, con_fields, tuple_parts};

use hume_base::{Shared, Ty, Types, size};
use hume_model::PatC;

/// Whether the value of a type that has the words at the front matches a pattern.
#[cycle(matching)]
#[tactic(auto, using(crate::proofs::Tests::test_steps))]
pub(crate) fn words_match(types: &Types, pattern: &PatC, ty: &Ty, words: &[u64]) -> bool
    requires { HaveTheirSizes types.now }
    ensures { result ≡ word_test types.now pattern.now ty.now words.now }
{
    match pattern {
        PatC::Var => true,
        PatC::Any => true,
        PatC::Word(word) => begins_with(*word, words),
        PatC::Con(place, parts) => {
            begins_with(u64::from(*place), words)
                && parts_match(
                    types,
                    parts.as_slice(),
                    con_fields(types, ty, *place),
                    &words[1.min(words.len())..],
                )
        }
        PatC::Tuple(parts) => parts_match(types, parts.as_slice(), tuple_parts(ty), words),
    }
}

#[cycle(matching)]
#[tactic(auto, using(crate::proofs::Tests::test_steps))]
fn parts_match(types: &Types, patterns: &[PatC], tys: &[Shared<Ty>], words: &[u64]) -> bool
    requires { HaveTheirSizes types.now }
    ensures { result ≡ tests_pass types.now (map (word_test types.now) patterns.now) tys.now words.now }
{
    let mut rest = words;
    for (i, pattern) in patterns.iter().enumerate() {
        let Some(ty) = tys.get(i) else {
            return false;
        };
        if !words_match(types, pattern, ty, rest) {
            return false;
        }
        rest = &rest[(size(types, ty) as usize).min(rest.len())..];
    }
    true
}

fn begins_with(word: u64, words: &[u64]) -> bool
    ensures { result ≡ begins_with word words.now }
{
    match words.first() {
        None => false,
        Some(first) => *first == word,
    }
}

// The types of the fields of a type's constructor; none where there are no such.
fn con_fields<'a>(types: &'a Types, ty: &Ty, place: u32) -> &'a [Shared<Ty>]
    ensures { result.now ≡ con_fields types.now (out-Ty ty.now) place }
{
    let Ty::Named(number) = ty else {
        return &[];
    };
    let Some(sum) = types.sums.get(*number as usize) else {
        return &[];
    };
    match sum.cons.get(place as usize) {
        None => &[],
        Some(con) => con.fields.as_slice(),
    }
}

fn tuple_parts(ty: &Ty) -> &[Shared<Ty>]
    ensures { result.now ≡ tuple_parts (out-Ty ty.now) }
{
    match ty {
        Ty::Tuple(tys) => tys.as_slice(),
        _ => &[],
    }
}
