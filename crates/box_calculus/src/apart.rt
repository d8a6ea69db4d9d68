//! Rules that no values fit both, as their patterns show.
ghost use Rattle.std.specs.Prelude.{◌≡◌};
ghost use Rattle.calculus_laws.specs.Apart.{apart, some_apart, apart_at, some_apart_at, word_apart, con_apart, tuple_apart};
ghost use Rattle.hume_model.specs.declared.core_tree.PatC.{out-PatC};
ghost use Rattle.std.specs.Prelude.{map};

use hume_model::{InPat, PatC};

/// Whether two rules have patterns that are apart at some position.
#[tactic(auto, using(crate::proofs::Short::apart_steps))]
pub(crate) fn are_apart(pats: &[InPat], others: &[InPat]) -> bool
    ensures { result ≡ some_apart_at pats.now others.now }
{
    for (i, pat) in pats.iter().enumerate() {
        let Some(other) = others.get(i) else {
            return false;
        };
        if apart_position(pat, other) {
            return true;
        }
    }
    false
}

fn apart_position(pat: &InPat, other: &InPat) -> bool
    ensures { result ≡ apart_at pat.now other.now }
{
    match (pat, other) {
        (InPat::Built(pat), InPat::Built(other)) => apart_patterns(pat, other),
        _ => false,
    }
}

#[cycle(apart_patterns)]
fn apart_patterns(pat: &PatC, other: &PatC) -> bool
    ensures { result ≡ apart pat.now other.now }
{
    match pat {
        PatC::Var | PatC::Any => false,
        PatC::Word(word) => apart_from_word(*word, other),
        PatC::Con(place, parts) => apart_from_con(*place, parts.as_slice(), other),
        PatC::Tuple(parts) => apart_from_tuple(parts.as_slice(), other),
    }
}

fn apart_from_word(word: u64, other: &PatC) -> bool
    ensures { result ≡ word_apart word (out-PatC other.now) }
{
    match other {
        PatC::Word(other) => *other != word,
        _ => false,
    }
}

#[cycle(apart_patterns)]
fn apart_from_con(place: u32, parts: &[PatC], other: &PatC) -> bool
    ensures { result ≡ con_apart place (map apart parts.now) (out-PatC other.now) }
{
    match other {
        PatC::Con(other, others) => *other != place || some_parts_apart(parts, others.as_slice()),
        _ => false,
    }
}

#[cycle(apart_patterns)]
fn apart_from_tuple(parts: &[PatC], other: &PatC) -> bool
    ensures { result ≡ tuple_apart (map apart parts.now) (out-PatC other.now) }
{
    match other {
        PatC::Tuple(others) => some_parts_apart(parts, others.as_slice()),
        _ => false,
    }
}

#[cycle(apart_patterns)]
#[tactic(auto, using(crate::proofs::Short::apart_steps))]
fn some_parts_apart(parts: &[PatC], others: &[PatC]) -> bool
    ensures { result ≡ some_apart (map apart parts.now) others.now }
{
    for (i, part) in parts.iter().enumerate() {
        let Some(other) = others.get(i) else {
            return false;
        };
        if apart_patterns(part, other) {
            return true;
        }
    }
    false
}
