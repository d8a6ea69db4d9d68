//! Whether patterns leave no value out.
ghost use Rattle.std.specs.Prelude.{◌≡◌, MatchOption, None, Some, length};
ghost use Rattle.std.specs.List.{filter_map, list_all, list_any};
ghost use Rattle.hume_model.specs.declared.core_tree.PatC.{PatC as Pattern, out-PatC};
ghost use Rattle.hume_model.specs.Completeness.{are_complete as leave_none_out, are_all as are_all_there, are_constructors as are_the_constructors, are_truths as are_the_truths};
ghost use Rattle.hume_model.specs.Completeness.{all_below, last_passes, is_irrefutable as has_no_refusal, takes_con as is_of_con, takes_word as is_of_word};
ghost use Rattle.hume_model.specs.Forms.{forms_of as forms_told};
ghost use Rattle.c_analysis.specs.Raises.{arms_complete};
ghost use Rattle.c_analysis.specs.Targets.{target};

use crate::setting::Setting;
use hume_base::{Ty, Types};
use hume_model::{Forms, PatC, forms_of};
use typed_core::{TypedEquation, TypedExpr, TypedResult};

/// What has a pattern.
pub trait Alternative {
    ghost use Rattle.std.specs.Prelude.{Option};
    ghost use Rattle.hume_model.specs.declared.core_tree.PatC.{PatC};

    ghost pattern: { Self → Option PatC };

    fn pattern(&self) -> Option<&PatC>
        ensures { MatchOption result (pattern self.now ≡ None) (λ p. pattern self.now ≡ Some p.now) };
}

impl Alternative for (PatC, TypedExpr) {
    ghost pattern = { λ arm. Some arm.0 };

    fn pattern(&self) -> Option<&PatC> {
        Some(&self.0)
    }
}

impl Alternative for (PatC, TypedResult) {
    ghost pattern = { λ arm. Some arm.0 };

    fn pattern(&self) -> Option<&PatC> {
        Some(&self.0)
    }
}

/// The pattern of an equation is its first.
impl Alternative for TypedEquation {
    ghost use Rattle.std.specs.Prelude.{slice_get};

    ghost pattern = { λ equation. slice_get equation.pats 0 };

    fn pattern(&self) -> Option<&PatC> {
        self.pats.get(0)
    }
}

/// Whether the alternatives leave no value of the type out, as far as their forms tell.
pub fn are_complete<A: Alternative>(types: &Types, ty: &Ty, items: &[A]) -> bool
    ensures { result ≡ leave_none_out types.now (forms_told ty.now) (filter_map A.pattern items.now) }
{
    leave_no_form_out(types, forms_of(ty), items)
}

/// Whether the alternatives of a `case` do.
pub fn arms_are_complete(s: Setting, of: &Ty, arms: &[(PatC, TypedExpr)]) -> bool
    ensures { result ≡ arms_complete (target s.entry) of.now arms.now }
{
    are_complete(s.data(), of, arms)
}

// Whether the patterns leave no value of these forms out.
fn leave_no_form_out<A: Alternative>(types: &Types, forms: Forms, items: &[A]) -> bool
    ensures { result ≡ leave_none_out types.now forms (filter_map A.pattern items.now) }
{
    last_is_irrefutable(items) || are_all(types, forms, items)
}

#[tactic(auto, using(crate::proofs::Lasts::last_steps))]
fn last_is_irrefutable<A: Alternative>(items: &[A]) -> bool
    ensures { result ≡ last_passes has_no_refusal (filter_map A.pattern items.now) }
{
    let mut last = false;
    for item in items {
        if let Some(pattern) = item.pattern() {
            last = is_irrefutable(pattern);
        }
    }
    last
}

#[tactic(auto, using(crate::proofs::PatternForms::pattern_forms))]
fn are_all<A: Alternative>(types: &Types, forms: Forms, items: &[A]) -> bool
    ensures { result ≡ are_all_there types.now forms (filter_map A.pattern items.now) }
{
    match forms {
        Forms::Truths => are_truths(items),
        Forms::Constructors(number) => match types.sums.get(number as usize) {
            None => false,
            Some(sum) => are_constructors(sum.cons.len(), items),
        },
        Forms::Others => false,
    }
}

fn are_truths<A: Alternative>(items: &[A]) -> bool
    ensures { result ≡ are_the_truths (filter_map A.pattern items.now) }
{
    count(items) == 2 && some_takes_word(items, 0) && some_takes_word(items, 1)
}

// It takes time for each constructor and each pattern.
fn are_constructors<A: Alternative>(constructors: usize, items: &[A]) -> bool
    ensures { result ≡ are_the_constructors constructors (filter_map A.pattern items.now) }
{
    count(items) == constructors && each_is_taken(constructors, items)
}

fn each_is_taken<A: Alternative>(constructors: usize, items: &[A]) -> bool
    ensures { result ≡ all_below constructors (λ place. list_any (λ (p : Pattern). is_of_con place (out-PatC p)) (filter_map A.pattern items.now)) }
{
    for place in 0..constructors {
        if !some_takes_con(items, place) {
            return false;
        }
    }
    true
}

fn count<A: Alternative>(items: &[A]) -> usize
    ensures { result ≡ length (filter_map A.pattern items.now) }
{
    let mut count = 0;
    for item in items {
        if item.pattern().is_some() {
            count += 1;
        }
    }
    count
}

fn some_takes_con<A: Alternative>(items: &[A], place: usize) -> bool
    ensures { result ≡ list_any (λ (p : Pattern). is_of_con place (out-PatC p)) (filter_map A.pattern items.now) }
{
    for item in items {
        if let Some(pattern) = item.pattern() {
            if takes_con(pattern, place) {
                return true;
            }
        }
    }
    false
}

fn some_takes_word<A: Alternative>(items: &[A], word: u64) -> bool
    ensures { result ≡ list_any (λ (p : Pattern). is_of_word word (out-PatC p)) (filter_map A.pattern items.now) }
{
    for item in items {
        if let Some(pattern) = item.pattern() {
            if takes_word(pattern, word) {
                return true;
            }
        }
    }
    false
}

#[cycle(irrefutable)]
#[tactic(auto, using(crate::proofs::PatternForms::pattern_forms))]
pub fn is_irrefutable(pattern: &PatC) -> bool
    ensures { result ≡ has_no_refusal pattern.now }
{
    match pattern {
        PatC::Var => true,
        PatC::Any => true,
        PatC::Word(_) => false,
        PatC::Con(_, _) => false,
        PatC::Tuple(parts) => are_irrefutable(parts.as_slice()),
    }
}

#[cycle(irrefutable)]
#[tactic(auto, using(crate::proofs::PatternForms::pattern_forms))]
pub fn are_irrefutable(patterns: &[PatC]) -> bool
    ensures { result ≡ list_all has_no_refusal patterns.now }
{
    for pattern in patterns {
        if !is_irrefutable(pattern) {
            return false;
        }
    }
    true
}

// Whether the pattern is the constructor at the place, with irrefutable arguments.
#[tactic(auto, using(crate::proofs::PatternForms::pattern_forms))]
fn takes_con(pattern: &PatC, place: usize) -> bool
    ensures { result ≡ is_of_con place (out-PatC pattern.now) }
{
    match pattern {
        PatC::Con(other, parts) => { *other as usize == place && are_irrefutable(parts.as_slice()) }
        _ => false,
    }
}

// Whether the pattern is the word.
#[tactic(auto, using(crate::proofs::PatternForms::pattern_forms))]
fn takes_word(pattern: &PatC, word: u64) -> bool
    ensures { result ≡ is_of_word word (out-PatC pattern.now) }
{
    match pattern {
        PatC::Word(other) => *other == word,
        _ => false,
    }
}
