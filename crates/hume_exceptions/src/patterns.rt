//! Patterns that match by their form alone, and those of one constructor or word.
ghost use Rattle.std.specs.Prelude.{◌≡◌};
ghost use Rattle.std.specs.List.{list_all};
ghost use Rattle.hume_model.specs.declared.core_tree.PatC.{out-PatC};
ghost use Rattle.hume_model.specs.Completeness.{is_irrefutable as has_no_refusal, takes_con as is_of_con, takes_word as is_of_word};

use hume_model::PatC;

#[cycle(irrefutable)]
#[tactic(auto, using(crate::proofs::PatternForms::pattern_forms))]
pub fn is_irrefutable(pattern: &PatC) -> bool
    ensures { result ≡ has_no_refusal pattern.now }
{
    match pattern {
        PatC::Var => true,
        PatC::Any => true,
        PatC::Word(_) => false,
        PatC::Con(_, _) => false,
        PatC::Tuple(parts) => are_irrefutable(parts.as_slice()),
    }
}

#[cycle(irrefutable)]
#[tactic(auto, using(crate::proofs::PatternForms::pattern_forms))]
pub fn are_irrefutable(patterns: &[PatC]) -> bool
    ensures { result ≡ list_all has_no_refusal patterns.now }
{
    for pattern in patterns {
        if !is_irrefutable(pattern) {
            return false;
        }
    }
    true
}

/// Whether the pattern is the constructor at the place, with irrefutable arguments.
#[tactic(auto, using(crate::proofs::PatternForms::pattern_forms))]
pub fn takes_con(pattern: &PatC, place: usize) -> bool
    ensures { result ≡ is_of_con place (out-PatC pattern.now) }
{
    match pattern {
        PatC::Con(other, parts) => { *other as usize == place && are_irrefutable(parts.as_slice()) }
        _ => false,
    }
}

/// Whether the pattern is the word.
#[tactic(auto, using(crate::proofs::PatternForms::pattern_forms))]
pub fn takes_word(pattern: &PatC, word: u64) -> bool
    ensures { result ≡ is_of_word word (out-PatC pattern.now) }
{
    match pattern {
        PatC::Word(other) => *other == word,
        _ => false,
    }
}
