//! How many variables and tests patterns have.
use hume_model::PatC;

#[cycle(variables)]
pub(crate) fn variables(pattern: &PatC) -> u64 {
    match pattern {
        PatC::Var => 1,
        PatC::Any => 0,
        PatC::Word(_) => 0,
        PatC::Con(_, parts) => all_variables(parts.as_slice()),
        PatC::Tuple(parts) => all_variables(parts.as_slice()),
    }
}

#[cycle(variables)]
pub(crate) fn all_variables(patterns: &[PatC]) -> u64 {
    let mut total: u64 = 0;
    for i in 0..patterns.len() {
        total = total.saturating_add(variables(&patterns[i]));
    }
    total
}

#[cycle(tests)]
pub(crate) fn tests(pattern: &PatC) -> u64 {
    match pattern {
        PatC::Var => 0,
        PatC::Any => 0,
        PatC::Word(_) => 1,
        PatC::Con(_, parts) => all_tests(parts.as_slice()).saturating_add(1),
        PatC::Tuple(parts) => all_tests(parts.as_slice()),
    }
}

#[cycle(tests)]
pub(crate) fn all_tests(patterns: &[PatC]) -> u64 {
    let mut total: u64 = 0;
    for i in 0..patterns.len() {
        total = total.saturating_add(tests(&patterns[i]));
    }
    total
}
