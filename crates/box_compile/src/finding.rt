//! What patterns test, and where their variables are found.
ghost use Rattle.std.specs.Prelude.{◌≡◌, ◌+◌, ◌++◌, [], length, map, option_to_list, OnOk, IfOk};
ghost use Rattle.box_costs.specs.Bounds.{built_pattern, built_patterns};
ghost use Rattle.box_code.specs.Paths.{tests_at, spots_at, of_fields, of_words, tests_from, spots_from, root};

use crate::counts::{count, plus};
use crate::spots::{Spot, Test};
use hume_base::List;
use hume_model::{InPat, PatC};
use std::alloc::{AllocError, Global};

/// The tests of patterns, and where the words of their variables are.
#[derive(Drop)]
pub(crate) struct Found {
    pub(crate) tests: List<Test>,
    pub(crate) spots: List<Spot>,
}

/// Those of patterns whose values are the words from the bottom of the frame on.
#[tactic(auto, using(crate::proofs::Patterns::pattern_steps))]
pub(crate) fn found_in_words(alloc: Global, pats: &[PatC]) -> Result<Found, AllocError>
    ensures { IfOk result (λ found. (found.tests ≡ tests_from pats.now 0) × (found.spots ≡ spots_from pats.now 0)) }
{
    let mut found = nothing(alloc);
    let count = count(pats.len())?;
    for i in 0..count {
        find(alloc, &pats[i as usize], Spot::root(alloc, i), &mut found)?;
    }
    Ok(found)
}

/// Those of a pattern whose value is the word at a place.
pub(crate) fn found_at(alloc: Global, pat: &PatC, place: u32) -> Result<Found, AllocError>
    ensures { IfOk result (λ found. (found.tests ≡ tests_at pat.now (root place)) × (found.spots ≡ spots_at pat.now (root place))) }
{
    let mut found = nothing(alloc);
    find(alloc, pat, Spot::root(alloc, place), &mut found)?;
    Ok(found)
}

pub(crate) fn nothing(alloc: Global) -> Found
    ensures { (result.tests ≡ []) × (result.spots ≡ []) }
{
    Found {
        tests: List::new(alloc),
        spots: List::new(alloc),
    }
}

/// Adds those of a pattern whose value is at the spot.
#[cycle(find)]
#[tactic(auto, using(crate::proofs::Patterns::pattern_steps))]
pub(crate) fn find(
    alloc: Global,
    pat: &PatC,
    spot: Spot,
    found: &mut Found,
) -> Result<(), AllocError>
    ensures tests { OnOk result (found.new.tests ≡ found.old.tests ++ tests_at pat.now spot) }
    ensures spots { OnOk result (found.new.spots ≡ found.old.spots ++ spots_at pat.now spot) }
{
    match pat {
        PatC::Var => found.spots.push(spot),
        PatC::Any => Ok(()),
        PatC::Word(word) => found.tests.push(Test::word(spot, *word)),
        PatC::Con(tag, parts) => {
            let head = spot.copy(alloc)?;
            found.tests.push(Test::tag(head, *tag))?;
            find_in_fields(alloc, parts.as_slice(), &spot, found)
        }
        PatC::Tuple(parts) => find_in_fields(alloc, parts.as_slice(), &spot, found),
    }
}

#[cycle(find)]
#[tactic(auto, using(crate::proofs::Patterns::pattern_steps))]
fn find_in_fields(
    alloc: Global,
    parts: &[PatC],
    spot: &Spot,
    found: &mut Found,
) -> Result<(), AllocError>
    ensures tests { OnOk result (found.new.tests ≡ found.old.tests ++ of_fields (map tests_at parts.now) spot.now 0) }
    ensures spots { OnOk result (found.new.spots ≡ found.old.spots ++ of_fields (map spots_at parts.now) spot.now 0) }
{
    let count = count(parts.len())?;
    for i in 0..count {
        find(alloc, &parts[i as usize], spot.field(alloc, i)?, found)?;
    }
    Ok(())
}

/// How many patterns of a rule build their inputs, and what is found in those.
#[derive(Drop)]
pub(crate) struct Built {
    pub(crate) count: u32,
    pub(crate) found: Found,
}

/// What is found where the inputs that are built are the words from the bottom of the frame on.
pub(crate) fn find_in_rule(alloc: Global, pats: &[InPat]) -> Result<Built, AllocError>
    ensures count { IfOk result (λ built. built.count ≡ length (built_patterns pats.now)) }
    ensures spots { IfOk result (λ built. built.found.spots ≡ spots_from (built_patterns pats.now) 0) }
{
    let mut built = Built {
        count: 0,
        found: nothing(alloc),
    };
    for pat in pats {
        find_in_position(alloc, pat, &mut built)?;
    }
    Ok(built)
}

fn find_in_position(alloc: Global, pat: &InPat, built: &mut Built) -> Result<(), AllocError>
    ensures count { OnOk result (built.new.count ≡ built.old.count + length (option_to_list (built_pattern pat.now))) }
    ensures spots { OnOk result (built.new.found.spots ≡ built.old.found.spots ++ spots_from (option_to_list (built_pattern pat.now)) built.old.count) }
{
    match pat {
        InPat::Star => Ok(()),
        InPat::AnyStar => Ok(()),
        InPat::Any => Ok(()),
        InPat::Built(pattern) => {
            find(
                alloc,
                pattern,
                Spot::root(alloc, built.count),
                &mut built.found,
            )?;
            built.count = plus(built.count, 1)?;
            Ok(())
        }
    }
}
