//! The words that build the values of types, by those of data types, which are counted one after another.
ghost use Rattle.std.specs.Prelude.{◌≡◌, ◌+◌, ◌*◌, ℕ, IfOk, map, sum as sum_of};
ghost use Rattle.hume_base.specs.Sizes.{greatest};
ghost use Rattle.box_costs.specs.Building.{build_with, build_of_con};
ghost use Rattle.space_costs.specs.inner.Standing.{counted as counted_number, AreBuildsOf, AreTypeBuilds, or_zero};

use crate::combine::{counted, sum};
use hume_base::limits::MAX_SPACE_WORDS;
use hume_base::{ConDef, List, Shared, Ty, Types};
use std::alloc::{AllocError, Global};

/// The words for each data type, counted once for each in the order of their numbers.
pub(crate) fn builds(alloc: Global, types: &Types) -> Result<List<u32>, AllocError>
    ensures { IfOk result (AreTypeBuilds types.now) }
{
    let mut builds = List::new(alloc);
    for data_type in types.sums.as_slice() {
        builds.push(dearest_build(builds.as_slice(), data_type.cons.as_slice()))?;
    }
    Ok(builds)
}

fn dearest_build(builds: &[u32], cons: &[ConDef]) -> u32
    ensures { (named : ℕ → ℕ) → AreBuildsOf builds.now named → result ≡ counted_number (greatest (map (build_of_con (build_with named)) cons.now)) }
{
    let mut most: u32 = 0;
    for i in (0..cons.len()).rev() {
        most = con_build(builds, &cons[i]).max(most);
    }
    most
}

fn con_build(builds: &[u32], con: &ConDef) -> u32
    ensures { (named : ℕ → ℕ) → AreBuildsOf builds.now named → result ≡ counted_number (build_of_con (build_with named) con.now) }
{
    let fields = con.fields.as_slice();
    sum(sum(1, counted(fields.len())), all_builds(builds, fields))
}

/// The words for a type.
#[cycle(builds)]
pub(crate) fn build(builds: &[u32], ty: &Ty) -> u32
    ensures { (named : ℕ → ℕ) → AreBuildsOf builds.now named → result ≡ counted_number (build_with named ty.now) }
{
    match ty {
        Ty::Bool => 0,
        Ty::Char => 0,
        Ty::Int(_) => 0,
        Ty::Nat(_) => 0,
        Ty::Tuple(parts) => {
            let parts = parts.as_slice();
            sum(sum(1, counted(parts.len())), all_builds(builds, parts))
        }
        Ty::Vector(count, item) => {
            let items = product(*count, build(builds, item));
            sum(sum(1, counted(*count as usize)), items)
        }
        Ty::Named(number) => named_build(builds, *number),
    }
}

#[cycle(builds)]
fn all_builds(builds: &[u32], tys: &[Shared<Ty>]) -> u32
    ensures { (named : ℕ → ℕ) → AreBuildsOf builds.now named → result ≡ counted_number (sum_of (map (build_with named) tys.now)) }
{
    let mut total = 0;
    for i in (0..tys.len()).rev() {
        total = sum(build(builds, &tys[i]), total);
    }
    total
}

fn named_build(builds: &[u32], number: u32) -> u32
    ensures { result ≡ or_zero (Rattle.std.specs.Prelude.slice_get builds.now number) }
{
    match builds.get(number as usize) {
        None => 0,
        Some(words) => *words,
    }
}

/// So many times the words.
fn product(count: u32, words: u32) -> u32
    ensures { (a : ℕ) → words ≡ counted_number a → result ≡ counted_number (count * a) }
{
    let product = u64::from(count) * u64::from(words);
    product.min(u64::from(MAX_SPACE_WORDS) + 1) as u32
}
