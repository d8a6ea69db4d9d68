//! The words that build the inputs of a rule.
use hume_base::{ConDef, Shared, Ty, Types};
use hume_model::{InPat, PortC};
use std::alloc::{AllocError, Global};

/// For each data type the words that build its dearest value.
pub(crate) fn builds(alloc: Global, types: &Types) -> Result<Vec<u64>, AllocError> {
    let mut builds = Vec::new(alloc);
    for data_type in types.sums.as_slice() {
        let most = dearest_build(builds.as_slice(), data_type.cons.as_slice());
        builds.push(most)?;
    }
    Ok(builds)
}

fn dearest_build(builds: &[u64], cons: &[ConDef]) -> u64 {
    let mut most: u64 = 0;
    for con in cons {
        most = most.max(object_build(builds, con.fields.as_slice()));
    }
    most
}

// An object and those of its parts.
fn object_build(builds: &[u64], fields: &[Shared<Ty>]) -> u64 {
    all_builds(builds, fields)
        .saturating_add(fields.len() as u64)
        .saturating_add(1)
}

#[cycle(build)]
pub(crate) fn build(builds: &[u64], ty: &Ty) -> u64 {
    match ty {
        Ty::Bool | Ty::Char | Ty::Int(_) | Ty::Nat(_) => 0,
        Ty::Tuple(parts) => {
            let parts = parts.as_slice();
            all_builds(builds, parts)
                .saturating_add(parts.len() as u64)
                .saturating_add(1)
        }
        Ty::Vector(count, item) => {
            let count = u64::from(*count);
            build(builds, item)
                .saturating_mul(count)
                .saturating_add(count)
                .saturating_add(1)
        }
        Ty::Named(number) => match builds.get(*number as usize) {
            None => 0,
            Some(words) => *words,
        },
    }
}

#[cycle(build)]
fn all_builds(builds: &[u64], tys: &[Shared<Ty>]) -> u64 {
    let mut total: u64 = 0;
    for i in 0..tys.len() {
        total = total.saturating_add(build(builds, &tys[i]));
    }
    total
}

/// The words that build the inputs of a rule.
pub(crate) fn inputs_build(builds: &[u64], ins: &[PortC], patterns: &[InPat]) -> u64 {
    let mut total: u64 = 0;
    for i in 0..ins.len().min(patterns.len()) {
        if let InPat::Built(_) = &patterns[i] {
            total = total.saturating_add(build(builds, &ins[i].ty));
        }
    }
    total
}
