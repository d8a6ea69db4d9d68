//! Pieces are packed into groups.
use crate::numbers::{add_work, count_of, number_at, set_number, work_at};
use std::alloc::{AllocError, Global};

// No group yet.
const NONE: u32 = u32::MAX;

/// The group of each of `count` pieces: the heaviest piece that is left goes into the group with the least work. Where there are at most
/// `groups` pieces, each is a group of its own.
pub(crate) fn pack(
    alloc: Global,
    work: &[u64],
    count: u32,
    groups: u32,
) -> Result<Vec<u32>, AllocError> {
    let mut group_of = Vec::from_elem(alloc, NONE, count as usize)?;
    let mut load = Vec::from_elem(alloc, 0u64, groups as usize)?;
    for nth in 0..count {
        if count <= groups {
            set_number(group_of.as_mut_slice(), nth, nth);
        } else {
            place_heaviest(work, group_of.as_mut_slice(), load.as_mut_slice());
        }
    }
    Ok(group_of)
}

fn place_heaviest(work: &[u64], group_of: &mut [u32], load: &mut [u64]) {
    let piece = heaviest(work, group_of);
    let group = lightest(load);
    set_number(group_of, piece, group);
    // a piece without work counts too, so that no group stays empty
    add_work(load, group, work_at(work, piece).max(1));
}

// The piece with the most work of those that have no group.
fn heaviest(work: &[u64], group_of: &[u32]) -> u32 {
    let mut best = NONE;
    for piece in 0..count_of(group_of.len()) {
        let free = number_at(group_of, piece) == NONE;
        if free && (best == NONE || work_at(work, piece) > work_at(work, best)) {
            best = piece;
        }
    }
    best
}

fn lightest(load: &[u64]) -> u32 {
    let mut best = 0u32;
    for group in 0..count_of(load.len()) {
        if work_at(load, group) < work_at(load, best) {
            best = group;
        }
    }
    best
}
