//! Numbers by place. A place that isn't there has the number 0, and takes none.

pub(crate) fn work_at(work: &[u64], place: u32) -> u64 {
    match work.get(place as usize) {
        Some(it) => *it,
        None => 0,
    }
}

pub(crate) fn number_at(numbers: &[u32], place: u32) -> u32 {
    match numbers.get(place as usize) {
        Some(it) => *it,
        None => 0,
    }
}

pub(crate) fn add_work(work: &mut [u64], place: u32, more: u64) {
    if (place as usize) < work.len() {
        work[place as usize] = work[place as usize].saturating_add(more);
    }
}

pub(crate) fn set_number(numbers: &mut [u32], place: u32, number: u32) {
    if (place as usize) < numbers.len() {
        numbers[place as usize] = number;
    }
}

/// The work of all.
pub(crate) fn total(work: &[u64]) -> u64 {
    let mut sum = 0u64;
    for it in work {
        sum = sum.saturating_add(*it);
    }
    sum
}

/// The part of `parts` equal parts of the whole in which the middle of a piece of work lies that has `before` before it.
pub(crate) fn part_of(before: u64, piece: u64, whole: u64, parts: u32) -> u32 {
    if whole == 0 || parts == 0 {
        return 0;
    }
    let middle = before.saturating_add(piece / 2);
    let part = middle.saturating_mul(parts as u64) / whole;
    part.min(parts as u64 - 1) as u32
}

/// A length as a number of places.
pub(crate) fn count_of(length: usize) -> u32 {
    if length > u32::MAX as usize {
        u32::MAX
    } else {
        length as u32
    }
}
