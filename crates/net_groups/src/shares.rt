//! Workers get shares of groups.
use crate::numbers::{count_of, number_at, part_of, total, work_at};
use hume_base::List;
use std::alloc::{AllocError, Global};

/// The first group of each worker's share. A share is a run of groups, and about as much work as each other one.
pub(crate) fn first_groups(
    alloc: Global,
    load: &[u64],
    workers: u32,
) -> Result<List<u32>, AllocError> {
    let whole = total(load);
    let mut first = List::new(alloc);
    for worker in 0..workers {
        first.push(first_group(load, whole, worker, workers))?;
    }
    Ok(first)
}

// The first group that isn't in the shares before a worker's.
fn first_group(load: &[u64], whole: u64, worker: u32, workers: u32) -> u32 {
    let mut before = 0u64;
    let count = count_of(load.len());
    for group in 0..count {
        let weight = work_at(load, group);
        if part_of(before, weight, whole, workers) >= worker {
            return group;
        }
        before = before.saturating_add(weight);
    }
    count
}

/// The work of the heaviest share.
pub(crate) fn heaviest_share(load: &[u64], first: &[u32]) -> u64 {
    let mut most = 0u64;
    let workers = count_of(first.len());
    for worker in 0..workers {
        let next = worker.saturating_add(1);
        let end = if next < workers {
            number_at(first, next)
        } else {
            count_of(load.len())
        };
        most = most.max(work_between(load, number_at(first, worker), end));
    }
    most
}

fn work_between(load: &[u64], begin: u32, end: u32) -> u64 {
    let mut sum = 0u64;
    for group in begin..end {
        sum = sum.saturating_add(work_at(load, group));
    }
    sum
}
