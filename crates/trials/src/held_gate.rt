//! A gate that holds a box until the other one has come by.
use std::sync::atomic::{AtomicBool, AtomicU32, Ordering};
use turn_workers::Gate;

// After so many looks a gate gives up.
const MOST_LOOKS: u32 = 200_000_000;

/// How often the other one of two boxes has to come by before each goes on.
#[derive(Clone, Copy)]
pub(crate) struct Hold {
    /// For the box of number 0.
    pub first: u32,
    /// For the box of number 1.
    pub second: u32,
}

/// A gate that holds each of two boxes, when it first comes by, until the other one has come by so often. With a barrier between the
/// halves of a superstep such a gate gives up, and so it does on one thread where a box waits.
#[derive(Drop)]
pub(crate) struct HeldGate {
    first: AtomicU32,
    second: AtomicU32,
    hold: Hold,
    gave_up: AtomicBool,
}

impl HeldGate {
    pub(crate) fn new(hold: Hold) -> HeldGate {
        HeldGate {
            first: AtomicU32::new(0),
            second: AtomicU32::new(0),
            hold,
            gave_up: AtomicBool::new(false),
        }
    }

    /// Whether each box came by, and none waited in vain.
    pub(crate) fn let_both_by(&self) -> bool {
        !self.gave_up.load(Ordering::SeqCst)
            && self.first.load(Ordering::SeqCst) >= 1
            && self.second.load(Ordering::SeqCst) >= 1
    }

    /// The two answers of a gate, in words.
    pub(crate) fn told(&self) -> &'static str {
        if self.let_both_by() {
            return "let both by";
        }
        "held one in vain"
    }
}

impl Gate for HeldGate {
    fn pass(&self, node: u32) {
        let (own, other, wanted) = match node {
            0 => (&self.first, &self.second, self.hold.first),
            1 => (&self.second, &self.first, self.hold.second),
            _ => return,
        };
        let is_first = own.fetch_add(1, Ordering::SeqCst) == 0;
        if is_first && !has_come(other, wanted) {
            self.gave_up.store(true, Ordering::SeqCst);
        }
    }
}

fn has_come(box_count: &AtomicU32, wanted: u32) -> bool {
    for _ in 0..MOST_LOOKS {
        if box_count.load(Ordering::SeqCst) >= wanted {
            return true;
        }
    }
    false
}
