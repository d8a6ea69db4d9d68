//! How much heap, stack and work something may take, and how such bounds make up others.
//!
//! They are counted as `space_costs` counts them, but without a greatest number, so that a bound past a limit is told as it is.

/// What is bounded.
#[derive(Clone, Copy, Debug, PartialEq, Eq)]
pub(crate) enum Measure {
    /// Words.
    Heap,
    /// Words.
    Stack,
    /// Instructions.
    Work,
}

impl Measure {
    pub(crate) fn name(self) -> &'static [u8] {
        match self {
            Measure::Heap => b"heap",
            Measure::Stack => b"stack",
            Measure::Work => b"work",
        }
    }
}

/// Words of heap, words of stack, and instructions.
#[derive(Clone, Copy, Debug)]
pub(crate) struct Bound {
    pub(crate) heap: u64,
    pub(crate) stack: u64,
    pub(crate) work: u64,
}

impl Bound {
    pub(crate) fn nothing() -> Bound {
        Bound {
            heap: 0,
            stack: 0,
            work: 0,
        }
    }

    pub(crate) fn by(&self, measure: Measure) -> u64 {
        match measure {
            Measure::Heap => self.heap,
            Measure::Stack => self.stack,
            Measure::Work => self.work,
        }
    }
}

/// A word on the stack.
pub(crate) fn pushed() -> Bound {
    Bound {
        heap: 0,
        stack: 1,
        work: 1,
    }
}

pub(crate) fn instructions(count: u64) -> Bound {
    Bound {
        heap: 0,
        stack: 0,
        work: count,
    }
}

/// Objects of so many words, before the step.
pub(crate) fn objects(words: u64) -> Bound {
    Bound {
        heap: words,
        stack: 0,
        work: 0,
    }
}

/// An object of so many words and its tag.
pub(crate) fn made(words: u64) -> Bound {
    Bound {
        heap: words.saturating_add(1),
        stack: 1,
        work: 1,
    }
}

pub(crate) fn above(words: u64, x: Bound) -> Bound {
    Bound {
        heap: x.heap,
        stack: words.saturating_add(x.stack),
        work: x.work,
    }
}

/// One after the other.
pub(crate) fn both(x: Bound, y: Bound) -> Bound {
    Bound {
        heap: x.heap.saturating_add(y.heap),
        stack: x.stack.max(y.stack),
        work: x.work.saturating_add(y.work),
    }
}

/// One of the two.
pub(crate) fn either(x: Bound, y: Bound) -> Bound {
    Bound {
        heap: x.heap.max(y.heap),
        stack: x.stack.max(y.stack),
        work: x.work.max(y.work),
    }
}

/// A part, and those above its word.
pub(crate) fn before(part: Bound, parts: Bound) -> Bound {
    both(part, above(1, parts))
}

pub(crate) fn with_variables(variables: u64, ending: u64, x: Bound) -> Bound {
    above(
        variables,
        both(instructions(variables), both(x, instructions(ending))),
    )
}

/// The tests of several ways, and the dearest of them.
pub(crate) fn one_way(tests: u64, taken: Bound) -> Bound {
    both(instructions(tests), either(instructions(1), taken))
}
