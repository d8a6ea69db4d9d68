//! A set of exceptions.
ghost use Rattle.std.specs.Prelude.{◌≡◌, ◌==◌, ◌||◌, ◌&&◌, ◌<◌, ℕ, false};
ghost use Rattle.hume_base.specs.declared.limits.TheConstants.{MAX_EXCEPTIONS};
ghost use Rattle.hume_exceptions.specs.Sets.{has as is_in};

use hume_base::limits::MAX_EXCEPTIONS;

/// A set of exceptions, by their numbers.
#[derive(Clone, Copy)]
pub struct ExnSet {
    bits: u64,
}

impl ExnSet {
    /// The set of no exception.
    pub fn empty() -> ExnSet
        ensures { (exn : ℕ) → is_in result exn ≡ false }
    {
        ExnSet { bits: 0 }
    }

    /// The set of the exception alone, if the test was passed, and else of none.
    pub fn only_if(number: u32, passed: bool) -> ExnSet
        ensures { (exn : ℕ) → exn < MAX_EXCEPTIONS → is_in result exn ≡ ((exn == number) && passed) }
    {
        if passed && (number as usize) < MAX_EXCEPTIONS {
            ExnSet { bits: 1 << number }
        } else {
            ExnSet { bits: 0 }
        }
    }

    /// Whether the exception is in the set.
    pub fn has(&self, exn: u32) -> bool
        requires { exn < MAX_EXCEPTIONS }
        ensures { result ≡ is_in self.now exn }
    {
        (self.bits >> exn) & 1 == 1
    }

    /// The exceptions of both sets.
    pub fn or(self, other: ExnSet) -> ExnSet
        ensures { (exn : ℕ) → is_in result exn ≡ (is_in self exn || is_in other exn) }
    {
        ExnSet {
            bits: self.bits | other.bits,
        }
    }
}
