//! What is answered of a log.
ghost use Rattle.std.specs.Prelude.{◌≡◌};
ghost use Rattle.log_rounds.specs.inner.Stops.{answer_of};

use crate::verifying::Stop;

/// What is answered of a log that was verified.
#[derive(Clone, Copy, Debug, PartialEq)]
pub enum Verdict {
    /// It is the log of the run, byte for byte.
    Holds,
    /// It isn't.
    Fails,
    /// A bad line blocks a superstep, up to which it is right.
    Blocked,
}

/// The answer, by why the log was verified no further.
pub(crate) fn verdict_of(stop: Option<Stop>) -> Verdict
    ensures { result ≡ answer_of stop }
{
    match stop {
        None => Verdict::Holds,
        Some(Stop::Wrong(_)) => Verdict::Fails,
        Some(Stop::Bad(_)) => Verdict::Blocked,
    }
}
