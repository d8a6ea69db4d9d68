//! The calls that lend the queue or the log of a stream.
ghost use Rattle.std.specs.Prelude.{◌≡◌, MatchOption, None, Some};

use crate::nodes::cell::{BoxCell, Kind};
use hume_streams::{InQueue, OutLog};

impl BoxCell {
    ghost use Rattle.std.specs.Borrow.{sem};
    ghost use Rattle.box_step.specs.nodes.Lends.{LendsLog, LendsQueue, log_in, queue_in};

    /// The queue of an input stream, and none of another node.
    pub fn queue(&mut self) -> Option<&mut InQueue>
        ensures* lends { sem 𝓛 (LendsQueue self.entry result) }
        ensures queue { MatchOption result (queue_in self.old.kind ≡ None) (λ queue. queue_in self.old.kind ≡ Some queue.now) }
    {
        match &mut self.kind {
            Kind::Coded(_) => None,
            Kind::Queued(queue) => Some(&mut **queue),
            Kind::Logged(_) => None,
        }
    }

    /// The log of an output stream, and none of another node.
    pub fn log(&mut self) -> Option<&mut OutLog>
        ensures* lends { sem 𝓛 (LendsLog self.entry result) }
        ensures log { MatchOption result (log_in self.old.kind ≡ None) (λ log. log_in self.old.kind ≡ Some log.now) }
    {
        match &mut self.kind {
            Kind::Coded(_) => None,
            Kind::Queued(_) => None,
            Kind::Logged(log) => Some(&mut **log),
        }
    }

    /// The log of an output stream, lent for reading, and none of another node.
    pub fn log_seen(&self) -> Option<&OutLog>
        ensures { MatchOption result (log_in self.now.kind ≡ None) (λ log. log_in self.now.kind ≡ Some log.now) }
    {
        match &self.kind {
            Kind::Coded(_) => None,
            Kind::Queued(_) => None,
            Kind::Logged(log) => Some(&**log),
        }
    }
}
