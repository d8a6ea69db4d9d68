//! The cell of a node.
ghost use Rattle.std.specs.Prelude.{◌≡◌, ◌≤◌, ◌%◌, ◌/◌};

use crate::compiled::CompiledBox;
use hume_streams::{InQueue, OutLog};

/// What runs a node: a box as code, the values that come from an input stream, or those that an output stream took.
#[derive(Drop)]
pub enum Kind {
    Coded(Box<CompiledBox>),
    Queued(Box<InQueue>),
    Logged(Box<OutLog>),
}

/// The cell of a node: its number, its time, which is how many half steps it has made, and what runs it, behind a pointer.
#[derive(Drop)]
pub struct BoxCell {
    pub(crate) number: u32,
    pub(crate) time: u64,
    pub(crate) kind: Kind,
}

impl BoxCell {
    ghost use Rattle.box_step.specs.nodes.Openings.{Opening, opening_after};
    ghost use Rattle.box_step.specs.nodes.Right.{IsRightNode, heap_peak_of, stack_peak_of, work_of};

    pub fn number(&self) -> u32
        ensures { result ≡ self.now.number }
    {
        self.number
    }

    /// How many half steps it has made.
    pub fn time(&self) -> u64
        ensures { result ≡ self.now.time }
    {
        self.time
    }

    /// Goes back to time 0, and keeps all else. What was right for an opening is so for the one to which its supersteps led.
    pub fn begin(&mut self)
        requires { self.old.time % 2 ≡ 0 }
        ensures begun { self.new ≡ record self.old { time = 0 } }
        ensures right { (opening : Opening) → IsRightNode opening self.old.number self.old.time self.old.kind
            → IsRightNode (opening_after opening (self.old.time / 2)) self.new.number self.new.time self.new.kind }
    {
        self.time = 0;
    }

    /// The most words of heap that the box took, and 0 of a stream.
    pub fn heap_peak(&self) -> u32
        ensures { result ≡ heap_peak_of self.now.kind }
    {
        match &self.kind {
            Kind::Coded(compiled) => compiled.heap_peak(),
            Kind::Queued(_) => 0,
            Kind::Logged(_) => 0,
        }
    }

    /// The most words of stack that the box took, and 0 of a stream.
    pub fn stack_peak(&self) -> u32
        ensures { result ≡ stack_peak_of self.now.kind }
    {
        match &self.kind {
            Kind::Coded(compiled) => compiled.stack_peak(),
            Kind::Queued(_) => 0,
            Kind::Logged(_) => 0,
        }
    }

    /// How many instructions all execute steps of the box ran, and 0 of a stream.
    pub fn ran(&self) -> u64
        ensures { work_of self.now.kind ≤ result }
    {
        match &self.kind {
            Kind::Coded(compiled) => compiled.ran(),
            Kind::Queued(_) => 0,
            Kind::Logged(_) => 0,
        }
    }
}
