//! Queues and logs of streams, each over a place in a list of ports.
//!
//! Main calls: `fill_at` fills the queue of an input stream from the port at a place, and `drain_at` writes the lines of an
//! output stream's log to the port at a place. `FillsOfPorts.antt` says what a fill does to the list, and `LineWrites.antt` has the
//! writes of the lines. Neither call takes memory.
//!
//! Proved: `fill_at` does to the queue, and to the port at the place, exactly what `fill` of `hume_streams` says, and touches no
//! other port: the bytes by which the queue went on were read from the port of that name, and where a read failed it failed
//! there (`FillsFrom`). `drain_at` writes the line of each value to the port of that name by an act of its own: all of these acts
//! were made, or one of them failed.
//!
//! It knows places, names and lists of ports, acts, and queues and logs by their contracts. It doesn't know cores, rounds, or which
//! stream has which place.

mod draining;
mod filling;

pub use draining::drain_at;
pub use filling::fill_at;
