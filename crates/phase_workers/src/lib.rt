//! The engine of a run: the cells of a core's net, filled from ports, stepped by rounds, and drained to ports.
//!
//! Main calls: `Engine::make`, which takes all memory that a run needs, `Engine::fill`, `Engine::round` and `Engine::drain`; and, for a
//! superstep by halves, `Engine::execute` and `Halfway::super_step`. `Engines.antt` says what an engine is at, `NodeFills.antt` what a
//! fill does to its queue, to the net and to all ports, `StreamTypes.antt` which type the values of a stream have, and
//! `Runnable.antt` which cores are run.
//!
//! Proved: `Engine::make` gives the net before its first superstep. `Engine::fill` reads lines of the port at its place, and their
//! values come to the node; for every text for which the queue was right it is right again after the bytes that were read
//! (`FillsNode`). It ends well only where enough values come to the node, or its stream has no more. `Engine::round` makes exactly
//! the supersteps of the meaning, with peaks of heap and stack that are exactly the most that the steps took. It shares the half
//! steps among workers, and its clauses hold whatever their number, their shares of the net and the interleaving of their steps. If
//! there is no memory for what they share, or a worker leaves early, the calling thread makes the half steps that are left, and no
//! clause changes. The first round has all workers that it may have, but no more than nodes, and later ones as many as an estimate by
//! what was run says that it pays: any number is right, so no clause speaks of it. `Engine::divide` lets rounds go by groups that are
//! given, and changes nothing that a contract sees; what `Engine::groups` gives is a grouping of the net.
//! `Engine::execute` makes all execute steps of a superstep, and gives a `Halfway` at the state `mid` of the meaning; `super_step`
//! makes all super steps, and gives an engine at `up` of that state. `Engine::rebind` lets an input stream go on with another port: the
//! values to come stay, and all else that was read of the old port is forgotten, so that the queue is right for every text of the new
//! one. `Engine::drain` writes the line of each value that an output
//! stream has taken, each by one write, and `clear` forgets them. `log` and `wire` show what the stream has taken and what is on the
//! wire. Only `make` needs memory: a round of several workers asks for some, and goes on without. Laws: the type of a stream is that
//! of its wire (`stream_types_are_those_of_their_wires`), its values have texts (`stream_types_have_texts`), and an engine that is
//! right behind what was read stays so (`engines_stay_right`).
//!
//! It knows cells, turns of nodes, workers, queues, logs and places of ports. It doesn't know how long a round is, which port belongs
//! to which stream, or how workers share a round.
#![tactic(auto)]

mod begin;
mod engine;
mod halfway;
mod laws;
mod making;
mod paths;
mod policy;
mod seen;
mod stepping;
mod stream_types;
mod streams;

pub use engine::Engine;
pub use halfway::Halfway;
pub use laws::{
    engines_stay_right, stream_types_are_those_of_their_wires, stream_types_have_texts,
};
pub use stream_types::stream_type;
