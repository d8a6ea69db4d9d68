//! Why a net may be run by rounds: which rounds a run has, what may be fed and cleared between them, and which round is
//! blocked; definitions and laws, nothing runs.
//!
//! `Rounds.antt` defines the rounds of a run, `Streams.antt` what streams assert and gain between two states, `Pieces.antt` a
//! run by rounds and what is missing in its states, and `Blocked.antt` the first blocked round.
//!
//! Proved: supersteps add up (`locksteps_follow_one_another`). Taken values only grow, and nothing else depends on them
//! (`taken_values_only_grow`). Values that come later than the supersteps may need them are not seen
//! (`values_ahead_are_not_seen`), and a stream asserts at most one value a superstep (`streams_assert_one_value_a_superstep`).
//! A net that is fed before each round what the round may need, and cleared of taken values after it, passes through the states
//! of the lockstep that has all values from the start (`pieces_go_on_as_the_whole`, `pieces_are_fed_and_cleared`,
//! `rounds_go_on_as_the_whole`, `rounds_give_the_lockstep`; for single nodes `nodes_are_fed_and_cleared`,
//! `other_nodes_take_and_assert_nothing`, `pieces_keep_what_the_whole_keeps`). Rounds make all supersteps
//! (`rounds_make_all_supersteps`). An input stream blocks a round exactly where it has a bad line and too few values to come
//! (`blocking_streams_lack_values`, `blocked_rounds_are_found`).
//!
//! It knows states of a net and the values of their streams. It doesn't know texts, lines, ports, or how a net is stored or
//! run.

mod laws;

pub use laws::{
    blocked_rounds_are_found, blocking_streams_lack_values, locksteps_follow_one_another,
    nodes_are_fed_and_cleared, other_nodes_take_and_assert_nothing, pieces_are_fed_and_cleared,
    pieces_go_on_as_the_whole, pieces_keep_what_the_whole_keeps, rounds_give_the_lockstep,
    rounds_go_on_as_the_whole, rounds_make_all_supersteps, streams_assert_one_value_a_superstep,
    taken_values_only_grow, values_ahead_are_not_seen,
};
