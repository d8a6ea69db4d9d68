//! What any call of the tool owes to its ports: acts, in order, and how a call that owes them can end.
//!
//! `Acts.antt` has the acts: a want, a write, a finish. `Ends.antt` says what it is that acts were made, that one of them failed,
//! and that a call ends as it owes; `Early.antt` says how a call ends before it knows what it owes, and `Rounds.antt` has acts that
//! go on by rounds. `read_act`, `write_act` and `finish_act` do one act at a place of a list of ports, `write_and_finish` and
//! `finish_acts` several. None of them takes memory. Laws of the definitions are the contracts of functions that do nothing
//! (`src/laws.rt`).
//!
//! Proved: acts in turn are one list of acts, whether they are made or one fails. Where each port has room, no act fails. A
//! failure tells which count rose and which acts came before it, and only their ports and its own are touched. A call that ends
//! early has written nothing. Two calls that owe the same, and have no fault, give the same answer and the same bytes.
//!
//! It knows names and lists of ports, and bytes. It doesn't know which call owes what, or when values are too few.
#![tactic(auto)]

mod acts;
mod laws;

pub use acts::{finish_act, finish_acts, read_act, write_act, write_and_finish};
pub use laws::{
    Measure, acts_in_turn_are_one_list, acts_with_room_are_made, calls_begin_with_their_reads,
    calls_that_owe_the_same_end_alike, early_ends_write_nothing, early_reads_come_first,
    failures_tell_what_was_done, finishes_come_last, other_ports_are_untouched,
    reads_in_turn_are_one_want, risen_counts_tell_the_act, wants_stand_in_rounds,
};
