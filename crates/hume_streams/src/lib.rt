//! The lines of a port as values, and values as lines of a port; neither takes memory once queue or log is made.
//!
//! `InQueue` reads the values of an input stream, as many as are wanted and no line more. `Good.antt` says which lines of a
//! text are bad and which values the others have, `Queues.antt` for which text a queue is right, and `Fills.antt` what a fill
//! does. `OutLog` keeps the values of an output stream and writes each as a line (`Logs.antt`).
//!
//! Proved: `InQueue::fill` reads lines until the queue holds what is wanted, and no line more, or the port is at its end. For
//! each text for which the queue was right, it is right again after the bytes that were read: what it read before and what the
//! fill gained are the first good values of the text (`Fills`). It answers `BadValue` only where the text's first bad line comes
//! before there are enough values, with that line's number; `Failed` only where a read of the port failed, with too few values and
//! no whole line unread; `Ok` with too few values only where no line of the text is bad and nothing is left. It keeps what it held,
//! and doesn't touch the port where there is enough. `drop_front` gives away the first value. `rebind` forgets all that was read of
//! the port but the values that the queue holds. `OutLog::drain` writes each value's line by a write of its own; where one fails
//! the log stays as it was. Laws: each text has good values, once (`each_text_has_good_values`, `good_values_are_unique`), and few
//! lines stand before a bad one (`bad_lines_have_small_numbers`); a queue is right with the values that it holds where it is right
//! without them (`queues_are_right_without_what_they_hold`), and after `rebind` for every text of another port
//! (`rebound_queues_are_right_for_each_text`); it holds the next values (`queues_hold_the_next_values`), follows a port that
//! tells what it has left (`fills_follow_ports_that_tell`), and after a failed read holds the good values of the whole lines that
//! were taken (`queues_hold_whole_lines`); its rows are the words of values of its type (`queues_hold_words_of_their_type`), as
//! many as the type has (`rows_of_values_have_the_size_of_their_type`), and all rows have one width (`rows_have_one_width`).
//!
//! It knows ports, lines and the words of values. It doesn't know cores, wires or streams.
#![tactic(auto)]

mod buffer;
mod laws;
mod line;
mod log;
mod log_line;
pub mod places;
mod queue;
mod rows;

pub use laws::{
    bad_lines_have_small_numbers, each_text_has_good_values, fills_follow_ports_that_tell,
    good_values_are_unique, queues_are_right_without_what_they_hold, queues_hold_the_next_values,
    queues_hold_whole_lines, queues_hold_words_of_their_type, rows_have_one_width,
    rows_of_values_have_the_size_of_their_type,
};
pub use log::OutLog;
pub use queue::{FillError, InQueue};
