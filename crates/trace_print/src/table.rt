//! The table of bounds of a core, written to a port.
//!
//! Main call: `write_table` writes a line for each box, in source order, and a last one for all boxes, each by a write of its
//! own; `write_boxes` writes the lines of the boxes alone, and `write_total` that last line. `Table.antt` defines these lines by
//! the bounds themselves (`box_costs`), not by the costs that are passed in.
//!
//! Proved: `write_table` makes the writes of the table of a core that keeps its bounds: all of them, or those before one that
//! failed. It takes no memory.
//!
//! It knows cores, their costs, lines and places of ports. It doesn't know sources, or when the table is written.

mod table;
mod totals;

pub use table::{write_boxes, write_table, write_total};
