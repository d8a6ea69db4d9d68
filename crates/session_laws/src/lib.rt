//! Laws of sessions: which ports they touch, where a fault comes from, and what each port has got then.
//!
//! Nothing runs: each law is the contract of a function that does nothing. They stand in `laws.rt`, over the definitions of `hume_console` and
//! what is said here: what a session does to which port (`OwnActs.antt`), what a fault tells (`Faults.antt`), and when ports have room
//! (`Rooms.antt`).
//!
//! Proved: a session reads `std_in` and ports that input streams have, and writes to and finishes `std_out` and ports that output streams have
//! (`sessions_touch_their_ports`). A fault comes only where a named count of one of these ports, or of the source's, rose
//! (`session_faults_come_from_their_ports`), and never where each port has room for what it is owed
//! (`sessions_with_room_have_no_fault`). However a session ends, each port, there or gone, stands where the session leaves it by then, and has
//! got a front of what it is owed (`each_port_is_served_so_far`).
//!
//! It knows courses and the ports of sessions. It doesn't know how a session is served.
#![tactic(auto)]

mod laws;

pub use laws::{
    each_port_is_served_so_far, session_faults_come_from_their_ports, sessions_touch_their_ports,
    sessions_with_room_have_no_fault,
};
