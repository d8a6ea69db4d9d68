//! What a seat knows.
use hume_base::List;
use hume_net::Plan;

/// What a seat of a locker knows. No value of it is made.
pub struct View {
    pub plan: Plan,
    /// What the seat has of the whole, which is 65,536. A seat that was joined to another has none.
    pub share: u32,
    /// The items that the seat holds, each with its time.
    pub held: List<(u32, u64)>,
    /// The wires that the seat has passed, each behind the node for which it did.
    pub passed: List<(u32, u32)>,
    /// The held item whose slot is out with the seat.
    pub out: Option<u32>,
    /// The item that the seat's last step read without claiming it, and the word that it found there.
    pub seen: Option<(u32, u64)>,
}
