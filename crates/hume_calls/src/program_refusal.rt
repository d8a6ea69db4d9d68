use hume_base::Refusal;

/// A refusal of one of several programs.
#[derive(Clone, Copy, Debug, PartialEq, Eq)]
pub struct ProgramRefusal {
    /// Its number, counted from 1.
    pub program: u32,
    pub refusal: Refusal,
}
