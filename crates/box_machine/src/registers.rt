/// Where the code goes on, how many words are on the stack, the most that there were, and the exception that was raised.
#[derive(Clone, Copy)]
pub(crate) struct Registers {
    pub at: usize,
    pub top: usize,
    pub peak: usize,
    pub raised: Option<u32>,
}

/// What an instruction leads to.
#[derive(Clone, Copy)]
pub(crate) enum Turn {
    Goes(Registers),
    /// The words on top are the outputs of the mask. It hands back the registers too, since the loop would otherwise hold both those
    /// before and those after each instruction.
    Ends(Registers, u32),
}

/// A machine whose next instruction ends with the outputs of the mask, with how many instructions are left then.
#[derive(Clone, Copy)]
pub(crate) struct Halted {
    pub registers: Registers,
    pub mask: u32,
    pub left: u32,
}
