//! The instructions of a box's code.

/// A list of field numbers that lead from an object to a word: its place in the code, and how many they are.
#[derive(Clone, Copy)]
pub struct Path {
    pub at: u32,
    pub length: u32,
}

/// A scalar type. Numbers have so many bits.
#[derive(Clone, Copy)]
pub enum Scalar {
    Bool,
    Char,
    Int(u8),
    Nat(u8),
}

/// How two words are compared.
#[derive(Clone, Copy)]
pub enum Comparison {
    Eq,
    Ne,
    Lt,
    Le,
    Gt,
    Ge,
}

/// An instruction. Depths count words from the top of the stack, 0 first; places count words of the code.
#[derive(Clone, Copy)]
pub enum Instr {
    /// Pushes the word.
    Push {
        word: u64,
    },
    /// Pushes a copy of the word at the depth.
    Load {
        depth: u32,
    },
    /// So many words become the fields of an object, of which the place is left.
    Make {
        tag: u32,
        count: u32,
    },
    Add {
        ty: Scalar,
    },
    Sub {
        ty: Scalar,
    },
    Mul {
        ty: Scalar,
    },
    Div {
        ty: Scalar,
    },
    Mod {
        ty: Scalar,
    },
    Neg {
        ty: Scalar,
    },
    Not,
    /// From any number to the type.
    Convert {
        ty: Scalar,
    },
    /// Two words become 0 or 1.
    Compare {
        comparison: Comparison,
        ty: Scalar,
    },
    /// A vector of so many and a place from 1 on become the element.
    Index {
        count: u32,
    },
    /// A vector of so many, a place and an element become the changed vector.
    Update {
        count: u32,
    },
    Jump {
        to: u32,
    },
    /// Takes a word, and jumps if it is 0.
    JumpFalse {
        to: u32,
    },
    /// Jumps if the word at the path is another.
    MatchWord {
        depth: u32,
        path: Path,
        word: u64,
        to: u32,
    },
    /// Jumps if the object at the path has another tag.
    MatchTag {
        depth: u32,
        path: Path,
        tag: u32,
        to: u32,
    },
    /// Pushes the word at the path.
    Field {
        depth: u32,
        path: Path,
    },
    /// Drops so many words under the top one.
    Slide {
        count: u32,
    },
    /// Calls the function at the place with so many arguments: pushes the place to return to, and the height below the arguments.
    Call {
        to: u32,
        count: u32,
    },
    /// The top word takes the place of so many variables, of what `Call` pushed and of so many arguments.
    Return {
        count: u32,
        variables: u32,
    },
    /// Raises the exception, which carries the top word, or nothing.
    Raise {
        exn: u32,
        carried: bool,
    },
    /// The words on top are the outputs of the mask: bit 0 is that of the first.
    Finish {
        mask: u32,
    },
}
