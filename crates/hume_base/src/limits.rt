//! How large the parts of a program and of a run may be. Definitions, contracts and code name these numbers.

/// Bytes of a source.
pub const MAX_SOURCE_BYTES: usize = 262_144;

/// Tokens of a source.
pub const MAX_TOKENS: usize = 65_536;

/// Bytes of a name.
pub const MAX_NAME_BYTES: usize = 32;

/// Bytes of the name of a port outside.
pub const MAX_PORT_NAME_BYTES: usize = 255;

/// How deep a type, a pattern or an expression may be.
pub const MAX_DEPTH: u32 = 64;

/// Bits of an `int` or a `nat`.
pub const MAX_WIDTH: u8 = 64;

/// Elements of a vector.
pub const MAX_LENGTH: u32 = 1_024;

/// Parts of a tuple.
pub const MAX_PARTS: usize = 16;

/// Parameters of a function.
pub const MAX_PARAMETERS: usize = 16;

/// Fields of a constructor.
pub const MAX_FIELDS: usize = 16;

/// Constructors of a data type: each takes a token of the source.
pub const MAX_CONSTRUCTORS: usize = 65_536;

/// Words of a type that a source writes down.
pub const MAX_TYPE_WORDS: u32 = 1_024;

/// Functions of a program.
pub const MAX_FUNCTIONS: usize = 256;

/// Exceptions of a program, with the three that every program has.
pub const MAX_EXCEPTIONS: usize = 64;

/// Exceptions that a program declares.
pub const MAX_DECLARED_EXCEPTIONS: usize = 61;

/// Boxes and streams of a program.
pub const MAX_NODES: usize = 256;

/// Inputs of a box.
pub const MAX_INPUTS: usize = 16;

/// Outputs of a box.
pub const MAX_OUTPUTS: usize = 16;

/// Rules of a box.
pub const MAX_RULES: usize = 64;

/// Wires of a program.
pub const MAX_WIRES: usize = 1_024;

/// Values that a wire holds.
pub const MAX_WIRE_DEPTH: u32 = 16;

/// Words of the values that all wires of a program hold together.
pub const MAX_WIRE_WORDS: u32 = 65_536;

/// Words of heap that a box takes.
pub const MAX_HEAP_WORDS: u32 = 65_536;

/// Words of stack that a box takes.
pub const MAX_STACK_WORDS: u32 = 16_384;

/// Words of heap and stack that all boxes of a program take together.
pub const MAX_SPACE_WORDS: u32 = 4_194_304;

/// Instructions that an execute step of a box runs.
pub const MAX_WORK: u32 = 1_000_000;

/// Bytes of a line that an input stream reads.
pub const MAX_LINE_BYTES: usize = 65_536;

/// Empty lines in a row that an input stream reads.
pub const MAX_EMPTY_LINES: u32 = 65_536;

/// Supersteps of a run.
pub const MAX_SUPERSTEPS: u32 = 1_000_000;

/// Workers of a run or of a demo.
pub const MAX_WORKERS: u32 = 16;
