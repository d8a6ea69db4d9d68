//! How tightly the text of an expression holds together. An operand is in parentheses where its rank is below the one that its
//! place asks for.

/// Operations, choices, and what `&&` or `||` joins: in parentheses wherever it is an operand.
pub const ANY: u8 = 0;

/// Comparisons: bare beside `&&` and `||`, and in a choice.
pub const COMPARISON: u8 = 1;

/// A sign and its operand: also bare beside every other operator.
pub const PREFIX: u8 = 2;

/// Casts: also bare behind a sign or a cast.
pub const CAST: u8 = 3;

/// What no operator can take apart: bare everywhere.
pub const UNIT: u8 = 4;
