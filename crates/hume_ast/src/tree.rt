//! The trees of a program, as its source spells them.
use hume_base::{Box, List, Text};

/// The operators between two parts, in the order of the grammar. `At` picks an element of a vector.
#[derive(Clone, Copy, Debug, PartialEq, Eq)]
pub enum BinOp {
    Or,
    And,
    Eq,
    Ne,
    Lt,
    Le,
    Gt,
    Ge,
    Add,
    Sub,
    Mul,
    Div,
    Mod,
    At,
}

/// A type as it is written.
#[derive(Drop)]
pub enum TyExp {
    Bool,
    Char,
    /// With its number of bits.
    Int(u64),
    /// With its number of bits.
    Nat(u64),
    /// With its length.
    Vector(u64, Box<TyExp>),
    Named(Text),
    Tuple(List<TyExp>),
}

/// A pattern, with its parentheses.
#[derive(Drop)]
pub enum Pat {
    Name(Text),
    Any,
    /// Whether it is negative, and its amount.
    Num(bool, u64),
    Letter(u8),
    Truth(bool),
    Con(Text, List<Pat>),
    Paren(Box<Pat>),
    Tuple(List<Pat>),
    /// At an input of a box alone: nothing is taken.
    Star,
    /// At an input of a box alone: whatever is there is taken, if anything is.
    AnyStar,
}

/// An expression, with its parentheses.
#[derive(Drop)]
pub enum Exp {
    Let(Text, Box<Exp>, Box<Exp>),
    If(Box<Exp>, Box<Exp>, Box<Exp>),
    Case(Box<Exp>, List<(Pat, Exp)>),
    Raise(Text, Option<Box<Exp>>),
    Binary(BinOp, Box<Exp>, Box<Exp>),
    Neg(Box<Exp>),
    Not(Box<Exp>),
    /// A small name, with its arguments; a bare one has none.
    App(Text, List<Exp>),
    /// A capital name, with its arguments.
    Con(Text, List<Exp>),
    Update(Box<Exp>, Box<Exp>, Box<Exp>),
    /// Whether it is negative, and its amount.
    Num(bool, u64),
    Letter(u8),
    Truth(bool),
    Paren(Box<Exp>),
    Tuple(List<Exp>),
    Cast(Box<Exp>, TyExp),
    Vect(List<Exp>),
    Star,
}

/// One declaration. A function has its signature and all its equations in one.
#[derive(Drop)]
pub enum Decl {
    /// A data type with its constructors and the types of their parts.
    Sum(Text, List<(Text, List<TyExp>)>),
    Exn(Text, Option<TyExp>),
    /// A function with its types, the last one of its result, and its equations.
    Fun(Text, List<TyExp>, List<(Text, List<Pat>, Exp)>),
    /// A box with its inputs, its outputs, whether it is fair, its rules and its handlers.
    BoxD(
        Text,
        List<(Text, TyExp)>,
        List<(Text, TyExp)>,
        bool,
        List<(List<Pat>, Exp)>,
        List<(Text, Option<Pat>, Exp)>,
    ),
    /// A stream, whether it comes in, and its port.
    Stream(Text, bool, Text),
    /// The two ends of a wire, each a box with its output or input or a stream alone; how many values it holds, which may be
    /// any number; and its first value.
    Wire((Text, Option<Text>), (Text, Option<Text>), Option<u64>, Option<Exp>),
}

/// Declarations, each with the offset in bytes of its first token.
#[derive(Drop)]
pub struct Program {
    pub decls: List<(u32, Decl)>,
}
