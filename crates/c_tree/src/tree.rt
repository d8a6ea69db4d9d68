//! The trees of C files.
use hume_base::{Box, List, Text};

/// How many bits a number of `stdint.h` has.
#[derive(Clone, Copy)]
pub enum Width {
    W8,
    W16,
    W32,
    W64,
}

/// A type, as it is named.
#[derive(Drop)]
pub enum CType {
    Bool,
    Signed(Width),
    Unsigned(Width),
    /// A type that the file declares.
    Named(Text),
}

/// An operator between two operands. `&&` and `||` are forms of `CExp`.
#[derive(Clone, Copy)]
pub enum COp {
    Multiply,
    Divide,
    Remainder,
    Add,
    Subtract,
    ShiftLeft,
    ShiftRight,
    BitAnd,
    BitOr,
    Equal,
    NotEqual,
    Less,
    LessEqual,
    Greater,
    GreaterEqual,
}

/// An expression. Those that stand for objects, as in C, are `Name`, `Pointed`, `Member` and `Element`.
#[derive(Drop)]
pub enum CExp {
    /// `true` or `false`.
    Truth(bool),
    /// A constant of an unsigned type: of `unsigned int` up to 16 bits, above of the width.
    Unsigned(Width, u64),
    /// A constant of a signed type, whether it is negative, and its amount: an `int` up to 16 bits, above of the width.
    Signed(Width, bool, u64),
    Name(Text),
    /// `(*name)`: what the pointer of that name points to.
    Pointed(Text),
    /// A member of a struct or of a union.
    Member(Box<CExp>, Text),
    /// The element of an array at an index.
    Element(Box<CExp>, Box<CExp>),
    Call(Text, List<CExp>),
    Cast(CType, Box<CExp>),
    Negate(Box<CExp>),
    Not(Box<CExp>),
    /// The address of an object.
    Address(Box<CExp>),
    Binary(COp, Box<CExp>, Box<CExp>),
    /// `&&` between each two, tested from left to right; of none, `true`.
    All(List<CExp>),
    /// `||` between each two, tested from left to right; of none, `false`.
    Any(List<CExp>),
    /// `test ? first : second`.
    Choice(Box<CExp>, Box<CExp>, Box<CExp>),
}

/// A variable of a function: whether it is `const`, its type and its name.
#[derive(Drop)]
pub struct CVariable {
    pub constant: bool,
    pub ty: CType,
    pub name: Text,
}

/// What a `for` counts: a variable of its own, from 0 up to below a limit.
#[derive(Drop)]
pub struct CCount {
    pub ty: CType,
    pub name: Text,
    pub limit: Box<CExp>,
}

/// A statement.
#[derive(Drop)]
pub enum CStm {
    Comment(Text),
    Declare(CVariable),
    /// A declaration with a first value.
    Define(CVariable, Box<CExp>),
    /// To an object, the value of an expression.
    Assign(Box<CExp>, Box<CExp>),
    Increment(Box<CExp>),
    Decrement(Box<CExp>),
    Call(Text, List<CExp>),
    /// A test with its statements, further tests with theirs, and the statements of the last `else`, which is left out
    /// where there are none.
    If(Box<CExp>, List<CStm>, List<(CExp, List<CStm>)>, List<CStm>),
    /// The cases, each a constant with its statements, which a `break` ends, and the statements of `default`.
    Switch(Box<CExp>, List<(CExp, List<CStm>)>, List<CStm>),
    For(CCount, List<CStm>),
    /// Leaves the innermost `for` or `switch`.
    Break,
    Return(Option<Box<CExp>>),
}

/// How a parameter is passed.
#[derive(Clone, Copy)]
pub enum Passing {
    /// By value.
    Value,
    /// By a pointer through which nothing is written.
    Read,
    /// By a pointer through which it is written.
    Written,
}

/// A parameter of a function.
#[derive(Drop)]
pub struct CParameter {
    pub ty: CType,
    pub passing: Passing,
    pub name: Text,
}

/// Where a function is known, and whether it is `inline`.
#[derive(Clone, Copy)]
pub enum Linkage {
    External,
    Static,
    StaticInline,
}

/// The head of a function. One without a result is `void`.
#[derive(Drop)]
pub struct CHead {
    pub linkage: Linkage,
    pub result: Option<CType>,
    pub name: Text,
    pub parameters: List<CParameter>,
}

/// A function, with a comment above it if there is one.
#[derive(Drop)]
pub struct CFunction {
    pub comment: Option<Text>,
    pub head: CHead,
    pub body: List<CStm>,
}

/// A member of a struct or of a union.
#[derive(Drop)]
pub enum CMember {
    Comment(Text),
    Plain(CType, Text),
    /// An array of so many elements.
    Array(CType, Text, u64),
    Struct(List<CMember>, Text),
    Union(List<CMember>, Text),
}

/// A constant of an enumeration.
#[derive(Drop)]
pub struct CConstant {
    pub name: Text,
    pub value: u64,
}

/// A declaration, in the order of the file.
#[derive(Drop)]
pub enum CItem {
    /// A comment that begins a part of the file.
    Part(Text),
    Comment(Text),
    Enum(List<CConstant>),
    /// A further name of a type.
    Alias(CType, Text),
    /// A struct type.
    Struct(List<CMember>, Text),
    /// A static object of a type.
    Object(CType, Text),
    /// A static object that is a struct.
    StructObject(List<CMember>, Text),
    Prototype(CHead),
    Function(CFunction),
}

/// A C file: the comment at its head, the names of the headers that it includes, and its declarations.
#[derive(Drop)]
pub struct CProgram {
    pub comment: Text,
    pub headers: List<Text>,
    pub items: List<CItem>,
}
