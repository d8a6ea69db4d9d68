//! The core: a checked program as data, in which every name has become a number.
use hume_base::{Box, List, Text, Ty, Types, Value};

/// An operation on words.
#[derive(Clone, Copy, Debug)]
pub enum Op {
    Add,
    Sub,
    Mul,
    Div,
    Mod,
    Neg,
    Not,
    /// From any `int` or `nat` to the type.
    Convert,
    Eq,
    Ne,
    Lt,
    Le,
    Gt,
    Ge,
}

/// Of which forms the values of a type are, as far as patterns can list them one by one.
#[derive(Clone, Copy, Debug)]
pub enum Forms {
    /// `true` and `false`.
    Truths,
    /// The constructors of a data type, by its number.
    Constructors(u32),
    /// More than patterns list.
    Others,
}

/// An expression. Variables are numbered from 0, outermost first. Parts stand in source order.
#[derive(Drop)]
pub enum Expr {
    Word(u64),
    Var(u32),
    /// A constructor, by its place in its data type.
    Con(u32, List<Expr>),
    Tuple(List<Expr>),
    Vect(List<Expr>),
    /// An operation at the type of its operands; `Convert` at that of its result.
    Prim(Op, Ty, List<Expr>),
    /// An element of a vector of so many, by its place from 1.
    Index(u32, Box<Expr>, Box<Expr>),
    /// A vector of so many with another element at a place from 1.
    Update(u32, Box<Expr>, Box<Expr>, Box<Expr>),
    If(Box<Expr>, Box<Expr>, Box<Expr>),
    /// The first alternative that the first part matches, whose values are of these forms.
    Case(Box<Expr>, Forms, List<(PatC, Expr)>),
    Let(Box<Expr>, Box<Expr>),
    Call(u32, List<Expr>),
    /// An exception, with what it carries.
    Raise(u32, Option<Box<Expr>>),
}

/// A pattern that a value must match. Its variables are numbered from left to right.
#[derive(Drop)]
pub enum PatC {
    Var,
    Any,
    Word(u64),
    Con(u32, List<PatC>),
    Tuple(List<PatC>),
}

/// What stands at an input position of a rule.
#[derive(Drop)]
pub enum InPat {
    /// `*`: needs no value and takes none.
    Star,
    /// `_*`: needs no value and takes one that is there.
    AnyStar,
    /// `_`: needs a value and takes it.
    Any,
    /// Needs a value that matches, and takes it.
    Built(PatC),
}

/// The result of a rule or of a handler.
#[derive(Drop)]
pub enum Res {
    /// One output each, or none where `*` stands.
    Outs(List<Option<Expr>>),
    If(Expr, Box<Res>, Box<Res>),
    Case(Expr, Forms, List<(PatC, Res)>),
    Let(Expr, Box<Res>),
    Raise(u32, Option<Expr>),
}

/// A rule of a box: what stands at each input, and its result.
#[derive(Drop)]
pub struct RuleC {
    pub pats: List<InPat>,
    pub result: Res,
}

/// What a box gives when a rule's result raises the exception.
#[derive(Drop)]
pub struct HandC {
    pub exn: u32,
    /// Whether the handler binds what the exception carries: its only variable.
    pub bound: bool,
    pub result: Res,
}

/// An input or an output of a box.
#[derive(Drop)]
pub struct PortC {
    pub name: Text,
    pub ty: Ty,
}

/// A box: its inputs and outputs, its rules in the order in which they are written, and its handlers.
#[derive(Drop)]
pub struct BoxC {
    pub name: Text,
    pub line: u32,
    /// The number of its declaration in the source, from 0.
    pub declaration: u32,
    pub ins: List<PortC>,
    pub outs: List<PortC>,
    pub fair: bool,
    pub rules: List<RuleC>,
    pub handlers: List<HandC>,
}

/// A stream, and the port that it is joined to.
#[derive(Drop)]
pub struct StreamC {
    pub name: Text,
    pub line: u32,
    /// The number of its declaration in the source, from 0.
    pub declaration: u32,
    /// The name of the port outside that the stream reads or writes.
    pub port: Text,
}

/// A box, a stream that comes in, or a stream that goes out.
#[derive(Drop)]
pub enum NodeC {
    Rules(BoxC),
    /// An input stream.
    From(StreamC),
    /// An output stream.
    To(StreamC),
}

/// A wire from an output of one node to an input of another, as their places in the node. That of a stream has place 0.
#[derive(Drop)]
pub struct WireC {
    pub line: u32,
    /// The number of its declaration in the source, from 0.
    pub declaration: u32,
    pub from: u32,
    pub from_port: u32,
    pub to: u32,
    pub to_port: u32,
    pub ty: Ty,
    /// How many values it holds at most.
    pub depth: u32,
    pub initial: Option<Value>,
}

/// An exception, with the type of what it carries.
#[derive(Drop)]
pub struct ExnDef {
    pub name: Text,
    pub carries: Option<Ty>,
}

/// An equation of a function: a pattern for each parameter, and its body.
#[derive(Drop)]
pub struct EqC {
    pub pats: List<PatC>,
    pub body: Expr,
}

/// A function: the types of its parameters and of what it gives, and its equations in the order in which they are tried.
#[derive(Drop)]
pub struct FunC {
    pub name: Text,
    pub line: u32,
    pub params: List<Ty>,
    pub gives: Ty,
    pub equations: List<EqC>,
}

/// Data types, exceptions and functions; boxes and streams, numbered from 0 in source order; and the wires that join
/// them. A function calls only functions of smaller numbers.
#[derive(Drop)]
pub struct Core {
    pub types: Types,
    /// `DivZero`, `Range` and `NoCase` first.
    pub exns: List<ExnDef>,
    pub funs: List<FunC>,
    pub nodes: List<NodeC>,
    pub wires: List<WireC>,
}
