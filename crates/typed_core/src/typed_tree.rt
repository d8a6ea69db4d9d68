//! Typed trees. They have the forms of `Expr` and `Res`, with the types that the core leaves out.
//!
//! A part's type follows from that of the whole, but for what `let` binds, what `case` looks at, what an element is taken from,
//! and the operands of operations: these are said.
use hume_base::{Box, List, Shared, Ty};
use hume_model::{InPat, Op, PatC};

/// An expression. Variables are numbered from 0, outermost first. Parts stand in source order.
#[derive(Drop)]
pub enum TypedExpr {
    Word(u64),
    Var(u32),
    /// A constructor, by its place in its data type.
    Con(u32, List<TypedExpr>),
    Tuple(List<TypedExpr>),
    Vect(List<TypedExpr>),
    /// An operation other than `Convert`, at the type of its operands.
    Prim(Op, Ty, List<TypedExpr>),
    /// A number of the first type as one of the second.
    Convert(Ty, Ty, Box<TypedExpr>),
    /// An element of a vector of the first type, at a place of the second.
    Index(Shared<Ty>, Ty, Box<TypedExpr>, Box<TypedExpr>),
    /// A vector of the first type with another element, at a place of the second.
    Update(Shared<Ty>, Ty, Box<TypedExpr>, Box<TypedExpr>, Box<TypedExpr>),
    If(Box<TypedExpr>, Box<TypedExpr>, Box<TypedExpr>),
    /// The first alternative that a part of the type matches.
    Case(Shared<Ty>, Box<TypedExpr>, List<(PatC, TypedExpr)>),
    /// The first part, which is of the type, is the next variable of the second.
    Let(Shared<Ty>, Box<TypedExpr>, Box<TypedExpr>),
    Call(u32, List<TypedExpr>),
    /// An exception, with what it carries.
    Raise(u32, Option<Box<TypedExpr>>),
}

/// The result of a rule or of a handler.
#[derive(Drop)]
pub enum TypedResult {
    /// One output each, or none where `*` stands.
    Outs(List<Option<TypedExpr>>),
    If(TypedExpr, Box<TypedResult>, Box<TypedResult>),
    /// The first alternative that an expression of the type matches.
    Case(Shared<Ty>, TypedExpr, List<(PatC, TypedResult)>),
    /// The expression, which is of the type, is the next variable of the result.
    Let(Shared<Ty>, TypedExpr, Box<TypedResult>),
    Raise(u32, Option<TypedExpr>),
}

/// An equation of a function: a pattern for each parameter, and its body.
#[derive(Drop)]
pub struct TypedEquation {
    pub pats: List<PatC>,
    pub body: TypedExpr,
}

/// A rule of a box: what stands at each input, and its result.
#[derive(Drop)]
pub struct TypedRule {
    pub pats: List<InPat>,
    pub result: TypedResult,
}

/// What a box gives when a rule's result raises the exception.
#[derive(Drop)]
pub struct TypedHandler {
    pub exn: u32,
    /// Whether the handler binds what the exception carries: its only variable.
    pub bound: bool,
    pub result: TypedResult,
}

/// The trees of a declaration.
#[derive(Drop)]
pub enum TypedDeclaration {
    /// Those of the equations of a function.
    Equations(List<TypedEquation>),
    /// Those of the rules and of the handlers of a box.
    Rules(List<TypedRule>, List<TypedHandler>),
    /// A data type, an exception, a stream and a wire have none.
    NoTrees,
}
