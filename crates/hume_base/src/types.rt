//! Types and values.
use crate::list::List;
use crate::shared::Shared;
use crate::text::Text;

/// A type.
#[derive(Drop)]
pub enum Ty {
    Bool,
    Char,
    /// Whole numbers of so many bits, of either sign.
    Int(u8),
    /// Whole numbers of so many bits from 0 on.
    Nat(u8),
    Tuple(List<Shared<Ty>>),
    /// So many elements of one type.
    Vector(u32, Shared<Ty>),
    /// A data type, by its number.
    Named(u32),
}

/// A value.
#[derive(Debug, PartialEq, Eq, Drop)]
pub enum Value {
    /// A `bool` as 0 or 1, a `char` as its byte, a `nat` as itself, an `int` in two's complement extended to 64 bits.
    Word(u64),
    Tuple(List<Value>),
    Vector(List<Value>),
    /// A constructor, by its place in its data type, with its fields.
    Con(u32, List<Value>),
}

/// A constructor of a data type.
#[derive(Drop)]
pub struct ConDef {
    pub name: Text,
    pub fields: List<Shared<Ty>>,
}

/// A data type.
#[derive(Drop)]
pub struct SumDef {
    pub name: Text,
    pub cons: List<ConDef>,
    /// The size of its values in words, at most 1,025.
    pub words: u32,
}

/// The data types, each of which holds only those of smaller numbers.
#[derive(Drop)]
pub struct Types {
    pub sums: List<SumDef>,
}
