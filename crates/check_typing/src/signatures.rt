//! What expressions may use.
use hume_base::{List, Shared, Text, Ty, Types};
use hume_model::ExnDef;

/// A function, with the types of its parameters and of what it gives.
#[derive(Drop)]
pub struct Signature {
    pub name: Text,
    pub params: List<Shared<Ty>>,
    pub gives: Ty,
}

/// The data types, exceptions and functions, each in the order of its numbers.
#[derive(Drop)]
pub struct Signatures {
    pub types: Types,
    pub exns: List<ExnDef>,
    pub funs: List<Signature>,
}
