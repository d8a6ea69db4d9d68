//! The typed trees of a core.
use crate::typed_tree::{TypedEquation, TypedHandler, TypedRule};
use hume_base::List;

/// The trees of a core: those of its functions and those of its boxes, each in the order of the core.
#[derive(Drop)]
pub struct Trees {
    pub functions: List<List<TypedEquation>>,
    pub boxes: List<BoxTrees>,
}

/// The trees of the rules and of the handlers of a box.
#[derive(Drop)]
pub struct BoxTrees {
    pub rules: List<TypedRule>,
    pub handlers: List<TypedHandler>,
}
