//! Which type of C a type is, and the declarations of those that a file needs.
//!
//! A number, a letter, a truth value, and a value of a data type without fields is a scalar of C. Other data types are structs: of
//! their fields where there is one constructor, and else of a tag and a union of the fields of each constructor. A tuple is a
//! struct of its parts, a vector one of an array.
//!
//! Main calls: `CTypes::add` takes a type in, and first those that it is made of; `CTypes::c_type` says which type of C it is, and
//! `CTypes::items` declares those that were taken in (`Gathered.antt`, `Declarations.antt`). `literal` writes a word of a scalar
//! type (`Shapes.antt`, `Widths.antt`).
//!
//! Proved: a type is taken in once, behind those that it is made of; types of C, constants, declarations, forms, widths and
//! literals are exactly those that are defined, if memory doesn't run out.
//!
//! It knows types and names. It doesn't know cores, or which types a program has.
#![tactic(auto)]

mod declarations;
mod gathered;
mod shapes;

pub use gathered::CTypes;
pub use shapes::{Shape, is_scalar, literal, scalar_width, shape_of, tag_width, width_of};
