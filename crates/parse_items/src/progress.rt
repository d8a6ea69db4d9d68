//! What is gathered so far.
ghost use Rattle.std.specs.Prelude.{◌≡◌, [], None, IfOk};
ghost use Rattle.parse_items.specs.inner.Items.{seen_item, seen_expecting};
ghost use Rattle.parse_items.specs.inner.Progress.{place_behind, with_equation, took, closed};
ghost use Rattle.parse_readers.specs.inner.Items.{Whole};

use crate::items::{Expecting, Item};
use hume_ast::{Decl, Exp, Pat, TyExp};
use hume_base::{List, Text};
use std::alloc::{AllocError, Global};

/// A function whose equations are still read, with the place of its signature.
#[derive(Drop)]
pub struct OpenFunction {
    pub place: u32,
    pub name: Text,
    pub types: List<TyExp>,
    pub equations: List<(Text, List<Pat>, Exp)>,
}

/// What is read so far: declarations with their places, and the function whose equations are still read.
#[derive(Drop)]
pub struct Progress {
    pub decls: List<(u32, Decl)>,
    pub function: Option<OpenFunction>,
}

impl Progress {
    /// Where nothing is read.
    pub fn begin(alloc: Global) -> Progress
        ensures { result ≡ record { decls = []; function = None } }
    {
        Progress {
            decls: List::new(alloc),
            function: None,
        }
    }

    /// What may come next.
    pub fn expecting(&self) -> Expecting
        ensures { seen_expecting result ≡ place_behind self.now.function }
    {
        match &self.function {
            None => Expecting::Declaration,
            Some(function) => {
                if function.equations.is_empty() {
                    Expecting::Equation
                } else {
                    Expecting::Either
                }
            }
        }
    }

    /// The progress behind one more item, which begins at the place, in bytes.
    pub fn take(self, alloc: Global, place: u32, item: Item) -> Result<Progress, AllocError>
        ensures { IfOk result (λ after. after ≡ took place (seen_item item) self) }
    {
        match item {
            Item::Declared(decl) => self.take_declaration(place, decl),
            Item::Signature(name, types) => {
                let decls = self.close()?;
                let equations = List::new(alloc);
                let function = OpenFunction {
                    place,
                    name,
                    types,
                    equations,
                };
                Ok(Progress {
                    decls,
                    function: Some(function),
                })
            }
            Item::Equation(name, patterns, exp) => {
                let Progress { decls, function } = self;
                let function = take_equation(function, (name, patterns, exp))?;
                Ok(Progress { decls, function })
            }
        }
    }

    fn take_declaration(self, place: u32, decl: Decl) -> Result<Progress, AllocError>
        ensures { IfOk result (λ after. after ≡ took place (Whole decl) self) }
    {
        let Ok(mut decls) = self.close() else {
            drop(decl);
            return Err(AllocError);
        };
        decls.push((place, decl))?;
        Ok(Progress {
            decls,
            function: None,
        })
    }

    /// The declarations with their places, where no more equations come.
    pub fn close(self) -> Result<List<(u32, Decl)>, AllocError>
        ensures { IfOk result (λ decls. decls ≡ closed self) }
    {
        let Progress {
            mut decls,
            function,
        } = self;
        if let Some(
            OpenFunction {
                place,
                name,
                types,
                equations,
            },
        ) = function
        {
            decls.push((place, Decl::Fun(name, types, equations)))?;
        }
        Ok(decls)
    }
}

fn take_equation(
    function: Option<OpenFunction>,
    equation: (Text, List<Pat>, Exp),
) -> Result<Option<OpenFunction>, AllocError>
    ensures { IfOk result (λ after. after ≡ with_equation equation function) }
{
    let Some(function) = function else {
        drop(equation);
        return Ok(None);
    };
    let OpenFunction {
        place,
        name,
        types,
        mut equations,
    } = function;
    equations.push(equation)?;
    Ok(Some(OpenFunction {
        place,
        name,
        types,
        equations,
    }))
}
