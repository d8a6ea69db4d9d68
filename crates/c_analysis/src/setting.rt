//! What expressions are written by.
ghost use Rattle.std.specs.Prelude.{◌≡◌, MatchOption, None, Some};
ghost use Rattle.c_analysis.specs.Targets.{target, known, is_number, sum_of, con_of, callee_of, gives_value};

use c_names::Names;
use c_types::CTypes;
use hume_base::{ConDef, List, SumDef, Text, Ty, Types};
use hume_model::{Core, FunC};
use std::alloc::Global;

/// A function of the file: its name, whether it may raise, whether it may give a value, and which of its parameters it uses.
#[derive(Drop)]
pub struct Called {
    pub name: Text,
    pub raises: bool,
    pub gives: bool,
    pub used: List<bool>,
}

/// A function that is written already, in the core and in the file.
#[derive(Clone, Copy)]
pub struct Callee<'a> {
    pub function: &'a FunC,
    pub called: &'a Called,
}

/// The core, its types in C, and the functions that are written already.
#[derive(Clone, Copy)]
pub struct Setting<'a> {
    pub alloc: Global,
    pub core: &'a Core,
    pub types: &'a CTypes<'a>,
    pub called: &'a [Called],
}

impl<'a> Setting<'a> {
    pub fn names(self) -> &'a Names
        ensures { result.now ≡ (target self.entry).file.names }
    {
        self.types.names()
    }

    pub fn data(self) -> &'a Types
        ensures { result.now ≡ (target self.entry).file.types }
    {
        self.types.types()
    }

    pub fn is_scalar(self, ty: &Ty) -> bool
        ensures { result ≡ is_number (target self.entry) ty.now }
    {
        c_types::is_scalar(self.data(), ty)
    }

    pub fn sum(self, ty: &Ty) -> Option<&'a SumDef>
        ensures { MatchOption result (sum_of (target self.entry) ty.now ≡ None) (λ sum. sum_of (target self.entry) ty.now ≡ Some sum.now) }
    {
        match ty {
            Ty::Named(number) => self.data().sums.get(*number as usize),
            _ => None,
        }
    }

    pub fn con(self, ty: &Ty, place: u32) -> Option<&'a ConDef>
        ensures { MatchOption result (con_of (target self.entry) ty.now place ≡ None) (λ con. con_of (target self.entry) ty.now place ≡ Some con.now) }
    {
        match self.sum(ty) {
            Some(sum) => sum.cons.get(place as usize),
            None => None,
        }
    }

    pub fn callee(self, number: u32) -> Option<Callee<'a>>
        ensures { MatchOption result (callee_of (target self.entry) number ≡ None) (λ callee. callee_of (target self.entry) number ≡ Some (known callee)) }
    {
        match (
            self.core.funs.get(number as usize),
            self.called.get(number as usize),
        ) {
            (Some(function), Some(called)) => Some(Callee { function, called }),
            _ => None,
        }
    }

    /// Whether the function gives its result as a value of C, and not through a pointer.
    pub fn gives_value(self, callee: Callee) -> bool
        ensures { result ≡ gives_value (target self.entry) (known callee.entry) }
    {
        !callee.called.raises && self.is_scalar(&callee.function.gives)
    }
}
