//! What a statement takes: its variables, and its deepest call.
ghost use Rattle.std.specs.Prelude.{◌≡◌};
ghost use Rattle.c_sizes.specs.Frames.{also, calling, deeper, depth, function_called, is_deeper, no_call, no_frame, variable};

use crate::bytes::Bytes;
use crate::layout::{Types, type_layout};
use crate::table::Table;
use c_tree::CType;

/// The deepest of some calls: what their variables take at most, and the number of the function of the deepest, or 0.
#[derive(Clone, Copy)]
pub(crate) struct Deepest {
    pub(crate) bytes: Bytes,
    pub(crate) function: usize,
}

/// The functions that a file has defined so far, each with its depth.
pub(crate) type Functions<'a> = Table<'a, Deepest>;

impl Deepest {
    pub(crate) fn no_call() -> Deepest
        ensures { result ≡ no_call }
    {
        Deepest {
            bytes: Bytes::same(0),
            function: 0,
        }
    }

    fn is_deeper(self, second: Deepest) -> bool
        ensures { result ≡ is_deeper self second }
    {
        self.function == 0 || self.bytes.eight < second.bytes.eight
    }

    pub(crate) fn deeper(self, second: Deepest) -> Deepest
        ensures { result ≡ deeper self second }
    {
        Deepest {
            bytes: self.bytes.greatest(second.bytes),
            function: if self.is_deeper(second) {
                second.function
            } else {
                self.function
            },
        }
    }
}

pub(crate) fn function_called(functions: &Functions, name: &[u8]) -> Deepest
    ensures { result ≡ function_called functions.now name.now }
{
    functions.find(name).unwrap_or(Deepest::no_call())
}

/// The bytes of the variables of statements, and their deepest call.
#[derive(Clone, Copy)]
pub(crate) struct Frame {
    pub(crate) variables: Bytes,
    pub(crate) calls: Deepest,
}

impl Frame {
    pub(crate) fn nothing() -> Frame
        ensures { result ≡ no_frame }
    {
        Frame {
            variables: Bytes::same(0),
            calls: Deepest::no_call(),
        }
    }

    pub(crate) fn variable(types: &Types, ty: &CType) -> Frame
        ensures { result ≡ variable types.now ty.now }
    {
        Frame {
            variables: type_layout(types, ty).size,
            calls: Deepest::no_call(),
        }
    }

    pub(crate) fn calling(calls: Deepest) -> Frame
        ensures { result ≡ calling calls }
    {
        Frame {
            variables: Bytes::same(0),
            calls,
        }
    }

    pub(crate) fn also(self, second: Frame) -> Frame
        ensures { result ≡ also self second }
    {
        Frame {
            variables: self.variables.plus(second.variables),
            calls: self.calls.deeper(second.calls),
        }
    }

    pub(crate) fn depth(self) -> Bytes
        ensures { result ≡ depth self }
    {
        self.variables.plus(self.calls.bytes)
    }
}
