ghost use Rattle.std.specs.Prelude.{◌≡◌, ◌+◌, ◌<◌, ◌^◌, [], if◌then◌else◌};
ghost use Rattle.check_counts.specs.Limits.{is_full_for as full_for, tally_of};
ghost use Rattle.check_counts.specs.inner.Tallies.{with_one, IsSmall};

use hume_ast::Decl;
use hume_base::limits::{MAX_DECLARED_EXCEPTIONS, MAX_FUNCTIONS, MAX_NODES, MAX_WIRES};

/// How many declarations there are of each kind that has a limit.
#[derive(Clone, Copy)]
pub struct Tally {
    pub functions: usize,
    pub exceptions: usize,
    /// Boxes and streams.
    pub nodes: usize,
    pub wires: usize,
}

impl Tally {
    pub(crate) fn none() -> Tally
        ensures { result ≡ tally_of [] }
    {
        Tally {
            functions: 0,
            exceptions: 0,
            nodes: 0,
            wires: 0,
        }
    }

    /// Whether there are as many already as there may be of what the declaration declares.
    pub(crate) fn is_full_for(&self, decl: &Decl) -> bool
        ensures { result ≡ full_for self.now decl.now }
    {
        match decl {
            Decl::Sum(_, _) => false,
            Decl::Exn(_, _) => self.exceptions >= MAX_DECLARED_EXCEPTIONS,
            Decl::Fun(_, _, _) => self.functions >= MAX_FUNCTIONS,
            Decl::BoxD(_, _, _, _, _, _) => self.nodes >= MAX_NODES,
            Decl::Stream(_, _, _) => self.nodes >= MAX_NODES,
            Decl::Wire(_, _, _, _) => self.wires >= MAX_WIRES,
        }
    }

    pub(crate) fn add(&mut self, decl: &Decl)
        requires { IsSmall self.old }
        ensures { self.new ≡ with_one self.old decl.now }
    {
        match decl {
            Decl::Sum(_, _) => {}
            Decl::Exn(_, _) => self.exceptions += 1,
            Decl::Fun(_, _, _) => self.functions += 1,
            Decl::BoxD(_, _, _, _, _, _) => self.nodes += 1,
            Decl::Stream(_, _, _) => self.nodes += 1,
            Decl::Wire(_, _, _, _) => self.wires += 1,
        }
    }
}
