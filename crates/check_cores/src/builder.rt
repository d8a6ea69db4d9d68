ghost use Rattle.std.specs.Prelude.{◌≡◌, [], ◌∷◌, take, drop, reverse, OnOk, IfOk};
ghost use Rattle.check_typing.specs.Cores.{Cored, truth_core, letter_core, variable_core, raise_core, let_core, if_core, and_core, or_core, operation_core, neg_core, not_core, convert_core, index_core, update_core, case_core, raise_with_core, call_core, con_core, tuple_core, vector_core};
ghost use Rattle.typed_core.specs.declared.typed_tree.TypedExpr.{Word as WordCore};
ghost use Rattle.check_cores.specs.Stacks.{top_core, top_pattern, lifted};

use crate::stack::Stack;
use crate::{forms, gather};
use hume_base::{Box, Shared, Ty};
use hume_model::{Op, PatC};
use std::alloc::{AllocError, Global};
use std::marker::Model;
use typed_core::TypedExpr;

/// An alternative: its pattern and its body, each with whether a literal in it is out of range.
pub(crate) type Arm = ((PatC, bool), (Box<TypedExpr>, bool));

/// Cores of expressions, of patterns and of alternatives that wait to become parts of larger ones. What finds too few of them is answered with
/// want of memory.
#[derive(Drop)]
pub struct Builder {
    pub(crate) cores: Stack<(Box<TypedExpr>, bool)>,
    pub(crate) patterns: Stack<(PatC, bool)>,
    arms: Stack<Arm>,
}

impl Model for Builder {
    ghost use Rattle.std.specs.Prelude.{List, Bool};
    ghost use Rattle.std.specs.Coded.{codes};
    ghost use Rattle.typed_core.specs.declared.typed_tree.TypedExpr.{TypedExpr};
    ghost use Rattle.hume_model.specs.declared.core_tree.PatC.{PatC};
    ghost use Rattle.typed_core.specs.contracts.typed_tree.TypedExpr as expr;
    ghost use Rattle.hume_model.specs.contracts.core_tree.PatC as pat;

    ghost Value = { List (TypedExpr × Bool) × List (PatC × Bool) × List ((PatC × Bool) × (TypedExpr × Bool)) };

    ghost coded = { Prim.hlevel (codes, expr.the_row.coded, pat.the_row.coded) };

    ghost view = { λ builder. (builder.cores, builder.patterns, builder.arms) };
}

impl Builder {
    pub fn new(alloc: Global) -> Builder
        ensures { result ≡ ([], [], []) }
    {
        Builder {
            cores: Stack::new(alloc),
            patterns: Stack::new(alloc),
            arms: Stack::new(alloc),
        }
    }

    /// A literal's word, and whether it is out of the range of its type.
    pub fn word(&mut self, word: u64, too_wide: bool) -> Result<(), AllocError>
        ensures { OnOk result (self.new ≡ ((WordCore word, too_wide) ∷ self.old.0, self.old.1, self.old.2)) }
    {
        let alloc = self.cores.alloc();
        forms::put(alloc, &mut self.cores, TypedExpr::Word(word), too_wide)
    }

    pub fn variable(&mut self, number: u32) -> Result<(), AllocError>
        ensures { OnOk result (self.new ≡ (variable_core number ∷ self.old.0, self.old.1, self.old.2)) }
    {
        let alloc = self.cores.alloc();
        forms::put(alloc, &mut self.cores, TypedExpr::Var(number), false)
    }

    /// An exception that carries nothing.
    pub fn raise(&mut self, exn: u32) -> Result<(), AllocError>
        ensures { OnOk result (self.new ≡ (raise_core exn ∷ self.old.0, self.old.1, self.old.2)) }
    {
        let alloc = self.cores.alloc();
        forms::put(alloc, &mut self.cores, TypedExpr::Raise(exn, None), false)
    }

    /// An exception that carries the last core.
    pub fn raise_with(&mut self, alloc: Global, exn: u32) -> Result<(), AllocError>
        ensures { OnOk result (self.new ≡ (raise_with_core exn (top_core self.old.0) ∷ drop 1 self.old.0, self.old.1, self.old.2)) }
    {
        forms::raise_with(alloc, &mut self.cores, exn)
    }

    /// A `let` of the last two cores, of which the first has the type.
    pub fn binding(&mut self, alloc: Global, of: Shared<Ty>) -> Result<(), AllocError>
        ensures { OnOk result (self.new ≡ (let_core of (top_core (drop 1 self.old.0)) (top_core self.old.0) ∷ drop 2 self.old.0, self.old.1, self.old.2)) }
    {
        forms::binding(alloc, &mut self.cores, of)
    }

    /// An `if` of the last three cores.
    pub fn branches(&mut self, alloc: Global) -> Result<(), AllocError>
        ensures { OnOk result (self.new ≡ (
          if_core (top_core (drop 2 self.old.0)) (top_core (drop 1 self.old.0)) (top_core self.old.0)
              ∷ drop 3 self.old.0,
          self.old.1,
          self.old.2,
        )) }
    {
        forms::branches(alloc, &mut self.cores)
    }

    /// An `and` of the last two cores.
    pub fn both(&mut self, alloc: Global) -> Result<(), AllocError>
        ensures { OnOk result (self.new ≡ (and_core (top_core (drop 1 self.old.0)) (top_core self.old.0) ∷ drop 2 self.old.0, self.old.1, self.old.2)) }
    {
        forms::both(alloc, &mut self.cores)
    }

    /// An `or` of the last two cores.
    pub fn either(&mut self, alloc: Global) -> Result<(), AllocError>
        ensures { OnOk result (self.new ≡ (or_core (top_core (drop 1 self.old.0)) (top_core self.old.0) ∷ drop 2 self.old.0, self.old.1, self.old.2)) }
    {
        forms::either(alloc, &mut self.cores)
    }

    /// An operation on the last two cores.
    pub fn operation(&mut self, alloc: Global, operation: Op, ty: Ty) -> Result<(), AllocError>
        ensures { OnOk result (self.new ≡ (
          operation_core operation ty (top_core (drop 1 self.old.0)) (top_core self.old.0)
              ∷ drop 2 self.old.0,
          self.old.1,
          self.old.2,
        )) }
    {
        forms::operation(alloc, &mut self.cores, operation, ty)
    }

    /// The negation of the last core.
    pub fn negation(&mut self, alloc: Global, ty: Ty) -> Result<(), AllocError>
        ensures { OnOk result (self.new ≡ (neg_core ty (top_core self.old.0) ∷ drop 1 self.old.0, self.old.1, self.old.2)) }
    {
        forms::applied(alloc, &mut self.cores, Op::Neg, ty)
    }

    /// What isn't so where the last core is.
    pub fn opposite(&mut self, alloc: Global) -> Result<(), AllocError>
        ensures { OnOk result (self.new ≡ (not_core (top_core self.old.0) ∷ drop 1 self.old.0, self.old.1, self.old.2)) }
    {
        forms::applied(alloc, &mut self.cores, Op::Not, Ty::Bool)
    }

    /// The last core, a number of the first type, as one of the second.
    pub fn conversion(&mut self, alloc: Global, from: Ty, to: Ty) -> Result<(), AllocError>
        ensures { OnOk result (self.new ≡ (convert_core from to (top_core self.old.0) ∷ drop 1 self.old.0, self.old.1, self.old.2)) }
    {
        forms::conversion(alloc, &mut self.cores, from, to)
    }

    /// An element of a vector of the first type, at a place of the second.
    pub fn element(&mut self, alloc: Global, of: Shared<Ty>, places: Ty) -> Result<(), AllocError>
        ensures { OnOk result (self.new ≡ (
          index_core of places (top_core (drop 1 self.old.0)) (top_core self.old.0)
              ∷ drop 2 self.old.0,
          self.old.1,
          self.old.2,
        )) }
    {
        forms::element(alloc, &mut self.cores, of, places)
    }

    /// A vector of the first type with another element, at a place of the second.
    pub fn update(&mut self, alloc: Global, of: Shared<Ty>, places: Ty) -> Result<(), AllocError>
        ensures { OnOk result (self.new ≡ (
          update_core of places (top_core (drop 2 self.old.0)) (top_core (drop 1 self.old.0)) (top_core self.old.0)
              ∷ drop 3 self.old.0,
          self.old.1,
          self.old.2,
        )) }
    {
        forms::update(alloc, &mut self.cores, of, places)
    }

    /// A call of a function with the last cores.
    pub fn call(&mut self, alloc: Global, number: u32, count: usize) -> Result<(), AllocError>
        ensures { OnOk result (self.new ≡ (call_core number (reverse (take count self.old.0)) ∷ drop count self.old.0, self.old.1, self.old.2)) }
    {
        let (parts, too_wide) = gather::cores(alloc, &mut self.cores, count)?;
        forms::put(
            alloc,
            &mut self.cores,
            TypedExpr::Call(number, parts),
            too_wide,
        )
    }

    /// A constructor of the last cores.
    pub fn constructor(&mut self, alloc: Global, place: u32, count: usize) -> Result<(), AllocError>
        ensures { OnOk result (self.new ≡ (con_core place (reverse (take count self.old.0)) ∷ drop count self.old.0, self.old.1, self.old.2)) }
    {
        let (parts, too_wide) = gather::cores(alloc, &mut self.cores, count)?;
        forms::put(
            alloc,
            &mut self.cores,
            TypedExpr::Con(place, parts),
            too_wide,
        )
    }

    /// A tuple of the last cores.
    pub fn tuple(&mut self, alloc: Global, count: usize) -> Result<(), AllocError>
        ensures { OnOk result (self.new ≡ (tuple_core (reverse (take count self.old.0)) ∷ drop count self.old.0, self.old.1, self.old.2)) }
    {
        let (parts, too_wide) = gather::cores(alloc, &mut self.cores, count)?;
        forms::put(alloc, &mut self.cores, TypedExpr::Tuple(parts), too_wide)
    }

    /// A vector of the last cores.
    pub fn vector(&mut self, alloc: Global, count: usize) -> Result<(), AllocError>
        ensures { OnOk result (self.new ≡ (vector_core (reverse (take count self.old.0)) ∷ drop count self.old.0, self.old.1, self.old.2)) }
    {
        let (parts, too_wide) = gather::cores(alloc, &mut self.cores, count)?;
        forms::put(alloc, &mut self.cores, TypedExpr::Vect(parts), too_wide)
    }

    /// An alternative of the last pattern and the last core.
    pub fn arm(&mut self) -> Result<(), AllocError>
        ensures { OnOk result (self.new ≡ (drop 1 self.old.0, drop 1 self.old.1, (top_pattern self.old.1, top_core self.old.0) ∷ self.old.2)) }
    {
        let Some(pattern) = self.patterns.pop() else {
            return Err(AllocError);
        };
        let body = forms::last(&mut self.cores)?;
        self.arms.push((pattern, body))
    }

    /// A `case` of the last core, which has the type, with the last alternatives.
    pub fn alternatives(
        &mut self,
        alloc: Global,
        of: Shared<Ty>,
        count: usize,
    ) -> Result<(), AllocError>
        ensures { OnOk result (self.new ≡ (
          case_core of (top_core self.old.0) (reverse (take count self.old.2))
              ∷ drop 1 self.old.0,
          self.old.1,
          drop count self.old.2,
        )) }
    {
        let arms = gather::arms(alloc, &mut self.arms, count)?;
        forms::alternatives(alloc, &mut self.cores, of, arms)
    }

    /// Takes the last core out.
    pub fn take_core(&mut self) -> Result<(Box<TypedExpr>, bool), AllocError>
        ensures taken { IfOk result (λ core. core ≡ top_core self.old.0) }
        ensures left { OnOk result (self.new ≡ (drop 1 self.old.0, self.old.1, self.old.2)) }
    {
        forms::last(&mut self.cores)
    }

    /// Moves the core below so many others to the end.
    pub fn lift(&mut self, others: usize) -> Result<(), AllocError>
        ensures { OnOk result (self.new ≡ (lifted others self.old.0, self.old.1, self.old.2)) }
    {
        self.cores.lift(others)
    }

    /// Moves the alternative below so many others to the end.
    pub fn lift_arm(&mut self, others: usize) -> Result<(), AllocError>
        ensures { OnOk result (self.new ≡ (self.old.0, self.old.1, lifted others self.old.2)) }
    {
        self.arms.lift(others)
    }
}
