//! What becomes of the last patterns of a stack.
ghost use Rattle.std.specs.Prelude.{◌≡◌, ◌∷◌, false, take, drop, reverse, OnOk, IfOk};
ghost use Rattle.hume_model.specs.declared.core_tree.PatC.{Var as AnyName, Any as AnyValue, Word as WordPat, Con as ConPat, Tuple as TuplePat};
ghost use Rattle.check_typing.specs.Patterns.{pat_cores, some_pat_too_wide};
ghost use Rattle.check_cores.specs.Stacks.{top_pattern};

use crate::builder::Builder;
use crate::gather;
use hume_base::List;
use hume_model::PatC;
use std::alloc::{AllocError, Global};

impl Builder {
    /// A pattern that binds a variable.
    pub fn any_name(&mut self) -> Result<(), AllocError>
        ensures { OnOk result (self.new ≡ (self.old.0, (AnyName, false) ∷ self.old.1, self.old.2)) }
    {
        self.patterns.push((PatC::Var, false))?;
        Ok(())
    }

    /// A pattern that anything matches.
    pub fn any_value(&mut self) -> Result<(), AllocError>
        ensures { OnOk result (self.new ≡ (self.old.0, (AnyValue, false) ∷ self.old.1, self.old.2)) }
    {
        self.patterns.push((PatC::Any, false))?;
        Ok(())
    }

    /// A pattern that one word matches, and whether it is a literal out of the range of its type.
    pub fn same_word(&mut self, word: u64, too_wide: bool) -> Result<(), AllocError>
        ensures { OnOk result (self.new ≡ (self.old.0, (WordPat word, too_wide) ∷ self.old.1, self.old.2)) }
    {
        self.patterns.push((PatC::Word(word), too_wide))?;
        Ok(())
    }

    /// A pattern of a constructor with the last patterns.
    pub fn same_constructor(
        &mut self,
        alloc: Global,
        place: u32,
        count: usize,
    ) -> Result<(), AllocError>
        ensures { OnOk result (self.new ≡ (
          self.old.0,
          (
            ConPat place (pat_cores (reverse (take count self.old.1))),
            some_pat_too_wide
                (reverse (take count self.old.1)),
          ) ∷ drop count self.old.1,
          self.old.2,
        )) }
    {
        let (parts, too_wide) = gather::patterns(alloc, &mut self.patterns, count)?;
        self.patterns.push((PatC::Con(place, parts), too_wide))?;
        Ok(())
    }

    /// A pattern of a tuple of the last patterns.
    pub fn same_tuple(&mut self, alloc: Global, count: usize) -> Result<(), AllocError>
        ensures { OnOk result (self.new ≡ (
          self.old.0,
          (
            TuplePat (pat_cores (reverse (take count self.old.1))),
            some_pat_too_wide
                (reverse (take count self.old.1)),
          ) ∷ drop count self.old.1,
          self.old.2,
        )) }
    {
        let (parts, too_wide) = gather::patterns(alloc, &mut self.patterns, count)?;
        self.patterns.push((PatC::Tuple(parts), too_wide))?;
        Ok(())
    }

    /// Takes the last pattern out.
    pub fn take_pattern(&mut self) -> Result<(PatC, bool), AllocError>
        ensures taken { IfOk result (λ pattern. pattern ≡ top_pattern self.old.1) }
        ensures left { OnOk result (self.new ≡ (self.old.0, drop 1 self.old.1, self.old.2)) }
    {
        match self.patterns.pop() {
            None => Err(AllocError),
            Some(pattern) => Ok(pattern),
        }
    }

    /// Takes the last patterns out, with whether a literal in one of them is out of range.
    pub fn take_patterns(
        &mut self,
        alloc: Global,
        count: usize,
    ) -> Result<(List<PatC>, bool), AllocError>
        ensures taken { IfOk result (λ all. all ≡ (pat_cores (reverse (take count self.old.1)), some_pat_too_wide (reverse (take count self.old.1)))) }
        ensures left { OnOk result (self.new ≡ (self.old.0, drop count self.old.1, self.old.2)) }
    {
        let all = gather::patterns(alloc, &mut self.patterns, count)?;
        Ok(all)
    }
}
