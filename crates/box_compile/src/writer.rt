//! Instructions that are appended to a code.
ghost use Rattle.std.specs.Prelude.{◌≡◌, ◌+◌, ◌++◌, ◌≤◌, [], length, IfOk, IsTrue, None, Some, OnOk, ◌∷◌};
ghost use Rattle.box_code.specs.Words.{OperandsFit, StandsAt, path_of, words_of};
ghost use Rattle.box_compile.specs.inner.Emitted.{Emitted};
ghost use Rattle.box_compile.specs.inner.Parts.{StandsWithPath};

use box_code::{Code, Instr, Path};
use std::alloc::{AllocError, Global};
use std::marker::Model;

// The most words of an instruction before its path.
const MOST_WORDS: u64 = 3;

// The first number that has no room in the low operand of a word.
const LOW_OPERANDS: u32 = 0x100_0000;

/// A code to which instructions are appended while there is room.
#[derive(Drop)]
pub(crate) struct Writer {
    code: Code,
    room: u32,
}

impl Model for Writer {
    ghost use Rattle.std.specs.Prelude.{◌≡◌, ℕ, List};

    ghost Value = { List ℕ };

    ghost view = { λ writer. writer.code.words };

    ghost invariant = { λ writer. writer.code.room ≡ writer.room };
}

impl Writer {
    /// A writer with room for so many words, and for an instruction more.
    pub(crate) fn make(alloc: Global, words: u32) -> Result<Writer, AllocError>
        ensures { IfOk result (λ writer. writer ≡ []) }
    {
        let room = words.saturating_add(MOST_WORDS as u32);
        match Code::make(alloc, room) {
            Err(error) => Err(error),
            Ok(code) => Ok(Writer { code, room }),
        }
    }

    /// How many words there are.
    pub(crate) fn len(&self) -> u32
        ensures { result ≡ length self.now }
    {
        self.code.len()
    }

    /// Whether the place is the end of the words.
    pub(crate) fn reach(&self, place: u32) -> Result<(), AllocError>
        ensures { OnOk result (place ≡ length self.now) }
    {
        if self.code.len() != place {
            return Err(AllocError);
        }
        Ok(())
    }

    pub(crate) fn into_code(self) -> Code
        ensures { result.words ≡ self }
    {
        let Writer { code, .. } = self;
        code
    }

    /// Appends an instruction that has no path.
    #[tactic(auto, using(crate::proofs::Appending::instr_emitted))]
    pub(crate) fn emit(&mut self, instr: Instr) -> Result<(), AllocError>
        requires { path_of instr ≡ None }
        ensures { OnOk result (Emitted self.old self.new (λ code from to. StandsAt code from instr to)) }
    {
        match self.put(instr) {
            Err(error) => Err(error),
            Ok(()) => Ok(()),
        }
    }

    /// Appends an instruction whose path has these field numbers, and stands behind its first words.
    pub(crate) fn emit_at_path(
        &mut self,
        instr: Instr,
        path: Path,
        numbers: &[u32],
    ) -> Result<(), AllocError>
        requires path { path_of instr ≡ Some path }
        requires at { path.at ≡ length self.old + length (words_of instr) }
        requires long { path.length ≡ length numbers.now }
        ensures { OnOk result (Emitted self.old self.new (λ code from to. StandsWithPath code instr path numbers.now from to)) }
    {
        match self.put(instr) {
            Err(error) => Err(error),
            Ok(()) => self.put_fields(numbers),
        }
    }

    // Appends the field numbers of a path.
    fn put_fields(&mut self, numbers: &[u32]) -> Result<(), AllocError>
        ensures { OnOk result (self.new ≡ self.old ++ numbers.now) }
    {
        for number in numbers {
            self.put_field(*number)?;
        }
        Ok(())
    }

    fn put_field(&mut self, number: u32) -> Result<(), AllocError>
        ensures { OnOk result (self.new ≡ self.old ++ number ∷ []) }
    {
        if self.code.len() >= self.room {
            return Err(AllocError);
        }
        self.code.push_field(number);
        Ok(())
    }

    // Appends the first words of an instruction, if its operands fit.
    #[tactic(auto, using(crate::proofs::Appending::few_words))]
    fn put(&mut self, instr: Instr) -> Result<(), AllocError>
        ensures words { OnOk result (self.new ≡ self.old ++ words_of instr) }
        ensures fits { OnOk result (OperandsFit instr) }
    {
        if !is_fitting(instr) || u64::from(self.code.len()) + MOST_WORDS > u64::from(self.room) {
            return Err(AllocError);
        }
        self.code.push(instr);
        Ok(())
    }
}

// Whether each operand has no more bits than its part of a word.
fn is_fitting(instr: Instr) -> bool
    ensures { IsTrue result → OperandsFit instr }
{
    match instr {
        Instr::Make { count, .. } => count < LOW_OPERANDS,
        Instr::MatchWord { depth, .. } => depth < LOW_OPERANDS,
        Instr::MatchTag { depth, .. } => depth < LOW_OPERANDS,
        Instr::Field { depth, .. } => depth < LOW_OPERANDS,
        Instr::Call { count, .. } => count < LOW_OPERANDS,
        Instr::Return { count, .. } => count < LOW_OPERANDS,
        _ => true,
    }
}
