//! The words of instructions.
ghost use Rattle.std.specs.Prelude.{◌≡◌, ◌<◌, ◌≤◌, ◌+◌, ◌++◌, ◌∷◌, [], length, IfOk};
ghost use Rattle.box_code.specs.Words.{OperandsFit, words_of};

use crate::heads::head_word;
use crate::instr::Instr;
use std::alloc::{AllocError, Global};
use std::marker::Model;

/// Instructions and the field numbers of their paths, in a room that is taken when it is made.
#[derive(Drop)]
pub struct Code {
    words: Vec<u64>,
    used: usize,
}

impl Model for Code {
    ghost use Rattle.std.specs.Prelude.{length, take, ◌≤◌};
    ghost use Rattle.box_code.specs.Codes.{CodeView};

    ghost Value = { CodeView };

    ghost view = { λ code. record { words = take code.used code.words.items; room = length code.words.items } };

    ghost invariant = { λ code. (code.used ≤ length code.words.items) × (length code.words.items ≤ 4294967295) };
}

impl Code {
    /// A code without instructions that has room for so many words.
    pub fn make(alloc: Global, words: u32) -> Result<Code, AllocError>
        ensures { IfOk result (λ code. code ≡ record { words = []; room = words }) }
    {
        Ok(Code {
            words: Vec::from_elem(alloc, 0u64, words as usize)?,
            used: 0,
        })
    }

    /// Appends the first words of an instruction. Those of its path are to follow.
    pub fn push(&mut self, instr: Instr)
        requires fits { OperandsFit instr }
        requires room { length self.old.words + length (words_of instr) ≤ self.old.room }
        ensures { self.new ≡ record self.old { words = self.old.words ++ words_of instr } }
    {
        self.put(head_word(instr));
        match instr {
            Instr::Push { word } => self.put(word),
            Instr::MatchWord { path, word, .. } => self.put_two(u64::from(path.length), word),
            Instr::MatchTag { path, tag, .. } => {
                self.put_two(u64::from(path.length), u64::from(tag))
            }
            Instr::Load { .. } | Instr::Make { .. } | Instr::Field { .. } | Instr::Slide { .. } =>
                {}
            Instr::Add { .. } | Instr::Sub { .. } | Instr::Mul { .. } | Instr::Div { .. } => {}
            Instr::Mod { .. } | Instr::Neg { .. } | Instr::Not | Instr::Convert { .. } => {}
            Instr::Compare { .. } | Instr::Index { .. } | Instr::Update { .. } => {}
            Instr::Jump { .. } | Instr::JumpFalse { .. } | Instr::Call { .. } => {}
            Instr::Return { .. } | Instr::Raise { .. } | Instr::Finish { .. } => {}
        }
    }

    /// Appends a field number of a path.
    pub fn push_field(&mut self, number: u32)
        requires { length self.old.words < self.old.room }
        ensures { self.new ≡ record self.old { words = self.old.words ++ number ∷ [] } }
    {
        self.put(u64::from(number));
    }

    /// How many words there are: the place where the next instruction will begin.
    pub fn len(&self) -> u32
        ensures { result ≡ length self.now.words }
    {
        self.used as u32
    }

    fn put(&mut self, word: u64)
        requires { length self.old.words < self.old.room }
        ensures { self.new ≡ record self.old { words = self.old.words ++ word ∷ [] } }
    {
        self.words[self.used] = word;
        self.used += 1;
    }

    fn put_two(&mut self, first: u64, second: u64)
        requires { length self.old.words + 2 ≤ self.old.room }
        ensures { self.new ≡ record self.old { words = self.old.words ++ first ∷ second ∷ [] } }
    {
        self.put(first);
        self.put(second);
    }

    /// The words, for the machine's loop.
    #[inline(always)]
    pub fn words(&self) -> &[u64]
        ensures same { result.now ≡ self.now.words }
        ensures short { length result.now ≤ 4294967295 }
    {
        &self.words[0..self.used]
    }
}
