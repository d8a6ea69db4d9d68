//! Tokens in a row, and single tokens at its end.
ghost use Rattle.std.specs.Prelude.{◌≡◌, [], ◌∷◌, IfOk, true, false};
ghost use Rattle.hume_base.specs.declared.token.Kind.TheVariants.{Word, Sign, Number, Letter, Quoted, Upper, Lower};
ghost use Rattle.hume_ast.specs.Spelling.{number_spelled, truth_word};
ghost use Rattle.hume_ast.specs.inner.Parts.{between};
ghost use Rattle.hume_ast.specs.inner.Tokens.{Adds, is_lost};

use hume_base::{Keyword, Kind, List, Symbol, Text};
use std::alloc::{AllocError, Global};

/// The tokens that were put so far. Where memory runs out they remember it, and `finish` tells it.
#[derive(Drop)]
pub struct Tokens {
    kinds: List<Kind>,
    failed: bool,
}

impl Tokens {
    pub fn make(alloc: Global) -> Tokens
        ensures empty { result.kinds ≡ [] }
        ensures whole { is_lost result ≡ false }
    {
        Tokens {
            kinds: List::new(alloc),
            failed: false,
        }
    }

    pub fn push(&mut self, kind: Kind)
        ensures { Adds self.old self.new (kind ∷ []) }
    {
        if self.kinds.push(kind).is_err() {
            self.failed = true;
        }
    }

    /// Remembers that memory ran out.
    pub fn fail(&mut self)
        ensures { is_lost self.new ≡ true }
    {
        self.failed = true;
    }

    /// All that were put, unless memory ran out.
    pub fn finish(self) -> Result<List<Kind>, AllocError>
        ensures { IfOk result (λ kinds. kinds ≡ self.kinds × is_lost self ≡ false) }
    {
        let Tokens { kinds, failed } = self;
        if failed { Err(AllocError) } else { Ok(kinds) }
    }
}

pub fn word(out: &mut Tokens, keyword: Keyword)
    ensures { Adds out.old out.new (Word keyword ∷ []) }
{
    out.push(Kind::Word(keyword));
}

pub fn sign(out: &mut Tokens, symbol: Symbol)
    ensures { Adds out.old out.new (Sign symbol ∷ []) }
{
    out.push(Kind::Sign(symbol));
}

/// The sign, but not before the first part.
pub fn sign_between(out: &mut Tokens, symbol: Symbol, at: usize)
    ensures { Adds out.old out.new (between symbol at) }
{
    if at > 0 {
        sign(out, symbol);
    }
}

pub fn number(out: &mut Tokens, amount: u64)
    ensures { Adds out.old out.new (Number amount ∷ []) }
{
    out.push(Kind::Number(amount));
}

pub fn signed_number(out: &mut Tokens, negative: bool, amount: u64)
    ensures { Adds out.old out.new (number_spelled negative amount) }
{
    if negative {
        sign(out, Symbol::Minus);
    }
    number(out, amount);
}

pub fn letter(out: &mut Tokens, byte: u8)
    ensures { Adds out.old out.new (Letter byte ∷ []) }
{
    out.push(Kind::Letter(byte));
}

pub fn truth(out: &mut Tokens, holds: bool)
    ensures { Adds out.old out.new (Word (truth_word holds) ∷ []) }
{
    word(out, if holds { Keyword::True } else { Keyword::False });
}

pub fn upper(out: &mut Tokens, name: &Text)
    ensures { Adds out.old out.new (Upper name.now ∷ []) }
{
    match name.copy() {
        Ok(name) => out.push(Kind::Upper(name)),
        Err(_) => out.fail(),
    }
}

pub fn lower(out: &mut Tokens, name: &Text)
    ensures { Adds out.old out.new (Lower name.now ∷ []) }
{
    match name.copy() {
        Ok(name) => out.push(Kind::Lower(name)),
        Err(_) => out.fail(),
    }
}

pub fn quoted(out: &mut Tokens, name: &Text)
    ensures { Adds out.old out.new (Quoted name.now ∷ []) }
{
    match name.copy() {
        Ok(name) => out.push(Kind::Quoted(name)),
        Err(_) => out.fail(),
    }
}
