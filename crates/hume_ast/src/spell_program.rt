//! The tokens of a program.
ghost use Rattle.std.specs.Prelude.{◌≡◌, IfOk};
ghost use Rattle.hume_ast.specs.Spelling.{spelled, spelled_decls};
ghost use Rattle.hume_ast.specs.inner.Tokens.{Adds};

use crate::spell_declarations::spell_decl;
use crate::spell_tokens::Tokens;
use crate::tree::{Decl, Program};
use hume_base::{Kind, List};
use std::alloc::{AllocError, Global};

/// The kinds of the tokens that the program is spelled by. The places of its declarations don't matter.
pub fn spell(alloc: Global, program: &Program) -> Result<List<Kind>, AllocError>
    ensures { IfOk result (λ kinds. kinds ≡ spelled program.now) }
{
    let mut out = Tokens::make(alloc);
    spell_decls(program.decls.as_slice(), &mut out);
    out.finish()
}

fn spell_decls(decls: &[(u32, Decl)], out: &mut Tokens)
    ensures { Adds out.old out.new (spelled_decls decls.now) }
{
    for at in 0..decls.len() {
        let decl = &decls[at];
        spell_decl(&decl.1, out);
    }
}
