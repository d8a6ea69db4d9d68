ghost use Rattle.std.specs.Prelude.{◌≡◌, [], IfOk};
ghost use Rattle.hume_ast.specs.Places.{unplaced, placed, first_place as place_of_first};
ghost use Rattle.hume_ast.specs.Places.{kinds};
ghost use Rattle.parse_errors.specs.inner.Gives.{Gives};
ghost use Rattle.parse_readers.specs.inner.Programs.{program as program_read};

use crate::items::cut_item;
use hume_ast::Decl;
use hume_base::limits::MAX_DEPTH;
use hume_base::{List, Token};
use parse_errors::Stop;
use parse_items::Progress;
use std::alloc::Global;

/// The declarations that the tokens stand for, each with the place of its first token.
pub fn program(alloc: Global, tokens: &[Token]) -> Result<List<(u32, Decl)>, Stop>
    ensures reads { Gives (λ decls. (unplaced decls, [])) result (program_read MAX_DEPTH (kinds tokens.now)) }
    ensures places { IfOk result (λ decls. decls ≡ placed tokens.now (unplaced decls)) }
{
    let mut progress = Progress::begin(alloc);
    let mut rest = tokens;
    'items: while !rest.is_empty() {
        let at = first_place(rest);
        let expecting = progress.expecting();
        let (item, after) = cut_item(alloc, expecting, rest)?;
        progress = progress.take(alloc, at, item)?;
        rest = after;
    }
    if progress.expecting().is_wanting() {
        return Err(Stop::Syntax(0));
    }
    Ok(progress.close()?)
}

fn first_place(rest: &[Token]) -> u32
    ensures { result ≡ place_of_first rest.now }
{
    match rest {
        [] => 0,
        [token, ..] => token.place,
    }
}
