ghost use Rattle.std.specs.Prelude.{◌<◌, ◌^◌, length, IsTrue, IfOk};
ghost use Rattle.hume_base.specs.Least.{IsFirst};
ghost use Rattle.check_names.specs.Names.{OfDecl};
ghost use Rattle.check_counts.specs.CountRules.{Miscounts, HasStrayStar, declaration_miscounts as miscounts_in};

use crate::counts::{Counts, counts_of};
use crate::declarations::{declaration_has_stray_star, declaration_miscounts};
use hume_ast::{Decl, Program};
use std::alloc::{AllocError, Global};

/// The first declaration that has too many or too few of something.
pub fn first_miscounted(alloc: Global, program: &Program) -> Result<Option<u32>, AllocError>
    requires { length program.now.decls < 2 ^ 32 }
    ensures { IfOk result (IsFirst (Miscounts program.now.decls)) }
{
    let decls = program.decls.as_slice();
    let counts = counts_of(alloc, decls)?;
    let first = first_by(&counts, decls);
    Ok(first)
}

// The first declaration that has too many or too few of something, by what names have.
fn first_by(counts: &Counts, decls: &[(u32, Decl)]) -> Option<u32>
    requires { length decls.now < 2 ^ 32 }
    ensures { IsFirst (λ i. OfDecl decls.now i (λ decl. IsTrue (miscounts_in counts.now decl))) result }
{
    for (i, decl) in decls.iter().enumerate() {
        if declaration_miscounts(counts, &decl.1) {
            return Some(i as u32);
        }
    }
    None
}

/// The first declaration with a `*` that is no output.
pub fn first_stray_star(program: &Program) -> Option<u32>
    requires { length program.now.decls < 2 ^ 32 }
    ensures { IsFirst (HasStrayStar program.now.decls) result }
{
    first_star(program.decls.as_slice())
}

fn first_star(decls: &[(u32, Decl)]) -> Option<u32>
    requires { length decls.now < 2 ^ 32 }
    ensures { IsFirst (HasStrayStar decls.now) result }
{
    for (i, decl) in decls.iter().enumerate() {
        if declaration_has_stray_star(&decl.1) {
            return Some(i as u32);
        }
    }
    None
}
