ghost use Rattle.std.specs.Prelude.{◌≡◌, ◌<◌, ◌^◌, length, IfOk};
ghost use Rattle.hume_base.specs.Least.{IsLeast};
ghost use Rattle.check_names.specs.Misnamed.{BreaksNames};

use crate::leading::{first_in_call_cycle, first_self_holding};
use crate::repeated::first_repeated;
use crate::unknown::first_unknown;
use hume_ast::Program;
use hume_base::{Finding, Rule, earlier};
use std::alloc::{AllocError, Global};

/// The least of the broken rules on names: by declaration, then by code.
pub fn first_misnamed(alloc: Global, program: &Program) -> Result<Option<Finding>, AllocError>
    requires { length program.now.decls < 2 ^ 32 }
    ensures { IfOk result (IsLeast (BreaksNames program.now.decls)) }
{
    let repeated = Finding::of(Rule::C30, first_repeated(alloc, program)?);
    let unknown = Finding::of(Rule::C31, first_unknown(alloc, program)?);
    let in_cycle = Finding::of(Rule::C32, first_in_call_cycle(alloc, program)?);
    let self_holding = Finding::of(Rule::C33, first_self_holding(alloc, program)?);
    Ok(earlier(earlier(repeated, unknown), earlier(in_cycle, self_holding)))
}
