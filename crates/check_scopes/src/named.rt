//! What names of declarations stand for.
ghost use Rattle.std.specs.Prelude.{◌≡◌, ◌+◌, IfOk};
ghost use Rattle.check_typing.specs.Signatures.{fun_named, con_named, exn_named};
ghost use Rattle.check_scopes.specs.Known.{with_function, with_constructor, with_exception};

use crate::environment::Environment;
use std::alloc::AllocError;

impl<'a> Environment<'a> {
    /// The number of the function of a name. The types of its parameters, as a tuple, and of what it gives go on the stack as one
    /// tuple.
    pub fn push_function(&mut self, name: &[u8]) -> Result<Option<u32>, AllocError>
        ensures { IfOk result (λ number. (number, self.new) ≡ with_function (fun_named name.now self.old.2) self.old) }
    {
        match self.names.function(name) {
            None => Ok(None),
            Some((number, _)) => {
                self.context.push_kept(number as usize)?;
                Ok(Some(number))
            }
        }
    }

    /// The number of the exception of a name, and whether it carries something. The type of what it carries goes on the stack.
    pub fn push_exception(&mut self, name: &[u8]) -> Result<Option<(u32, bool)>, AllocError>
        ensures { IfOk result (λ exn. (exn, self.new) ≡ with_exception (exn_named name.now self.old.2) self.old) }
    {
        match self.names.exception(name) {
            None => Ok(None),
            Some((number, exception)) => {
                if exception.carries.is_none() {
                    return Ok(Some((number, false)));
                }
                let functions = self.names.signatures().funs.len();
                let at = added(functions, number as usize)?;
                self.context.push_kept(at)?;
                Ok(Some((number, true)))
            }
        }
    }

    /// The number of the data type of the constructor of a name, and its place in it. The types of its fields go on the stack as
    /// one tuple.
    pub fn push_constructor(&mut self, name: &[u8]) -> Result<Option<(u32, u32)>, AllocError>
        ensures { IfOk result (λ con. (con, self.new) ≡ with_constructor (con_named name.now self.old.2) self.old) }
    {
        match self.names.constructor(name) {
            None => Ok(None),
            Some(found) => {
                let signatures = self.names.signatures();
                let others = added(signatures.funs.len(), signatures.exns.len())?;
                let at = added(others, found.number as usize)?;
                self.context.push_kept(at)?;
                Ok(Some((found.data_type, found.place)))
            }
        }
    }
}

fn added(count: usize, more: usize) -> Result<usize, AllocError>
    ensures { IfOk result (λ all. all ≡ count + more) }
{
    match count.checked_add(more) {
        None => Err(AllocError),
        Some(all) => Ok(all),
    }
}
