ghost use Rattle.std.specs.Prelude.{◌≡◌, [], ◌∷◌, ◌++◌, ◌<◌, ◌^◌, length, take, map, OnOk, OnErr, IfOk, IfSome, MatchOption, Some, None};
ghost use Rattle.check_typing.specs.Signatures.{variable_named};
ghost use Rattle.check_scopes.specs.types.Contexts.{last_of as last_beside};

use std::alloc::{AllocError, Global};
use std::marker::Model;

/// Variables with the numbers of their types, outermost first.
#[derive(Drop)]
pub(crate) struct Variables<'a> {
    entries: Vec<(&'a [u8], u32)>,
}

impl<'a> Model for Variables<'a> {
    ghost use Rattle.std.specs.Prelude.{List, ℕ, map, length, ◌<◌, ◌^◌};

    ghost Value = { List (List ℕ × ℕ) };

    ghost view = { λ s. map (λ v. (v.0.now, v.1)) s.entries.items };

    ghost invariant = { λ s. length s.entries.items < 2 ^ 32 };
}

impl<'a> Variables<'a> {
    pub(crate) fn new(alloc: Global) -> Variables<'a>
        ensures { result ≡ [] }
    {
        Variables {
            entries: Vec::new(alloc),
        }
    }

    pub(crate) fn len(&self) -> usize
        ensures { result ≡ length self.now }
    {
        self.entries.len()
    }

    pub(crate) fn enter(&mut self, name: &'a [u8], number: u32) -> Result<(), AllocError>
        ensures ok { OnOk result (self.new ≡ self.old ++ (name.now, number) ∷ []) }
        ensures err { OnErr result (self.new ≡ self.old) }
    {
        if self.entries.len() >= 65536 {
            return Err(AllocError);
        }
        self.entries.push((name, number))?;
        Ok(())
    }

    pub(crate) fn leave(&mut self, count: usize)
        ensures { self.new ≡ take count self.old }
    {
        self.entries.truncate(count);
    }

    /// The number of the type of the last variable.
    pub(crate) fn last(&self) -> Option<u32>
        ensures { IfSome result (λ number. last_beside self.now ≡ Some number) }
    {
        last_number(self.entries.as_slice())
    }

    /// The place of the last variable of a name, and the number of its type.
    pub(crate) fn find(&self, name: &[u8]) -> Option<(u32, u32)>
        ensures { result ≡ variable_named name.now self.now }
    {
        last_of(self.entries.as_slice(), name)
    }
}

fn last_number(vars: &[(&[u8], u32)]) -> Option<u32>
    ensures { IfSome result (λ number. last_beside (map (λ v. (v.0.now, v.1)) vars.now) ≡ Some number) }
{
    let count = vars.len();
    if count == 0 {
        return None;
    }
    Some(vars[count - 1].1)
}

#[tactic(auto, using(crate::proofs::types_lemmas::Vars::var_steps))]
fn last_of(vars: &[(&[u8], u32)], name: &[u8]) -> Option<(u32, u32)>
    requires { length vars.now < 2 ^ 32 }
    ensures { result ≡ variable_named name.now (map (λ v. (v.0.now, v.1)) vars.now) }
{
    let mut found = None;
    for (i, v) in vars.iter().enumerate() {
        if v.0 == name {
            found = Some((i as u32, v.1));
        }
    }
    found
}
