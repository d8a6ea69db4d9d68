//! The sets of exceptions that functions may raise.
ghost use Rattle.std.specs.Prelude.{◌≡◌};

use crate::exn_set::ExnSet;
use hume_base::List;
use std::marker::Model;

/// For each function of a core the exceptions that it may raise.
#[derive(Drop)]
pub struct Raises {
    sets: List<ExnSet>,
}

impl Model for Raises {
    ghost use Rattle.std.specs.Prelude.{List};
    ghost use Rattle.hume_exceptions.specs.declared.exn_set.ExnSet.{ExnSet};

    ghost Value = { List ExnSet };

    ghost view = { λ raises. raises.sets };
}

impl Raises {
    /// The sets, in the order of the functions' numbers.
    pub fn of(sets: List<ExnSet>) -> Raises
        ensures { result ≡ sets }
    {
        Raises { sets }
    }

    pub fn sets(&self) -> &[ExnSet]
        ensures { result.now ≡ self.now }
    {
        self.sets.as_slice()
    }
}
