//! The rule of a locker's table.
use crate::timed::Timed;
use crate::view::View;
use atomic_table::TableRule;
use hume_net::Plan;

// The rule that each step on the table of a locker keeps.
pub struct InTurn;

impl<T: Timed> TableRule<Option<T>, View, Plan> for InTurn {
    ghost use Rattle.turn_locker.specs.Rule.{KeepsTurns};
    ghost use Rattle.turn_locker.specs.Views.{newcomer};

    ghost holds = { KeepsTurns T.number_of T.time_of T.right };

    ghost first = { newcomer };
}
