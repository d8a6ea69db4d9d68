//! What each step on the table tells.
ghost use Rattle.turn_locker.specs.Plays.{looked, grasped, claimed, released, passed_on};

use crate::timed::Timed;
use crate::view::View;
use atomic_table::{Join, Play, Split};

// A load. The slot that was out goes home.
pub(crate) struct Look;

impl<T: Timed> Play<Option<T>, View> for Look {
    ghost then = { looked };
}

// A load that takes the slot of a held item.
pub(crate) struct Grasp;

impl<T: Timed> Play<Option<T>, View> for Grasp {
    ghost then = { grasped };
}

// A compare-exchange that takes an item from home.
pub(crate) struct Claim;

impl<T: Timed> Play<Option<T>, View> for Claim {
    ghost then = { claimed T.number_of T.time_of T.right };
}

// A store that puts an item home at the time at which it was held.
pub(crate) struct Release;

impl<T: Timed> Play<Option<T>, View> for Release {
    ghost then = { released };
}

// A store that puts an item home one half step later.
pub(crate) struct Pass;

impl<T: Timed> Play<Option<T>, View> for Pass {
    ghost then = { passed_on };
}

// One is taken off a share, or two shares are added.
pub(crate) struct Shares;

impl Split<View> for Shares {
    ghost use Rattle.turn_locker.specs.Views.{kept_share, new_share};

    ghost left = { kept_share };

    ghost right = { new_share };
}

impl Join<View> for Shares {
    ghost use Rattle.turn_locker.specs.Views.{both_shares};
    ghost use Rattle.turn_locker.specs.Views.{spent as spent_view};

    ghost both = { both_shares };

    ghost spent = { spent_view };
}
