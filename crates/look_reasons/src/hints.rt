//! Warnings: what is accepted and probably a mistake.
//!
//! Main call: `put_all_hints`. `unused` finds names that nothing uses, by `names`, a table of
//! all names; `behind` parts that are never reached, `outputs` outputs
//! that no rule writes, `waiting` boxes that wait for ever, `lost` rules behind which a box waits for ever, and `constant` comparisons that
//! give one answer alone, by their `verdicts`.
//!
//! Proved: each warning stands behind all that stood on the page (`Grows`). Beyond it nothing but safety.

ghost use Rattle.look_sources.specs.Pages.{Grows};

mod behind;
mod constant;
mod lost;
mod names;
mod outputs;
mod parts;
mod unused;
mod verdicts;
mod waiting;

use crate::hints::behind::put_behind;
use crate::hints::constant::put_constant;
use crate::hints::lost::put_lost;
use crate::hints::outputs::put_outputs;
use crate::hints::unused::put_unused;
use crate::hints::waiting::put_waiting;
use hume_model::Core;
use look_sources::Page;
pub use parts::Parts;
use std::alloc::{AllocError, Global};

/// Puts the hints on an accepted source with that core.
#[tactic(auto, using(look_sources::proofs::Growing::growing))]
pub fn put_all_hints(
    alloc: Global,
    parts: &Parts,
    core: &Core,
    page: &mut Page,
) -> Result<(), AllocError>
    ensures { Grows page.old page.new }
{
    put_waiting(alloc, parts, core, page)?;
    put_lost(parts, core, page);
    put_outputs(parts, core, page);
    put_constant(alloc, parts, core, page)?;
    put_behind(parts, page);
    put_unused(alloc, parts, page)
}
