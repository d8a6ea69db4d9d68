//! What is told beside the rule and its line.
ghost use Rattle.std.specs.Prelude.{◌≡◌, [], false};
ghost use Rattle.look_sources.specs.Pages.{is_lost, on};

use look_sources::Page;
use std::alloc::Global;

/// Where the rule is broken, and what is to be said of it.
#[derive(Drop)]
pub struct Reason {
    /// The place of what the line is that of: a token, or the declaration.
    pub head: Option<usize>,
    /// A narrower place, which may be in another line.
    pub here: Option<usize>,
    /// What is said, in lines.
    pub note: Page,
    /// How it is mended, where more is known than of the rule.
    pub remedy: Option<&'static [u8]>,
}

impl Reason {
    pub fn at(alloc: Global, head: Option<usize>) -> Reason
        ensures head { result.head ≡ head }
        ensures here { result.here ≡ None }
        ensures note { on result.note ≡ [] }
        ensures whole { is_lost result.note ≡ false }
        ensures remedy { result.remedy ≡ None }
    {
        Reason {
            head,
            here: None,
            note: Page::make(alloc),
            remedy: None,
        }
    }
}
