ghost use Rattle.std.specs.Prelude.{◌≡◌};
ghost use Rattle.hume_base.specs.Least.{earlier_of, finding_of, goes_first, precedes};

use crate::rule::Rule;

/// A broken rule, and the number of the declaration that breaks it, counted from 0.
#[derive(Clone, Copy, Debug, PartialEq, Eq)]
pub struct Finding {
    pub rule: Rule,
    pub declaration: u32,
}

impl Finding {
    /// The broken rule with the declaration that breaks it, if one does.
    pub fn of(rule: Rule, declaration: Option<u32>) -> Option<Finding>
        ensures { result ≡ finding_of rule declaration }
    {
        match declaration {
            None => None,
            Some(declaration) => Some(Finding { rule, declaration }),
        }
    }
}

/// The earlier of two findings: by phase, then by declaration, then by code.
pub fn earlier(left: Option<Finding>, right: Option<Finding>) -> Option<Finding>
    ensures { result ≡ earlier_of left right }
{
    match (left, right) {
        (None, right) => right,
        (left, None) => left,
        (Some(x), Some(y)) => { if comes_first(x, y) { Some(x) } else { Some(y) } }
    }
}

fn comes_first(x: Finding, y: Finding) -> bool
    ensures { result ≡ precedes x y }
{
    has_first_place(
        (x.rule.phase(), x.declaration, x.rule.code()),
        (y.rule.phase(), y.declaration, y.rule.code()),
    )
}

#[tactic(auto, unfolding(crate::specs::Least::goes_first))]
fn has_first_place(left: (u32, u32, u32), right: (u32, u32, u32)) -> bool
    ensures { result ≡ goes_first left right }
{
    if left.0 != right.0 {
        return left.0 < right.0;
    }
    if left.1 != right.1 {
        return left.1 < right.1;
    }
    left.2 <= right.2
}
