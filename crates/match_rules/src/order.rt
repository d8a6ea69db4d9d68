//! The order in which a box tries its rules.
ghost use Rattle.std.specs.Prelude.{◌≡◌, ◌==◌, ◌<◌, ◌≤◌, not, length, take, Some, slice_get};
ghost use Rattle.std.specs.List.{filter, range_with_len};
ghost use Rattle.hume_base.specs.declared.limits.TheConstants.{MAX_RULES};
ghost use Rattle.hume_net.specs.HalfSteps.{moved_last};
ghost use Rattle.hume_net.specs.StatePlaces.{IsOrder};

use std::marker::Model;

/// An order of the rules of a box by their numbers. It takes no memory.
#[derive(Drop)]
pub struct RuleOrder {
    rules: [u32; 64],
    count: usize,
}

impl Model for RuleOrder {
    ghost use Rattle.std.specs.Prelude.{◌≤◌, ℕ, List, take};
    ghost use Rattle.hume_base.specs.declared.limits.TheConstants.{MAX_RULES};
    ghost use Rattle.hume_net.specs.StatePlaces.{IsOrder};

    ghost Value = { List ℕ };

    ghost view = { λ order. take order.count order.rules };

    ghost invariant = { λ order. (order.count ≤ MAX_RULES) × IsOrder order.count (take order.count order.rules) };
}

impl RuleOrder {
    /// The order in which so many rules are written.
    pub fn make(rules: u32) -> RuleOrder
        requires { rules ≤ MAX_RULES }
        ensures { result ≡ range_with_len 0 rules }
    {
        let mut written = [0; 64];
        for i in 0..rules {
            written[i as usize] = i;
        }
        RuleOrder {
            rules: written,
            count: rules as usize,
        }
    }

    /// The rule goes last, and the others keep their places.
    pub fn fired(&mut self, rule: u32)
        requires { rule < length self.old }
        ensures { self.new ≡ moved_last rule self.old }
    {
        let kept = keep_others(&mut self.rules, self.count, rule);
        self.rules[kept] = rule;
    }

    /// How many rules there are.
    #[inline(always)]
    pub fn count(&self) -> u32
        ensures { result ≡ length self.now }
    {
        self.count as u32
    }

    // Each rule stands in it once.
    pub(crate) fn keeps_each_rule(&self)
        ensures { IsOrder (length self.now) self.now }
    {
        let _count = self.count;
    }

    /// The rule at a place of the order.
    #[inline(always)]
    pub fn at(&self, i: u32) -> u32
        requires { i < length self.now }
        ensures { slice_get self.now i ≡ Some result }
    {
        self.rules[i as usize]
    }
}

// Moves the others to the front, and answers how many they are.
fn keep_others(rules: &mut [u32], count: usize, rule: u32) -> usize
    requires { count ≤ length rules.old }
    ensures kept { take result rules.new ≡ filter (λ other. not (other == rule)) (take count rules.old) }
    ensures few { result ≤ count }
    ensures room { length rules.new ≡ length rules.old }
{
    let mut kept = 0;
    for i in 0..count {
        let other = rules[i];
        if other != rule {
            rules[kept] = other;
            kept += 1;
        }
    }
    kept
}
