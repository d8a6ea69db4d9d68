//! Numbers of bytes by the greatest alignment of numbers.
ghost use Rattle.std.specs.Prelude.{◌≡◌};
ghost use Rattle.c_sizes.specs.Bytes.{greatest, next_multiple, padded, plus, same, times, up_to};

/// A number of bytes for each greatest alignment of numbers: 1, 2, 4 and 8.
#[derive(Clone, Copy)]
pub struct Bytes {
    pub one: u64,
    pub two: u64,
    pub four: u64,
    pub eight: u64,
}

impl Bytes {
    pub fn same(amount: u64) -> Bytes
        ensures { result ≡ same amount }
    {
        Bytes {
            one: amount,
            two: amount,
            four: amount,
            eight: amount,
        }
    }

    /// Where numbers of `amount` bytes lie: at the multiples of these.
    pub(crate) fn up_to(amount: u64) -> Bytes
        ensures { result ≡ up_to amount }
    {
        Bytes {
            one: amount.min(1),
            two: amount.min(2),
            four: amount.min(4),
            eight: amount.min(8),
        }
    }

    pub fn plus(self, more: Bytes) -> Bytes
        ensures { result ≡ plus self more }
    {
        Bytes {
            one: self.one.saturating_add(more.one),
            two: self.two.saturating_add(more.two),
            four: self.four.saturating_add(more.four),
            eight: self.eight.saturating_add(more.eight),
        }
    }

    pub(crate) fn times(self, count: u64) -> Bytes
        ensures { result ≡ times count self }
    {
        Bytes {
            one: count.saturating_mul(self.one),
            two: count.saturating_mul(self.two),
            four: count.saturating_mul(self.four),
            eight: count.saturating_mul(self.eight),
        }
    }

    pub(crate) fn greatest(self, other: Bytes) -> Bytes
        ensures { result ≡ greatest self other }
    {
        Bytes {
            one: self.one.max(other.one),
            two: self.two.max(other.two),
            four: self.four.max(other.four),
            eight: self.eight.max(other.eight),
        }
    }

    pub(crate) fn padded(self, align: Bytes) -> Bytes
        ensures { result ≡ padded self align }
    {
        Bytes {
            one: next_multiple(self.one, align.one),
            two: next_multiple(self.two, align.two),
            four: next_multiple(self.four, align.four),
            eight: next_multiple(self.eight, align.eight),
        }
    }
}

fn next_multiple(size: u64, align: u64) -> u64
    ensures { result ≡ next_multiple size align }
{
    if align == 0 {
        return size;
    }
    size.saturating_add(align.saturating_sub(size % align) % align)
}
