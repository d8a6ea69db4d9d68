ghost use Rattle.std.specs.Prelude.{◌≡◌, ◌<◌, ◌≤◌, length, IfSome};
ghost use Rattle.std.specs.Option.{is_some};
ghost use Rattle.hume_ports.specs.Port.{PortView, IsRead, IsWrite, IsFinish, last_count, next_count};

/// A call of a port has failed, as its count says.
#[derive(Clone, Copy, Debug, PartialEq)]
pub struct Failed;

/// Something outside with a name, from which bytes come or to which they go.
pub trait Port: Drop {
    ghost view: { Self → PortView };

    fn name(&self) -> &str
        ensures { result.now ≡ (view self.now).name };

    /// Moves bytes that are left into the front of `buf`, and says how many.
    fn read(&mut self, buf: &mut [u8]) -> Result<usize, Failed>
        requires { 0 < length buf.old }
        ensures { IsRead (view self.old) (view self.new) result buf.new };

    fn write(&mut self, bytes: &[u8]) -> Result<(), Failed>
        ensures { IsWrite (view self.old) (view self.new) result bytes.now };

    /// Sees that all that was written is out.
    fn finish(&mut self) -> Result<(), Failed>
        ensures { IsFinish (view self.old) (view self.new) result };

    /// The bytes written so far, where the port is shown. One that isn't may yet tell them in its contract.
    fn written(&self) -> Option<&[u8]>
        ensures shown { is_some result ≡ (view self.now).shown }
        ensures bytes { IfSome result (λ bytes. (view self.now).bytes ≡ Some bytes.now) };
}

// Counts a fault.
pub(crate) fn raise(count: &mut u64) -> Failed
    ensures counted { count.new ≡ next_count count.old }
    ensures never_falls { count.old ≤ count.new }
    ensures stays_last { last_count ≤ count.old → count.new ≡ count.old }
{
    *count = count.saturating_add(1);
    Failed
}
