//! The halves of a superstep.
ghost use Rattle.std.specs.Prelude.{◌≡◌, ◌<◌, ◌+◌, ◌^◌};
ghost use Rattle.run_log.specs.Halves.{superstep_behind};

/// Which half of a superstep a block of a log tells: the execute steps, after which the wires are as they are in its midst, or the
/// super steps, after which they are as they are at its end.
#[derive(Clone, Copy, Debug, PartialEq)]
pub enum Half {
    Mid,
    End,
}

/// The superstep to which the half behind this one belongs.
pub(crate) fn superstep_behind(superstep: u32, half: Half) -> u32
    requires { superstep + 1 < 2 ^ 32 }
    ensures { result ≡ superstep_behind superstep half }
{
    match half {
        Half::Mid => superstep,
        Half::End => superstep + 1,
    }
}
