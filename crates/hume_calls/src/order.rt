ghost use Rattle.std.specs.Prelude.{◌≡◌};
ghost use Rattle.hume_calls.specs.Places.{source_place};

/// What the words of a call ask for.
#[derive(Clone, Copy, Debug, PartialEq, Eq)]
pub enum Order {
    /// Run the source whose port is named by the word at the place `source` for `steps` supersteps, on `workers` workers.
    Run {
        steps: u32,
        workers: u32,
        source: u32,
        /// Whether all wires are told after each superstep.
        traced: bool,
    },
    /// Run what the script makes of the source, whose ports are named by the words at those places.
    Calc {
        steps: u32,
        workers: u32,
        source: u32,
        script: u32,
    },
    /// Run the source for `steps` supersteps, and write its log to the log's port or compare it with what that port has. The words at the
    /// places `source` and `log` name both ports.
    Log {
        steps: u32,
        source: u32,
        log: u32,
        /// Whether the log is compared, and not written.
        verify: bool,
    },
    /// Say whether the source whose port is named by the word at that place is accepted.
    Check {
        source: u32,
    },
    /// Run the sources whose ports are named by `count` words from the place `sources` on as one net, for `steps` supersteps, on
    /// `workers` workers.
    Union {
        steps: u32,
        workers: u32,
        count: u32,
        sources: u32,
    },
    /// Show the net of `demo` that is made for `number`, by `steps` supersteps, on `workers` workers.
    Demo {
        number: u32,
        steps: u32,
        workers: u32,
    },
}

impl Order {
    /// The place of the word that names the source's port, or the first of several. A demo has none.
    pub fn source(&self) -> Option<u32>
        ensures { result ≡ source_place self.now }
    {
        match self {
            Order::Run { source, .. } => Some(*source),
            Order::Calc { source, .. } => Some(*source),
            Order::Log { source, .. } => Some(*source),
            Order::Check { source } => Some(*source),
            Order::Union { sources, .. } => Some(*sources),
            Order::Demo { .. } => None,
        }
    }
}
