ghost use Rattle.std.specs.Prelude.{◌≡◌};
ghost use Rattle.hume_calls.specs.Statuses.{number_of_status};

/// How a call ends.
#[derive(Clone, Copy, Debug, PartialEq, Eq)]
pub enum Status {
    /// The call went through to its end.
    Done,
    /// The words have no form, or a port is missing.
    Usage,
    /// The source breaks a rule.
    Refused,
    /// A line of an input stream is no value of its type.
    BadValue,
    /// A call of a port failed.
    Fault,
    /// Memory was refused before anything was written.
    NoMemory,
    /// A log isn't that of its run.
    LogFails,
}

impl Status {
    /// The number with which a program ends.
    pub fn number(&self) -> u8
        ensures { result ≡ number_of_status self.now }
    {
        match self {
            Status::Done => 0,
            Status::Usage => 1,
            Status::Refused => 2,
            Status::BadValue => 3,
            Status::Fault => 4,
            Status::NoMemory => 5,
            Status::LogFails => 6,
        }
    }
}
