ghost use Rattle.std.specs.Prelude.{◌≡◌};
ghost use Rattle.hume_console.specs.Endings.{number_of_ending};

/// How a session ends.
#[derive(Clone, Copy, Debug, PartialEq, Eq)]
pub enum Ending {
    /// The commands went through to their end.
    Done,
    /// The words have no form, or a port is missing.
    Usage,
    /// The source breaks a rule.
    Refused,
    /// A line of an input stream is no value of its type, or a line of commands is too long or one too many.
    BadValue,
    /// A call of a port failed.
    Fault,
    /// Memory was refused before anything was written.
    NoMemory,
}

impl Ending {
    /// The number with which a program ends.
    pub fn number(&self) -> u8
        ensures { result ≡ number_of_ending self.now }
    {
        match self {
            Ending::Done => 0,
            Ending::Usage => 1,
            Ending::Refused => 2,
            Ending::BadValue => 3,
            Ending::Fault => 4,
            Ending::NoMemory => 5,
        }
    }
}
