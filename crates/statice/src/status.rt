ghost use Rattle.std.specs.Prelude.{◌≡◌};
ghost use Rattle.statice.specs.Status.{status_of};

/// How a command ended, the status of its process.
pub type Status = u8;

/// The command was carried out, and no transaction was refused.
pub const DONE: Status = 0;

/// The command was carried out, and some transaction was refused.
pub const SOME_REFUSED: Status = 1;

/// The words are no command's.
pub const BAD_WORDS: Status = 2;

/// The input is refused: it is out of form, or its schema or its script is at fault.
pub const REFUSED: Status = 3;

/// The source failed.
pub const SOURCE_FAILED: Status = 6;

/// The sink failed.
pub const SINK_FAILED: Status = 7;

/// Memory wants.
pub const OUT_OF_MEMORY: Status = 8;

/// The input has more bytes than an input may have.
pub const TOO_LONG: Status = 9;

/// How a command ended whose words are in order.
#[derive(Clone, Copy, Debug, PartialEq, Eq)]
pub enum Ended {
    /// It was carried out, and no transaction was refused.
    Done,
    /// It was carried out, and some transaction was refused.
    SomeRefused,
    /// Its input is refused.
    Refused,
    /// The source failed.
    SourceFailed,
    /// The sink failed.
    SinkFailed,
    /// Memory wants.
    OutOfMemory,
    /// The input has more bytes than an input may have.
    TooLong,
}

impl Ended {
    /// The status of the process.
    pub fn status(self) -> Status
        ensures { result ≡ status_of self }
    {
        match self {
            Ended::Done => DONE,
            Ended::SomeRefused => SOME_REFUSED,
            Ended::Refused => REFUSED,
            Ended::SourceFailed => SOURCE_FAILED,
            Ended::SinkFailed => SINK_FAILED,
            Ended::OutOfMemory => OUT_OF_MEMORY,
            Ended::TooLong => TOO_LONG,
        }
    }
}
