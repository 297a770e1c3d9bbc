//! The status with which the program ends.

ghost use Rattle.std.specs.Prelude.{◌≡◌, ◌↔◌, IsNone};
ghost use Rattle.rc_program.specs.Code.{code_of};

/// How the program is called.
const USAGE: &str = "usage: rc tree < DOCUMENT
rc:        rc fates < DOCUMENT
rc:        rc why < DOCUMENT
rc:        rc slots < DOCUMENT
rc:        rc json < DOCUMENT
rc:        rc replay < DOCUMENT
rc:        rc gen N
rc: the document is read from standard input; no word names it. N is a number from 1 to 2000";

/// The status with which the program ends.
#[derive(Clone, Copy, Debug, PartialEq, Eq)]
pub enum Status {
    /// The whole text was written.
    Done,
    /// The words name no command.
    Usage,
    /// The bytes are no JSON.
    NotJson,
    /// The value is no document.
    NotDoc,
    /// The document's graph is refused, and the line of the fault was written whole.
    Refused,
    /// A call of the source failed.
    ReadFault,
    /// A call of the sink failed.
    WriteFault,
    /// There are more than 16,777,216 bytes.
    TooLarge,
    /// Memory ran out.
    NoMemory,
    /// The scope blocks of the answer have more than 4,294,967,295 slots.
    TooManySlots,
}

impl Status {
    /// Returns the number with which the process ends.
    pub fn code(&self) -> u8
        ensures { result ≡ code_of self.now }
    {
        match self {
            Status::Done => 0,
            Status::Usage => 2,
            Status::NotJson => 3,
            Status::NotDoc => 4,
            Status::Refused => 5,
            Status::ReadFault => 6,
            Status::WriteFault => 7,
            Status::TooLarge => 8,
            Status::NoMemory => 9,
            Status::TooManySlots => 11,
        }
    }

    /// Returns what standard error says of the status, if anything was wrong.
    pub fn sentence(&self) -> Option<&'static str>
        ensures { IsNone result ↔ (self.now ≡ Status.Done) }
    {
        match self {
            Status::Done => None,
            Status::Usage => Some(USAGE),
            Status::NotJson => Some("standard input can't be read as JSON"),
            Status::NotDoc => Some("standard input is no document"),
            Status::Refused => Some("the document's graph is refused"),
            Status::ReadFault => Some("reading standard input failed"),
            Status::WriteFault => Some("writing standard output failed"),
            Status::TooLarge => Some("standard input has more than 16777216 bytes"),
            Status::NoMemory => Some("there is too little memory"),
            Status::TooManySlots => Some("the scope blocks have more than 4294967295 slots"),
        }
    }
}
