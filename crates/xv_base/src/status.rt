//! How the program ends.

ghost use Rattle.std.specs.Prelude.{◌≡◌};
ghost use Rattle.xv_base.specs.Status.{status_code};

/// What the program's status says, in the order of its codes from 0.
#[derive(Clone, Copy, Debug, PartialEq, Eq)]
pub enum Status {
    /// All went well.
    Fine,
    /// The words of the command are none that the program knows.
    BadWords,
    /// The input is refused.
    BadInput,
    /// The input could not be read.
    ReadFault,
    /// The output could not be written.
    WriteFault,
    /// There was no memory.
    NoMemory,
    /// The migration failed.
    Failed,
    /// The migration was cancelled.
    Cancelled,
    /// A file could not be made.
    FileFault,
}

impl Status {
    /// The code that the process ends with, from 0 to 8.
    pub fn code(self) -> u8
        ensures { result ≡ status_code self }
    {
        match self {
            Status::Fine => 0,
            Status::BadWords => 1,
            Status::BadInput => 2,
            Status::ReadFault => 3,
            Status::WriteFault => 4,
            Status::NoMemory => 5,
            Status::Failed => 6,
            Status::Cancelled => 7,
            Status::FileFault => 8,
        }
    }
}
