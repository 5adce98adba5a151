//! How a run of the program ended.
ghost use Rattle.std.specs.Prelude.{◌≡◌};

/// How a run ended.
#[derive(Clone, Copy, Debug, PartialEq, Eq)]
pub enum Status {
    /// All that the job writes was written, and it is clean: of a table, every row is declared or proved.
    Clean,
    /// All that the job writes was written, and it isn't clean: of a table, some row is neither.
    Rows,
    /// The words ask for no job; nothing was written.
    Usage,
    /// Reading the library failed; nothing was written.
    ReadFault,
    /// Writing failed; a proper part of what the job writes was written, from its beginning.
    WriteFault,
    /// Memory ran out; nothing was written.
    Memory,
}

impl Status {
    ghost use Rattle.pure_check.specs.Answer.{exit_number};

    /// The program's exit status.
    pub fn number(self) -> u8
        ensures { result ≡ exit_number self }
    {
        match self {
            Status::Clean => 0,
            Status::Rows => 1,
            Status::Usage => 2,
            Status::ReadFault => 3,
            Status::WriteFault => 4,
            Status::Memory => 5,
        }
    }
}
