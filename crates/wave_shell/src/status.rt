ghost use Rattle.std.specs.Prelude.{◌≡◌};
ghost use Rattle.wave_shell.specs.Program.{code};

/// How a call of the program ended.
#[derive(Clone, Copy, Debug, PartialEq, Eq)]
pub enum Status {
    /// The deck was run, or the script was played, and the text is written.
    Ok,
    /// Memory ran out.
    Memory,
    /// The words do not fit the command.
    Words,
    /// The deck is too long or is refused.
    Deck,
    /// The script is too long or is refused.
    Script,
    /// The deck or the script could not be read.
    Read,
    /// The output could not be written.
    Write,
}

impl Status {
    /// The exit status of the program, from 0 for `Ok` to 6 for `Write`.
    pub fn code(self) -> u8
        ensures { result ≡ code self }
    {
        match self {
            Status::Ok => 0,
            Status::Memory => 1,
            Status::Words => 2,
            Status::Deck => 3,
            Status::Script => 4,
            Status::Read => 5,
            Status::Write => 6,
        }
    }
}
