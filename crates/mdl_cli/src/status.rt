ghost use Rattle.std.specs.Prelude.{◌≡◌};
ghost use Rattle.mdl_cli.specs.ExitNumbers.{exit_number};

/// How a run ended.
#[derive(Clone, Copy, Debug, PartialEq, Eq)]
pub enum Status {
    Done,
    Refused,
    Usage,
    ReadFault,
    WriteFault,
    PostFails,
    StepLimit,
    Endless,
    UniformBroken,
    OutOfMemory,
}

impl Status {
    /// The number that the program ends with.
    pub fn exit_number(self) -> u8
        ensures { result ≡ exit_number self }
    {
        self as u8
    }
}
