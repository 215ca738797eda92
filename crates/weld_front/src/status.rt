ghost use Rattle.std.specs.Prelude.{◌≡◌};
ghost use Rattle.weld_front.specs.Exit.{exit_of};

/// How a call of the program ended. Each status has an exit number of its own.
#[derive(Clone, Copy, Debug, PartialEq, Eq)]
pub enum Status {
    /// The answer was written.
    Done,
    /// The program faults on its data.
    Fault,
    /// The words aren't in form.
    Words,
    /// A rule or a limit refuses the program's text, or the job is too long.
    Refused,
    /// The data don't fit the program's parameters.
    Unfit,
    /// A read failed.
    Read,
    /// A write or the flush failed.
    Write,
    /// Memory was wanting.
    Memory,
}

impl Status {
    /// The exit number of the process, from 0 for `Done` to 7 for `Memory`.
    pub fn exit(self) -> u8
        ensures { result ≡ exit_of self }
    {
        match self {
            Status::Done => 0,
            Status::Fault => 1,
            Status::Words => 2,
            Status::Refused => 3,
            Status::Unfit => 4,
            Status::Read => 5,
            Status::Write => 6,
            Status::Memory => 7,
        }
    }
}
