/// How a run ended: the status that the program exits with.
#[derive(Clone, Copy, Debug, PartialEq, Eq)]
pub struct Status(pub u8);

impl Status {
    /// The script ran, and all its lines were written.
    pub const DONE: Status = Status(0);

    /// The words are no command.
    pub const USAGE: Status = Status(1);

    /// The input is no script.
    pub const BAD_SCRIPT: Status = Status(2);

    /// Two different texts have one digest, and they were written.
    pub const EXHIBIT: Status = Status(3);

    /// The source failed.
    pub const READ_FAULT: Status = Status(4);

    /// The sink failed.
    pub const WRITE_FAULT: Status = Status(5);

    /// There was too little memory.
    pub const NO_MEMORY: Status = Status(6);
}
