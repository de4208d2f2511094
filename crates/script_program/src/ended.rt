/// How a call ended. The program's status is the place in this list, from 0.
#[derive(Clone, Copy, Debug, PartialEq, Eq)]
pub enum Ended {
    /// The input was read to its end, and the whole run of its script was written.
    Done,
    /// The input is no script, or a setup or the control session's teardown failed.
    ScriptRefused,
    /// The words are no call of the program. Nothing was read.
    Usage,
    /// More than the limit of bytes came.
    TooLarge,
    /// A read failed before more than the limit of bytes came.
    ReadFault,
    /// A write failed.
    WriteFault,
    /// Memory ran out. This answer alone is tied to no cause.
    NoMemory,
}
