//! Calls, events and replies.
use words36::{Moment, Ppn, Word};

/// A call of a job, as the job makes it: most calls name a channel, and with it an address in the job's core or a
/// number.
#[derive(Clone, Copy, Debug, PartialEq, Eq)]
pub enum Call {
    /// Opens a channel: the address of its three words.
    Open(u32, u32),
    /// Sets up a ring for input: a channel, and the number of buffers, where 0 means 2.
    Inbuf(u32, u32),
    /// Sets up a ring for output: a channel, and the number of buffers, where 0 means 2.
    Outbuf(u32, u32),
    /// Looks up a file for reading: a channel, and the address of its four words.
    Lookup(u32, u32),
    /// Opens a file for writing: a channel, and the address of its four words.
    Enter(u32, u32),
    /// Renames or deletes the file that was looked up: a channel, and the address of its four words.
    Rename(u32, u32),
    /// Reads: a channel, and in dump mode the address of a command list.
    In(u32, u32),
    /// Writes: a channel, and in dump mode the address of a command list.
    Out(u32, u32),
    /// Names the block that is read next: a channel and the block, counted from 1.
    Useti(u32, u32),
    /// Names the block that is written next: a channel and the block, counted from 1.
    Useto(u32, u32),
    /// Closes a channel's sides: a channel, and bits that say which.
    Close(u32, u32),
    /// Closes both sides of a channel, and the channel.
    Releas(u32),
    /// Reads a channel's status.
    Getsts(u32),
    /// Closes all channels and drops what wasn't closed.
    Reset,
    /// Makes a directory: the address of two words.
    MakeDir(u32),
    /// Removes an empty directory: the address of two words.
    DeleteDir(u32),
    /// Gives a directory another quota: the address of two words, the PPN of the directory and, in the left half of the
    /// second, the quota.
    Quota(u32),
}

/// What happens to the service.
#[derive(Clone, Copy, Debug, PartialEq, Eq)]
pub enum Event {
    /// A job logs in: its number, its project-programmer number, and the number of words of its core.
    Login(u32, Ppn, u32),
    /// A word is put into a job's core, at an address.
    Deposit(u32, u32, Word),
    /// A word of a job's core is read, by its address.
    Examine(u32, u32),
    /// A job makes a call, at a moment.
    Call(u32, Call, Moment),
}

/// What the service answers.
#[derive(Clone, Copy, Debug, PartialEq, Eq)]
pub enum Reply {
    /// The call was done.
    Done,
    /// The word or the status that the event reads.
    Value(Word),
    /// The call did nothing, for the reason that this code names.
    Refused(u32),
    /// The channel could not continue; its whole status.
    Stopped(u32),
    /// No channel has that number, or it isn't open.
    NoChannel,
    /// A word that the call names is outside the core, or a list of words isn't valid.
    AddressCheck,
    /// No job of that number is logged in, or none can be.
    NoJob,
    /// There was no memory for a growth: everything is as before.
    NoMemory,
    /// The disk answered with a fault: the service has failed.
    Device,
    /// The service had failed before.
    Failed,
    /// The moment's date is one that the disk's layout cannot store.
    DateRange,
}
