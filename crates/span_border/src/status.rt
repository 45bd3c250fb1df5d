//! How a call ended, as a number and in words.
ghost use Rattle.std.specs.Prelude.{◌≡◌, Some};
ghost use Rattle.span_border.specs.Status.{status_number, status_text, meant};

use span_id::Fault;

/// How a call ended.
#[derive(Clone, Copy, Debug, PartialEq, Eq)]
pub enum Status {
    /// It did what it is for.
    Done,
    /// The registry or the store refused it.
    Refused(Fault),
    /// The numbers and texts that came with it say nothing.
    BadData,
    /// Nothing lies in the handle.
    EmptyHandle,
    /// Something lies in a handle that was to be filled.
    HandleInUse,
    /// The registry has no worker of this number.
    NoSuchWorker,
    /// No line waits.
    NoLine,
    /// There is more to be told than the buffer has room for.
    ShortBuffer,
    /// The registry has no callsite of this number.
    NoSuchCallsite,
}

impl Status {
    /// The number for C: 0 where the call was done, the fault's where it was refused, and 11 to 17 for the others.
    pub fn number(self) -> u32
        ensures value { result ≡ status_number self }
        ensures meaning { meant result ≡ Some self }
    {
        match self {
            Status::Done => 0,
            Status::Refused(fault) => u32::from(fault.number()),
            Status::BadData => 11,
            Status::EmptyHandle => 12,
            Status::HandleInUse => 13,
            Status::NoSuchWorker => 14,
            Status::NoLine => 15,
            Status::ShortBuffer => 16,
            Status::NoSuchCallsite => 17,
        }
    }

    /// The status of a number, where it is one.
    pub fn of(number: u32) -> Option<Status>
        ensures { result ≡ meant number }
    {
        let status = match number {
            0 => Status::Done,
            1 => Status::Refused(Fault::Unknown),
            2 => Status::Refused(Fault::CountFull),
            3 => Status::Refused(Fault::Full),
            4 => Status::Refused(Fault::NotEntered),
            5 => Status::Refused(Fault::TooManyLayers),
            6 => Status::Refused(Fault::BadName),
            7 => Status::Refused(Fault::Backlog),
            8 => Status::Refused(Fault::BadLimits),
            10 => Status::Refused(Fault::Memory),
            11 => Status::BadData,
            12 => Status::EmptyHandle,
            13 => Status::HandleInUse,
            14 => Status::NoSuchWorker,
            15 => Status::NoLine,
            16 => Status::ShortBuffer,
            17 => Status::NoSuchCallsite,
            _ => return None,
        };
        Some(status)
    }

    /// The status in words, as `bad data`.
    pub fn text(self) -> &'static str
        ensures { result.now ≡ status_text self }
    {
        match self {
            Status::Done => "done",
            Status::Refused(fault) => fault.text(),
            Status::BadData => "bad data",
            Status::EmptyHandle => "empty handle",
            Status::HandleInUse => "handle in use",
            Status::NoSuchWorker => "no such worker",
            Status::NoLine => "no line",
            Status::ShortBuffer => "short buffer",
            Status::NoSuchCallsite => "no such callsite",
        }
    }
}
