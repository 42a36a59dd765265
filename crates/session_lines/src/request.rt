//! Requests, and why there is none.
use farm_core::Name;
use mrcpsp::Project;
use psplib_mm::MmFault;
use strategy::Kind;

/// A `What` is what is asked for. A number alone is a job's; `slice` is the most nodes of a turn.
#[derive(Debug, Drop)]
pub enum What {
    /// A job for `project` with its first quanta.
    Submit {
        kind: Kind,
        quanta: u64,
        project: Project,
    },
    /// More quanta for the job.
    Fund {
        seq: u64,
        quanta: u64,
    },
    /// What is known of the job.
    Status(u64),
    /// The best schedule of the job.
    Fetch(u64),
    /// That the job be searched no more.
    Cancel(u64),
    /// That the job be kept no longer.
    Forget(u64),
    /// The ledger of the tenant's purse.
    Ledger,
    /// That a turn of the job be taken.
    Take {
        seq: u64,
        slice: u64,
    },
    /// That the turn of the job be run and given back.
    Give(u64),
    /// That a turn of the job be taken, run and given back.
    Turn {
        seq: u64,
        slice: u64,
    },
}

/// A `Request` is what a tenant asks for.
#[derive(Debug, Drop)]
pub struct Request {
    pub who: Name,
    pub what: What,
}

/// A `LineFault` is why there is no request. The faulty bytes are taken, except after `Read`.
#[derive(Debug, Drop)]
pub enum LineFault {
    /// The input has no more requests.
    Eof,
    /// The reader failed, or one request passed 100,000,000 bytes.
    Read,
    /// A line has more than 4,096 bytes: the request's, or, with a name, one of a submit's text.
    TooLong(Option<Name>),
    /// The line is no request, or the input's end cuts a submit's text. With the tenant's name if
    /// the line begins with `@` and a name.
    Syntax(Option<Name>),
    /// The text of a submit spells no project.
    File(Name, MmFault),
    /// There was no memory for the text of a submit or its project.
    NoMemory(Name),
}
