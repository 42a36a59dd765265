//! The lines of a session: which requests a script's bytes are, and the bytes of each reply.
//!
//! [`read_request`] takes exactly the bytes of the next request, and returns what `specs/Script`
//! makes of them: a request, the named fault of its line, or the end. [`write_reply`] writes
//! exactly the line of a reply (`specs/ReplyText`), or a prefix of it if the writer fails. Both
//! report a failed read or write only if one has failed (`specs/Cause`). Only the text of a submit
//! takes memory.
//!
//! - `bytes`, `words`: lines of a reader with their first bytes; words and numbers of a line.
//! - `line`, `text`: what one line means; the text of a submit while its lines come.
//! - `request`, `reading`: `Request`, `LineFault`, and `read_request`.
//! - `said`, `reply_parts`, `reply_words`: what is replied to a line, its parts, and the words for
//!   phases.
//! - `put`, `writer`: writing parts, and `write_reply`.
//! - `laws`: that requests come in turn.
#![tactic(auto)]

mod bytes;
pub mod laws;
mod line;
mod put;
mod reading;
mod reply_parts;
mod reply_words;
mod request;
mod said;
mod text;
mod words;
mod writer;

pub use put::WriteFault;
pub use reading::{MOST_REQUEST_BYTES, read_request};
pub use request::{LineFault, Request, What};
pub use said::Said;
pub use writer::write_reply;
