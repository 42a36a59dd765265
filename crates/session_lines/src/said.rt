use farm_core::Reply;
use psplib_mm::MmFault;

/// A `Said` is what is replied to a line.
#[derive(Debug, Drop)]
pub enum Said {
    /// The farm's answer, or the line of a job whose turn was taken.
    Reply(Reply),
    /// No turn could be taken, or there is none to be given.
    NoTurn,
    /// No tenant has this name.
    NoTenant,
    /// The line is no request, or the text of a submit is cut.
    Syntax,
    /// The line, or one of a submit's text, has more than 4,096 bytes.
    LongLine,
    /// The text of a submit spells no project.
    File(MmFault),
}
