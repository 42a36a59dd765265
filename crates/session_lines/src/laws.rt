//! What holds of the requests of every script.
ghost use Rattle.session_lines.specs.Laws.{EachInTurn, LinesAreBytes};

/// The requests of a script are its first one, and then those of what is left after it.
pub fn requests_come_in_turn()
    ensures { EachInTurn }
{}

/// The lines of bytes, with their ends, are the bytes: lines that are left show which bytes are.
pub fn lines_are_bytes()
    ensures { LinesAreBytes }
{}
