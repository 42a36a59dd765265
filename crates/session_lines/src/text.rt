//! The text of a submit.
ghost use Rattle.std.specs.Prelude.{◌≡◌, ◌≢◌, ◌-◌, ◌==◌, ◌||◌, ◌++◌, false, true, List, ℕ, take, Err};
ghost use Rattle.session_lines.specs.Script.{TextData, opened_text, whole_text, cut_text, IsAnswerFor, is_long, shown};
ghost use Rattle.session_lines.specs.Taken.{IsText, unread};

use crate::line::SubmitLine;
use crate::request::{LineFault, Request, What};
use farm_core::Name;
use psplib_mm::{MOST_BYTES, MmFault, read};
use std::alloc::Global;

/// The most bytes of a line, without its end.
pub(crate) const LONGEST: usize = 4096;

/// `MOST_BYTES` + 1 bytes show that a text is too long.
const KEPT_OF_TEXT: usize = MOST_BYTES + 1;

/// A `Text` is the text of a submit, while its lines come.
#[derive(Debug, Drop)]
pub struct Text {
    head: SubmitLine,
    /// The lines that are missing.
    left: u64,
    /// Whether a line has been too long.
    is_long: bool,
    /// Whether there was no memory for its bytes.
    is_refused: bool,
    bytes: Vec<u8>,
}

/// `line` without its line feed, and without the carriage return before that.
pub fn shown(line: &[u8]) -> &[u8]
    ensures { result.now ≡ shown line.now }
{
    let fed = match line {
        [front @ .., b'\n'] => front,
        _ => line,
    };
    match fed {
        [front @ .., b'\r'] => front,
        _ => fed,
    }
}

/// Whether `line` has more than 4,096 bytes, without its end.
pub fn is_long(line: &[u8]) -> bool
    ensures { result ≡ is_long line.now }
{
    LONGEST < shown(line).len()
}

// Adds no bytes behind `KEPT_OF_TEXT`. Returns `false` if there was no memory.
fn add_bytes(bytes: &mut Vec<u8>, more: &[u8]) -> bool
    ensures { (whole : List ℕ) → bytes.old.items ≡ take KEPT_OF_TEXT whole → result ≡ true
        → bytes.new.items ≡ take KEPT_OF_TEXT (whole ++ more.now) }
{
    let room = KEPT_OF_TEXT.saturating_sub(bytes.len()).min(more.len());
    bytes.extend_from_slice(&more[..room]).is_ok()
}

fn unread(who: Name, fault: MmFault) -> LineFault
    ensures { result ≡ unread who fault }
{
    match fault {
        MmFault::NoMemory => LineFault::NoMemory(who),
        _ => LineFault::File(who, fault),
    }
}

impl Text {
    pub fn new(alloc: Global, head: SubmitLine) -> Text
        ensures { IsText result (opened_text head) }
    {
        let left = head.lines;
        Text {
            head,
            left,
            is_long: false,
            is_refused: false,
            bytes: Vec::new(alloc),
        }
    }

    pub fn is_whole(&self) -> bool
        ensures { result ≡ (self.now.left == 0) }
    {
        self.left == 0
    }

    /// Takes one more line, by its first bytes.
    pub fn add(&mut self, line: &[u8])
        ensures head { self.new.head ≡ self.old.head }
        ensures left { self.new.left ≡ self.old.left - 1 }
        ensures long { self.new.is_long ≡ (self.old.is_long || is_long line.now) }
        ensures refused { self.new.is_refused ≡ false → self.old.is_refused ≡ false }
        ensures bytes { (whole : List ℕ) → self.old.bytes.items ≡ take KEPT_OF_TEXT whole
            → self.new.is_refused ≡ false → self.new.is_long ≡ false
            → self.new.bytes.items ≡ take KEPT_OF_TEXT (whole ++ line.now) }
    {
        self.left = self.left.saturating_sub(1);
        if is_long(line) {
            self.is_long = true;
        }
        if !self.is_long && !self.is_refused && !add_bytes(&mut self.bytes, line) {
            self.is_refused = true;
        }
    }

    /// The submit of a text that is whole, or why there is none.
    pub fn submit(self, alloc: Global) -> Result<Request, LineFault>
        ensures answers { (said : TextData) → IsText self said → IsAnswerFor (whole_text said) result }
        ensures judged { result ≢ Err LineFault.Read }
    {
        let Text {
            head,
            left: _,
            is_long,
            is_refused,
            bytes,
        } = self;
        let SubmitLine {
            who,
            kind,
            quanta,
            ..
        } = head;
        if is_refused {
            return Err(LineFault::NoMemory(who));
        }
        if is_long {
            return Err(LineFault::TooLong(Some(who)));
        }
        match read(alloc, &bytes) {
            Ok(project) => {
                let what = What::Submit {
                    kind,
                    quanta,
                    project,
                };
                Ok(Request { who, what })
            }
            Err(fault) => Err(unread(who, fault)),
        }
    }

    /// Why there is no submit if the input's end cuts the text.
    pub fn cut(self) -> LineFault
        ensures answers { (said : TextData) → IsText self said → IsAnswerFor (cut_text said) (Err result) }
        ensures judged { result ≢ LineFault.Read }
    {
        let who = self.head.who;
        if self.is_refused {
            LineFault::NoMemory(who)
        } else if self.is_long {
            LineFault::TooLong(Some(who))
        } else {
            LineFault::Syntax(Some(who))
        }
    }
}
