//! What a line asks for.
ghost use Rattle.std.specs.Prelude.{◌≡◌};
ghost use Rattle.session_lines.specs.RequestLine.{tenant_in, what_in, turn_in, submit_in, own_line, turn_line, meaning_of};

use crate::request::{Request, What};
use crate::words::{LineWords, is};
use farm_core::Name;
use strategy::{Kind, number};

const MOST_LINES: u64 = 20_000;

/// A `SubmitLine` is the line that begins a submit. Its text follows.
#[derive(Debug, Drop)]
pub struct SubmitLine {
    pub who: Name,
    pub kind: Kind,
    pub quanta: u64,
    /// The lines of the text: 1 to 20,000.
    pub lines: u64,
}

/// A `LineMeaning` is what a line means.
#[derive(Debug, Drop)]
pub enum LineMeaning {
    Blank,
    Whole(Request),
    Opens(SubmitLine),
    /// It has more than 4,096 bytes, and a word.
    Long,
    /// No request. With the tenant's name if the line begins with `@` and a name.
    Bad(Option<Name>),
}

fn tenant_of(word: &[u8]) -> Option<Name>
    ensures { result ≡ tenant_in word.now }
{
    match word {
        [b'@', name @ ..] => Name::new(name),
        _ => None,
    }
}

fn what_of(verb: &[u8], words: LineWords<'_>) -> Option<What>
    ensures { result ≡ what_in verb.now words.entry }
{
    if is(verb, b"fund") {
        let (seq, quanta) = words.two_numbers()?;
        Some(What::Fund { seq, quanta })
    } else if is(verb, b"status") {
        Some(What::Status(words.one_number()?))
    } else if is(verb, b"result") {
        Some(What::Fetch(words.one_number()?))
    } else if is(verb, b"cancel") {
        Some(What::Cancel(words.one_number()?))
    } else if is(verb, b"forget") {
        Some(What::Forget(words.one_number()?))
    } else if is(verb, b"ledger") && words.are_over() {
        Some(What::Ledger)
    } else {
        None
    }
}

fn turn_of(verb: &[u8], words: LineWords<'_>) -> Option<What>
    ensures { result ≡ turn_in verb.now words.entry }
{
    if is(verb, b"take") {
        let (seq, slice) = words.two_numbers()?;
        Some(What::Take { seq, slice })
    } else if is(verb, b"give") {
        Some(What::Give(words.one_number()?))
    } else if is(verb, b"turn") {
        let (seq, slice) = words.two_numbers()?;
        Some(What::Turn { seq, slice })
    } else {
        None
    }
}

fn submit_of(words: LineWords<'_>) -> Option<(Kind, u64, u64)>
    ensures { result ≡ submit_in words.entry }
{
    let mut words = words;
    let kind = words.next_word()?;
    let quanta = words.next_word()?;
    let lines = words.next_word()?;
    if !words.are_over() {
        return None;
    }
    let kind = Kind::parse(kind)?;
    let quanta = number(quanta)?;
    let lines = number(lines)?;
    if lines < 1 || MOST_LINES < lines {
        return None;
    }
    Some((kind, quanta, lines))
}

fn own_line(who: Name, mut words: LineWords<'_>) -> LineMeaning
    ensures { result ≡ own_line who words.entry }
{
    let Some(verb) = words.next_word() else {
        return LineMeaning::Bad(Some(who));
    };
    if is(verb, b"submit") {
        return match submit_of(words) {
            Some((kind, quanta, lines)) => LineMeaning::Opens(SubmitLine {
                who,
                kind,
                quanta,
                lines,
            }),
            None => LineMeaning::Bad(Some(who)),
        };
    }
    match what_of(verb, words) {
        Some(what) => LineMeaning::Whole(Request { who, what }),
        None => LineMeaning::Bad(Some(who)),
    }
}

fn turn_line(verb: &[u8], mut words: LineWords<'_>) -> LineMeaning
    ensures { result ≡ turn_line verb.now words.entry }
{
    let Some(name) = words.next_word() else {
        return LineMeaning::Bad(None);
    };
    let Some(who) = Name::new(name) else {
        return LineMeaning::Bad(None);
    };
    match turn_of(verb, words) {
        Some(what) => LineMeaning::Whole(Request { who, what }),
        None => LineMeaning::Bad(None),
    }
}

/// What `line`, which comes without its end, means.
pub fn read_line(line: &[u8]) -> LineMeaning
    ensures { result ≡ meaning_of line.now }
{
    let mut words = LineWords::of(line);
    let Some(first) = words.next_word() else {
        return LineMeaning::Blank;
    };
    match tenant_of(first) {
        Some(who) => own_line(who, words),
        None => turn_line(first, words),
    }
}
