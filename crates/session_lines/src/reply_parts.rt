//! The parts of reply lines.
ghost use Rattle.std.specs.Prelude.{◌≡◌, ◌++◌, codes, decimal};
ghost use Rattle.psplib_mm.specs.FaultText.{section_text, limit_text};
ghost use Rattle.session_lines.specs.Part.{part_text, parts_text};
ghost use Rattle.strategy.specs.VerdictText.{verdict_text};
ghost use Rattle.session_lines.specs.ReplyText.{best_text, line_text, place_text, book_text, file_text, who_text};

use crate::put::Part;
use crate::reply_words::phase_word;
use farm_core::{Line, Name};
use psplib_mm::{LimitName, MmFault, SectionName};
use strategy::Verdict;
use tenant_book::Book;

fn section_word(name: SectionName) -> &'static str
    ensures { result.now ≡ section_text name }
{
    match name {
        SectionName::PrecedenceRelations => "PRECEDENCE RELATIONS",
        SectionName::RequestsDurations => "REQUESTS/DURATIONS",
        SectionName::ResourceAvailabilities => "RESOURCEAVAILABILITIES",
    }
}

fn limit_word(name: LimitName) -> &'static str
    ensures { result.now ≡ limit_text name }
{
    match name {
        LimitName::Jobs => "jobs",
        LimitName::Modes => "modes",
        LimitName::Renewable => "renewable",
        LimitName::Nonrenewable => "nonrenewable",
        LimitName::Duration => "duration",
        LimitName::Request => "request",
        LimitName::Capacity => "capacity",
        LimitName::Horizon => "horizon",
    }
}

fn best_part(best: Option<u32>) -> Part<'static>
    ensures { part_text result ≡ best_text best }
{
    match best {
        Some(makespan) => Part::Number(u64::from(makespan)),
        None => Part::Text(b"none"),
    }
}

pub(crate) fn who_parts(who: &Option<Name>) -> [Part<'_>; 3]
    ensures { parts_text result ≡ who_text who.entry.now }
{
    match who {
        Some(name) => [
            Part::Text(b"@"),
            Part::Text(name.as_bytes()),
            Part::Text(b" "),
        ],
        None => alone(b"@? "),
    }
}

pub(crate) fn job_parts(seq: u64) -> [Part<'static>; 3]
    ensures { parts_text result ≡ codes "job " ++ decimal seq ++ codes " " }
{
    [Part::Text(b"job "), Part::Number(seq), Part::Text(b" ")]
}

pub(crate) fn ran_parts(seq: u64, ran: u64) -> [Part<'static>; 5]
    ensures { parts_text result ≡ codes "job " ++ decimal seq ++ codes " ran " ++ decimal ran ++ codes " " }
{
    [
        Part::Text(b"job "),
        Part::Number(seq),
        Part::Text(b" ran "),
        Part::Number(ran),
        Part::Text(b" "),
    ]
}

pub(crate) fn line_parts(line: &Line) -> [Part<'_>; 9]
    ensures { parts_text result ≡ line_text line.entry.now }
{
    [
        Part::Text(phase_word(line.phase).as_bytes()),
        Part::Text(b" nodes "),
        Part::Number(line.nodes),
        Part::Text(b" left "),
        Part::Number(line.left),
        Part::Text(b" best "),
        best_part(line.best),
        Part::Text(b" "),
        Part::Text(line.verdict.word().as_bytes()),
    ]
}

/// The parts before a best schedule's places.
pub(crate) fn best_parts(seq: u64, best: Option<u32>, verdict: Verdict) -> [Part<'static>; 6]
    ensures { parts_text result
        ≡ codes "job " ++ decimal seq ++ codes " makespan " ++ best_text best ++ codes " " ++ verdict_text verdict }
{
    [
        Part::Text(b"job "),
        Part::Number(seq),
        Part::Text(b" makespan "),
        best_part(best),
        Part::Text(b" "),
        Part::Text(verdict.word().as_bytes()),
    ]
}

pub(crate) fn place_parts(number: usize, mode: u32, start: u32) -> [Part<'static>; 6]
    ensures { parts_text result ≡ place_text number mode start }
{
    [
        Part::Text(b" "),
        Part::Number(number as u64),
        Part::Text(b":"),
        Part::Number(u64::from(mode)),
        Part::Text(b":"),
        Part::Number(u64::from(start)),
    ]
}

pub(crate) fn forgotten_parts(seq: u64) -> [Part<'static>; 3]
    ensures { parts_text result ≡ codes "job " ++ decimal seq ++ codes " forgotten" }
{
    [
        Part::Text(b"job "),
        Part::Number(seq),
        Part::Text(b" forgotten"),
    ]
}

pub(crate) fn ledger_parts(book: &Book) -> [Part<'static>; 8]
    ensures { parts_text result ≡ book_text book.now }
{
    [
        Part::Text(b"ledger granted "),
        Part::Number(book.granted()),
        Part::Text(b" free "),
        Part::Number(book.free()),
        Part::Text(b" held "),
        Part::Number(book.held()),
        Part::Text(b" spent "),
        Part::Number(book.spent()),
    ]
}

fn alone(text: &[u8]) -> [Part<'_>; 3]
    ensures { parts_text result ≡ text.entry.now }
{
    [Part::Text(text), Part::Text(b""), Part::Text(b"")]
}

fn with_line(text: &[u8], line: u32) -> [Part<'_>; 3]
    ensures { parts_text result ≡ text.entry.now ++ decimal line ++ codes ")" }
{
    [
        Part::Text(text),
        Part::Number(u64::from(line)),
        Part::Text(b")"),
    ]
}

fn with_word<'a>(text: &'a [u8], word: &'a str) -> [Part<'a>; 3]
    ensures { parts_text result ≡ text.entry.now ++ word.entry.now ++ codes ")" }
{
    [
        Part::Text(text),
        Part::Text(word.as_bytes()),
        Part::Text(b")"),
    ]
}

pub(crate) fn file_parts(fault: MmFault) -> [Part<'static>; 3]
    ensures { parts_text result ≡ file_text fault }
{
    match fault {
        MmFault::TooLong => alone(b"no file TooLong"),
        MmFault::Header => alone(b"no file Header"),
        MmFault::Projects => alone(b"no file Projects"),
        MmFault::Doubly => alone(b"no file Doubly"),
        MmFault::Section(name) => with_word(b"no file Section(", section_word(name)),
        MmFault::Number(line) => with_line(b"no file Number(", line),
        MmFault::Count(name) => with_word(b"no file Count(", section_word(name)),
        MmFault::Numbering(line) => with_line(b"no file Numbering(", line),
        MmFault::Successor(line) => with_line(b"no file Successor(", line),
        MmFault::Limit(name) => with_word(b"no file Limit(", limit_word(name)),
        MmFault::NoMemory => alone(b"no memory"),
    }
}
