//! Why a word of a command line is refused.
use crate::near::nearest;
use std::alloc::Global;
use std::fmt;
use std::io::ErrorKind;

/// The most nodes of a search of `solve`.
pub const MOST_NODES: u64 = 1_000_000_000_000;

/// The most connections of a service.
pub const MOST_SESSIONS: u64 = 64;

/// The most seconds of a proof.
pub const MOST_SECONDS: u64 = 10_000_000;

/// The most workers of a proof.
pub const MOST_JOBS: u64 = 256;

/// The least and the most memory of a proof, in megabytes.
pub const LEAST_MEMORY: u64 = 16;

pub const MOST_MEMORY: u64 = 100_000_000;

/// The most conflicts of a proof.
pub const MOST_CONFLICTS: u64 = 1_000_000_000_000;

/// All commands, also those of scripts.
const COMMANDS: [&str; 17] = [
    "check",
    "solve",
    "verify",
    "draw",
    "show",
    "compare",
    "bench",
    "prove",
    "replay",
    "serve",
    "config",
    "clauses",
    "certify",
    "bound",
    "infeasible",
    "refute",
    "help",
];

/// The words of searches, with seed 1 if they have one.
const SEARCHES: [&str; 8] = [
    "tree",
    "rule:lft",
    "rule:mts",
    "rule:spt",
    "sample:1",
    "improve:1",
    "prove:100000",
    "all",
];

/// The search that is nearest to `word`, and the words of all searches.
pub fn why_no_search(alloc: Global, word: &str) -> Option<String> {
    let mut text = String::new(alloc);
    if word.is_empty() {
        text.push_str("a word is empty; ").ok()?;
    } else if let Some(near) = nearest(alloc, word, &SEARCHES) {
        write!(text, "{near} is near; ").ok()?;
    }
    text.push_str(
        "searches are tree, rule:lft, rule:mts, rule:spt, sample:SEED, improve:SEED, prove:CONFLICTS and all, with commas between them, a SEED and CONFLICTS of 1 to 18 digits",
    ).ok()?;
    Some(text)
}

fn why_no_command(alloc: Global, word: &str) -> Option<String> {
    let mut text = String::new(alloc);
    if let Some(near) = nearest(alloc, word, &COMMANDS) {
        write!(text, "{near} is near; ").ok()?;
    }
    text.push_str("commands are ").ok()?;
    for (place, command) in COMMANDS.iter().enumerate() {
        let comma = if place == 0 { "" } else { ", " };
        write!(text, "{comma}{command}").ok()?;
    }
    Some(text)
}

fn is_time(command: &str, word: &str) -> bool {
    word.starts_with("--time") || (command != "prove" && word.starts_with("--seconds"))
}

/// How a command is limited by time.
fn why_no_time(command: &str) -> &'static str {
    if command == "prove" {
        return "--seconds S ends prove after S seconds with the best";
    }
    "no search is limited by time: --nodes N limits its nodes, farm prove --seconds S ends after S seconds with the best, and timeout S farm solve --improvements leaves it as its last line"
}

fn is_number_of_threads(word: &str) -> bool {
    word.starts_with("--threads") || word.starts_with("--workers") || word == "-j"
}

fn why_no_threads(command: &str) -> &'static str {
    if command == "prove" || command == "bench" {
        return "--jobs N sets how many run at a time";
    }
    "a search has one thread: farm prove --jobs N has N workers"
}

/// The value of a long option: behind `=`, or the next word.
fn value_of<'a>(words: &'a [String], name: &str) -> Option<&'a str> {
    let mut is_next = false;
    for word in words {
        let word = word.as_str();
        if is_next {
            return Some(word);
        }
        if let Some(rest) = word.strip_prefix(name) {
            if rest.is_empty() {
                is_next = true;
            } else if let Some(value) = rest.strip_prefix("=") {
                return Some(value);
            }
        }
    }
    None
}

fn is_within(word: &str, least: u64, most: u64) -> bool {
    match word.parse::<u64>() {
        Ok(number) => least <= number && number <= most,
        Err(_) => false,
    }
}

/// A `NumberOption` is an option with a whole number from `least` to `most`.
#[derive(Clone, Copy)]
struct NumberOption {
    name: &'static str,
    unit: &'static str,
    least: u64,
    most: u64,
    more: &'static str,
}

const NUMBERS: [NumberOption; 7] = [
    NumberOption {
        name: "--nodes",
        unit: "",
        least: 1,
        most: MOST_NODES,
        more: ", in digits alone",
    },
    NumberOption {
        name: "--port",
        unit: "",
        least: 0,
        most: u16::MAX as u64,
        more: ", and 0 for a free port",
    },
    NumberOption {
        name: "--sessions",
        unit: "",
        least: 1,
        most: MOST_SESSIONS,
        more: "",
    },
    NumberOption {
        name: "--seconds",
        unit: "",
        least: 1,
        most: MOST_SECONDS,
        more: "",
    },
    NumberOption {
        name: "--jobs",
        unit: "",
        least: 1,
        most: MOST_JOBS,
        more: "",
    },
    NumberOption {
        name: "--memory",
        unit: " of megabytes",
        least: LEAST_MEMORY,
        most: MOST_MEMORY,
        more: "",
    },
    NumberOption {
        name: "--conflicts",
        unit: "",
        least: 1,
        most: MOST_CONFLICTS,
        more: "",
    },
];

impl fmt::Display for NumberOption {
    fn fmt<W: fmt::Write>(&self, f: &mut fmt::Formatter<W>) -> fmt::Result {
        let NumberOption {
            name,
            unit,
            least,
            most,
            more,
        } = self;
        write!(
            f,
            "{name} takes a whole number{unit}, {least} to {most}{more}"
        )
    }
}

/// Why `words` are refused, as far as they show it. The first one is the program's name.
pub fn why_words(alloc: Global, words: &[String]) -> Option<String> {
    let command = words.get(1)?.as_str();
    if !command.starts_with("-") && !COMMANDS.contains(&command) {
        return why_no_command(alloc, command);
    }
    if words.iter().any(|word| is_time(command, word.as_str())) {
        return String::from_str(alloc, why_no_time(command)).ok();
    }
    if words.iter().any(|word| is_number_of_threads(word.as_str())) {
        return String::from_str(alloc, why_no_threads(command)).ok();
    }
    for option in NUMBERS {
        if let Some(value) = value_of(words, option.name)
            && !is_within(value, option.least, option.most)
        {
            return option.to_string(alloc).ok();
        }
    }
    None
}

/// Why a port could not be listened at.
pub fn why_no_port(kind: ErrorKind) -> &'static str {
    match kind {
        ErrorKind::AddrInUse => "another program listens at it",
        ErrorKind::PermissionDenied => "ports below 1024 are kept for the system's administrator",
        ErrorKind::OutOfMemory => "there is no memory for it",
        _ => "the system refuses it",
    }
}
