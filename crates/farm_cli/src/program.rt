ghost use Rattle.std.specs.Prelude.{◌≡◌, ◌≤◌, ◌&&◌, cond, is_ok, OnOk, OnErr};
ghost use Rattle.std.specs.Process.{exit_status};

use crate::arguments::{Task, parse_words};
use crate::checking::check_to;
use crate::entries::{tell_large_journal, tell_scarce_entries};
use crate::input::read_whole;
use crate::replaying::{ReplayLog, replay_to, tell_config_fault};
use clap::Error;
use clap::error::ErrorKind;
use explain::{why_no_port, why_words};
use farm_config::read_config;
use farm_core::Config;
use farm_pool::Settled;
use farm_replay::{Notes, ReplayWatches};
use farm_service::{ServeFault, serve};
use file_commands::{CommandWatches, open_path, or_report};
use psplib_mm::MOST_BYTES;
use std::env::Env;
use std::io::{BufWriter, Eprint, Print, Read};
use std::net::{Ipv4Addr, Net, SocketAddr, TcpListener, TcpStream};
use std::process::ExitCode;
use std::rt::{Files, Runtime};
use std::sync::Wait;
use std::thread::Threads;
use std::{fs, io};
use watched_io::{Watch, explains, tell_unread, tell_why};

/// Runs the program on `words`, the first of which is its name. The status is 0, or 2 for help and
/// for a refused command line, or 1 for any fault.
pub fn run_words<
    R: Runtime
        + AllocGlobal
        + Threads
        + Wait
        + Net<Listener = TcpListener, Stream = TcpStream>
        + Sync,
>(rt: &R, words: &[String]) -> ExitCode
    ensures { exit_status result ≤ 2 }
{
    match parse_words(rt.alloc(), words) {
        Ok(Task::Check { file }) => run_check(rt, file),
        Ok(
            Task::Replay {
                config,
                script,
                is_strict,
            },
        ) => run_replay(rt, config, script, is_strict),
        Ok(
            Task::Serve {
                config,
                port,
                sessions,
            },
        ) => run_serve(rt, config, port, sessions),
        Err(error) => end_refused(rt, words, &error),
    }
}

/// Whether `words` are for [`run_words`]: the program's name alone, or a command of this crate
/// behind it.
pub fn is_own(words: &[String]) -> bool {
    match words.get(1) {
        Some(word) => matches!(word.as_str(), "check" | "replay" | "serve"),
        None => true,
    }
}

/// If a command follows `help`, then `help` takes the place of the program's name.
fn without_help(words: &[String]) -> &[String] {
    match words.get(1) {
        Some(word) if word.as_str() == "help" && 2 < words.len() => &words[1..],
        _ => words,
    }
}

/// Writes the help that `words` ask for, or why they are refused. The status is 2, or 1 if there is
/// no memory or the text cannot be written.
pub fn end_refused<R: Runtime + AllocGlobal>(rt: &R, words: &[String], error: &Error) -> ExitCode
    ensures few { exit_status result ≤ 2 }
    ensures failed { 1 ≤ exit_status result }
{
    match error.print(rt) {
        Ok(()) if error.kind() != ErrorKind::OutOfMemory => {
            if error.kind() != ErrorKind::DisplayHelp {
                tell_why(rt, &why_words(rt.alloc(), without_help(words)));
            }
            ExitCode::from(2)
        }
        _ => ExitCode::FAILURE,
    }
}

fn tell_too_long<R: AllocGlobal + Env + Eprint>(rt: &R, path: &str) {
    if let Ok(why) = format!(in rt.alloc(); "it has more than {MOST_BYTES} bytes") {
        tell_unread(rt, path, why.as_str());
    }
}

/// On `None` the reason is on standard error.
fn bytes_at<R: Files + AllocGlobal + Env + Eprint>(rt: &R, path: &str) -> Option<Vec<u8>> {
    let read = match fs::open(rt, path) {
        Ok(file) => read_whole(rt.alloc(), file),
        Err(error) => Err(error),
    };
    let bytes = or_report(rt, path, read)?;
    if bytes.is_none() {
        tell_too_long(rt, path);
    }
    bytes
}

fn run_check<R: Runtime + AllocGlobal>(rt: &R, path: &str) -> ExitCode
    ensures { exit_status result ≤ 1 }
{
    let Some(file) = open_path(rt, path) else {
        return ExitCode::FAILURE;
    };
    let mut output = io::writer(rt);
    check_to(rt, path, file, &mut output, &mut CommandWatches::new())
}

fn run_replay<R: Runtime + AllocGlobal>(
    rt: &R,
    config: &str,
    script: &str,
    is_strict: bool,
) -> ExitCode
    ensures { exit_status result ≤ 1 }
{
    let Some(text) = bytes_at(rt, config) else {
        return ExitCode::FAILURE;
    };
    // Before the script is opened, since that may wait.
    match read_config(rt.alloc(), &text) {
        Ok(config) => tell_scarce_entries(rt, &config),
        Err(fault) => {
            tell_config_fault(rt, &text, fault);
            return ExitCode::FAILURE;
        }
    }
    match open_path(rt, script) {
        Some(source) => print_replay(rt, &text, source, is_strict),
        None => ExitCode::FAILURE,
    }
}

fn print_replay<R: Runtime + AllocGlobal, S: Read + Drop>(
    rt: &R,
    text: &[u8],
    script: S,
    is_strict: bool,
) -> ExitCode
    ensures { exit_status result ≤ 1 }
{
    let Ok(mut output) = BufWriter::new(rt.alloc(), io::writer(rt)) else {
        let _ = eprintln!(rt; "farm: replay NoMemory");
        return ExitCode::FAILURE;
    };
    let mut log = ReplayLog {
        watches: ReplayWatches::new(),
        sends: Watch::new(),
        notes: Notes::default(),
    };
    replay_to(rt, text, script, is_strict, &mut output, &mut log)
}

fn config_at<R: Files + AllocGlobal + Env + Eprint>(rt: &R, path: &str) -> Option<Config> {
    let bytes = bytes_at(rt, path)?;
    match read_config(rt.alloc(), &bytes) {
        Ok(config) => Some(config),
        Err(fault) => {
            tell_config_fault(rt, &bytes, fault);
            None
        }
    }
}

fn run_serve<
    R: Runtime
        + AllocGlobal
        + Threads
        + Wait
        + Net<Listener = TcpListener, Stream = TcpStream>
        + Sync,
>(rt: &R, config: &str, port: &str, sessions: &str) -> ExitCode
    ensures { exit_status result ≤ 2 }
{
    let Ok(port) = port.parse::<u16>() else {
        return ExitCode::from(2);
    };
    let Ok(sessions) = sessions.parse::<u64>() else {
        return ExitCode::from(2);
    };
    let Some(config) = config_at(rt, config) else {
        return ExitCode::FAILURE;
    };
    tell_scarce_entries(rt, &config);
    tell_large_journal(rt, &config);
    let listener = match TcpListener::bind(rt, SocketAddr::from((Ipv4Addr::LOCALHOST, port))) {
        Ok(listener) => listener,
        Err(error) => return end_unbound(rt, port, error.kind()),
    };
    let Ok(address) = listener.local_addr() else {
        return end_serve(rt, Err(ServeFault::Listen));
    };
    let port = address.port();
    if println!(rt; "port {port}").is_err() {
        return ExitCode::FAILURE;
    }
    end_serve(rt, serve(rt, rt.alloc(), &config, listener, sessions))
}

fn end_unbound<R: Print + Env + Eprint>(rt: &R, port: u16, kind: io::ErrorKind) -> ExitCode
    ensures { exit_status result ≡ 1 }
{
    let status = end_serve(rt, Err(ServeFault::Listen));
    if explains(rt) {
        let why = why_no_port(kind);
        let _ = eprintln!(rt; "farm: why: port {port} of 127.0.0.1: {why}");
    }
    status
}

fn status_of(ended: &Result<Settled, ServeFault>, is_told: bool) -> ExitCode
    ensures { exit_status result ≡ cond (is_ok ended.now && is_told) 0 1 }
{
    if ended.is_ok() && is_told {
        ExitCode::SUCCESS
    } else {
        ExitCode::FAILURE
    }
}

fn end_serve<R: Print + Eprint>(rt: &R, ended: Result<Settled, ServeFault>) -> ExitCode
    ensures ok { exit_status result ≤ 1 }
    ensures fault { OnErr ended (exit_status result ≡ 1) }
{
    let told = match &ended {
        Ok(_) => println!(rt; "settled"),
        Err(ServeFault::Unsettled) => eprintln!(rt; "unsettled"),
        Err(fault) => eprintln!(rt; "farm: serve {fault}"),
    };
    status_of(&ended, told.is_ok())
}
