//! Scripts of which a growth may be refused. The tests hold too if none is.
use crate::replays::{TREE_TOLD, replayed, spelled};
use farm_replay::ReplayFault;
use std::alloc::{AllocError, Global};
use std::process::Abort;
use std::test::Fail;

fn others(alloc: Global, requests: &[&str], place: usize) -> Result<String, AllocError> {
    let mut script = String::new(alloc);
    for (at, request) in requests.iter().enumerate() {
        if at != place {
            script.push_str(request)?;
        }
    }
    Ok(script)
}

fn refused_at(told: &str) -> Option<usize> {
    let refused = |line: &str| line == "@a no memory" || line == "@b no memory";
    told.lines().position(refused)
}

fn is_of_a(told: &str, place: usize) -> bool {
    told.lines().nth(place).unwrap_or("").starts_with("@a ")
}

fn without(alloc: Global, told: &str, place: usize) -> Result<String, AllocError> {
    let mut lines = String::new(alloc);
    for (at, line) in told.lines().enumerate() {
        if at != place {
            lines.push_str(line)?;
            lines.push_str("\n")?;
        }
    }
    Ok(lines)
}

fn told(alloc: Global, script: &str) -> Result<String, Fail> {
    let (written, ended) = replayed(alloc, script)?;
    ended?;
    Ok(String::from_utf8_lossy(alloc, &written)?)
}

// One request is answered *no memory*. The other lines are as without that request.
fn misses_one(
    rt: &impl Abort,
    alloc: Global,
    requests: &[&str],
    expected: &str,
    all: &str,
) -> Result<(), Fail> {
    let place = refused_at(all).ok_or("a refusal")?;
    assert!(rt;
        is_of_a(all, place) == is_of_a(expected, place),
        "whose request it was"
    );
    let script = spelled(alloc, &others(alloc, requests, place)?)?;
    let lines = without(alloc, all, place)?;
    assert!(rt;
        lines.as_str() == told(alloc, &script)?.as_str(),
        "the other lines"
    );
    Ok(())
}

// Either nothing is refused, or nothing is written, or one request is answered *no memory*. In the
// last case the other lines are as without that request.
fn survives(rt: &impl Abort, alloc: Global, requests: &[&str], expected: &str) -> Result<(), Fail> {
    let script = spelled(alloc, &others(alloc, requests, requests.len())?)?;
    let (written, ended) = replayed(alloc, &script)?;
    if ended == Err(ReplayFault::NoMemory) {
        assert!(rt; written.is_empty(), "nothing is written");
        return Ok(());
    }
    assert!(rt; ended == Ok(()), "the script is answered");
    let all = String::from_utf8_lossy(alloc, &written)?;
    if all.as_str() == expected {
        return Ok(());
    }
    misses_one(rt, alloc, requests, expected, &all)
}

#[test]
fn growths_of_one_tenant(rt: HostRuntime) -> Result<(), Fail> {
    let requests = [
        "@a submit tree 6 19\n<A>\n",
        "turn a 1 10\n",
        "@a fund 1 10\n",
        "turn a 1 10\n",
        "@a result 1\n",
        "@a ledger\n",
    ];
    survives(&rt, rt.alloc(), &requests, TREE_TOLD)
}

#[test]
fn growths_of_two_tenants(rt: HostRuntime) -> Result<(), Fail> {
    let requests = [
        "@a submit tree 6 19\n<A>\n",
        "@b submit tree 6 19\n<A>\n",
        "turn a 1 10\n",
        "turn b 1 4\n",
        "@a fund 1 10\n",
        "@b cancel 1\n",
        "turn a 1 10\n",
        "@b ledger\n",
        "@a result 1\n",
        "@b submit rule:spt 5 19\n<A>\n",
        "@a ledger\n",
        "take b 2 3\n",
    ];
    survives(
        &rt,
        rt.alloc(),
        &requests,
        "@a job 1
@b job 1
@a job 1 ran 6 dry nodes 6 left 0 best 4 open
@b job 1 ran 4 waiting nodes 4 left 2 best 5 open
@a job 1 waiting nodes 6 left 10 best 4 open
@b job 1 cancelled nodes 4 left 0 best 5 open
@a job 1 ran 3 closed nodes 9 left 0 best 4 optimal
@b ledger granted 10 free 6 held 0 spent 4
@a job 1 makespan 4 optimal 1:1:0 2:1:0 3:2:0 4:1:4
@b job 2
@a ledger granted 100 free 91 held 0 spent 9
@b job 2 out nodes 0 left 5 best none open
",
    )
}
