//! A configuration and a script as texts, and what a replay of a script writes.
use crate::fixtures::DIAMOND;
use farm_config::read_config;
use farm_replay::{Notes, ReplayFault, ReplayWatches, replay};
use std::alloc::{AllocError, Global};
use std::test::Fail;

/// a has 100 quanta, two jobs and 100 entries, b has 10 quanta.
pub(crate) const TWO: &str =
    "{\"tenants\":[{\"name\":\"a\",\"quanta\":100,\"jobs\":2,\"entries\":100},{\"name\":\"b\",\"quanta\":10,\"jobs\":2,\"entries\":100}]}";

/// A tree is searched to its end.
pub(crate) const TREE: &str =
    "@a submit tree 6 19\n<A>\nturn a 1 10\n@a fund 1 10\nturn a 1 10\n@a result 1\n@a ledger\n";

/// What a replay of `TREE` writes.
pub(crate) const TREE_TOLD: &str = "@a job 1
@a job 1 ran 6 dry nodes 6 left 0 best 4 open
@a job 1 waiting nodes 6 left 10 best 4 open
@a job 1 ran 3 closed nodes 9 left 0 best 4 optimal
@a job 1 makespan 4 optimal 1:1:0 2:1:0 3:2:0 4:1:4
@a ledger granted 100 free 91 held 0 spent 9
";

/// Puts the diamond's text, in 19 lines, for `<A>`.
pub(crate) fn spelled(alloc: Global, script: &str) -> Result<String, AllocError> {
    script.replace(alloc, "<A>\n", DIAMOND)
}

pub(crate) fn replayed(
    alloc: Global,
    script: &str,
) -> Result<(Vec<u8>, Result<(), ReplayFault>), Fail> {
    let config = read_config(alloc, TWO.as_bytes())?;
    let mut written: Vec<u8> = Vec::new(alloc);
    written.reserve(4096)?;
    let ended = replay(
        alloc,
        &config,
        script.as_bytes(),
        &mut written,
        &mut ReplayWatches::new(),
        &mut Notes::default(),
    );
    Ok((written, ended))
}
