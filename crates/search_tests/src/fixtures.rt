//! The projects of the tests, as texts. The last line, the capacities, is an argument.
use mrcpsp::Project;
use psplib_mm::read;
use std::alloc::Global;
use std::process::Abort;

pub(crate) fn project(rt: &impl Abort, alloc: Global, text: &str, capacities: &str) -> Project {
    let mut whole = Vec::new(alloc);
    assert!(rt;
        whole.extend_from_slice(text.as_bytes()).is_ok()
            && whole.extend_from_slice(capacities.as_bytes()).is_ok(),
        "no memory for a text"
    );
    match read(alloc, &whole) {
        Ok(project) => project,
        Err(_) => panic!(rt; "no memory for a project"),
    }
}

/// A source, an activity of one mode, one of two modes, and a sink.
pub(crate) const DIAMOND: &str = "jobs (incl. supersource/sink ): 4
- renewable : 1 R
- nonrenewable : 1 N
PRECEDENCE RELATIONS:
h
1 1 2 2 3
2 1 1 4
3 2 1 4
4 1 0
REQUESTS/DURATIONS:
h
1 1 0 0 0
2 1 3 2 0
3 1 2 2 1
2 4 1 0
4 1 0 0 0
RESOURCEAVAILABILITIES:
h
";

/// The diamond, but the second activity consumes something too.
pub(crate) const GREEDY: &str = "jobs (incl. supersource/sink ): 4
- renewable : 1 R
- nonrenewable : 1 N
PRECEDENCE RELATIONS:
h
1 1 2 2 3
2 1 1 4
3 2 1 4
4 1 0
REQUESTS/DURATIONS:
h
1 1 0 0 0
2 1 3 2 1
3 1 2 2 1
2 4 1 0
4 1 0 0 0
RESOURCEAVAILABILITIES:
h
";

/// The diamond, but the third activity has one mode, which consumes something.
pub(crate) const STARVED: &str = "jobs (incl. supersource/sink ): 4
- renewable : 1 R
- nonrenewable : 1 N
PRECEDENCE RELATIONS:
h
1 1 2 2 3
2 1 1 4
3 1 1 4
4 1 0
REQUESTS/DURATIONS:
h
1 1 0 0 0
2 1 3 2 0
3 1 2 2 1
4 1 0 0 0
RESOURCEAVAILABILITIES:
h
";

/// The diamond, but the source requests much and takes no time.
pub(crate) const ASKING: &str = "jobs (incl. supersource/sink ): 4
- renewable : 1 R
- nonrenewable : 1 N
PRECEDENCE RELATIONS:
h
1 1 2 2 3
2 1 1 4
3 2 1 4
4 1 0
REQUESTS/DURATIONS:
h
1 1 0 9 0
2 1 3 2 0
3 1 2 2 1
2 4 1 0
4 1 0 0 0
RESOURCEAVAILABILITIES:
h
";

/// The diamond, but the third activity requests 4 of the renewable resource.
pub(crate) const BLOCKED: &str = "jobs (incl. supersource/sink ): 4
- renewable : 1 R
- nonrenewable : 1 N
PRECEDENCE RELATIONS:
h
1 1 2 2 3
2 1 1 4
3 1 1 4
4 1 0
REQUESTS/DURATIONS:
h
1 1 0 0 0
2 1 1 1 0
3 1 2 4 0
4 1 0 0 0
RESOURCEAVAILABILITIES:
h
";

/// Three activities, one after the other.
pub(crate) const CHAIN: &str = "jobs (incl. supersource/sink ): 3
- renewable : 1 R
- nonrenewable : 1 N
PRECEDENCE RELATIONS:
h
1 1 1 2
2 1 1 3
3 1 0
REQUESTS/DURATIONS:
h
1 1 0 0 0
2 1 5 0 0
3 1 0 0 0
RESOURCEAVAILABILITIES:
h
";

/// Seven activities, whose order differs by rule. The second has two modes of one duration.
pub(crate) const SEVEN: &str = "jobs (incl. supersource/sink ): 7
- renewable : 1 R
- nonrenewable : 1 N
PRECEDENCE RELATIONS:
h
1 1 1 4
2 2 2 5 6
3 1 1 6
4 1 0
5 2 1 7
6 1 1 7
7 1 0
REQUESTS/DURATIONS:
h
1 1 2 1 0
2 1 3 1 0
2 3 2 0
3 1 1 1 0
4 1 6 1 0
5 1 1 1 1
2 4 1 0
6 1 2 2 0
7 1 1 1 0
RESOURCEAVAILABILITIES:
h
";

/// A source, an activity before another one, and one in parallel.
pub(crate) const FORK: &str = "jobs (incl. supersource/sink ): 4
- renewable : 1 R
PRECEDENCE RELATIONS:
h
1 1 2 2 3
2 1 1 4
3 1 0
4 1 0
REQUESTS/DURATIONS:
h
1 1 0 0
2 1 2 1
3 1 2 1
4 1 3 1
RESOURCEAVAILABILITIES:
h
";

/// Three activities in any order. With 2 of each resource, the first one in its first mode leaves
/// no mode for the second.
pub(crate) const SCARCE: &str = "jobs (incl. supersource/sink ): 3
- renewable : 1 R
- nonrenewable : 2 N
PRECEDENCE RELATIONS:
h
1 2 0
2 2 0
3 1 0
REQUESTS/DURATIONS:
h
1 1 3 1 2 1
2 1 1 0 0
2 1 2 1 2 0
2 1 1 0 2
3 1 1 1 0 0
RESOURCEAVAILABILITIES:
h
";

pub(crate) const PAIR: &str = "jobs (incl. supersource/sink ): 1
- renewable : 1 R
PRECEDENCE RELATIONS:
h
1 2 0
REQUESTS/DURATIONS:
h
1 1 3 1
2 2 1
RESOURCEAVAILABILITIES:
h
";

pub(crate) const LONE: &str = "jobs (incl. supersource/sink ): 1
PRECEDENCE RELATIONS:
h
1 1 0
REQUESTS/DURATIONS:
h
1 1 0
RESOURCEAVAILABILITIES:
h
";

/// One activity, which takes no time and requests 9.
pub(crate) const LONE_ASKING: &str = "jobs (incl. supersource/sink ): 1
- renewable : 1 R
PRECEDENCE RELATIONS:
h
1 1 0
REQUESTS/DURATIONS:
h
1 1 0 9
RESOURCEAVAILABILITIES:
h
";
