//! Whole texts, how faults print, and want of memory.
use crate::fixtures::{DIAMOND, project};
use mrcpsp::{Mode, Project};
use psplib_mm::{LimitName, MmFault, SectionName, read};
use std::alloc::{AllocError, Global};
use std::process::Abort;
use std::test::Fail;

/// The diamond in the layout that ProGen writes.
const LONG: &str = "************************************************************************
file with basedata            : a.bas
initial value random generator: 1
************************************************************************
projects                      :  1
jobs (incl. supersource/sink ):  4
horizon                       :  7
RESOURCES
  - renewable                 :  1   R
  - nonrenewable              :  1   N
  - doubly constrained        :  0   D
************************************************************************
PROJECT INFORMATION:
pronr.  #jobs rel.date duedate tardcost  MPM-Time
    1      2      0        3        0        3
************************************************************************
PRECEDENCE RELATIONS:
jobnr.    #modes  #successors   successors
   1        1          2           2   3
   2        1          1           4
   3        2          1           4
   4        1          0
************************************************************************
REQUESTS/DURATIONS:
jobnr. mode duration  R 1  N 1
------------------------------------------------------------------------
  1      1     0       0    0
  2      1     3       2    0
  3      1     2       2    1
         2     4       1    0
  4      1     0       0    0
************************************************************************
RESOURCEAVAILABILITIES:
  R 1  N 1
    3    1
************************************************************************
";

/// The diamond in few bytes, with a record in two lines.
const SPLIT: &str = "jobs (incl. supersource/sink ): 4
- renewable : 1 R
- nonrenewable : 1 N
PRECEDENCE RELATIONS:
h
1 1 2 2
   3
2 1 1 4
3 2 1 4
4 1 0
REQUESTS/DURATIONS:
h
1 1 0 0 0
2 1 3 2 0
3 1 2 2 1
2 4 1 0
4 1 0 0 0
RESOURCEAVAILABILITIES:
h
3 1";

/// `text` with `end` behind each line, and ignored words behind the end of the file.
fn with_ends(alloc: Global, text: &str, end: &str) -> Result<String, AllocError> {
    let mut ended = String::new(alloc);
    for line in text.lines() {
        ended.push_str(line)?;
        ended.push_str(end)?;
    }
    ended.push_str("\x1Ajobs")?;
    Ok(ended)
}

fn compare_mode(rt: &impl Abort, mode: &Mode, numbers: &[u32; 3]) {
    let [duration, request, consumption] = *numbers;
    assert!(rt; mode.duration == duration);
    assert!(rt; mode.renewable.as_slice() == [request].as_slice());
    assert!(rt; mode.nonrenewable.as_slice() == [consumption].as_slice());
}

fn compare_activity(
    rt: &impl Abort,
    project: &Project,
    activity: usize,
    successors: &[u32],
    modes: &[[u32; 3]],
) {
    let Some(activity) = project.activities().get(activity) else {
        assert!(rt; false);
        return;
    };
    assert!(rt; activity.successors.as_slice() == successors);
    assert!(rt; activity.modes.as_slice().len() == modes.len());
    for (mode, numbers) in activity.modes.as_slice().iter().zip(modes) {
        compare_mode(rt, mode, numbers);
    }
}

/// The diamond has a capacity of 3 and a stock of 1.
pub(crate) fn compare_diamond(rt: &impl Abort, project: &Project) {
    assert!(rt; project.size() == 4 && project.horizon() == 7);
    assert!(rt; project.renewable() == [3].as_slice());
    assert!(rt; project.nonrenewable() == [1].as_slice());
    compare_activity(rt, project, 0, &[2, 3], &[[0, 0, 0]]);
    compare_activity(rt, project, 1, &[4], &[[3, 2, 0]]);
    compare_activity(rt, project, 2, &[4], &[[2, 2, 1], [4, 1, 0]]);
    compare_activity(rt, project, 3, &[], &[[0, 0, 0]]);
}

#[test]
fn whole_texts(rt: HostRuntime) -> Result<(), Fail> {
    for text in [LONG, SPLIT] {
        compare_diamond(&rt, &read(rt.alloc(), text.as_bytes())?);
        let returns = with_ends(rt.alloc(), text, "\r\n")?;
        compare_diamond(&rt, &read(rt.alloc(), returns.as_bytes())?);
    }
    compare_diamond(&rt, &project(&rt, rt.alloc(), DIAMOND, "3 1"));
    Ok(())
}

#[test]
fn texts_of_faults(rt: HostRuntime) -> Result<(), Fail> {
    let table = [
        (MmFault::TooLong, "TooLong"),
        (MmFault::Header, "Header"),
        (MmFault::Projects, "Projects"),
        (MmFault::Doubly, "Doubly"),
        (
            MmFault::Section(SectionName::PrecedenceRelations),
            "Section(PRECEDENCE RELATIONS)",
        ),
        (MmFault::Number(14), "Number(14)"),
        (
            MmFault::Count(SectionName::RequestsDurations),
            "Count(REQUESTS/DURATIONS)",
        ),
        (MmFault::Numbering(15), "Numbering(15)"),
        (MmFault::Successor(7), "Successor(7)"),
        (
            MmFault::Limit(LimitName::Nonrenewable),
            "Limit(nonrenewable)",
        ),
        (MmFault::NoMemory, "NoMemory"),
        (MmFault::from(AllocError), "NoMemory"),
    ];
    for (fault, wanted) in table {
        assert!(rt; fault.to_string(rt.alloc())?.as_str() == wanted);
    }
    Ok(())
}

/// Each growth is refused in turn: the answer is want of memory, or it does not change.
#[test]
fn want_of_memory(rt: HostRuntime) {
    match read(rt.alloc(), SPLIT.as_bytes()) {
        Ok(project) => compare_diamond(&rt, &project),
        Err(fault) => assert!(rt; fault == MmFault::NoMemory),
    }
    let cut = &SPLIT.as_bytes()[..SPLIT.len() - 2];
    let fault = read(rt.alloc(), cut).err();
    let wanted = MmFault::Count(SectionName::ResourceAvailabilities);
    assert!(rt; fault == Some(wanted) || fault == Some(MmFault::NoMemory));
}
