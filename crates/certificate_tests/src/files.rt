//! A file whose optimum is 4. Activity 2 takes 3 periods and two of three units. Activity 3 takes 2
//! periods and two units, or 4 periods and one.
use certify_cli::CertifyFault::{self, Certificate, Words};
use certify_cli::{certify, certify_bound, certify_infeasible, certify_least, write_clauses};
use clause_proof::ProofFault::{self, Unfinished, Unproved, Word};
use file_commands::CommandFault::Refused;
use mrcpsp::Breach;
use schedule_clauses::CertificateFault::{Horizon, Proof, Schedule};
use std::alloc::AllocError;

const FILE: &[u8] = b"jobs (incl. supersource/sink ): 4
- renewable : 1 R
- nonrenewable : 1 N
PRECEDENCE RELATIONS:
h
1 1 2 2 3
2 1 1 4
3 2 1 4
4 1 0
REQUESTS/DURATIONS:
h
1 1 0 0 0
2 1 3 2 0
3 1 2 2 1
2 4 1 0
4 1 0 0 0
RESOURCEAVAILABILITIES:
h
3 1
";

/// A schedule of 5 periods. The clauses of 4 periods can all be true.
const LATE: &[u8] = b"1:1:0 2:1:0 3:2:0 4:1:5";

/// The line of the optimum.
const OPTIMAL: Result<&str, CertifyFault> = Ok("optimal 4\n");

/// Texts of schedules, and the result of each with an empty proof. The clauses of 3 periods are
/// refuted without a proof.
const TEXTS: [(&[u8], Result<&str, CertifyFault>); 8] = [
    (b"1:1:0 2:1:0 3:2:0 4:1:4", OPTIMAL),
    (
        b"@a job 1 makespan 4 ended 1:1:0 2:1:0 3:2:0 4:1:4\n",
        OPTIMAL,
    ),
    (LATE, Err(Certificate(Proof(Unfinished)))),
    (
        b"1:1:0 2:1:0 3:1:0 4:1:3",
        Err(Certificate(Schedule(Breach::Renewable(1, 0)))),
    ),
    (
        b"1:1:0 2:1:0 3:2:0",
        Err(Certificate(Schedule(Breach::Shape))),
    ),
    (b"", Err(Words)),
    (b"1:1:0  2:1:0\n3:2:0 4:1:04\r\n", OPTIMAL),
    (b"1:1:0 3:2:0 4:1:4", Err(Words)),
];

fn is_answer(said: &Result<String, CertifyFault>, wanted: Result<&str, CertifyFault>) -> bool {
    match (said, wanted) {
        (Ok(line), Ok(text)) => line.as_str() == text,
        (Err(fault), Err(other)) => *fault == other,
        _ => false,
    }
}

#[test]
fn certifies_texts(rt: HostRuntime) -> Result<(), AllocError> {
    for (text, said) in TEXTS {
        let line = certify(rt.alloc(), FILE, text, b"");
        assert!(rt; is_answer(&line, said));
    }
    Ok(())
}

/// Activities 2 and 3 consume one unit each, and there is one. The longest chain is 3.
const STARVED: &[u8] = b"jobs (incl. supersource/sink ): 4
- renewable : 1 R
- nonrenewable : 1 N
PRECEDENCE RELATIONS:
h
1 1 2 2 3
2 1 1 4
3 2 1 4
4 1 0
REQUESTS/DURATIONS:
h
1 1 0 0 0
2 1 3 2 1
3 1 2 2 1
2 4 1 1
4 1 0 0 0
RESOURCEAVAILABILITIES:
h
3 1
";

/// Files and steps, and the lower bound of each. Of the first at least ten units are needed in all,
/// so three periods of three units are not enough.
const BOUNDS: [(&[u8], u32, &str); 4] = [
    (FILE, 0, "at least 3\n"),
    (FILE, 1000, "at least 4\n"),
    (STARVED, 0, "at least 3\n"),
    (STARVED, 1000, "infeasible\n"),
];

#[test]
fn tells_bounds_by_prices(rt: HostRuntime) -> Result<(), AllocError> {
    for (file, steps, told) in BOUNDS {
        assert!(rt; is_answer(&certify_least(rt.alloc(), file, steps), Ok(told)));
    }
    let said = certify_infeasible(rt.alloc(), STARVED, b"");
    assert!(rt; is_answer(&said, Ok("infeasible\n")));
    let said = certify_bound(rt.alloc(), FILE, 4, b"");
    assert!(rt; is_answer(&said, Ok("at least 4\n")));
    Ok(())
}

#[test]
fn refuses_what_is_feasible_and_too_long(rt: HostRuntime) -> Result<(), AllocError> {
    let mut written = Vec::new(rt.alloc());
    let said = certify_infeasible(rt.alloc(), FILE, b"");
    assert!(rt; is_answer(&said, Err(Certificate(Proof(Unfinished)))));
    let said = write_clauses(rt.alloc(), FILE, Some(8), &mut written);
    assert!(rt; said == Err(Refused(Certificate(Horizon(7)))));
    assert!(rt; written.is_empty());
    Ok(())
}

/// Bytes that prove nothing of clauses that can all be true, without the variable 100,000. The
/// fault names the first bad step: its last line, or in the binary form its number.
const REFUSED: [(&[u8], ProofFault); 9] = [
    (b"", Unfinished),
    (b"d 7 0\n", Unfinished),
    (b"100000 0\n", Unproved(1)),
    (b"d 7 0\n\n-100000\n0\n0\n", Unproved(4)),
    (b"x", Word(1)),
    (b"d 7 0\n100000 x 0", Word(2)),
    (b"d 7 0\nd 8", Word(2)),
    (b"d\x0e\x00a\xc0\x9a\x0c\x00", Unproved(2)),
    (b"d\x0e\x00d\x10\x00x", Word(3)),
];

#[test]
fn tells_the_fault_of_a_proof(rt: HostRuntime) -> Result<(), AllocError> {
    for (proof, fault) in REFUSED {
        let wanted = Err(Certificate(Proof(fault)));
        assert!(rt; is_answer(&certify(rt.alloc(), FILE, LATE, proof), wanted));
        assert!(rt; is_answer(&certify_infeasible(rt.alloc(), FILE, proof), wanted));
    }
    Ok(())
}
