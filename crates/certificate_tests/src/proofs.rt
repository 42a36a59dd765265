//! Proofs of four clauses over two variables that no values make all true.
use clause_kernel::ClauseList;
use clause_proof::ProofFault::{self, Unfinished, Unproved, Word};
use clause_proof::refute;
use std::alloc::{AllocError, Global};

fn square(alloc: Global) -> Result<ClauseList, AllocError> {
    let mut clauses = ClauseList::new(alloc);
    for clause in [[2, 4], [3, 4], [2, 5], [3, 5]] {
        clauses.push(&clause)?;
    }
    Ok(clauses)
}

/// Proofs, and the result of each. The binary ones begin with the byte `a`.
const PROOFS: [(&[u8], Result<(), ProofFault>); 12] = [
    (b"2 0\n0\n", Ok(())),
    (b"  2\r\n0 1 2 0", Ok(())),
    (b"a\x04\x00a\x00", Ok(())),
    (b"d 1 -1 0\n2 0\n", Ok(())),
    (b"", Err(Unfinished)),
    (b"1 2 0\n", Err(Unfinished)),
    (b"d 1 2 0\n\n2 0\n", Err(Unproved(3))),
    (b"1 2 3 0\n2 x", Err(Word(2))),
    (b"1 2", Err(Word(1))),
    (b"-0 0\n", Err(Word(1))),
    (b"d\x02\x04\x00a\x04\x00", Err(Unproved(2))),
    (b"a\x02\x04\x00a\xff\xff\xff\xff\xff\x7f\x00", Err(Word(2))),
];

#[test]
fn tells_proofs_from_faults(rt: HostRuntime) -> Result<(), AllocError> {
    for (proof, said) in PROOFS {
        assert!(rt; refute(rt.alloc(), square(rt.alloc())?, proof) == said);
    }
    Ok(())
}
