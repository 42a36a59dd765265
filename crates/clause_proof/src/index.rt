//! Finds a clause to be deleted by its signature. No proof rests on it.
use std::alloc::{AllocError, Global};

const NONE: u32 = u32::MAX;

/// Chains of clauses whose signatures share a remainder.
#[derive(Drop)]
pub(crate) struct ClauseIndex {
    heads: Vec<u32>,
    nexts: Vec<u32>,
    signatures: Vec<u64>,
}

/// It does not depend on the order of the literals.
pub(crate) fn signature(clause: &[u32]) -> u64 {
    let mut sum = 0u64;
    for literal in clause {
        let spread = (*literal as u64 + 1).wrapping_mul(0x9E37_79B9_7F4A_7C15);
        let mixed = (spread ^ (spread >> 29)).wrapping_mul(0xBF58_476D_1CE4_E5B9);
        sum = sum.wrapping_add(mixed ^ (mixed >> 32));
    }
    sum
}

impl ClauseIndex {
    pub(crate) fn new(alloc: Global, size: usize) -> Result<ClauseIndex, AllocError> {
        let mut heads = Vec::with_capacity(alloc, size)?;
        heads.resize(size, NONE)?;
        Ok(ClauseIndex {
            heads,
            nexts: Vec::new(alloc),
            signatures: Vec::new(alloc),
        })
    }

    fn head_of(&self, signature: u64) -> Option<usize> {
        if self.heads.is_empty() {
            None
        } else {
            Some((signature % self.heads.len() as u64) as usize)
        }
    }

    pub(crate) fn add(&mut self, signature: u64) -> Result<(), AllocError> {
        let number = self.nexts.len();
        self.signatures.push(signature)?;
        if let Ok(number) = u32::try_from(number)
            && let Some(head) = self.head_of(signature)
            && head < self.heads.len()
        {
            self.nexts.push(self.heads[head])?;
            self.heads[head] = number;
        } else {
            self.nexts.push(NONE)?;
        }
        Ok(())
    }

    pub(crate) fn remove(&mut self, signature: u64) -> Option<usize> {
        let head = self.head_of(signature)?;
        if head >= self.heads.len() {
            return None;
        }
        let mut before = None;
        let mut number = self.heads[head] as usize;
        for _ in 0..self.nexts.len() {
            if number >= self.nexts.len() || number >= self.signatures.len() {
                return None;
            }
            if self.signatures[number] == signature {
                let next = self.nexts[number];
                match before {
                    None => self.heads[head] = next,
                    Some(previous) => {
                        if previous < self.nexts.len() {
                            self.nexts[previous] = next;
                        }
                    }
                }
                return Some(number);
            }
            before = Some(number);
            number = self.nexts[number] as usize;
        }
        None
    }
}
