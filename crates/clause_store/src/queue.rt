//! Variables in the order in which conflicts bumped them (Ryvchin and Strichman 2008: VMTF).
use std::alloc::{AllocError, Global};

pub const NO_VARIABLE: u32 = u32::MAX;

#[derive(Clone, Copy)]
struct Link {
    before: u32,
    behind: u32,
    stamp: u64,
}

const NO_LINK: Link = Link {
    before: NO_VARIABLE,
    behind: NO_VARIABLE,
    stamp: 0,
};

#[derive(Drop)]
pub struct Queue {
    links: Vec<Link>,
    first: u32,
    last: u32,
    clock: u64,
    /// No open variable is behind this one.
    next: u32,
}

impl Queue {
    pub fn new(alloc: Global, variables: u32) -> Result<Queue, AllocError> {
        let mut links = Vec::with_capacity(alloc, variables as usize)?;
        links.resize(variables as usize, NO_LINK)?;
        let mut queue = Queue {
            links,
            first: NO_VARIABLE,
            last: NO_VARIABLE,
            clock: 0,
            next: NO_VARIABLE,
        };
        for variable in 0..variables {
            queue.append(variable);
        }
        queue.next = queue.last;
        Ok(queue)
    }

    #[inline(always)]
    fn link(&self, variable: u32) -> Link {
        match self.links.get(variable as usize) {
            Some(link) => *link,
            None => NO_LINK,
        }
    }

    fn set_behind(&mut self, variable: u32, behind: u32) {
        let at = variable as usize;
        if at < self.links.len() {
            self.links[at].behind = behind;
        } else {
            self.first = behind;
        }
    }

    fn set_before(&mut self, variable: u32, before: u32) {
        let at = variable as usize;
        if at < self.links.len() {
            self.links[at].before = before;
        } else {
            self.last = before;
        }
    }

    fn append(&mut self, variable: u32) {
        self.clock = self.clock.saturating_add(1);
        let last = self.last;
        let at = variable as usize;
        if at < self.links.len() {
            self.links[at] = Link {
                before: last,
                behind: NO_VARIABLE,
                stamp: self.clock,
            };
            self.set_behind(last, variable);
            self.last = variable;
        }
    }

    #[inline(always)]
    pub fn stamp(&self, variable: u32) -> u64 {
        self.link(variable).stamp
    }

    /// Takes a variable out for good.
    pub fn remove(&mut self, variable: u32) {
        let link = self.link(variable);
        self.set_behind(link.before, link.behind);
        self.set_before(link.behind, link.before);
        if self.next == variable {
            self.next = link.before;
        }
    }

    /// Moves a variable to the end.
    pub fn bump(&mut self, variable: u32, is_open: bool) {
        let link = self.link(variable);
        if link.behind == NO_VARIABLE {
            return;
        }
        self.set_behind(link.before, link.behind);
        self.set_before(link.behind, link.before);
        if self.next == variable {
            self.next = link.before;
        }
        self.append(variable);
        if is_open {
            self.next = variable;
        }
    }

    #[inline(always)]
    pub fn opened(&mut self, variable: u32) {
        if self.next == NO_VARIABLE || self.stamp(self.next) < self.stamp(variable) {
            self.next = variable;
        }
    }

    pub fn next(&self) -> u32 {
        self.next
    }

    pub fn last(&self) -> u32 {
        self.last
    }

    /// The variable that is decided next after this one.
    pub fn before(&self, variable: u32) -> u32 {
        self.link(variable).before
    }

    /// Steps over a variable that is not open.
    pub fn pass(&mut self) {
        self.next = self.link(self.next).before;
    }

    /// Begins at the end again.
    pub fn reset(&mut self) {
        self.next = self.last;
    }
}
