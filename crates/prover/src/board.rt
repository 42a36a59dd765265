//! What the searches of a team have sent each other.
use clause_kernel::Formula;
use clause_search::Message;
use std::alloc::{AllocError, Global};

/// The most messages that are kept.
const MOST: usize = 65_536;

/// A `Sent` is a message with the place of its sender in the team.
#[derive(Drop)]
pub(crate) struct Sent<L: Formula> {
    pub(crate) sender: usize,
    pub(crate) message: Message<L>,
}

/// A `MessageBoard` is the newest messages of a team. When they are too many all are dropped:
/// whoever comes later has to do without.
#[derive(Drop)]
pub(crate) struct MessageBoard<L: Formula> {
    messages: Vec<Sent<L>>,
    dropped: u64,
}

impl<L: Formula> MessageBoard<L> {
    pub(crate) fn new(alloc: Global) -> MessageBoard<L> {
        MessageBoard {
            messages: Vec::new(alloc),
            dropped: 0,
        }
    }

    /// How many messages were ever posted.
    pub(crate) fn count(&self) -> u64 {
        self.dropped.saturating_add(self.messages.len() as u64)
    }

    /// The messages behind the first `seen` that were ever posted.
    pub(crate) fn since(&self, seen: u64) -> &[Sent<L>] {
        let from = seen.saturating_sub(self.dropped) as usize;
        self.messages.get(from..).unwrap_or_default()
    }

    pub(crate) fn post(&mut self, sender: usize, told: Vec<Message<L>>) -> Result<(), AllocError> {
        if self.messages.len() > MOST {
            self.dropped = self.count();
            self.messages.clear();
        }
        for message in told {
            self.messages.push(Sent { sender, message })?;
        }
        Ok(())
    }
}
