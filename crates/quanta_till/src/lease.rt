ghost use Rattle.std.specs.Prelude.{◌≡◌, ◌+◌, ◌<◌, ◌≤◌};
ghost use Rattle.quanta_till.specs.Lease.{after_draw, after_use, after_settle};

use crate::holding::LEASE_LIMIT;
use crate::owned::Owned;
use std::marker::Model;

/// A `Lease` is quanta of a till in one holder's hands. When it is dropped, it hands back the rest.
/// It shares the till: so its holder borrows nothing, and may move to another thread. Its calls
/// take no memory and no lock.
pub struct Lease {
    owned: Owned,
}

impl Model for Lease {
    ghost use Rattle.quanta_till.specs.Lease.{LeaseValue};

    ghost Value = { LeaseValue };

    ghost view = { λ l. l.owned };
}

impl Lease {
    pub(crate) fn new(owned: Owned) -> Lease
        ensures { result ≡ owned }
    {
        Lease { owned }
    }

    /// The tenant of the purse for whom quanta are drawn.
    pub fn tenant(&self) -> u32
        ensures { result ≡ self.now.tenant }
    {
        self.owned.tenant()
    }

    /// The quanta that were drawn, and neither used nor handed back.
    pub fn left(&self) -> u64
        ensures left { result ≡ self.now.left }
        ensures counted { (self.now.used + self.now.back) + result ≡ self.now.drawn }
        ensures limited { result ≤ LEASE_LIMIT }
    {
        self.owned.left()
    }

    /// Draws `n` quanta: POOL loses them, modulo 2^64.
    pub fn draw(&mut self, n: u64)
        requires { self.old.left + n ≤ LEASE_LIMIT }
        ensures { self.new ≡ after_draw self.old n }
    {
        self.owned.draw(n);
    }

    /// Uses one of the quanta that are left: SPENT gains it, modulo 2^64.
    pub fn use_one(&mut self)
        requires { 0 < self.old.left }
        ensures { self.new ≡ after_use self.old 1 }
    {
        self.owned.use_one();
    }

    /// Uses `n` of the quanta that are left, in one step.
    pub fn use_up(&mut self, n: u64)
        requires { n ≤ self.old.left }
        ensures { self.new ≡ after_use self.old n }
    {
        self.owned.use_up(n);
    }

    /// Hands back what is left to POOL. The lease may draw again.
    pub fn settle(&mut self)
        ensures { self.new ≡ after_settle self.old }
    {
        self.owned.settle();
    }
}

impl Drop for Lease {
    fn drop(self) {
        let Lease { owned } = self;
        let _ended = owned.end();
    }
}
