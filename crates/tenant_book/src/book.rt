ghost use Rattle.std.specs.Prelude.{◌≡◌, ◌≤◌, ◌<◌, ◌↔◌, IsOk, IfOk, IfErr, OnErr, OnOk};
ghost use Rattle.tenant_book.specs.Book.{IsBook, opened, after_hold, after_spend, after_free_up};

use std::marker::Model;

/// The most quanta of a purse.
pub const MOST_QUANTA: u64 = 1_000_000_000_000;

/// A `Book` is a purse's ledger: the quanta granted are the free, held and spent ones together.
#[derive(Clone, Copy, Debug)]
pub struct Book {
    granted: u64,
    free: u64,
    held: u64,
    spent: u64,
}

impl Model for Book {
    ghost use Rattle.tenant_book.specs.Book.{BookData, IsBook};

    ghost Value = { BookData };

    ghost view = { λ b. record { granted = b.granted; free = b.free; held = b.held; spent = b.spent } };

    ghost inverse = { λ b. record { granted = b.granted; free = b.free; held = b.held; spent = b.spent } };

    ghost invariant = { λ b. IsBook (record { granted = b.granted; free = b.free; held = b.held; spent = b.spent }) };
}

/// A `Short` is the number of free quanta if more were asked for.
#[derive(Clone, Copy, Debug, PartialEq, Eq)]
pub struct Short(pub u64);

impl Book {
    /// All quanta are free.
    pub fn new(granted: u64) -> Book
        requires { granted ≤ MOST_QUANTA }
        ensures { result ≡ opened granted }
    {
        Book {
            granted,
            free: granted,
            held: 0,
            spent: 0,
        }
    }

    pub fn granted(&self) -> u64
        ensures exact { result ≡ self.now.granted }
        ensures book { IsBook self.now }
    {
        self.granted
    }

    /// The quanta that no job holds and no node was paid with.
    pub fn free(&self) -> u64
        ensures exact { result ≡ self.now.free }
        ensures book { IsBook self.now }
    {
        self.free
    }

    pub fn held(&self) -> u64
        ensures exact { result ≡ self.now.held }
        ensures book { IsBook self.now }
    {
        self.held
    }

    pub fn spent(&self) -> u64
        ensures exact { result ≡ self.now.spent }
        ensures book { IsBook self.now }
    {
        self.spent
    }

    /// Gives free quanta to a job. If too few are free it fails, and nothing changes.
    pub fn hold(&mut self, quanta: u64) -> Result<(), Short>
        ensures enough { IsOk result ↔ (quanta ≤ self.old.free) }
        ensures held { OnOk result (self.new ≡ after_hold quanta self.old) }
        ensures short { IfErr result (λ short. short.0 ≡ self.old.free) }
        ensures kept { OnErr result (self.new ≡ self.old) }
    {
        if self.free < quanta {
            return Err(Short(self.free));
        }
        self.free -= quanta;
        self.held += quanta;
        Ok(())
    }

    /// Pays for nodes with held quanta.
    pub fn spend(&mut self, quanta: u64)
        requires { quanta ≤ self.old.held }
        ensures { self.new ≡ after_spend quanta self.old }
    {
        self.held -= quanta;
        self.spent += quanta;
    }

    /// Takes held quanta back from a job.
    pub fn free_up(&mut self, quanta: u64)
        requires { quanta ≤ self.old.held }
        ensures { self.new ≡ after_free_up quanta self.old }
    {
        self.held -= quanta;
        self.free += quanta;
    }
}
