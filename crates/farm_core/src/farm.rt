//! The farm.
ghost use Rattle.std.specs.Prelude.{◌≡◌, ℕ, ◌<◌, ◌≤◌, ◌+◌, ◌++◌, ◌*◌, ◌^◌, [], ◌∷◌, IsTrue, true, length, map, get_or, option_map, slice_set, false, None, IfOk, OnOk};
ghost use Rattle.std.specs.Option.{option_copied};
ghost use Rattle.std.specs.Vec.{vec_len, vec_capacity};
ghost use Rattle.farm_core.specs.Tenant.{book, held, ledger_of, find_job, line_of};
ghost use Rattle.farm_core.specs.Step.{has_room};
ghost use Rattle.farm_core.specs.World.{World, purse, view, account_of, new_numbers, opened, opened_books, purse_in, purses_in, IsOfJournal};
ghost use Rattle.farm_core.specs.Config.{is_config};
ghost use Rattle.farm_core.specs.Farm.{IsAccount, IsReached, AreAtHome, ArePassed, purse_numbers};

mod commands;
mod effect;
pub(crate) mod jobs;

use crate::{
    Account, Config, Entry, Event, Line, MOST_ENTRIES, MOST_QUANTA, MOST_TENANTS, Numbers,
};
use job_table::{Job, JobTable};
use std::alloc::{AllocError, Global};
use std::marker::Model;
use tenant_book::Book;

/// The ledgers of all purses, and for each tenant its purse and its numbers.
#[derive(Drop)]
pub(crate) struct Ledgers {
    pub(crate) purses: Vec<u32>,
    pub(crate) books: Vec<Book>,
    pub(crate) numbers: Vec<Numbers>,
}

/// A `Farm` is all tenants' jobs, their journal and their ledgers. Contracts see a `World`.
#[derive(Drop)]
pub struct Farm<J> {
    pub(crate) alloc: Global,
    pub(crate) config: Config,
    pub(crate) jobs: JobTable<J>,
    pub(crate) journal: Vec<Entry>,
    pub(crate) ledgers: Ledgers,
    /// The last of the waiting jobs in front that are skipped: their tenants have no entries for a
    /// turn, and never will. `take_next` begins behind it.
    pub(crate) passed: Option<(u32, u64)>,
}

impl<J> Model for Farm<J> {
    ghost use Rattle.std.specs.Vec.{vec_capacity};
    ghost use Rattle.farm_core.specs.World.{World};
    ghost use Rattle.std.specs.Prelude.{◌≡◌};
    ghost use Rattle.farm_core.specs.Farm.{IsFarm, ArePassed, purse_numbers};

    ghost Value = { World };

    ghost view = { λ f. record {
      config = f.config;
      rows = f.jobs.rows;
      waiting = f.jobs.waiting;
      journal = f.journal.items;
      books = f.ledgers.books.items;
      numbers = f.ledgers.numbers.items;
    } };

    ghost invariant = { λ f.
        IsFarm
        (record {
          config = f.config;
          rows = f.jobs.rows;
          waiting = f.jobs.waiting;
          journal = f.journal.items;
          books = f.ledgers.books.items;
          numbers = f.ledgers.numbers.items;
        })
        (vec_capacity f.journal)
        × (f.ledgers.purses.items ≡ purse_numbers f.config)
        × ArePassed
        (record {
          config = f.config;
          rows = f.jobs.rows;
          waiting = f.jobs.waiting;
          journal = f.journal.items;
          books = f.ledgers.books.items;
          numbers = f.ledgers.numbers.items;
        })
        f.passed };
}

fn number_purses(alloc: Global, config: &Config) -> Result<Vec<u32>, AllocError>
    ensures exact { IfOk result (λ numbers. numbers.items ≡ purse_numbers config.now) }
    ensures config { IsTrue (is_config config.now) }
{
    let mut purses = Vec::new(alloc);
    for tenant in 0..config.tenants().len() {
        purses.push(config.purse_of(tenant as u32))?;
    }
    Ok(purses)
}

fn open_books(alloc: Global, config: &Config) -> Result<Vec<Book>, AllocError>
    ensures { IfOk result (λ books. books.items ≡ opened_books config.now) }
{
    // (a configuration keeps its limits)
    config.tenants();
    let mut books = Vec::new(alloc);
    for purse in 0..config.purses() {
        books.push(Book::new(config.granted(purse)))?;
    }
    Ok(books)
}

fn open_numbers(alloc: Global, config: &Config) -> Result<Vec<Numbers>, AllocError>
    ensures { IfOk result (λ numbers. numbers.items ≡ map (λ line. new_numbers) config.now.tenants) }
{
    let mut numbers = Vec::new(alloc);
    for _ in config.tenants() {
        numbers.push(Numbers { next: 1, used: 0 })?;
    }
    Ok(numbers)
}

/// Reserves space in the journal for this entry, and for a give and a cancel of each of `jobs + 1`
/// jobs: these take no memory later.
pub(crate) fn keep_room(journal: &mut Vec<Entry>, jobs: usize) -> Result<(), AllocError>
    ensures room { OnOk result (length journal.old.items + 2 * jobs + 3 ≤ vec_capacity journal.new) }
    ensures kept { journal.new.items ≡ journal.old.items }
    ensures capacity { vec_capacity journal.old ≤ vec_capacity journal.new }
{
    let Some(owed) = jobs.checked_mul(2) else {
        return Err(AllocError);
    };
    let Some(more) = owed.checked_add(3) else {
        return Err(AllocError);
    };
    journal.reserve(more)
}

impl Ledgers {
    /// Writes `account` back, and the entry.
    pub(crate) fn write_down(
        &mut self,
        journal: &mut Vec<Entry>,
        purse: u32,
        tenant: u32,
        account: Account,
        event: Event,
    )
        requires known { tenant < length self.old.numbers.items }
        requires purse { purse < length self.old.books.items }
        requires room { vec_len journal.old < vec_capacity journal.old }
        ensures purses { self.new.purses.items ≡ self.old.purses.items }
        ensures books { self.new.books.items ≡ slice_set self.old.books.items purse account.book }
        ensures numbers { self.new.numbers.items
            ≡ slice_set self.old.numbers.items tenant (record { next = account.next; used = account.used }) }
        ensures journal { journal.new.items ≡ journal.old.items ++ record { tenant = tenant; event = event } ∷ [] }
        ensures capacity { vec_capacity journal.new ≡ vec_capacity journal.old }
    {
        let Account { book, next, used } = account;
        self.books[purse as usize] = book;
        self.numbers[tenant as usize] = Numbers { next, used };
        journal.push_reserved(Entry { tenant, event });
    }

    /// Writes an entry that leaves the ledger of the purse as it is. Touches no other memory than
    /// the numbers of `tenant` and the journal.
    pub(crate) fn note(&mut self, journal: &mut Vec<Entry>, tenant: u32, event: Event)
        requires known { tenant < length self.old.numbers.items }
        requires few { (get_or self.old.numbers.items tenant new_numbers).used < 2 ^ 63 }
        requires room { vec_len journal.old < vec_capacity journal.old }
        ensures purses { self.new.purses.items ≡ self.old.purses.items }
        ensures books { self.new.books.items ≡ self.old.books.items }
        ensures numbers { self.new.numbers.items ≡ slice_set self.old.numbers.items tenant
            (record (get_or self.old.numbers.items tenant new_numbers) {
              used = (get_or self.old.numbers.items tenant new_numbers).used + 1;
            }) }
        ensures journal { journal.new.items ≡ journal.old.items ++ record { tenant = tenant; event = event } ∷ [] }
        ensures capacity { vec_capacity journal.new ≡ vec_capacity journal.old }
    {
        self.numbers[tenant as usize].used += 1;
        journal.push_reserved(Entry { tenant, event });
    }
}

#[tactic(auto, unfolding(crate::specs::Tenant::line_of))]
pub(crate) fn line_of<J>(job: &Job<J>) -> Line
    ensures { result ≡ line_of job.now }
{
    Line {
        seq: job.seq(),
        phase: job.phase(),
        nodes: job.nodes(),
        left: job.left(),
        best: job.makespan(),
        verdict: job.verdict(),
    }
}

impl<J> Farm<J> {
    /// The farm of `config` in which nothing has happened yet. Fails for want of memory.
    pub fn new(alloc: Global, config: &Config) -> Result<Farm<J>, AllocError>
        ensures { IfOk result (λ farm. farm ≡ opened config.now) }
    {
        let ledgers = Ledgers {
            purses: number_purses(alloc, config)?,
            books: open_books(alloc, config)?,
            numbers: open_numbers(alloc, config)?,
        };
        Ok(Farm {
            alloc,
            config: config.clone_in(alloc)?,
            jobs: JobTable::new(alloc),
            journal: Vec::new(alloc),
            ledgers,
            passed: None,
        })
    }

    /// The number of tenants, 1 to 64.
    pub fn tenants(&self) -> u32
        ensures exact { result ≡ length self.now.config.tenants }
        ensures few { result ≤ MOST_TENANTS }
    {
        self.config.tenants().len() as u32
    }

    /// The number of purses. Leaves no entry.
    pub fn purses(&self) -> u32
        ensures exact { result ≡ purses_in self.now.config }
        ensures few { result ≤ MOST_TENANTS }
    {
        self.ledgers.books.len() as u32
    }

    /// The number of a tenant's purse. Leaves no entry.
    pub fn purse_of(&self, tenant: u32) -> u32
        requires { tenant < length self.now.config.tenants }
        ensures exact { result ≡ purse_in self.now.config tenant }
        ensures known { result < purses_in self.now.config }
    {
        self.ledgers.purses[tenant as usize]
    }

    pub(crate) fn account(&self, tenant: u32) -> Account
        requires { tenant < length self.now.config.tenants }
        ensures exact { result ≡ account_of self.now tenant }
        ensures told { IsAccount (view tenant self.now) result }
        ensures covered { held (view tenant self.now) + (view tenant self.now).spent ≤ (view tenant self.now).granted }
    {
        let numbers = self.ledgers.numbers[tenant as usize];
        Account {
            book: self.ledgers.books[self.purse_of(tenant) as usize],
            next: numbers.next,
            used: numbers.used,
        }
    }

    /// The entries of all tenants in their order. The farm is where they lead. Exactly the jobs
    /// that wait or are dry hold their search.
    pub fn journal(&self) -> &[Entry]
        ensures exact { result.now ≡ self.now.journal }
        ensures replayed { IsOfJournal self.now }
        ensures reached { IsReached self.now }
        ensures home { AreAtHome self.now.rows }
    {
        self.journal.as_slice()
    }

    /// The ledger of a tenant's purse. Leaves no entry.
    pub fn book(&self, tenant: u32) -> Book
        requires { tenant < length self.now.config.tenants }
        ensures { result ≡ book (view tenant self.now) }
    {
        self.account(tenant).book
    }

    /// The ledger of a purse. Leaves no entry.
    pub fn purse_book(&self, number: u32) -> Book
        requires { number < purses_in self.now.config }
        ensures { result ≡ ledger_of (purse number self.now) }
    {
        self.ledgers.books[number as usize]
    }

    #[tactic(auto, using(crate::proofs::ViewLemmas::found_own), unfolding(crate::specs::World::view, crate::specs::World::member))]
    pub(crate) fn job(&self, tenant: u32, seq: u64) -> Option<&Job<J>>
        requires { tenant < length self.now.config.tenants }
        ensures { option_copied result ≡ find_job seq (view tenant self.now).jobs }
    {
        self.jobs.find(tenant, seq)
    }

    /// The line of job `seq` of `tenant`. Leaves no entry.
    pub fn snapshot(&self, tenant: u32, seq: u64) -> Option<Line>
        requires { tenant < length self.now.config.tenants }
        ensures { result ≡ option_map line_of (find_job seq (view tenant self.now).jobs) }
    {
        match self.job(tenant, seq) {
            Some(job) => Some(line_of(job)),
            None => None,
        }
    }

    /// Whether `tenant` may use `entries` entries more.
    pub(crate) fn has_room(&self, tenant: u32, entries: u64) -> bool
        requires known { tenant < length self.now.config.tenants }
        requires few { entries ≤ 2 }
        ensures exact { result ≡ has_room entries (view tenant self.now) }
        ensures few { (view tenant self.now).used ≤ MOST_ENTRIES }
        ensures limited { (view tenant self.now).granted ≤ MOST_QUANTA }
    {
        let limit = self.config.tenants()[tenant as usize].entries;
        let used = self.account(tenant).used;
        used + self.jobs.out_of(tenant) as u64 + entries <= limit
    }

    /// `passed` after a job of `tenant` leaves the queue. If `tenant` has no entries for a turn,
    /// that job may be `passed` itself, so the queue is looked through again. This happens once a
    /// tenant.
    pub(crate) fn passed_without(&self, tenant: u32) -> Option<(u32, u64)>
        requires { tenant < length self.now.config.tenants }
        ensures passed { ArePassed self.now result }
        ensures begins { has_room 2 (view tenant self.now) ≡ false → result ≡ None }
    {
        if self.has_room(tenant, 2) {
            self.passed
        } else {
            None
        }
    }
}
