//! What the farm keeps of each tenant besides its jobs.
use tenant_book::Book;

/// The number of a tenant's next job, and the entries of the journal that it has used.
#[derive(Clone, Copy, Debug)]
pub struct Numbers {
    pub(crate) next: u64,
    pub(crate) used: u64,
}

/// The ledger of a tenant's purse, and the tenant's own numbers.
#[derive(Clone, Copy, Debug)]
pub struct Account {
    pub(crate) book: Book,
    pub(crate) next: u64,
    pub(crate) used: u64,
}
