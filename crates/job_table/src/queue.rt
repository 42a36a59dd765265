//! The queue of jobs that wait, in the order of their turns. Each job has the keys of its
//! neighbours.
ghost use Rattle.std.specs.Prelude.{◌≡◌, ℕ, ◌<◌, ◌^◌, cond, is_some, true, false, length, filter, option_map};
ghost use Rattle.job_table.specs.Table.{is_key, waiting_then};
ghost use Rattle.job_table.specs.Queue.{jobs_in, links_at, line_of, IsLinked, AreRelinked, with_first, with_last, joined, one_gone, lengthened, one_come};

use crate::Job;
use indexmap::IndexMap;
use std::mem;

#[derive(Clone, Copy)]
pub(crate) struct Links {
    pub(crate) before: Option<(u32, u64)>,
    pub(crate) behind: Option<(u32, u64)>,
}

pub(crate) const NO_LINKS: Links = Links {
    before: None,
    behind: None,
};

#[derive(Drop)]
pub(crate) struct Linked<J> {
    pub(crate) job: Job<J>,
    pub(crate) links: Links,
}

#[derive(Clone, Copy)]
pub(crate) struct Queue {
    pub(crate) first: Option<(u32, u64)>,
    pub(crate) last: Option<(u32, u64)>,
    pub(crate) len: usize,
}

fn relink<J>(jobs: &mut IndexMap<(u32, u64), Linked<J>>, tenant: u32, seq: u64, to: Links) -> Links
    ensures had { (links : Links) → links_at tenant seq jobs.old.entries ≡ Some links → result ≡ links }
    ensures links { AreRelinked (Some (tenant, seq)) (λ links. to) jobs.old.entries jobs.new.entries }
    ensures jobs { jobs_in jobs.new.entries ≡ jobs_in jobs.old.entries }
{
    match jobs.get_mut(&(tenant, seq)) {
        Some(linked) => mem::replace(&mut linked.links, to),
        None => to,
    }
}

/// Sets the successor of `key` to `to`, or the head of the queue if `key` is `None`.
fn put_behind<J>(
    jobs: &mut IndexMap<(u32, u64), Linked<J>>,
    queue: &mut Queue,
    key: Option<(u32, u64)>,
    to: Option<(u32, u64)>,
)
    ensures links { AreRelinked key (λ links. record links { behind = to }) jobs.old.entries jobs.new.entries }
    ensures jobs { jobs_in jobs.new.entries ≡ jobs_in jobs.old.entries }
    ensures queue { queue.new ≡ with_first key to queue.old }
{
    match key {
        Some(key) => {
            if let Some(linked) = jobs.get_mut(&key) {
                linked.links.behind = to;
            }
        }
        None => queue.first = to,
    }
}

/// Sets the predecessor of `key` to `to`, or the tail of the queue if `key` is `None`.
fn put_before<J>(
    jobs: &mut IndexMap<(u32, u64), Linked<J>>,
    queue: &mut Queue,
    key: Option<(u32, u64)>,
    to: Option<(u32, u64)>,
)
    ensures links { AreRelinked key (λ links. record links { before = to }) jobs.old.entries jobs.new.entries }
    ensures jobs { jobs_in jobs.new.entries ≡ jobs_in jobs.old.entries }
    ensures queue { queue.new ≡ with_last key to queue.old }
{
    match key {
        Some(key) => {
            if let Some(linked) = jobs.get_mut(&key) {
                linked.links.before = to;
            }
        }
        None => queue.last = to,
    }
}

pub(crate) fn unlink<J>(jobs: &mut IndexMap<(u32, u64), Linked<J>>, queue: &mut Queue, links: Links)
    requires { 0 < queue.old.len }
    ensures links { (t s : ℕ) → links_at t s jobs.new.entries
        ≡ option_map (joined links t s) (links_at t s jobs.old.entries) }
    ensures jobs { jobs_in jobs.new.entries ≡ jobs_in jobs.old.entries }
    ensures queue { queue.new ≡ one_gone links queue.old }
{
    put_behind(jobs, queue, links.before, links.behind);
    put_before(jobs, queue, links.behind, links.before);
    queue.len -= 1;
}

fn link_last<J>(
    jobs: &mut IndexMap<(u32, u64), Linked<J>>,
    queue: &mut Queue,
    tenant: u32,
    seq: u64,
)
    requires { queue.old.len < 2 ^ 63 }
    ensures links { (t s : ℕ) → links_at t s jobs.new.entries
        ≡ option_map (lengthened tenant seq queue.old.last t s) (links_at t s jobs.old.entries) }
    ensures jobs { jobs_in jobs.new.entries ≡ jobs_in jobs.old.entries }
    ensures queue { queue.new ≡ one_come tenant seq queue.old }
{
    let key = Some((tenant, seq));
    let last = queue.last;
    let links = Links {
        before: last,
        behind: None,
    };
    relink(jobs, tenant, seq, links);
    put_behind(jobs, queue, last, key);
    queue.last = key;
    queue.len += 1;
}

/// Takes no memory, and time that does not depend on the length of the queue.
pub(crate) fn requeue<J>(
    jobs: &mut IndexMap<(u32, u64), Linked<J>>,
    queue: &mut Queue,
    tenant: u32,
    seq: u64,
    was: bool,
    is: bool,
)
    requires linked { IsLinked jobs.old.entries queue.old (line_of jobs.old.entries queue.old) }
    requires there { is_some (links_at tenant seq jobs.old.entries) ≡ true }
    requires stood { length (filter (is_key tenant seq) (line_of jobs.old.entries queue.old)) ≡ cond was 1 0 }
    requires few { was ≡ false → is ≡ true → length (line_of jobs.old.entries queue.old) < 2 ^ 63 }
    ensures linked { IsLinked jobs.new.entries queue.new
        (waiting_then tenant seq was is (line_of jobs.old.entries queue.old)) }
    ensures jobs { jobs_in jobs.new.entries ≡ jobs_in jobs.old.entries }
{
    if was == is {
        return;
    }
    if is {
        link_last(jobs, queue, tenant, seq);
    } else {
        let links = relink(jobs, tenant, seq, NO_LINKS);
        unlink(jobs, queue, links);
    }
}
