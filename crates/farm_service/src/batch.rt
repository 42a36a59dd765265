//! Queries that are read together, answered in one turn of the farm's lock, and then replied to.
ghost use Rattle.std.specs.Prelude.{◌≡◌, ℕ, ⊤, ◌≤◌, ◌+◌, ◌++◌, true, List, [], length, reverse, IfOk, IfErr, IfSome};
ghost use Rattle.std.specs.Vec.{vec_capacity};
ghost use Rattle.farm_core.specs.Command.{event_of};
ghost use Rattle.farm_pool.specs.Query.{event_about};
ghost use Rattle.farm_pool.specs.declared.query.Query.{Query as QueryData};
ghost use Rattle.farm_session.specs.Routed.{IsKnown};
ghost use Rattle.farm_service.specs.Batch.{IsQueryOf, AreRead, AreReplied, IsEmptyBatch};

use crate::wire::Ahead;
use farm_core::{Command, Config, Name, Reply};
use farm_pool::{About, Query};
use farm_session::{Routed, route_call};
use session_lines::{Said, read_request, write_reply};
use std::alloc::{AllocError, Global};
use std::io::{BufRead, Write};
use watched_io::Watch;

/// The most requests that are read before they are answered.
pub(crate) const MOST_TOGETHER: usize = 16;

/// A `Batch` is queries that were read, with their tenants' names, and then their replies.
#[derive(Drop)]
pub(crate) struct Batch {
    pub(crate) queries: Vec<Query>,
    pub(crate) names: Vec<Name>,
    pub(crate) replies: Vec<Reply>,
}

impl Batch {
    pub(crate) fn new(alloc: Global) -> Result<Batch, AllocError>
        ensures { IfOk result (λ batch. IsEmptyBatch batch) }
    {
        Ok(Batch {
            queries: Vec::with_capacity(alloc, MOST_TOGETHER)?,
            names: Vec::with_capacity(alloc, MOST_TOGETHER)?,
            replies: Vec::with_capacity(alloc, MOST_TOGETHER)?,
        })
    }

    /// Turns the replies and their names, which are taken from the end, and forgets the queries.
    pub(crate) fn turn(&mut self)
        ensures queries { self.new.queries.items ≡ [] }
        ensures names { self.new.names.items ≡ reverse self.old.names.items }
        ensures replies { self.new.replies.items ≡ reverse self.old.replies.items }
        ensures room { (vec_capacity self.new.queries ≡ vec_capacity self.old.queries)
            × (vec_capacity self.new.names ≡ vec_capacity self.old.names)
            × (vec_capacity self.new.replies ≡ vec_capacity self.old.replies) }
    {
        self.queries.clear();
        self.names.reverse();
        self.replies.reverse();
    }
}

/// What a call asks to see, or `None` if it may change a job or a purse.
fn about_of(call: &Command<()>) -> Option<About>
    ensures { IfSome result (λ about. event_of call.now ≡ event_about about) }
{
    match call {
        Command::Status(seq) => Some(About::Status(*seq)),
        Command::Fetch(seq) => Some(About::Fetch(*seq)),
        Command::Ledger => Some(About::Ledger),
        _ => None,
    }
}

/// A query with its tenant's name, or what was routed if it is none.
fn query_of(routed: Routed<Command<()>>) -> Result<(Query, Name), Routed<Command<()>>>
    ensures query { IfOk result (λ it. IsQueryOf routed it.0 it.1) }
    ensures other { IfErr result (λ other. other ≡ routed) }
{
    match routed {
        Routed::Asked(tenant, name, call) => match about_of(&call) {
            Some(about) => Ok((Query { tenant, about }, name)),
            None => Err(Routed::Asked(tenant, name, call)),
        },
        other => Err(other),
    }
}

/// Reads up to `most` requests into `batch` while they are queries and a further one has been read
/// ahead. Returns the request that is none, if there is one.
pub(crate) fn gather<I: BufRead + Ahead>(
    alloc: Global,
    config: &Config,
    reader: &mut I,
    watch: &mut Watch<I>,
    batch: &mut Batch,
    most: usize,
) -> Option<Routed<Command<()>>>
    requires queries { length batch.old.queries.items + most ≤ vec_capacity batch.old.queries }
    requires names { length batch.old.names.items + most ≤ vec_capacity batch.old.names }
    ensures last { IfSome result (λ routed. IsKnown config.now routed) }
    ensures read { (queries : List QueryData) × (names : List (List ℕ))
        × (batch.new.queries.items ≡ batch.old.queries.items ++ queries)
        × (batch.new.names.items ≡ batch.old.names.items ++ names)
        × AreRead config.now most queries names result
        (I.remaining reader.old) watch.old (I.remaining reader.new) watch.new }
    ensures room { (vec_capacity batch.new.queries ≡ vec_capacity batch.old.queries)
        × (vec_capacity batch.new.names ≡ vec_capacity batch.old.names) }
    ensures replies { batch.new.replies ≡ batch.old.replies }
{
    if most == 0 {
        return None;
    }
    let routed = route_call(config, read_request(alloc, reader, watch));
    let (query, name) = match query_of(routed) {
        Ok(it) => it,
        Err(other) => return Some(other),
    };
    batch.queries.push_reserved(query);
    batch.names.push_reserved(name);
    if !reader.is_query_ahead() {
        return None;
    }
    gather(alloc, config, reader, watch, batch, most - 1)
}

/// Writes the replies of a turned batch. Returns whether all were written.
pub(crate) fn tell_all<O: Write>(batch: &mut Batch, writer: &mut O, watch: &mut Watch<O>) -> bool
    requires { length batch.old.names.items ≡ length batch.old.replies.items }
    ensures told { AreReplied (reverse batch.old.names.items) (reverse batch.old.replies.items) result
        (O.contents writer.old) watch.old (O.contents writer.new) watch.new }
    ensures left { result ≡ true → (batch.new.names.items ≡ []) × (batch.new.replies.items ≡ []) }
    ensures queries { batch.new.queries ≡ batch.old.queries }
    ensures room { (vec_capacity batch.new.names ≡ vec_capacity batch.old.names)
        × (vec_capacity batch.new.replies ≡ vec_capacity batch.old.replies) }
{
    let Some(name) = batch.names.pop() else {
        return true;
    };
    let Some(reply) = batch.replies.pop() else {
        return true;
    };
    if write_reply(writer, watch, Some(name), &Said::Reply(reply)).is_err() {
        return false;
    }
    tell_all(batch, writer, watch)
}
