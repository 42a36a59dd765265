//! Whose a request is, and what is said of it where the farm is not asked.
ghost use Rattle.std.specs.Prelude.{◌≡◌, ◌<◌, length, position, IfSome};
ghost use Rattle.farm_core.specs.Config.{ConfigData};
ghost use Rattle.farm_session.specs.Routed.{is_line_of, fault_routed, routed_to, tenant_number, routed_of, call_routed, IsKnown};

use crate::ask::{Ask, ask_of};
use farm_core::{Command, Config, Name, Reply, TenantLine};
use session_lines::{LineFault, Request, Said};

/// A `Routed` is what was read, before the farm is asked.
#[derive(Drop)]
pub enum Routed<A> {
    End,
    /// The reader failed, or a request was too long.
    ReadFailed,
    /// The farm is not asked: the reply, and whose it is.
    Answered(Option<Name>, Said),
    /// A tenant's number and name, and what it asks for.
    Asked(u32, Name, A),
}

fn is_line_of(line: &TenantLine, name: &Name) -> bool
    ensures { result ≡ is_line_of name.now line.now }
{
    line.name.is_same(name)
}

fn place_of(lines: &[TenantLine], name: &Name) -> Option<usize>
    ensures exact { result ≡ position (is_line_of name.now) lines.now }
    ensures known { IfSome result (λ place. place < length lines.now) }
{
    lines.iter().position(|line| is_line_of(line, name))
}

/// The reply to a request that could not be read.
fn fault_routed<A>(fault: LineFault) -> Routed<A>
    ensures exact { result ≡ fault_routed fault }
    ensures known { (config : ConfigData) → IsKnown config result }
{
    match fault {
        LineFault::Eof => Routed::End,
        LineFault::Read => Routed::ReadFailed,
        LineFault::TooLong(who) => Routed::Answered(who, Said::LongLine),
        LineFault::Syntax(who) => Routed::Answered(who, Said::Syntax),
        LineFault::File(who, fault) => Routed::Answered(Some(who), Said::File(fault)),
        LineFault::NoMemory(who) => Routed::Answered(Some(who), Said::Reply(Reply::NoMemory)),
    }
}

/// What the tenant named `who` asks for, if there is one.
fn routed_to<A: Drop>(config: &Config, who: Name, asked: A) -> Routed<A>
    ensures exact { result ≡ routed_to who asked (tenant_number who config.now) }
    ensures known { IsKnown config.now result }
{
    match place_of(config.tenants(), &who) {
        Some(place) => Routed::Asked(place as u32, who, asked),
        None => {
            drop(asked);
            Routed::Answered(Some(who), Said::NoTenant)
        }
    }
}

/// What a script asks for, or the reply to what cannot be asked.
pub fn route(config: &Config, read: Result<Request, LineFault>) -> Routed<Ask>
    ensures exact { result ≡ routed_of config.now read }
    ensures known { IsKnown config.now result }
{
    match read {
        Ok(Request { who, what }) => routed_to(config, who, ask_of(what)),
        Err(fault) => fault_routed(fault),
    }
}

/// What a session asks for, or the reply to what cannot be asked. A turn is a `Syntax` fault here.
pub fn route_call(config: &Config, read: Result<Request, LineFault>) -> Routed<Command<()>>
    ensures exact { result ≡ call_routed config.now read }
    ensures known { IsKnown config.now result }
{
    match read {
        Ok(Request { who, what }) => match ask_of(what) {
            Ask::Call(call) => routed_to(config, who, call),
            Ask::Turn(_) => Routed::Answered(None, Said::Syntax),
        },
        Err(fault) => fault_routed(fault),
    }
}
