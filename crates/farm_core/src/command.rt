//! Commands as values, and the call that each asks for.
ghost use Rattle.std.specs.Prelude.{◌≡◌, ℕ, ◌<◌, length};
ghost use Rattle.farm_core.specs.declared.reply.Line.{Line};
ghost use Rattle.farm_core.specs.Step.{Replied, step};
ghost use Rattle.farm_core.specs.World.{view};
ghost use Rattle.farm_core.specs.Farm.{IsReply};
ghost use Rattle.farm_core.specs.Command.{event_of, IsFresh, WaitsThen};

use crate::{Event, Farm, Reply};
use strategy::{Plan, Strategy};

/// A `Command` is what a tenant asks of the farm.
#[derive(Drop)]
pub enum Command<J> {
    Submit {
        plan: Plan,
        quanta: u64,
        /// A fresh search of this tenant and plan.
        search: J,
    },
    Fund {
        seq: u64,
        quanta: u64,
    },
    Status(u64),
    Fetch(u64),
    Cancel(u64),
    Forget(u64),
    Ledger,
}

impl<J: Strategy> Farm<J> {
    /// Makes the call that `command` names. Refused as that call is.
    pub fn command(&mut self, tenant: u32, command: Command<J>) -> Reply
        requires known { tenant < length self.old.config.tenants }
        requires fresh { IsFresh J.meaning tenant command }
        ensures follows { IsReply self.old tenant (event_of command) result self.new }
        ensures turns { WaitsThen self.old tenant (event_of command) result self.new }
        ensures accepted { (seq : ℕ) (line : Line) → event_of command ≡ Event.Cancel seq
            → (step (view tenant self.old) (Event.Cancel seq)).answer ≡ Replied (Reply.Line line)
            → result ≡ Reply.Line line }
    {
        match command {
            Command::Submit {
                plan,
                quanta,
                search,
            } => self.submit(tenant, plan, quanta, search),
            Command::Fund { seq, quanta } => self.fund(tenant, seq, quanta),
            Command::Status(seq) => self.status(tenant, seq),
            Command::Fetch(seq) => self.result(tenant, seq),
            Command::Cancel(seq) => self.cancel(tenant, seq),
            Command::Forget(seq) => self.forget(tenant, seq),
            Command::Ledger => self.ledger(tenant),
        }
    }
}
