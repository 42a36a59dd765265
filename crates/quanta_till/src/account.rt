//! What a till shares with its leases.
ghost use Rattle.std.specs.Prelude.{◌≡◌};
ghost use Rattle.quanta_till.specs.declared.rule.TheConstants.{WORDS};

use crate::rule::TillTable;

#[derive(Drop)]
pub(crate) struct SharedTill {
    pub(crate) table: TillTable,
    pub(crate) purse: u32,
    ghost has_words: { table.shared.table_id.words ≡ WORDS },
}
