//! The names of tenants.
ghost use Rattle.std.specs.Prelude.{◌≡◌, ◌↔◌, ◌<◌, ◌≤◌, Some, None, IsTrue, if◌then◌else◌, length};
ghost use Rattle.std.specs.List.{list_all};
ghost use Rattle.farm_core.specs.Name.{is_mark, is_letter, is_name, begins_well, same_bytes, tag_of};

use std::marker::Model;

/// The most bytes of a name.
pub const MOST_NAME: usize = 32;

/// A `Name` is a tenant's name: 1 to 32 bytes of `a` to `z`, `0` to `9`, `_` and `-`, the first a
/// letter. Contracts see its bytes. Comparing tags first decides most comparisons.
#[derive(Debug, Drop)]
pub struct Name {
    bytes: [u8; MOST_NAME],
    len: usize,
    tag: u32,
}

impl Model for Name {
    ghost use Rattle.std.specs.Prelude.{◌≡◌, List, ℕ, take, ◌≤◌, IsTrue};
    ghost use Rattle.farm_core.specs.declared.name.TheConstants.{MOST_NAME};
    ghost use Rattle.farm_core.specs.Name.{is_name, tag_of};

    ghost Value = { List ℕ };

    ghost view = { λ n. take n.len n.bytes };

    ghost invariant = { λ n. (n.len ≤ MOST_NAME)
        × IsTrue (is_name (take n.len n.bytes))
        × (n.tag ≡ tag_of (take n.len n.bytes)) };
}

fn is_mark(byte: u8) -> bool
    ensures { result ≡ is_mark byte }
{
    matches!(byte, b'a'..=b'z' | b'0'..=b'9' | b'_' | b'-')
}

fn begins_well(bytes: &[u8]) -> bool
    ensures { result ≡ begins_well bytes.now }
{
    match bytes.first() {
        Some(first) => first.is_ascii_lowercase(),
        None => false,
    }
}

fn are_marks(bytes: &[u8]) -> bool
    ensures { result ≡ list_all is_mark bytes.now }
{
    for byte in bytes {
        if !is_mark(*byte) {
            return false;
        }
    }
    true
}

/// The tag of a name: its length and its last two bytes.
fn tag_of(name: &[u8]) -> u32
    requires some { 0 < length name.now }
    requires few { length name.now ≤ MOST_NAME }
    ensures { result ≡ tag_of name.now }
{
    let len = name.len();
    let last = u32::from(name[len - 1]);
    let before = u32::from(name[len.saturating_sub(2)]);
    (before * 256 + last) * 256 + len as u32
}

#[tactic(auto, using(crate::proofs::NameLemmas::same_bytes_is))]
fn are_same(one: &[u8], other: &[u8]) -> bool
    ensures value { result ≡ same_bytes one.now other.now }
    ensures same { IsTrue result ↔ (one.now ≡ other.now) }
{
    one == other
}

impl Name {
    /// The name of `bytes`, or `None` if they are none.
    #[tactic(auto, unfolding(crate::specs::Name::is_name))]
    pub fn new(given: &[u8]) -> Option<Name>
        ensures { result ≡ (if is_name given.now then Some given.now else None) }
    {
        let len = given.len();
        if MOST_NAME < len || !begins_well(given) || !are_marks(given) {
            return None;
        }
        let mut bytes = [0; MOST_NAME];
        bytes[..len].copy_from_slice(given);
        let tag = tag_of(given);
        Some(Name { bytes, len, tag })
    }

    pub fn as_bytes(&self) -> &[u8]
        ensures bytes { result.now ≡ self.now }
        ensures name { IsTrue (is_name self.now) }
    {
        &self.bytes[..self.len]
    }

    /// Takes no memory.
    pub fn copy(&self) -> Name
        ensures { result ≡ self.now }
    {
        Name {
            bytes: self.bytes,
            len: self.len,
            tag: self.tag,
        }
    }

    pub fn is_same(&self, other: &Name) -> bool
        ensures value { result ≡ same_bytes self.now other.now }
        ensures same { IsTrue result ↔ (self.now ≡ other.now) }
    {
        self.tag == other.tag && are_same(self.as_bytes(), other.as_bytes())
    }
}
