ghost use Rattle.std.specs.Prelude.{◌≡◌, ◌↔◌, IsTrue, IfOk};

use std::alloc::{AllocError, Global};
use std::marker::Model;

/// A `Sequence` is a list of values. Contracts see the list, never the vector that holds it.
#[derive(Debug, Drop)]
pub struct Sequence<T> {
    items: Vec<T>,
}

impl<T> Model for Sequence<T> {
    ghost use Rattle.std.specs.Prelude.{List};

    ghost Value = { List T };

    ghost view = { λ s. s.items.items };
}

impl<T> From<Vec<T>> for Sequence<T> {
    ghost from_gives = { λ v s. s ≡ v.items };

    fn from(items: Vec<T>) -> Sequence<T> {
        Sequence { items }
    }
}

impl<T> Sequence<T> {
    /// The items, in their order.
    pub fn as_slice(&self) -> &[T]
        ensures { result.now ≡ self.now }
    {
        &self.items
    }

    /// The items, in their order. Takes no memory.
    pub fn into_vec(self) -> Vec<T>
        ensures { result.items ≡ self }
    {
        self.items
    }
}

impl Sequence<u32> {
    /// Fails only without memory.
    pub fn clone_in(&self, alloc: Global) -> Result<Sequence<u32>, AllocError>
        ensures { IfOk result (λ copy. copy ≡ self.now) }
    {
        Ok(Sequence::from(Vec::from_slice(alloc, &self.items)?))
    }
}

pub(crate) fn same_numbers(one: &Sequence<u32>, other: &Sequence<u32>) -> bool
    ensures { IsTrue result ↔ (one.now ≡ other.now) }
{
    one.items == other.items
}
