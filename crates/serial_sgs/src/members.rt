//! Sets of activities, a bit for each.
ghost use Rattle.std.specs.Prelude.{◌≡◌, ℕ, ◌*◌, ◌<◌, ◌≤◌, true, false, MatchOption};
ghost use Rattle.serial_sgs.specs.Members.{has, IsNext, IsOver};

pub fn put_in(words: &mut [u64; 4], activity: usize)
    requires { activity < 256 }
    ensures own { has words.new activity ≡ true }
    ensures others { (j : ℕ) → (j ≡ activity → ⊥) → has words.new j ≡ has words.old j }
{
    words[activity / 64] |= 1 << (activity % 64);
}

pub fn take_out(words: &mut [u64; 4], activity: usize)
    requires { activity < 256 }
    ensures own { has words.new activity ≡ false }
    ensures others { (j : ℕ) → (j ≡ activity → ⊥) → has words.new j ≡ has words.old j }
{
    words[activity / 64] &= !(1 << (activity % 64));
}

pub(crate) fn keep_in(words: &mut [u64; 4], activity: usize, is_member: bool)
    requires { activity < 256 }
    ensures own { has words.new activity ≡ is_member }
    ensures others { (j : ℕ) → (j ≡ activity → ⊥) → has words.new j ≡ has words.old j }
{
    if is_member {
        put_in(words, activity);
    } else {
        take_out(words, activity);
    }
}

pub(crate) fn is_in(words: &[u64; 4], activity: usize) -> bool
    requires { activity < 256 }
    ensures { result ≡ has words.now activity }
{
    (words[activity / 64] >> (activity % 64)) & 1 == 1
}

/// Words from `end` on are not looked at.
fn first_in(words: &[u64; 4], first: usize, end: usize) -> Option<usize>
    requires first { first ≤ 4 }
    requires end { end ≤ 256 }
    ensures { MatchOption result (IsOver words.now (first * 64) end) (IsNext words.now (first * 64)) }
{
    for word in first..4 {
        if end <= word * 64 {
            return None;
        }
        let bits = words[word];
        if bits != 0 {
            return Some(word * 64 + bits.trailing_zeros() as usize);
        }
    }
    None
}

/// The least member, `from` or later. Words from `end` on are not looked at.
pub fn next_in(words: &[u64; 4], from: usize, end: usize) -> Option<usize>
    requires from { from < 256 }
    requires end { end ≤ 256 }
    ensures { MatchOption result (IsOver words.now from end) (IsNext words.now from) }
{
    let rest = words[from / 64] >> (from % 64);
    if rest != 0 {
        return Some(from + rest.trailing_zeros() as usize);
    }
    first_in(words, from / 64 + 1, end)
}
