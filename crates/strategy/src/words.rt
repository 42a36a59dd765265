//! The numbers that words write, and the seeds in them.
ghost use Rattle.std.specs.Prelude.{◌≡◌};
ghost use Rattle.strategy.specs.KindWord.{is_word, number_in, seed_in};

const MOST_DIGITS: usize = 18;

pub(crate) fn is(word: &[u8], text: &[u8]) -> bool
    ensures { result ≡ is_word word.now text.now }
{
    word == text
}

/// The number that `word` writes in 1 to 18 digits.
pub fn number(word: &[u8]) -> Option<u64>
    ensures { result ≡ number_in word.now }
{
    if word.is_empty() || MOST_DIGITS < word.len() {
        return None;
    }
    let mut value: u64 = 0;
    for digit in word {
        if !digit.is_ascii_digit() {
            return None;
        }
        value = value * 10 + u64::from(*digit - b'0');
    }
    Some(value)
}

/// The number that `word` writes behind `front`, its beginning.
pub fn seed(front: &[u8], word: &[u8]) -> Option<u64>
    ensures { result ≡ seed_in front.now word.now }
{
    if front.len() <= word.len() && is(&word[..front.len()], front) {
        number(&word[front.len()..])
    } else {
        None
    }
}
