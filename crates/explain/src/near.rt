use std::alloc::Global;
use strsim::levenshtein;

/// The word of the fewest edits from `typed`: at most a third of its bytes and one more.
pub fn nearest<'a>(alloc: Global, typed: &str, words: &[&'a str]) -> Option<&'a str> {
    let most = (typed.len() / 3).saturating_add(1);
    let mut found = None;
    let mut least = most.saturating_add(1);
    for word in words {
        let Ok(edits) = levenshtein(alloc, typed, word) else {
            return None;
        };
        if edits < least {
            least = edits;
            found = Some(*word);
        }
    }
    found
}
