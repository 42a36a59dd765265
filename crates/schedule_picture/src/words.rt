//! Words of users as SVG text.
use std::alloc::AllocError;

/// How many characters of a name fit beside the bars.
pub(crate) const MOST_SHOWN: usize = 36;

fn put_char(text: &mut String, char: char) -> Result<(), AllocError> {
    match char {
        '&' => text.push_str("&amp;"),
        '<' => text.push_str("&lt;"),
        '>' => text.push_str("&gt;"),
        '"' => text.push_str("&quot;"),
        _ => text.push(char),
    }
}

/// Adds the first `most` characters of `word`, and an ellipsis if there are more.
pub(crate) fn put_word(text: &mut String, word: &str, most: usize) -> Result<(), AllocError> {
    for (place, char) in word.chars().enumerate() {
        if place == most {
            return text.push('…');
        }
        put_char(text, char)?;
    }
    Ok(())
}
