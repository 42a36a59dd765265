//! Dates and names as columns of a table.
use crate::layout::Layout;
use csv::WriterBuilder;
use schedule_labels::{ActivityName, Calendar};
use std::alloc::{AllocError, Global};

fn put_gap(text: &mut String, layout: Layout) -> Result<(), AllocError> {
    match layout {
        Layout::Columns => text.push_str("  "),
        Layout::Csv => text.push(','),
    }
}

/// Adds a word in a column of dates.
fn put_word(
    text: &mut String,
    layout: Layout,
    calendar: &Calendar,
    word: &str,
) -> Result<(), AllocError> {
    put_gap(text, layout)?;
    match (layout, calendar.has_time()) {
        (Layout::Columns, true) => write!(text, "{word:>19}")?,
        (Layout::Columns, false) => write!(text, "{word:>10}")?,
        (Layout::Csv, _) => text.push_str(word)?,
    }
    Ok(())
}

/// Adds the moment at which `period` begins.
pub(crate) fn put_moment(
    text: &mut String,
    layout: Layout,
    calendar: &Calendar,
    period: u32,
) -> Result<(), AllocError> {
    match calendar.moment(period) {
        Some(moment) => {
            put_gap(text, layout)?;
            write!(text, "{moment}")?;
            Ok(())
        }
        None => put_word(text, layout, calendar, "none"),
    }
}

pub(crate) fn put_date_titles(
    text: &mut String,
    layout: Layout,
    calendar: &Calendar,
) -> Result<(), AllocError> {
    put_word(text, layout, calendar, "from")?;
    put_word(text, layout, calendar, "until")
}

/// The width of a column of names, at least that of its title.
pub(crate) fn longest(names: &[ActivityName]) -> usize {
    let mut most = 4;
    for name in names {
        most = most.max(name.text.as_str().chars().count());
    }
    most
}

fn quoted(alloc: Global, name: &str) -> Result<Vec<u8>, AllocError> {
    let mut writer = WriterBuilder::new().from_writer(Vec::new(alloc));
    if writer.write_field(name.as_bytes()).is_err() {
        return Err(AllocError);
    }
    match writer.into_inner() {
        Ok(bytes) => Ok(bytes),
        Err(_) => Err(AllocError),
    }
}

/// Adds a name, as a column of `width` characters or as a field of a CSV record.
pub(crate) fn put_name(
    alloc: Global,
    text: &mut String,
    layout: Layout,
    width: usize,
    name: &str,
) -> Result<(), AllocError> {
    match layout {
        Layout::Columns => {
            write!(text, "  {name}")?;
            for _ in name.chars().count()..width {
                text.push(' ')?;
            }
        }
        Layout::Csv => {
            let bytes = quoted(alloc, name)?;
            let field = str::from_utf8(&bytes).unwrap_or("");
            write!(text, ",{field}")?;
        }
    }
    Ok(())
}
