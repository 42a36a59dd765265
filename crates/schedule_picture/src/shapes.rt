//! The rows of a picture: the bars of activities, their numbers and names.
use crate::bars::{Bar, bar_at};
use crate::svg::{Picture, fill_of, row_at};
use crate::words::{MOST_SHOWN, put_word};
use schedule_labels::{ActivityName, name_at};
use std::alloc::AllocError;

impl Picture {
    /// A rectangle, or a diamond if the activity takes no period.
    fn put_shape(&mut self, bar: &Bar<'_>, y: u64) -> Result<(), AllocError> {
        let fill = fill_of(bar.mode);
        let (x, height) = (self.size.at(bar.start), self.size.bar);
        let stroke: u64 = if bar.is_critical { 30 } else { 8 };
        if bar.start == bar.finish {
            let half = height / 2;
            write!(
                self.text,
                "<path d=\"M{x} {y}l{half} {half}l-{half} {half}l-{half} -{half}Z\" fill=\"{fill}\" stroke=\"#000\" stroke-width=\"{stroke}\"/>"
            )
        } else {
            let width = self.size.at(bar.finish).saturating_sub(x).max(20);
            let stroke = stroke.min(width / 3);
            write!(
                self.text,
                "<rect x=\"{x}\" y=\"{y}\" width=\"{width}\" height=\"{height}\" fill=\"{fill}\" stroke=\"#000\" stroke-width=\"{stroke}\"/>"
            )
        }
    }

    /// A thin bar of an earlier schedule, under that of the activity.
    fn put_before(&mut self, bar: &Bar<'_>, y: u64) -> Result<(), AllocError> {
        let x = self.size.at(bar.start);
        let width = self.size.at(bar.finish).saturating_sub(x).max(20);
        let under = y.saturating_add(self.size.bar).saturating_add(15);
        write!(
            self.text,
            "<rect x=\"{x}\" y=\"{under}\" width=\"{width}\" height=\"40\" fill=\"#777\"/>"
        )
    }

    fn put_title(
        &mut self,
        bar: &Bar<'_>,
        before: Option<&Bar<'_>>,
        name: &str,
    ) -> Result<(), AllocError> {
        let (number, mode, start, finish) = (bar.number, bar.mode, bar.start, bar.finish);
        write!(self.text, "<g><title>Activity {number}")?;
        if !name.is_empty() {
            self.text.push_str(", ")?;
            put_word(&mut self.text, name, usize::MAX)?;
            self.text.push(',')?;
        }
        write!(self.text, " in mode {mode}, from {start} to {finish}")?;
        if let Some(before) = before {
            let (mode, start, finish) = (before.mode, before.start, before.finish);
            write!(
                self.text,
                "; before in mode {mode}, from {start} to {finish}"
            )?;
        }
        self.text.push_str("</title>")
    }

    fn put_label(&mut self, bar: &Bar<'_>, name: &str, under: u64) -> Result<(), AllocError> {
        let (number, mode) = (bar.number, bar.mode);
        let label = self.size.left.saturating_sub(120);
        write!(
            self.text,
            "<text x=\"{label}\" y=\"{under}\" text-anchor=\"end\">{number} "
        )?;
        if name.is_empty() {
            write!(self.text, "mode {mode}")?;
        } else {
            put_word(&mut self.text, name, MOST_SHOWN)?;
        }
        self.text.push_str("</text>")
    }

    fn put_bar(
        &mut self,
        row: usize,
        bar: &Bar<'_>,
        before: Option<&Bar<'_>>,
        name: &str,
    ) -> Result<(), AllocError> {
        let (number, start, finish) = (bar.number, bar.start, bar.finish);
        let top = row_at(row);
        let (y, under) = (top.saturating_add(20), top.saturating_add(130));
        let gap = if start == finish { 140 } else { 90 };
        let behind = self.size.at(finish).saturating_add(gap);
        self.put_title(bar, before, name)?;
        self.put_shape(bar, y)?;
        if let Some(before) = before {
            self.put_before(before, y)?;
        }
        self.put_label(bar, name, under)?;
        write!(
            self.text,
            "<text x=\"{behind}\" y=\"{under}\">{number}</text></g>\n"
        )
    }

    pub(crate) fn put_bars(
        &mut self,
        bars: &[Bar<'_>],
        earlier: &[Bar<'_>],
        names: Option<&[ActivityName]>,
    ) -> Result<(), AllocError> {
        for row in 0..bars.len() {
            let bar = &bars[row];
            let name = match names {
                Some(names) => name_at(names, bar.number),
                None => "",
            };
            self.put_bar(row, bar, bar_at(earlier, bar.number), name)?;
        }
        Ok(())
    }
}
