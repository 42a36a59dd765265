//! Cells of a line: right-aligned columns, or values between commas.
ghost use Rattle.std.specs.Prelude.{◌≡◌, ◌++◌, ◌+◌, ◌<◌, ◌^◌, IfOk, string_bytes};
ghost use Rattle.plan_cli.specs.Layout.{first_cell, cell, title};

use std::alloc::AllocError;

/// A `Layout` is the form of a table.
#[derive(Clone, Copy, Debug, PartialEq, Eq)]
pub enum Layout {
    /// Right-aligned columns.
    Columns,
    /// Values with commas between them (RFC 4180).
    Csv,
}

/// Adds the first cell of a line.
pub(crate) fn put_first(text: &mut String, layout: Layout, number: usize) -> Result<(), AllocError>
    ensures { IfOk result (λ _. string_bytes text.new ≡ string_bytes text.old ++ first_cell layout number) }
{
    match layout {
        Layout::Columns => write!(text, "{number:>8}")?,
        Layout::Csv => write!(text, "{number}")?,
    }
    Ok(())
}

/// Adds the next cell of a line.
pub(crate) fn put_cell(text: &mut String, layout: Layout, number: u32) -> Result<(), AllocError>
    ensures { IfOk result (λ _. string_bytes text.new ≡ string_bytes text.old ++ cell layout number) }
{
    match layout {
        Layout::Columns => write!(text, " {number:>6}")?,
        Layout::Csv => write!(text, ",{number}")?,
    }
    Ok(())
}

/// Adds the title of a resource's column: its kind's letter and its number.
pub(crate) fn put_title(
    text: &mut String,
    layout: Layout,
    kind: char,
    resource: usize,
) -> Result<(), AllocError>
    requires { resource + 1 < 2 ^ 64 }
    ensures { IfOk result (λ _. string_bytes text.new ≡ string_bytes text.old ++ title layout kind (resource + 1)) }
{
    let number = resource + 1;
    match layout {
        Layout::Columns => write!(text, "     {kind}{number}")?,
        Layout::Csv => write!(text, ",{kind}{number}")?,
    }
    Ok(())
}
