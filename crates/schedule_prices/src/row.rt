/// A `PricedRow` is a limit on a sum over the activities of a project: a row of the time-indexed
/// model (Christofides, Alvarez-Valdes and Tamarit 1987). Activities and resources are places from
/// 0, times are periods from 0.
#[derive(Clone, Copy, Debug, PartialEq, Eq)]
pub enum PricedRow {
    /// The use of a renewable resource in period `time`.
    Use {
        resource: usize,
        time: u32,
    },
    /// The consumption of a nonrenewable resource.
    Stock {
        resource: usize,
    },
    /// The precedence of `before` and `after` at the end of period `time`: `after` has started, or
    /// `before` is not over, but never both.
    Before {
        before: usize,
        after: usize,
        time: u32,
    },
}

/// A `Price` is a row and what a unit of the row costs.
#[derive(Clone, Copy, Debug, PartialEq, Eq)]
pub struct Price {
    pub row: PricedRow,
    pub price: u32,
}
