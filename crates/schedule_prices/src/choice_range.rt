/// A `ChoiceRange` is a set of choices of one activity: the starts `from` to `to`, both included,
/// in one mode or in every mode. Activities and modes are places from 0.
#[derive(Clone, Copy, Debug, PartialEq, Eq)]
pub struct ChoiceRange {
    pub activity: usize,
    /// `None` for every mode.
    pub mode: Option<usize>,
    pub from: u32,
    pub to: u32,
}
