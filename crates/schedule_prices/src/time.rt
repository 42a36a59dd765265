/// A `Time` is what the choices left of an activity are compared by.
#[derive(Clone, Copy, Debug, PartialEq, Eq)]
pub(crate) enum Time {
    /// The end of the choice.
    End,
    /// The periods from its start to the bound.
    Rest,
}
