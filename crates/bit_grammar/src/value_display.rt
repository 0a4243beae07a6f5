/// Whether the values of records are shown.
#[derive(Clone, Copy, Debug, PartialEq, Eq)]
pub enum ValueDisplay {
    Shown,
    /// Only how many values there are.
    LeftOut,
}
