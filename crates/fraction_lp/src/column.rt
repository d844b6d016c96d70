/// What is added up over the rows: the entries of an unknown, or the bounds.
#[derive(Clone, Copy, Debug, Drop)]
pub(crate) enum Column {
    Unknown(u32),
    Bounds,
}
