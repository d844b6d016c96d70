/// An entry in a switch's table: its tunnel, and its number among the items.
#[derive(Clone, Copy)]
pub(crate) struct TablePlace {
    pub tunnel: u32,
    pub item: u32,
}
