/// What a wait of an agent ended with.
#[derive(Clone, Copy, Debug, PartialEq, Eq)]
pub enum Waited {
    /// A controller has come, who is the next guest.
    Came,
    /// Something is there to be read of the guest at this place, or its end.
    Seat(usize),
    /// No more will come, and nobody sits.
    NoMore,
}
