use std::collections::LinkedList;

/// What a pass is about.
pub enum Stage<E> {
    Idle,
    /// It has drawn this ticket.
    Waiting(u64),
    /// This ticket's turn has come, and the value is out with it.
    Turning(u64),
    /// It has taken another pass in: the seats of each of the two and what each had seen, and how many were out.
    Joining(LinkedList<u32>, LinkedList<E>, LinkedList<u32>, LinkedList<E>, u32),
    /// Another pass has taken it in.
    Spent,
}

/// What a pass knows. No value of it is made.
pub struct View<E> {
    pub stage: Stage<E>,
    pub seat: u32,
    /// A beginning of the history.
    pub seen: LinkedList<E>,
    /// The seats that were joined to it.
    pub joined: LinkedList<u32>,
    /// For the first seat: how many seats were made, and how many of them are out.
    pub given: u32,
    pub out: u32,
}
