use crate::noted_book::NotedBook;
use lists::Many;
use order_policy::Policy;
use turn_lock::{Counted, Pass, TurnLock};

/// A lock round what is shared, and beside it the policy and the homes of all items.
pub struct LockedBook<V: Counted, Q> {
    pub(crate) lock: TurnLock<V>,
    pub(crate) policy: Q,
    pub(crate) homes: Many<Option<u32>>,
}

/// The right of a seat to call. It knows a beginning of the shared history, and how many calls of its seat
/// are there.
#[derive(Drop)]
pub struct CallPass<V: Counted> {
    pub(crate) pass: Pass<V>,
    pub(crate) calls: u64,
}

/// A book that several workers share.
pub type SharedBook<'d, D, M> = LockedBook<NotedBook<D, M>, &'d Policy>;

/// The right of a seat to call a shared book.
pub type BookPass<D, M> = CallPass<NotedBook<D, M>>;
