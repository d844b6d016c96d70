/// An item whose next operation may be tried, with the rank that the policy gives it. The lower rank
/// comes first, and of equal ranks the lower item.
#[derive(Clone, Copy, Debug, Drop, PartialEq, Eq, PartialOrd, Ord)]
pub struct Candidate {
    pub rank: u64,
    pub item: u32,
}
