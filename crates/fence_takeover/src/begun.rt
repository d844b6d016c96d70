use crate::FenceEnd;
use dependency_graph::StartFault;
use intent_journal::JournalFault;
use lists::Ids;
use wan_model::CheckedPlan;

/// Why a takeover wasn't begun. The plan comes back where what is told names something of its problem.
#[derive(Drop)]
pub enum NotBegun {
    /// Not all switches told what they hold, or what one holds can't be taken over.
    Fence(CheckedPlan, FenceEnd),
    /// No rollout may begin at what they hold: this is what it breaks first.
    Start(CheckedPlan, StartFault),
    /// The disk couldn't be opened, or the journal wasn't placed.
    Journal(JournalFault),
}

/// What a beginning comes to: the disk, and the rollout with its start, or why it wasn't begun.
#[derive(Drop)]
pub struct Begun<D> {
    pub disk: D,
    pub answer: Result<(CheckedPlan, Ids), NotBegun>,
}
