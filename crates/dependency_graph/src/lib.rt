//! The operations of a rollout as a graph: what each one needs, and the room that it takes.
//!
//! A [`Graph`] owns its plan and stands for one legal history from a sound start. Contracts see it as the
//! rollout with that history; each call's clause is an equation with the definition's value, and a Begin
//! or a Done appends its entry and takes no memory: of the entries contracts alone read, there are no
//! bytes. [`Progress`] counts what is settled and begun, over an [`Index`] made once. The rooms are kept
//! in a cell for each resource and stage; a Begin and a Done change the cells of what their item takes
//! alone, at the stages that change, and a test of room looks at these alone. What a policy sees of an
//! item's next operation is told with the longest chain from it on; the chains ([`Chains`]) are worked out
//! once, stage by stage from the last on down. [`sound`] says whether a rollout may begin at a start,
//! and what the start breaks first where none may.
//!
//! A graph keeps the items that are woken ([`Graph::woken`]): of no other item the next operation may
//! begin. A Done wakes its own item, those whose needs it may meet, those that lack a resource that it may
//! give back, and where the least stage rises all that lack any; a Begin wakes none. What was tried and may
//! not begin is let go ([`Graph::admits`]) until such a Done.
#![tactic(auto)]

mod amounts;
mod cells;
mod chains;
mod changes;
mod changing;
mod checked;
mod course;
mod filling;
mod flow_row;
mod graph;
mod index;
mod item_row;
mod laws;
mod longest;
mod past;
pub mod progress;
mod resources;
mod rousing;
mod scratch_row;
mod soundness;
mod stage_counts;
mod stands;
mod start_fault;
mod waiting_items;
mod wakes;
mod woken;
mod zeros;

pub use amounts::capacity;
pub use chains::Chains;
pub use changes::{changes_behind, changes_to, operations, stand_after, stand_behind};
pub use checked::checked_plan_is_valid;
pub use graph::Graph;
pub use index::{Index, items};
pub use laws::a_start_breaks_one_thing_first;
pub use progress::Progress;
pub use soundness::sound;
pub use start_fault::StartFault;
