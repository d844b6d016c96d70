use crate::shown::ShownPlan;
use lists::Text;
use sim_run::DrawnScript;
use wan_model::CheckedPlan;

/// What a command answers: a text, or what its text is made of while it is written.
#[derive(Debug, Drop)]
pub enum Answer {
    Made(Text),
    /// A valid plan, whose document, and a line feed, is the text.
    Document(CheckedPlan),
    /// One of which the loads are told.
    Loads(CheckedPlan),
    /// One that is explained.
    Explained(CheckedPlan),
    /// One whose document with what shows that fewer rate steps are impossible, and a line feed, is the text.
    Shown(ShownPlan),
    /// One with a script that was drawn for it; its document with that, and a line feed, is the text.
    Rehearsed(DrawnScript),
}
