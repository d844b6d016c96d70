use crate::live::LiveEnd;
use lists::Text;

/// What came of one look in a row of looks.
#[derive(Debug, Drop)]
pub(crate) enum Turn {
    /// It goes on; this text was written last.
    Goes(Text),
    Ends(LiveEnd),
}
