use wire_frames::FrameFault;

/// Why a guest was not served to its end.
#[derive(Clone, Copy, Debug, PartialEq, Eq)]
pub enum ServeFault {
    /// Its bytes are no command, from this byte on.
    Frame(FrameFault),
    /// Reading failed.
    Read,
    /// Writing failed.
    Write,
    /// It has as many bytes as are read of one guest, or more.
    Long,
    /// No memory was found for an item.
    Memory,
}

/// What came of a guest, or of one read of it: how many commands were carried out, those that changed
/// nothing among them, and the fault, where there was one.
#[derive(Clone, Copy, Debug, PartialEq, Eq)]
pub struct Served {
    pub commands: u64,
    pub fault: Option<ServeFault>,
}
