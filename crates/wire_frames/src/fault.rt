/// Why bytes are no frame: the byte that can't stand where it stands.
#[derive(Clone, Copy, Debug, PartialEq, Eq)]
pub enum FrameFault {
    /// The first byte is not the frame's kind.
    Kind(u8),
    /// The count of a command's rates is 0 or above 16.
    Count(u8),
}
