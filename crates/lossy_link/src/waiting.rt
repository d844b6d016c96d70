use wire_frames::Answer;

/// An answer with its migration on its way back, and the hears that it still waits.
#[derive(Clone, Copy, Debug)]
pub(crate) struct Waiting {
    pub(crate) answer: (u32, Answer),
    pub(crate) late: u8,
}
