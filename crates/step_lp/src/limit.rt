use lists::Many;

/// What a row of the program asks. Rate stages are numbered from 0, the old split, to the number of
/// steps, the new one; step `s` leads from rate stage `s` to the next.
#[derive(Clone, Copy, Debug, Drop)]
pub(crate) enum Limit {
    /// A tunnel's rate at an end of a step is at most its top in this step.
    Top { step: u32, stage: u32, tunnel: u32 },
    /// The tops of a step on a link are at most its capacity.
    Link { step: u32, link: u32 },
    /// A flow's total at a stage between is at least the smaller of its old and its new one.
    Least { stage: u32, flow: u32 },
    /// A flow's total at a stage between is at most the larger of its old and its new one.
    Most { stage: u32, flow: u32 },
}

/// Limits in the order of the rows.
pub(crate) type LimitList = Many<Limit>;
