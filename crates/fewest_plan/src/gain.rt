use lists::Many;

/// A link on which a flow grows: what a step of 1 in its share adds there to the sum of the larger rates.
#[derive(Clone, Copy, Debug, Drop)]
pub(crate) struct Gain {
    pub(crate) link: u32,
    pub(crate) growth: u128,
}

/// The links on which a flow grows, by number.
pub(crate) type GainList = Many<Gain>;
