/// From where a rollout is taken back.
#[derive(Clone, Copy, Debug, PartialEq, Eq)]
pub enum BackFrom {
    /// From the stage to which it has come, at which it is levelled.
    Level,
    /// From where it stands once nothing is in flight. Where its way back can't begin so, it is levelled at the
    /// first stage from which that can.
    Here,
}
