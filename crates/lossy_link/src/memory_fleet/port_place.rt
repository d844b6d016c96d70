/// The place of one switch: the port that waits there, whether it was given back, and whether a port of
/// the switch was given and not given back.
#[derive(Debug, Drop)]
pub(crate) struct PortPlace<P> {
    pub(crate) port: Option<P>,
    pub(crate) kept: bool,
    pub(crate) lent: bool,
}
