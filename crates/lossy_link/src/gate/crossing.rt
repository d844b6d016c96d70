/// A half comes into a hear, or goes out of one in which it has not met the other.
#[derive(Clone, Copy)]
pub struct Crossing {
    pub second: bool,
    pub enters: bool,
}
