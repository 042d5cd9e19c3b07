/// What the length lines of a head state.
#[derive(Clone, Copy, PartialEq, Eq)]
pub enum Stated {
    Nothing,
    Bytes(u64),
    Bad,
}
