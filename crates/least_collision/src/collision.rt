/// Two different texts with one digest. Pairs are in the order of the first text, and then of the
/// second; texts are in the order of their bytes.
#[derive(Clone, Copy, Debug, PartialEq, Eq, PartialOrd, Ord)]
pub struct Collision<'a> {
    pub one: &'a [u8],
    pub other: &'a [u8],
}
