/// Some lines that a client wrote in a row, and how many calls endorsers had served before them.
#[derive(Clone, Copy, Debug, PartialEq, Eq)]
pub struct Turn {
    pub client: usize,
    pub calls: usize,
    pub lines: usize,
}
