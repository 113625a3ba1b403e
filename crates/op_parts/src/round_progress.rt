use port::Refusal;

/// How a round stands after a step. After every answer but `More` it has ended.
#[derive(Debug, Drop)]
pub enum RoundProgress {
    /// There is more to ask.
    More,
    /// All members were asked: each has a mark or a reason.
    Asked,
    /// A row that a member lacks isn't to be had: `StoreFault`, `Gap` or `BadRow`.
    Row { refusal: Refusal },
}
