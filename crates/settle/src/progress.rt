use chain_block::MetaBlock;
use port::Refusal;
use statement::Receipt;

/// How a settling stands after a step. After every answer but `More` it has ended.
#[derive(Debug, Drop)]
pub enum SettleProgress {
    /// There is more to ask.
    More,
    /// The row has a receipt. The metablocks lead from it to the row for which the receipt is; there are none where it is the
    /// row's own.
    Stands {
        chain: Vec<MetaBlock>,
        receipt: Receipt,
    },
    /// The row has none: `ViewMoved`, `Full`, `Contended` or `NoQuorum`; `StoreFault`, `Gap` or `BadRow` for a row of the
    /// ledger; or `TooFar`.
    Refused {
        refusal: Refusal,
    },
}
