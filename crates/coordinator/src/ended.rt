use port::Refusal;
use view_ledger::ViewChain;

/// What a whole operation leaves: the chain of views, as far as it was refreshed, and its answer.
#[derive(Drop)]
pub(crate) struct Ended<A: Drop> {
    pub(crate) chain: ViewChain,
    pub(crate) answer: Result<A, Refusal>,
}
