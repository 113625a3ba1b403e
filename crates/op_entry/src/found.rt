use port::Row;

/// A row that stands in its ledger.
#[derive(Debug, Drop)]
pub struct Found {
    pub row: Row,
    /// Whether its entry is the one that is asked for. Where none is asked for, any is.
    pub is_own: bool,
}
