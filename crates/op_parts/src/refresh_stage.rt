use nim_base::Text;
use statement::{Config, ViewBlock};

/// What a refresh does next.
#[derive(Debug, Drop)]
pub enum RefreshStage {
    /// It gets the view after the newest one of the chain.
    View,
    /// It gets what ended the view below this one, which has these bytes.
    Finals {
        body: Text,
        block: ViewBlock,
        config: Config,
    },
    /// It has ended.
    Ended,
}
