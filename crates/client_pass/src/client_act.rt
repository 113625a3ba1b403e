use chain_block::Entry;
use nim_base::{Digest, Nonce};
use port::{LatestReply, Standing, ViewRow};
use verifier::ReplyFault;
use view_ledger::ViewFault;

/// What a client did. Where a reply or a view was checked, no fault means that it was accepted. A draw's
/// number is the place of its line among the client's lines, from 0.
#[derive(Debug, Drop)]
pub enum ClientAct {
    /// It drew a nonce, for this entry where it intends to append one, or else for a latest read.
    Draw {
        nonce: Nonce,
        intent: Option<Entry>,
    },
    /// It checked the reply to an append of the entry for which this draw was, or to a new ledger of it.
    Append {
        draw: u64,
        reply: Standing,
        fault: Option<ReplyFault>,
    },
    /// It checked the reply to a latest read of a ledger with the nonce of this draw.
    Latest {
        draw: u64,
        handle: Digest,
        reply: LatestReply,
        fault: Option<ReplyFault>,
    },
    /// It checked the reply to a read at a height.
    At {
        handle: Digest,
        height: u64,
        reply: Standing,
        fault: Option<ReplyFault>,
    },
    /// It checked what it was shown to stand where its own entry was to stand. That is no reply.
    Look {
        handle: Digest,
        height: u64,
        reply: Standing,
        fault: Option<ReplyFault>,
    },
    /// It checked a next view.
    View {
        row: ViewRow,
        fault: Option<ViewFault>,
    },
}
