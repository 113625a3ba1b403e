use nim_base::Digest;
use statement::Config;

/// A view as a chain keeps it: its tail, so that no look-up digests again, and its config.
#[derive(Drop)]
pub(crate) struct View {
    pub(crate) tail: Digest,
    pub(crate) config: Config,
}
