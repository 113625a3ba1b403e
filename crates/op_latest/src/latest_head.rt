ghost use Rattle.std.specs.Prelude.{◌≡◌, ◌==◌, ◌&&◌};
ghost use Rattle.std.specs.Str.{bytes_eq};

use nim_base::Digest;

/// A tail and a count that members tell of a ledger.
#[derive(Clone, Copy, Debug)]
pub struct LatestHead {
    pub tail: Digest,
    pub count: u64,
}

impl LatestHead {
    /// Whether it has this tail and count.
    pub fn is(&self, tail: &Digest, count: u64) -> bool
        ensures { result ≡ (bytes_eq tail.now self.now.tail && (count == self.now.count)) }
    {
        *tail == self.tail && count == self.count
    }
}
