ghost use Rattle.std.specs.Prelude.{◌≡◌, List, ℕ, Option};
ghost use Rattle.nim_outside.specs.Causes.{HasCause, Puts};

use crate::fault::Fault;

/// Bytes that go out.
pub trait Sink {
    /// The bytes written, where the sink tells them.
    ghost written: { Self → Option (List ℕ) };

    /// How often it has failed.
    ghost fault_count: { Self → ℕ };

    /// How often it has failed. The count stands still at the last value of `u64`.
    fn faults(&self) -> u64
        ensures { result ≡ fault_count self.now };

    /// Writes the bytes: all of them at `Ok`, and some first ones, perhaps none, at `Err`.
    fn put(&mut self, bytes: &[u8]) -> Result<(), Fault>
        ensures bytes { Puts (written self.old) (written self.new) result bytes.now }
        ensures cause { HasCause (fault_count self.old) (fault_count self.new) result };
}
