ghost use Rattle.std.specs.Prelude.{◌≡◌, List, ℕ, Option};
ghost use Rattle.std.specs.Io.{ReadsAtMost};
ghost use Rattle.std.specs.Io.KnownBytes.{ReadConsumes};
ghost use Rattle.nim_outside.specs.Causes.{HasCause};

use crate::fault::Fault;

/// Bytes that come in.
pub trait Source {
    /// The bytes that are left, where the source tells them.
    ghost left: { Self → Option (List ℕ) };

    /// How often it has failed.
    ghost fault_count: { Self → ℕ };

    /// How often it has failed. The count stands still at the last value of `u64`.
    fn faults(&self) -> u64
        ensures { result ≡ fault_count self.now };

    /// Gives bytes from the front of those that are left, and answers how many. 0 for a slice that
    /// isn't empty is the end of input. An `Err` takes nothing away.
    fn read(&mut self, into: &mut [u8]) -> Result<usize, Fault>
        ensures bound { ReadsAtMost result into.new }
        ensures bytes { ReadConsumes (left self.old) (left self.new) result into.new }
        ensures cause { HasCause (fault_count self.old) (fault_count self.new) result };
}
