ghost use Rattle.std.specs.Prelude.{◌≡◌};
ghost use Rattle.script_world.specs.Nonce.{nonce};

use nim_base::Nonce;

/// The nonce of this number: the number in 16 bytes, big-endian.
pub fn nonce(number: u64) -> Nonce
    ensures { result ≡ nonce number }
{
    let mut bytes = [0; 16];
    bytes[8..].copy_from_slice(&number.to_be_bytes());
    Nonce(bytes)
}
