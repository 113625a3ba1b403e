ghost use Rattle.std.specs.Prelude.{◌≡◌};
ghost use Rattle.seal.specs.MacKey.{key_text, secret_text};

use nim_base::Digest;

const SECRET: u8 = 0x41;

const KEY: u8 = 0x40;

/// The text whose SHA-256 digest is the secret of an id: 41 in hexadecimal, and the id in 4 bytes,
/// big-endian. It takes no memory.
pub fn secret_text(id: u32) -> [u8; 5]
    ensures { result ≡ secret_text id }
{
    let [a, b, c, d] = id.to_be_bytes();
    [SECRET, a, b, c, d]
}

/// The text whose SHA-256 digest is the key to a secret: 40 in hexadecimal, and the secret in 32 bytes.
/// It takes no memory.
pub fn key_text(secret: &Digest) -> [u8; 33]
    ensures { result ≡ key_text secret.now }
{
    let mut text = [KEY; 33];
    text[1..].copy_from_slice(&secret.0);
    text
}
