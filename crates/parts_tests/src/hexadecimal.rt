use nim_base::{NoMemory, Text};
use std::alloc::Global;

/// The bytes of parts in hexadecimal, one after the other.
pub(crate) fn bytes(alloc: Global, parts: &[&str]) -> Result<Text, NoMemory> {
    let mut text = Text::of(alloc, &[])?;
    for part in parts {
        match hex::decode(alloc, part) {
            Ok(bytes) => text.push(&bytes)?,
            Err(_) => return Err(NoMemory),
        }
    }
    Ok(text)
}
