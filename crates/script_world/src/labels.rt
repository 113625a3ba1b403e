ghost use Rattle.std.specs.Prelude.{◌≡◌, ◌∷◌};
ghost use Rattle.name_map.specs.NameMap.{means};
ghost use Rattle.sha2.specs.Sha256.{sha256};
ghost use Rattle.script_world.specs.Labels.{handle_for};

use name_map::NameMap;
use nim_base::Digest;
use sha2::{Digest as _, Sha256};

/// The kind of the text whose digest is the handle of a label that no line makes.
const LABEL: u8 = 0x43;

/// The handle that a label means, by those of the ledgers that were made.
pub fn handle_for(labels: &NameMap<Digest>, label: &[u8]) -> Digest
    ensures { result ≡ handle_for (means labels.now) label.now }
{
    match labels.get(label) {
        Some(handle) => handle,
        None => own_handle(label),
    }
}

fn own_handle(label: &[u8]) -> Digest
    ensures { result ≡ sha256 (0x43 ∷ label.now) }
{
    let mut hasher = Sha256::new();
    hasher.update(&[LABEL]);
    hasher.update(label);
    Digest(hasher.finalize())
}
