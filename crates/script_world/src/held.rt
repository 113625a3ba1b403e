// Rows that really stand in a store, whatever it answers.
ghost use Rattle.std.specs.Prelude.{◌≡◌, IfOk};
ghost use Rattle.script_world.specs.Held.{IsHeld, IsNewest, IsReadAs, tail_or_zeros};

use blob_store::LyingStore;
use nim_base::{Digest, FormFault, NoMemory};
use port::{Key, Row};
use std::alloc::Global;

/// The row whose bytes these are. `None` says that they are no row's.
fn read_row(alloc: Global, bytes: &[u8]) -> Result<Option<Row>, NoMemory>
    ensures { IfOk result (λ row. IsReadAs bytes.now row) }
{
    match Row::read(alloc, bytes) {
        Ok(row) => Ok(Some(row)),
        Err(FormFault::NoMemory) => Err(NoMemory),
        Err(_) => Ok(None),
    }
}

/// The row of the ledger that really stands at this height. `None` says that none does.
pub(crate) fn held_row(
    alloc: Global,
    store: &LyingStore,
    handle: &Digest,
    height: u64,
) -> Result<Option<Row>, NoMemory>
    ensures { IfOk result (λ row. IsHeld store.now handle.now height row) }
{
    let key = Key::Row {
        handle: *handle,
        height,
    };
    match store.held(&key) {
        Some(stored) => read_row(alloc, stored.body.bytes()),
        None => Ok(None),
    }
}

/// The row that really stands as the newest one of a ledger with so many.
pub(crate) fn newest_row(
    alloc: Global,
    store: &LyingStore,
    handle: &Digest,
    count: u64,
) -> Result<Option<Row>, NoMemory>
    ensures { IfOk result (λ row. IsNewest store.now handle.now count row) }
{
    if count == 0 {
        return Ok(None);
    }
    held_row(alloc, store, handle, count - 1)
}

/// The tail that the row leaves, zeros where there is none.
pub(crate) fn tail_or_zeros(row: &Option<Row>) -> Digest
    ensures { result ≡ tail_or_zeros row.now }
{
    match row {
        Some(row) => row.metablock.tail(),
        None => Digest([0; 32]),
    }
}
