// What a calm service is ready for, and how it stays calm.
ghost use Rattle.std.specs.Prelude.{◌≡◌, ◌⊎◌, ℕ, ◌<◌, List, [], length, None};
ghost use Rattle.chain_block.specs.declared.entry.Entry.{Entry};
ghost use Rattle.sha2.specs.Sha256.{sha256};
ghost use Rattle.statement.specs.declared.member.Member.{Member};
ghost use Rattle.statement.specs.Config.{IsConfig};
ghost use Rattle.statement.specs.Receipt.{Receipt, IsReceipt};
ghost use Rattle.statement.specs.ViewBlock.{view_block_bytes};
ghost use Rattle.port.specs.declared.key.Key.{Key};
ghost use Rattle.port.specs.declared.key.Key.TheVariants as keys;
ghost use Rattle.port.specs.Contents.{Contents};
ghost use Rattle.port.specs.Link.{Bank};
ghost use Rattle.view_ledger.specs.Views.{newest_config, newest_tail, next_block};
ghost use Rattle.view_ledger.specs.Receipts.{Accepts, IsAccepted};
ghost use Rattle.op_parts.specs.Attachment.{IsReceiptFor};
ghost use Rattle.op_parts.specs.RoundAsking.{Asking, claim};
ghost use Rattle.op_parts.specs.RoundOutcome.{held};
ghost use Rattle.calm.specs.Ledgers.{Ledgers, row_above, head_above, IsNextEntry};
ghost use Rattle.calm.specs.StandingRows.{StandsAbove};
ghost use Rattle.calm.specs.StandingViews.{ViewStands};
ghost use Rattle.calm.specs.Members.{Signs, Fits, AreAble};
ghost use Rattle.calm.specs.Appending.{AreReady, IsNext, HasRoom, IsFull, append_next};
ghost use Rattle.calm.specs.Storing.{with_row};
ghost use Rattle.calm.specs.Calm.{newest_block, ServiceState, NewestHold, IsCalm, OnlyAt, rows_with, with_next, new_service};

use tail_map::one_row_changes;

/// The members of a calm service can be asked to append the next entry of any ledger.
pub fn calm_members_are_ready()
    ensures ready { (service : ServiceState) (ask : Asking) → IsCalm service → ask.members ≡ newest_config service.configs → ask.view ≡ newest_tail service.configs
        → AreReady service.accepts service.signs service.bank (newest_block service.configs) service.rows service.left ask }
    ensures config { (service : ServiceState) → IsCalm service → IsConfig (newest_config service.configs) }
    ensures tail { (configs : List (List Member)) → 0 < length configs → newest_tail configs ≡ sha256 (view_block_bytes (newest_block configs)) }
    ensures next { (service : ServiceState) (handle : List ℕ) (entry : Entry) → IsCalm service → IsNextEntry service.ledgers handle entry
        → IsNext service.rows handle (row_above (service.ledgers handle) entry).metablock }
    // A ledger has a row in their map where it has an entry.
    ensures room { (service : ServiceState) (handle : List ℕ) → IsCalm service → (0 < length (service.ledgers handle)) ⊎ (length service.rows < 4096)
        → HasRoom service.rows handle }
    ensures full { (service : ServiceState) (handle : List ℕ) → IsCalm service → length (service.ledgers handle) ≡ 0 → length service.rows ≡ 4096
        → IsFull service.rows handle }
{}

/// A calm service stays calm, with fewer stamps and signatures.
pub fn calm_services_go_on()
    // Where nothing was stored, and the members hold what they held.
    ensures same { (service : ServiceState) (after : Bank) (left : ℕ) → IsCalm service → NewestHold service.configs after service.rows left
        → IsCalm (record service { bank = after; left = left }) }
    // Where the next row of a ledger was stored with a receipt, and the members hold it.
    ensures appended { (service : ServiceState) (handle : List ℕ) (entry : Entry) (later : Contents) (after : Bank) (left : ℕ)
        → IsCalm service → IsNextEntry service.ledgers handle entry → HasRoom service.rows handle
        → StandsAbove service.accepts service.configs later handle (service.ledgers handle) entry → OnlyAt (keys.Row handle (length (service.ledgers handle))) service.contents later
        → NewestHold service.configs after (rows_with service handle entry) left → IsCalm (with_next service handle entry later after left) }
    // The next row stands with its receipt once it was put and the receipt attached.
    ensures stands { (accepts : Accepts) (configs : List (List Member)) (contents : Contents) (ledgers : Ledgers) (handle : List ℕ) (entry : Entry) (receipt : Receipt)
        → IsNextEntry ledgers handle entry → IsReceipt receipt → IsReceiptFor accepts configs (head_above handle (ledgers handle) entry) receipt
        → StandsAbove accepts configs (with_row contents handle (ledgers handle) entry receipt) handle (ledgers handle) entry }
    ensures only { (contents : Contents) (handle : List ℕ) (below : List Entry) (entry : Entry) (receipt : Receipt)
        → OnlyAt (keys.Row handle (length below)) contents (with_row contents handle below entry receipt) }
    // A receipt that the newest view accepts, over what the members of a round signed, is one for the next row.
    ensures receipted { (accepts : Accepts) (configs : List (List Member)) (ledgers : Ledgers) (handle : List ℕ) (entry : Entry) (ask : Asking) (receipt : Receipt)
        → 0 < length configs → ask ≡ append_next configs handle (ledgers handle) entry → receipt.statement ≡ held (claim ask) → IsAccepted accepts ask.members ask.view receipt
        → IsReceiptFor accepts configs (head_above handle (ledgers handle) entry) receipt }
{
    one_row_changes();
}

/// A service in which only view 0 stands and no ledger has an entry is calm once its members are active.
pub fn new_services_are_calm()
    ensures { (accepts : Accepts) (signs : Signs) (contents : Contents) (bank : Bank) (roster : List Member) (config : List Member) (left : ℕ)
        → Fits accepts signs → ViewStands contents [] config → ((key : Key) → contents key ≡ None ⊎ (key ≡ keys.View 0)) → AreAble bank (next_block [] config) config [] left
        → IsCalm (new_service accepts signs contents bank roster config left) }
{}
