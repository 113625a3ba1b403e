ghost use Rattle.std.specs.Prelude.{ℕ, List, ◌++◌};
ghost use Rattle.chain_block.specs.declared.entry.Entry.{Entry};
ghost use Rattle.client_pass.specs.Act.{Line};
ghost use Rattle.client_pass.specs.ClientList.{IsForEntry, IsForRead};

/// A draw stays what it is, whatever is noted after it.
pub fn draws_stay()
    ensures entry { (lines more : List Line) (draw : ℕ) (entry : Entry) → IsForEntry lines draw entry → IsForEntry (lines ++ more) draw entry }
    ensures read { (lines more : List Line) (draw : ℕ) (nonce : List ℕ) → IsForRead lines draw nonce → IsForRead (lines ++ more) draw nonce }
{}
