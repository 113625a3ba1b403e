ghost use Rattle.std.specs.Prelude.{◌≡◌, List, ℕ, Contains};
ghost use Rattle.statement.specs.declared.member.Member.{Member};
ghost use Rattle.statement.specs.Config.{IsConfig, IsQuorum};
ghost use Rattle.statement.specs.ConfigForm.{config_bytes, ConfigShows};
ghost use Rattle.nim_base.specs.declared.form_fault.FormFault.{FormFault};
ghost use Rattle.statement.specs.declared.view_block.ViewBlock.{ViewBlock};
ghost use Rattle.statement.specs.ViewBlock.{IsViewBlock, view_block_bytes};
ghost use Rattle.statement.specs.declared.statement.Statement.{Statement};
ghost use Rattle.statement.specs.Statement.{IsStatement, statement_bytes};
ghost use Rattle.statement.specs.Receipt.{Receipt};
ghost use Rattle.statement.specs.Receipt.{IsReceipt, receipt_bytes};

/// Two quorums of one config have a member in common.
pub fn quorums_meet()
    ensures { (members : List Member) (a b : List ℕ) → IsQuorum members a → IsQuorum members b
        → (id : ℕ) × Contains a id × Contains b id }
{}

/// No two configs have the same bytes.
pub fn configs_have_own_bytes()
    ensures { (a b : List Member) → IsConfig a → IsConfig b → config_bytes a ≡ config_bytes b → a ≡ b }
{}

/// Bytes that are to be a config show one fault at most, and those of a config show none.
pub fn configs_show_one_fault()
    ensures one { (bytes : List ℕ) (a b : FormFault) → ConfigShows bytes a → ConfigShows bytes b → a ≡ b }
    ensures none { (members : List Member) (fault : FormFault) → IsConfig members → ¬ ConfigShows (config_bytes members) fault }
{}

/// No two view blocks have the same bytes.
pub fn view_blocks_have_own_bytes()
    ensures { (a b : ViewBlock) → IsViewBlock a → IsViewBlock b → view_block_bytes a ≡ view_block_bytes b → a ≡ b }
{}

/// No two statements have the same bytes.
pub fn statements_have_own_bytes()
    ensures { (a b : Statement) → IsStatement a → IsStatement b → statement_bytes a ≡ statement_bytes b → a ≡ b }
{}

/// No two receipts have the same bytes.
pub fn receipts_have_own_bytes()
    ensures { (a b : Receipt) → IsReceipt a → IsReceipt b → receipt_bytes a ≡ receipt_bytes b → a ≡ b }
{}
