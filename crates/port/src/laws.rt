ghost use Rattle.std.specs.Prelude.{◌≡◌, List};
ghost use Rattle.statement.specs.declared.member.Member.{Member};
ghost use Rattle.statement.specs.declared.view_block.ViewBlock.{ViewBlock};
ghost use Rattle.port.specs.Row.{Content};
ghost use Rattle.port.specs.RowForm.{IsRow, row_bytes};
ghost use Rattle.port.specs.View.{FinalMap};
ghost use Rattle.port.specs.ViewForm.{IsView, view_bytes};
ghost use Rattle.port.specs.FinalsForm.{IsFinals, finals_bytes};

use chain_block::{entries_have_own_bytes, metablocks_have_own_bytes};
use statement::{configs_have_own_bytes, configs_show_one_fault, view_blocks_have_own_bytes};
use tail_map::one_form;

/// No two rows have the same bytes.
pub fn rows_have_own_bytes()
    ensures { (a b : Content) → IsRow a → IsRow b → row_bytes a ≡ row_bytes b → a ≡ b }
{
    entries_have_own_bytes();
    metablocks_have_own_bytes();
}

/// No two views have the same bytes.
pub fn views_have_own_bytes()
    ensures { (a b : ViewBlock × List Member) → IsView a → IsView b → view_bytes a ≡ view_bytes b → a ≡ b }
{
    view_blocks_have_own_bytes();
    configs_have_own_bytes();
    configs_show_one_fault();
}

/// No two lists of finals have the same bytes.
pub fn finals_have_own_bytes()
    ensures { (a b : List FinalMap) → IsFinals a → IsFinals b → finals_bytes a ≡ finals_bytes b → a ≡ b }
{
    one_form();
}
