ghost use Rattle.std.specs.Prelude.{◌≡◌, ◌⊎◌, List, Ok, Err, IfOk, IfErr, OnOk};
ghost use Rattle.nim_base.specs.declared.form_fault.FormFault.{FormFault};
ghost use Rattle.statement.specs.declared.member.Member.{Member};
ghost use Rattle.statement.specs.declared.view_block.ViewBlock.{ViewBlock};
ghost use Rattle.statement.specs.Config.{IsConfig};
ghost use Rattle.statement.specs.ConfigForm.{config_bytes};
ghost use Rattle.statement.specs.ViewBlock.{IsViewBlock, view_block_bytes};
ghost use Rattle.statement.specs.FormFault.{Gives};
ghost use Rattle.port.specs.Field.{FieldBegins};
ghost use Rattle.port.specs.ViewForm.{IsView, view_bytes, fault_in_view, ConfigShowsInView, ViewShows};
ghost use Rattle.port.specs.Finding.{Finds, Missed};

use crate::reading::{read_bytes, read_kind, read_rest};
use nim_base::{Cursor, FormFault, NoMemory, Text};
use statement::{
    Config, ViewBlock, configs_have_own_bytes, configs_show_one_fault, view_blocks_have_own_bytes,
};
use std::alloc::Global;

const KIND: u8 = 0x51;

/// The bytes of a view: the kind 51 in hexadecimal, the view block in 73 bytes, and the config.
pub fn write_view(alloc: Global, block: &ViewBlock, config: &Config) -> Result<Text, NoMemory>
    ensures bytes { IfOk result (λ text. text.bytes ≡ view_bytes (block.now, config.now)) }
    // It is read again as this view.
    ensures view { OnOk result (IsView (block.now, config.now)) }
{
    // The block and the config are opened, so that what they are is known.
    let ViewBlock {
        prev,
        config: digest,
        number,
    } = block;
    let _ = &prev.0;
    let _ = &digest.0;
    let _number = *number;
    let _ = config.members();
    let mut text = Text::of(alloc, &[KIND])?;
    text.push(block.write(alloc)?.bytes())?;
    text.push(config.write(alloc)?.bytes())?;
    Ok(text)
}

/// The view whose bytes these are. A refusal names the fault that shows first, from the front, where the
/// fields have the lengths that [`write_view`] says:
///
/// - `Kind` shows at the first byte, where it isn't that of a view.
/// - `Value` shows where the bytes of the view block are no view block's, and where a config shows `Kind`,
///   `Value` or `Order`.
/// - `Short` shows where the bytes end inside a field. What a whole field before shows comes first.
/// - `Trailing` shows at a byte after the config.
pub fn read_view(alloc: Global, bytes: &[u8]) -> Result<(ViewBlock, Config), FormFault>
    // What is read is what a view writes, and that view is read from it, unless memory runs out.
    ensures found { IfOk result (λ view. IsView view × (bytes.now ≡ view_bytes view)) }
    ensures only { (view : ViewBlock × List Member) → IsView view → bytes.now ≡ view_bytes view → Gives result (Ok view) }

    // A refusal is the fault that shows first, and that fault is the refusal, unless memory runs out.
    ensures fault { IfErr result (λ fault. (fault ≡ FormFault.NoMemory) ⊎ ViewShows bytes.now fault) }
    ensures first { (fault : FormFault) → ViewShows bytes.now fault → Gives result (Err fault) }
{
    view_blocks_have_own_bytes();
    configs_have_own_bytes();
    configs_show_one_fault();
    read_whole(alloc, bytes)
}

fn read_whole(alloc: Global, bytes: &[u8]) -> Result<(ViewBlock, Config), FormFault>
    ensures found { IfOk result (λ view. IsView view × (bytes.now ≡ view_bytes view)) }
    ensures fault { IfErr result (λ fault. Missed ViewShows bytes.now fault) }
{
    let mut cursor = Cursor::new(bytes);
    read_kind(&mut cursor, KIND)?;
    let block = read_block(&mut cursor)?;
    let config = read_config(alloc, read_rest(&mut cursor))?;
    Ok((block, config))
}

fn read_block(cursor: &mut Cursor) -> Result<ViewBlock, FormFault>
    ensures { Finds (λ block. block) IsViewBlock view_block_bytes (FieldBegins IsViewBlock view_block_bytes 73) cursor.old cursor.new result }
{
    let bytes = read_bytes(cursor, 73)?;
    let Ok(block) = ViewBlock::read(bytes) else {
        return Err(FormFault::Value);
    };
    Ok(block)
}

fn read_config(alloc: Global, bytes: &[u8]) -> Result<Config, FormFault>
    ensures found { IfOk result (λ config. IsConfig config × (bytes.now ≡ config_bytes config)) }
    ensures fault { IfErr result (λ fault. Missed ConfigShowsInView bytes.now fault) }
{
    match Config::read(alloc, bytes) {
        Ok(config) => Ok(config),
        Err(fault) => Err(fault_in_view(fault)),
    }
}

fn fault_in_view(fault: FormFault) -> FormFault
    ensures { result ≡ fault_in_view fault }
{
    match fault {
        FormFault::Short | FormFault::Trailing | FormFault::NoMemory => fault,
        FormFault::Kind | FormFault::Value | FormFault::Order => FormFault::Value,
    }
}
