// How view 0 is set up: what each call makes of the operation.
ghost use Rattle.std.specs.Prelude.{◌≡◌, ◌⊎◌, ◌<◌, length, IfOk, []};
ghost use Rattle.port.specs.declared.store_answers.Put.{Put};
ghost use Rattle.port.specs.declared.store_answers.Attached.{Attached};
ghost use Rattle.port.specs.Call.{Initialize, call_of};
ghost use Rattle.port.specs.Heard.{Heard, heard_of};
ghost use Rattle.port.specs.Link.{LinkStep};
ghost use Rattle.port.specs.Store.{StoreStep, WasPut, WasAttached};
ghost use Rattle.port.specs.ViewForm.{view_bytes};
ghost use Rattle.statement.specs.declared.member.Member.{Member};
ghost use Rattle.op_reconf.specs.SettingUp.{IsMember, next_call, fresh};
ghost use Rattle.op_reconf.specs.First.{first_config, first_block, first_row, first_put, first_asking, first_mark};
ghost use Rattle.op_reconf.specs.State.{AtEnd, AtMembers, answer_of, stage_of};
ghost use Rattle.op_reconf.specs.Steps.{TakesPut, TakesHeard, TakesMark, after_turn, judged, wanting};

use crate::set_up::SetUp;
use crate::stage::Stage;
use nim_base::{Digest, NoMemory, Text};
use port::{
    Attached, EndorserCall, Key, Link, LinkAnswer, Put, Refusal, Store, ViewRow, write_view,
};
use statement::{Config, ViewBlock};
use std::alloc::Global;
use tail_map::TailMap;
use view_ledger::ViewChain;

/// The byte that is attached to a view that is complete.
const COMPLETE: [u8; 1] = [1];

const FIRST: Key = Key::View { number: 0 };

fn refused(refusal: Refusal) -> Stage
    ensures { stage_of result ≡ AtEnd (answer_of (Err refusal)) }
{
    Stage::Ended {
        answer: Err(refusal),
    }
}

/// Puts view 0, unless memory is wanted for its bytes.
pub fn put_view<S: Store>(alloc: Global, chain: &ViewChain, store: &mut S) -> Stage
    ensures { ((put : Put) × StoreStep S.view store.old store.new (first_put (first_config chain.now)) (WasPut put) × TakesPut chain.now put (stage_of result))
        ⊎ ((store.new ≡ store.old) × (stage_of result ≡ wanting)) }
{
    match body_of(alloc, chain) {
        Ok(body) => {
            let put = store.put_new(alloc, &FIRST, body.bytes());
            after_put(alloc, chain, put)
        }
        Err(NoMemory) => refused(Refusal::NoMemory),
    }
}

/// Asks the member whose turn it is.
pub fn ask_member<L: Link>(alloc: Global, set_up: SetUp, link: &mut L) -> Stage
    requires { set_up.asked < length set_up.ask.members }
    ensures { (member : Member) × (heard : Heard) × IsMember set_up.ask set_up.asked member
        × LinkStep L.view link.old link.new member.id (next_call set_up) heard × TakesHeard set_up member.id heard (stage_of result) }
{
    let id = set_up.id();
    let heard = link.call(alloc, id, set_up.call());
    after_call(alloc, set_up, id, heard)
}

/// Marks the view as complete.
pub fn mark<S: Store>(alloc: Global, row: ViewRow, store: &mut S) -> Stage
    ensures { (attached : Attached) × StoreStep S.view store.old store.new first_mark (WasAttached attached) × TakesMark row attached (stage_of result) }
{
    let attached = store.attach(alloc, &FIRST, COMPLETE.as_slice());
    after_mark(row, attached)
}

fn block_of(config: &Config) -> ViewBlock
    ensures { result ≡ first_block config.now }
{
    ViewBlock {
        prev: Digest::default(),
        config: config.digest(),
        number: 0,
    }
}

fn body_of(alloc: Global, chain: &ViewChain) -> Result<Text, NoMemory>
    ensures { IfOk result (λ text. let members = first_config chain.now in text.bytes ≡ view_bytes (first_block members, members)) }
{
    match chain.config(0) {
        Some(config) => write_view(alloc, &block_of(config), config),
        None => Err(NoMemory),
    }
}

fn after_put(alloc: Global, chain: &ViewChain, put: Put) -> Stage
    ensures takes { TakesPut chain.now put (stage_of result) }
{
    match put {
        Put::Done | Put::Taken => members_of(alloc, chain),
        Put::Failed => refused(Refusal::StoreFault),
        Put::NoMemory => refused(Refusal::NoMemory),
    }
}

// The members' turns begin.
fn members_of(alloc: Global, chain: &ViewChain) -> Stage
    ensures { (stage_of result ≡ AtMembers (fresh (first_asking chain.now))) ⊎ (stage_of result ≡ wanting) }
{
    match set_up_of(alloc, chain) {
        Ok(set_up) => Stage::Members { set_up },
        Err(NoMemory) => refused(Refusal::NoMemory),
    }
}

fn set_up_of(alloc: Global, chain: &ViewChain) -> Result<SetUp, NoMemory>
    ensures { IfOk result (λ set_up. set_up ≡ fresh (first_asking chain.now)) }
{
    let (Some(config), Some(view)) = (chain.config(0), chain.tail(0)) else {
        return Err(NoMemory);
    };
    let initialize = initialize_of(alloc, config)?;
    let activate = EndorserCall::Activate { view, proof: None };
    Ok(SetUp::new(alloc, config.copy(alloc)?, initialize, activate))
}

fn initialize_of(alloc: Global, config: &Config) -> Result<EndorserCall, NoMemory>
    ensures { IfOk result (λ call. call_of call ≡ Initialize (first_block config.now) config.now []) }
{
    Ok(EndorserCall::Initialize {
        block: block_of(config),
        config: config.copy(alloc)?,
        map: TailMap::new(alloc),
    })
}

fn after_call(alloc: Global, set_up: SetUp, id: u32, heard: LinkAnswer) -> Stage
    requires { set_up.asked < length set_up.ask.members }
    ensures { TakesHeard set_up id (heard_of heard) (stage_of result) }
{
    let mut set_up = set_up;
    match set_up.take(id, heard) {
        Ok(()) => after_turn(alloc, set_up),
        Err(NoMemory) => refused(Refusal::NoMemory),
    }
}

fn after_turn(alloc: Global, set_up: SetUp) -> Stage
    ensures { stage_of result ≡ after_turn set_up }
{
    if set_up.is_over() {
        return judged(alloc, set_up);
    }
    Stage::Members { set_up }
}

fn judged(alloc: Global, set_up: SetUp) -> Stage
    ensures { stage_of result ≡ judged set_up }
{
    if set_up.is_quorum() {
        let (config, _) = set_up.into_parts();
        return Stage::Mark {
            row: row_of(alloc, config),
        };
    }
    let (config, reasons) = set_up.into_parts();
    let need = config.quorum() as u64;
    refused(Refusal::NoQuorum { need, reasons })
}

fn row_of(alloc: Global, config: Config) -> ViewRow
    ensures { result ≡ first_row config }
{
    ViewRow {
        block: block_of(&config),
        config,
        finals: Vec::new(alloc),
    }
}

fn after_mark(row: ViewRow, attached: Attached) -> Stage
    ensures { TakesMark row attached (stage_of result) }
{
    match attached {
        Attached::Done | Attached::Absent => Stage::Ended { answer: Ok(row) },
        Attached::Failed => refused(Refusal::StoreFault),
        Attached::NoMemory => refused(Refusal::NoMemory),
    }
}
