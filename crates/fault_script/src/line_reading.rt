ghost use Rattle.std.specs.Prelude.{◌≡◌, ◌≤◌, map};
ghost use Rattle.fault_script.specs.Outcome.{Gives};
ghost use Rattle.fault_script.specs.Seen.{command_of, request_of};
ghost use Rattle.fault_script.specs.Reading.{command_in, loss_command_in, op_command_in, raw_command_in, request_in, store_command_in};
ghost use Rattle.fault_script.specs.Line.{command_of_line, command_of_words, is_out_of_order, is_text_byte};
ghost use Rattle.std.specs.List.{list_all};

use crate::act::Act;
use crate::bad_cause::BadCause;
use crate::form::{ActForm, Form, LossForm, OpForm, RawForm, StoreForm, form_of};
use crate::line::Line;
use crate::line_fault::LineFault;
use crate::words::{id_in, ids_in, name_in, number_in, parts, payload_in, word};
use std::alloc::Global;

const MAX_TIMES: u64 = 1000;

const MAX_HEIGHT: u64 = 4294967295;

const MAX_NONCE: u64 = 4294967295;

const MAX_COUNT: u64 = 4294967296;

/// The act of this form whose first word stands at a place.
#[tactic(auto, unfolding(crate::specs::Reading::request_in))]
fn read_act(alloc: Global, form: ActForm, words: &[&[u8]], at: usize) -> Result<Act, LineFault>
    requires { at ≤ 2 }
    ensures { Gives request_of result (request_in form (map (λ word. word.now) words.now) at) }
{
    match form {
        ActForm::New => Ok(Act::New {
            client: name_in(alloc, word(words, at + 1))?,
            label: name_in(alloc, word(words, at + 2))?,
            payload: payload_in(alloc, word(words, at + 3))?,
        }),
        ActForm::Append => Ok(Act::Append {
            client: name_in(alloc, word(words, at + 1))?,
            label: name_in(alloc, word(words, at + 2))?,
            height: number_in(1, MAX_HEIGHT, word(words, at + 3))?,
            payload: payload_in(alloc, word(words, at + 4))?,
        }),
        ActForm::Latest => Ok(Act::Latest {
            client: name_in(alloc, word(words, at + 1))?,
            label: name_in(alloc, word(words, at + 2))?,
        }),
        ActForm::At => Ok(Act::At {
            client: name_in(alloc, word(words, at + 1))?,
            label: name_in(alloc, word(words, at + 2))?,
            height: number_in(0, MAX_HEIGHT, word(words, at + 3))?,
        }),
        ActForm::Reconfigure => Ok(Act::Reconfigure {
            ids: ids_in(alloc, word(words, at + 1))?,
        }),
    }
}

/// The line of this form about an operation that was begun.
#[tactic(auto, unfolding(crate::specs::Reading::op_command_in))]
fn read_op(alloc: Global, form: OpForm, words: &[&[u8]]) -> Result<Line, LineFault>
    ensures { Gives command_of result (op_command_in form (map (λ word. word.now) words.now)) }
{
    match form {
        OpForm::Step => Ok(Line::Step {
            op: name_in(alloc, word(words, 1))?,
            n: number_in(1, MAX_TIMES, word(words, 2))?,
        }),
        OpForm::Finish => Ok(Line::Finish {
            op: name_in(alloc, word(words, 1))?,
        }),
        OpForm::Retry => Ok(Line::Retry {
            op: name_in(alloc, word(words, 1))?,
        }),
        OpForm::Offer => Ok(Line::Offer {
            op: name_in(alloc, word(words, 1))?,
            ids: ids_in(alloc, word(words, 2))?,
        }),
        OpForm::Forge => Ok(Line::Forge {
            op: name_in(alloc, word(words, 1))?,
            count: number_in(0, MAX_COUNT, word(words, 2))?,
            ids: ids_in(alloc, word(words, 3))?,
        }),
    }
}

/// The line of this form about losses.
#[tactic(auto, unfolding(crate::specs::Reading::loss_command_in))]
fn read_loss(form: LossForm, words: &[&[u8]]) -> Result<Line, LineFault>
    ensures { Gives command_of result (loss_command_in form (map (λ word. word.now) words.now)) }
{
    match form {
        LossForm::Request => Ok(Line::LoseRequest {
            id: id_in(word(words, 2))?,
            n: number_in(1, MAX_TIMES, word(words, 3))?,
        }),
        LossForm::Reply => Ok(Line::LoseReply {
            id: id_in(word(words, 2))?,
            n: number_in(1, MAX_TIMES, word(words, 3))?,
        }),
    }
}

/// The line of this form about the store.
#[tactic(auto, unfolding(crate::specs::Reading::store_command_in))]
fn read_store(alloc: Global, form: StoreForm, words: &[&[u8]]) -> Result<Line, LineFault>
    ensures { Gives command_of result (store_command_in form (map (λ word. word.now) words.now)) }
{
    match form {
        StoreForm::Fail => Ok(Line::StoreFail {
            n: number_in(1, MAX_TIMES, word(words, 2))?,
        }),
        StoreForm::Hide => Ok(Line::StoreHide {
            label: name_in(alloc, word(words, 2))?,
            height: number_in(0, MAX_HEIGHT, word(words, 3))?,
        }),
        StoreForm::Stale => Ok(Line::StoreStale {
            label: name_in(alloc, word(words, 2))?,
            height: number_in(0, MAX_HEIGHT, word(words, 3))?,
            from: number_in(0, MAX_HEIGHT, word(words, 4))?,
        }),
        StoreForm::Fork => Ok(Line::StoreFork {
            label: name_in(alloc, word(words, 2))?,
            height: number_in(0, MAX_HEIGHT, word(words, 3))?,
        }),
        StoreForm::Honest => Ok(Line::StoreHonest),
    }
}

/// The line of this form that goes to an endorser directly.
#[tactic(auto, unfolding(crate::specs::Reading::raw_command_in))]
fn read_raw(alloc: Global, form: RawForm, words: &[&[u8]]) -> Result<Line, LineFault>
    ensures { Gives command_of result (raw_command_in form (map (λ word. word.now) words.now)) }
{
    match form {
        RawForm::Append => Ok(Line::RawAppend {
            id: id_in(word(words, 2))?,
            label: name_in(alloc, word(words, 3))?,
            height: number_in(1, MAX_HEIGHT, word(words, 4))?,
            payload: payload_in(alloc, word(words, 5))?,
            nonce: number_in(0, MAX_NONCE, word(words, 6))?,
        }),
        RawForm::Latest => Ok(Line::RawLatest {
            id: id_in(word(words, 2))?,
            label: name_in(alloc, word(words, 3))?,
            nonce: number_in(0, MAX_NONCE, word(words, 4))?,
        }),
        RawForm::Show => Ok(Line::RawShow {
            id: id_in(word(words, 2))?,
            label: name_in(alloc, word(words, 3))?,
        }),
        RawForm::Finalize => Ok(Line::RawFinalize {
            id: id_in(word(words, 2))?,
            ids: ids_in(alloc, word(words, 3))?,
        }),
    }
}

/// The line of this form.
#[tactic(auto, unfolding(crate::specs::Reading::command_in))]
fn read_line(alloc: Global, form: Form, words: &[&[u8]]) -> Result<Line, LineFault>
    ensures { Gives command_of result (command_in form (map (λ word. word.now) words.now)) }
{
    match form {
        Form::Genesis => Ok(Line::Genesis {
            ids: ids_in(alloc, word(words, 1))?,
        }),
        Form::Plain(act) => Ok(Line::Plain {
            act: read_act(alloc, act, words, 0)?,
        }),
        Form::Restart => Ok(Line::Restart),
        Form::Begin(act) => Ok(Line::Begin {
            op: name_in(alloc, word(words, 1))?,
            act: read_act(alloc, act, words, 2)?,
        }),
        Form::Op(op) => read_op(alloc, op, words),
        Form::Lose(loss) => read_loss(loss, words),
        Form::Store(store) => read_store(alloc, store, words),
        Form::Raw(raw) => read_raw(alloc, raw, words),
        Form::End => Ok(Line::End),
    }
}

fn are_text_bytes(bytes: &[u8]) -> bool
    ensures { result ≡ list_all is_text_byte bytes.now }
{
    bytes.iter().all(|b| *b >= 32 && *b <= 126)
}

fn is_out_of_order(first: bool, ended: bool, word: &[u8]) -> bool
    ensures { result ≡ is_out_of_order first ended word.now }
{
    let begins = word == b"genesis".as_slice();
    ended || (if first { !begins } else { begins })
}

#[tactic(auto, unfolding(crate::specs::Line::command_of_words))]
fn read_words(alloc: Global, words: &[&[u8]]) -> Result<Line, LineFault>
    ensures { Gives command_of result (command_of_words (map (λ word. word.now) words.now)) }
{
    let Some(form) = form_of(words) else {
        return Err(LineFault::Bad(BadCause::Word));
    };
    if words.len() != form.word_count() {
        return Err(LineFault::Bad(BadCause::Count));
    }
    read_line(alloc, form, words)
}

/// What a line says where it is the first one or not, and `end` stands before it or not.
#[tactic(auto, unfolding(crate::specs::Line::command_of_line))]
pub(crate) fn read_alone(
    alloc: Global,
    first: bool,
    ended: bool,
    line: &[u8],
) -> Result<Line, LineFault>
    ensures { Gives command_of result (command_of_line first ended line.now) }
{
    if !are_text_bytes(line) {
        return Err(LineFault::Bad(BadCause::Char));
    }
    let words = parts(alloc, line, b' ')?;
    if is_out_of_order(first, ended, word(&words, 0)) {
        return Err(LineFault::Bad(BadCause::Order));
    }
    read_words(alloc, &words)
}
