ghost use Rattle.std.specs.Prelude.{◌≡◌, map};
ghost use Rattle.fault_script.specs.Form.{act_form, act_word_count, form_of, form_of_first, lone_form, loss_form, op_form, op_word_count, raw_form, raw_word_count, store_form, store_word_count, word_count};

use crate::words::word;

/// What an act is, by its first word.
#[derive(Clone, Copy, Debug, PartialEq, Eq)]
pub(crate) enum ActForm {
    New,
    Append,
    Latest,
    At,
    Reconfigure,
}

/// What a line about an operation is, by its first word.
#[derive(Clone, Copy, Debug, PartialEq, Eq)]
pub(crate) enum OpForm {
    Step,
    Finish,
    Retry,
    Offer,
    Forge,
}

/// What a line is that begins with `lose`, by its second word.
#[derive(Clone, Copy, Debug, PartialEq, Eq)]
pub(crate) enum LossForm {
    Request,
    Reply,
}

/// What a line is that begins with `store`, by its second word.
#[derive(Clone, Copy, Debug, PartialEq, Eq)]
pub(crate) enum StoreForm {
    Fail,
    Hide,
    Stale,
    Fork,
    Honest,
}

/// What a line is that begins with `raw`, by its second word.
#[derive(Clone, Copy, Debug, PartialEq, Eq)]
pub(crate) enum RawForm {
    Append,
    Latest,
    Show,
    Finalize,
}

/// What a line is, by the words that it begins with.
#[derive(Clone, Copy, Debug, PartialEq, Eq)]
pub(crate) enum Form {
    Genesis,
    Plain(ActForm),
    Restart,
    Begin(ActForm),
    Op(OpForm),
    Lose(LossForm),
    Store(StoreForm),
    Raw(RawForm),
    End,
}

#[tactic(auto, unfolding(crate::specs::Form::act_form))]
fn act_form(word: &[u8]) -> Option<ActForm>
    ensures { result ≡ act_form word.now }
{
    if word == b"new".as_slice() {
        return Some(ActForm::New);
    }
    if word == b"append".as_slice() {
        return Some(ActForm::Append);
    }
    if word == b"latest".as_slice() {
        return Some(ActForm::Latest);
    }
    if word == b"at".as_slice() {
        return Some(ActForm::At);
    }
    None
}

#[tactic(auto, unfolding(crate::specs::Form::op_form))]
fn op_form(word: &[u8]) -> Option<OpForm>
    ensures { result ≡ op_form word.now }
{
    if word == b"step".as_slice() {
        return Some(OpForm::Step);
    }
    if word == b"finish".as_slice() {
        return Some(OpForm::Finish);
    }
    if word == b"retry".as_slice() {
        return Some(OpForm::Retry);
    }
    if word == b"offer".as_slice() {
        return Some(OpForm::Offer);
    }
    if word == b"forge".as_slice() {
        return Some(OpForm::Forge);
    }
    None
}

#[tactic(auto, unfolding(crate::specs::Form::loss_form))]
fn loss_form(word: &[u8]) -> Option<LossForm>
    ensures { result ≡ loss_form word.now }
{
    if word == b"request".as_slice() {
        return Some(LossForm::Request);
    }
    if word == b"reply".as_slice() {
        return Some(LossForm::Reply);
    }
    None
}

#[tactic(auto, unfolding(crate::specs::Form::store_form))]
fn store_form(word: &[u8]) -> Option<StoreForm>
    ensures { result ≡ store_form word.now }
{
    if word == b"fail".as_slice() {
        return Some(StoreForm::Fail);
    }
    if word == b"hide".as_slice() {
        return Some(StoreForm::Hide);
    }
    if word == b"stale".as_slice() {
        return Some(StoreForm::Stale);
    }
    if word == b"fork".as_slice() {
        return Some(StoreForm::Fork);
    }
    if word == b"honest".as_slice() {
        return Some(StoreForm::Honest);
    }
    None
}

#[tactic(auto, unfolding(crate::specs::Form::raw_form))]
fn raw_form(word: &[u8]) -> Option<RawForm>
    ensures { result ≡ raw_form word.now }
{
    if word == b"append".as_slice() {
        return Some(RawForm::Append);
    }
    if word == b"latest".as_slice() {
        return Some(RawForm::Latest);
    }
    if word == b"show".as_slice() {
        return Some(RawForm::Show);
    }
    None
}

#[tactic(auto, unfolding(crate::specs::Form::lone_form))]
fn lone_form(word: &[u8]) -> Option<Form>
    ensures { result ≡ lone_form word.now }
{
    if word == b"genesis".as_slice() {
        return Some(Form::Genesis);
    }
    if word == b"restart".as_slice() {
        return Some(Form::Restart);
    }
    if word == b"end".as_slice() {
        return Some(Form::End);
    }
    None
}

/// The form of a line whose first word tells it.
#[tactic(auto, unfolding(crate::specs::Form::form_of_first))]
fn form_of_first(word: &[u8]) -> Option<Form>
    ensures { result ≡ form_of_first word.now }
{
    if let Some(form) = lone_form(word) {
        return Some(form);
    }
    if let Some(act) = act_form(word) {
        return Some(Form::Plain(act));
    }
    match op_form(word) {
        Some(op) => Some(Form::Op(op)),
        None => None,
    }
}

/// The form that the words begin, if there is one.
#[tactic(auto, unfolding(crate::specs::Form::form_of))]
pub(crate) fn form_of(words: &[&[u8]]) -> Option<Form>
    ensures { result ≡ form_of (map (λ word. word.now) words.now) }
{
    let first = word(words, 0);
    if first == b"begin".as_slice() {
        return act_form(word(words, 2)).map(Form::Begin);
    }
    if first == b"lose".as_slice() {
        return loss_form(word(words, 1)).map(Form::Lose);
    }
    if first == b"store".as_slice() {
        return store_form(word(words, 1)).map(Form::Store);
    }
    if first == b"raw".as_slice() {
        return raw_form(word(words, 1)).map(Form::Raw);
    }
    form_of_first(first)
}

impl ActForm {
    fn word_count(self) -> usize
        ensures { result ≡ act_word_count self }
    {
        match self {
            ActForm::New => 4,
            ActForm::Append => 5,
            ActForm::Latest => 3,
            ActForm::At => 4,
            ActForm::Reconfigure => 2,
        }
    }
}

impl OpForm {
    fn word_count(self) -> usize
        ensures { result ≡ op_word_count self }
    {
        match self {
            OpForm::Step => 3,
            OpForm::Finish => 2,
            OpForm::Retry => 2,
            OpForm::Offer => 3,
            OpForm::Forge => 4,
        }
    }
}

impl StoreForm {
    fn word_count(self) -> usize
        ensures { result ≡ store_word_count self }
    {
        match self {
            StoreForm::Fail => 3,
            StoreForm::Hide => 4,
            StoreForm::Stale => 5,
            StoreForm::Fork => 4,
            StoreForm::Honest => 2,
        }
    }
}

impl RawForm {
    fn word_count(self) -> usize
        ensures { result ≡ raw_word_count self }
    {
        match self {
            RawForm::Append => 7,
            RawForm::Latest => 5,
            RawForm::Show => 4,
            RawForm::Finalize => 4,
        }
    }
}

impl Form {
    /// How many words a line of this form has.
    pub fn word_count(self) -> usize
        ensures { result ≡ word_count self }
    {
        match self {
            Form::Genesis => 2,
            Form::Plain(act) => act.word_count(),
            Form::Restart => 1,
            Form::Begin(act) => 2 + act.word_count(),
            Form::Op(op) => op.word_count(),
            Form::Lose(_) => 4,
            Form::Store(store) => store.word_count(),
            Form::Raw(raw) => raw.word_count(),
            Form::End => 1,
        }
    }
}
