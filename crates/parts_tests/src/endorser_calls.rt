use endorser_core::Endorser;
use fixtures::{digest, first_call, member};
use nim_base::{Digest, NoMemory, Nonce};
use port::{ActivationProof, EndorserAnswer, EndorserCall, EndorserRefusal, Phase, ProofCause};
use seal::{KeyBook, MacScheme, MacSigner, Scheme, Signer};
use statement::{Config, ConfigFault, Member, Statement, ViewBlock};
use std::alloc::Global;
use std::test::Fail;
use tail_map::{TailMap, TailRow};

// What is written in hexadecimal was worked out with Python's hashlib, from the byte forms.

/// The tail of view 0 of the ids 1, 2 and 3.
pub(crate) const VIEW: &str = "c2ca55540c6a82c0f948fb05adfe074a226e38f6b963705c2dcce026de605b06";

/// The members of the view.
pub(crate) const IDS: [u32; 3] = [1, 2, 3];

pub(crate) const NONCE: Nonce = Nonce([7; 16]);

/// An answer without its signature.
#[derive(Clone, Copy, Debug, PartialEq, Eq)]
pub(crate) enum Seen {
    Done,
    Signed(Statement),
    Shown(Phase, u64, Digest, u64),
    Behind(u64),
    Stands(u64, Digest),
    OtherTail(Digest),
    NotGenesis,
    Full,
    NotMember,
    BadView,
    BadProof(ProofCause),
    WrongPhase(Phase),
    Spent,
    Other,
}

pub(crate) fn answer_seen(answer: &EndorserAnswer) -> Seen {
    match answer {
        EndorserAnswer::Done => Seen::Done,
        EndorserAnswer::Signed { statement, .. } => Seen::Signed(*statement),
        EndorserAnswer::Finaled { .. } => Seen::Other,
        EndorserAnswer::Shown {
            phase,
            number,
            tail,
            count,
        } => Seen::Shown(*phase, *number, *tail, *count),
        EndorserAnswer::Refused(refusal) => refusal_seen(refusal),
    }
}

pub(crate) fn refusal_seen(refusal: &EndorserRefusal) -> Seen {
    match refusal {
        EndorserRefusal::Behind { count } => Seen::Behind(*count),
        EndorserRefusal::Stands { count, tail } => Seen::Stands(*count, *tail),
        EndorserRefusal::OtherTail { tail } => Seen::OtherTail(*tail),
        EndorserRefusal::NotGenesis => Seen::NotGenesis,
        EndorserRefusal::Full => Seen::Full,
        EndorserRefusal::NotMember => Seen::NotMember,
        EndorserRefusal::BadView => Seen::BadView,
        EndorserRefusal::BadProof { cause } => Seen::BadProof(*cause),
        EndorserRefusal::WrongPhase { phase } => Seen::WrongPhase(*phase),
        EndorserRefusal::Spent => Seen::Spent,
        _ => Seen::Other,
    }
}

pub(crate) fn held(handle: Digest, tail: Digest, count: u64) -> Seen {
    Seen::Signed(Statement::Held {
        view: digest(VIEW),
        handle,
        tail,
        count,
    })
}

pub(crate) fn latest_of(handle: Digest, tail: Digest, count: u64) -> Seen {
    Seen::Signed(Statement::Latest {
        view: digest(VIEW),
        handle,
        tail,
        count,
        nonce: NONCE,
    })
}

pub(crate) fn step<G: Scheme>(
    alloc: Global,
    endorser: &mut Endorser<G>,
    call: &EndorserCall,
) -> Result<Seen, NoMemory> {
    Ok(answer_seen(&endorser.step(alloc, call)?))
}

pub(crate) fn append(handle: Digest, prev: Digest, entry: Digest, height: u64) -> EndorserCall {
    EndorserCall::Append {
        handle,
        prev,
        entry,
        height,
    }
}

pub(crate) fn latest(handle: Digest) -> EndorserCall {
    EndorserCall::Latest {
        handle,
        nonce: NONCE,
    }
}

pub(crate) fn finalize() -> EndorserCall {
    EndorserCall::Finalize {
        config: Digest::ZERO,
        number: 1,
    }
}

pub(crate) fn show(handle: Digest) -> EndorserCall {
    EndorserCall::Show { handle }
}

pub(crate) fn initialize(
    alloc: Global,
    prev: Digest,
    members: &[Member],
    number: u64,
    rows: &[TailRow],
) -> Result<EndorserCall, Fail> {
    let config = Config::of(alloc, members)?;
    let block = ViewBlock {
        prev,
        config: config.digest(),
        number,
    };
    let mut map = TailMap::new(alloc);
    for row in rows {
        if row.count == 1 {
            map.set(row)?;
        }
    }
    Ok(EndorserCall::Initialize { block, config, map })
}

pub(crate) fn first(alloc: Global) -> Result<Endorser<MacScheme>, NoMemory> {
    let book = KeyBook::of_ids(alloc, &IDS)?;
    Ok(Endorser::new(1, MacSigner::of_id(1), book))
}

/// The call that begins view 0 of three members.
pub(crate) fn begin_view(alloc: Global) -> Result<EndorserCall, ConfigFault> {
    first_call(alloc, &IDS)
}

/// The call with another config than that of its block.
pub(crate) fn with_config(
    alloc: Global,
    call: EndorserCall,
    members: &[Member],
) -> Result<EndorserCall, ConfigFault> {
    match call {
        EndorserCall::Initialize { block, map, .. } => Ok(EndorserCall::Initialize {
            block,
            config: Config::of(alloc, members)?,
            map,
        }),
        other => Ok(other),
    }
}

/// The call with a proof, which begins no first view.
pub(crate) fn with_proof(alloc: Global, view: Digest) -> Result<EndorserCall, ConfigFault> {
    let proof = ActivationProof {
        old_block: ViewBlock {
            prev: Digest::ZERO,
            config: Digest::ZERO,
            number: 0,
        },
        old_config: Config::of(alloc, &[member(1)])?,
        finals: Vec::new(alloc),
        chains: Vec::new(alloc),
    };
    Ok(EndorserCall::Activate {
        view,
        proof: Some(proof),
    })
}

pub(crate) fn row(handle: Digest, tail: Digest) -> TailRow {
    TailRow {
        handle,
        tail,
        count: 1,
    }
}
