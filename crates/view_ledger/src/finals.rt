ghost use Rattle.std.specs.Prelude.{◌≡◌, ◌∷◌, [], ◌++◌, List, None, map, IfNone};
ghost use Rattle.statement.specs.declared.member.Member.{Member};
ghost use Rattle.statement.specs.declared.statement.Statement.TheVariants.{Final};
ghost use Rattle.statement.specs.Config.{weight_together};
ghost use Rattle.statement.specs.Statement.{statement_bytes};
ghost use Rattle.view_ledger.specs.Extension.{final_id, first_bad_final, finals_fault, AreGenuine, is_genuine, first_not_genuine};
ghost use Rattle.view_ledger.specs.Receipts.{is_signed};

use crate::marks::{is_above, is_signed, weight};
use crate::view_fault::ViewFault;
use nim_base::Digest;
use port::FinalMark;
use seal::Checker;
use statement::{Config, Member, Statement};

/// The first cause for which the finals don't end the view.
#[tactic(auto, unfolding(crate::specs::Extension::finals_fault))]
pub(crate) fn finals_fault<C: Checker>(
    checker: &C,
    config: &Config,
    view: &Digest,
    next: &Digest,
    finals: &[FinalMark],
) -> Option<ViewFault>
    ensures { result ≡ finals_fault (C.accepts checker.now) config.now (λ map. statement_bytes (Final view.now next.now map)) finals.now }
{
    if let Some(id) = first_bad_final(checker, config, view, next, finals) {
        return Some(ViewFault::BadMark { id });
    }
    let got = weight_of_finals(config, finals);
    let need = config.quorum();
    if got < need {
        return Some(ViewFault::NoQuorum {
            got: got as u64,
            need: need as u64,
        });
    }
    None
}

/// The first final whose id isn't above the one before, or that isn't its member's. They are over the tails
/// of the view that ended and of the next one.
fn first_bad_final<C: Checker>(
    checker: &C,
    config: &Config,
    view: &Digest,
    next: &Digest,
    finals: &[FinalMark],
) -> Option<u32>
    ensures { result ≡ first_bad_final (C.accepts checker.now) config.now (λ map. statement_bytes (Final view.now next.now map)) None finals.now }
{
    let mut before = None;
    for ended in finals {
        if !is_above(before, ended.id) || !is_final(checker, config, view, next, ended) {
            return Some(ended.id);
        }
        before = Some(ended.id);
    }
    None
}

fn is_final<C: Checker>(
    checker: &C,
    config: &Config,
    view: &Digest,
    next: &Digest,
    ended: &FinalMark,
) -> bool
    ensures { result ≡ is_signed (C.accepts checker.now) config.now (statement_bytes (Final view.now next.now ended.now.map)) ended.now.id ended.now.sig }
{
    let statement = Statement::Final {
        view: *view,
        next: *next,
        map: ended.map,
    };
    let bytes = statement.bytes();
    is_signed(
        checker,
        config,
        bytes.as_slice(),
        ended.id,
        ended.sig.bytes(),
    )
}

/// What the members that ended the view weigh together.
fn weight_of_finals(config: &Config, finals: &[FinalMark]) -> usize
    ensures { result ≡ weight_together config.now (map final_id finals.now) }
{
    let mut got = 0;
    for ended in finals {
        got += weight(config, ended.id);
    }
    got
}

/// The first member that isn't in the roster with its key.
pub(crate) fn first_not_genuine(roster: &[Member], members: &[Member]) -> Option<u32>
    ensures first { result ≡ first_not_genuine roster.now members.now }
    ensures genuine { IfNone result (AreGenuine roster.now members.now) }
{
    for member in members {
        if !is_genuine(roster, member) {
            return Some(member.id);
        }
    }
    None
}

fn is_genuine(roster: &[Member], member: &Member) -> bool
    ensures { result ≡ is_genuine roster.now member.now }
{
    roster.contains(member)
}
