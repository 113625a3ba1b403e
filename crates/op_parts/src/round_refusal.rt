ghost use Rattle.std.specs.Prelude.{◌≡◌, ℕ, true, if◌then◌else◌, Some, None, is_some};
ghost use Rattle.std.specs.Option.{option_map};
ghost use Rattle.port.specs.Cause.{cause_of, member_cause_of, Full};
ghost use Rattle.op_parts.specs.RoundRefusal.{causes, first_given, moved, full, above, cause_without_quorum};

use port::{EndorserRefusal, Reason, Refusal};

/// A member came to a count above the one that was called for.
#[derive(Clone, Copy, Debug, PartialEq, Eq)]
pub struct Contention {
    pub member: u32,
    /// The count that was called for.
    pub first: u64,
    /// The member's count.
    pub later: u64,
}

/// The first member that said that more stands than this count, which is one above the row's height.
pub fn first_above(reasons: &[(u32, Reason)], first: u64) -> Option<Contention>
    ensures { result ≡ first_given (above first) (causes reasons.now) }
{
    for (id, reason) in reasons {
        if let Some(later) = standing_above(reason, first) {
            return Some(Contention {
                member: *id,
                first,
                later,
            });
        }
    }
    None
}

/// The refusal where all members were asked and no quorum of them stands, from their reasons, which are by rising ids.
///
/// A member whose view has ended comes first (`ViewMoved`, of the view with this number), then one whose map is full
/// (`Full`), then one that came to a higher count, if the caller has one (`Contended`), and else it is `NoQuorum`.
pub fn refusal_of(
    from: u64,
    need: u64,
    higher: Option<Contention>,
    reasons: Vec<(u32, Reason)>,
) -> Refusal
    ensures { cause_of result ≡ cause_without_quorum from need higher (causes reasons.items) }
{
    if has_moved(&reasons) {
        return first_moved(from, reasons);
    }
    if let Some(member) = first_full(&reasons) {
        return Refusal::Full { member };
    }
    match higher {
        Some(
            Contention {
                member,
                first,
                later,
            },
        ) => Refusal::Contended {
            member,
            first,
            later,
        },
        None => Refusal::NoQuorum { need, reasons },
    }
}

fn has_moved(reasons: &[(u32, Reason)]) -> bool
    ensures { (from : ℕ) → result ≡ is_some (first_given (moved from) (causes reasons.now)) }
{
    for (_, reason) in reasons {
        if is_moved(reason) {
            return true;
        }
    }
    false
}

// The first member whose view has ended, where there is one.
fn first_moved(from: u64, reasons: Vec<(u32, Reason)>) -> Refusal
    requires { is_some (first_given (moved from) (causes reasons.items)) ≡ true }
    ensures { Some (cause_of result) ≡ first_given (moved from) (causes reasons.items) }
{
    for (id, reason) in reasons {
        if let Reason::Refused {
            refusal: EndorserRefusal::Finalized { statement, sig },
        } = reason
        {
            return Refusal::ViewMoved {
                from,
                id,
                statement,
                sig,
            };
        }
    }
    Refusal::NoMemory
}

fn first_full(reasons: &[(u32, Reason)]) -> Option<u32>
    ensures { option_map Full result ≡ first_given full (causes reasons.now) }
{
    for (id, reason) in reasons {
        if is_full(reason) {
            return Some(*id);
        }
    }
    None
}

fn standing_above(reason: &Reason, first: u64) -> Option<u64>
    ensures { (id : ℕ) → option_map (λ later. record { member = id; first = first; later = later }) result ≡ above first id (member_cause_of reason.now) }
{
    match reason {
        Reason::Refused {
            refusal: EndorserRefusal::Stands { count, .. },
        } if *count > first => Some(*count),
        _ => None,
    }
}

fn is_moved(reason: &Reason) -> bool
    ensures { (from id : ℕ) → result ≡ is_some (moved from id (member_cause_of reason.now)) }
{
    matches!(
        reason,
        Reason::Refused {
            refusal: EndorserRefusal::Finalized { .. },
        }
    )
}

fn is_full(reason: &Reason) -> bool
    ensures { (id : ℕ) → full id (member_cause_of reason.now) ≡ (if result then Some (Full id) else None) }
{
    matches!(
        reason,
        Reason::Refused {
            refusal: EndorserRefusal::Full,
        }
    )
}
