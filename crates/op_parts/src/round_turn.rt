ghost use Rattle.std.specs.Prelude.{◌≡◌, length, slice_get};
ghost use Rattle.std.specs.Option.{option_map};
ghost use Rattle.view_ledger.specs.Views.{newest_tail, newest_config};

use nim_base::Digest;
use statement::Member;
use view_ledger::ViewChain;

/// The turn of one member of a chain's newest view.
#[derive(Clone, Copy)]
pub struct Turn {
    /// The tail of the view.
    pub view: Digest,
    pub member: Member,
    /// How many members the view has.
    pub members: usize,
}

impl Turn {
    /// The turn of the member at this place, in rising ids.
    pub fn at(chain: &ViewChain, place: usize) -> Option<Turn>
        ensures { let members = newest_config chain.now.configs in result ≡ option_map (λ member. record { view = newest_tail chain.now.configs; member = member; members = length members }) (slice_get members place) }
    {
        let number = chain.number();
        let view = chain.tail(number)?;
        let members = chain.config(number)?.members();
        if place >= members.len() {
            return None;
        }
        Some(Turn {
            view,
            member: members[place],
            members: members.len(),
        })
    }
}
