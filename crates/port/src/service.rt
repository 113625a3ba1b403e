ghost use Rattle.std.specs.Prelude.{◌≡◌, ◌≤◌, ◌<◌, ◌^◌, length};
ghost use Rattle.port.specs.Service.{ServiceView, ServiceStep, ServiceCall, ServiceAnswer, NewLedger, Append, Latest, At, Views, stood, replied, knew};

use crate::latest_reply::LatestReply;
use crate::refusal::Refusal;
use crate::standing::Standing;
use crate::view_row::ViewRow;
use nim_base::{Digest, Nonce};
use std::alloc::Global;

/// Append-only ledgers, as a client is served. Payloads have at most 65,536 bytes.
///
/// As of a [`Store`](crate::Store), what is known of a service is one value, `view`. What an answer means of the
/// store and the endorsers below it can't be said in a trait that names neither: each service says it as `says`,
/// over the service before and after the call.
pub trait Service {
    /// How many calls it refused, and its calls.
    ghost view: { Self → ServiceView };

    /// What the service may answer to a call, and what it is then.
    ghost says: { Self → Self → ServiceCall → ServiceAnswer → Type 0 };

    /// Makes a ledger, whose first entry has this nonce and payload. Its handle is that entry's digest.
    fn new_ledger(
        &mut self,
        alloc: Global,
        nonce: &Nonce,
        payload: &[u8],
    ) -> Result<Standing, Refusal>
        requires { length payload.now ≤ 65536 }
        ensures step { ServiceStep view self.old self.new (NewLedger nonce.now payload.now) (stood result) }
        ensures says { says self.old self.new (NewLedger nonce.now payload.now) (stood result) };

    /// Appends an entry at this height, which is from 1 to 2^32 - 1.
    fn append(
        &mut self,
        alloc: Global,
        handle: &Digest,
        height: u64,
        nonce: &Nonce,
        payload: &[u8],
    ) -> Result<Standing, Refusal>
        requires from { 1 ≤ height }
        requires below { height < 2 ^ 32 }
        requires payload { length payload.now ≤ 65536 }
        ensures step { ServiceStep view self.old self.new (Append handle.now height nonce.now payload.now) (stood result) }
        ensures says { says self.old self.new (Append handle.now height nonce.now payload.now) (stood result) };

    /// The newest entry of a ledger, read with this nonce.
    fn latest(
        &mut self,
        alloc: Global,
        handle: &Digest,
        nonce: &Nonce,
    ) -> Result<LatestReply, Refusal>
        ensures step { ServiceStep view self.old self.new (Latest handle.now nonce.now) (replied result) }
        ensures says { says self.old self.new (Latest handle.now nonce.now) (replied result) };

    /// The entry at this height, which is below 2^32.
    fn at(&mut self, alloc: Global, handle: &Digest, height: u64) -> Result<Standing, Refusal>
        requires { height < 2 ^ 32 }
        ensures step { ServiceStep view self.old self.new (At handle.now height) (stood result) }
        ensures says { says self.old self.new (At handle.now height) (stood result) };

    /// The complete views from this number on, in rising numbers.
    fn views(&mut self, alloc: Global, from: u64) -> Result<Vec<ViewRow>, Refusal>
        ensures step { ServiceStep view self.old self.new (Views from) (knew result) }
        ensures says { says self.old self.new (Views from) (knew result) };

    /// How many of these calls were refused. At the last number of 64 bits it stands still.
    fn refused(&self) -> u64
        ensures { result ≡ (view self.now).refused };
}
