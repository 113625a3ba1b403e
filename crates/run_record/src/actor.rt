/// Who acted in an event of a run. A place counts from 0, among the call lists of the endorsers and among
/// the lists of the clients.
#[derive(Clone, Copy, Debug, PartialEq, Eq)]
pub enum Actor {
    /// The endorser whose call list stands there served a call.
    Endorser { place: usize },
    /// The client whose list stands there drew or checked.
    Client { place: usize },
}
