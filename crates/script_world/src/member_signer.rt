use seal::Signer;

/// Who signs under the key of a member of the roster, and that member's id.
#[derive(Drop)]
pub struct MemberSigner<S: Signer> {
    pub id: u32,
    pub signer: S,
}
