ghost use Rattle.std.specs.Prelude.{◌≡◌};
ghost use Rattle.statement.specs.Ids.{is_above};

/// Whether the id is above the one before it, if there is one.
pub(crate) fn is_above(before: Option<u32>, id: u32) -> bool
    ensures { result ≡ is_above before id }
{
    match before {
        None => true,
        Some(before) => before < id,
    }
}
