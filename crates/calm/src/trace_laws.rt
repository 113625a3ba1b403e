// Laws of lists of calls.
ghost use Rattle.std.specs.Prelude.{◌++◌, List};
ghost use Rattle.port.specs.Contents.{Contents};
ghost use Rattle.port.specs.Link.{Bank};
ghost use Rattle.port.specs.Trace.{Event, AreHonest, AreFaithful};
ghost use Rattle.calm.specs.Members.{Signs};

/// What became of contents and of endorsers by some calls became of them first by the older and then by the newer of these.
pub fn calls_are_split()
    ensures store { (contents after : Contents) (newer older : List Event) → AreHonest contents (newer ++ older) after
        → (middle : Contents) × AreHonest contents older middle × AreHonest middle newer after }
    ensures link { (signs : Signs) (bank after : Bank) (newer older : List Event) → AreFaithful signs bank (newer ++ older) after
        → (middle : Bank) × AreFaithful signs bank older middle × AreFaithful signs middle newer after }
{}
