// What follows where each member of a view counts or has a reason.
ghost use Rattle.std.specs.Prelude.{◌+◌, ◌<◌, ◌≤◌, ℕ, List, length};
ghost use Rattle.statement.specs.declared.member.Member.{Member};
ghost use Rattle.statement.specs.Config.{ids, quorum, weight_together, IsConfig, IsQuorum};
ghost use Rattle.op_parts.specs.RoundLaws.{AreParted};

/// Members that count are a quorum where they weigh enough, and else the others can be none, where each of a view's members
/// counts or has a reason.
pub fn quorums_are_parted()
    ensures enough { (members : List Member) (counted blamed : List ℕ) → IsConfig members → AreParted (ids members) counted blamed
        → quorum members ≤ weight_together members counted → IsQuorum members counted }
    ensures few { (members : List Member) (counted blamed : List ℕ) → AreParted (ids members) counted blamed
        → weight_together members counted < quorum members → length members < length blamed + quorum members }
{}
