ghost use Rattle.std.specs.Prelude.{◌≡◌};

use crate::world::Act::{
    Begin, Count, Fail as Fails, Finish, Hide, Honest, Leave, Lose, Raw, Receipt, Run, Stale, Step,
};
use crate::world::Ask::{Append, At, Latest, New};
use crate::world::{Act, World};
use endorser_cell::Loss::{Reply, Request};
use stamp_clock::{ClockName, ClockStart};
use std::alloc::Global;
use std::marker::Brand;
use std::test::Fail;

/// A row of a script: what happens, and what is said of it.
type Line = (Act, &'static str);

/// Whoever can't be reached is no part of the quorum of a view of an even number of members.
const TWO_MEMBERS: [Line; 3] = [
    (Run(New), "ok 0 a"),
    (Lose(2, Request), ""),
    (Run(Append(1, b'b')), "noquorum 2 2:lost"),
];

const FOUR_MEMBERS: [Line; 4] = [
    (Run(New), "ok 0 a"),
    (Lose(3, Request), ""),
    (Lose(4, Request), ""),
    (Run(Append(1, b'b')), "noquorum 3 3:lost 4:lost"),
];

/// Members whose request or reply was lost are brought forward by the next append.
const LOSSES_AND_CATCH_UP: [Line; 8] = [
    (Run(New), "ok 0 a"),
    (Lose(4, Request), ""),
    (Lose(5, Reply), ""),
    (Run(Append(1, b'b')), "ok 1 b"),
    (Count(4), "1"),
    (Count(5), "2"),
    (Run(Append(2, b'c')), "ok 2 c"),
    (Count(4), "3"),
];

/// An append that was left when it had reached one member is taken up by the next one at its height.
const RESTART: [Line; 6] = [
    (Run(New), "ok 0 a"),
    (Begin(Append(1, b'b')), ""),
    (Step(1, 4), ""),
    (Count(1), "2"),
    (Leave(1), "view 0"),
    (Run(Append(1, b'e')), "conflict 1 b"),
];

const TWO_AT_ONE_HEIGHT: [Line; 7] = [
    (Run(New), "ok 0 a"),
    (Begin(Append(1, b'x')), ""),
    (Begin(Append(1, b'y')), ""),
    (Step(1, 2), ""),
    (Step(2, 3), ""),
    (Finish(1), "conflict 1 y"),
    (Finish(2), "ok 1 y"),
];

/// Two members hold two entries of which no row stands.
const CONTENTION: [Line; 6] = [
    (Run(New), "ok 0 a"),
    (Raw(2, 1, b'y'), ""),
    (Raw(2, 2, b'z'), ""),
    (Raw(3, 1, b'y'), ""),
    (Raw(3, 2, b'z'), ""),
    (Run(Append(1, b'x')), "contended 2 2 3"),
];

const CONFLICT_AND_GAP: [Line; 6] = [
    (Run(New), "ok 0 a"),
    (Run(Append(1, b'b')), "ok 1 b"),
    (Run(Append(1, b'z')), "conflict 1 b"),
    (Run(Append(1, b'b')), "ok 1 b"),
    (Run(Append(3, b'z')), "gap 2"),
    (Run(At(9)), "gap 9"),
];

/// A row with a receipt is settled by no call of a member.
const SETTLED: [Line; 6] = [
    (Run(New), "ok 0 a"),
    (Lose(1, Request), ""),
    (Lose(2, Request), ""),
    (Lose(3, Request), ""),
    (Run(At(0)), "ok 0 a"),
    (Run(New), "ok 0 a"),
];

/// A row without one is settled by a round, also where that was lost at first.
const SETTLED_BY_A_ROUND: [Line; 10] = [
    (Run(New), "ok 0 a"),
    (Begin(Append(1, b'b')), ""),
    (Step(1, 3), ""),
    (Receipt(1), "row"),
    (Lose(2, Request), ""),
    (Lose(3, Request), ""),
    (Run(At(1)), "noquorum 2 2:lost 3:lost"),
    (Receipt(1), "row"),
    (Run(At(1)), "ok 1 b"),
    (Receipt(1), "receipt"),
];

/// A failed attach leaves a row without a receipt. Members that have come further lead to the row above that has one.
const SETTLED_FROM_ABOVE: [Line; 9] = [
    (Run(New), "ok 0 a"),
    (Begin(Append(1, b'b')), ""),
    (Step(1, 6), ""),
    (Fails, ""),
    (Finish(1), "ok 1 b"),
    (Receipt(1), "row"),
    (Run(Append(2, b'c')), "ok 2 c"),
    (Run(At(1)), "ok 1 b + 1"),
    (Receipt(1), "row"),
];

/// Where no row above has a receipt, the newest of them is brought to one, or isn't.
const SETTLED_AT_THE_TOP: [Line; 16] = [
    (Run(New), "ok 0 a"),
    (Begin(Append(1, b'b')), ""),
    (Step(1, 6), ""),
    (Fails, ""),
    (Finish(1), "ok 1 b"),
    (Begin(Append(2, b'c')), ""),
    (Step(2, 6), ""),
    (Fails, ""),
    (Finish(2), "ok 2 c"),
    (Receipt(2), "row"),
    (Lose(2, Request), ""),
    (Begin(At(1)), ""),
    (Step(3, 7), ""),
    (Finish(3), "ok 1 b + 1"),
    (Receipt(2), "receipt"),
    (Run(At(1)), "ok 1 b + 1"),
];

/// At the top the members may be too few.
const TOO_FEW_AT_THE_TOP: [Line; 14] = [
    (Run(New), "ok 0 a"),
    (Begin(Append(1, b'b')), ""),
    (Step(1, 6), ""),
    (Fails, ""),
    (Finish(1), "ok 1 b"),
    (Begin(Append(2, b'c')), ""),
    (Step(2, 6), ""),
    (Fails, ""),
    (Finish(2), "ok 2 c"),
    (Begin(At(1)), ""),
    (Step(3, 7), ""),
    (Lose(2, Request), ""),
    (Lose(3, Reply), ""),
    (Finish(3), "noquorum 2 2:lost 3:lost"),
];

/// At the top a member may have come further still.
const CONTENDED_AT_THE_TOP: [Line; 12] = [
    (Run(New), "ok 0 a"),
    (Begin(Append(1, b'b')), ""),
    (Step(1, 6), ""),
    (Fails, ""),
    (Finish(1), "ok 1 b"),
    (Begin(Append(2, b'c')), ""),
    (Step(2, 6), ""),
    (Fails, ""),
    (Finish(2), "ok 2 c"),
    (Raw(1, 3, b'd'), ""),
    (Raw(3, 3, b'd'), ""),
    (Run(At(1)), "contended 1 3 4"),
];

const ABSENT: [Line; 1] = [(Run(Latest), "absent")];

const LIES_AND_STORE_FAULTS: [Line; 12] = [
    (Run(New), "ok 0 a"),
    (Run(Append(1, b'b')), "ok 1 b"),
    (Stale(1, 0), ""),
    (Run(Latest), "badrow 1"),
    (Honest, ""),
    (Hide(1), ""),
    (Run(Latest), "gap 1"),
    (Honest, ""),
    (Fails, ""),
    (Run(Append(2, b'd')), "storefault"),
    (Run(Append(2, b'd')), "ok 2 d"),
    (Run(Latest), "ok 2 d"),
];

/// A read brings a member forward that is behind, where the others are no quorum.
const READ_OVER_A_MEMBER_BEHIND: [Line; 7] = [
    (Run(New), "ok 0 a"),
    (Lose(3, Request), ""),
    (Run(Append(1, b'b')), "ok 1 b"),
    (Count(3), "1"),
    (Lose(1, Request), ""),
    (Run(Latest), "ok 1 b"),
    (Count(3), "2"),
];

/// While a member is brought forward it may have come further than any had signed.
const CONTENDED_READ: [Line; 10] = [
    (Run(New), "ok 0 a"),
    (Lose(1, Request), ""),
    (Run(Append(1, b'b')), "ok 1 b"),
    (Lose(3, Request), ""),
    (Begin(Latest), ""),
    (Step(2, 4), ""),
    (Raw(1, 1, b'b'), ""),
    (Raw(1, 2, b'z'), ""),
    (Finish(2), "contended 1 2 3"),
    (Count(1), "3"),
];

/// Whatever is left keeps its chain, and what is over gives its answer once.
const LEFT_AND_FINISHED: [Line; 18] = [
    (Begin(New), ""),
    (Step(0, 1), ""),
    (Leave(0), "view 0"),
    (Begin(New), ""),
    (Finish(1), "ok 0 a"),
    (Finish(1), ""),
    (Begin(Append(1, b'b')), ""),
    (Leave(2), "view 0"),
    (Begin(Latest), ""),
    (Step(3, 2), ""),
    (Leave(3), "view 0"),
    (Begin(Latest), ""),
    (Finish(4), "ok 0 a"),
    (Begin(At(0)), ""),
    (Leave(5), "view 0"),
    (Begin(At(0)), ""),
    (Finish(6), "ok 0 a"),
    (Leave(6), ""),
];

const SCRIPTS: [(&[u32], &[Line]); 18] = [
    (&[1, 2], &TWO_MEMBERS),
    (&[1, 2, 3, 4], &FOUR_MEMBERS),
    (&[1, 2, 3, 4, 5], &LOSSES_AND_CATCH_UP),
    (&[1, 2, 3], &RESTART),
    (&[1, 2, 3], &TWO_AT_ONE_HEIGHT),
    (&[1, 2, 3], &CONTENTION),
    (&[1, 2, 3], &CONFLICT_AND_GAP),
    (&[1, 2, 3], &SETTLED),
    (&[1, 2, 3], &SETTLED_BY_A_ROUND),
    (&[1, 2, 3], &SETTLED_FROM_ABOVE),
    (&[1, 2, 3], &SETTLED_AT_THE_TOP),
    (&[1, 2, 3], &TOO_FEW_AT_THE_TOP),
    (&[1, 2, 3], &CONTENDED_AT_THE_TOP),
    (&[1, 2, 3], &ABSENT),
    (&[1, 2, 3], &LIES_AND_STORE_FAULTS),
    (&[1, 2, 3], &READ_OVER_A_MEMBER_BEHIND),
    (&[1, 2, 3], &CONTENDED_READ),
    (&[1, 2, 3], &LEFT_AND_FINISHED),
];

/// What is said of each act in a world of these members.
fn run<K: ClockName>(
    alloc: Global,
    start: ClockStart,
    ids: &[u32],
    lines: &[Line],
) -> Result<Vec<String>, Fail>
    requires { start ≡ K.clock }
{
    let (clock, mut rest) = start.open::<K>();
    let mut world = World::new(alloc, &clock, &mut rest, ids)?;
    let mut said = Vec::new(alloc);
    for (act, _) in lines {
        said.push(world.act(alloc, *act)?)?;
    }
    Ok(said)
}

#[test]
fn operations_say_what_they_found(rt: HostRuntime) -> Result<(), Fail> {
    let alloc = rt.alloc();
    for (ids, lines) in SCRIPTS {
        let said = run::<Brand>(alloc, ClockStart::new(alloc)?, ids, lines)?;
        assert_eq!(rt; said.len(), lines.len());
        for (line, words) in lines.iter().zip(&said) {
            assert_eq!(rt; words.as_str(), line.1);
        }
    }
    Ok(())
}
