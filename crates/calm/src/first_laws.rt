// How the members of view 0 begin.
ghost use Rattle.std.specs.Prelude.{ℕ, ◌+◌, List, []};
ghost use Rattle.statement.specs.declared.member.Member.{Member};
ghost use Rattle.port.specs.Heard.{Heard};
ghost use Rattle.port.specs.Link.{Bank};
ghost use Rattle.port.specs.Table.{Uninitialized, Initialized, Active};
ghost use Rattle.view_ledger.specs.Views.{next_block};
ghost use Rattle.calm.specs.Members.{Signs, IsAt, IsAble};
ghost use Rattle.calm.specs.Beginning.{first_view, first_call, second_call, IsInState, WasCalled, HasBegun};

/// A member of view 0 that wasn't initialized does what the two calls ask by which the view begins, where its link loses
/// nothing, and is active then with an empty map. Each call takes a stamp and no signature.
pub fn first_members_begin()
    ensures initialized { (signs : Signs) (bank after : Bank) (config : List Member) (place : ℕ) (member : Member) (stamps signatures : ℕ) (heard : Heard)
        → IsAt config place member → IsInState bank Uninitialized (stamps + 1) signatures member → WasCalled signs bank member (first_call config) heard after
        → HasBegun bank (Initialized (first_view config)) stamps signatures member heard after }
    ensures activated { (signs : Signs) (bank after : Bank) (config : List Member) (member : Member) (stamps signatures : ℕ) (heard : Heard)
        → IsInState bank (Initialized (first_view config)) (stamps + 1) signatures member → WasCalled signs bank member (second_call config) heard after
        → HasBegun bank (Active (first_view config)) stamps signatures member heard after }
    ensures able { (bank : Bank) (config : List Member) (member : Member) (left : ℕ) → IsInState bank (Active (first_view config)) left left member
        → IsAble bank (next_block [] config) config [] left member }
{}
