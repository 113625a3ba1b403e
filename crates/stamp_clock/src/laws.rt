ghost use Rattle.std.specs.Prelude.{◌≡◌, ℕ, ◌+◌, ◌^◌, ◌<◌, ◌≤◌, List, ◌++◌};
ghost use Rattle.std.specs.List.{All, flat_map};
ghost use Rattle.stamp_clock.specs.declared.steps.Known.{Known};
ghost use Rattle.stamp_clock.specs.Rule.{IsKept, total};
ghost use Rattle.stamp_clock.specs.Stamps.{EachOnce, NoneTwice, times};

use crate::clock::Clock;
use crate::clock_name::ClockName;
use crate::clock_start::ClockStart;
use crate::pass::Pass;

/// What the rule says of all passes of a clock, at any time: no number stands twice in their lists, and each
/// is below the word.
pub fn passes_share_no_number()
    ensures each_once { (word : ℕ) (passes : List Known) → IsKept word passes
        → EachOnce (flat_map (λ pass. pass.drawn) passes) word }
    ensures none_twice { (word : ℕ) (passes : List Known) → IsKept word passes
        → NoneTwice (flat_map (λ pass. pass.drawn) passes) }
    ensures below { (word : ℕ) (passes : List Known) → IsKept word passes
        → All (λ pass. All (λ number. number < word) pass.drawn) passes }
    ensures bound { (word : ℕ) (passes : List Known) → IsKept word passes
        → word + total (λ pass. pass.left) passes ≤ 2 ^ 63 }
{}

/// How often a number stands in lists, for those who bring the lists of several passes together.
pub fn counts_add_up()
    ensures append { (number : ℕ) (one other : List ℕ)
        → times number (one ++ other) ≡ times number one + times number other }
    ensures none_twice { (numbers : List ℕ) (count : ℕ) → EachOnce numbers count → NoneTwice numbers }
    ensures below { (numbers : List ℕ) (count : ℕ) → EachOnce numbers count
        → All (λ number. number < count) numbers }
{}

/// Threads may share a clock, and a start or a pass may go from one to another. Nothing is done: that this
/// function is proved is what shows it.
pub fn crosses_threads<K: ClockName + Send + Sync>(
    start: &ClockStart,
    clock: &Clock<K>,
    pass: &Pass<K>,
) {
    is_sent(start);
    is_sent(clock);
    is_sent(pass);
    is_shared(clock);
}

fn is_sent<T: Send>(_: &T) {}

fn is_shared<T: Sync>(_: &T) {}
