//! What holds of all numbers at once: a channel is of one port and in its range, a group of one set
//! and in its range.
ghost use Rattle.std.specs.Prelude.{◌≡◌, ℕ, ◌<◌, ◌≤◌, true, List, Option, Some};
ghost use Rattle.exb_numbers.specs.Channels.{holder, is_used, channel_of};
ghost use Rattle.exb_numbers.specs.Groups.{Groups, set_of, is_used as group_used, group_of};

/// A channel is 1 to 4094, of the port that has it, and no two ports have one.
pub fn channels_are_apart()
    ensures range { (v : List (Option ℕ)) (p c : ℕ) → channel_of v p ≡ Some c
        → (1 ≤ c) × (c ≤ 4094) }
    ensures holder { (v : List (Option ℕ)) (p c : ℕ) → channel_of v p ≡ Some c
        → holder v c ≡ Some p }
    ensures used { (v : List (Option ℕ)) (p c : ℕ) → channel_of v p ≡ Some c → is_used v c ≡ true }
    ensures one { (v : List (Option ℕ)) (p q c : ℕ) → channel_of v p ≡ Some c
        → channel_of v q ≡ Some c → p ≡ q }
{}

/// A group is 4096 to 16383, and of the set that has it.
pub fn groups_are_apart()
    ensures range { (v : Groups) (set : List ℕ) (g : ℕ) → group_of v set ≡ Some g
        → (4096 ≤ g) × (g < 16384) }
    ensures set { (v : Groups) (set : List ℕ) (g : ℕ) → group_of v set ≡ Some g → set_of v g ≡ set }
    ensures used { (v : Groups) (set : List ℕ) (g : ℕ) → group_of v set ≡ Some g
        → group_used v g ≡ true }
{}
