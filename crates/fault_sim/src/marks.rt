//! Sets of gates or signals, in words of 64, whose members are taken in increasing order.
ghost use Rattle.std.specs.Prelude.{◌≡◌, ◌==◌, ◌<◌, ◌≤◌, ◌/◌, ◌^◌, ℕ, false, true, ◌||◌, All, length, slice_index};
ghost use Rattle.std.specs.Option.{MatchOption};
ghost use Rattle.fault_sim.specs.Marks.{IsAmong, IsFirstTaken, IsUnmarked, is_marked};

/// Marks a number.
pub fn mark(marks: &mut [u64], i: usize)
    requires { i / 64 < length marks.old }
    ensures marked { (j : ℕ) → is_marked marks.new j ≡ ((j == i) || is_marked marks.old j) }
    ensures len { length marks.new ≡ length marks.old }
{
    marks[i / 64] |= 1 << (i % 64);
}

/// Marks all numbers of a list.
pub fn mark_all(list: &[u32], marks: &mut [u64])
    requires room { All (λ i. i / 64 < length marks.old) list.now }
    ensures each { (k : ℕ) → k < length list.now → is_marked marks.new (slice_index list.now k) ≡ true }
    ensures kept { (j : ℕ) → is_marked marks.old j ≡ true → is_marked marks.new j ≡ true }
    ensures only { (j : ℕ) → is_marked marks.new j ≡ true → is_marked marks.old j ≡ false → IsAmong list.now j }
    ensures len { length marks.new ≡ length marks.old }
{
    for i in list {
        mark(marks, *i as usize);
    }
}

/// The first word from place `from` on that has a mark, or the number of words.
fn first_some(marks: &[u64], from: usize) -> usize
    ensures some { result < length marks.now → 0 < slice_index marks.now result }
    ensures none { (w : ℕ) → from ≤ w → w < result → slice_index marks.now w ≡ 0 }
    ensures within { length marks.now ≤ result → result ≡ length marks.now }
{
    for w in from..marks.len() {
        if marks[w] != 0 {
            return w;
        }
    }
    marks.len()
}

/// Takes the first mark away, where none stands before `from`.
pub fn take_first(marks: &mut [u64], from: usize) -> Option<usize>
    requires from { (j : ℕ) → j < from → is_marked marks.old j ≡ false }
    requires short { length marks.old < 2 ^ 32 }
    ensures taken { MatchOption result (IsUnmarked marks.old) (IsFirstTaken marks.old marks.new) }
    ensures none { MatchOption result (marks.new ≡ marks.old) (λ i. i / 64 < length marks.old) }
    ensures len { length marks.new ≡ length marks.old }
{
    let w = first_some(marks, from / 64);
    if w < marks.len() {
        let lane = marks[w].trailing_zeros() as usize;
        marks[w] &= !(1 << lane);
        Some(64 * w + lane)
    } else {
        None
    }
}
