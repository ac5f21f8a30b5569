//! The order of placing.
ghost use Rattle.std.specs.Prelude.{◌≡◌, ℕ, ◌≤◌, ◌<◌, ◌^◌, ◌+◌, ◌==◌, ◌||◌, ◌&&◌, List, length, map, All, slice_index, slice_index_or, [], nat_lt, if◌then◌else◌, IfOk, OnOk};
ghost use Rattle.blif_order.specs.Kept as kept;
ghost use Rattle.blif_order.specs.Order as order;

use ae_base::{Memory, Seq};
use std::alloc::Global;
use std::collections::BTreeSet;

/// Lists as many empty lists as `n`.
fn empty_lists(alloc: Global, n: usize) -> Result<Vec<Seq<u32>>, Memory>
    ensures len { IfOk result (λ lists. length lists.items ≡ n) }
    ensures empty { IfOk result (λ lists. (d i : ℕ) → kept.count i (slice_index_or lists.items d []) ≡ 0) }
{
    let mut lists = Vec::new(alloc);
    for _ in 0..n {
        lists.push(Seq::new(alloc))?;
    }
    Ok(lists)
}

/// Puts `user` to each of the list.
fn push_user(users: &mut Vec<Seq<u32>>, user: u32, list: &[u32]) -> Result<(), Memory>
    requires { All (λ d. d < length users.old.items) list.now }
    ensures len { length users.new.items ≡ length users.old.items }
    ensures counts { OnOk result ((d i : ℕ) → kept.count i (slice_index_or users.new.items d []) ≡ kept.count i (slice_index_or users.old.items d []) + (if user == i then kept.count d list.now else 0)) }
{
    for d in list {
        users[*d as usize].push(user)?;
    }
    Ok(())
}

/// Counts one less for each of the list, and makes those ready for which none is missing now.
fn release(list: &[u32], missing: &mut [u32], ready: &mut BTreeSet<u32>) -> Result<(), Memory>
    requires within { All (λ i. i < length missing.old) list.now }
    requires enough { (i : ℕ) → kept.count i list.now ≤ slice_index missing.old i }
    ensures len { length missing.new ≡ length missing.old }
    ensures missing { OnOk result ((i : ℕ) → slice_index missing.new i + kept.count i list.now ≡ slice_index missing.old i) }
    ensures ready { OnOk result ((i : ℕ) → kept.has ready.new i ≡ (kept.has ready.old i || (nat_lt 0 (kept.count i list.now) && (slice_index missing.new i == 0)))) }
{
    for i in list {
        let left = missing[*i as usize] - 1;
        missing[*i as usize] = left;
        if left == 0 {
            ready.insert(*i)?;
        }
    }
    Ok(())
}

/// For each of a list of lists the users of its place: each as often as it waits for it.
fn users_of(alloc: Global, needs: &[Seq<u32>]) -> Result<Vec<Seq<u32>>, Memory>
    requires short { length needs.now < 2 ^ 32 }
    requires within { All (λ need. All (λ d. d < length needs.now) need) needs.now }
    ensures len { IfOk result (λ users. length users.items ≡ length needs.now) }
    ensures users { IfOk result (λ users. kept.AreUsers needs.now users.items) }
{
    let mut users = empty_lists(alloc, needs.len())?;
    for i in 0..needs.len() {
        push_user(&mut users, i as u32, needs[i].as_slice())?;
    }
    Ok(users)
}

/// The numbers of those that each waits for.
fn lengths_of(alloc: Global, needs: &[Seq<u32>]) -> Result<Vec<u32>, Memory>
    requires { All (λ need. length need < 2 ^ 32) needs.now }
    ensures { IfOk result (λ lengths. lengths.items ≡ map length needs.now) }
{
    let mut lengths = Vec::new(alloc);
    for need in needs {
        lengths.push(need.len() as u32)?;
    }
    Ok(lengths)
}

/// The places of the numbers that are 0.
fn zeros_of(alloc: Global, lengths: &[u32]) -> Result<BTreeSet<u32>, Memory>
    requires { length lengths.now < 2 ^ 32 }
    ensures { IfOk result (λ ready. (i : ℕ) → kept.has ready i ≡ (nat_lt i (length lengths.now) && (slice_index lengths.now i == 0))) }
{
    let mut ready = BTreeSet::new(alloc);
    for (i, n) in lengths.iter().enumerate() {
        if *n == 0 {
            ready.insert(i as u32)?;
        }
    }
    Ok(ready)
}

/// Places the first that can go, as long as there is one.
fn place_all(
    needs: &[Seq<u32>],
    users: &[Seq<u32>],
    missing: &mut [u32],
    ready: &mut BTreeSet<u32>,
    placed: &mut Vec<u32>,
) -> Result<(), Memory>
    requires users_len { length users.now ≡ length needs.now }
    requires users { kept.AreUsers needs.now users.now }
    requires missing_len { length missing.old ≡ length needs.now }
    requires state { kept.IsState needs.now placed.old.items missing.old ready.old }
    ensures { OnOk result (placed.new.items ≡ order.place needs.now (length needs.now) placed.old.items) }
{
    for _ in 0..needs.len() {
        match ready.pop_first() {
            None => return Ok(()),
            Some(i) => {
                placed.push(i)?;
                release(users[i as usize].as_slice(), missing, ready)?;
            }
        }
    }
    Ok(())
}

/// The order of placing: each time the first that can be placed, as long as there is one.
pub fn order_of(alloc: Global, needs: &[Seq<u32>]) -> Result<Vec<u32>, Memory>
    requires short { length needs.now < 2 ^ 32 }
    requires lists_short { All (λ need. length need < 2 ^ 32) needs.now }
    requires within { All (λ need. All (λ d. d < length needs.now) need) needs.now }
    ensures { IfOk result (λ placed. placed.items ≡ order.order_of needs.now) }
{
    let users = users_of(alloc, needs)?;
    let mut missing = lengths_of(alloc, needs)?;
    let mut ready = zeros_of(alloc, missing.as_slice())?;
    let mut placed = Vec::new(alloc);
    place_all(
        needs,
        users.as_slice(),
        missing.as_mut_slice(),
        &mut ready,
        &mut placed,
    )?;
    Ok(placed)
}
