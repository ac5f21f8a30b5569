//! The rewriting steps of a list of cubes.
ghost use Rattle.std.specs.Prelude.{◌≡◌, IfOk, OnOk};
ghost use Rattle.std.specs.List.{prefix_len};
ghost use Rattle.std.specs.Ordering.{is_lt};
ghost use Rattle.ae_base.specs.Text.{cmp_text};
ghost use Rattle.esop.specs.Order.{placed};
ghost use Rattle.esop.specs.Rewriting as rewriting;
ghost use Rattle.esop.specs.Search.{IsOrdered, IsTaken};

use crate::links::useful_link;
use crate::near::merge;
use crate::pairs::{Sought, first_equal, first_pair};
use ae_base::{Cube, Memory};

/// Takes the first step that applies in place, and says whether one did. Where memory runs out, `Memory`, and the list may have lost
/// cubes.
pub fn take_step(cubes: &mut Vec<Cube>) -> Result<bool, Memory>
    requires { IsOrdered cubes.old.items }
    ensures { IfOk result (IsTaken (rewriting.next_list cubes.old.items) cubes.old.items cubes.new.items) }
{
    if cancel(cubes) {
        return Ok(true);
    }
    if merge_first(cubes)? {
        return Ok(true);
    }
    link_first(cubes)
}

/// The first pair of equal cubes goes, where there is such a pair.
fn cancel(cubes: &mut Vec<Cube>) -> bool
    requires { IsOrdered cubes.old.items }
    ensures { IsTaken (rewriting.cancelled cubes.old.items) cubes.old.items cubes.new.items result }
{
    match first_equal(cubes.as_slice()) {
        None => false,
        Some((first, second)) => {
            cubes.remove(second);
            cubes.remove(first);
            true
        }
    }
}

/// The first pair at distance 1 becomes one cube, where there is such a pair.
fn merge_first(cubes: &mut Vec<Cube>) -> Result<bool, Memory>
    ensures { IfOk result (IsTaken (rewriting.merged cubes.old.items) cubes.old.items cubes.new.items) }
{
    match first_pair(cubes.as_slice(), Sought::Adjacent) {
        None => Ok(false),
        Some((first, second)) => {
            let merged = merge(cubes[first], cubes[second]);
            cubes.remove(second);
            cubes.remove(first);
            place(cubes, merged)?;
            Ok(true)
        }
    }
}

/// The first pair with a useful link becomes that link, where there is such a pair.
fn link_first(cubes: &mut Vec<Cube>) -> Result<bool, Memory>
    ensures { IfOk result (IsTaken (rewriting.linked cubes.old.items) cubes.old.items cubes.new.items) }
{
    let Some((first, second)) = first_pair(cubes.as_slice(), Sought::Linked) else {
        return Ok(false);
    };
    let Some(link) = useful_link(cubes.as_slice(), first, second) else {
        unreachable!() // such pairs were sought
    };
    cubes.remove(second);
    cubes.remove(first);
    place(cubes, link.second)?;
    place(cubes, link.first)?;
    Ok(true)
}

/// Puts a cube after those that come before it in the order of the texts.
pub fn place(cubes: &mut Vec<Cube>, cube: Cube) -> Result<(), Memory>
    ensures { OnOk result (cubes.new.items ≡ placed cube cubes.old.items) }
{
    let at = place_of(cubes.as_slice(), cube);
    cubes.insert(at, cube)?;
    Ok(())
}

/// How many cubes at the front come before the cube in the order of the texts.
fn place_of(cubes: &[Cube], cube: Cube) -> usize
    ensures { result ≡ prefix_len (λ other. is_lt (cmp_text other cube)) cubes.now }
{
    for (k, other) in cubes.iter().enumerate() {
        if !other.cmp_text(cube).is_lt() {
            return k;
        }
    }
    cubes.len()
}
