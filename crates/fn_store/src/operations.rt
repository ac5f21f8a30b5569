//! Lists of operations on functions, carried out in a store.
ghost use Rattle.std.specs.Prelude.{◌≡◌, ◌+◌, ◌<◌, length, List, map, IfOk};
ghost use Rattle.fn_store.specs.declared.operations.Op.{Op};
ghost use Rattle.fn_store.specs.declared.store.FnRef.{FnRef};
ghost use Rattle.fn_store.specs.Functions.{Functions, Shows, Keeps};
ghost use Rattle.fn_store.specs.Replay.{AreOps, AreResults, AllShown, IsOp, function_at, result_of};

use crate::store::{FnRef, FnStore};
use ae_base::Memory;
use std::alloc::Global;

/// An operation in a list of operations. An operand is a place: 0 is the constant 0, 1 is the constant 1, and k + 2 is the result of
/// operation k of the list, counted from 0 on.
#[derive(Clone, Copy, Debug, PartialEq, Eq)]
pub enum Op {
    /// The literal of an input.
    Literal(u32),
    /// The EXOR of two operands.
    Xor(u32, u32),
    /// The AND of two operands.
    And(u32, u32),
    /// The complement of an operand.
    Not(u32),
}

/// One reference for each operation of the list, in order: it shows the operation on the functions at its operands. Each literal is of an
/// input of the store, and each operand is the place of something earlier. Where memory runs out, `Memory`; the store has kept its
/// functions then too.
pub fn replay<S: FnStore>(alloc: Global, store: &mut S, list: &[Op]) -> Result<Vec<FnRef>, Memory>
    requires { AreOps (S.functions store.old).polarity.n list.now }
    ensures results { IfOk result (λ refs. AreResults (S.functions store.new) list.now refs.items) }
    ensures keeps { Keeps (S.functions store.old) (S.functions store.new) }
{
    let mut refs = Vec::new(alloc);
    for op in list {
        let r = apply(store, &refs, *op)?;
        refs.push(r)?;
    }
    Ok(refs)
}

/// The operation on the functions at its operands.
fn apply<S: FnStore>(store: &mut S, refs: &[FnRef], op: Op) -> Result<FnRef, Memory>
    requires shown { AllShown (S.functions store.old) refs.now }
    requires op { IsOp (S.functions store.old).polarity.n (length refs.now + 2) op }
    ensures shows { IfOk result (λ r. Shows (S.functions store.new) r (result_of (S.functions store.old).polarity (function_at (S.functions store.old) refs.now) op)) }
    ensures keeps { Keeps (S.functions store.old) (S.functions store.new) }
{
    match op {
        Op::Literal(j) => store.literal(j),
        Op::Xor(a, b) => {
            let left = operand(store, refs, a);
            let right = operand(store, refs, b);
            store.xor(left, right)
        }
        Op::And(a, b) => {
            let left = operand(store, refs, a);
            let right = operand(store, refs, b);
            store.and(left, right)
        }
        Op::Not(a) => {
            let negated = operand(store, refs, a);
            store.not(negated)
        }
    }
}

/// The reference at a place.
fn operand<S: FnStore>(store: &S, refs: &[FnRef], place: u32) -> FnRef
    requires shown { AllShown (S.functions store.now) refs.now }
    requires earlier { place < length refs.now + 2 }
    ensures { Shows (S.functions store.now) result (function_at (S.functions store.now) refs.now place) }
{
    if place == 0 {
        return store.zero();
    }
    if place == 1 {
        return store.one();
    }
    refs[place as usize - 2]
}

/// All stores of one polarity give the same expansions for a list of operations.
pub fn replay_law()
    ensures { (s t : Functions) (ops : List Op) (refs others : List FnRef) → s.polarity ≡ t.polarity → AreOps s.polarity.n ops → AreResults s ops refs → AreResults t ops others
        → map (λ r. s.terms r.at) refs ≡ map (λ r. t.terms r.at) others }
{}
