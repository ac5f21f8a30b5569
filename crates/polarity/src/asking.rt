//! The asking of advisors, and the choice among what they propose.
ghost use Rattle.std.specs.Prelude.{◌≡◌, ◌≤◌, IfOk, OnOk, length, map, if◌then◌else◌, nat_lt};
ghost use Rattle.std.specs.List.{AllZip};
ghost use Rattle.ae_base.specs.declared.limits.TheConstants.{SOURCE_LINES};
ghost use Rattle.expansion.specs.Kept.{KeepsFunctions};
ghost use Rattle.expansion.specs.Terms.{cost};
ghost use Rattle.polarity.specs.Advisors.{told_of};
ghost use Rattle.polarity.specs.Asking.{AreAsked, AreAskedInOrder, IsCandidate, IsBeingAsked, cheaper_at};
ghost use Rattle.polarity.specs.Search.{IsAsked, IsChosen, Stands, advised, told_at};
ghost use Rattle.polarity.specs.Makers.{OfEachSource};

use crate::advisor::Advisor;
use crate::laws::cost_law;
use crate::maker::Maker;
use crate::settled::settle;
use ae_base::{Memory, Polarity};
use expansion::{ExpandErr, Expansion, pairs};
use std::alloc::Global;

/// The cheaper of two expansions, the first where both cost the same.
fn cheaper(first: Expansion, second: Expansion) -> Expansion
    ensures { result ≡ (if nat_lt (cost second) (cost first) then second else first) }
{
    if pairs(&second) < pairs(&first) {
        second
    } else {
        first
    }
}

/// Expands at a proposal. What is to be told of its cost, and the cheaper one of the best before it and it.
fn compare<M: Maker>(
    alloc: Global,
    maker: &M,
    best: Expansion,
    proposal: Polarity,
) -> Result<(Option<u64>, Expansion), Memory>
    requires inputs { proposal.n ≡ (M.base maker.now).polarity.n }
    requires best { IsCandidate (M.base maker.now) (M.limit maker.now) best }
    ensures best { IfOk result (λ r. IsCandidate (M.base maker.now) (M.limit maker.now) r.1) }
    ensures told { IfOk result (λ r. OfEachSource (M.base maker.now) (λ s. told_of r.0 ≡ told_at s (M.limit maker.now) proposal)) }
    ensures cheaper { IfOk result (λ r. OfEachSource (M.base maker.now) (λ s. r.1.polarity ≡ cheaper_at s (M.limit maker.now) best.polarity proposal)) }
{
    cost_law();
    match maker.at(alloc, proposal) {
        Ok(expansion) => Ok((Some(pairs(&expansion)), cheaper(best, expansion))),
        Err(ExpandErr::TooManyTerms { .. }) => Ok((None, best)),
        Err(ExpandErr::Memory) => Err(Memory),
    }
}

/// Asks an advisor until nothing is left, telling it each cost. The first cheapest one of the start and its proposals.
fn ask_one<A: Advisor, M: Maker>(
    alloc: Global,
    advisor: &mut A,
    maker: &M,
    start: Expansion,
) -> Result<Expansion, Memory>
    requires inputs { start.polarity.n ≤ SOURCE_LINES }
    requires best { IsCandidate (M.base maker.now) (M.limit maker.now) start }
    ensures left { OnOk result (A.left advisor.new ≡ 0) }
    ensures best { IfOk result (IsCandidate (M.base maker.now) (M.limit maker.now)) }
    ensures asked { IfOk result (λ e. OfEachSource (M.base maker.now) (λ s.
        IsBeingAsked s (M.limit maker.now) start.polarity (A.log advisor.old) (A.log advisor.new) e.polarity)) }
    ensures stands { Stands (advised (A.left advisor.old) (A.log advisor.old)) (advised (A.left advisor.new) (A.log advisor.new)) }
{
    let n = start.inputs();
    let mut best = start;
    'asking: while let Some(proposal) = advisor.next(n)? {
        let (cost, cheapest) = compare(alloc, maker, best, proposal)?;
        advisor.tell(cost);
        best = cheapest;
    }
    Ok(best)
}

/// Asks the advisors in order, each until nothing is left. The first cheapest one of the start and their proposals.
fn ask_each<A: Advisor, M: Maker>(
    alloc: Global,
    advisors: &mut [A],
    maker: &M,
    start: Expansion,
) -> Result<Expansion, Memory>
    requires inputs { start.polarity.n ≤ SOURCE_LINES }
    requires best { IsCandidate (M.base maker.now) (M.limit maker.now) start }
    ensures best { IfOk result (IsCandidate (M.base maker.now) (M.limit maker.now)) }
    ensures asked { IfOk result (λ e. OfEachSource (M.base maker.now) (λ s.
        AreAsked s (M.limit maker.now) start.polarity (map (λ a. advised (A.left a) (A.log a)) advisors.old) (map (λ a. advised (A.left a) (A.log a)) advisors.new)
        e.polarity)) }
    ensures ordered { OfEachSource (M.base maker.now) (λ s.
        AreAskedInOrder s (M.limit maker.now) (map (λ a. advised (A.left a) (A.log a)) advisors.old) (map (λ a. advised (A.left a) (A.log a)) advisors.new)) }
    ensures stands { AllZip Stands (map (λ a. advised (A.left a) (A.log a)) advisors.old) (map (λ a. advised (A.left a) (A.log a)) advisors.new) }
{
    let mut best = start;
    'each: for advisor in advisors.iter_mut() {
        best = ask_one(alloc, advisor, maker, best)?;
    }
    Ok(best)
}

/// Asks the boxes in order, each until nothing is left. The first cheapest one of the start and their proposals.
fn ask_all<M: Maker>(
    alloc: Global,
    advisors: &mut Vec<Box<dyn Advisor>>,
    maker: &M,
    start: Expansion,
) -> Result<Expansion, Memory>
    requires inputs { start.polarity.n ≤ SOURCE_LINES }
    requires best { IsCandidate (M.base maker.now) (M.limit maker.now) start }
    ensures best { IfOk result (IsCandidate (M.base maker.now) (M.limit maker.now)) }
    ensures asked { IfOk result (λ e. OfEachSource (M.base maker.now) (λ s.
        AreAsked s (M.limit maker.now) start.polarity (map (λ b. advised (left b) (log b)) advisors.old.items) (map (λ b. advised (left b) (log b)) advisors.new.items)
        e.polarity)) }
    ensures ordered { OfEachSource (M.base maker.now) (λ s.
        AreAskedInOrder s (M.limit maker.now) (map (λ b. advised (left b) (log b)) advisors.old.items) (map (λ b. advised (left b) (log b)) advisors.new.items)) }
    ensures stands { AllZip Stands (map (λ b. advised (left b) (log b)) advisors.old.items) (map (λ b. advised (left b) (log b)) advisors.new.items) }
    ensures kept { length advisors.new.items ≡ length advisors.old.items }
{
    ask_each(alloc, advisors.as_mut_slice(), maker, start)
}

/// Searches for a polarity of few terms, from the maker's base. The advisors are asked in order, each until nothing is left, and told
/// the cost of each proposal, or that it passes the limit. The first one of least cost among the start and then the proposals within the
/// limit is settled (`settle`), and the answer is the expansion of the same functions there. Where memory runs out, `Memory`: each log
/// begins with the old one still, and no more is left than before.
pub fn choose<M: Maker>(
    alloc: Global,
    advisors: &mut Vec<Box<dyn Advisor>>,
    start: Expansion,
    maker: &M,
) -> Result<Expansion, Memory>
    requires base { start ≡ M.base maker.now }
    requires within { cost start ≤ M.limit maker.now }
    requires inputs { start.polarity.n ≤ SOURCE_LINES }
    ensures functions { IfOk result (KeepsFunctions start) }
    ensures within { IfOk result (λ e. cost e ≤ M.limit maker.now) }
    ensures asked { OnOk result (OfEachSource start (λ s.
        AllZip (IsAsked s (M.limit maker.now)) (map (λ b. advised (left b) (log b)) advisors.old.items) (map (λ b. advised (left b) (log b)) advisors.new.items))) }
    ensures ordered { OfEachSource start (λ s.
        AreAskedInOrder s (M.limit maker.now) (map (λ b. advised (left b) (log b)) advisors.old.items) (map (λ b. advised (left b) (log b)) advisors.new.items)) }
    ensures chosen { IfOk result (λ e. OfEachSource start (λ s.
        IsChosen s start.polarity (map (λ b. advised (left b) (log b)) advisors.old.items) (map (λ b. advised (left b) (log b)) advisors.new.items) e.polarity)) }
    ensures stands { AllZip Stands (map (λ b. advised (left b) (log b)) advisors.old.items) (map (λ b. advised (left b) (log b)) advisors.new.items) }
    ensures kept { length advisors.new.items ≡ length advisors.old.items }
{
    cost_law();
    let cheapest = ask_all(alloc, advisors, maker, start)?;
    let settled = settle(alloc, cheapest)?;
    Ok(settled)
}
