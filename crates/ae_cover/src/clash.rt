//! The first clash.
ghost use Rattle.std.specs.Prelude.{◌≡◌, ℕ, ◌+◌, ◌<◌, ◌≤◌, ◌^◌, ◌==◌, length, slice_index, All, true};
ghost use Rattle.ae_base.specs.Mask as set;
ghost use Rattle.ae_cover.specs.FirstClash as spec;
ghost use Rattle.ae_cover.specs.LeastClash.{IsLeastIn, InBlock, InRow, is_mark, marked, ones_at, of_pair, is_before, lesser};

use crate::cover::{Cover, PLA_ROWS};
use crate::parts::{Clash, Kind, Mark, Row};
use ae_base::{Cube, Mask, WIDTH};

/// So many rows for ON are compared with each row for OFF at a time: the marks of a row are read once for so many pairs.
const BLOCK: usize = 256;

fn is_mark(wanted: Mark, mark: Mark) -> bool
    ensures { result ≡ is_mark wanted mark }
{
    mark == wanted
}

/// The outputs below `limit` at which the row has this mark.
fn outputs_with(mark: Mark, limit: u32, row: &Row) -> Mask
    requires marks { limit ≤ length row.now.outs }
    requires few { limit ≤ WIDTH }
    ensures { result ≡ marked (is_mark mark) limit row.now }
{
    let mut found = Mask::empty();
    for output in 0..limit {
        if is_mark(mark, *row.outs.at(output as usize)) {
            found = found.with(output);
        }
    }
    found
}

/// The least clash of a row with `One` at the outputs `ones`, and a row with `Zero` at the outputs `zeros`.
fn of_pair(ones: Mask, zeros: Mask, on: Cube, off: Cube, on_row: u32, off_row: u32) -> Option<Clash>
    ensures { result ≡ of_pair ones zeros on off on_row off_row }
{
    match ones.both(zeros).least() {
        None => None,
        Some(output) => {
            if on.meets(off) {
                Some(Clash {
                    output,
                    on_row,
                    off_row,
                })
            } else {
                None
            }
        }
    }
}

fn is_before(c: Clash, d: Clash) -> bool
    ensures { result ≡ is_before c d }
{
    c.output < d.output
        || (c.output == d.output
            && (c.on_row < d.on_row || (c.on_row == d.on_row && c.off_row < d.off_row)))
}

/// The one that is before the other, where there are two.
fn lesser(best: Option<Clash>, found: Option<Clash>) -> Option<Clash>
    ensures { result ≡ lesser best found }
{
    match (best, found) {
        (None, _) => found,
        (Some(_), None) => best,
        (Some(c), Some(d)) => { if is_before(d, c) { found } else { best } }
    }
}

/// The members of all the sets.
fn union(sets: &[Mask]) -> Mask
    ensures { (k o : ℕ) → k < length sets.now → set.has (slice_index sets.now k) o ≡ true → set.has result o ≡ true }
{
    let mut all = Mask::empty();
    for s in sets {
        all = all.or(*s);
    }
    all
}

/// The least clash of the row for OFF at `off_row` and the rows for ON of a block, which have `One` at these outputs, and at no others than
/// those in `any`.
fn of_row(
    rows: &[Row],
    start: usize,
    limit: u32,
    ones: &[Mask],
    any: Mask,
    off_row: usize,
) -> Option<Clash>
    requires few { length rows.now ≤ PLA_ROWS }
    requires block { start + length ones.now ≤ length rows.now }
    requires off { off_row < length rows.now }
    requires marks { All (λ row. limit ≤ length row.outs) rows.now }
    requires width { limit ≤ WIDTH }
    requires ones { (k : ℕ) → k < length ones.now → slice_index ones.now k ≡ ones_at rows.now limit (start + k) }
    requires any { (k o : ℕ) → k < length ones.now → set.has (slice_index ones.now k) o ≡ true → set.has any o ≡ true }
    ensures { IsLeastIn rows.now (InRow start (start + length ones.now) limit off_row) result }
{
    let off = &rows[off_row];
    let zeros = outputs_with(Mark::Zero, limit, off);
    if any.both(zeros).is_empty() {
        return None;
    }
    let mut best = None;
    for (k, outputs) in ones.iter().enumerate() {
        let on_row = start + k;
        let found = of_pair(
            *outputs,
            zeros,
            rows[on_row].cube,
            off.cube,
            on_row as u32,
            off_row as u32,
        );
        best = lesser(best, found);
    }
    best
}

/// Writes for each row of a block at which outputs it has `One`.
fn keep_ones(rows: &[Row], start: usize, limit: u32, kept: &mut [Mask])
    requires block { start + length kept.old ≤ length rows.now }
    requires marks { All (λ row. limit ≤ length row.outs) rows.now }
    requires width { limit ≤ WIDTH }
    ensures { (k : ℕ) → k < length kept.new → slice_index kept.new k ≡ ones_at rows.now limit (start + k) }
{
    for (k, outputs) in kept.iter_mut().enumerate() {
        *outputs = outputs_with(Mark::One, limit, &rows[start + k]);
    }
}

/// The least clash of the rows for ON of a block. There are as many of them as masks in `kept`, which are written over.
fn of_block(rows: &[Row], start: usize, limit: u32, kept: &mut [Mask]) -> Option<Clash>
    requires few { length rows.now ≤ PLA_ROWS }
    requires block { start + length kept.old ≤ length rows.now }
    requires marks { All (λ row. limit ≤ length row.outs) rows.now }
    requires width { limit ≤ WIDTH }
    ensures { IsLeastIn rows.now (InBlock start (start + length kept.old) limit) result }
{
    keep_ones(rows, start, limit, kept);
    let any = union(kept);
    let mut best = None;
    for off_row in 0..rows.len() {
        best = lesser(best, of_row(rows, start, limit, kept, any, off_row));
    }
    best
}

/// The least clash, found block after block. Once there is one, later rows for ON matter only at outputs below it.
fn least_clash(outputs: u32, rows: &[Row]) -> Option<Clash>
    requires marks { All (λ row. length row.outs ≡ outputs) rows.now }
    requires few { length rows.now ≤ PLA_ROWS }
    requires width { outputs ≤ WIDTH }
    ensures { result ≡ spec.least_clash outputs rows.now }
{
    let mut kept = [Mask::empty(); BLOCK];
    let mut best = None;
    let mut limit = outputs;
    let mut start = 0;
    while start < rows.len() && limit > 0 {
        let count = BLOCK.min(rows.len() - start);
        let found = of_block(rows, start, limit, &mut kept[..count]);
        if let Some(clash) = found {
            best = found;
            limit = clash.output;
        }
        start += count;
    }
    best
}

impl Cover {
    /// The least clash, by output, then by the row with `One`, then by the row with `Zero`.
    #[tactic(auto, unfolding(crate::specs::FirstClash::first_clash))]
    pub fn first_clash(&self) -> Option<Clash>
        ensures { result ≡ spec.first_clash self.now }
    {
        match self.kind {
            Kind::F | Kind::Fd => None,
            Kind::Fr | Kind::Fdr => least_clash(self.outputs.len() as u32, self.rows.as_slice()),
        }
    }
}
