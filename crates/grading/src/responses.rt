//! The points of vectors, and their responses that are wrong.
ghost use Rattle.std.specs.Prelude.{◌≡◌, IfOk, map};
ghost use Rattle.grading.specs.Counts as spec;

use ae_base::{Memory, Point};
use ae_net::Net;
use fault_sim::responses;
use std::alloc::Global;
use vec_text::Vector;

/// The points of vectors.
pub fn points_of(alloc: Global, vectors: &[Vector]) -> Result<Vec<Point>, Memory>
    ensures { IfOk result (λ points. points.items ≡ map (λ v. v.point) vectors.now) }
{
    let mut points = Vec::new(alloc);
    for vector in vectors {
        points.push(vector.point)?;
    }
    Ok(points)
}

/// The number of vectors, at these points, whose response is not the network's.
#[tactic(auto, unfolding(crate::specs::Counts::wrong_count))]
pub fn wrong_count(
    alloc: Global,
    net: &Net,
    vectors: &[Vector],
    points: &[Point],
) -> Result<u64, Memory>
    requires { points.now ≡ map (λ v. v.point) vectors.now }
    ensures { IfOk result (λ wrong. wrong ≡ spec.wrong_count net.now vectors.now) }
{
    let good = responses(alloc, net, points)?;
    let mut wrong = 0;
    for i in 0..vectors.len() {
        if vectors[i].outs != good[i] {
            wrong += 1;
        }
    }
    Ok(wrong)
}
