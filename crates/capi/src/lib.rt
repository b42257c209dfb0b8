// The public calls on numbers and lent slices, which crate capi_c exports to C. A description is 18 whole numbers in document 01's order; a
// box of whole ticks is three lows and three highs; a box of doubles is the low and the high end of each axis; a triangle is three such
// boxes. Each call returns a status: 0 where its values stand at the front of `out`, the documents' number where it refuses, 100 where
// nothing is found, 101 where a slice has the wrong length. Nothing but those values is written. Each reads its lengths' answer by a `match`:
// what C calls returns a number, which no `?` can leave, and with `and_then` and a closure six of the sixteen did not prove.
#![tactic(auto)]

pub mod lengths; // what the lengths of the lent slices refuse, the piece of `derivatives` and the rule of a walk
pub mod reading; // what is read from a slice
pub mod writing; // what is left in one

ghost use Rattle.std.specs.Prelude.{◌≡◌, length};
ghost use Rattle.layers.specs.Layers.{layers_number, layers_report, Reported};
ghost use Rattle.capi.specs.Lent.{status, written};
ghost use Rattle.capi.specs.Exports as exports;

use crate::lengths::{lengths, piece_lent, walk_lent};
use crate::reading::{corners_at, describe, level_of, three_at, world_at};
use crate::writing::{answer, done};
use calls::calls::{
    affine_jet, affine_residual, box_state, curvature, derivatives, facet_residual, fast,
    fast_distance, graded, jet, level_piece, lipschitz, planes, residual, saturated,
};
use grade::range::grade_range;
use layers::calls::layers;
use walk::calls::walk;

// 1 or 0.
#[tactic(auto, unfolding(crate::specs::Exports::graded))]
pub fn gyroid_graded(description: &[i64], out: &mut [i64]) -> u32
    ensures answer { result ≡ status (exports.graded description.now (length out.old)) }
    ensures left { out.new ≡ written out.old (exports.graded description.now (length out.old)) }
{
    match lengths(description.len(), 0, 0, out.len(), 1) {
        Ok(()) => answer(graded(describe(description)), out),
        Err(fault) => fault.into(),
    }
}

// 1 or 0.
#[tactic(auto, unfolding(crate::specs::Exports::saturated))]
pub fn gyroid_saturated(description: &[i64], out: &mut [i64]) -> u32
    ensures answer { result ≡ status (exports.saturated description.now (length out.old)) }
    ensures left { out.new ≡ written out.old (exports.saturated description.now (length out.old)) }
{
    match lengths(description.len(), 0, 0, out.len(), 1) {
        Ok(()) => answer(saturated(describe(description)), out),
        Err(fault) => fault.into(),
    }
}

// The axis, then the positions of the anchors in ticks.
#[tactic(auto, unfolding(crate::specs::Exports::planes))]
pub fn gyroid_planes(description: &[i64], out: &mut [i64]) -> u32
    ensures answer { result ≡ status (exports.planes description.now (length out.old)) }
    ensures left { out.new ≡ written out.old (exports.planes description.now (length out.old)) }
{
    match lengths(description.len(), 0, 0, out.len(), 3) {
        Ok(()) => answer(planes(describe(description)), out),
        Err(fault) => fault.into(),
    }
}

#[tactic(auto, unfolding(crate::specs::Exports::curvature))]
pub fn gyroid_curvature(description: &[i64], out: &mut [f64]) -> u32
    ensures answer { result ≡ status (exports.curvature description.now (length out.old)) }
    ensures left { out.new ≡ written out.old (exports.curvature description.now (length out.old)) }
{
    match lengths(description.len(), 0, 0, out.len(), 2) {
        Ok(()) => answer(curvature(describe(description)), out),
        Err(fault) => fault.into(),
    }
}

#[tactic(auto, unfolding(crate::specs::Exports::lipschitz))]
pub fn gyroid_lipschitz(description: &[i64], out: &mut [f64]) -> u32
    ensures answer { result ≡ status (exports.lipschitz description.now (length out.old)) }
    ensures left { out.new ≡ written out.old (exports.lipschitz description.now (length out.old)) }
{
    match lengths(description.len(), 0, 0, out.len(), 2) {
        Ok(()) => answer(lipschitz(describe(description)), out),
        Err(fault) => fault.into(),
    }
}

// The lower numerator, the higher, and their denominator, in level counts.
#[tactic(auto, unfolding(crate::specs::Exports::grade_range))]
pub fn gyroid_grade_range(description: &[i64], bounds: &[i64], out: &mut [i64]) -> u32
    ensures answer { result ≡ status (exports.grade_range description.now bounds.now (length out.old)) }
    ensures left { out.new ≡ written out.old
        (exports.grade_range description.now bounds.now (length out.old)) }
{
    match lengths(description.len(), bounds.len(), 6, out.len(), 3) {
        Ok(()) => answer(
            grade_range(
                level_of(description),
                three_at(bounds, 0),
                three_at(bounds, 3),
            ),
            out,
        ),
        Err(fault) => fault.into(),
    }
}

// 0 Start, 1 Ramp, 2 End.
#[tactic(auto, unfolding(crate::specs::Exports::level_piece))]
pub fn gyroid_level_piece(description: &[i64], bounds: &[i64], out: &mut [i64]) -> u32
    ensures answer { result ≡ status (exports.level_piece description.now bounds.now (length out.old)) }
    ensures left { out.new ≡ written out.old
        (exports.level_piece description.now bounds.now (length out.old)) }
{
    match lengths(description.len(), bounds.len(), 6, out.len(), 1) {
        Ok(()) => answer(
            level_piece(
                describe(description),
                three_at(bounds, 0),
                three_at(bounds, 3),
            ),
            out,
        ),
        Err(fault) => fault.into(),
    }
}

// The value, then the gradient.
#[tactic(auto, unfolding(crate::specs::Exports::jet))]
pub fn gyroid_jet(description: &[i64], world: &[f64], out: &mut [f64]) -> u32
    ensures answer { result ≡ status (exports.jet description.now world.now (length out.old)) }
    ensures left { out.new ≡ written out.old
        (exports.jet description.now world.now (length out.old)) }
{
    match lengths(description.len(), world.len(), 6, out.len(), 8) {
        Ok(()) => answer(jet(describe(description), world_at(world, 0)), out),
        Err(fault) => fault.into(),
    }
}

#[tactic(auto, unfolding(crate::specs::Exports::affine_jet))]
pub fn gyroid_affine_jet(description: &[i64], world: &[f64], out: &mut [f64]) -> u32
    ensures answer { result ≡ status (exports.affine_jet description.now world.now (length out.old)) }
    ensures left { out.new ≡ written out.old
        (exports.affine_jet description.now world.now (length out.old)) }
{
    match lengths(description.len(), world.len(), 6, out.len(), 8) {
        Ok(()) => answer(affine_jet(describe(description), world_at(world, 0)), out),
        Err(fault) => fault.into(),
    }
}

// The gradient, then the Hessian row by row. A piece's number above 2 is refused 1.
#[tactic(auto, unfolding(crate::specs::Exports::derivatives))]
pub fn gyroid_derivatives(description: &[i64], world: &[f64], piece: u32, out: &mut [f64]) -> u32
    ensures answer { result ≡ status (exports.derivatives description.now world.now piece (length out.old)) }
    ensures left { out.new ≡ written out.old
        (exports.derivatives description.now world.now piece (length out.old)) }
{
    match piece_lent(description.len(), world.len(), out.len(), piece) {
        Ok(piece) => answer(
            derivatives(describe(description), world_at(world, 0), piece),
            out,
        ),
        Err(fault) => fault.into(),
    }
}

#[tactic(auto, unfolding(crate::specs::Exports::residual))]
pub fn gyroid_residual(description: &[i64], world: &[f64], out: &mut [f64]) -> u32
    ensures answer { result ≡ status (exports.residual description.now world.now (length out.old)) }
    ensures left { out.new ≡ written out.old
        (exports.residual description.now world.now (length out.old)) }
{
    match lengths(description.len(), world.len(), 6, out.len(), 2) {
        Ok(()) => answer(residual(describe(description), world_at(world, 0)), out),
        Err(fault) => fault.into(),
    }
}

#[tactic(auto, unfolding(crate::specs::Exports::affine_residual))]
pub fn gyroid_affine_residual(description: &[i64], world: &[f64], out: &mut [f64]) -> u32
    ensures answer { result ≡ status (exports.affine_residual description.now world.now (length out.old)) }
    ensures left { out.new ≡ written out.old
        (exports.affine_residual description.now world.now (length out.old)) }
{
    match lengths(description.len(), world.len(), 6, out.len(), 2) {
        Ok(()) => answer(
            affine_residual(describe(description), world_at(world, 0)),
            out,
        ),
        Err(fault) => fault.into(),
    }
}

// 1 inside, 2 outside, 3 unsettled.
#[tactic(auto, unfolding(crate::specs::Exports::box_state))]
pub fn gyroid_box_state(description: &[i64], world: &[f64], out: &mut [i64]) -> u32
    ensures answer { result ≡ status (exports.box_state description.now world.now (length out.old)) }
    ensures left { out.new ≡ written out.old
        (exports.box_state description.now world.now (length out.old)) }
{
    match lengths(description.len(), world.len(), 6, out.len(), 1) {
        Ok(()) => answer(box_state(describe(description), world_at(world, 0)), out),
        Err(fault) => fault.into(),
    }
}

#[tactic(auto, unfolding(crate::specs::Exports::facet_residual))]
pub fn gyroid_facet_residual(description: &[i64], corners: &[f64], out: &mut [f64]) -> u32
    ensures answer { result ≡ status (exports.facet_residual description.now corners.now (length out.old)) }
    ensures left { out.new ≡ written out.old
        (exports.facet_residual description.now corners.now (length out.old)) }
{
    match lengths(description.len(), corners.len(), 18, out.len(), 2) {
        Ok(()) => answer(
            facet_residual(describe(description), corners_at(corners)),
            out,
        ),
        Err(fault) => fault.into(),
    }
}

#[tactic(auto, unfolding(crate::specs::Exports::fast))]
pub fn gyroid_fast(description: &[i64], point: &[f64], out: &mut [f64]) -> u32
    ensures answer { result ≡ status (exports.fast description.now point.now (length out.old)) }
    ensures left { out.new ≡ written out.old
        (exports.fast description.now point.now (length out.old)) }
{
    match lengths(description.len(), point.len(), 3, out.len(), 1) {
        Ok(()) => answer(fast(describe(description), three_at(point, 0)), out),
        Err(fault) => fault.into(),
    }
}

#[tactic(auto, unfolding(crate::specs::Exports::fast_distance))]
pub fn gyroid_fast_distance(description: &[i64], point: &[f64], out: &mut [f64]) -> u32
    ensures answer { result ≡ status (exports.fast_distance description.now point.now (length out.old)) }
    ensures left { out.new ≡ written out.old
        (exports.fast_distance description.now point.now (length out.old)) }
{
    match lengths(description.len(), point.len(), 3, out.len(), 1) {
        Ok(()) => answer(
            fast_distance(describe(description), three_at(point, 0)),
            out,
        ),
        Err(fault) => fault.into(),
    }
}

// Writes the cells of the box to `table`. Where spans tie, `rule` 0 takes the grade axis and 1 the lowest; another is refused 1. Returns 0,
// document 01's number or 101; there is no `out`.
#[tactic(auto, unfolding(crate::specs::Exports::walk_status, crate::specs::Exports::walk_left))]
pub fn gyroid_walk(
    description: &[i64],
    bounds: &[i64],
    depth: i64,
    rule: u32,
    table: &mut [u8],
) -> u32
    ensures answer { result ≡ exports.walk_status description.now bounds.now depth rule (length table.old) }
    ensures left { table.new ≡ exports.walk_left description.now bounds.now depth rule table.old }
    ensures demand { exports.WalkSupposed description.now bounds.now depth rule (length table.old)
        → exports.WalkDemand description.now bounds.now depth rule table.new }
{
    match walk_lent(description.len(), bounds.len(), rule) {
        Ok(rule) => done(walk(
            describe(description),
            three_at(bounds, 0),
            three_at(bounds, 3),
            depth,
            rule,
            table,
        )),
        Err(fault) => fault.into(),
    }
}

// Writes the areas of the layers `low` to `high` − 1 of a table to `report`. Returns 0 or document 02's number; there is no `out`.
pub fn gyroid_layers(table: &[u8], low: i64, high: i64, report: &mut [u8]) -> u32
    ensures answer { result ≡ layers_number table.now low high (length report.old) }
    ensures left { report.new ≡ layers_report table.now low high report.old }
    ensures reported { result ≡ 0 → Reported table.now low high report.new }
{
    done(layers(table, low, high, report))
}
