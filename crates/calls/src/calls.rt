// The public calls: each takes a description, refuses by document 01's numbers and answers any input. Each compiles its description; none
// keeps anything.
ghost use Rattle.std.specs.Prelude.{◌≡◌};
ghost use Rattle.calls.specs.Calls.{saturation, saturated_at, enclosure_said, bound_said, state_said, level_piece_said, truth_said, perhaps_said};
ghost use Rattle.calls.specs.Calls.{planes_said, AxisBelow, jet_said, derivatives_said, double_said, graded_call, saturated_call, planes_call};
ghost use Rattle.calls.specs.Calls.{curvature_call, lipschitz_call, level_piece_call, PieceSays, jet_call, affine_jet_call, derivatives_call};
ghost use Rattle.calls.specs.Calls.{residual_call, EnclosureHolds, affine_residual_call, box_state_call, StateSettles, facet_residual_call, fast_call};
ghost use Rattle.calls.specs.Calls.{fast_distance_call};

use crate::floats::{point_box, refuse_box, refuse_finite_box, refuse_triangle};
use crate::{Derivatives, facet, fast, hessian};
use grade::{GradeDef, Piece, Planes};
use gyroid::{Description, Gyroid, Jet, State, Surface};
use interval::Interval;
use limits::refusals::{Refusal, refuse};
use limits::ticks::{above, ticks};

// Whether the level is a ramp.
#[tactic(auto, using(crate::proofs::CallLaws::grades), unfolding(crate::specs::Calls::graded_call))]
pub fn graded(description: Description) -> Result<bool, Refusal>
    ensures { truth_said result ≡ graded_call description }
{
    let leaf = Gyroid::certified(description)?;
    match &leaf.grade {
        GradeDef::Constant(_) => Ok(false),
        GradeDef::Linear(_) => Ok(true),
    }
}

// The level from which `saturated` says true, in level counts.
fn saturation(surface: Surface) -> i64
    ensures { result ≡ saturation surface }
{
    match surface {
        Surface::Network => 1536,
        Surface::Primitive => 3072,
    }
}

// Of a constant level in level counts.
fn saturated_at(surface: Surface, level: i64) -> Option<bool>
    ensures { result ≡ saturated_at surface level }
{
    let most = saturation(surface);
    if most <= level {
        return Some(true);
    }
    if level <= -most {
        return Some(false);
    }
    None
}

// Whether every point is inside, or none, whatever the position.
#[tactic(auto, using(crate::proofs::CallLaws::grades, crate::proofs::CallLaws::leaf_surface), unfolding(crate::specs::Calls::saturated_call))]
pub fn saturated(description: Description) -> Result<Option<bool>, Refusal>
    ensures { perhaps_said result ≡ saturated_call description }
{
    let leaf = Gyroid::certified(description)?;
    match &leaf.grade {
        GradeDef::Constant(level) => Ok(saturated_at(leaf.surface, *level)),
        GradeDef::Linear(_) => Ok(None),
    }
}

// The anchor planes of a ramp.
#[tactic(auto, using(crate::proofs::CallLaws::grades), unfolding(crate::specs::Calls::planes_call))]
pub fn planes(description: Description) -> Result<Option<Planes>, Refusal>
    ensures answer { planes_said result ≡ planes_call description }
    ensures below { AxisBelow result }
{
    let leaf = Gyroid::certified(description)?;
    Ok(leaf.grade.planes())
}

#[tactic(auto, using(limits::proofs::RefusalLaws::number_not), unfolding(crate::specs::Calls::curvature_call))]
pub fn curvature(description: Description) -> Result<Interval, Refusal>
    ensures { bound_said result ≡ curvature_call description }
{
    let leaf = Gyroid::certified(description)?;
    Ok(facet::curvature(&leaf))
}

// An upper bound of the gradient of g − c.
#[tactic(auto, using(limits::proofs::RefusalLaws::number_not), unfolding(crate::specs::Calls::lipschitz_call))]
pub fn lipschitz(description: Description) -> Result<Interval, Refusal>
    ensures { bound_said result ≡ lipschitz_call description }
{
    let leaf = Gyroid::certified(description)?;
    Ok(leaf.lipschitz)
}

// The exact piece of the level over a box of whole ticks.
#[tactic(auto, using(crate::proofs::CallLaws::grades), unfolding(crate::specs::Calls::level_piece_call, crate::specs::Calls::level_piece_refusal))]
pub fn level_piece(
    description: Description,
    lo: [i64; 3],
    hi: [i64; 3],
) -> Result<Option<Piece>, Refusal>
    ensures answer { level_piece_said result ≡ level_piece_call description lo hi }
    ensures says { PieceSays description lo hi result }
{
    refuse(!(ticks(lo) & ticks(hi)), Refusal::Limits)?;
    let leaf = Gyroid::certified(description)?;
    refuse(above(lo, hi), Refusal::LowAboveHigh)?;
    Ok(leaf.grade.exact_piece(lo, hi))
}

#[tactic(auto, using(limits::proofs::RefusalLaws::number_not), unfolding(crate::specs::Calls::jet_call))]
pub fn jet(description: Description, p: [Interval; 3]) -> Result<Option<Jet>, Refusal>
    ensures { jet_said result ≡ jet_call description p }
{
    let leaf = Gyroid::certified(description)?;
    refuse_box(p)?;
    Ok(leaf.jet(p))
}

#[tactic(auto, using(limits::proofs::RefusalLaws::number_not), unfolding(crate::specs::Calls::affine_jet_call))]
pub fn affine_jet(description: Description, p: [Interval; 3]) -> Result<Option<Jet>, Refusal>
    ensures { jet_said result ≡ affine_jet_call description p }
{
    let leaf = Gyroid::certified(description)?;
    refuse_box(p)?;
    Ok(leaf.affine_jet(p))
}

// The gradient of g − c and the Hessian of g over a box on which the level is the given piece.
#[tactic(auto, using(limits::proofs::RefusalLaws::number_not), unfolding(crate::specs::Calls::derivatives_call))]
pub fn derivatives(
    description: Description,
    world: [Interval; 3],
    piece: Piece,
) -> Result<Option<Derivatives>, Refusal>
    ensures { derivatives_said result ≡ derivatives_call description world piece }
{
    let leaf = Gyroid::certified(description)?;
    refuse_box(world)?;
    Ok(hessian::derivatives(&leaf, world, piece))
}

#[tactic(auto, using(limits::proofs::RefusalLaws::number_not, crate::proofs::CallLaws::residual_rows))]
pub fn residual(description: Description, world: [Interval; 3]) -> Result<Option<Interval>, Refusal>
    ensures answer { enclosure_said result ≡ residual_call description world }
    ensures holds { EnclosureHolds description world result }
{
    let leaf = Gyroid::certified(description)?;
    refuse_finite_box(world)?;
    Ok(leaf.residual(world))
}

#[tactic(auto, using(limits::proofs::RefusalLaws::number_not, crate::proofs::CallLaws::affine_rows))]
pub fn affine_residual(
    description: Description,
    world: [Interval; 3],
) -> Result<Option<Interval>, Refusal>
    ensures { enclosure_said result ≡ affine_residual_call description world }
{
    let leaf = Gyroid::certified(description)?;
    refuse_finite_box(world)?;
    Ok(leaf.affine_residual(world))
}

#[tactic(auto, using(limits::proofs::RefusalLaws::number_not, crate::proofs::CallLaws::state_rows))]
pub fn box_state(description: Description, world: [Interval; 3]) -> Result<State, Refusal>
    ensures answer { state_said result ≡ box_state_call description world }
    ensures settles { StateSettles description world result }
{
    let leaf = Gyroid::certified(description)?;
    refuse_finite_box(world)?;
    Ok(leaf.box_state(world))
}

// Over a triangle, by its three corners.
#[tactic(auto, using(limits::proofs::RefusalLaws::number_not), unfolding(crate::specs::Calls::facet_residual_call))]
pub fn facet_residual(
    description: Description,
    corners: [[Interval; 3]; 3],
) -> Result<Option<Interval>, Refusal>
    ensures { enclosure_said result ≡ facet_residual_call description corners }
{
    let leaf = Gyroid::certified(description)?;
    refuse_triangle(corners)?;
    Ok(facet::facet_residual(&leaf, corners))
}

// The level at a point.
#[tactic(auto, using(crate::proofs::CallLaws::grades), unfolding(crate::specs::Calls::fast_call))]
pub fn fast(description: Description, p: [f64; 3]) -> Result<f64, Refusal>
    ensures { double_said result ≡ fast_call description p }
{
    let leaf = Gyroid::certified(description)?;
    refuse_box(point_box(p))?;
    Ok(leaf.grade.fast(p))
}

#[tactic(auto, using(limits::proofs::RefusalLaws::number_not), unfolding(crate::specs::Calls::fast_distance_call))]
pub fn fast_distance(description: Description, p: [f64; 3]) -> Result<f64, Refusal>
    ensures { double_said result ≡ fast_distance_call description p }
{
    let leaf = Gyroid::certified(description)?;
    refuse_box(point_box(p))?;
    Ok(fast::fast_distance(&leaf, p))
}
