// The calls of crate capi under their names in C, each with the clauses of the function that it calls; bindings/gyroid.h declares them. What
// the numbers and the slices are, and what a status says, stands in crates/capi/src/lib.rt.
#![tactic(auto)]

ghost use Rattle.std.specs.Prelude.{◌≡◌, length};
ghost use Rattle.layers.specs.Layers.{layers_number, layers_report, Reported};
ghost use Rattle.capi.specs.Lent.{status, written};
ghost use Rattle.capi.specs.Exports as exports;

#[unsafe(no_mangle)]
pub extern "C" fn gyroid_graded(description: &[i64], out: &mut [i64]) -> u32
    ensures answer { result ≡ status (exports.graded description.now (length out.old)) }
    ensures left { out.new ≡ written out.old (exports.graded description.now (length out.old)) }
{
    capi::gyroid_graded(description, out)
}

#[unsafe(no_mangle)]
pub extern "C" fn gyroid_saturated(description: &[i64], out: &mut [i64]) -> u32
    ensures answer { result ≡ status (exports.saturated description.now (length out.old)) }
    ensures left { out.new ≡ written out.old (exports.saturated description.now (length out.old)) }
{
    capi::gyroid_saturated(description, out)
}

#[unsafe(no_mangle)]
pub extern "C" fn gyroid_planes(description: &[i64], out: &mut [i64]) -> u32
    ensures answer { result ≡ status (exports.planes description.now (length out.old)) }
    ensures left { out.new ≡ written out.old (exports.planes description.now (length out.old)) }
{
    capi::gyroid_planes(description, out)
}

#[unsafe(no_mangle)]
pub extern "C" fn gyroid_curvature(description: &[i64], out: &mut [f64]) -> u32
    ensures answer { result ≡ status (exports.curvature description.now (length out.old)) }
    ensures left { out.new ≡ written out.old (exports.curvature description.now (length out.old)) }
{
    capi::gyroid_curvature(description, out)
}

#[unsafe(no_mangle)]
pub extern "C" fn gyroid_lipschitz(description: &[i64], out: &mut [f64]) -> u32
    ensures answer { result ≡ status (exports.lipschitz description.now (length out.old)) }
    ensures left { out.new ≡ written out.old (exports.lipschitz description.now (length out.old)) }
{
    capi::gyroid_lipschitz(description, out)
}

#[unsafe(no_mangle)]
pub extern "C" fn gyroid_grade_range(description: &[i64], bounds: &[i64], out: &mut [i64]) -> u32
    ensures answer { result ≡ status (exports.grade_range description.now bounds.now (length out.old)) }
    ensures left { out.new ≡ written out.old
        (exports.grade_range description.now bounds.now (length out.old)) }
{
    capi::gyroid_grade_range(description, bounds, out)
}

#[unsafe(no_mangle)]
pub extern "C" fn gyroid_level_piece(description: &[i64], bounds: &[i64], out: &mut [i64]) -> u32
    ensures answer { result ≡ status (exports.level_piece description.now bounds.now (length out.old)) }
    ensures left { out.new ≡ written out.old
        (exports.level_piece description.now bounds.now (length out.old)) }
{
    capi::gyroid_level_piece(description, bounds, out)
}

#[unsafe(no_mangle)]
pub extern "C" fn gyroid_jet(description: &[i64], world: &[f64], out: &mut [f64]) -> u32
    ensures answer { result ≡ status (exports.jet description.now world.now (length out.old)) }
    ensures left { out.new ≡ written out.old
        (exports.jet description.now world.now (length out.old)) }
{
    capi::gyroid_jet(description, world, out)
}

#[unsafe(no_mangle)]
pub extern "C" fn gyroid_affine_jet(description: &[i64], world: &[f64], out: &mut [f64]) -> u32
    ensures answer { result ≡ status (exports.affine_jet description.now world.now (length out.old)) }
    ensures left { out.new ≡ written out.old
        (exports.affine_jet description.now world.now (length out.old)) }
{
    capi::gyroid_affine_jet(description, world, out)
}

#[unsafe(no_mangle)]
pub extern "C" fn gyroid_derivatives(
    description: &[i64],
    world: &[f64],
    piece: u32,
    out: &mut [f64],
) -> u32
    ensures answer { result ≡ status (exports.derivatives description.now world.now piece (length out.old)) }
    ensures left { out.new ≡ written out.old
        (exports.derivatives description.now world.now piece (length out.old)) }
{
    capi::gyroid_derivatives(description, world, piece, out)
}

#[unsafe(no_mangle)]
pub extern "C" fn gyroid_residual(description: &[i64], world: &[f64], out: &mut [f64]) -> u32
    ensures answer { result ≡ status (exports.residual description.now world.now (length out.old)) }
    ensures left { out.new ≡ written out.old
        (exports.residual description.now world.now (length out.old)) }
{
    capi::gyroid_residual(description, world, out)
}

#[unsafe(no_mangle)]
pub extern "C" fn gyroid_affine_residual(description: &[i64], world: &[f64], out: &mut [f64]) -> u32
    ensures answer { result ≡ status (exports.affine_residual description.now world.now (length out.old)) }
    ensures left { out.new ≡ written out.old
        (exports.affine_residual description.now world.now (length out.old)) }
{
    capi::gyroid_affine_residual(description, world, out)
}

#[unsafe(no_mangle)]
pub extern "C" fn gyroid_box_state(description: &[i64], world: &[f64], out: &mut [i64]) -> u32
    ensures answer { result ≡ status (exports.box_state description.now world.now (length out.old)) }
    ensures left { out.new ≡ written out.old
        (exports.box_state description.now world.now (length out.old)) }
{
    capi::gyroid_box_state(description, world, out)
}

#[unsafe(no_mangle)]
pub extern "C" fn gyroid_facet_residual(
    description: &[i64],
    corners: &[f64],
    out: &mut [f64],
) -> u32
    ensures answer { result ≡ status (exports.facet_residual description.now corners.now (length out.old)) }
    ensures left { out.new ≡ written out.old
        (exports.facet_residual description.now corners.now (length out.old)) }
{
    capi::gyroid_facet_residual(description, corners, out)
}

#[unsafe(no_mangle)]
pub extern "C" fn gyroid_fast(description: &[i64], point: &[f64], out: &mut [f64]) -> u32
    ensures answer { result ≡ status (exports.fast description.now point.now (length out.old)) }
    ensures left { out.new ≡ written out.old
        (exports.fast description.now point.now (length out.old)) }
{
    capi::gyroid_fast(description, point, out)
}

#[unsafe(no_mangle)]
pub extern "C" fn gyroid_fast_distance(description: &[i64], point: &[f64], out: &mut [f64]) -> u32
    ensures answer { result ≡ status (exports.fast_distance description.now point.now (length out.old)) }
    ensures left { out.new ≡ written out.old
        (exports.fast_distance description.now point.now (length out.old)) }
{
    capi::gyroid_fast_distance(description, point, out)
}

#[unsafe(no_mangle)]
pub extern "C" fn gyroid_walk(
    description: &[i64],
    bounds: &[i64],
    depth: i64,
    rule: u32,
    table: &mut [u8],
) -> u32
    ensures answer { result ≡ exports.walk_status description.now bounds.now depth rule (length table.old) }
    ensures left { table.new ≡ exports.walk_left description.now bounds.now depth rule table.old }
    ensures demand { exports.WalkSupposed description.now bounds.now depth rule (length table.old)
        → exports.WalkDemand description.now bounds.now depth rule table.new }
{
    capi::gyroid_walk(description, bounds, depth, rule, table)
}

#[unsafe(no_mangle)]
pub extern "C" fn gyroid_layers(table: &[u8], low: i64, high: i64, report: &mut [u8]) -> u32
    ensures answer { result ≡ layers_number table.now low high (length report.old) }
    ensures left { report.new ≡ layers_report table.now low high report.old }
    ensures reported { result ≡ 0 → Reported table.now low high report.new }
{
    capi::gyroid_layers(table, low, high, report)
}
