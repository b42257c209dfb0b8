// The walk of crate twice under its name in C, with the clauses of the function that it calls: for the benchmark alone, and in no binding.
#![tactic(auto)]

ghost use Rattle.std.specs.Prelude.{◌≡◌, length};
ghost use Rattle.capi.specs.Exports as exports;

#[unsafe(no_mangle)]
pub extern "C" fn gyroid_walk_twice(
    description: &[i64],
    bounds: &[i64],
    depth: i64,
    rule: u32,
    table: &mut [u8],
) -> u32
    ensures answer { result ≡ exports.walk_status description.now bounds.now depth rule (length table.old) }
    ensures left { table.new ≡ exports.walk_left description.now bounds.now depth rule table.old }
{
    twice::gyroid_walk_twice(description, bounds, depth, rule, table)
}
