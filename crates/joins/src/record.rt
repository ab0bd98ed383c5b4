// A join's record as bits: flag, start and move count; after the moves the cost.
ghost use Rattle.std.specs.Prelude.{◌≡◌, [], ◌∷◌, ◌<◌, ◌^◌};
ghost use Rattle.bits.specs.Bits.{field_bits, group_bits};
ghost use Rattle.bits.specs.Puts.{put_bits};
ghost use Rattle.job.specs.Structs.{grid_of};
ghost use Rattle.rules.specs.Tracks.{layer_of, row_of, column_of};
ghost use Rattle.rules.specs.Structs.{OnGrid};

use bits::Cursor;
use job::grid::Grid;
use rules::track::vertex_by;

// "bit 1, start vertex (3, 8, 8), move count 20"
pub fn put_start(plan: &mut [u8], grid: Grid, at: usize, start: usize, count: usize)
    requires { (OnGrid grid start) × (at < 2 ^ 40) }
    ensures { plan.new ≡ put_bits plan.old at (group_bits ((1, 1) ∷ (3, layer_of (grid_of grid) start)
        ∷ (8, row_of (grid_of grid) start) ∷ (8, column_of (grid_of grid) start) ∷ (20, count) ∷ [])) }
{
    let vertex = vertex_by(grid, start);
    let flag = Cursor { at };
    let layer = flag.put(plan, 1, 1);
    let row = layer.put(plan, 3, vertex.layer);
    let column = row.put(plan, 8, vertex.row);
    let moves = column.put(plan, 8, vertex.column);
    let _end = moves.put(plan, 20, count);
}

// "bit 0 where there is none"
pub fn put_none(plan: &mut [u8], at: usize)
    requires { at < 2 ^ 40 }
    ensures { plan.new ≡ put_bits plan.old at (field_bits 1 0) }
{
    let flag = Cursor { at };
    let _end = flag.put(plan, 1, 0);
}

// "cost 40"
pub fn put_cost(plan: &mut [u8], at: usize, cost: usize)
    requires { at < 2 ^ 40 }
    ensures { plan.new ≡ put_bits plan.old at (field_bits 40 cost) }
{
    let start = Cursor { at };
    let _end = start.put(plan, 40, cost);
}
