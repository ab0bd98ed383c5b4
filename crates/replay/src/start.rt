// The start of a join with its count, and its cost.
ghost use Rattle.std.specs.Prelude.{◌≡◌, ◌<◌, ◌^◌};
ghost use Rattle.bits.specs.Bits.{bits_of};
ghost use Rattle.job.specs.Structs.{Sized, grid_of};
ghost use Rattle.job.specs.Refusals.{read_of};
ghost use Rattle.replay.specs.Following.{read_start, read_cost};

use bits::Cursor;
use job::grid::Grid;
use job::groups::vertex_group;
use job::refusal::{Refusal, Refused};
use tree::ON_TREE;

// The start vertex and the number of moves.
#[derive(Clone, Copy)]
pub struct Start {
    pub vertex: usize,
    pub moves: usize,
}

// The start is on the tree, and at least one move follows.
pub fn read_start(plan: &[u8], grid: Grid, spots: &[u8; 16384], at: usize) -> Result<Start, Refused>
    requires { (Sized grid) × (at < 2 ^ 39) }
    ensures { read_of result ≡ read_start (bits_of plan.now) (grid_of grid) spots.now at }
{
    let start = Cursor { at };
    if !start.whole(plan, 39) {
        return Err(Refusal::PlanCut.at(at));
    }
    let Some(vertex) = vertex_group(plan, at) else {
        return Err(Refusal::PlanCut.at(at));
    };
    if !grid.inside(vertex) {
        return Err(Refusal::Start.at(at));
    }
    let number = grid.number(vertex);
    let tree = ON_TREE;
    if spots[number] != tree {
        return Err(Refusal::Start.at(at));
    }
    let count = Cursor { at: at + 19 };
    let moves = count.field(plan, 20);
    if moves.value < 1 {
        return Err(Refusal::Move.at(at + 19));
    }
    Ok(Start {
        vertex: number,
        moves: moves.value,
    })
}

// The cost is the one of the moves.
pub fn read_cost(plan: &[u8], at: usize, cost: usize) -> Result<usize, Refused>
    requires { at < 2 ^ 40 }
    ensures { read_of result ≡ read_cost (bits_of plan.now) at cost }
{
    let start = Cursor { at };
    if !start.whole(plan, 40) {
        return Err(Refusal::PlanCut.at(at));
    }
    let held = start.field(plan, 40);
    if held.value != cost {
        return Err(Refusal::Cost.at(at));
    }
    Ok(at + 40)
}
