//! The block of highest priority.

ghost use Rattle.std.specs.Prelude.{◌≡◌, ◌+◌, ◌*◌, ◌<◌, ◌≤◌, ◌^◌, All, length, min, if◌then◌else◌};
ghost use Rattle.gm_priority.specs.Priority.{has, blocks_in, rows_with, fewest_with, IsBest, pick_of};

use crate::JobNeeds;

/// A block, how many rows have it, and the least number of blocks that one of them has.
#[derive(Clone, Copy, Debug, PartialEq, Eq)]
struct Rank {
    block: u32,
    rows: u64,
    fewest: u64,
}

/// The rank with one row more.
fn with_row(rank: Rank, row: &JobNeeds) -> Rank
    requires within { rank.block < length row.now }
    requires few { rank.rows + 1 < 2 ^ 64 }
    ensures block { result.block ≡ rank.block }
    ensures rows { result.rows ≡ rank.rows + (if has rank.block row.now then 1 else 0) }
    ensures fewest { result.fewest
        ≡ (if has rank.block row.now then min rank.fewest (blocks_in row.now) else rank.fewest) }
{
    if row.has(rank.block) {
        Rank {
            block: rank.block,
            rows: rank.rows + 1,
            fewest: rank.fewest.min(row.count()),
        }
    } else {
        rank
    }
}

/// How many rows have a block, and the least number of blocks that one of them has.
fn rank_of(needs: &[JobNeeds], blocks: u32, block: u32) -> Rank
    requires even { All (λ row. length row ≡ blocks) needs.now }
    requires within { block < blocks }
    ensures block { result.block ≡ block }
    ensures rows { result.rows ≡ rows_with needs.now block }
    ensures fewest { result.fewest ≡ fewest_with blocks needs.now block }
{
    let mut rank = Rank {
        block,
        rows: 0,
        fewest: u64::from(blocks),
    };
    for row in needs {
        rank = with_row(rank, row);
    }
    rank
}

/// The second rank where its rows / fewest is greater, else the first.
fn better(best: Rank, rank: Rank) -> Rank
    ensures above { best.rows * rank.fewest < rank.rows * best.fewest → result ≡ rank }
    ensures not_above { rank.rows * best.fewest ≤ best.rows * rank.fewest → result ≡ best }
{
    let best_first = u128::from(best.rows) * u128::from(rank.fewest);
    let rank_first = u128::from(rank.rows) * u128::from(best.fewest);
    if best_first < rank_first { rank } else { best }
}

/// The first of the greatest ranks. No row has its block where none has any.
fn best_rank(needs: &[JobNeeds], blocks: u32) -> Rank
    requires { All (λ row. length row ≡ blocks) needs.now }
    ensures { IsBest blocks needs.now blocks result.block result.rows result.fewest }
{
    let mut best = Rank {
        block: 0,
        rows: 0,
        fewest: 1,
    };
    for block in 0..blocks {
        let rank = rank_of(needs, blocks, block);
        best = better(best, rank);
    }
    best
}

/// Of rows over the same blocks, the block with the greatest a / b, where a rows have it, and one of these has b blocks and none
/// has fewer. Among equals it is the lowest one. `None` exactly where no row has a block.
pub fn pick(blocks: u32, needs: &[JobNeeds]) -> Option<u32>
    requires { All (λ row. length row ≡ blocks) needs.now }
    ensures { result ≡ pick_of blocks needs.now }
{
    let best = best_rank(needs, blocks);
    if best.rows == 0 {
        None
    } else {
        Some(best.block)
    }
}
