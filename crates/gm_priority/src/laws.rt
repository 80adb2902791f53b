//! Laws of the block that is picked.

ghost use Rattle.std.specs.Prelude.{◌≡◌, ◌<◌, ℕ, Bool, List, Some, IsSome};
ghost use Rattle.gm_priority.specs.Priority.{rows_with, pick_of};

/// A law: a block is picked where some row has one, and only a block that some row has.
pub fn a_block_is_picked_where_rows_have_one()
    ensures picked { (blocks block : ℕ) (rows : List (List Bool)) → block < blocks → 0 < rows_with rows block
        → IsSome (pick_of blocks rows) }
    ensures needed { (blocks block : ℕ) (rows : List (List Bool)) → pick_of blocks rows ≡ Some block
        → 0 < rows_with rows block }
{}
