//! The block that is picked, worked out by hand.

ghost use Rattle.std.specs.Prelude.{◌≡◌, true, false, [], ◌∷◌, Some, None};
ghost use Rattle.gm_priority.specs.Priority.{pick_of};

/// Rows over four blocks. One with block 0 and one with 1 and 3: block 0 has 1 / 1, the others 1 / 2. One with 1 and one with 0 and
/// 1: block 1 has 2 / 1, block 0 has 1 / 2. One with 1, 2 and 3: all are equal, and 1 is the lowest.
pub fn picked_blocks()
    ensures alone { pick_of 4
        ((true ∷ false ∷ false ∷ false ∷ []) ∷ (false ∷ true ∷ false ∷ true ∷ []) ∷ []) ≡ Some 0 }
    ensures shared { pick_of 4
        ((false ∷ true ∷ false ∷ false ∷ []) ∷ (true ∷ true ∷ false ∷ false ∷ []) ∷ []) ≡ Some 1 }
    ensures lowest { pick_of 4 ((false ∷ true ∷ true ∷ true ∷ []) ∷ []) ≡ Some 1 }
    ensures nothing { pick_of 4 ((false ∷ false ∷ false ∷ false ∷ []) ∷ []) ≡ None }
    ensures no_rows { pick_of 4 [] ≡ None }
    ensures no_blocks { pick_of 0 [] ≡ None }
{}

/// Rows over three blocks. Blocks 0 and 1 are needed by three rows, each of which needs both: 3 / 2. Block 2 is needed by one row that
/// needs nothing else: 1 / 1. So block 0 comes first, though a row with block 2 needs fewer blocks.
pub fn many_rows_come_first()
    ensures { pick_of 3
        ((true ∷ true ∷ false ∷ []) ∷ (true ∷ true ∷ false ∷ []) ∷ (true ∷ true ∷ false ∷ [])
        ∷ (false ∷ false ∷ true ∷ []) ∷ []) ≡ Some 0 }
{}
