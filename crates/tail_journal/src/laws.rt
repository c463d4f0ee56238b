//! Laws of the tail. Each is the contract of a function that does nothing: its clauses speak of all bytes.
ghost use Rattle.std.specs.Prelude.{◌≡◌, ◌≤◌, ℕ, List, [], ◌∷◌, Ok, take, length};
ghost use Rattle.tail_journal.specs.Groups.{Reading, reading};
ghost use Rattle.state_image.specs.Images.{IsUntraced};
ghost use Rattle.tail_journal.specs.Spelling.{Batch, IsBatch, group_spelled, old_group};
ghost use Rattle.tail_journal.specs.Tails.{read_back, old_read_back, ReadsAll, AppliesNothing};

/// A law: a group is read as it is spelled, and reading comes to its end.
pub fn a_spelled_group_is_read()
    ensures { (batch : Batch) → IsBatch batch → reading batch.base (group_spelled batch)
        ≡ Ok (record { groups = read_back 0 batch ∷ []; count = batch.position.count; end = length (group_spelled batch) }) }
{}

/// A law: so is a group of version 1, where the position has no traces.
pub fn an_old_group_is_read()
    ensures { (batch : Batch) → IsBatch batch → IsUntraced batch.position → reading batch.base (old_group batch)
        ≡ Ok (record { groups = old_read_back 0 batch ∷ []; count = batch.position.count; end = length (old_group batch) }) }
{}

/// A law: where reading from a count comes to the end of T, no prefix of T has a group that is applied from a number that is
/// no smaller than the count after it. So nothing is applied twice, and no gap is left, at any moment from the gate of a new
/// slot to the end of clearing.
pub fn no_group_is_applied_twice()
    ensures { (count number size : ℕ) (bytes : List ℕ) (r : Reading) → ReadsAll count bytes r → r.count ≤ number
        → AppliesNothing number (take size bytes) }
{}
