//! What the crash outcomes of a shelf in memory are.
ghost use Rattle.outside.specs.declared.shelf.Place.{Place};
ghost use Rattle.outside.specs.Places.{Places, content};
ghost use Rattle.outside.specs.Unsynced.{KeepsModel};
ghost use Rattle.shelves.specs.History.{content_at};
ghost use Rattle.shelves.specs.MemoryShelf.{left_of, state_of};

use crate::MemoryShelf;

/// A law: a crash leaves of each place what the disk model allows, by what the place held at its last sync and the calls
/// since then; and whatever the disk model allows of the three, a crash may leave.
pub fn crash_outcomes_are_those_of_the_model(shelf: &MemoryShelf)
    ensures only { (c : Places) → left_of shelf.now c → (place : Place)
        → KeepsModel (content_at place (state_of shelf.now)).synced (content_at place (state_of shelf.now)).calls
        (content c place) }
    ensures all { (c : Places) → ((place : Place)
        → KeepsModel (content_at place (state_of shelf.now)).synced (content_at place (state_of shelf.now)).calls
        (content c place)) → left_of shelf.now c }
{}
