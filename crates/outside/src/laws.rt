//! What the clauses of a shelf say of several calls.
ghost use Rattle.std.specs.Prelude.{◌≡◌, ◌≢◌, ◌⊎◌, ◌<◌, ◌≤◌, ◌+◌, ℕ, List, [], ◌∷◌, length, slice_get};
ghost use Rattle.outside.specs.declared.shelf.Place.{Place};
ghost use Rattle.outside.specs.Places.{Changes, OthersStay};
ghost use Rattle.outside.specs.Crash.{Torn, PartlyCut, Follows, WasOutcome, OnlyAt};
ghost use Rattle.outside.specs.Unsynced.{Unsynced, Write, Cut, Leaves, IsUnwritten, IsUncut, AreMet, KeepsModel, LeaveAt};

use crate::Shelf;

/// A law: a write that no sync followed changes no byte outside its range, whatever a crash makes of it.
pub fn a_torn_write_stays_in_its_range()
    ensures stays { (at n : ℕ) (old new : List ℕ) (i : ℕ) → Torn at n old new → (i < at) ⊎ (at + n ≤ i)
        → slice_get new i ≡ slice_get old i }
{}

/// A law: what was synced stays in each crash outcome until it is written over or cut away.
pub fn synced_bytes_stay()
    ensures stays { (synced : List ℕ) (calls : List Unsynced) (c : List ℕ) (i : ℕ) → Leaves synced calls c
        → IsUnwritten i calls → IsUncut i calls → slice_get c i ≡ slice_get synced i }
{}

/// A law: what the calls since the last sync may leave, call by call, is exactly what the disk model allows between two
/// syncs.
pub fn calls_leave_what_the_model_allows()
    ensures only { (synced : List ℕ) (calls : List Unsynced) (c : List ℕ) → Leaves synced calls c
        → KeepsModel synced calls c }
    ensures all { (synced : List ℕ) (calls : List Unsynced) (c : List ℕ) → AreMet (length synced) calls
        → KeepsModel synced calls c → Leaves synced calls c }
{}

/// A law: what a shelf may leave of a place, by its clauses, is what the calls of that place since its last sync may
/// leave of the synced bytes. The references are to a shelf before a call and after it.
pub fn calls_add_up<H: Shelf>(before: &H, after: &H)
    ensures synced { (place : Place) (synced : List ℕ) → OnlyAt place synced (H.may_leave after.now)
        → LeaveAt place synced [] (H.may_leave after.now) }
    ensures write { (place : Place) (at n : ℕ) (synced : List ℕ) (calls : List Unsynced)
        → Follows (Changes place (Torn at n)) (H.may_leave before.now) (H.may_leave after.now)
        → LeaveAt place synced calls (H.may_leave before.now)
        → LeaveAt place synced (Write at n ∷ calls) (H.may_leave after.now) }
    ensures cut { (place : Place) (n : ℕ) (synced : List ℕ) (calls : List Unsynced)
        → Follows (Changes place (PartlyCut n)) (H.may_leave before.now) (H.may_leave after.now)
        → LeaveAt place synced calls (H.may_leave before.now)
        → LeaveAt place synced (Cut n ∷ calls) (H.may_leave after.now) }
    ensures other { (place called : Place) (synced : List ℕ) (calls : List Unsynced) → place ≢ called
        → Follows (OthersStay called) (H.may_leave before.now) (H.may_leave after.now)
        → LeaveAt place synced calls (H.may_leave before.now)
        → LeaveAt place synced calls (H.may_leave after.now) }
    ensures kept { (place : Place) (synced : List ℕ) (calls : List Unsynced)
        → WasOutcome (H.may_leave before.now) (H.may_leave after.now)
        → LeaveAt place synced calls (H.may_leave before.now)
        → LeaveAt place synced calls (H.may_leave after.now) }
{}
