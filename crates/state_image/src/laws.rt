//! Laws of the spelling of changes and images. Each is the contract of a function that does nothing: its clauses speak of
//! every change and every mailbox.
ghost use Rattle.std.specs.Prelude.{◌≡◌, ℕ, Ok, List, ◌++◌, false};
ghost use Rattle.mailbox_model.specs.declared.change.Change.{Change};
ghost use Rattle.card_record.specs.Spelling.{IsBytes};
ghost use Rattle.mailbox_model.specs.Mailbox.{Mailbox};
ghost use Rattle.state_image.specs.declared.position.Position.{Position};
ghost use Rattle.state_image.specs.Changes.{change_at, change_spelled, FitsChange};
ghost use Rattle.state_image.specs.Images.{image, image_in, image_of, HasImage, IsImage, IsUntraced};

/// A valid change has one spelling, and a spelling is that of one change.
///
/// - `read`: the spelling of a valid change, whatever follows it, is read as that change.
/// - `spelled`: bytes that are read as a change begin with its spelling, and the change is valid.
/// - `once`: where the spellings of two valid changes begin the same bytes, the changes are one.
pub fn each_change_has_one_spelling()
    ensures read { (change : Change) (rest : List ℕ) → FitsChange change
        → change_at (change_spelled change ++ rest) ≡ Ok (change, rest) }
    ensures spelled { (bytes : List ℕ) (change : Change) (rest : List ℕ) → IsBytes bytes
        → change_at bytes ≡ Ok (change, rest) → FitsChange change × (bytes ≡ change_spelled change ++ rest) }
    ensures once { (a b : Change) (r s : List ℕ) → FitsChange a → FitsChange b
        → change_spelled a ++ r ≡ change_spelled b ++ s → a ≡ b }
{}

/// A mailbox and a position together have one image, and an image is that of one mailbox and one position.
///
/// - `read`: their image is read as these.
/// - `old`: so is their image without traces, where the position has none.
/// - `spelled`: bytes that are read as a mailbox and a position are an image of them, and these keep their rules.
/// - `once`: where the images of two are equal, the mailboxes are one and the positions are.
pub fn each_mailbox_has_one_image()
    ensures read { (m : Mailbox) (position : Position) → HasImage m position
        → image_of (image m position) ≡ Ok (m, position) }
    ensures spelled { (bytes : List ℕ) (m : Mailbox) (position : Position) → IsBytes bytes
        → image_of bytes ≡ Ok (m, position) → HasImage m position × IsImage bytes m position }
    ensures old { (m : Mailbox) (position : Position) → HasImage m position → IsUntraced position
        → image_of (image_in false m position) ≡ Ok (m, position) }
    ensures once { (m n : Mailbox) (p q : Position) → HasImage m p → HasImage n q
        → image m p ≡ image n q → (m ≡ n) × (p ≡ q) }
{}
