//! Laws of the record of a card. Each is the contract of a function that does nothing: its clauses speak of every card.
ghost use Rattle.std.specs.Prelude.{◌≡◌, ℕ, Ok, IsTrue, List, ◌++◌};
ghost use Rattle.card_type.specs.declared.card.Card.{Card};
ghost use Rattle.card_type.specs.Records.{record_of};
ghost use Rattle.card_type.specs.Rules.{is_valid};
ghost use Rattle.card_record.specs.Cards.{record_at};
ghost use Rattle.card_record.specs.Spelling.{IsBytes};

/// A valid card has one record, and a record is that of one card.
///
/// - `read`: the record of a valid card, whatever follows it, is read as that card.
/// - `spelled`: bytes that are read as a card begin with its record, and the card is valid.
/// - `once`: where the records of two valid cards begin the same bytes, the cards are one.
pub fn each_card_has_one_record()
    ensures read { (card : Card) (rest : List ℕ) → IsTrue (is_valid card) → record_at (record_of card ++ rest) ≡ Ok (card, rest) }
    ensures spelled { (bytes : List ℕ) (card : Card) (rest : List ℕ) → IsBytes bytes → record_at bytes ≡ Ok (card, rest)
        → IsTrue (is_valid card) × (bytes ≡ record_of card ++ rest) }
    ensures once { (a b : Card) (r s : List ℕ) → IsTrue (is_valid a) → IsTrue (is_valid b)
        → record_of a ++ r ≡ record_of b ++ s → a ≡ b }
{}
