//! A law of records: the contract of a function that does nothing. Its clauses speak of every card.
ghost use Rattle.std.specs.Prelude.{◌≡◌, length, None};
ghost use Rattle.card_type.specs.declared.card.Card.{Card};
ghost use Rattle.card_type.specs.Records.{record_of, plain_record, weight};

/// A law: a card without a reaction has the record and the weight that it has where records know of none.
pub fn a_card_without_a_reaction_has_a_plain_record()
    ensures record { (card : Card) → card.reaction ≡ None → record_of card ≡ plain_record card }
    ensures weight { (card : Card) → card.reaction ≡ None → weight card ≡ length (plain_record card) }
{}
