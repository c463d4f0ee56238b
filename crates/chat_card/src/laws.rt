//! Laws of the definition of what a mail shows. Each is the contract of a function that does nothing, and speaks of any
//! parts.
ghost use Rattle.std.specs.Prelude.{List};
ghost use Rattle.chat_card.specs.Leaves.{KeepsLeaves, KeepsOthers};
ghost use Rattle.chat_card.specs.declared.part.Part.{Part};

/// Of the parts of a mail only texts are dropped, and only from alternatives.
///
/// - `others`: each leaf that is no inline text is a file, once and in the order of the leaves.
/// - `leaves`: where no part is a multipart/alternative, each leaf is kept, once and in their order.
#[tactic(auto, using(crate::proofs::LeafLemmas::keeps_others, crate::proofs::LeafLemmas::keeps_leaves))]
pub fn only_texts_are_dropped()
    ensures others { (parts : List Part) → KeepsOthers parts }
    ensures leaves { (parts : List Part) → KeepsLeaves parts }
{}
