//! A law of the definition of updates. It is the contract of a function that does nothing, and speaks of all bytes.
ghost use Rattle.std.specs.Prelude.{◌≡◌, ℕ, List, Some};
ghost use Rattle.serde_json.specs.Data.{Data};
ghost use Rattle.part_read.specs.Orders.{IsOrdered};
ghost use Rattle.part_read.specs.Updates.{json};

/// Each object in a value of JSON that bytes are has its members in byte order of their names, and each name once. The
/// text of a payload has them in that order.
#[tactic(auto, using(crate::proofs::OrderLemmas::json_ordered))]
pub fn json_is_in_order()
    ensures { (bytes : List ℕ) (value : Data) → json bytes ≡ Some value → IsOrdered value }
{}
