//! Places in mail order.
ghost use Rattle.std.specs.Prelude.{◌≡◌, IfOk};
ghost use Rattle.std.specs.Cmp.Rules.{comparing};
ghost use Rattle.std.specs.Cmp.{partial_order_from_own_ties};
ghost use Rattle.std.specs.Ordering.{as_partial_cmp};
ghost use Rattle.std.proofs.Common.{rules};
ghost use Rattle.card_type.specs.Spots.{spot_cmp, spot_eq};

use kit::{Id, Memory};
use lists::Exact;
use std::cmp::Ordering;

/// The place of a mail in mail order. Spots are ordered as mails are: by date, then by id, byte by byte
/// and a proper prefix first, then by uid.
#[derive(Clone, Debug, Drop)]
pub struct Spot {
    /// The effective date of the mail, in seconds since 1970-01-01 00:00:00 UTC.
    pub date: u64,
    /// The id of the mail.
    pub id: Id,
    /// Its number in the mailbox.
    pub uid: u32,
}

impl Exact for Spot {
    ghost same = { Prim.search rules };
}

impl Spot {
    /// A copy of the spot. Takes memory; `Err` only when it runs out.
    pub fn copy(&self) -> Result<Self, Memory>
        ensures { IfOk result (λ copy. copy ≡ self.now) }
    {
        Ok(self.clone()?)
    }
}

impl PartialEq for Spot {
    ghost eq = { spot_eq };

    ghost laws = { Prim.search (comparing, rules) };

    fn eq(&self, other: &Self) -> bool {
        self.date == other.date && self.id == other.id && self.uid == other.uid
    }
}

impl Eq for Spot {
    ghost laws = { Prim.search (comparing, rules) };
}

impl PartialOrd for Spot {
    ghost partial_cmp = { as_partial_cmp spot_cmp };

    ghost laws = { partial_order_from_own_ties (Prim.search (comparing, rules)) (Prim.search (comparing, rules)) };

    fn partial_cmp(&self, other: &Self) -> Option<Ordering> {
        Some(self.cmp(other))
    }
}

// By hand, so that the order is the one that `spot_cmp` names.
impl Ord for Spot {
    ghost cmp = { spot_cmp };

    ghost total = { Prim.search (comparing, rules) };

    ghost matches_partial_cmp = { Prim.search (comparing, rules) };

    ghost matches_eq = { Prim.search (comparing, rules) };

    fn cmp(&self, other: &Self) -> Ordering {
        // The ids are read only where the dates are equal.
        match self.date.cmp(&other.date) {
            Ordering::Equal => self.id.cmp(&other.id).then(self.uid.cmp(&other.uid)),
            different => different,
        }
    }
}
