//! Lists without repeats.
ghost use Rattle.std.specs.Prelude.{◌≡◌, IfOk};
ghost use Rattle.lists.specs.Distinct.{firsts};

use crate::items::Exact;
use kit::Memory;
use std::alloc::Global;
use std::collections::BTreeSet;

/// So many values, and fewer, are compared with each other.
const FEW: usize = 16;

/// Each of a few values once, where it first is.
fn few_once<T: Exact + Ord>(alloc: Global, values: Vec<T>) -> Result<Vec<T>, Memory>
    ensures { IfOk result (λ once. once.items ≡ firsts T.eq values.items) }
{
    let mut once = Vec::new(alloc);
    for value in values {
        if !once.contains(&value) {
            once.push(value)?;
        }
    }
    Ok(once)
}

/// Each of many values once, where it first is.
fn many_once<T: Exact + Ord>(alloc: Global, values: Vec<T>) -> Result<Vec<T>, Memory>
    ensures { IfOk result (λ once. once.items ≡ firsts T.eq values.items) }
{
    let mut once = Vec::new(alloc);
    let mut seen = BTreeSet::new(alloc);
    for value in values {
        if seen.insert(value.clone()?)? {
            once.push(value)?;
        }
    }
    Ok(once)
}

/// Each of the values once, where it first is, in their order. Up to 16 are compared with each other. More are copied
/// into a set, where a search takes time that grows with the logarithm of their number, since a hostile mail may name
/// millions. Takes memory; `Err` only when it runs out.
pub fn each_once<T: Exact + Ord>(alloc: Global, values: Vec<T>) -> Result<Vec<T>, Memory>
    ensures { IfOk result (λ once. once.items ≡ firsts T.eq values.items) }
{
    if values.len() <= FEW {
        few_once(alloc, values)
    } else {
        many_once(alloc, values)
    }
}
