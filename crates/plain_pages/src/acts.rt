//! Mails made by numbers that act on others.
use crate::drawn::{COUNT, author, id_of};
use crate::draws::Draw;
use crate::stop::Stop;
use crate::values::addr;
use card_type::{Card, Payload, Update};
use kit::Text;
use std::alloc::Global;

/// Sent by the one who sent the mail with a number, or now and then by another one.
fn sign(alloc: Global, card: &mut Card, draw: &mut Draw, target: u32) -> Result<(), Stop> {
    if draw.below(4) != 0 {
        card.from = addr(alloc, author(target))?;
    }
    Ok(())
}

/// An edit.
pub(crate) fn edit(alloc: Global, card: &mut Card, draw: &mut Draw) -> Result<(), Stop> {
    let target = draw.below(COUNT);
    sign(alloc, card, draw, target)?;
    card.edit = Some(id_of(alloc, target)?);
    card.cut = draw.below(4) == 0;
    Ok(())
}

/// It takes back one mail or two.
pub(crate) fn delete(alloc: Global, card: &mut Card, draw: &mut Draw) -> Result<(), Stop> {
    let target = draw.below(COUNT);
    sign(alloc, card, draw, target)?;
    card.deletes.push(id_of(alloc, target)?)?;
    if draw.below(2) == 0 {
        card.deletes.push(id_of(alloc, draw.below(COUNT))?)?;
    }
    Ok(())
}

/// A receipt, mostly for a mail of one's own.
pub(crate) fn receive(alloc: Global, card: &mut Card, draw: &mut Draw) -> Result<(), Stop> {
    let target = draw.below(75);
    let target = if target < 60 { 5 * target } else { target };
    card.receipt = Some(id_of(alloc, target)?);
    Ok(())
}

/// An update.
fn an_update(alloc: Global, draw: &mut Draw) -> Result<Update, Stop> {
    let payload = match draw.below(3) {
        0 => Payload::Hidden,
        1 => Payload::Absent,
        _ => Payload::Json(Text::from(format!(in alloc; "{}", draw.below(100))?)),
    };
    let info = match draw.below(2) {
        0 => None,
        _ => Some(Text::from(format!(in alloc; "move {}", draw.below(100))?)),
    };
    Ok(Update {
        payload,
        info,
        document: None,
        summary: None,
    })
}

/// It brings an update or two, mostly to an app.
pub(crate) fn bring(alloc: Global, card: &mut Card, draw: &mut Draw) -> Result<(), Stop> {
    let target = draw.below(36);
    let target = if target < 30 { 10 * target + 3 } else { target };
    sign(alloc, card, draw, target)?;
    card.replies.push(id_of(alloc, target)?)?;
    card.updates.push(an_update(alloc, draw)?)?;
    if draw.below(2) == 0 {
        card.updates.push(an_update(alloc, draw)?)?;
    }
    Ok(())
}
