//! Where a content card is.
ghost use Rattle.std.specs.Prelude.{◌≡◌, IfOk, option_map, true};
ghost use Rattle.mailbox_model.specs.Chats.{chat, cites};
ghost use Rattle.repair.specs.Places.{IsPlace, place_of, same_place};

use box_state::Mailbox;
use card_type::{ChatKey, Spot};
use indexes::View;
use kit::{Id, Memory};
use thread_links::Links;

/// Where a content card is.
#[derive(Drop)]
pub(crate) struct Place<'a> {
    /// The key of its chat.
    pub(crate) chat: ChatKey,
    /// Its spot in mail order.
    pub(crate) spot: &'a Spot,
}

/// The place of the card with an id in a mailbox, where it is in this chat.
pub(crate) fn place_before<'a>(
    mailbox: &'a Mailbox,
    key: Option<ChatKey>,
    id: &Id,
) -> Option<Place<'a>>
    requires { key ≡ chat mailbox.now.mailbox id.now }
    ensures { IsPlace mailbox.now.mailbox id.now result }
{
    mailbox.keeps_rules();
    let chat = key?;
    let spot = mailbox.spot_of(id).unwrap();
    Some(Place { chat, spot })
}

/// The place of the card with an id in the mailbox that is seen.
pub(crate) fn place_after<'a>(
    view: &'a View<'_>,
    links: &Links,
    id: &Id,
) -> Result<Option<Place<'a>>, Memory>
    requires whole { links.now.whole ≡ true }
    requires links { links.now.cites ≡ cites view.now }
    ensures { IfOk result (IsPlace view.now id.now) }
{
    view.keeps_rules();
    let Some(chat) = links.chat_of(id) else {
        return Ok(None);
    };
    let chat = chat.copy()?;
    let spot = view.spot_of(id).unwrap();
    Ok(Some(Place { chat, spot }))
}

/// Whether a card is at one place before and after.
pub(crate) fn is_same(before: &Option<Place<'_>>, after: &Option<Place<'_>>) -> bool
    ensures { result ≡ same_place (option_map place_of before.now) (option_map place_of after.now) }
{
    match (before, after) {
        (Some(before), Some(after)) => before.chat == after.chat && before.spot == after.spot,
        _ => false,
    }
}
