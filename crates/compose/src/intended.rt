//! The card that a draft is to be read as.
ghost use Rattle.std.specs.Prelude.{◌≡◌, [], IfOk, codes, if◌then◌else◌, is_some, length, None, Some};
ghost use Rattle.lists.specs.Distinct.{each_once};
ghost use Rattle.compose.specs.Intended.{added, deleted, edited, intended, named_group, notification, notifications, old_name, one_or_none, reacts, receipt_for, removed};

use crate::content::push_notification;
use crate::draft::{Act, Draft};
use card_type::{Attachment, Card, GroupId};
use kit::{Addr, Id, Memory, Text};
use lists::{Items, copy_option, each_once};
use std::alloc::Global;

// The card is made in five parts: what has to be given back when memory runs out grows with each field, and so does its
// proof.

/// Who writes to whom.
#[derive(Drop)]
struct People {
    from: Addr,
    from_name: Text,
    to: Items<Addr>,
}

/// The ids of the mail, and of those that it answers.
#[derive(Drop)]
struct Links {
    id: Id,
    replies: Items<Id>,
    references: Items<Id>,
}

/// The group, and whom the mail adds to it or removes.
#[derive(Drop)]
struct Group {
    group: Option<GroupId>,
    group_name: Text,
    added: Option<Addr>,
    removed: Option<Addr>,
}

/// What the mail does to other mails.
#[derive(Drop)]
struct Effects {
    edit: Option<Id>,
    deletes: Items<Id>,
    receipt: Option<Id>,
    reaction: Option<Text>,
}

/// What the mail shows.
#[derive(Drop)]
struct Shown {
    subject: Text,
    text: Text,
    attachments: Items<Attachment>,
}

fn copies(alloc: Global, addrs: &[Addr]) -> Result<Vec<Addr>, Memory>
    ensures { IfOk result (λ copies. copies.items ≡ addrs.now) }
{
    let mut copies = Vec::new(alloc);
    for addr in addrs {
        copies.push(addr.copy()?)?;
    }
    Ok(copies)
}

/// Each address once, where it first is.
fn once(alloc: Global, addrs: &Items<Addr>) -> Result<Items<Addr>, Memory>
    ensures { IfOk result (λ once. once ≡ each_once addrs.now) }
{
    let copies = copies(alloc, addrs.as_slice())?;
    Ok(Items::from(each_once(alloc, copies)?))
}

fn people_of(alloc: Global, draft: &Draft) -> Result<People, Memory>
    ensures { IfOk result (λ people. people ≡ record { from = draft.now.from; from_name = draft.now.from_name; to = each_once draft.now.to }) }
{
    Ok(People {
        from: draft.from.copy()?,
        from_name: draft.from_name.copy()?,
        to: once(alloc, &draft.to)?,
    })
}

fn replies_of(alloc: Global, reply: &Option<Id>) -> Result<Items<Id>, Memory>
    ensures { IfOk result (λ replies. replies ≡ one_or_none reply.now) }
{
    let mut replies = Items::new(alloc);
    if let Some(id) = reply {
        replies.push(id.copy()?)?;
    }
    Ok(replies)
}

fn links_of(alloc: Global, draft: &Draft) -> Result<Links, Memory>
    ensures { IfOk result (λ links. links ≡ record { id = draft.now.id; replies = one_or_none draft.now.reply; references = draft.now.references }) }
{
    Ok(Links {
        id: draft.id.copy()?,
        replies: replies_of(alloc, &draft.reply)?,
        references: draft.references.copy()?,
    })
}

/// The name of a group, which counts only with one.
fn group_name_of(alloc: Global, group: &Option<GroupId>, name: &Text) -> Result<Text, Memory>
    ensures { IfOk result (λ kept. kept ≡ named_group group.now name.now) }
{
    match group {
        Some(_) => name.copy(),
        None => Ok(Text::from(String::new(alloc))),
    }
}

fn added(act: &Act) -> Result<Option<Addr>, Memory>
    ensures { IfOk result (λ who. who ≡ added act.now) }
{
    match act {
        Act::Add(who) => Ok(Some(who.copy()?)),
        _ => Ok(None),
    }
}

fn removed(act: &Act) -> Result<Option<Addr>, Memory>
    ensures { IfOk result (λ who. who ≡ removed act.now) }
{
    match act {
        Act::Remove(who) => Ok(Some(who.copy()?)),
        _ => Ok(None),
    }
}

fn group_of(alloc: Global, draft: &Draft) -> Result<Group, Memory>
    ensures { let d = draft.now in
        IfOk result (λ group. group ≡ record { group = d.group; group_name = named_group d.group d.group_name; added = added d.act; removed = removed d.act }) }
{
    Ok(Group {
        group: copy_option(&draft.group)?,
        group_name: group_name_of(alloc, &draft.group, &draft.group_name)?,
        added: added(&draft.act)?,
        removed: removed(&draft.act)?,
    })
}

fn renames(act: &Act) -> bool
    ensures { result ≡ is_some (old_name act.now) }
{
    matches!(act, Act::Rename(_))
}

fn edited(act: &Act) -> Result<Option<Id>, Memory>
    ensures { IfOk result (λ id. id ≡ edited act.now) }
{
    match act {
        Act::Edit(id) => Ok(Some(id.copy()?)),
        _ => Ok(None),
    }
}

fn deleted(alloc: Global, act: &Act) -> Result<Items<Id>, Memory>
    ensures { IfOk result (λ mails. mails ≡ deleted act.now) }
{
    match act {
        Act::Delete(mails) => mails.copy(),
        _ => Ok(Items::new(alloc)),
    }
}

fn receipt_for(act: &Act) -> Result<Option<Id>, Memory>
    ensures { IfOk result (λ id. id ≡ receipt_for act.now) }
{
    match act {
        Act::Receipt(id) => Ok(Some(id.copy()?)),
        _ => Ok(None),
    }
}

fn reaction_of(act: &Act, text: &Text) -> Result<Option<Text>, Memory>
    ensures { IfOk result (λ reaction. reaction ≡ (if reacts act.now then Some text.now else None)) }
{
    match act {
        Act::React => Ok(Some(text.copy()?)),
        _ => Ok(None),
    }
}

fn effects_of(alloc: Global, draft: &Draft) -> Result<Effects, Memory>
    ensures { let d = draft.now in
        IfOk result (λ effects. effects ≡ record { edit = edited d.act; deletes = deleted d.act; receipt = receipt_for d.act; reaction = (if reacts d.act then Some d.text else None) }) }
{
    Ok(Effects {
        edit: edited(&draft.act)?,
        deletes: deleted(alloc, &draft.act)?,
        receipt: receipt_for(&draft.act)?,
        reaction: reaction_of(&draft.act, &draft.text)?,
    })
}

/// The notification of a receipt, as a file.
fn notification_file(alloc: Global, from: &Addr, id: &Id) -> Result<Attachment, Memory>
    ensures { IfOk result (λ file. file ≡ record { kind = codes "message/disposition-notification"; name = []; size = length (notification from.now id.now) }) }
{
    let mut content = Vec::new(alloc);
    push_notification(&mut content, from, id)?;
    Ok(Attachment {
        kind: Text::from(String::from_str(alloc, "message/disposition-notification")?),
        name: Text::from(String::new(alloc)),
        size: content.len() as u64,
    })
}

fn files_of(alloc: Global, from: &Addr, act: &Act) -> Result<Items<Attachment>, Memory>
    ensures { IfOk result (λ files. files ≡ notifications from.now (receipt_for act.now)) }
{
    let mut files = Items::new(alloc);
    if let Act::Receipt(id) = act {
        files.push(notification_file(alloc, from, id)?)?;
    }
    Ok(files)
}

/// The text of a card: a reaction is none.
fn text_of(alloc: Global, act: &Act, text: &Text) -> Result<Text, Memory>
    ensures { IfOk result (λ shown. shown ≡ (if reacts act.now then [] else text.now)) }
{
    match act {
        Act::React => Ok(Text::from(String::new(alloc))),
        _ => text.copy(),
    }
}

fn shown_of(alloc: Global, draft: &Draft) -> Result<Shown, Memory>
    ensures { let d = draft.now in
        IfOk result (λ shown. shown ≡ record { subject = d.subject; text = (if reacts d.act then [] else d.text); attachments = notifications d.from (receipt_for d.act) }) }
{
    Ok(Shown {
        subject: draft.subject.copy()?,
        text: text_of(alloc, &draft.act, &draft.text)?,
        attachments: files_of(alloc, &draft.from, &draft.act)?,
    })
}

/// The card that a draft is to be read as. Takes memory; `Err` only when it runs out.
pub fn intended(alloc: Global, draft: &Draft) -> Result<Card, Memory>
    ensures { IfOk result (λ card. card ≡ intended draft.now) }
{
    let people = people_of(alloc, draft)?;
    let links = links_of(alloc, draft)?;
    let group = group_of(alloc, draft)?;
    let effects = effects_of(alloc, draft)?;
    let shown = shown_of(alloc, draft)?;
    Ok(Card {
        id: links.id,
        from: people.from,
        from_name: people.from_name,
        to: people.to,
        cc: Items::new(alloc),
        date: Some(draft.date),
        replies: links.replies,
        references: links.references,
        chat: true,
        group: group.group,
        group_name: group.group_name,
        added: group.added,
        removed: group.removed,
        renamed: renames(&draft.act),
        edit: effects.edit,
        deletes: effects.deletes,
        timer: draft.timer,
        subject: shown.subject,
        text: shown.text,
        cut: false,
        attachments: shown.attachments,
        receipt: effects.receipt,
        app: false,
        updates: Items::new(alloc),
        reaction: effects.reaction,
    })
}
