//! Copies of cards.
ghost use Rattle.std.specs.Prelude.{◌≡◌, IfOk};

use crate::card::{Attachment, Card, Update};
use crate::group_id::GroupId;
use kit::{Addr, Id, Memory, Text};
use lists::{Items, copy_option};

// A card is copied in five parts: what a copy has to give back when memory runs out grows with each field,
// and so does its proof.

/// Who wrote to whom.
#[derive(Drop)]
struct People {
    from: Addr,
    from_name: Text,
    to: Items<Addr>,
    cc: Items<Addr>,
}

/// The ids of a mail, and of those that it answers.
#[derive(Drop)]
struct Links {
    id: Id,
    replies: Items<Id>,
    references: Items<Id>,
}

/// The group, and whom the mail adds to it or removes.
#[derive(Drop)]
struct Group {
    group: Option<GroupId>,
    group_name: Text,
    added: Option<Addr>,
    removed: Option<Addr>,
}

/// What the mail shows.
#[derive(Drop)]
struct Shown {
    subject: Text,
    text: Text,
    attachments: Items<Attachment>,
}

/// What the mail does to other mails.
#[derive(Drop)]
struct Acts {
    edit: Option<Id>,
    deletes: Items<Id>,
    receipt: Option<Id>,
    updates: Items<Update>,
    reaction: Option<Text>,
}

fn copy_people(card: &Card) -> Result<People, Memory>
    ensures from { IfOk result (λ people. (people.from ≡ card.now.from) × (people.from_name ≡ card.now.from_name)) }
    ensures to { IfOk result (λ people. (people.to ≡ card.now.to) × (people.cc ≡ card.now.cc)) }
{
    Ok(People {
        from: card.from.copy()?,
        from_name: card.from_name.copy()?,
        to: card.to.copy()?,
        cc: card.cc.copy()?,
    })
}

fn copy_links(card: &Card) -> Result<Links, Memory>
    ensures { IfOk result (λ links. links ≡ record { id = card.now.id; replies = card.now.replies; references = card.now.references }) }
{
    Ok(Links {
        id: card.id.copy()?,
        replies: card.replies.copy()?,
        references: card.references.copy()?,
    })
}

fn copy_group(card: &Card) -> Result<Group, Memory>
    ensures { IfOk result (λ group. group ≡ record { group = card.now.group; group_name = card.now.group_name; added = card.now.added; removed = card.now.removed }) }
{
    Ok(Group {
        group: copy_option(&card.group)?,
        group_name: card.group_name.copy()?,
        added: copy_option(&card.added)?,
        removed: copy_option(&card.removed)?,
    })
}

fn copy_shown(card: &Card) -> Result<Shown, Memory>
    ensures { IfOk result (λ shown. shown ≡ record { subject = card.now.subject; text = card.now.text; attachments = card.now.attachments }) }
{
    Ok(Shown {
        subject: card.subject.copy()?,
        text: card.text.copy()?,
        attachments: card.attachments.copy()?,
    })
}

fn copy_acts(card: &Card) -> Result<Acts, Memory>
    ensures { IfOk result (λ acts. acts ≡ record { edit = card.now.edit; deletes = card.now.deletes; receipt = card.now.receipt; updates = card.now.updates; reaction = card.now.reaction }) }
{
    Ok(Acts {
        edit: copy_option(&card.edit)?,
        deletes: card.deletes.copy()?,
        receipt: copy_option(&card.receipt)?,
        updates: card.updates.copy()?,
        reaction: copy_option(&card.reaction)?,
    })
}

impl Card {
    /// A copy of the card. Takes memory; `Err` only when it runs out.
    pub fn copy(&self) -> Result<Self, Memory>
        ensures { IfOk result (λ copy. copy ≡ self.now) }
    {
        let people = copy_people(self)?;
        let links = copy_links(self)?;
        let group = copy_group(self)?;
        let shown = copy_shown(self)?;
        let acts = copy_acts(self)?;
        Ok(Card {
            id: links.id,
            from: people.from,
            from_name: people.from_name,
            to: people.to,
            cc: people.cc,
            date: self.date,
            replies: links.replies,
            references: links.references,
            chat: self.chat,
            group: group.group,
            group_name: group.group_name,
            added: group.added,
            removed: group.removed,
            renamed: self.renamed,
            edit: acts.edit,
            deletes: acts.deletes,
            timer: self.timer,
            subject: shown.subject,
            text: shown.text,
            cut: self.cut,
            attachments: shown.attachments,
            receipt: acts.receipt,
            app: self.app,
            updates: acts.updates,
            reaction: acts.reaction,
        })
    }
}
