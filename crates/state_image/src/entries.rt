//! The mails of an image, read into a mailbox.
ghost use Rattle.std.specs.Prelude.{◌≡◌, ◌+◌, ◌≤◌, ◌<◌, true, length, IfOk, IfSome, IsTrue, OnOk, []};
ghost use Rattle.card_type.specs.Records as records;
ghost use Rattle.card_type.specs.Rules.{is_valid};
ghost use Rattle.mailbox_model.specs.Mailbox.{max_entries, max_total_weight, weight_read, IsMailbox};
ghost use Rattle.box_state.specs.Kept.{entry_in, with_entry};
ghost use Rattle.box_state.specs.declared.ready.Ready.TheVariants.{Unready};
ghost use Rattle.card_record.specs.Reading.{Moves, opt_of, times_of};
ghost use Rattle.state_image.specs.Images.{card_after, mail_after, uid_between, arrival_by, seen_between, last_uid, entry_at, entry_next, item_count_at, entries_at};

use crate::fault_code::fault_of;
use box_state::{Entry, Mailbox};
use card_record::{ReadFault, Rest, read_flag, read_record};
use card_type::Card;
use mailbox_model::{Fault, MAX_MAILS, MAX_TOTAL_WEIGHT};
use std::alloc::Global;

/// Takes a uid after `last` and before `next`.
fn read_uid(last: u32, next: u32, rest: &mut Rest<'_>) -> Result<u32, ReadFault>
    ensures uid { Moves (λ n. n) result (uid_between last next rest.old) rest.new }
    ensures above { IfOk result (λ n. last < n) }
    ensures below { IfOk result (λ n. n < next) }
{
    let left = rest.len();
    let uid = rest.b32()?;
    if uid <= last || next <= uid {
        return Err(ReadFault::Malformed(left));
    }
    Ok(uid)
}

/// Takes a moment of arrival, which is not to come.
fn read_arrival(now: u64, rest: &mut Rest<'_>) -> Result<u64, ReadFault>
    ensures arrival { Moves (λ n. n) result (arrival_by now rest.old) rest.new }
    ensures by { IfOk result (λ n. n ≤ now) }
{
    let left = rest.len();
    let arrival = rest.b64()?;
    if now < arrival {
        return Err(ReadFault::Malformed(left));
    }
    Ok(arrival)
}

/// Takes a moment from the arrival until now.
fn read_seen(arrival: u64, now: u64, rest: &mut Rest<'_>) -> Result<u64, ReadFault>
    ensures seen { Moves (λ n. n) result (seen_between arrival now rest.old) rest.new }
    ensures after { IfOk result (λ n. arrival ≤ n) }
    ensures by { IfOk result (λ n. n ≤ now) }
{
    let left = rest.len();
    let seen = rest.b64()?;
    if seen < arrival || now < seen {
        return Err(ReadFault::Malformed(left));
    }
    Ok(seen)
}

/// Takes the moment at which a mail was seen, where it was.
#[tactic(auto, unfolding(card_record::specs::Reading::opt_of))]
fn read_opt_seen(arrival: u64, now: u64, rest: &mut Rest<'_>) -> Result<Option<u64>, ReadFault>
    ensures seen { Moves (λ n. n) result (opt_of (seen_between arrival now) rest.old) rest.new }
    ensures after { IfOk result (λ seen. IfSome seen (λ n. arrival ≤ n)) }
    ensures by { IfOk result (λ seen. IfSome seen (λ n. n ≤ now)) }
{
    if !read_flag(rest)? {
        return Ok(None);
    }
    Ok(Some(read_seen(arrival, now, rest)?))
}

/// Takes a card with which the weights stay within their limit, where those before it weigh so much. Beside it is its own
/// weight, which is the number of its bytes.
fn read_card(alloc: Global, before: u64, rest: &mut Rest<'_>) -> Result<(Card, u64), ReadFault>
    ensures card { Moves (λ read. read.0) result (card_after before rest.old) rest.new }
    ensures weight { IfOk result (λ read. read.1 ≡ records.weight read.0) }
    ensures light { IfOk result (λ read. before + read.1 ≤ max_total_weight) }
    ensures valid { IfOk result (λ read. IsTrue (is_valid read.0)) }
{
    let left = rest.len();
    let card = read_record(alloc, rest)?;
    let weight = (left - rest.len()) as u64;
    if MAX_TOTAL_WEIGHT < before.saturating_add(weight) {
        return Err(ReadFault::Malformed(left));
    }
    Ok((card, weight))
}

/// Takes a card with its weight, or the reason why there is none, which weighs nothing.
#[tactic(auto, unfolding(crate::specs::Images::mail_after))]
fn read_mail(
    alloc: Global,
    before: u64,
    rest: &mut Rest<'_>,
) -> Result<(Result<Card, Fault>, u64), ReadFault>
    requires { before ≤ max_total_weight }
    ensures mail { Moves (λ mail. mail.0) result (mail_after before rest.old) rest.new }
    ensures weight { IfOk result (λ mail. mail.1 ≡ weight_read mail.0) }
    ensures light { IfOk result (λ mail. before + mail.1 ≤ max_total_weight) }
    ensures valid { IfOk result (λ mail. IfOk mail.0 (λ card. IsTrue (is_valid card))) }
{
    let left = rest.len();
    let code = rest.b8()?;
    if code == 0 {
        let (card, weight) = read_card(alloc, before, rest)?;
        return Ok((Ok(card), weight));
    }
    match fault_of(code) {
        Some(fault) => Ok((Err(fault), 0)),
        None => Err(ReadFault::Malformed(left)),
    }
}

/// The uid of the last mail, and 0 where there is none.
fn last_uid(mailbox: &Mailbox) -> u32
    ensures { result ≡ last_uid mailbox.now.mailbox.entries }
{
    match mailbox.items().last() {
        Some(item) => item.uid,
        None => 0,
    }
}

/// Takes the mail that follows those of a mailbox, with its weight.
#[tactic(auto, unfolding(crate::specs::Images::entry_after))]
fn read_entry(
    alloc: Global,
    mailbox: &Mailbox,
    rest: &mut Rest<'_>,
) -> Result<(Entry, u64), ReadFault>
    requires room { length mailbox.now.mailbox.entries < max_entries }
    ensures entry { Moves (λ read. entry_in read.0) result (entry_next mailbox.now.mailbox rest.old) rest.new }
    ensures weight { IfOk result (λ read. read.1 ≡ weight_read read.0.read) }
    ensures rules { IfOk result (λ read. IsMailbox (with_entry mailbox.now.mailbox (entry_in read.0))) }
{
    mailbox.keeps_rules();
    let now = mailbox.now();
    let uid = read_uid(last_uid(mailbox), mailbox.next_uid(), rest)?;
    let arrival = read_arrival(now, rest)?;
    let seen = read_opt_seen(arrival, now, rest)?;
    let (read, weight) = read_mail(alloc, mailbox.weight(), rest)?;
    let entry = Entry {
        uid,
        arrival,
        seen,
        read,
    };
    Ok((entry, weight))
}

/// Takes so many mails into a mailbox that has none.
fn read_times(
    alloc: Global,
    mailbox: &mut Mailbox,
    count: u32,
    rest: &mut Rest<'_>,
) -> Result<(), ReadFault>
    requires none { mailbox.old.mailbox.entries ≡ [] }
    requires few { count ≤ max_entries }
    requires ready { mailbox.old.ready ≡ Unready }
    ensures entries { Moves (λ _. mailbox.new.mailbox.entries) result
        (times_of (entry_at mailbox.old.mailbox.now mailbox.old.mailbox.next_uid) [] count rest.old) rest.new }
    ensures same { OnOk result (mailbox.new.mailbox ≡ record mailbox.old.mailbox { entries = mailbox.new.mailbox.entries }) }
    ensures ready { OnOk result (mailbox.new.ready ≡ Unready) }
{
    for _ in 0..count {
        let (entry, weight) = read_entry(alloc, mailbox, rest)?;
        mailbox.put_back(entry, weight)?;
    }
    Ok(())
}

/// Takes the number of mails.
fn read_count(rest: &mut Rest<'_>) -> Result<u32, ReadFault>
    ensures count { Moves (λ n. n) result (item_count_at rest.old) rest.new }
    ensures few { IfOk result (λ n. n ≤ max_entries) }
{
    let left = rest.len();
    let count = rest.b32()?;
    if MAX_MAILS < count {
        return Err(ReadFault::Malformed(left));
    }
    Ok(count)
}

/// Takes the mails, after their number, into a mailbox that has none.
#[tactic(auto, unfolding(crate::specs::Images::entries_at))]
pub fn read_entries(
    alloc: Global,
    mailbox: &mut Mailbox,
    rest: &mut Rest<'_>,
) -> Result<(), ReadFault>
    requires none { mailbox.old.mailbox.entries ≡ [] }
    ensures entries { Moves (λ _. mailbox.new.mailbox.entries) result
        (entries_at mailbox.old.mailbox.now mailbox.old.mailbox.next_uid rest.old) rest.new }
    ensures same { OnOk result (mailbox.new.mailbox ≡ record mailbox.old.mailbox { entries = mailbox.new.mailbox.entries }) }
    ensures ready { OnOk result (mailbox.new.ready ≡ Unready) }
{
    let count = read_count(rest)?;
    // No mail has fewer bytes than 14, so a wrong number takes no more room than the bytes may need.
    mailbox.make_room((count as usize).min(rest.len() / 14))?;
    read_times(alloc, mailbox, count, rest)
}
