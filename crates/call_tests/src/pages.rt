//! Pages that no mails bring, byte by byte, and pages that are put to a sink that fails.
ghost use Rattle.std.specs.Prelude.{All, IfOk, IfSome};
ghost use Rattle.chat_print.specs.Moments.{HasMoment, IsMoment, ReaderHasMoment, RowHasMoments};

use crate::asserts::assert_same;
use crate::split_sink::SplitSink;
use crate::values::{addr, addrs, id, key, text};
use card_type::{Attachment, Payload, Update};
use chat_print::{print_chat, print_contacts, print_list};
use kit::{Addr, LAST_MOMENT};
use lists::Items;
use mailbox_model::{
    ChatPage, ContactRow, Fault, FaultRow, ListPage, ListRow, Mark, Row, UpdateRow,
};
use outside::{MemorySink, PrintFault};
use std::alloc::Global;
use std::process::Abort;
use std::test::Fail;

/// 2024-05-01 10:00:00 UTC.
const TEN: u64 = 1_714_557_600;

/// A chat in the list: its key, its name, how many rows are fresh, the date of the last row, and its body.
type Listed<'a> = (&'a str, &'a str, u32, Option<u64>, &'a str);

/// Rows and faults of the list, and the list that is printed.
const LISTS: [(&[Listed<'static>], &[(u32, Fault)], &str); 3] = [
    (
        &[],
        &[
            (1, Fault::NoFields),
            (2, Fault::NoFrom),
            (30, Fault::CardTooLong),
            (4_294_967_294, Fault::TooLong),
        ],
        "fault 1 no fields\nfault 2 no From\nfault 30 card too long\nfault 4294967294 mail too long\n",
    ),
    (
        &[
            (
                "self",
                "A\tB\u{7f}C",
                0,
                Some(59),
                "a\nb\r\u{0}\u{1f} \u{85}",
            ),
            ("self", "  ", 4_294_967_295, Some(LAST_MOMENT), ""),
        ],
        &[],
        "self | A B C | fresh 0 | 1970-01-01 00:00 | a b    \u{85}\n\
        self |    | fresh 4294967295 | 9999-12-31 23:59 | \n",
    ),
    (
        &[(
            "self",
            "self",
            0,
            Some(TEN + 3_599),
            "123456789 123456789 123456789 123456789 123456789 123456789\n",
        )],
        &[],
        "self | self | fresh 0 | 2024-05-01 10:59 | 123456789 123456789 123456789 123456789 123456789 123456789 \n",
    ),
];

/// A row of a chat: its uid, its date, its sender, its mark, whether a chat program sent it, its subject and its text.
type Shown<'a> = (u32, u64, &'a str, Mark, bool, &'a str, &'a str);

/// A file: its kind, its size and its name.
type File<'a> = (&'a str, u64, &'a str);

/// A row, whether it is cut, whether it is edited, its files, its readers with the date of each, and how many updates there are
/// of its app.
type Full<'a> = (
    Shown<'a>,
    bool,
    bool,
    &'a [File<'a>],
    &'a [(&'a str, u64)],
    Option<u32>,
);

/// A chat: its key, its name, its members and its timer.
type Chat<'a> = (&'a str, &'a str, &'a [&'a str], u32);

/// A row that says Hi.
const HI: Shown<'static> = (1, TEN, "bob@x.org", Mark::Seen, true, "", "Hi");

/// Chats with their rows, and the pages that are printed.
const CHATS: [(Chat<'static>, &[Full<'static>], &str); 3] = [
    (
        ("self", "se\nlf", &[], 4_294_967_295),
        &[(
            (7, TEN + 59, "me@x.org", Mark::Out, true, "", ""),
            false,
            false,
            &[("a/b", 18_446_744_073_709_551_615, " "), ("c/d", 0, "e\nf")],
            &[("ann@x.org", TEN + 119), ("bob@x.org", LAST_MOMENT)],
            Some(2),
        )],
        "chat self\nname se lf\nmembers \ntimer 4294967295\n\
        #7 2024-05-01 10:00 me@x.org out: (no text)\n\
        \u{20} file a/b 18446744073709551615  \n\
        \u{20} file c/d 0 e f\n\
        \u{20} read by ann@x.org 2024-05-01 10:01\n\
        \u{20} read by bob@x.org 9999-12-31 23:59\n\
        \u{20} updates 2\n",
    ),
    (
        ("thread:t@x.org", "T", &["me@x.org"], 0),
        &[(
            (
                1,
                TEN,
                "bob@x.org",
                Mark::Seen,
                false,
                "A\nB",
                "one\n> two\u{7f}",
            ),
            false,
            false,
            &[],
            &[],
            None,
        )],
        "chat thread:t@x.org\nname T\nmembers me@x.org\ntimer 0\n\
        #1 2024-05-01 10:00 bob@x.org seen: [A B] one > two \n",
    ),
    (
        ("self", "self", &[], 0),
        &[
            (HI, true, false, &[], &[], None),
            (HI, false, true, &[], &[], None),
            (HI, true, true, &[], &[], None),
            (
                (1, TEN, "bob@x.org", Mark::Seen, false, "", ""),
                true,
                false,
                &[],
                &[],
                None,
            ),
        ],
        "chat self\nname self\nmembers \ntimer 0\n\
        #1 2024-05-01 10:00 bob@x.org seen: Hi [cut]\n\
        #1 2024-05-01 10:00 bob@x.org seen: Hi [edited]\n\
        #1 2024-05-01 10:00 bob@x.org seen: Hi [cut] [edited]\n\
        #1 2024-05-01 10:00 bob@x.org seen:  [cut]\n",
    ),
];

fn moment(date: u64) -> u64
    ensures { IsMoment result }
{
    date.min(LAST_MOMENT)
}

fn time(date: Option<u64>) -> Option<u64>
    ensures { IfSome result IsMoment }
{
    match date {
        Some(date) => Some(moment(date)),
        None => None,
    }
}

/// An empty sink, whose put with this number fails.
fn sink(alloc: Global, fails: u64) -> Result<MemorySink, Fail> {
    Ok(MemorySink::new(alloc, 4_096, [fails].to_vec(alloc)?)?)
}

fn list_row(alloc: Global, listed: &Listed) -> Result<ListRow, Fail>
    ensures { IfOk result HasMoment }
{
    let (chat, name, fresh, date, body) = *listed;
    let key = key(alloc, chat)?;
    let name = text(alloc, name)?;
    let body = text(alloc, body)?;
    Ok(ListRow {
        key,
        name,
        fresh,
        time: time(date),
        body,
    })
}

fn list_rows(alloc: Global, table: &[Listed]) -> Result<Items<ListRow>, Fail>
    ensures { IfOk result (All HasMoment) }
{
    let mut rows = Items::new(alloc);
    for listed in table {
        rows.push(list_row(alloc, listed)?)?;
    }
    Ok(rows)
}

fn fault_rows(alloc: Global, table: &[(u32, Fault)]) -> Result<Items<FaultRow>, Fail> {
    let mut rows = Items::new(alloc);
    for (uid, fault) in table {
        rows.push(FaultRow {
            uid: *uid,
            fault: *fault,
        })?;
    }
    Ok(rows)
}

/// The printed list, put to a sink at once: a second put would fail.
fn printed_list(
    alloc: Global,
    table: &[Listed],
    faults: &[(u32, Fault)],
) -> Result<MemorySink, Fail> {
    let faults = fault_rows(alloc, faults)?;
    let rows = list_rows(alloc, table)?;
    let mut out = sink(alloc, 2)?;
    print_list(alloc, &ListPage { rows, faults }, &mut out)?;
    Ok(out)
}

fn files(alloc: Global, table: &[File]) -> Result<Items<Attachment>, Fail> {
    let mut files = Items::new(alloc);
    for (kind, size, name) in table {
        let kind = text(alloc, kind)?;
        let name = text(alloc, name)?;
        files.push(Attachment {
            kind,
            name,
            size: *size,
        })?;
    }
    Ok(files)
}

fn readers(alloc: Global, table: &[(&str, u64)]) -> Result<Items<(Addr, u64)>, Fail>
    ensures { IfOk result (All ReaderHasMoment) }
{
    let mut readers = Items::new(alloc);
    for (reader, date) in table {
        readers.push((addr(alloc, reader)?, moment(*date)))?;
    }
    Ok(readers)
}

/// So many updates with nothing in them.
fn empty_updates(alloc: Global, count: u32) -> Result<Items<UpdateRow>, Fail> {
    let mut rows = Items::new(alloc);
    for serial in 0..count {
        rows.push(UpdateRow {
            serial,
            uid: 7,
            part: 0,
            from: addr(alloc, "bob@x.org")?,
            update: Update {
                payload: Payload::Absent,
                info: None,
                document: None,
                summary: None,
            },
        })?;
    }
    Ok(rows)
}

/// The row of a mail without files, readers, reactions and an app.
fn bare_row(alloc: Global, shown: &Shown) -> Result<Row, Fail>
    ensures { IfOk result RowHasMoments }
{
    let (uid, date, from, mark, chat, subject, said) = *shown;
    let id = id(alloc, "m@x.org")?;
    let from = addr(alloc, from)?;
    let subject = text(alloc, subject)?;
    let said = text(alloc, said)?;
    Ok(Row {
        uid,
        id,
        date: moment(date),
        from,
        chat,
        subject,
        text: said,
        cut: false,
        edited: false,
        mark,
        attachments: Items::new(alloc),
        readers: Items::new(alloc),
        reactions: Items::new(alloc),
        app: false,
        updates: Items::new(alloc),
    })
}

fn full_row(alloc: Global, full: &Full) -> Result<Row, Fail>
    ensures { IfOk result RowHasMoments }
{
    let (shown, cut, edited, attached, read, updates) = full;
    let attachments = files(alloc, attached)?;
    let readers = readers(alloc, read)?;
    let given = empty_updates(alloc, updates.unwrap_or(0))?;
    let mut row = bare_row(alloc, shown)?;
    row.cut = *cut;
    row.edited = *edited;
    row.attachments = attachments;
    row.readers = readers;
    row.app = updates.is_some();
    row.updates = given;
    Ok(row)
}

fn full_rows(alloc: Global, table: &[Full]) -> Result<Items<Row>, Fail>
    ensures { IfOk result (All RowHasMoments) }
{
    let mut rows = Items::new(alloc);
    for full in table {
        rows.push(full_row(alloc, full)?)?;
    }
    Ok(rows)
}

/// The printed page of a chat with these rows, put to a sink at once.
fn printed_chat(alloc: Global, chat: &Chat, rows: Items<Row>) -> Result<MemorySink, Fail>
    requires { All RowHasMoments rows }
{
    let (bytes, name, in_it, timer) = *chat;
    let key = key(alloc, bytes)?;
    let name = text(alloc, name)?;
    let members = addrs(alloc, in_it)?;
    let page = ChatPage {
        key,
        name,
        members,
        timer,
        rows,
    };
    let mut out = sink(alloc, 2)?;
    print_chat(alloc, &page, &mut out)?;
    Ok(out)
}

#[test]
fn pages_are_printed(rt: HostRuntime) -> Result<(), Fail> {
    let alloc = rt.alloc();
    for &(table, faults, expected) in &LISTS {
        let out = printed_list(alloc, table, faults)?;
        assert_same(&rt, str::from_utf8(out.bytes())?, expected);
    }
    for &(chat, table, expected) in &CHATS {
        let out = printed_chat(alloc, &chat, full_rows(alloc, table)?)?;
        assert_same(&rt, str::from_utf8(out.bytes())?, expected);
    }
    Ok(())
}

fn contact(alloc: Global, bytes: &str, name: &str) -> Result<ContactRow, Fail> {
    let addr = addr(alloc, bytes)?;
    let name = text(alloc, name)?;
    Ok(ContactRow { addr, name })
}

fn two_contacts(alloc: Global) -> Result<Vec<ContactRow>, Fail> {
    let mut rows = Vec::new(alloc);
    rows.push(contact(alloc, "ann@x.org", "Ann")?)?;
    rows.push(contact(alloc, "bob@x.org", "B\u{1}b")?)?;
    Ok(rows)
}

/// These rows as they are printed.
const PRINTED: &str = "ann@x.org | Ann\nbob@x.org | B b\n";

/// Of the first byte, the last one and none that at which a sink fails, what printing the rows answers then, and what was put.
const FAILING: [(u64, Result<(), PrintFault>, &str); 3] = [
    (1, Err(PrintFault::Write), ""),
    (
        2,
        Err(PrintFault::Write),
        "ann@x.org | Ann\nbob@x.org | B b",
    ),
    (3, Ok(()), PRINTED),
];

/// A sink that fails within a page is a write fault.
fn fail_within<R: Abort>(rt: &R, alloc: Global, rows: &[ContactRow]) -> Result<(), Fail> {
    for &(fails, answer, put) in &FAILING {
        let sink = sink(alloc, fails)?;
        let mut out = SplitSink { sink };
        assert_same(rt, print_contacts(alloc, rows, &mut out), answer);
        assert_same(rt, str::from_utf8(out.sink.bytes())?, put);
    }
    Ok(())
}

/// A page is put again where a put failed; only the first put of this sink fails.
fn are_put_again<R: Abort>(
    rt: &R,
    alloc: Global,
    rows: &[ContactRow],
    out: &mut MemorySink,
) -> Result<(), Fail> {
    let failed = print_contacts(alloc, rows, out);
    assert_same(rt, failed, Err(PrintFault::Write));
    print_contacts(alloc, rows, out)?;
    assert_same(rt, str::from_utf8(out.bytes())?, PRINTED);
    Ok(())
}

#[test]
fn pages_are_put_to_a_sink_that_fails(rt: HostRuntime) -> Result<(), Fail> {
    let alloc = rt.alloc();
    let rows = two_contacts(alloc)?;
    fail_within(&rt, alloc, &rows)?;
    are_put_again(&rt, alloc, &rows, &mut sink(alloc, 1)?)
}
