//! The trial mailbox, beside what another program draws.
use crate::asserts::assert_same;
use box_maker::{box_bytes, make_box};
use kit::Addr;
use outside::{MemorySink, PrintFault};
use std::test::Fail;

/// The first 20 mails of 2,000 that the number 7 draws for `me@box.example`. They were made by another program.
const FIRST_MAILS: &str = "\
    From -\n\
    From: p1@box.example\n\
    To: me@box.example, p1@box.example\n\
    Date: 1 Jan 2024 21:08:00 +0000\n\
    Message-ID: <t1@box.example>\n\
    Chat-Version: 1.0\n\
    Chat-Delete: <t286@box.example>\n\
    \n\
    text 1\n\
    \n\
    From -\n\
    From: me@box.example\n\
    To: me@box.example, p1@box.example, p2@box.example, p3@box.example\n\
    Date: 15 Jan 2024 08:13:00 +0000\n\
    Message-ID: <t2@box.example>\n\
    Chat-Version: 1.0\n\
    Chat-Group-ID: trialgroup00\n\
    Chat-Group-Name: Group 0\n\
    \n\
    text 2\n\
    \n\
    From -\n\
    From: p2@box.example\n\
    To: me@box.example, p1@box.example\n\
    Date: 18 Jan 2024 14:48:00 +0000\n\
    Message-ID: <t3@box.example>\n\
    Chat-Version: 1.0\n\
    Chat-Edit: <t1051@box.example>\n\
    \n\
    text 3\n\
    \n\
    From -\n\
    From: p7@box.example\n\
    To: me@box.example, p1@box.example\n\
    Date: 7 Jan 2024 13:29:00 +0000\n\
    Message-ID: <t4@box.example>\n\
    Subject: Note 4\n\
    \n\
    text 4\n\
    \n\
    From -\n\
    From: p1@box.example\n\
    To: me@box.example, p1@box.example\n\
    Date: 5 Jan 2024 00:28:00 +0000\n\
    Message-ID: <t5@box.example>\n\
    Chat-Version: 1.0\n\
    Ephemeral-Timer: 60\n\
    \n\
    text 5\n\
    \n\
    From -\n\
    From: me@box.example\n\
    To: me@box.example, p1@box.example, p2@box.example, p3@box.example\n\
    Date: 6 Jan 2024 05:12:00 +0000\n\
    Message-ID: <t6@box.example>\n\
    Chat-Version: 1.0\n\
    Chat-Group-ID: trialgroup00\n\
    Chat-Group-Name: Group 0\n\
    \n\
    text 6\n\
    \n\
    From -\n\
    From: me@box.example\n\
    To: me@box.example, p1@box.example\n\
    Date: 10 Jan 2024 17:56:00 +0000\n\
    Message-ID: <t7@box.example>\n\
    Chat-Version: 1.0\n\
    Chat-Delete: <t1304@box.example>\n\
    \n\
    text 7\n\
    \n\
    From -\n\
    From: p4@box.example\n\
    To: me@box.example, p1@box.example, p2@box.example, p3@box.example\n\
    Date: 17 Jan 2024 18:51:00 +0000\n\
    Message-ID: <t8@box.example>\n\
    Chat-Version: 1.0\n\
    Chat-Group-ID: trialgroup00\n\
    Chat-Group-Name: Group 0\n\
    \n\
    text 8\n\
    \n\
    From -\n\
    From: p5@box.example\n\
    To: me@box.example, p1@box.example, p2@box.example\n\
    Date: 8 Jan 2024 14:35:00 +0000\n\
    Message-ID: <t9@box.example>\n\
    In-Reply-To: <t904@box.example>\n\
    \n\
    text 9\n\
    \n\
    From -\n\
    From: p6@box.example\n\
    To: me@box.example, p1@box.example, p2@box.example, p3@box.example\n\
    Date: 25 Jan 2024 23:53:00 +0000\n\
    Message-ID: <t10@box.example>\n\
    Chat-Version: 1.0\n\
    Chat-Group-ID: trialgroup04\n\
    Chat-Group-Name: Group 4\n\
    \n\
    text 10\n\
    \n\
    From -\n\
    From: p3@box.example\n\
    To: me@box.example, p1@box.example\n\
    Date: 7 Jan 2024 06:50:00 +0000\n\
    Message-ID: <t11@box.example>\n\
    Chat-Version: 1.0\n\
    Chat-Delete: <t447@box.example>\n\
    \n\
    text 11\n\
    \n\
    From -\n\
    From: p2@box.example\n\
    To: me@box.example, p1@box.example\n\
    Date: 23 Jan 2024 03:11:00 +0000\n\
    Message-ID: <t12@box.example>\n\
    Chat-Version: 1.0\n\
    Ephemeral-Timer: 60\n\
    \n\
    text 12\n\
    \n\
    From -\n\
    From: p1@box.example\n\
    To: me@box.example, p1@box.example\n\
    Date: 21 Jan 2024 02:24:00 +0000\n\
    Message-ID: <t13@box.example>\n\
    Chat-Version: 1.0\n\
    Ephemeral-Timer: 60\n\
    \n\
    text 13\n\
    \n\
    From -\n\
    From: p4@box.example\n\
    To: me@box.example, p1@box.example\n\
    Date: 22 Jan 2024 11:57:00 +0000\n\
    Message-ID: <t14@box.example>\n\
    Chat-Version: 1.0\n\
    Chat-Delete: <t1469@box.example>\n\
    \n\
    text 14\n\
    \n\
    From -\n\
    From: p7@box.example\n\
    To: me@box.example, p1@box.example, p2@box.example, p3@box.example\n\
    Date: 8 Jan 2024 07:37:00 +0000\n\
    Message-ID: <t15@box.example>\n\
    Chat-Version: 1.0\n\
    Chat-Group-ID: trialgroup01\n\
    Chat-Group-Name: Group 1\n\
    \n\
    text 15\n\
    \n\
    From -\n\
    From: p2@box.example\n\
    To: me@box.example, p1@box.example\n\
    Date: 12 Jan 2024 18:27:00 +0000\n\
    Message-ID: <t16@box.example>\n\
    Chat-Version: 1.0\n\
    Ephemeral-Timer: 60\n\
    \n\
    text 16\n\
    \n\
    From -\n\
    From: p7@box.example\n\
    To: me@box.example, p1@box.example, p2@box.example, p3@box.example\n\
    Date: 2 Jan 2024 21:45:00 +0000\n\
    Message-ID: <t17@box.example>\n\
    Chat-Version: 1.0\n\
    Chat-Group-ID: trialgroup04\n\
    Chat-Group-Name: Group 4\n\
    Chat-Group-Member-Added: p4@box.example\n\
    \n\
    text 17\n\
    \n\
    From -\n\
    From: me@box.example\n\
    To: me@box.example, p1@box.example, p2@box.example\n\
    Date: 1 Jan 2024 06:58:00 +0000\n\
    Message-ID: <t18@box.example>\n\
    In-Reply-To: <t307@box.example>\n\
    \n\
    text 18\n\
    \n\
    From -\n\
    From: p5@box.example\n\
    To: me@box.example, p1@box.example\n\
    Date: 11 Jan 2024 06:13:00 +0000\n\
    Message-ID: <t19@box.example>\n\
    Chat-Version: 1.0\n\
    Ephemeral-Timer: 60\n\
    \n\
    text 19\n\
    \n\
    From -\n\
    From: me@box.example\n\
    To: me@box.example, p1@box.example, p2@box.example, p3@box.example\n\
    Date: 26 Jan 2024 23:09:00 +0000\n\
    Message-ID: <t20@box.example>\n\
    Chat-Version: 1.0\n\
    Chat-Group-ID: trialgroup00\n\
    Chat-Group-Name: Group 0\n\
    \n\
    text 20\n\
    \n";

#[test]
fn the_trial_mailbox_is_that_of_another_program(rt: HostRuntime) -> Result<(), Fail> {
    let alloc = rt.alloc();
    let me = Addr::read(alloc, b"me@box.example")?.ok_or("no address")?;
    let bytes = box_bytes(alloc, 7, 2_000, &me)?;
    assert_same(&rt, bytes.len(), 427_999);
    assert!(rt; bytes.starts_with(FIRST_MAILS.as_bytes()));
    // It is put as it is made: the first put, and none.
    let mut out = MemorySink::new(alloc, 1_024, Vec::new(alloc))?;
    assert_same(&rt, make_box(alloc, 7, 1, &me, &mut out), Ok(()));
    assert_same(&rt, out.bytes(), box_bytes(alloc, 7, 1, &me)?.as_slice());
    let mut failing = MemorySink::new(alloc, 1_024, [1].to_vec(alloc)?)?;
    assert_same(
        &rt,
        make_box(alloc, 7, 1, &me, &mut failing),
        Err(PrintFault::Write),
    );
    Ok(())
}
