//! A chain of mails.
use kit::Memory;
use std::alloc::Global;

/// So many mails to three people as an mbox, the last first. Each but the first answers the one before it, and is a second later.
pub fn chain_of(alloc: Global, count: u64) -> Result<Vec<u8>, Memory> {
    let mut mbox = Vec::new(alloc);
    for later in 0..count {
        add_link(&mut mbox, alloc, count - later)?;
    }
    Ok(mbox)
}

/// Adds the mail with this number, which is the text of its body.
fn add_link(mbox: &mut Vec<u8>, alloc: Global, number: u64) -> Result<(), Memory> {
    let (hour, minute, second) = (number / 3_600 % 24, number / 60 % 60, number % 60);
    let head = format!(in alloc;
        "From -\nFrom: bob@x.org\nTo: me@x.org, eve@x.org\nDate: Wed, 01 May 2024 {hour:02}:{minute:02}:{second:02} +0000\nMessage-ID: <{number}@x.org>\n"
    )?;
    mbox.extend_from_slice(head.as_bytes())?;
    if number > 1 {
        let answered = number - 1;
        let field = format!(in alloc; "In-Reply-To: <{answered}@x.org>\n")?;
        mbox.extend_from_slice(field.as_bytes())?;
    }
    let text = format!(in alloc; "\n{number}\n\n")?;
    mbox.extend_from_slice(text.as_bytes())?;
    Ok(())
}
