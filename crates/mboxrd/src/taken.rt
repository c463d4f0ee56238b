//! What a reader of an mbox answers.

/// The next mail of an mbox, or why there is none.
#[derive(Debug, Drop)]
pub enum Taken {
    /// The bytes of the mail, at most 67,108,864: without its separator line, without the empty line that
    /// closes it, and with one `>` less in each line of one or more `>` and then `From `.
    Mail(Vec<u8>),
    /// The mail has more bytes than that.
    TooLong,
    /// There is no further mail.
    End,
}
