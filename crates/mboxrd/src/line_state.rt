//! Where a reader is within a line. What may still prove to be of no mail is withheld: it is added to the mail
//! only once that is known, so nothing is ever taken out of a mail again.

/// What comes before a line.
#[derive(Clone, Copy)]
pub enum Preceding {
    /// A line that is not empty.
    Text,
    /// Nothing: reading began here.
    Nothing,
    /// An empty line of LF alone. It is withheld, since it closes the mail if a separator line or the end
    /// follows.
    EmptyLf,
    /// The same of CR LF.
    EmptyCrLf,
}

/// Where a reader is within a line.
#[derive(Clone, Copy)]
pub enum LineState {
    /// In a separator line, after its `From `.
    Separator,
    /// At the start of a line.
    Start(Preceding),
    /// After so many bytes of `From `, 1 to 4, at the start of what may be a separator line. They are
    /// withheld.
    From(Preceding, usize),
    /// After one or more `>` at the start of a line and so many bytes of `From `, 0 to 4. These bytes and
    /// the last `>` are withheld.
    Quote(usize),
    /// After a CR at the start of a line. It is withheld.
    Cr,
    /// In a line that the mail has as it is.
    Inside,
}
