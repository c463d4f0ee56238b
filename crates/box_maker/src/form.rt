//! The forms that a mail of the trial mailbox has.
ghost use Rattle.std.specs.Prelude.{◌≡◌};
ghost use Rattle.box_maker.specs.Forms.{form_of, others};

/// What a mail of the trial mailbox is for.
#[derive(Clone, Copy)]
pub enum Form {
    /// A message in a group.
    Group,
    /// An answer to a mail.
    Reply,
    /// An edit of a mail.
    Edit,
    /// The deletion of a mail.
    Deletion,
    /// A message with a timer.
    Timer,
    /// The addition of a member to a group.
    Addition,
    /// A mail with a subject, which no chat program wrote.
    Note,
}

impl Form {
    /// The form that a number from 0 to 9 stands for.
    pub fn of(drawn: u32) -> Form
        ensures { result ≡ form_of drawn }
    {
        match drawn {
            0..=3 => Form::Group,
            4 => Form::Reply,
            5 => Form::Edit,
            6 => Form::Deletion,
            7 => Form::Timer,
            8 => Form::Addition,
            _ => Form::Note,
        }
    }

    /// The numbers of the people whom the mail is to, beside the owner of the mailbox.
    pub fn others(self) -> &'static [u32]
        ensures { result.now ≡ others self }
    {
        match self {
            Form::Group | Form::Addition => &[1, 2, 3],
            Form::Reply => &[1, 2],
            Form::Edit | Form::Deletion | Form::Timer | Form::Note => &[1],
        }
    }
}
