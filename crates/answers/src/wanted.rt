//! Which updates of an app are wanted.
ghost use Rattle.answers.specs.Answers.{is_wanted};

use app_listener::Test;
use mailbox_model::UpdateRow;

/// Which updates of an app are wanted: all, or only those that have an info.
#[derive(Clone, Copy, Debug, PartialEq, Eq)]
pub(crate) struct Wanted {
    /// Whether only those that have an info.
    pub(crate) info: bool,
}

impl Test for Wanted {
    ghost wanted = { λ asked row. is_wanted asked.info row };

    fn wants(&self, row: &UpdateRow) -> bool {
        !self.info || row.update.info.is_some()
    }
}
