//! How parts are side by side: all of them kept, or one of them chosen.
ghost use Rattle.std.specs.Prelude.{◌≡◌, option_map};
ghost use Rattle.chat_card.specs.Shown.{is_alternative};
ghost use Rattle.chat_card.specs.Views.{kept};
ghost use Rattle.chat_card.specs.Walks.{own, way_within};

use crate::leaf::{Kept, leaf_beside, leaf_of};
use crate::part::Part;
use mime_fields::ContentType;
use mime_parts::is_kind;

/// How parts are side by side.
#[derive(Clone, Copy, Debug, PartialEq, Eq)]
pub enum Way {
    /// Each is kept.
    Together,
    /// The first that shows a text is to be chosen (RFC 2046, section 5.1.4).
    Choice,
    /// Another one was chosen.
    Beside,
}

impl Way {
    ghost use Rattle.std.specs.Prelude.{◌≡◌};
    ghost use Rattle.chat_card.specs.Walks.{is_whole, way_after};

    /// Whether a part is kept whole that has a text to show, or has none.
    pub fn keeps_whole(self, has_text: bool) -> bool
        ensures { result ≡ is_whole self has_text }
    {
        match self {
            Way::Together => true,
            Way::Choice => has_text,
            Way::Beside => false,
        }
    }

    /// The way of the parts that follow such a part.
    pub fn after(self, has_text: bool) -> Way
        ensures { result ≡ way_after self has_text }
    {
        match self {
            Way::Choice if has_text => Way::Beside,
            way => way,
        }
    }
}

/// Whether parts of such a part are alternatives (RFC 2046, section 5.1.4).
fn is_alternative(kind: &ContentType) -> bool
    ensures { result ≡ is_alternative kind.now }
{
    is_kind(b"multipart", b"alternative", kind)
}

/// The way of the parts in a part of a type, one of which has a text to show, or none.
pub fn way_within(whole: bool, kind: &ContentType, has_text: bool) -> Way
    ensures { result ≡ way_within whole kind.now has_text }
{
    if !whole {
        Way::Beside
    } else if is_alternative(kind) && has_text {
        Way::Choice
    } else {
        Way::Together
    }
}

/// What is kept of a part itself, that is kept whole or is not.
pub fn own<'p, 'a>(whole: bool, part: &'p Part<'a>) -> Option<Kept<'p, 'a>>
    ensures { option_map kept result ≡ own whole part.now }
{
    if whole {
        leaf_of(part)
    } else {
        leaf_beside(part)
    }
}
