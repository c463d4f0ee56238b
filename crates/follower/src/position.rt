//! Positions, and those after a change, a mail and a line.
ghost use Rattle.std.specs.Prelude.{◌≡◌, ◌<◌, ◌+◌, ◌^◌};
ghost use Rattle.follower.specs.Feed.{counted};

use state_image::Position;

/// One change later.
pub fn counted(position: Position) -> Position
    requires { position.count < 2 ^ 63 }
    ensures { result ≡ counted position }
{
    Position {
        count: position.count + 1,
        ..position
    }
}

/// After a mail that ends at this place, where the mbox has this trace.
pub fn at_mail(position: Position, place: u64, trace: [u8; 32]) -> Position
    ensures { result ≡ record position { mbox = place; mbox_trace = trace } }
{
    Position {
        mbox: place,
        mbox_trace: trace,
        ..position
    }
}

/// After a line that ends at this place, where the steps file has this trace.
pub fn at_line(position: Position, place: u64, trace: [u8; 32]) -> Position
    requires { position.lines < place }
    ensures { result ≡ record position { steps = place; lines = position.lines + 1; steps_trace = trace } }
{
    Position {
        steps: place,
        lines: position.lines + 1,
        steps_trace: trace,
        ..position
    }
}
