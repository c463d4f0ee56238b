//! The codes of the reasons why a mail has no card.
ghost use Rattle.std.specs.Prelude.{◌≡◌};
ghost use Rattle.state_image.specs.Faults.{code_of, fault_of};

use mailbox_model::Fault;

/// The code of a fault.
pub fn code_of(fault: Fault) -> u8
    ensures { result ≡ code_of fault }
{
    match fault {
        Fault::NoFields => 1,
        Fault::NoFrom => 2,
        Fault::CardTooLong => 3,
        Fault::TooLong => 4,
    }
}

/// The fault with a code: `None` where there is none.
pub fn fault_of(code: u8) -> Option<Fault>
    ensures { result ≡ fault_of code }
{
    match code {
        1 => Some(Fault::NoFields),
        2 => Some(Fault::NoFrom),
        3 => Some(Fault::CardTooLong),
        4 => Some(Fault::TooLong),
        _ => None,
    }
}
