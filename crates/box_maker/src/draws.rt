//! What is drawn for a mail.
ghost use Rattle.std.specs.Prelude.{◌≡◌, ◌<◌};
ghost use Rattle.box_maker.specs.Draws.{after, draw, drawn};

use crate::form::Form;
use rand_core::utils::NextWord;
use rand_pcg::Lcg64Xsh32;

/// What is drawn for a mail.
#[derive(Clone, Copy)]
pub struct Draws {
    /// The number of the person who sends it, where 0 is the owner of the mailbox.
    pub sender: u32,
    /// What it is for.
    pub form: Form,
    /// The number of the mail that it answers, edits or deletes, from 1.
    pub target: u32,
    /// The number of its group, and of the person whom it adds to that.
    pub group: u32,
    /// Its day of January 2024, from 1 to 28.
    pub day: u32,
    /// Its hour in UTC, from 0 to 23.
    pub hour: u32,
    /// Its minute, from 0 to 59.
    pub minute: u32,
}

/// A number below the bound: the next word of the generator modulo the bound.
#[tactic(auto, unfolding(crate::specs::Draws::draw, crate::specs::Draws::after, rand_pcg::specs::Lcg::state_after))]
fn draw(generator: &mut Lcg64Xsh32, bound: u32) -> u32
    requires { 0 < bound }
    ensures below { result < bound }
    ensures value { result ≡ draw 0 bound generator.old }
    ensures rest { generator.new ≡ after 1 generator.old }
{
    generator.next_word() % bound
}

/// What is drawn for one of `n` mails. It takes seven words of the generator.
pub fn draw_mail(generator: &mut Lcg64Xsh32, n: u32) -> Draws
    requires { 0 < n }
    ensures value { result ≡ drawn n generator.old }
    ensures hour { result.hour < 24 }
    ensures minute { result.minute < 60 }
    ensures rest { generator.new ≡ after 7 generator.old }
{
    Draws {
        sender: draw(generator, 8),
        form: Form::of(draw(generator, 10)),
        target: 1 + draw(generator, n),
        group: draw(generator, 5),
        day: 1 + draw(generator, 28),
        hour: draw(generator, 24),
        minute: draw(generator, 60),
    }
}
