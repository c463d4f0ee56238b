//! The lines of a mail. What is appended takes memory where the text has no room for it.
ghost use Rattle.std.specs.Prelude.{◌≡◌, ◌++◌, ◌<◌, OnOk, string_bytes};
ghost use Rattle.box_maker.specs.Mails.{added_line, chat_line, date_line, form_lines, from_lines, group_lines, id_line, mail, person, sender, subject_line, text_lines, timer_line, to_line, two_digits};

use crate::draws::Draws;
use crate::form::Form;
use kit::Memory;

/// The field that marks the mails of chat programs.
const CHAT_LINE: &str = "Chat-Version: 1.0\n";

/// Appends the address of a person.
fn push_person(text: &mut String, number: u32) -> Result<(), Memory>
    ensures { OnOk result (string_bytes text.new ≡ string_bytes text.old ++ person number) }
{
    Ok(write!(text, "p{number}@box.example")?)
}

/// Appends the address of who sends a mail, where 0 is the owner of the mailbox.
#[tactic(auto, unfolding(crate::specs::Mails::sender))]
fn push_sender(text: &mut String, me: &str, number: u32) -> Result<(), Memory>
    ensures { OnOk result (string_bytes text.new ≡ string_bytes text.old ++ sender me.now number) }
{
    if number == 0 {
        Ok(text.push_str(me)?)
    } else {
        push_person(text, number)
    }
}

/// Appends the separator and the From field.
#[tactic(auto, unfolding(crate::specs::Mails::from_lines))]
fn push_from(text: &mut String, me: &str, number: u32) -> Result<(), Memory>
    ensures { OnOk result (string_bytes text.new ≡ string_bytes text.old ++ from_lines me.now number) }
{
    text.push_str("From -\nFrom: ")?;
    push_sender(text, me, number)?;
    text.push('\n')?;
    Ok(())
}

/// Appends the To field.
#[tactic(auto, unfolding(crate::specs::Mails::to_line))]
fn push_to(text: &mut String, me: &str, form: Form) -> Result<(), Memory>
    ensures { OnOk result (string_bytes text.new ≡ string_bytes text.old ++ to_line me.now form) }
{
    write!(text, "To: {me}")?;
    for other in form.others() {
        text.push_str(", ")?;
        push_person(text, *other)?;
    }
    text.push('\n')?;
    Ok(())
}

/// Appends the two digits of a number below 100.
fn push_two(text: &mut String, number: u32) -> Result<(), Memory>
    requires { number < 100 }
    ensures { OnOk result (string_bytes text.new ≡ string_bytes text.old ++ two_digits number) }
{
    Ok(write!(text, "{number:02}")?)
}

/// Appends the Date field.
#[tactic(auto, unfolding(crate::specs::Mails::date_line))]
fn push_date(text: &mut String, day: u32, hour: u32, minute: u32) -> Result<(), Memory>
    requires hour { hour < 24 }
    requires minute { minute < 60 }
    ensures { OnOk result (string_bytes text.new ≡ string_bytes text.old ++ date_line day hour minute) }
{
    write!(text, "Date: {day} Jan 2024 ")?;
    push_two(text, hour)?;
    text.push(':')?;
    push_two(text, minute)?;
    text.push_str(":00 +0000\n")?;
    Ok(())
}

/// Appends a field that names a mail by its message id.
#[tactic(auto, unfolding(crate::specs::Mails::id_line))]
fn push_id(text: &mut String, name: &str, number: u32) -> Result<(), Memory>
    ensures { OnOk result (string_bytes text.new ≡ string_bytes text.old ++ id_line name.now number) }
{
    Ok(write!(text, "{name}: <t{number}@box.example>\n")?)
}

/// Appends a field that names a mail by its message id, as a chat program does.
#[tactic(auto, unfolding(crate::specs::Mails::chat_line))]
fn push_chat_id(text: &mut String, name: &str, number: u32) -> Result<(), Memory>
    ensures { OnOk result (string_bytes text.new ≡ string_bytes text.old ++ chat_line ++ id_line name.now number) }
{
    text.push_str(CHAT_LINE)?;
    push_id(text, name, number)
}

/// Appends the fields of a message in a group.
fn push_group(text: &mut String, group: u32) -> Result<(), Memory>
    ensures { OnOk result (string_bytes text.new ≡ string_bytes text.old ++ group_lines group) }
{
    text.push_str(CHAT_LINE)?;
    Ok(write!(
        text,
        "Chat-Group-ID: trialgroup0{group}\nChat-Group-Name: Group {group}\n"
    )?)
}

/// Appends the fields that add a person to the group with the same number.
#[tactic(auto, unfolding(crate::specs::Mails::added_line))]
fn push_addition(text: &mut String, group: u32) -> Result<(), Memory>
    ensures { OnOk result (string_bytes text.new ≡ string_bytes text.old ++ group_lines group ++ added_line group) }
{
    push_group(text, group)?;
    Ok(write!(text, "Chat-Group-Member-Added: p{group}@box.example\n")?)
}

/// Appends the fields of a message with a timer.
#[tactic(auto, unfolding(crate::specs::Mails::chat_line, crate::specs::Mails::timer_line))]
fn push_timer(text: &mut String) -> Result<(), Memory>
    ensures { OnOk result (string_bytes text.new ≡ string_bytes text.old ++ chat_line ++ timer_line) }
{
    text.push_str(CHAT_LINE)?;
    Ok(text.push_str("Ephemeral-Timer: 60\n")?)
}

/// Appends the subject of a mail with this number.
#[tactic(auto, unfolding(crate::specs::Mails::subject_line))]
fn push_subject(text: &mut String, number: u32) -> Result<(), Memory>
    ensures { OnOk result (string_bytes text.new ≡ string_bytes text.old ++ subject_line number) }
{
    Ok(write!(text, "Subject: Note {number}\n")?)
}

/// Appends the further fields of a mail with this number, by its form.
#[tactic(auto, unfolding(crate::specs::Mails::form_lines))]
fn push_form(text: &mut String, number: u32, draws: Draws) -> Result<(), Memory>
    ensures { OnOk result (string_bytes text.new ≡ string_bytes text.old ++ form_lines draws.form number draws) }
{
    match draws.form {
        Form::Group => push_group(text, draws.group),
        Form::Reply => push_id(text, "In-Reply-To", draws.target),
        Form::Edit => push_chat_id(text, "Chat-Edit", draws.target),
        Form::Deletion => push_chat_id(text, "Chat-Delete", draws.target),
        Form::Timer => push_timer(text),
        Form::Addition => push_addition(text, draws.group),
        Form::Note => push_subject(text, number),
    }
}

/// Appends the text of a mail with this number, between two empty lines.
#[tactic(auto, unfolding(crate::specs::Mails::text_lines))]
fn push_text(text: &mut String, number: u32) -> Result<(), Memory>
    ensures { OnOk result (string_bytes text.new ≡ string_bytes text.old ++ text_lines number) }
{
    Ok(write!(text, "\ntext {number}\n\n")?)
}

/// Appends the mail with this number, from its separator to the empty line that ends it.
///
/// Takes memory where the text has no room for it; `Err` only when it runs out: some of its lines may then have been
/// appended.
#[tactic(auto, unfolding(crate::specs::Mails::mail))]
pub fn push_mail(text: &mut String, me: &str, number: u32, draws: Draws) -> Result<(), Memory>
    requires hour { draws.hour < 24 }
    requires minute { draws.minute < 60 }
    ensures { OnOk result (string_bytes text.new ≡ string_bytes text.old ++ mail me.now number draws) }
{
    push_from(text, me, draws.sender)?;
    push_to(text, me, draws.form)?;
    push_date(text, draws.day, draws.hour, draws.minute)?;
    push_id(text, "Message-ID", number)?;
    push_form(text, number, draws)?;
    push_text(text, number)
}
