//! The line of why a run wrote no items. No call takes memory.

ghost use Rattle.std.specs.Prelude.{◌≡◌, ◌++◌, codes};
ghost use Rattle.age_format.specs.Outside.{Writes};
ghost use Rattle.mail_commands.specs.Command.{input_word};
ghost use Rattle.mail_commands.specs.Lines.{error_line};

use crate::command::Command;
use crate::error::RunError;
use age_format::outside::{Failed, Sink};
use kem_mail::MailError;
use output_lines::write_fault_line;

// The word of a command's input.
fn input_name(command: Command) -> &'static [u8]
    ensures { result.now ≡ input_word command }
{
    match command {
        Command::Open(..) | Command::Key(_) | Command::Gen(_) => b"head",
        Command::Seal(_) => b"input",
    }
}

// The words of a command's input that has ended too early.
fn ended_name(command: Command) -> &'static [u8]
    ensures { result.now ≡ input_word command ++ codes " ended" }
{
    match command {
        Command::Open(..) | Command::Key(_) | Command::Gen(_) => b"head ended",
        Command::Seal(_) => b"input ended",
    }
}

/// Writes the line of why a run of a command wrote no items: nothing for want of memory and for a fault of the
/// source.
pub fn write_error<W: Sink>(out: &mut W, command: Command, error: RunError) -> Result<(), Failed>
    ensures { Writes W.got W.faults W.plan out.old out.new result (error_line (input_word command) error) }
{
    match error {
        RunError::Place(place) => write_fault_line(out, input_name(command), &[place]),
        RunError::Ended => write_fault_line(out, ended_name(command), &[]),
        RunError::InvalidKey => write_fault_line(out, b"InvalidKey", &[]),
        RunError::Mail(error) => write_mail_error(out, command, error),
    }
}

// The same of what is wrong with a mail.
fn write_mail_error<W: Sink>(out: &mut W, command: Command, error: MailError) -> Result<(), Failed>
    ensures { Writes W.got W.faults W.plan out.old out.new result (error_line (input_word command) (RunError.Mail error)) }
{
    match error {
        MailError::NoMemory => Ok(()),
        MailError::ReadFault => Ok(()),
        MailError::XofExhausted => write_fault_line(out, b"XofExhausted", &[]),
        MailError::InvalidData => write_fault_line(out, b"InvalidData", &[]),
        MailError::UnexpectedEof => write_fault_line(out, b"UnexpectedEof", &[]),
        MailError::TooMuch => write_fault_line(out, b"TooMuch", &[]),
        MailError::NotOneKem(count) => write_fault_line(out, b"NotOneKem", &[count]),
        MailError::IncorrectInputLength(expected, given) => write_fault_line(
            out,
            b"IncorrectInputLength",
            &[expected as u64, given as u64],
        ),
        MailError::OpenError(number) => write_fault_line(out, b"OpenError", &[number]),
    }
}
