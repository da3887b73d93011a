//! The line of an outcome.

ghost use Rattle.std.specs.Prelude.{◌≡◌, ◌++◌, codes, string_bytes, IfOk, OnOk};
ghost use Rattle.hf_text.specs.Lines.{line_text, number_field, type_field};
ghost use Rattle.hf_text.specs.Parts.{parts_text};

use crate::outcome::Outcome;
use crate::parts::{Parts, parts_of, parts_of_reason};
use crate::text::type_text;
use hf_base::{FourCc, NoMemory};
use itoa::Buffer;
use std::alloc::Global;

/// Adds a space and a number.
fn push_number(line: &mut String, n: u64) -> Result<(), NoMemory>
    ensures { OnOk result (string_bytes line.new ≡ string_bytes line.old ++ number_field n) }
{
    line.push_str(" ")?;
    line.push_str(Buffer::new().format(n))?;
    Ok(())
}

/// Adds a space and a type.
fn push_type(line: &mut String, kind: FourCc) -> Result<(), NoMemory>
    ensures { OnOk result (string_bytes line.new ≡ string_bytes line.old ++ type_field kind) }
{
    line.push_str(" ")?;
    line.push_str(type_text(kind).as_str())?;
    Ok(())
}

/// Adds a name, and its fields in order.
fn push_parts(line: &mut String, parts: &Parts) -> Result<(), NoMemory>
    ensures { OnOk result (string_bytes line.new ≡ string_bytes line.old ++ parts_text parts.now) }
{
    line.push_str(parts.name)?;
    if let Some(kind) = parts.kind {
        push_type(line, kind)?;
    }
    if let Some(number) = parts.number {
        push_number(line, number)?;
    }
    Ok(())
}

/// The line of a text, a number and what stands behind it.
fn numbered_line(alloc: Global, text: &str, number: u64, behind: &str) -> Result<String, NoMemory>
    ensures { IfOk result (λ line. string_bytes line ≡ text.now ++ number_field number ++ behind.now) }
{
    let mut line = String::from_str(alloc, text)?;
    push_number(&mut line, number)?;
    line.push_str(behind)?;
    Ok(line)
}

/// The line of a text, a number, and a name with its fields.
fn refusal_line(alloc: Global, text: &str, number: u32, parts: &Parts) -> Result<String, NoMemory>
    ensures { IfOk result (λ line. string_bytes line ≡ text.now ++ number_field number ++ codes ": " ++ parts_text parts.now ++ codes "\n") }
{
    let mut line = numbered_line(alloc, text, u64::from(number), ": ")?;
    push_parts(&mut line, parts)?;
    line.push_str("\n")?;
    Ok(line)
}

/// The line of an outcome for standard error, its newline included; empty for `Done`.
pub fn line_of(alloc: Global, outcome: &Outcome) -> Result<String, NoMemory>
    ensures { IfOk result (λ line. string_bytes line ≡ line_text outcome.now) }
{
    let text = match outcome {
        Outcome::Usage { at } => {
            return numbered_line(alloc, "heif: no command at word", *at as u64, "\n");
        }
        Outcome::Unfit { source, why } => {
            return refusal_line(alloc, "heif: source", *source, &parts_of(why));
        }
        Outcome::Refused { edit, why } => {
            return refusal_line(alloc, "heif: edit", *edit, &parts_of_reason(why));
        }
        Outcome::NoSuchItem { id } => {
            return numbered_line(alloc, "heif: no item", u64::from(*id), "\n");
        }
        Outcome::TooLong { source } => {
            return numbered_line(alloc, "heif: source", u64::from(*source), " is too long\n");
        }
        Outcome::Done => "",
        Outcome::ReadFault => "heif: reading failed\n",
        Outcome::WriteFault => "heif: writing failed\n",
        Outcome::NoMemory => "heif: no memory\n",
    };
    Ok(String::from_str(alloc, text)?)
}
