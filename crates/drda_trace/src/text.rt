ghost use Rattle.std.specs.Prelude.{◌≡◌, ◌++◌, string_bytes, IfOk, OnOk};
ghost use Rattle.std.specs.List.{flat_map};
ghost use Rattle.drda_trace.specs.Lines.{are_whole};
ghost use Rattle.drda_trace.specs.Text.{line_text, shown_number, shown_byte, shown_code, shown_object, side_mark, verdict};
ghost use Rattle.drda_trace.specs.Trace.{traced_lines};

use crate::line::Line;
use crate::trace::Traced;
use ddm_codepoints::name;
use dss_frame::Side;
use link_ends::{NoMemory, Octets};
use std::alloc::Global;

/// The text of these lines, with what they come to as its last line.
pub(crate) fn write(alloc: Global, lines: &[Line]) -> Result<Traced, NoMemory>
    ensures { IfOk result (λ traced. traced ≡ traced_lines lines.now) }
{
    let mut text = Octets::new(alloc);
    push_lines(alloc, &mut text, lines)?;
    let whole = are_whole(lines);
    text.push_all(verdict(whole))?;
    Ok(Traced { text, whole })
}

/// Whether no line says that something is wrong.
fn are_whole(lines: &[Line]) -> bool
    ensures { result ≡ are_whole lines.now }
{
    lines.iter().all(|line| line.is_sound())
}

/// The last line of a trace.
fn verdict(whole: bool) -> &'static [u8]
    ensures { result.now ≡ verdict whole }
{
    if whole { b"whole\n" } else { b"not whole\n" }
}

/// The texts of lines.
fn push_lines(alloc: Global, text: &mut Octets, lines: &[Line]) -> Result<(), NoMemory>
    ensures { OnOk result (text.new ≡ text.old ++ flat_map line_text lines.now) }
{
    for line in lines {
        text.push_all(line_text(alloc, *line)?.as_bytes())?;
    }
    Ok(())
}

/// The text of a line.
#[tactic(auto, unfolding(crate::specs::Text::line_text))]
fn line_text(alloc: Global, line: Line) -> Result<String, NoMemory>
    ensures { IfOk result (λ text. string_bytes text ≡ line_text line) }
{
    match line {
        Line::Chain { number } => Ok(format!(in alloc; "chain {number}\n")?),
        Line::Request { corr, code, len } => {
            let (corr, name) = (number_text(alloc, corr)?, code_text(alloc, code)?);
            Ok(format!(in alloc; "request {corr} {name} {len}\n")?)
        }
        Line::Object { corr, code, len } => {
            let (corr, name) = (number_text(alloc, corr)?, object_text(alloc, code)?);
            Ok(format!(in alloc; "object {corr} {name} {len}\n")?)
        }
        Line::Reply { corr, code, len } => {
            let (corr, name) = (number_text(alloc, corr)?, object_text(alloc, code)?);
            Ok(format!(in alloc; "reply {corr} {name} {len}\n")?)
        }
        Line::Triplet { len, kind } => {
            let kind = byte_text(alloc, kind)?;
            Ok(format!(in alloc; "triplet {len} {kind}\n")?)
        }
        Line::TripletFault => Ok(String::from_str(alloc, "triplet fault\n")?),
        Line::Number { chain } => Ok(format!(in alloc; "number {chain}\n")?),
        Line::Unanswered { chain } => Ok(format!(in alloc; "unanswered {chain}\n")?),
        Line::Extra { count } => Ok(format!(in alloc; "extra {count}\n")?),
        Line::Fault { side, at, err } => {
            let (mark, err) = (side_mark(side), byte_text(alloc, err)?);
            Ok(format!(in alloc; "fault {mark} {at} {err}\n")?)
        }
        Line::Rest { side, count } => {
            let mark = side_mark(side);
            Ok(format!(in alloc; "rest {mark} {count}\n")?)
        }
    }
}

/// The mark of a side, as in a capture.
fn side_mark(side: Side) -> &'static str
    ensures { result.now ≡ side_mark side }
{
    match side {
        Side::Requests => ">",
        Side::Replies => "<",
    }
}

/// A correlation number or a code point in four digits.
fn number_text(alloc: Global, number: u16) -> Result<String, NoMemory>
    ensures { IfOk result (λ text. string_bytes text ≡ shown_number number) }
{
    Ok(hex::encode_upper(alloc, number.to_be_bytes())?)
}

/// A byte in two digits.
fn byte_text(alloc: Global, byte: u8) -> Result<String, NoMemory>
    ensures { IfOk result (λ text. string_bytes text ≡ shown_byte byte) }
{
    Ok(hex::encode_upper(alloc, [byte])?)
}

/// The standard's name of a code point, or its digits where it has none.
fn code_text(alloc: Global, code: u16) -> Result<String, NoMemory>
    ensures { IfOk result (λ text. string_bytes text ≡ shown_code code) }
{
    match name(code) {
        Some(name) => Ok(String::from_str(alloc, name)?),
        None => number_text(alloc, code),
    }
}

/// The same, with a dash for no object.
fn object_text(alloc: Global, code: Option<u16>) -> Result<String, NoMemory>
    ensures { IfOk result (λ text. string_bytes text ≡ shown_object code) }
{
    match code {
        Some(code) => code_text(alloc, code),
        None => Ok(String::from_str(alloc, "-")?),
    }
}
