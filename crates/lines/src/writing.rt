//! All the lines of the program's output, and one call that writes any of them.
ghost use Rattle.std.specs.Prelude.{◌≡◌, ◌≤◌, length};
ghost use Rattle.lines.specs.Lines.{Unended, Written, line_bytes, found_line, page_line, refused_line};

use crate::LINE_ROOM;
use crate::bytes::{put_decimal, put_hex, put_text};
use refusal::Fault;

/// A line of the program's output.
#[derive(Clone, Copy, Debug)]
pub enum Line {
    /// A call was accepted.
    Accepted,
    /// A split was found: its sides word, and the print word of its price.
    Found { sides: u64, word: u64 },
    /// A call was refused.
    Refused { fault: Fault },
    /// The page was refused.
    PageRefused { fault: Fault },
    /// The script has more than 65,536 bytes.
    ScriptTooLong,
}

/// The line of a refused call.
impl From<Fault> for Line {
    ghost use Rattle.lines.specs.declared.writing.Line.TheVariants.{Refused};

    ghost from_gives = { λ fault line. line ≡ Refused fault };

    fn from(fault: Fault) -> Line {
        Line::Refused { fault }
    }
}

impl Line {
    // Puts the line, but for its byte 0x0A, at the front of a buffer, and answers the position of that byte.
    // Not by `Display` and `write!`: that this never fails could not be shown.
    fn put_body(self, out: &mut [u8]) -> usize
        requires { 37 ≤ length out.old }
        ensures { Unended (line_bytes self) out.old out.new result }
    {
        match self {
            Line::Accepted => put_text(out, 0, b"ok"),
            Line::Found { sides, word } => put_found(out, sides, word),
            Line::Refused { fault } => put_refused(out, fault),
            Line::PageRefused { fault } => put_page_refused(out, fault),
            Line::ScriptTooLong => put_text(out, 0, b"script no 10"),
        }
    }
}

/// Writes a line, byte 0x0A at its end, and answers how many bytes that took; later bytes stay.
/// Refused: a buffer of fewer than 37 bytes (10, table 1), which stays as it was.
pub fn write_line(line: Line, out: &mut [u8]) -> Result<usize, Fault>
    ensures { Written (line_bytes line) out.old out.new result }
{
    if out.len() < LINE_ROOM {
        return Err(Fault::TooShort { table: 1 });
    }
    let end = line.put_body(out);
    Ok(put_text(out, end, b"\n"))
}

// Puts a split that was found.
// Not inlined, and a refused page neither: the short lines, which most are, would save registers for them.
#[inline(never)]
#[tactic(auto, using(crate::proofs::Puts::length_hex))]
fn put_found(out: &mut [u8], sides: u64, word: u64) -> usize
    requires { 37 ≤ length out.old }
    ensures { Unended (found_line sides word) out.old out.new result }
{
    let mut at = put_text(out, 0, b"ok ");
    at = put_hex(out, at, sides);
    at = put_text(out, at, b" ");
    put_hex(out, at, word)
}

// Puts the line of a refused call.
#[tactic(auto, using(crate::proofs::Puts::three_digits))]
fn put_refused(out: &mut [u8], fault: Fault) -> usize
    requires { 37 ≤ length out.old }
    ensures { Unended (refused_line fault) out.old out.new result }
{
    let number = usize::from(fault.number());
    let at = put_text(out, 0, b"no ");
    put_decimal(out, at, number)
}

// Puts the line of a refused page.
#[inline(never)]
#[tactic(auto, using(crate::proofs::Puts::three_digits, crate::proofs::Puts::twenty_digits))]
fn put_page_refused(out: &mut [u8], fault: Fault) -> usize
    requires { 37 ≤ length out.old }
    ensures { Unended (page_line fault) out.old out.new result }
{
    let number = usize::from(fault.number());
    let bit = fault.place().number();
    let mut at = put_text(out, 0, b"page no ");
    at = put_decimal(out, at, number);
    at = put_text(out, at, b" at ");
    put_decimal(out, at, bit)
}
