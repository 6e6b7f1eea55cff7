//! The lines of a script.
ghost use Rattle.std.specs.Prelude.{◌≡◌, [], length, MatchOption};
ghost use Rattle.script.specs.Scripts.{FirstLine, lines_of};
ghost use Rattle.script.specs.LinesLeft.{lines_left};

use crate::pieces::part_at;

/// A line of a script, without its byte 0x0A, and what follows it.
#[derive(Clone, Copy)]
pub struct NextLine<'a> {
    pub line: &'a [u8],
    pub rest: &'a [u8],
}

/// The first line of a script; absent where no byte is left.
pub fn next_line(script: &[u8]) -> Option<NextLine<'_>>
    ensures { MatchOption result (script.now ≡ []) (λ next. FirstLine script.now next.line.now next.rest.now) }
{
    if script.is_empty() {
        return None;
    }
    match part_at(script, b'\n') {
        Some(pieces) => Some(NextLine {
            line: pieces.before,
            rest: pieces.after,
        }),
        None => Some(NextLine {
            line: script,
            rest: &[],
        }),
    }
}

/// The lines of a script that are left, each without its byte 0x0A.
#[derive(Drop)]
pub struct Lines<'a> {
    rest: &'a [u8],
}

impl<'a> Lines<'a> {
    /// All lines of a script.
    pub fn of(script: &'a [u8]) -> Lines<'a>
        ensures { lines_left result ≡ lines_of script.now }
    {
        Lines { rest: script }
    }
}

impl<'a> Iterator for Lines<'a> {
    type Item = &'a [u8];

    ghost use Rattle.std.specs.Iterator.{YieldsFirstBy, item_count};

    ghost next_gives = { YieldsFirstBy (λ line. line.now) lines_left };

    ghost remaining = { item_count lines_left };

    #[tactic(auto, using(crate::proofs::Lines::first_lines))]
    fn next(&mut self) -> Option<&'a [u8]> {
        let next = next_line(self.rest)?;
        self.rest = next.rest;
        Some(next.line)
    }
}

/// How many lines a script has.
pub fn line_count(script: &[u8]) -> usize
    ensures { result ≡ length (lines_of script.now) }
{
    Lines::of(script).count()
}
