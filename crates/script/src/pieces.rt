//! Bytes parted at a byte.
ghost use Rattle.std.specs.Option.{MatchOption};
ghost use Rattle.script.specs.Pieces.{Parted, Without};

// The bytes before a byte, and those after it.
#[derive(Clone, Copy)]
pub(crate) struct Pieces<'a> {
    pub(crate) before: &'a [u8],
    pub(crate) after: &'a [u8],
}

// Parts the bytes at the first of a byte; absent where there is none.
pub(crate) fn part_at(bytes: &[u8], byte: u8) -> Option<Pieces<'_>>
    ensures { MatchOption result (Without byte bytes.now) (λ p. Parted byte bytes.now p.before.now p.after.now) }
{
    let at = bytes.iter().position(|b| *b == byte)?;
    Some(Pieces {
        before: &bytes[..at],
        after: &bytes[at + 1..],
    })
}
