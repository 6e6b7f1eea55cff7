//! What a script line says.
ghost use Rattle.std.specs.Prelude.{◌≡◌, ℕ, List, ◌∷◌, length, if◌then◌else◌, Some, None, MatchOption, ◌≢◌, nat_eq};
ghost use Rattle.script.specs.Commands.{Understood};

use crate::commands::Command;
use crate::numbers::number;
use crate::pieces::part_at;

/// The command that a line says, its byte 0x0A left out; absent where the line is not understood.
pub fn parse(line: &[u8]) -> Option<Command>
    ensures { Understood line.now result }
{
    let (first, rest) = line.split_first()?;
    match *first as char {
        's' => parse_strap(rest),
        'm' => parse_mute(rest),
        'b' => alone(rest, Command::TakeBack),
        'p' => alone(rest, Command::Split),
        _ => None,
    }
}

// The command of a line that begins with `s`, by what follows.
fn parse_strap(rest: &[u8]) -> Option<Command>
    ensures { Understood (115 ∷ rest.now) result }
{
    let pieces = part_at(after_space(rest)?, b' ')?;
    let a = number(pieces.before)?;
    let b = number(pieces.after)?;
    Some(Command::Strap(a, b))
}

// The command of a line that begins with `m`, by what follows.
fn parse_mute(rest: &[u8]) -> Option<Command>
    ensures { Understood (109 ∷ rest.now) result }
{
    number(after_space(rest)?).map(Command::Mute)
}

// The command, where nothing follows its letter.
fn alone(rest: &[u8], command: Command) -> Option<Command>
    ensures { result ≡ (if nat_eq (length rest.now) 0 then Some command else None) }
{
    rest.is_empty().then_some(command)
}

// What follows a space.
fn after_space(bytes: &[u8]) -> Option<&[u8]>
    ensures { MatchOption result ((rest : List ℕ) → bytes.now ≢ 32 ∷ rest) (λ rest. bytes.now ≡ 32 ∷ rest.now) }
{
    bytes.strip_prefix(b" ")
}
