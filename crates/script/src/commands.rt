//! The commands of a script.

/// What a script line says.
#[derive(Clone, Copy, PartialEq, Eq, Debug)]
pub enum Command {
    /// `s A B`: strap two home modules.
    Strap(usize, usize),
    /// `m N`: mute a net.
    Mute(usize),
    /// `b`: take the latest change back.
    TakeBack,
    /// `p`: split.
    Split,
}
