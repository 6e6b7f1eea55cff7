//! The program: reads a page from the file bench.page and a script from standard input, and prints what the script's lines are told.
#![tactic(auto)]

use printing::readers::{PrintError, print_read_to};
use printing::reading::read_most;
use std::fs::File;
use std::io;
use streams::reading::{ReadError, read_first};
use streams::sinks::AnyWriter;
use streams::sources::AnyReader;

fn main(rt: HostRuntime) -> anyhow::Result<()> {
    let printed = match read_page(&rt) {
        Ok(page) => print_read_to(
            rt.alloc(),
            page.as_slice(),
            &mut AnyReader(rt.stdin()),
            &mut AnyWriter(rt.stdout()),
        ),
        Err(ReadError::Reader(error)) => Err(PrintError::Page(error)),
        Err(ReadError::Memory(error)) => Err(PrintError::Memory(error)),
    };
    match printed {
        Ok(()) => Ok(()),
        Err(PrintError::Page(error)) => unread(&rt, "bench.page", error),
        Err(PrintError::Script(error)) => unread(&rt, "standard input", error),
        Err(PrintError::Memory(error)) => Err(error.into()),
        Err(PrintError::Output(error)) => Err(error.into()),
    }
}

// The first bytes of the page, as many as count. Its file is closed before standard input is read:
// where the program is started without one, the file is open under standard input's number.
fn read_page(rt: &HostRuntime) -> Result<Vec<u8>, ReadError> {
    let file = File::open(rt, "bench.page").map_err(ReadError::Reader)?;
    read_first(rt.alloc(), &mut AnyReader(file), read_most().page)
}

// Says on standard error what could not be read, and fails.
fn unread(rt: &HostRuntime, name: &str, error: io::Error) -> anyhow::Result<()> {
    eprintln!(rt; "splitter: {name}: {error}")?;
    Err(error.into())
}
