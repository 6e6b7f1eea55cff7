//! What is printed of a page and a script that come from readers.
ghost use Rattle.std.specs.Prelude.{◌≡◌, ◌≢◌, None, IfOk, IfErr, OnOk};
ghost use Rattle.page.specs.Known.{own_fault};
ghost use Rattle.streams.specs.Streams.{TakesAtMost, TakesFirst};
ghost use Rattle.streams.specs.Errors.{Answered};
ghost use Rattle.printing.specs.Readers.{PrintedWith, PrintedOf, Wrote, WrotePart, WrittenOf, PartWrittenOf, RefusedAlone, PageErrorOf, ReaderErrorOf, ReadersErrorOf, StaysUnlessOutput, OnOutput};

use crate::kinds::print_known;
use crate::printing::print_line;
use crate::reading::read_most;
use lines::writing::Line;
use page::known::check_known;
use std::alloc::{AllocError, Global};
use std::io;
use streams::reading::{ReadError, read_first};
use streams::sinks::Sink;
use streams::sources::Source;
use streams::writing::write_whole;

/// What kept a page and a script from being printed.
#[derive(Debug, Drop)]
pub enum PrintError {
    /// The page could not be read.
    Page(io::Error),
    /// The script could not be read.
    Script(io::Error),
    /// There was no memory for what is read or printed.
    Memory(AllocError),
    /// What is printed could not be written.
    Output(io::Error),
}

/// Reads a page and, where it is accepted, a script, as far as they count, and writes what is printed of them.
/// An error is told of the reader or the writer that answered it, or of memory where neither reader failed. The writer has then what it had, or where it failed, a first part of what is printed too.
#[tactic(auto, using(crate::proofs::ReadPart::written_of, crate::proofs::ReadPart::part_of, crate::proofs::ReadPart::refused_alone_of, crate::proofs::ReadPart::reader_error_of))]
pub fn print_to<R: Source, S: Source, W: Sink>(
    heap: Global,
    page: &mut R,
    script: &mut S,
    out: &mut W,
) -> Result<(), PrintError>
    ensures written { OnOk result (WrittenOf (R.remaining page.old) (R.remaining page.new) (S.remaining script.old) (S.remaining script.new) (W.contents out.old) (W.contents out.new)) }
    ensures page_taken { TakesAtMost 54148 (R.remaining page.old) (R.remaining page.new) }
    ensures script_taken { TakesAtMost 65537 (S.remaining script.old) (S.remaining script.new) }
    ensures refused_alone { RefusedAlone (R.remaining page.old) script.old script.new }
    ensures readers_error { IfErr result (ReadersErrorOf R.fails S.fails R.remaining S.remaining page.old page.new script.old script.new) }
    ensures stays { IfErr result (StaysUnlessOutput out.old out.new) }
    ensures writer_error { IfErr result (OnOutput (Answered W.fails out.new)) }
    ensures part { IfErr result (OnOutput (λ _. PartWrittenOf (R.remaining page.old) (R.remaining page.new) (S.remaining script.old) (S.remaining script.new) (W.contents out.old) (W.contents out.new))) }
{
    let page = read_page(heap, page)?;
    print_read_to(heap, page.as_slice(), script, out)
}

/// Reads a page and, where it is accepted, a script, as far as they count, and answers what is printed of them.
/// An error is told of the reader that answered it, or of memory where neither failed.
#[tactic(auto, using(crate::proofs::ReadPart::printed_of, crate::proofs::ReadPart::refused_alone_of, crate::proofs::ReadPart::reader_error_of))]
pub fn print_from<R: Source, S: Source>(
    heap: Global,
    page: &mut R,
    script: &mut S,
) -> Result<Vec<u8>, PrintError>
    ensures printed { IfOk result (λ printed. PrintedOf (R.remaining page.old) (R.remaining page.new) (S.remaining script.old) (S.remaining script.new) printed.items) }
    ensures page_taken { TakesAtMost 54148 (R.remaining page.old) (R.remaining page.new) }
    ensures script_taken { TakesAtMost 65537 (S.remaining script.old) (S.remaining script.new) }
    ensures refused_alone { RefusedAlone (R.remaining page.old) script.old script.new }
    ensures error { IfErr result (ReadersErrorOf R.fails S.fails R.remaining S.remaining page.old page.new script.old script.new) }
    ensures no_output { IfErr result (OnOutput (λ _. ⊥)) }
{
    let page = read_page(heap, page)?;
    print_read(heap, page.as_slice(), script)
}

/// Writes what is printed of a page's bytes and, where these are accepted, of a script, which is read as far as it counts.
/// An error is told of the script's reader or of the writer, where that answered it, or of memory where the reader did not fail. The writer has then what it had, or where it failed, a first part of what is printed too.
pub fn print_read_to<S: Source, W: Sink>(
    heap: Global,
    page: &[u8],
    script: &mut S,
    out: &mut W,
) -> Result<(), PrintError>
    ensures written { OnOk result (Wrote (PrintedWith page.now (S.remaining script.old) (S.remaining script.new)) (W.contents out.old) (W.contents out.new)) }
    ensures script_taken { TakesAtMost 65537 (S.remaining script.old) (S.remaining script.new) }
    ensures refused_alone { own_fault page.now ≢ None → script.new ≡ script.old }
    ensures reader_error { IfErr result (ReaderErrorOf S.fails S.remaining page.now script.old script.new) }
    ensures stays { IfErr result (StaysUnlessOutput out.old out.new) }
    ensures writer_error { IfErr result (OnOutput (Answered W.fails out.new)) }
    ensures part { IfErr result (OnOutput (λ _. WrotePart (PrintedWith page.now (S.remaining script.old) (S.remaining script.new)) (W.contents out.old) (W.contents out.new))) }
{
    let bytes = print_read(heap, page, script)?;
    write_whole(out, bytes.as_slice()).map_err(PrintError::Output)
}

// The same, answered and not written.
fn print_read<S: Source>(heap: Global, page: &[u8], script: &mut S) -> Result<Vec<u8>, PrintError>
    ensures printed { IfOk result (λ printed. PrintedWith page.now (S.remaining script.old) (S.remaining script.new) printed.items) }
    ensures script_taken { TakesAtMost 65537 (S.remaining script.old) (S.remaining script.new) }
    ensures refused_alone { own_fault page.now ≢ None → script.new ≡ script.old }
    ensures error { IfErr result (ReaderErrorOf S.fails S.remaining page.now script.old script.new) }
    ensures no_output { IfErr result (OnOutput (λ _. ⊥)) }
{
    match check_known(page) {
        Ok(known) => {
            let most = read_most();
            let script = read_first(heap, script, most.script).map_err(|error| match error {
                ReadError::Memory(error) => PrintError::Memory(error),
                ReadError::Reader(error) => PrintError::Script(error),
            })?;
            print_known(heap, &known, script.as_slice()).map_err(PrintError::Memory)
        }
        Err(fault) => { print_line(heap, Line::PageRefused { fault }).map_err(PrintError::Memory) }
    }
}

// The first bytes of a page, as many as count.
fn read_page<R: Source>(heap: Global, page: &mut R) -> Result<Vec<u8>, PrintError>
    ensures read { IfOk result (λ bytes. TakesFirst 54148 (R.remaining page.old) (R.remaining page.new) bytes.items) }
    ensures few { TakesAtMost 54148 (R.remaining page.old) (R.remaining page.new) }
    ensures error { IfErr result (PageErrorOf R.fails page.old page.new) }
{
    let most = read_most();
    read_first(heap, page, most.page).map_err(|error| match error {
        ReadError::Memory(error) => PrintError::Memory(error),
        ReadError::Reader(error) => PrintError::Page(error),
    })
}
