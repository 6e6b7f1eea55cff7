//! What the program prints, in the price kind that the page names.
ghost use Rattle.std.specs.Prelude.{◌≡◌, IfOk, None};
ghost use Rattle.page.specs.Layout.{kind_field};
ghost use Rattle.page.specs.Known.{known_number, own_fault};
ghost use Rattle.printing.specs.Printed.{Printed};

use crate::printing::{print_checked, print_line};
use lines::writing::Line;
use page::known::{KnownKind, KnownPage, check_known};
use price::values::{TimersFirst, Widest, Wires};
use std::alloc::{AllocError, Global};

/// All that the program prints of a page and a script.
pub fn print_all(heap: Global, page: &[u8], script: &[u8]) -> Result<Vec<u8>, AllocError>
    ensures { IfOk result (λ printed. Printed page.now script.now printed.items) }
{
    match check_known(page) {
        Ok(known) => print_known(heap, &known, script),
        Err(fault) => print_line(heap, Line::PageRefused { fault }),
    }
}

// The same of a page that has passed its checks in the kind that it names.
pub(crate) fn print_known(
    heap: Global,
    known: &KnownPage<'_>,
    script: &[u8],
) -> Result<Vec<u8>, AllocError>
    requires fine { own_fault known.now.page.bytes.now ≡ None }
    requires named { kind_field known.now.page.bytes.now ≡ known_number known.now.kind }
    ensures { IfOk result (λ printed. Printed known.now.page.bytes.now script.now printed.items) }
{
    let page = &known.page;
    match known.kind {
        KnownKind::Wires => print_checked::<Wires>(heap, page, script),
        KnownKind::TimersFirst => print_checked::<TimersFirst>(heap, page, script),
        KnownKind::Widest => print_checked::<Widest>(heap, page, script),
    }
}
