//! What is printed of a page and a script that come from readers, and which error a reader or a writer that fails is answered by.
use crate::comparing::equal;
use crate::fitful::{Broken, Fitful};
use fixtures::small_page::SMALL;
use printing::readers::{PrintError, print_from, print_read_to, print_to};
use std::io::ErrorKind;
use std::test::Fail;
use streams::sinks::AnyWriter;
use streams::sources::AnyReader;

const LINE: &[u8] = b"ok 2000000000000000 0000000000000003\n";

#[test]
fn one_line_answered_and_written(rt: HostRuntime) -> Result<(), Fail> {
    let printed = match print_from(rt.alloc(), &mut SMALL.as_slice(), &mut b"p".as_slice()) {
        Ok(printed) => printed,
        Err(_) => Vec::new(rt.alloc()),
    };
    equal(&rt, printed.as_slice(), LINE);
    let mut out = Vec::new(rt.alloc());
    let done = print_to(
        rt.alloc(),
        &mut SMALL.as_slice(),
        &mut b"p".as_slice(),
        &mut out,
    );
    equal(&rt, told(done), None);
    equal(&rt, out.as_slice(), LINE);
    Ok(())
}

#[test]
fn read_and_written_byte_by_byte(rt: HostRuntime) -> Result<(), Fail> {
    let mut page = AnyReader(Fitful {
        inner: SMALL.as_slice(),
        interrupted: false,
    });
    let mut script = AnyReader(Fitful {
        inner: b"p".as_slice(),
        interrupted: true,
    });
    let mut out = AnyWriter(Fitful {
        inner: Vec::new(rt.alloc()),
        interrupted: false,
    });
    let done = print_to(rt.alloc(), &mut page, &mut script, &mut out);
    equal(&rt, told(done), None);
    equal(&rt, out.0.inner.as_slice(), LINE);
    Ok(())
}

// More bytes than a part has that is read at once: empty lines, and a split at the end.
#[test]
fn a_script_in_several_parts(rt: HostRuntime) -> Result<(), Fail> {
    let mut script = vec![in rt.alloc(); b'\n'; 9000]?;
    script.push(b'p')?;
    let mut expected = Vec::new(rt.alloc());
    for _ in 0..9000 {
        expected.extend_from_slice(b"no 18\n")?;
    }
    expected.extend_from_slice(LINE)?;
    let mut fitful = AnyReader(Fitful {
        inner: script.as_slice(),
        interrupted: false,
    });
    let mut out = Vec::new(rt.alloc());
    let done = print_read_to(rt.alloc(), &SMALL, &mut fitful, &mut out);
    equal(&rt, told(done), None);
    equal(&rt, out.as_slice(), expected.as_slice());
    Ok(())
}

// Whose error was told, and of which kind.
fn told(answer: Result<(), PrintError>) -> Option<(&'static str, ErrorKind)> {
    match answer.err()? {
        PrintError::Page(error) => Some(("page", error.kind())),
        PrintError::Script(error) => Some(("script", error.kind())),
        PrintError::Memory(_) => Some(("memory", ErrorKind::OutOfMemory)),
        PrintError::Output(error) => Some(("output", error.kind())),
    }
}

#[test]
fn what_fails_is_told(rt: HostRuntime) -> Result<(), Fail> {
    let mut out = Vec::new(rt.alloc());
    let mut broken = AnyReader(Broken {});
    let page = print_to(rt.alloc(), &mut broken, &mut AnyReader(Broken {}), &mut out);
    equal(&rt, told(page), Some(("page", ErrorKind::BrokenPipe)));
    let script = print_to(rt.alloc(), &mut SMALL.as_slice(), &mut broken, &mut out);
    equal(&rt, told(script), Some(("script", ErrorKind::BrokenPipe)));
    equal(&rt, out.len(), 0);
    let output = print_to(
        rt.alloc(),
        &mut SMALL.as_slice(),
        &mut b"p".as_slice(),
        &mut AnyWriter(Broken {}),
    );
    equal(&rt, told(output), Some(("output", ErrorKind::BrokenPipe)));
    Ok(())
}

#[test]
fn a_refused_page_beside_a_script_that_fails(rt: HostRuntime) -> Result<(), Fail> {
    let mut page = SMALL;
    page[15] = 0x31;
    let mut out = Vec::new(rt.alloc());
    let done = print_to(
        rt.alloc(),
        &mut page.as_slice(),
        &mut AnyReader(Broken {}),
        &mut out,
    );
    equal(&rt, told(done), None);
    equal(&rt, out.as_slice(), b"page no 9 at 127\n".as_slice());
    Ok(())
}

#[test]
fn a_page_that_was_read(rt: HostRuntime) -> Result<(), Fail> {
    let mut out = Vec::new(rt.alloc());
    let done = print_read_to(rt.alloc(), &SMALL, &mut b"p".as_slice(), &mut out);
    equal(&rt, told(done), None);
    equal(&rt, out.as_slice(), LINE);
    let mut broken = AnyReader(Broken {});
    let refused = print_read_to(rt.alloc(), &SMALL[..15], &mut broken, &mut out);
    equal(&rt, told(refused), None);
    let script = print_read_to(rt.alloc(), &SMALL, &mut broken, &mut out);
    equal(&rt, told(script), Some(("script", ErrorKind::BrokenPipe)));
    let output = print_read_to(
        rt.alloc(),
        &SMALL,
        &mut b"p".as_slice(),
        &mut AnyWriter(Broken {}),
    );
    equal(&rt, told(output), Some(("output", ErrorKind::BrokenPipe)));
    let all = b"ok 2000000000000000 0000000000000003\npage no 1 at 92\n";
    equal(&rt, out.as_slice(), all.as_slice());
    Ok(())
}
