//! What arguments leave on both streams if one of the streams fails.
use crate::tests::answers::run;
use crate::tests::files::FewFiles;
use crate::tests::rows::{ANSWERS, ERRORS, FILES, KEPT, Row, WRITES};
use crate::tests::writers::Limited;
use std::io::ErrorKind;
use std::process::Abort;
use std::sync::Wait;
use std::test::Fail;
use std::thread::Threads;

// The ways in which a stream fails. Without an error, a write takes no bytes.
const EACH_END: [Option<ErrorKind>; 4] = [
    Some(ErrorKind::Other),
    Some(ErrorKind::BrokenPipe),
    Some(ErrorKind::Interrupted),
    None,
];

// Returns the line of a standard output that fails in this way.
fn line_of(end: Option<ErrorKind>) -> &'static str {
    match end {
        Some(ErrorKind::BrokenPipe) => "",
        _ => "agenda: Device\n",
    }
}

// Asserts that a request ends with status 3 if standard output accepts some calls, with at most `at_a_call` bytes
// each, and then fails in this way: after the call that fails there is none, and no piece is longer than 65,536
// bytes. What is reported on standard error before that stays, and the line of a device follows, unless the reader
// of a pipe has gone. Returns standard output.
fn stops(
    rt: &(impl Threads + Wait + Sync + Abort + AllocGlobal),
    files: &str,
    row: &Row<'_>,
    accepted: usize,
    at_a_call: usize,
    end: Option<ErrorKind>,
) -> Limited {
    let mut files = FewFiles::new(files, 4_096, false);
    let (mut out, mut err) = (Limited::new(accepted, at_a_call, end), Limited::ample());
    let status = run(rt, row.words, &mut files, &mut out, &mut err);
    let is_last = out.calls == accepted.saturating_add(1);
    let is_short = out.len <= accepted.saturating_mul(65_536);
    let is_told = err.has_both(row.err, line_of(end));
    assert!(rt;
        status == 3 && is_last && is_short && is_told,
        "{}",
        row.words
    );
    out
}

// Asserts that standard output that fails at each call has what was written before: a byte per call.
fn stops_at_each_byte(rt: &(impl Threads + Wait + Sync + Abort + AllocGlobal), row: &Row<'_>) {
    for end in EACH_END {
        for accepted in 0..=row.out.len() {
            let out = stops(rt, FILES, row, accepted, 1, end);
            assert!(rt; out.has_front(row.out, accepted), "{}", row.words);
        }
    }
}

// Each text is written a byte per call, so that each byte fails, and then the flush.
#[test]
fn standard_output_that_fails_at_each_call(rt: HostRuntime) {
    for table in [ANSWERS, KEPT] {
        for row in table.split("%\n") {
            stops_at_each_byte(&rt, &Row::read(row));
        }
    }
}

// Asserts that the status is the same, and that nothing goes to standard output, if standard error accepts this
// many bytes of a row's text, and then fails in this way.
fn is_untold(
    rt: &(impl Threads + Wait + Sync + Abort + AllocGlobal),
    row: &Row<'_>,
    accepted: usize,
    end: Option<ErrorKind>,
) {
    let mut files = FewFiles::new(FILES, 4_096, false);
    let (mut out, mut err) = (Limited::ample(), Limited::new(accepted, 1, end));
    let status = run(rt, row.words, &mut files, &mut out, &mut err);
    let is_kept = status == row.status && out.calls == 0;
    assert!(rt;
        is_kept && err.has_front(row.err, accepted),
        "{}",
        row.words
    );
}

// Asserts the same for each number of bytes, in each way.
fn is_untold_at_each_byte(rt: &(impl Threads + Wait + Sync + Abort + AllocGlobal), row: &Row<'_>) {
    for end in EACH_END {
        for accepted in 0..=row.err.len() {
            is_untold(rt, row, accepted, end);
        }
    }
}

#[test]
fn standard_error_that_fails_at_each_call(rt: HostRuntime) {
    for table in [ERRORS, KEPT] {
        for row in table.split("%\n") {
            is_untold_at_each_byte(&rt, &Row::read(row));
        }
    }
}

// Asserts that a request ends with status 3 if standard output fails in each way at any call, or within the first
// piece. The last call is the flush.
fn stops_at_each_piece(
    rt: &(impl Threads + Wait + Sync + Abort + AllocGlobal),
    files: &str,
    row: &Row<'_>,
) {
    for end in EACH_END {
        stops(rt, files, row, 2, 3, end);
        for accepted in 0..=row.count {
            let out = stops(rt, files, row, accepted, usize::MAX, end);
            assert!(rt;
                (out.flushes == 1) == (accepted == row.count),
                "{}",
                row.words
            );
        }
    }
}

// Asserts that a request writes as often as the row says, and this many bytes, if that is given.
fn writes(
    rt: &(impl Threads + Wait + Sync + Abort + AllocGlobal),
    files: &str,
    row: &Row<'_>,
    len: &str,
) {
    let mut files = FewFiles::new(files, 4_096, false);
    let (mut out, mut err) = (Limited::ample(), Limited::ample());
    let status = run(rt, row.words, &mut files, &mut out, &mut err);
    let is_whole = out.len == len.parse().unwrap_or(out.len) && err.calls == 0;
    let is_often = out.calls == row.count.saturating_add(1) && out.flushes == 1;
    assert!(rt;
        status == row.status && is_whole && is_often,
        "{}",
        row.words
    );
}

#[test]
fn answers_in_pieces_that_fail_at_each_call(rt: HostRuntime) -> Result<(), Fail> {
    let jobs = "* * * * * xxxxxxxxxx\n".repeat(rt.alloc(), 1_000)?;
    let faults = "x\n".repeat(rt.alloc(), 1_000)?;
    let files = format!(in rt.alloc(); "{}%\njobs\n{}%\nfaults\n{}", FILES, jobs, faults)?;
    for line in WRITES.split('\n') {
        let (row, len) = line.split_once('=').unwrap_or((line, ""));
        let row = Row::read(row);
        stops_at_each_piece(&rt, files.as_str(), &row);
        writes(&rt, files.as_str(), &row, len);
    }
    Ok(())
}
