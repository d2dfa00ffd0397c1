//! What arguments leave on both streams, and which files are opened.
use crate::tests::files::FewFiles;
use crate::tests::rows::{ANSWERS, ERRORS, FILES, KEPT, OPENED, Row};
use crate::tests::writers::Limited;
use agenda_answers::{Frame, Host, answer_arguments};
use plan_tree::FewNodes;
use std::alloc::{AllocError, Global};
use std::process::Abort;
use std::sync::Wait;
use std::test::Fail;
use std::thread::Threads;

// Returns the arguments of a command line, which are separated by bars.
fn command_line(alloc: Global, words: &str) -> Result<Vec<String>, AllocError> {
    let mut line = Vec::new(alloc);
    for word in words.split('|') {
        line.push(String::from_str(alloc, word)?)?;
    }
    Ok(line)
}

/// Returns the exit status of arguments, over these files and streams.
pub fn run(
    rt: &(impl Threads + Wait + Sync + Abort + AllocGlobal),
    words: &str,
    files: &mut FewFiles<'_>,
    out: &mut Limited,
    err: &mut Limited,
) -> u8 {
    let alloc = rt.alloc();
    let line = command_line(alloc, words).ok().expect(rt, "memory");
    let host = Host {
        tree: &FewNodes(&[]),
        time: 0,
        frame: Frame {
            columns: None,
            terminal: false,
        },
    };
    answer_arguments(rt, alloc, line.as_slice(), files, &host, out, err)
}

// Asserts that arguments leave what the row says over these files, if standard output takes some bytes per call.
fn leaves(
    rt: &(impl Threads + Wait + Sync + Abort + AllocGlobal),
    row: &Row<'_>,
    files: FewFiles<'_>,
    at_a_call: usize,
) {
    let mut files = files;
    let (mut out, mut err) = (Limited::new(512, at_a_call, None), Limited::ample());
    let status = run(rt, row.words, &mut files, &mut out, &mut err);
    let is_left = status == row.status && files.opened == row.count;
    assert!(rt;
        is_left && have(&out, &err, row, at_a_call),
        "{}",
        row.words
    );
}

// Returns whether the streams have the texts of a row. A text gets there by at most one write and one flush,
// unless the stream takes a byte per call. One of the streams is flushed, even if no text is written.
fn have(out: &Limited, err: &Limited, row: &Row<'_>, at_a_call: usize) -> bool {
    let is_once = at_a_call == 1 || out.calls <= 2;
    out.has(row.out)
        && err.has(row.err)
        && is_once
        && err.calls <= 2
        && out.flushes.max(err.flushes) == 1
}

#[test]
fn what_is_written_and_how_many_files_are_opened(rt: HostRuntime) {
    for table in [ANSWERS, KEPT, ERRORS, OPENED] {
        for row in table.split("%\n") {
            for at_a_call in [1, 512] {
                leaves(
                    &rt,
                    &Row::read(row),
                    FewFiles::new(FILES, 4_096, false),
                    at_a_call,
                );
            }
        }
    }
}

#[test]
fn a_file_that_gives_some_bytes_at_a_call(rt: HostRuntime) {
    for at_a_call in [1, 2, 4_096] {
        let row = Row::read("0 1 agenda|steps|steps\nsent\nfull b\ntook 0 a\n");
        leaves(&rt, &row, FewFiles::new(FILES, at_a_call, false), 512);
    }
}

#[test]
fn a_file_that_fails_in_the_middle(rt: HostRuntime) {
    let file = "a\nmailbox 1 1\ntake\n";
    for len in 2..=file.len() {
        let files = FewFiles::new(file.get(..len).unwrap_or(""), 4_096, true);
        let row = Row::read("3 1 agenda|steps|a\n--\nagenda: a: Device\n");
        leaves(&rt, &row, files, 512);
    }
}

// The first line is the file's path. The others are 61,681 lines of 17 bytes each, one byte more than the limit of
// 1,048,576. After that byte comes an error, which is never reached.
#[test]
fn a_script_that_is_too_large(rt: HostRuntime) -> Result<(), Fail> {
    let file = "seventeen.bytes.\n".repeat(rt.alloc(), 61_682)?;
    for at_a_call in [7, 4_096, 1_048_576] {
        let files = FewFiles::new(file.as_str(), at_a_call, true);
        let row = Row::read(
            "1 1 agenda|steps|seventeen.bytes.\n--\nagenda: script: line 0: TooLarge\n",
        );
        leaves(&rt, &row, files, 512);
    }
    Ok(())
}
