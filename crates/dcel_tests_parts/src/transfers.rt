//! Std readers and writers below sources and sinks: how often they are called, and what each call
//! returns.

use dcel_bench::checks::{holds, same};
use dcel_bench::require;
use dcel_commands::commands::{LineSink, LineSource, RunFault, StdSink, StdSource, run};
use std::alloc::Global;
use std::cell::Cell;
use std::io;
use std::io::{Error, ErrorKind, Read, Write};
use std::test::Fail;

/// Each read gives what the script says, and fails where it says nothing. Reads are counted.
#[derive(Drop)]
struct ScriptedReader<'s, 'c> {
    script: &'s [Option<&'static str>],
    reads: &'c Cell<usize>,
}

impl Read for ScriptedReader<'_, '_> {
    fn read(&mut self, buf: &mut [u8]) -> io::Result<usize> {
        let number = self.reads.get();
        self.reads.set(number.saturating_add(1));
        match self.script.get(number) {
            Some(Some(text)) => {
                let n = text.len().min(buf.len());
                buf[..n].copy_from_slice(&text.as_bytes()[..n]);
                Ok(n)
            }
            _ => Err(Error::from(ErrorKind::Interrupted)),
        }
    }
}

/// Each write takes as many bytes as the script says, and fails where it says nothing. Writes are
/// counted.
#[derive(Drop)]
struct ScriptedWriter<'s, 'c> {
    script: &'s [Option<usize>],
    writes: &'c Cell<usize>,
    bytes: Vec<u8>,
}

impl Write for ScriptedWriter<'_, '_> {
    fn write(&mut self, buf: &[u8]) -> io::Result<usize> {
        let number = self.writes.get();
        self.writes.set(number.saturating_add(1));
        match self.script.get(number) {
            Some(Some(most)) => {
                let n = buf.len().min(*most);
                self.bytes.extend_from_slice(&buf[..n])?;
                Ok(n)
            }
            _ => Err(Error::from(ErrorKind::Interrupted)),
        }
    }

    fn flush(&mut self) -> io::Result<()> {
        Ok(())
    }
}

/// The room (up to 8), what is given, and the number of reads so far.
type Fill = (usize, Option<&'static str>, usize);

/// The script of a reader, and calls of `fill`.
const FILLS: [(&[Option<&str>], &[Fill]); 6] = [
    // A byte a read; one that fails, the first, a later or the last one, is not made again.
    (
        &[None, Some("b"), Some("c"), Some("")],
        &[
            (8, None, 1),
            (8, Some("b"), 2),
            (8, Some("c"), 3),
            (8, Some(""), 4),
        ],
    ),
    (
        &[Some("a"), None, Some("c"), Some("")],
        &[
            (8, Some("a"), 1),
            (8, None, 2),
            (8, Some("c"), 3),
            (8, Some(""), 4),
        ],
    ),
    (
        &[Some("a"), Some("b"), None, Some("")],
        &[
            (8, Some("a"), 1),
            (8, Some("b"), 2),
            (8, None, 3),
            (8, Some(""), 4),
        ],
    ),
    (
        &[Some("a"), Some("b"), Some("c"), None],
        &[
            (8, Some("a"), 1),
            (8, Some("b"), 2),
            (8, Some("c"), 3),
            (8, None, 4),
        ],
    ),
    (
        &[Some("a"), Some("b"), Some("c"), Some("")],
        &[
            (8, Some("a"), 1),
            (8, Some("b"), 2),
            (8, Some("c"), 3),
            (8, Some(""), 4),
        ],
    ),
    // The end is remembered. An empty read into no room is not the end.
    (
        &[Some("ab"), Some(""), None, Some(""), Some("more")],
        &[
            (8, Some("ab"), 1),
            (0, Some(""), 2),
            (8, None, 3),
            (8, Some(""), 4),
            (8, Some(""), 4),
            (0, Some(""), 4),
            (8, Some(""), 4),
        ],
    ),
];

/// Checks what a source over the script fills, one call after another.
fn check_fills(script: &[Option<&'static str>], calls: &[Fill]) -> Result<(), Fail> {
    let reads = Cell::new(0);
    let mut source = StdSource::new(ScriptedReader {
        script,
        reads: &reads,
    });
    let mut buf = [0u8; 8];
    for (room, text, made) in calls {
        let given = source.fill(&mut buf[..(*room).min(8)]).ok();
        let what = format_args!("bytes and reads over {script:?}");
        same(
            (given, reads.get()),
            (text.map(|text| text.len()), *made),
            what,
        )?;
        let text = text.unwrap_or("").as_bytes();
        same(&buf[..text.len().min(8)], text, "what is given")?;
    }
    Ok(())
}

#[test]
fn a_source_reads_once_a_call(rt: HostRuntime) -> Result<(), Fail> {
    for (script, calls) in FILLS {
        check_fills(script, calls)?;
    }
    Ok(())
}

/// A text that is put, the number of bytes taken, and the number of writes so far.
const PUTS: [(&str, Option<usize>, usize); 6] = [
    ("abc", Some(2), 1),
    // Taking nothing of a text is a failure, but not if the text is empty.
    ("c", None, 2),
    ("c", None, 3),
    ("cd", Some(2), 4),
    ("", Some(0), 5),
    ("", None, 6),
];

#[test]
fn a_sink_writes_once_a_call(rt: HostRuntime) -> Result<(), Fail> {
    let script = [Some(2), Some(0), None, Some(9), Some(0), None];
    let writes = Cell::new(0);
    let mut sink = StdSink::new(ScriptedWriter {
        script: &script,
        writes: &writes,
        bytes: Vec::new(rt.alloc()),
    });
    for (text, taken, made) in PUTS {
        let put = sink.put(text.as_bytes()).ok();
        let what = format_args!("bytes and writes of {text:?}");
        same((put, writes.get()), (taken, made), what)?;
    }
    holds(sink.failed(), "a sink that has failed")?;
    let bytes = sink.into_inner().bytes;
    same(bytes.as_slice(), b"abcd".as_slice(), "what is written")
}

/// As many bytes as a buffer of lines has.
const LONG: &[u8] = &[b'x'; 4096];

/// Checks that the text is read at once, into a buffer that is as long or longer.
fn check_read(text: &[u8]) -> Result<(), Fail> {
    let mut source = StdSource::new(text);
    same(
        source.fill(&mut [0; 4096]).ok(),
        Some(text.len()),
        "bytes given",
    )?;
    holds(source.into_inner().is_empty(), "nothing left")
}

/// Checks that the text is put at once.
fn check_put(alloc: Global, text: &[u8]) -> Result<(), Fail> {
    let mut sink = StdSink::new(Vec::new(alloc));
    same(sink.put(text).ok(), Some(text.len()), "bytes taken")?;
    same(sink.into_inner().len(), text.len(), "bytes written")
}

#[test]
fn texts_of_each_length_are_read_and_put(rt: HostRuntime) -> Result<(), Fail> {
    let text = LONG;
    for length in 0..=text.len() {
        check_read(&text[..length])?;
        check_put(rt.alloc(), &text[..length])?;
    }
    Ok(())
}

/// The scripts of a reader and a writer, how a run between them ended, the numbers of reads and
/// writes, and what was written.
type Run = (
    &'static [Option<&'static str>],
    &'static [Option<usize>],
    &'static str,
    usize,
    usize,
    &'static str,
);

/// Runs in which transfers fail, and some in which none does.
const RUNS: [Run; 13] = [
    // Whichever read fails, it is the last one, and what came before gets its replies.
    (&[None], &[], "read failed", 1, 0, ""),
    (&[Some("wor"), None], &[], "read failed", 2, 0, ""),
    (
        &[Some("words\n"), None],
        &[Some(9)],
        "read failed",
        2,
        1,
        "F0\n",
    ),
    (
        &[Some("words\nwo"), Some(""), None],
        &[Some(9), Some(9)],
        "",
        2,
        2,
        "F0\nbad line\n",
    ),
    (
        &[Some("append 0\nappend"), None],
        &[Some(9)],
        "read failed",
        2,
        1,
        "vertex 0\n",
    ),
    // No byte at all, and a line without a line feed.
    (&[Some("")], &[], "", 1, 0, ""),
    (&[Some("words"), Some("")], &[Some(9)], "", 2, 1, "F0\n"),
    // A write that takes a part is followed by another one.
    (
        &[Some("words\n"), Some("")],
        &[Some(1), Some(1), Some(1)],
        "",
        2,
        3,
        "F0\n",
    ),
    // Whichever write fails or takes nothing, it is the last one, and nothing more is read.
    (&[Some("words\n")], &[None], "write failed", 1, 1, ""),
    (&[Some("words\n")], &[Some(0)], "write failed", 1, 1, ""),
    (
        &[Some("words\n")],
        &[Some(1), None],
        "write failed",
        1,
        2,
        "F",
    ),
    (
        &[Some("words\n")],
        &[Some(1), Some(1), Some(0)],
        "write failed",
        1,
        3,
        "F0",
    ),
    (
        &[Some(
            "append 0\nappend 1\nsetup 0 1\nappend 2\nextend 0 2\nwords\nappend 3\nextend 1 3\nwords\nappend 4\nextend 0 4\n",
        )],
        &[Some(5), None],
        "write failed",
        1,
        2,
        "verte",
    ),
];

/// Returns how a run ended, by name.
fn fault_name(ended: Result<(), RunFault>) -> &'static str {
    match ended {
        Ok(()) => "",
        Err(RunFault::Read) => "read failed",
        Err(RunFault::Write) => "write failed",
        Err(RunFault::Memory) => "out of memory",
    }
}

/// Checks that a run between a reader and a writer with these scripts is as the row says.
fn check_run(alloc: Global, wanted: Run) -> Result<(), Fail> {
    let (reader, writer, fault, reads_made, writes_made, written) = wanted;
    let reads = Cell::new(0);
    let writes = Cell::new(0);
    let mut source = StdSource::new(ScriptedReader {
        script: reader,
        reads: &reads,
    });
    let mut sink = StdSink::new(ScriptedWriter {
        script: writer,
        writes: &writes,
        bytes: Vec::new(alloc),
    });
    let ended = fault_name(run(alloc, &mut source, &mut sink, 3));
    let bytes = sink.into_inner().bytes;
    same(
        (ended, reads.get(), writes.get(), bytes.as_slice()),
        (fault, reads_made, writes_made, written.as_bytes()),
        format_args!("a run between {reader:?} and {writer:?}"),
    )
}

#[test]
fn a_run_stops_where_a_transfer_fails(rt: HostRuntime) -> Result<(), Fail> {
    for wanted in RUNS {
        check_run(rt.alloc(), wanted)?;
    }
    Ok(())
}

#[test]
fn a_second_run_reads_no_more(rt: HostRuntime) -> Result<(), Fail> {
    let reads = Cell::new(0);
    let mut source = StdSource::new(ScriptedReader {
        script: &[Some("words\n"), Some(""), Some("words\n")],
        reads: &reads,
    });
    let mut sink = StdSink::new(Vec::new(rt.alloc()));
    for _ in 0..2 {
        require!(!source.failed());
        require!(!sink.failed());
        run(rt.alloc(), &mut source, &mut sink, 3)?;
        same(reads.get(), 2, "reads")?;
    }
    same(
        sink.into_inner().as_slice(),
        b"F0\n".as_slice(),
        "what is written",
    )
}
