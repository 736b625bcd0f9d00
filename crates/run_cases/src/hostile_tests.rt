use block_top::{Status, run};
use outside_ports::{MemShelf, MemSink};
use std::alloc::{AllocError, Global};
use std::test::Fail;
use std::thread::Threads;
use worked_sets::files::{PAIR, PAIR_JOBS, PAIR_LOWER_FIRST};

/// The least bounds of `PAIR` under FMLP+.
const PAIR_CERTIFICATE: &str =
    "{\"bounds\":[5,5],\"duals\":[{\"den\":1,\"num\":[2,0,0,0]},{\"den\":1,\"num\":[1,0,0,0]}],\"protocol\":\"fmlp+\",\"set\":\"5fb1c51fbdd430c6971fec1191669488e3ef2ae73b0ba959313a10ecc2bab6dc\",\"verdict\":\"schedulable\",\"version\":2}\n";

const AUDITED: &str = "kept 5\nt1 5 5 2 2 2 0 0\nt2 4 5 0 1 0 0 0\n";

/// What a run gave: its status, and the bytes that the sink took.
#[derive(Debug, PartialEq, Drop)]
struct Given {
    status: u8,
    written: Vec<u8>,
}

fn answer(alloc: Global, status: u8, text: &[u8]) -> Result<Given, AllocError> {
    Ok(Given {
        status,
        written: Vec::from_slice(alloc, text)?,
    })
}

/// Names and bytes of files.
type Files<'a> = &'a [(&'a str, &'a [u8])];

/// A shelf that gives at most 1000 bytes in a read.
fn shelf_of(alloc: Global, files: Files, failing: &[u64]) -> Result<MemShelf, AllocError> {
    let mut kept = Vec::new(alloc);
    for (name, bytes) in files {
        kept.push((
            String::from_str(alloc, name)?,
            Vec::from_slice(alloc, bytes)?,
        ))?;
    }
    Ok(MemShelf::new(kept, 1000, Vec::from_slice(alloc, failing)?))
}

/// What a sink does: the room that it has, how much a write takes, and the write that fails.
#[derive(Clone, Copy)]
struct Out {
    room: usize,
    piece: usize,
    failing: u64,
}

/// A sink that takes each answer here at once.
const WHOLE: Out = Out {
    room: 4096,
    piece: 4096,
    failing: 0,
};

fn words_of(alloc: Global, words: &[&str]) -> Result<Vec<String>, AllocError> {
    let mut list = Vec::new(alloc);
    for word in words {
        list.push(String::from_str(alloc, word)?)?;
    }
    Ok(list)
}

/// Runs the words over a shelf and a sink.
fn ran_into<R: Threads + Sync>(
    rt: &R,
    alloc: Global,
    words: &[&str],
    shelf: &mut MemShelf,
    out: Out,
) -> Result<Given, AllocError> {
    let words = words_of(alloc, words)?;
    let failing = Vec::from_slice(alloc, &[out.failing])?;
    let mut sink = MemSink::new(alloc, out.room, out.piece.max(1), failing)?;
    let status = run(rt, alloc, &words, shelf, &mut sink).number();
    answer(alloc, status, sink.written())
}

/// Runs the words over these files, and a sink that takes all.
fn ran<R: Threads + Sync>(
    rt: &R,
    alloc: Global,
    words: &[&str],
    files: Files,
) -> Result<Given, AllocError> {
    let mut shelf = shelf_of(alloc, files, &[])?;
    ran_into(rt, alloc, words, &mut shelf, WHOLE)
}

// Calls of the shelf are counted from 1: a start and two reads for each input.
const FAILING_READS: [(u64, u8, &str); 13] = [
    (1, 4, "fault read set\n"),
    (2, 4, "fault read set\n"),
    (3, 4, "fault read set\n"),
    (4, 4, "fault read cert\n"),
    (5, 4, "fault read cert\n"),
    (6, 4, "fault read cert\n"),
    (7, 4, "fault read jobs\n"),
    (8, 4, "fault read jobs\n"),
    (9, 4, "fault read jobs\n"),
    (10, 4, "fault read rows\n"),
    (11, 4, "fault read rows\n"),
    (12, 4, "fault read rows\n"),
    (13, 0, AUDITED),
];

#[test]
fn a_failing_read_is_a_fault_of_its_input(rt: HostRuntime) -> Result<(), Fail> {
    let alloc = rt.alloc();
    let words = ["audit", "fmlp+", "set", "cert", "jobs", "rows"];
    let files = [
        ("set", PAIR.as_bytes()),
        ("cert", PAIR_CERTIFICATE.as_bytes()),
        ("jobs", PAIR_JOBS.as_bytes()),
        ("rows", PAIR_LOWER_FIRST.as_bytes()),
    ];
    for (call, status, text) in FAILING_READS {
        let mut shelf = shelf_of(alloc, &files, &[call])?;
        let given = ran_into(&rt, alloc, &words, &mut shelf, WHOLE)?;
        assert_eq!(rt;
            given,
            answer(alloc, status, text.as_bytes())?,
            "call {call}"
        );
    }
    Ok(())
}

/// The call that fails, the set and the jobs of a judgement, and the status and text of its answer.
const ORDER: [(u64, &str, &str, u8, &str); 5] = [
    (3, PAIR, PAIR_JOBS, 4, "fault read set\n"),
    (4, PAIR, PAIR_JOBS, 4, "fault read jobs\n"),
    (9, PAIR, PAIR_JOBS, 4, "fault read rows\n"),
    (7, PAIR, "task,release\n", 3, "refused jobs fields 0\n"),
    (3, "", PAIR_JOBS, 3, "refused set notjson\n"),
];

// An input that is refused is answered before the next one is read.
#[test]
fn each_input_is_read_after_the_one_before_it(rt: HostRuntime) -> Result<(), Fail> {
    let alloc = rt.alloc();
    let words = ["conform", "fmlp+", "set", "jobs", "rows"];
    for (call, set, jobs, status, text) in ORDER {
        let files = [
            ("set", set.as_bytes()),
            ("jobs", jobs.as_bytes()),
            ("rows", PAIR_LOWER_FIRST.as_bytes()),
        ];
        let mut shelf = shelf_of(alloc, &files, &[call])?;
        let given = ran_into(&rt, alloc, &words, &mut shelf, WHOLE)?;
        assert_eq!(rt; given, answer(alloc, status, text.as_bytes())?);
    }
    Ok(())
}

#[test]
fn one_shelf_and_one_sink_serve_two_runs(rt: HostRuntime) -> Result<(), Fail> {
    let alloc = rt.alloc();
    let words = words_of(alloc, &["analyse", "fmlp+", "set"])?;
    let mut shelf = shelf_of(alloc, &[("set", PAIR.as_bytes())], &[])?;
    let mut sink = MemSink::new(alloc, 1000, 4096, Vec::new(alloc))?;
    let first = run(&rt, alloc, &words, &mut shelf, &mut sink);
    let second = run(&rt, alloc, &words, &mut shelf, &mut sink);
    assert!(rt; (first, second) == (Status::Done, Status::Done));
    assert!(rt; sink.written().len() == 2 * PAIR_CERTIFICATE.len());
    Ok(())
}

/// Analyses the set.
fn analyse_into<R: Threads + Sync>(rt: &R, alloc: Global, out: Out) -> Result<Given, AllocError> {
    let mut shelf = shelf_of(alloc, &[("set", PAIR.as_bytes())], &[])?;
    ran_into(rt, alloc, &["analyse", "fmlp+", "set"], &mut shelf, out)
}

/// The first bytes of the certificate, which has 207.
fn first_bytes(count: usize) -> &'static [u8] {
    let text = PAIR_CERTIFICATE.as_bytes();
    &text[..count.min(text.len())]
}

// Of 207 bytes in pieces of three the last goes out with write 69.
#[test]
fn a_failing_write_leaves_the_pieces_before_it(rt: HostRuntime) -> Result<(), Fail> {
    let alloc = rt.alloc();
    for before in 0..70usize {
        let out = Out {
            room: 1000,
            piece: 3,
            failing: before as u64 + 1,
        };
        let status = if before < 69 { 4 } else { 0 };
        let want = answer(alloc, status, first_bytes(3 * before))?;
        assert_eq!(rt;
            analyse_into(&rt, alloc, out)?,
            want,
            "after {before} writes"
        );
    }
    Ok(())
}

#[test]
fn a_sink_is_full_one_byte_early_or_just_in_time(rt: HostRuntime) -> Result<(), Fail> {
    let alloc = rt.alloc();
    for (room, status) in [(206, 4), (207, 0)] {
        let out = Out {
            room,
            piece: 200,
            failing: 0,
        };
        assert_eq!(rt;
            analyse_into(&rt, alloc, out)?,
            answer(alloc, status, first_bytes(room))?
        );
    }
    Ok(())
}

// The last brace is before the line end.
#[test]
fn no_beginning_of_a_set_is_json(rt: HostRuntime) -> Result<(), Fail> {
    let alloc = rt.alloc();
    let words = ["analyse", "fmlp+", "set"];
    let set = PAIR.as_bytes();
    let want = answer(alloc, 3, b"refused set notjson\n")?;
    for end in 0..set.len().saturating_sub(1) {
        let given = ran(&rt, alloc, &words, &[("set", &set[..end])])?;
        assert_eq!(rt; given, want, "the first {end} bytes");
    }
    Ok(())
}

#[test]
fn no_beginning_of_a_certificate_is_json(rt: HostRuntime) -> Result<(), Fail> {
    let alloc = rt.alloc();
    let words = ["check", "fmlp+", "set", "cert"];
    let certificate = PAIR_CERTIFICATE.as_bytes();
    let want = answer(alloc, 3, b"refused cert notjson\n")?;
    for end in 0..certificate.len().saturating_sub(1) {
        let files = [("set", PAIR.as_bytes()), ("cert", &certificate[..end])];
        let given = ran(&rt, alloc, &words, &files)?;
        assert_eq!(rt; given, want, "the first {end} bytes");
    }
    Ok(())
}
