//! The edge of the program: what it makes of the words that the system gives, and of what a run ends with.
ghost use Rattle.std.specs.Prelude.{◌≡◌, drop, Ok, IfOk};
ghost use Rattle.std.specs.Vec.Iter.{into_iter_items};
ghost use Rattle.std.specs.Process.{exit_status};
ghost use Rattle.block_top.specs.Edge.{GivenWords, GivesWords, Runs, Answers};

use crate::top::run;
use command_inputs::Status;
use outside_ports::{Shelf, Sink};
use std::alloc::{AllocError, Global};
use std::env::{self, Args};
use std::io::{self, ErrorKind};
use std::process::{ExitCode, Termination};
use std::rt::Runtime;
use std::thread::Threads;

/// The source of the words that the program was started with.
///
/// `gives` says what these may be. So a contract that cites it says that they were asked for.
pub trait Words {
    ghost gives: { Self → GivenWords → Type 0 };

    /// All words, the program's name first. Or why there are none.
    fn words(&self) -> io::Result<Args>
        ensures { gives self.now result };
}

/// The words of this process. No clause can say that they are: you see it in the one line of `words`.
#[derive(Drop)]
pub struct ProcessWords<'a, R: Runtime + AllocGlobal> {
    runtime: &'a R,
}

impl<'a, R: Runtime + AllocGlobal> ProcessWords<'a, R> {
    /// The words with which this runtime's process was started.
    pub fn new(runtime: &'a R) -> ProcessWords<'a, R> {
        ProcessWords { runtime }
    }
}

impl<'a, R: Runtime + AllocGlobal> Words for ProcessWords<'a, R> {
    ghost gives = { λ _ given. Unit {0} };

    fn words(&self) -> io::Result<Args> {
        env::args(self.runtime)
    }
}

/// How the process ends: with the status of one call of [`answer_words`]. Only that call makes such a value.
///
/// It isn't `Drop`, so nobody can let it go. A `main` that returns it ends with what that call answered.
pub struct Ended {
    status: u8,
}

impl Termination for Ended {
    fn report<R: Eprint>(self, _rt: &R) -> ExitCode
        ensures { exit_status result ≡ self.status }
    {
        let Ended { status } = self;
        ExitCode::from(status)
    }
}

/// Answers the words that the program was started with, over this shelf and this sink. It uses this runtime's memory and threads.
///
/// The status is that of one `run` with the words after the program's name. It is 7 if memory ran out before that, and then nothing was
/// read or written.
pub fn answer_words<R: Runtime + AllocGlobal + Threads + Sync, W: Words, S: Shelf, K: Sink>(
    rt: &R,
    words: &W,
    shelf: &mut S,
    sink: &mut K,
) -> Ended
    ensures { Answers (W.gives words.now) (S.seen shelf.old) (S.seen shelf.new) (K.seen sink.old) (K.seen sink.new) result.status }
{
    match words_of(rt.alloc(), words.words()) {
        Ok(words) => run_over(rt, words, shelf, sink),
        Err(AllocError) => Ended {
            status: Status::Memory.number(),
        },
    }
}

/// One run with these words.
fn run_over<R: Runtime + AllocGlobal + Threads + Sync, S: Shelf, K: Sink>(
    rt: &R,
    words: Vec<String>,
    shelf: &mut S,
    sink: &mut K,
) -> Ended
    ensures { Runs (S.seen shelf.old) (S.seen shelf.new) (K.seen sink.old) (K.seen sink.new) result.status (Ok words) }
{
    let status = run(rt, rt.alloc(), &words, shelf, sink);
    Ended {
        status: status.number(),
    }
}

/// The words that std gives, after the program's name. There are none if one isn't UTF-8.
fn words_of(alloc: Global, given: io::Result<Args>) -> Result<Vec<String>, AllocError>
    ensures { GivesWords given result }
{
    match given {
        Ok(args) => words_behind_name(alloc, args),
        Err(error) if error.kind() == ErrorKind::OutOfMemory => Err(AllocError),
        Err(_) => Ok(Vec::new(alloc)),
    }
}

/// The words after the first.
fn words_behind_name(alloc: Global, given: Args) -> Result<Vec<String>, AllocError>
    ensures { IfOk result (λ words. words.items ≡ drop 1 (into_iter_items given)) }
{
    let mut words = Vec::new(alloc);
    let mut rest = given;
    rest.next();
    while let Some(word) = rest.next() {
        words.push(word)?;
    }
    Ok(words)
}
