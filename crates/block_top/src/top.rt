ghost use Rattle.std.specs.Prelude.{◌≡◌, is_some, ◌≤◌};
ghost use Rattle.command_words.specs.Words.{words_seen};
ghost use Rattle.command_inputs.specs.Got.{Keeps};
ghost use Rattle.run_plans.specs.Run.{IsRun};
ghost use Rattle.command_inputs.specs.Statuses.{number_of};

use crate::commands::reply_to;
use command_inputs::Status;
use outside_ports::{Shelf, Sink, SinkFault, put_all};
use std::alloc::{AllocError, Global};
use std::thread::Threads;

/// Answers the words. Loads and reads the inputs that they name from the shelf, each after the one before is accepted. Then does the work,
/// and writes the answer's text to the sink. Nothing is written before the whole text is made.
///
/// Status 4 comes only if the shelf's or the sink's count of faults rose in this call. With status 7 nothing is written. With every other
/// status the whole text is out. What the shelf and the sink tell of themselves stays. A shelf that promises that no call fails raises no
/// count.
pub fn run<R: Threads + Sync, S: Shelf, K: Sink>(
    rt: &R,
    alloc: Global,
    words: &[String],
    shelf: &mut S,
    sink: &mut K,
) -> Status
    ensures run { IsRun (record {
      words = words_seen words.now;
      shelf_before = S.seen shelf.old;
      shelf_now = S.seen shelf.new;
      sink_before = K.seen sink.old;
      sink_now = K.seen sink.new;
      status = number_of result;
    }) }
    ensures keeps { Keeps (S.seen shelf.old) (S.seen shelf.new) }
    ensures tells { is_some (K.seen sink.new).written ≡ is_some (K.seen sink.old).written }
    ensures later { (K.seen sink.old).faults ≤ (K.seen sink.new).faults }
{
    let reply = match reply_to(rt, alloc, words, shelf) {
        Ok(reply) => reply,
        Err(AllocError) => return Status::Memory,
    };
    match put_all(sink, &reply.text) {
        Ok(()) => reply.status,
        Err(SinkFault) => Status::Fault,
    }
}
