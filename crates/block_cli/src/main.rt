//! The program: it answers the words after its name by one call of `block_top::answer_words`, over the system's files and standard output.
#![tactic(auto)]

use block_top::{Ended, ProcessWords, answer_words};
use outside_ports::{FileShelf, OutSink, SystemFiles};

fn main(rt: HostRuntime) -> Ended {
    let words = ProcessWords::new(&rt);
    let mut shelf = FileShelf::new(SystemFiles::new(&rt));
    let mut sink = OutSink::new(rt.stdout());
    answer_words(&rt, &words, &mut shelf, &mut sink)
}
