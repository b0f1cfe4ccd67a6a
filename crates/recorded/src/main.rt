// recorded: makes the calls that the original was asked, so that its recorded answers are held against the library's.
#![tactic(auto)]

use lines::step;
use script::Session;
use std::io;
use std::io::Read;
use words::{Mark, pieces};

// The programs share no function for this: it would be public and promise nothing, as no clause tells what is printed.
fn main(rt: HostRuntime) -> io::Result<()> {
    let heap = rt.alloc();
    let mut text = Vec::new(heap);
    rt.stdin().read_to_end(&mut text)?;
    let mut session = Session::new(heap);
    for (number, line) in (1..=u64::MAX).zip(pieces(heap, &text, Mark::Newline)?.iter()) {
        if let Some(record) = step(&mut session, heap, number, line)? {
            rt.println(record)?;
        }
    }
    Ok(())
}
