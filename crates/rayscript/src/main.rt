// rayscript: reads a script of calls of all layers from standard input and prints a record of each.
#![tactic(auto)]

use lines::step;
use script::Session;
use std::io;
use std::io::Read;
use words::{Mark, pieces};

// The programs share no function for this: it would be public and promise nothing, as no clause tells what is printed.
fn main(rt: HostRuntime) -> io::Result<()> {
    let heap = rt.alloc();
    let mut text = Vec::new(heap);
    rt.stdin().read_to_end(&mut text)?;
    let mut session = Session::new(heap);
    for (number, line) in (1..=u64::MAX).zip(pieces(heap, &text, Mark::Newline)?.iter()) {
        if let Some(record) = step(&mut session, heap, number, line)? {
            rt.println(record)?;
        }
    }
    Ok(())
}

#[cfg(test)]
mod tests {
    use super::*;
    use std::test::Fail;

    #[test]
    fn a_script_is_recorded(rt: HostRuntime) -> Result<(), Fail> {
        let heap = rt.alloc();
        let mut session = Session::new(heap);
        assert!(rt; step(&mut session, heap, 1, b"# one column")?.is_none());
        let built = step(&mut session, heap, 2, b"new a 1 2,1")?.ok_or("skipped")?;
        assert_eq!(rt; built.as_str(), "2 ok");
        let refused = step(&mut session, heap, 3, b"new a 1 3")?.ok_or("skipped")?;
        assert_eq!(rt;
            refused.as_str(),
            "3 fault 5 HeightExceedsRowBound column=0 height=3 maximum=2"
        );
        let height = step(&mut session, heap, 4, b"column_height a 1")?.ok_or("skipped")?;
        assert_eq!(rt; height.as_str(), "4 ok height=1");
        Ok(())
    }

    #[test]
    fn a_byte_past_ascii_is_no_call(rt: HostRuntime) -> Result<(), Fail> {
        let heap = rt.alloc();
        let mut session = Session::new(heap);
        let record = step(&mut session, heap, 1, b"show \xff")?.ok_or("skipped")?;
        assert_eq!(rt; record.as_str(), "1 no call");
        Ok(())
    }
}
