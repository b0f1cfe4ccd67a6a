// The words of a script: a text is cut at its marks, and single words say numbers, lists, bytes and names.
#![tactic(auto)]

mod items;
mod literal;
mod split;
mod unsaid;

pub use items::{Item, Numbers, list, list_of, run, starred};
pub use literal::{MAX_CELLS, bytes, name, number, says, size, truth};
pub use split::{Mark, pieces, reach, words};
pub use unsaid::Unsaid;

// Lists whose marks and limit are the caller's.
#[cfg(test)]
mod tests {
    use crate::items::{Numbers, list_of};
    use crate::split::Mark;
    use std::test::Fail;

    #[test]
    fn lists_are_read(rt: HostRuntime) -> Result<(), Fail> {
        let heap = rt.alloc();
        let read = list_of::<Numbers>(heap, b"2;3*2", Mark::Semicolon, 3)
            .ok()
            .ok_or("a list")?;
        assert!(rt; read.as_slice() == [2, 3, 3].as_slice());
        let none = list_of::<Numbers>(heap, b"-", Mark::Semicolon, 0)
            .ok()
            .ok_or("no item")?;
        assert!(rt; none.is_empty());
        assert!(rt; list_of::<Numbers>(heap, b"2;3*3", Mark::Semicolon, 3).is_err());
        Ok(())
    }
}
