// Tables that are asked and read, and what is answered.
use crate::laid::laid;
use ingest::{
    ConversionPass, JaggedIngestError, Record, check_order, height, heights, pass, piece_height,
    read_columns, read_committed, witness_of_buffer, witness_of_vector, write_piece,
};
use ring::Word;
use std::test::Fail;

pub(crate) fn dense(place: usize, height: usize) -> Record {
    Record::Dense { place, height }
}

pub(crate) fn bits(place: usize, words: usize, height: usize) -> Record {
    Record::Bits {
        place,
        words,
        height,
    }
}

pub(crate) fn strided(length: usize, first: usize, stride: usize, height: usize) -> Record {
    Record::Interleaved {
        place: 0,
        length,
        first,
        stride,
        height,
    }
}

pub(crate) fn chunk(from: usize, count: usize) -> Record {
    Record::Chunked { from, count }
}

fn wrong(record: usize) -> Result<(), JaggedIngestError> {
    Err(JaggedIngestError::TableOutOfOrder { record })
}

// The number of the fault of a piece over 4 cells and 1 word, or 0: a test tells numbers, as the records of a run do.
fn fault(entry: Record) -> u8 {
    let cells = [Word::new(7); 4];
    let mut out = [Word::new(0); 4];
    write_piece(&[entry], 0, &cells, &[5], &mut out)
        .err()
        .map_or(0, |fault| fault.number())
}

#[test]
fn orders(rt: HostRuntime) {
    let leaf = dense(0, 0);
    assert_eq!(rt; check_order(&[chunk(2, 0)], 1), wrong(0));
    assert_eq!(rt; check_order(&[], 1), wrong(0));
    assert_eq!(rt; check_order(&[leaf], 3), wrong(1));
    assert_eq!(rt; check_order(&[leaf, leaf], 1), wrong(1));
    assert_eq!(rt; check_order(&[chunk(1, 0), leaf], 1), wrong(1));
    assert_eq!(rt; check_order(&[chunk(1, usize::MAX), leaf], 1), wrong(2));
    assert_eq!(rt;
        check_order(&[chunk(1, usize::MAX), chunk(usize::MAX, 0)], 1),
        wrong(1)
    );
    assert_eq!(rt;
        check_order(&[chunk(2, 1), chunk(2, 1), leaf, leaf], 2),
        wrong(1)
    );
    assert_eq!(rt;
        check_order(&[chunk(2, 1), chunk(3, 1), leaf, leaf], 2),
        Ok(())
    );
    assert_eq!(rt;
        check_order(&[chunk(1, 1), chunk(2, 1), chunk(3, 0)], 1),
        Ok(())
    );
    assert_eq!(rt; check_order(&[leaf; 4096], 4096), Ok(()));
    assert_eq!(rt; check_order(&[leaf; 4097], 4097), wrong(4096));
}

#[test]
fn asks(rt: HostRuntime) {
    let half = 1usize << 63;
    let tall = [chunk(2, 2), dense(0, 3), bits(0, 0, half), bits(0, 0, half)];
    assert_eq!(rt; height(&tall, 2, 1), Ok(3));
    assert_eq!(rt;
        height(&tall, 2, 0),
        Err(JaggedIngestError::ColumnHeightOverflow { column: 0 })
    );
    assert_eq!(rt;
        height(&tall, 2, 2),
        Err(JaggedIngestError::NoSuchColumn {
            column: 2,
            columns: 2,
        })
    );
    assert_eq!(rt; pass(&tall, 2, 0), Ok(ConversionPass::Widened));
    assert_eq!(rt; pass(&[chunk(1, 0)], 1, 0), Ok(ConversionPass::Copied));
    assert_eq!(rt;
        piece_height(&[chunk(1, 2), bits(0, 0, half), bits(0, 0, half)], 5),
        Err(JaggedIngestError::ColumnHeightOverflow { column: 5 })
    );
    let mut out = [9; 3];
    assert_eq!(rt; heights(&[dense(0, 4), dense(0, 6)], 2, &mut out), Ok(2));
    assert!(rt; out == [4, 6, 9]);
}

#[test]
fn leaves(rt: HostRuntime) {
    assert_eq!(rt; fault(dense(5, 0)), 16);
    assert_eq!(rt; fault(dense(4, 0)), 0);
    assert_eq!(rt; fault(strided(4, 0, 0, 1)), 12);
    assert_eq!(rt; fault(strided(4, 9, 0, 0)), 0);
    assert_eq!(rt; fault(strided(4, 4, 1, 1)), 13);
    assert_eq!(rt; fault(strided(5, 0, 1, 0)), 16);
    assert_eq!(rt; fault(bits(0, 1, 65)), 14);
    assert_eq!(rt; fault(bits(0, 2, 1)), 16);
    let cells = [Word::new(7); 4];
    let mut out = [Word::new(0); 4];
    assert_eq!(rt;
        write_piece(&[strided(4, 0, 1usize << 63, 3)], 2, &cells, &[], &mut out),
        Err(JaggedIngestError::StrideOutOfRange {
            column: 2,
            required: usize::MAX,
            available: 4,
        })
    );
}

#[test]
fn reads(rt: HostRuntime) -> Result<(), Fail> {
    let layout = laid(3, &[5, 2])?;
    let cells = [11, 12, 13, 14, 15, 16].map(Word::new);
    let gathered = Record::Interleaved {
        place: 2,
        length: 4,
        first: 0,
        stride: 3,
        height: 2,
    };
    let table = [chunk(2, 2), gathered, dense(1, 2), bits(0, 1, 3)];
    let mut buffer = [Word::new(99); 9];
    let report = read_columns(&layout, &table, 2, &cells, &[5], &mut buffer)?;
    assert!(rt; buffer.map(Word::number) == [12, 13, 1, 0, 1, 13, 16, 0, 99]);
    assert_eq!(rt; report.charged(ConversionPass::Gathered), 2);
    assert_eq!(rt; report.charged(ConversionPass::Widened), 5);
    assert_eq!(rt; report.envelope(), 1);
    assert_eq!(rt; report.live(), 7);
    assert_eq!(rt; witness_of_buffer(&layout, &buffer)?.len(), 8);
    assert!(rt; witness_of_vector(&layout, &cells).is_err());
    assert!(rt; read_committed(&layout, &buffer)?.reads_no_cell());
    Ok(())
}
