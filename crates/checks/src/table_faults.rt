// Tables and memory that are refused, and rows that are nested deep or read twice.
use crate::laid::laid;
use crate::table_reading::{bits, chunk, dense, strided};
use ingest::{
    ConversionPass, JaggedIngestError, MAX_RECORDS, Record, height, heights, pass, read_columns,
    read_committed, witness_of_buffer, witness_of_vector, write_piece,
};
use ring::Word;
use std::test::Fail;

// What two columns of heights 2 and 1 are refused for, over 4 cells, 1 word and a buffer of 4 cells.
fn fault(first: Record, second: Record) -> Result<Option<JaggedIngestError>, Fail> {
    let layout = laid(1, &[2, 1])?;
    let cells = [Word::new(7); 4];
    let mut buffer = [Word::new(9); 4];
    Ok(read_columns(&layout, &[first, second], 2, &cells, &[5], &mut buffer).err())
}

// A chain of chunks of one part each, and a leaf of two rows at its end.
fn chain() -> [Record; MAX_RECORDS] {
    let mut table = [dense(1, 2); MAX_RECORDS];
    for (record, next) in table.iter_mut().zip(1..MAX_RECORDS) {
        *record = chunk(next, 1);
    }
    table
}

#[test]
fn refuses_columns(rt: HostRuntime) -> Result<(), Fail> {
    let one = dense(3, 1);
    assert_eq!(rt; fault(dense(0, 2), one)?, None);
    assert_eq!(rt;
        fault(chunk(3, 0), one)?,
        Some(JaggedIngestError::TableOutOfOrder { record: 0 })
    );
    assert_eq!(rt;
        fault(dense(0, 1), one)?,
        Some(JaggedIngestError::ColumnHeightMismatch {
            column: 0,
            expected: 2,
            actual: 1,
        })
    );
    assert_eq!(rt;
        fault(strided(4, 0, 0, 2), one)?,
        Some(JaggedIngestError::ZeroStride { column: 0 })
    );
    assert_eq!(rt;
        fault(strided(4, 0, 4, 2), one)?,
        Some(JaggedIngestError::StrideOutOfRange {
            column: 0,
            required: 5,
            available: 4,
        })
    );
    assert_eq!(rt;
        fault(bits(1, 0, 2), one)?,
        Some(JaggedIngestError::PackedWordsTooShort {
            column: 0,
            required: 1,
            available: 0,
        })
    );
    let outside = JaggedIngestError::PlaceOutsideBlock {
        column: 1,
        record: 1,
    };
    assert_eq!(rt; fault(dense(0, 2), dense(4, 1))?, Some(outside));
    assert_eq!(rt; fault(bits(0, 1, 2), bits(0, 2, 1))?, Some(outside));
    Ok(())
}

#[test]
fn refuses_memory(rt: HostRuntime) -> Result<(), Fail> {
    let layout = laid(1, &[2, 1])?;
    let table = [dense(0, 2), dense(3, 1)];
    let cells = [Word::new(7); 4];
    let mut buffer = [Word::new(9); 3];
    let short = JaggedIngestError::BufferTooShort {
        required: 4,
        available: 3,
    };
    assert_eq!(rt;
        read_columns(&layout, &table, 1, &cells, &[], &mut buffer).err(),
        Some(JaggedIngestError::ColumnCountMismatch {
            expected: 2,
            actual: 1,
        })
    );
    assert_eq!(rt;
        read_columns(&layout, &table, 2, &cells, &[], &mut buffer).err(),
        Some(short)
    );
    assert_eq!(rt; witness_of_buffer(&layout, &buffer).err(), Some(short));
    assert_eq!(rt;
        write_piece(&[dense(0, 4)], 5, &cells, &[], &mut buffer),
        Err(short)
    );
    let vector = JaggedIngestError::CommittedVectorTooShort {
        required: 4,
        available: 3,
    };
    assert_eq!(rt; read_committed(&layout, &buffer).err(), Some(vector));
    assert_eq!(rt; witness_of_vector(&layout, &buffer).err(), Some(vector));
    let mut out = [0; 1];
    assert_eq!(rt;
        heights(&table, 2, &mut out),
        Err(JaggedIngestError::BufferTooShort {
            required: 2,
            available: 1,
        })
    );
    assert_eq!(rt;
        pass(&table, 2, 2),
        Err(JaggedIngestError::NoSuchColumn {
            column: 2,
            columns: 2,
        })
    );
    assert!(rt; buffer.map(Word::number) == [9; 3]);
    Ok(())
}

#[test]
fn nests(rt: HostRuntime) {
    let cells = [11, 12, 13, 14].map(Word::new);
    let mut out = [Word::new(9); 4];
    let deep = chain();
    assert_eq!(rt; height(&deep, 1, 0), Ok(2));
    assert_eq!(rt; pass(&deep, 1, 0), Ok(ConversionPass::Copied));
    assert_eq!(rt; write_piece(&deep, 0, &cells, &[], &mut out), Ok(2));
    assert_eq!(rt; out[1].number(), 13);
    // The same rows, finer cut and nested, and then two parts over the same cells.
    let cut = [
        chunk(1, 2),
        dense(0, 1),
        chunk(3, 2),
        dense(1, 2),
        dense(3, 1),
    ];
    assert_eq!(rt; write_piece(&cut, 0, &cells, &[], &mut out), Ok(4));
    assert!(rt; out.map(Word::number) == [11, 12, 13, 14]);
    let twice = [chunk(1, 2), dense(1, 2), strided(4, 0, 2, 2)];
    assert_eq!(rt; write_piece(&twice, 0, &cells, &[], &mut out), Ok(4));
    assert!(rt; out.map(Word::number) == [12, 13, 11, 13]);
}
