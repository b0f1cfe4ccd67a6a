// Layouts of jagged tables: columns of unequal heights, one after the other in a dense vector.
#![tactic(auto)]

mod build;
mod encode;
mod error;
mod geometry;
mod read;
mod text;

pub use error::JaggedLayoutError;
pub use geometry::{JaggedLayout, MAX_BOUNDARIES, MAX_COLUMNS};

// Layouts that are asked for, and what is answered.
#[cfg(test)]
mod tests {
    use crate::error::JaggedLayoutError;
    use crate::geometry::JaggedLayout;
    use std::test::Fail;

    fn asked(
        rows: usize,
        heights: &[usize],
        minimum: usize,
    ) -> Result<JaggedLayout, JaggedLayoutError> {
        let mut layout = JaggedLayout::empty();
        layout.with_min_dense_variables(rows, heights, minimum)?;
        Ok(layout)
    }

    // The number of the fault, or 0: a test tells numbers, as the records of a run do.
    fn fault(rows: usize, heights: &[usize], minimum: usize) -> u8 {
        match asked(rows, heights, minimum) {
            Ok(_) => 0,
            Err(fault) => fault.number(),
        }
    }

    #[test]
    fn counts(rt: HostRuntime) {
        assert_eq!(rt; fault(0, &[], 0), 1);
        assert_eq!(rt; fault(0, &[0; 3], 0), 2);
        assert_eq!(rt; fault(0, &[0; 256], 0), 0);
        assert_eq!(rt; fault(0, &[0; 257], 0), 2);
        assert_eq!(rt;
            asked(0, &[0; 512], 0),
            Err(JaggedLayoutError::TooManyColumns {
                columns: 512,
                maximum: 256,
            })
        );
        assert_eq!(rt; fault(63, &[0], 0), 0);
        assert_eq!(rt; fault(64, &[0], 0), 4);
    }

    #[test]
    fn heights(rt: HostRuntime) -> Result<(), Fail> {
        let half = 1usize << 63;
        assert_eq!(rt; fault(1, &[2], 0), 0);
        assert_eq!(rt;
            asked(1, &[3], 0),
            Err(JaggedLayoutError::HeightExceedsRowBound {
                column: 0,
                height: 3,
                maximum: 2,
            })
        );
        assert_eq!(rt;
            asked(63, &[half, half], 0),
            Err(JaggedLayoutError::AreaOverflow { column: 1 })
        );
        assert_eq!(rt;
            asked(63, &[half, 1], 0),
            Err(JaggedLayoutError::DenseAreaOverflow { area: half + 1 })
        );
        assert_eq!(rt; asked(63, &[half], 0)?.dense_variables(), 63);
        assert_eq!(rt; asked(0, &[0], 63)?.dense_variables(), 63);
        assert_eq!(rt;
            asked(0, &[0], 64),
            Err(JaggedLayoutError::DenseVariablesOverflow { variables: 64 })
        );
        Ok(())
    }

    #[test]
    fn reads(rt: HostRuntime) -> Result<(), Fail> {
        let mut layout = asked(1, &[2, 1], 0)?;
        let kept = layout;
        assert_eq!(rt; layout.new(0, &[]), Err(JaggedLayoutError::NoColumns));
        assert!(rt; layout == kept);
        assert!(rt; layout.cumulative_heights() == [0, 2, 3].as_slice());
        assert_eq!(rt; layout.dense_variables(), 2);
        assert_eq!(rt; layout.column_variables(), 1);
        assert_eq!(rt; layout.dense_capacity(), 4);
        assert_eq!(rt; layout.area(), 3);
        assert_eq!(rt; layout.column_height(1), Ok(1));
        assert_eq!(rt;
            layout.column_height(2),
            Err(JaggedLayoutError::NoSuchColumn {
                column: 2,
                columns: 2,
            })
        );
        Ok(())
    }

    #[test]
    fn writes(rt: HostRuntime) -> Result<(), Fail> {
        let layout = asked(1, &[2, 1], 0)?;
        let mut bytes = [9; 50];
        assert_eq!(rt;
            layout.encode_layout(&mut bytes[0..47]),
            Err(JaggedLayoutError::BufferTooShort {
                required: 48,
                available: 47,
            })
        );
        assert_eq!(rt; bytes[0], 9);
        assert_eq!(rt; layout.encode_layout(&mut bytes), Ok(48));
        for (place, number) in [1, 2, 3, 0, 2, 3].iter().enumerate() {
            assert_eq!(rt; bytes[8 * place + 6], 0);
            assert_eq!(rt; bytes[8 * place + 7], *number);
        }
        assert_eq!(rt; bytes[48], 9);
        Ok(())
    }
}
