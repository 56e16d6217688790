//! The type of `dense_def`.
ghost use Rattle.std.specs.Prelude.{◌≡◌, ◌*◌, IfOk, length};
ghost use Rattle.dense_def.specs.Matrix.{row_by_row};

use dense_def::Dense;
use std::alloc::{AllocError, Global};
use std::test::Fail;

// The 2 by 2 matrix with these entries, row by row.
fn matrix(alloc: Global, entries: &[i128]) -> Result<Dense, AllocError>
    requires { length entries.now ≡ 2 * 2 }
    ensures { IfOk result (λ d. d ≡ row_by_row 2 2 entries.now) }
{
    Ok(Dense::new(2, 2, Vec::from_slice(alloc, entries)?))
}

// Whether a matrix has two rows and columns and these entries, row by row.
fn shows(found: &Dense, entries: [i128; 4]) -> bool {
    found.rows() == 2
        && found.columns() == 2
        && [
            found.at(0, 0),
            found.at(0, 1),
            found.at(1, 0),
            found.at(1, 1),
        ] == entries
}

#[test]
fn two_blocks(rt: HostRuntime) -> Result<(), Fail> {
    let a = matrix(rt.alloc(), &[1, 2, 0, 3])?;
    let b = matrix(rt.alloc(), &[0, 1, 4, 0])?;
    let sum = a.sum(&b)?;
    let product = a.product(&b)?;
    let transpose = a.transpose()?;
    assert!(rt; shows(&sum, [1, 3, 4, 3]));
    assert!(rt; shows(&product, [8, 1, 12, 0]));
    assert!(rt; shows(&transpose, [1, 0, 2, 3]));
    assert_eq!(rt; a.trace(), 4);
    Ok(())
}
