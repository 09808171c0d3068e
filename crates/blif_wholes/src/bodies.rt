//! The rows of covers, kept beside models by number.

ghost use Rattle.std.specs.Prelude.{◌≡◌, IfOk};
ghost use Rattle.blif_wholes.specs.Bodies.{rows_at};

use cover_nets::Rows;
use edge_bits::List;
use std::alloc::{AllocError, Global};

/// The rows of a cover, and their output, which is true where there are none.
#[derive(Drop)]
pub struct CoverRows {
    pub rows: Rows,
    pub on: bool,
}

impl CoverRows {
    /// The same rows for one more gate.
    fn share(&self) -> Result<CoverRows, AllocError>
        ensures { IfOk result (λ other. other ≡ self.now) }
    {
        let rows = self.rows.share()?;
        Ok(CoverRows { rows, on: self.on })
    }
}

/// The rows that are kept at a place of a model.
pub fn rows_at(
    alloc: Global,
    kept: &[Vec<Option<CoverRows>>],
    model: u32,
    place: usize,
) -> Result<CoverRows, AllocError>
    ensures { IfOk result (λ body. body ≡ rows_at kept.now model place) }
{
    if let Some(own) = kept.get(model as usize) {
        if let Some(Some(body)) = own.get(place) {
            return body.share();
        }
    }
    let rows = Rows::new(alloc, List::new(alloc))?;
    Ok(CoverRows { rows, on: true })
}
