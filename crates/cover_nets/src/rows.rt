//! Rows of covers.

ghost use Rattle.std.specs.Prelude.{◌≡◌, IfOk};
ghost use Rattle.std.specs.Arc.{arc_value};

use crate::net::Cube;
use edge_bits::List;
use std::alloc::{AllocError, Global};
use std::marker::Model;
use std::sync::Arc;

/// The rows of a cover. Gates that are copies of one cover share them.
#[derive(Drop)]
pub struct Rows {
    shared: Arc<List<Cube>, Global>,
}

impl Model for Rows {
    ghost use Rattle.std.specs.Prelude.{List as ListOf};
    ghost use Rattle.std.specs.Arc.{arc_value};
    ghost use Rattle.cover_nets.specs.declared.net.Cube.{Cube};

    ghost Value = { ListOf Cube };

    ghost view = { λ rows. arc_value rows.shared };
}

impl Rows {
    /// These rows, of one gate.
    pub fn new(alloc: Global, rows: List<Cube>) -> Result<Rows, AllocError>
        ensures { IfOk result (λ one. one ≡ rows) }
    {
        let shared = Arc::new(alloc, rows)?;
        Ok(Rows { shared })
    }

    /// The same rows for one more gate. No row is copied.
    pub fn share(&self) -> Result<Rows, AllocError>
        ensures { IfOk result (λ other. other ≡ self.now) }
    {
        let shared = Arc::try_clone(&self.shared)?;
        Ok(Rows { shared })
    }

    /// The rows.
    pub fn as_slice(&self) -> &[Cube]
        ensures { result.now ≡ self.now }
    {
        self.shared.as_slice()
    }
}
