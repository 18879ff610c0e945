//! Rows in memory that grow by puts.
ghost use Rattle.std.specs.Prelude.{◌≡◌, IfOk, OnOk, OnErr};
ghost use Rattle.am_keeper.specs.Rows.{IsInOrder, with_row, with_all};

use crate::{Row, Rows, RowsBuilder};
use std::alloc::{AllocError, Global};
use std::marker::Model;

/// Rows, and what was put into them since. Contracts see this as the resulting rows.
#[derive(Drop)]
pub(crate) struct Logged {
    first: Rows,
    puts: Vec<Row>,
    alloc: Global,
}

impl Model for Logged {
    ghost use Rattle.am_keeper.specs.declared.rows.Rows.{Rows};
    ghost use Rattle.am_keeper.specs.Rows.{IsInOrder, with_all};

    ghost Value = { Rows };

    ghost view = { λ l. with_all l.first l.puts.items };

    ghost invariant = { λ l. IsInOrder l.first };
}

/// Puts these rows, one after the other.
fn replay(made: &mut RowsBuilder, puts: &[Row]) -> Result<(), AllocError>
    ensures { OnOk result (made.new ≡ with_all made.old puts.now) }
{
    for row in puts {
        made.put(row.clone()?)?;
    }
    Ok(())
}

impl Logged {
    pub fn new(alloc: Global, first: Rows) -> Self
        requires { IsInOrder first }
        ensures { result ≡ first }
    {
        Logged {
            first,
            puts: Vec::new(alloc),
            alloc,
        }
    }

    /// Puts the row. If memory runs out, nothing changes.
    #[tactic(auto, using(crate::proofs::Replays::with_all_push))]
    pub fn put(&mut self, row: Row) -> Result<(), AllocError>
        ensures ok { OnOk result (self.new ≡ with_row self.old row) }
        ensures err { OnErr result (self.new ≡ self.old) }
    {
        self.puts.push(row)?;
        Ok(())
    }

    /// The rows.
    pub fn rows(&self) -> Result<Rows, AllocError>
        ensures rows { IfOk result (λ rows. rows ≡ self.now) }
        ensures in_order { IfOk result IsInOrder }
    {
        let mut made = RowsBuilder::from_rows(self.alloc, &self.first)?;
        replay(&mut made, &self.puts)?;
        Ok(made.finish())
    }
}
