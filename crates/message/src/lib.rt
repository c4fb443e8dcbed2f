#![tactic(auto)]

ghost use Rattle.std.specs.Prelude.{◌^◌, ◌<◌, length};
ghost use Rattle.columns.specs.Lent.{table, SameLoans};
ghost use Rattle.message.specs.Messages.{RowsStored, MessageRead};

use columns::ColumnsMut;
use reading::{Reason, Refusal};

// Fills in the n rows of an accepted message, if there is room for them in every column; else nothing is written.
pub fn store_rows(src: &[u8], columns: &mut ColumnsMut<'_>, n: usize) -> Result<(), Refusal>
    requires { (length src.now < 2 ^ 32) × (n < 2 ^ 32) }
    ensures lent { SameLoans columns.old columns.new }
    ensures stored { RowsStored src.now n (table columns.old) result (table columns.new) }
{
    let room = columns.rows().shortest();
    if room < n {
        return Err(Refusal {
            place: 0,
            reason: Reason::FewRows,
        });
    }
    fill::fill(src, columns, n);
    Ok(())
}

// Reading a message into ten lent columns: how many rows it has, which stand first in each column; or a refusal, and the columns are as they were.
pub fn read_message(src: &[u8], columns: &mut ColumnsMut<'_>) -> Result<usize, Refusal>
    ensures lent { SameLoans columns.old columns.new }
    ensures read { MessageRead src.now (table columns.old) result (table columns.new) }
{
    // An arm, not `?`: an edit turns what it hands on.
    let n = match measure::count_rows(src) {
        Ok(count) => count,
        Err(r) => return Err(r),
    };
    store_rows(src, columns, n)?;
    Ok(n)
}
