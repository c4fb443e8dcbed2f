#![tactic(auto)]

ghost use Rattle.std.specs.Prelude.{◌≡◌, ◌==◌, position};
ghost use Rattle.columns.specs.Lent.{table_of};
ghost use Rattle.records.specs.Records.{rows_in};
ghost use Rattle.ask.specs.Outcomes.{answered};
ghost use Rattle.format.specs.Asking as asking;

use columns::Columns;
use format::As;
use reading::{Reason, Refusal};

// The index of the first label that is the one looked for.
fn find(labels: &[u32], sought: u32) -> Option<usize>
    ensures { result ≡ position (λ label. label == sought) labels.now }
{
    // By place, not `position`: an edit begins at 1.
    for k in 0..labels.len() {
        if labels[k] == sought {
            return Some(k);
        }
    }
    None
}

// The first row of ten columns that has a label is asked, 16 where there is none. There are as many rows as the shortest column has.
pub fn lookup(columns: Columns<'_>, sought: u32, wanted: As) -> Result<i64, Refusal>
    ensures { answered result ≡ asking.lookup (rows_in (table_of columns.entry)) sought wanted }
{
    let n = columns.shortest();
    match find(&columns.label[..n], sought) {
        Some(k) => ask::ask(columns.row(k), wanted),
        None => Err(Refusal {
            place: 0,
            reason: Reason::Missing,
        }),
    }
}
