#![tactic(auto)]

ghost use Rattle.std.specs.Prelude.{◌+◌, ◌*◌, ◌≤◌, length};
ghost use Rattle.format.specs.Message.{read_message, read_frame};
ghost use Rattle.columns.specs.Columns.{Roomy};
ghost use Rattle.columns.specs.Lent.{table, table_of, SameLoans};
ghost use Rattle.replies.specs.Cases.{reply, message_rows, frame_rows, lent, octets_reply, case_reply};
ghost use Rattle.answers.specs.Replies.{Lent, Begins, PartsFit, PartsPut};

use columns::{Columns, ColumnsMut};

// ---- Rows ----

// Writes the parts of n rows of ten columns, from the row at k on, from a place on.
pub fn put_rows(rows: Columns<'_>, k: usize, n: usize, out: &mut [u8], at: usize) -> usize
    requires { Roomy (k + n) (table_of rows) × PartsFit at n out.old }
    ensures { PartsPut (table_of rows.entry) k n at out.old result out.new }
{
    let mut next = at;
    for i in 0..n {
        next = replies::put_row(out, next, rows.row(k + i));
    }
    next
}

// ---- Cases ----

// What an answer begins with is written up to `end`; so many rows of the columns follow, and a line feed.
#[derive(Clone, Copy)]
pub struct Begun {
    pub end: usize,
    pub rows: usize,
}

// Reading a message into the columns. Its twin below reads a frame: the answers hold other things, so one function would need both told to it.
fn begin_message(src: &[u8], columns: &mut ColumnsMut<'_>, out: &mut [u8], at: usize) -> Begun
    requires { Lent (table columns.old) × (at + 32768 ≤ length out.old) }
    ensures lent { SameLoans columns.old columns.new }
    ensures begins { Begins (reply message_rows (read_message lent src.now)) at out.old result out.new (table columns.new) }
{
    match message::read_message(src, columns) {
        Ok(n) => Begun {
            end: replies::put_ok(out, at, n as u64),
            rows: n,
        },
        Err(r) => Begun {
            end: replies::put_no(out, at, r),
            rows: 0,
        },
    }
}

// Reading a frame into the columns.
fn begin_frame(src: &[u8], columns: &mut ColumnsMut<'_>, out: &mut [u8], at: usize) -> Begun
    requires { Lent (table columns.old) × (at + 32768 ≤ length out.old) }
    ensures lent { SameLoans columns.old columns.new }
    ensures begins { Begins (reply frame_rows (read_frame lent src.now)) at out.old result out.new (table columns.new) }
{
    match frame::read_frame(src, columns) {
        Ok(frame) => Begun {
            end: replies::put_framed(out, at, frame.conversation, frame.rows),
            rows: frame.rows,
        },
        Err(r) => Begun {
            end: replies::put_no(out, at, r),
            rows: 0,
        },
    }
}

// The answer to a case with a field of octets, by its kind: the letter as it was read.
fn begin_octets(
    kind: u8,
    src: &[u8],
    columns: &mut ColumnsMut<'_>,
    out: &mut [u8],
    at: usize,
) -> Begun
    requires { Lent (table columns.old) × (at + 32768 ≤ length out.old) }
    ensures lent { SameLoans columns.old columns.new }
    ensures begins { Begins (octets_reply kind src.now) at out.old result out.new (table columns.new) }
{
    match kind {
        b'M' => begin_message(src, columns, out, at),
        b'F' => begin_frame(src, columns, out, at),
        _ => Begun {
            end: replies::begin_alone(kind, src, out, at),
            rows: 0,
        },
    }
}

// Answers a case, given without its line feed: writes what the answer begins with from a place on. The octets of its field go into `work`.
pub fn begin_line(
    line: &[u8],
    work: &mut [u8],
    columns: &mut ColumnsMut<'_>,
    out: &mut [u8],
    at: usize,
) -> Begun
    requires { (length line.now ≤ 2 * length work.old) × Lent (table columns.old) × (at + 32768 ≤ length out.old) }
    ensures lent { SameLoans columns.old columns.new }
    ensures begins { Begins (case_reply line.now) at out.old result out.new (table columns.new) }
{
    match replies::case_octets(line, work) {
        Some(n) => begin_octets(line[0], &work[..n], columns, out, at),
        None => Begun {
            end: replies::begin_plain(line, out, at),
            rows: 0,
        },
    }
}
