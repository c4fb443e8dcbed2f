#![tactic(auto)]

ghost use Rattle.std.specs.Prelude.{◌+◌, ◌≤◌, length};
ghost use Rattle.format.specs.Desk.{printed, line_text};
ghost use Rattle.format.specs.Message.{read_frame};
ghost use Rattle.columns.specs.Columns.{Roomy};
ghost use Rattle.columns.specs.Lent.{table_of};
ghost use Rattle.listing.specs.Listing.{Fits, RowsListed, Listed, LinesListed};

use columns::{Columns, ColumnsMut};
use reading::{Reason, Refusal};

// Writes the lines of the first n rows of ten columns from a place on.
fn put_rows(rows: Columns<'_>, n: usize, out: &mut [u8], at: usize) -> usize
    requires { Roomy n (table_of rows) × Fits at n out.old }
    ensures { RowsListed (table_of rows.entry) at out.old n result out.new }
{
    let mut next = at;
    for k in 0..n {
        next = text::put_row(out, next, rows.row(k));
    }
    next
}

// Lists a frame: the line of its conversation number and its count of rows, and the line of each row; or the line of its refusal. At most 256 rows.
fn list_frame(src: &[u8], out: &mut [u8], at: usize) -> usize
    requires { at + 32768 ≤ length out.old }
    ensures { Listed (printed (read_frame 256 src.now)) at out.old result out.new }
{
    let mut columns = ColumnsMut {
        ty: &mut [0; 256],
        own: &mut [0; 256],
        label: &mut [0; 256],
        number: &mut [0; 256],
        first: &mut [0; 256],
        second: &mut [0; 256],
        place: &mut [0; 256],
        below: &mut [0; 256],
        start: &mut [0; 256],
        end: &mut [0; 256],
    };
    match frame::read_frame(src, &mut columns) {
        Ok(frame) => {
            let next = text::put_accepted(out, at, frame.conversation, frame.rows);
            put_rows(columns.rows(), frame.rows, out, next)
        }
        Err(r) => text::put_refused(out, at, r),
    }
}

// Lists the frame of a line, given without its line feed: writes what the desk prints for it from a place on, and gives the place past it.
pub fn list_line(line: &[u8], out: &mut [u8], at: usize) -> usize
    requires { at + 32768 ≤ length out.old }
    ensures { Listed (line_text line.now) at out.old result out.new }
{
    let mut octets = [0u8; 4096];
    match text::line_octets(line, &mut octets) {
        Some(n) => list_frame(&octets[..n], out, at),
        None => text::put_refused(
            out,
            at,
            Refusal {
                place: 0,
                reason: Reason::BadLine,
            },
        ),
    }
}

// How many octets of the lines are listed, and how many are written.
#[derive(Clone, Copy)]
pub struct Progress {
    pub used: usize,
    pub written: usize,
}

// Lists whole lines from the front, each with its line feed, while there is room for what one more gives.
pub fn list_lines(src: &[u8], out: &mut [u8]) -> Progress
    ensures { LinesListed src.now out.old result out.new }
{
    let mut used = 0;
    let mut written = 0;
    // A step is a line, and the room that is left decides whether there is another.
    while 32768 <= out.len() - written {
        let Some(end) = octets::find(src, used, src.len(), b'\n') else {
            break;
        };
        written = list_line(&src[used..end], out, written);
        used = end + 1;
    }
    Progress { used, written }
}
