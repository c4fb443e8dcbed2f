#![tactic(auto)]

// The boundary: what `sumqadil_c` exports, for C and Rust programs to link. Answers are plain numbers. A function gives back 0 for a result, else the
// number of the refusal; numbers that are lent hold the rest, and 0 where there is nothing to hold. No function asks anything of its caller.
ghost use Rattle.std.specs.Prelude.{◌≡◌};
ghost use Rattle.format.specs.Message.{measure as length_of};
ghost use Rattle.measure.specs.Entries.{answer_of, rows_needed};
ghost use Rattle.columns.specs.Columns.{columns};
ghost use Rattle.frame.specs.Frames.{answer_of as framed, needs};
ghost use Rattle.ask.specs.Outcomes.{answered};
ghost use Rattle.sumqadil.specs.Told.{Counted, MessageTold, Opened, FrameTold, Valued, ask_by, AskedBy};

use columns::ColumnsMut;
use format::{As, Row};
use frame::Frame;
use reading::Refusal;

// ---- Measuring, and messages ----

fn tell_count(answer: Result<usize, Refusal>, count: &mut usize, place: &mut usize) -> u8
    ensures { Counted (answer_of answer) result count.new place.new }
{
    match answer {
        Ok(n) => {
            *count = n;
            *place = 0;
            0
        }
        Err(r) => {
            *count = 0;
            *place = r.place;
            r.reason.number()
        }
    }
}

// Measuring: the length of the first value of `src`.
pub fn sumqadil_measure(src: &[u8], length: &mut usize, place: &mut usize) -> u8
    ensures { Counted (length_of src.now) result length.new place.new }
{
    tell_count(measure::measure(src), length, place)
}

// The rows that a message needs.
pub fn sumqadil_count_rows(src: &[u8], rows: &mut usize, place: &mut usize) -> u8
    ensures { Counted (rows_needed src.now) result rows.new place.new }
{
    tell_count(measure::count_rows(src), rows, place)
}

// Reading a message into ten lent columns: the count of its rows, which stand first in each column.
#[tactic(auto, using(crate::proofs::Lent::handed_back))]
pub fn sumqadil_read_message(
    src: &[u8],
    // C passes the ten columns one by one.
    ty: &mut [i32],
    own: &mut [u8],
    label: &mut [u32],
    number: &mut [i64],
    first: &mut [i32],
    second: &mut [i32],
    contents: &mut [u32],
    below: &mut [u32],
    start: &mut [u32],
    end: &mut [u32],
    rows: &mut usize,
    place: &mut usize,
) -> u8
    ensures { MessageTold src.now (columns ty.old own.old label.old number.old first.old second.old contents.old below.old start.old end.old) result rows.new place.new (columns ty.new own.new label.new number.new first.new second.new contents.new below.new start.new end.new) }
{
    let mut columns = ColumnsMut {
        ty,
        own,
        label,
        number,
        first,
        second,
        place: contents,
        below,
        start,
        end,
    };
    let read = message::read_message(src, &mut columns);
    tell_count(read, rows, place)
}

// ---- Frames ----

fn tell_frame(
    answer: Result<Frame, Refusal>,
    rows: &mut usize,
    conversation: &mut i32,
    from: &mut usize,
    place: &mut usize,
) -> u8
    ensures { Opened (framed answer) result rows.new conversation.new from.new place.new }
{
    match answer {
        Ok(frame) => {
            *rows = frame.rows;
            *conversation = frame.conversation;
            *from = frame.message.0;
            *place = 0;
            0
        }
        Err(r) => {
            *rows = 0;
            *conversation = 0;
            *from = 0;
            *place = r.place;
            r.reason.number()
        }
    }
}

// Checking a frame: the rows that its message needs, its conversation number and the place of its message.
pub fn sumqadil_check_frame(
    src: &[u8],
    rows: &mut usize,
    conversation: &mut i32,
    from: &mut usize,
    place: &mut usize,
) -> u8
    ensures { Opened (needs src.now) result rows.new conversation.new from.new place.new }
{
    tell_frame(frame::check_frame(src), rows, conversation, from, place)
}

// Reading a frame into ten lent columns. The rows' places are message places.
#[tactic(auto, using(crate::proofs::Lent::handed_back))]
pub fn sumqadil_read_frame(
    src: &[u8],
    // C passes the ten columns one by one.
    ty: &mut [i32],
    own: &mut [u8],
    label: &mut [u32],
    number: &mut [i64],
    first: &mut [i32],
    second: &mut [i32],
    contents: &mut [u32],
    below: &mut [u32],
    start: &mut [u32],
    end: &mut [u32],
    rows: &mut usize,
    conversation: &mut i32,
    from: &mut usize,
    place: &mut usize,
) -> u8
    ensures { FrameTold src.now (columns ty.old own.old label.old number.old first.old second.old contents.old below.old start.old end.old) result rows.new conversation.new from.new place.new (columns ty.new own.new label.new number.new first.new second.new contents.new below.new start.new end.new) }
{
    let mut columns = ColumnsMut {
        ty,
        own,
        label,
        number,
        first,
        second,
        place: contents,
        below,
        start,
        end,
    };
    let read = frame::read_frame(src, &mut columns);
    tell_frame(read, rows, conversation, from, place)
}

// ---- Asking ----

fn tell_value(answer: Result<i64, Refusal>, value: &mut i64) -> u8
    ensures { Valued (answered answer) result value.new }
{
    match answer {
        Ok(v) => {
            *value = v;
            0
        }
        Err(r) => {
            *value = 0;
            r.reason.number()
        }
    }
}

// Asks a row by the number of a type.
fn ask_by(row: Row, what: u8) -> Result<i64, Refusal>
    ensures { answered result ≡ ask_by what row }
{
    let wanted = As::try_from(what)?;
    ask::ask(row, wanted)
}

// The value of a row with this type and number, as the type asked for. No other number of the row is looked at.
pub fn sumqadil_ask(ty: i32, number: i64, what: u8, value: &mut i64) -> u8
    ensures { AskedBy what ty number result value.new }
{
    let row = Row {
        ty,
        number,
        ..Row::default()
    };
    tell_value(ask_by(row, what), value)
}
