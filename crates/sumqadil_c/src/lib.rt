#![tactic(auto)]

// What C and Rust programs link: each export calls the function of `sumqadil` of its name, with the same clauses. No function asks anything of its caller.
ghost use Rattle.format.specs.Message.{measure as length_of};
ghost use Rattle.measure.specs.Entries.{rows_needed};
ghost use Rattle.columns.specs.Columns.{columns};
ghost use Rattle.frame.specs.Frames.{needs};
ghost use Rattle.sumqadil.specs.Told.{Counted, MessageTold, Opened, FrameTold, AskedBy};

// Measuring: the length of the first value of `src`.
#[unsafe(no_mangle)]
pub extern "C" fn sumqadil_measure(src: &[u8], length: &mut usize, place: &mut usize) -> u8
    ensures { Counted (length_of src.now) result length.new place.new }
{
    sumqadil::sumqadil_measure(src, length, place)
}

// The rows that a message needs.
#[unsafe(no_mangle)]
pub extern "C" fn sumqadil_count_rows(src: &[u8], rows: &mut usize, place: &mut usize) -> u8
    ensures { Counted (rows_needed src.now) result rows.new place.new }
{
    sumqadil::sumqadil_count_rows(src, rows, place)
}

// Reading a message into ten lent columns: the count of its rows, which stand first in each column.
#[unsafe(no_mangle)]
pub extern "C" fn sumqadil_read_message(
    src: &[u8],
    // C passes the ten columns one by one.
    ty: &mut [i32],
    own: &mut [u8],
    label: &mut [u32],
    number: &mut [i64],
    first: &mut [i32],
    second: &mut [i32],
    contents: &mut [u32],
    below: &mut [u32],
    start: &mut [u32],
    end: &mut [u32],
    rows: &mut usize,
    place: &mut usize,
) -> u8
    ensures { MessageTold src.now (columns ty.old own.old label.old number.old first.old second.old contents.old below.old start.old end.old) result rows.new place.new (columns ty.new own.new label.new number.new first.new second.new contents.new below.new start.new end.new) }
{
    sumqadil::sumqadil_read_message(
        src, ty, own, label, number, first, second, contents, below, start, end, rows, place,
    )
}

// Checking a frame: the rows that its message needs, its conversation number and the place of its message.
#[unsafe(no_mangle)]
pub extern "C" fn sumqadil_check_frame(
    src: &[u8],
    rows: &mut usize,
    conversation: &mut i32,
    from: &mut usize,
    place: &mut usize,
) -> u8
    ensures { Opened (needs src.now) result rows.new conversation.new from.new place.new }
{
    sumqadil::sumqadil_check_frame(src, rows, conversation, from, place)
}

// Reading a frame into ten lent columns. The rows' places are message places.
#[unsafe(no_mangle)]
pub extern "C" fn sumqadil_read_frame(
    src: &[u8],
    // C passes the ten columns one by one.
    ty: &mut [i32],
    own: &mut [u8],
    label: &mut [u32],
    number: &mut [i64],
    first: &mut [i32],
    second: &mut [i32],
    contents: &mut [u32],
    below: &mut [u32],
    start: &mut [u32],
    end: &mut [u32],
    rows: &mut usize,
    conversation: &mut i32,
    from: &mut usize,
    place: &mut usize,
) -> u8
    ensures { FrameTold src.now (columns ty.old own.old label.old number.old first.old second.old contents.old below.old start.old end.old) result rows.new conversation.new from.new place.new (columns ty.new own.new label.new number.new first.new second.new contents.new below.new start.new end.new) }
{
    sumqadil::sumqadil_read_frame(
        src,
        ty,
        own,
        label,
        number,
        first,
        second,
        contents,
        below,
        start,
        end,
        rows,
        conversation,
        from,
        place,
    )
}

// The value of a row with this type and number, as the type asked for. No other number of the row is looked at.
#[unsafe(no_mangle)]
pub extern "C" fn sumqadil_ask(ty: i32, number: i64, what: u8, value: &mut i64) -> u8
    ensures { AskedBy what ty number result value.new }
{
    sumqadil::sumqadil_ask(ty, number, what, value)
}
