#![tactic(auto)]

ghost use Rattle.std.specs.Prelude.{◌≡◌, ◌+◌, ◌^◌, ◌<◌, ◌≤◌, length};
ghost use Rattle.format.specs.Message.{in_frame};
ghost use Rattle.columns.specs.Lent.{table, SameLoans};
ghost use Rattle.frame.specs.Frames.{OpenedBy, Conversation, UserAt, MessageIn, answer_of, needs, FrameRead};

use columns::ColumnsMut;
use integer::Signed;
use reading::{Reason, Refusal};

// A place counted from a frame's first octet, and one counted from its message's first octet: two counts, kept apart.
#[derive(Clone, Copy)]
pub struct FramePlace(pub usize);

#[derive(Clone, Copy)]
pub struct MessagePlace(pub usize);

// The place in the frame of a message's place, where the message starts at `from`: the one conversion.
pub fn in_frame(from: FramePlace, p: MessagePlace) -> FramePlace
    requires { from.0 + p.0 < 2 ^ 64 }
    ensures { result.0 ≡ in_frame from.0 p.0 }
{
    FramePlace(from.0 + p.0)
}

// What an accepted frame has: the place of its message, the rows of the message, and the conversation number.
#[derive(Clone, Copy)]
pub struct Frame {
    pub message: FramePlace,
    pub rows: usize,
    pub conversation: i32,
}

// The place past a conversation number, where the message starts, and the number.
fn conversation_at(src: &[u8], at: usize) -> Result<(FramePlace, i32), Refusal>
    ensures { Conversation src.now at result }
{
    let (next, c) = integer::int_at::<i32>(src, at)?;
    Ok((FramePlace(next), c))
}

// A frame up to its message.
fn open_frame(src: &[u8]) -> Result<(FramePlace, i32), Refusal>
    ensures { OpenedBy src.now result }
{
    let (next, length) = integer::signed_at(src, 0)?;
    let n = match length {
        Signed::Positive(n) => n as usize,
        Signed::Negative(_) => {
            return Err(Refusal {
                place: 0,
                reason: Reason::BadNumber,
            });
        }
    };
    let left = src.len() - next;
    if left < n {
        return Err(Refusal {
            place: src.len(),
            reason: Reason::Ended,
        });
    }
    if n < left {
        return Err(Refusal {
            place: next + n,
            reason: Reason::LeftOver,
        });
    }
    conversation_at(src, next)
}

// Whether the identifier at a place is a user type's.
fn user_at(src: &[u8], at: usize) -> bool
    ensures { UserAt src.now at result }
{
    // An arm for each answer: with `matches!` the proof did not close, since its rest names no pattern within `Ok`.
    match integer::signed_at(src, at) {
        Err(_) => false,
        Ok((_, Signed::Negative(_))) => false,
        Ok((_, Signed::Positive(_))) => true,
    }
}

// The frame's message, from its place to the frame's end.
fn message_in(src: &[u8], from: FramePlace, conversation: i32) -> Result<Frame, Refusal>
    requires { (from.0 ≤ length src.now) × (length src.now ≤ 65535) }
    ensures { MessageIn src.now from conversation result }
{
    let (next, rows) = measure::first_value(src, from.0)?;
    if next < src.len() {
        return Err(Refusal {
            place: next,
            reason: Reason::LeftOver,
        });
    }
    if !user_at(src, from.0) {
        return Err(Refusal {
            place: 0,
            reason: Reason::Missing,
        });
    }
    Ok(Frame {
        message: from,
        rows,
        conversation,
    })
}

// Checking a frame: its conversation number, the place of its message and the rows that this needs.
pub fn check_frame(src: &[u8]) -> Result<Frame, Refusal>
    ensures { answer_of result ≡ needs src.now }
{
    if src.len() > 65535 {
        return Err(Refusal {
            place: 0,
            reason: Reason::TooLong,
        });
    }
    let (from, conversation) = open_frame(src)?;
    message_in(src, from, conversation)
}

// Reading a frame into ten lent columns: the rows stand first in each column; or a refusal, at a frame place, and the columns are as they were. The rows'
// places are message places.
pub fn read_frame(src: &[u8], columns: &mut ColumnsMut<'_>) -> Result<Frame, Refusal>
    ensures lent { SameLoans columns.old columns.new }
    ensures read { FrameRead src.now (table columns.old) result (table columns.new) }
{
    let frame = check_frame(src)?;
    let at = frame.message.0;
    // An arm, not `?`: an edit turns what it hands on.
    match message::store_rows(&src[at..], columns, frame.rows) {
        Ok(()) => Ok(frame),
        Err(r) => Err(r),
    }
}
