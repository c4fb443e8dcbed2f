#![tactic(auto)]

ghost use Rattle.std.specs.Prelude.{◌≡◌, [], ◌∷◌, map, ◌+◌, ◌*◌, ◌≤◌, length, pos};
ghost use Rattle.reading.specs.Reading.{refusal};
ghost use Rattle.format.specs.Desk.{printed};
ghost use Rattle.format.specs.Message.{refused, measure};
ghost use Rattle.integer.specs.Writes.{Room, Wrote};
ghost use Rattle.text.specs.Text.{spaced};
ghost use Rattle.listing.specs.Listing.{Listed};
ghost use Rattle.queries.specs.Queries.{outcome};
ghost use Rattle.replies.specs.Cases.{row_part, bad, accepted, refused_by, no_at, reply, measured, slash, desk_text, query_text, alone_text};
ghost use Rattle.replies.specs.Fields.{FieldRead, CaseRead, asks_row, plain_text};
ghost use Rattle.replies.specs.Slashes.{SlashesPut};

use format::Row;
use reading::{Reason, Refusal};

// ---- Numbers ----

// Writes a blank and a number from a place on.
fn put_count(out: &mut [u8], at: usize, n: u64) -> usize
    requires { Room (spaced (pos n ∷ [])) at out.old }
    ensures { Wrote (spaced (pos n ∷ [])) at out.old result out.new }
{
    out[at] = b' ';
    text::put_digits(out, at + 1, n)
}

// ---- What an answer begins with ----

// Writes the answer to a case that is malformed, or of no kind that is answered.
fn put_bad(out: &mut [u8], at: usize) -> usize
    requires { at + 32768 ≤ length out.old }
    ensures { Listed bad at out.old result out.new }
{
    text::put_text(out, at, b"bad")
}

// Writes the beginning of an answer with a count.
pub fn put_ok(out: &mut [u8], at: usize, n: u64) -> usize
    requires { at + 32768 ≤ length out.old }
    ensures { Listed (accepted (pos n ∷ [])) at out.old result out.new }
{
    let next = text::put_text(out, at, b"ok");
    put_count(out, next, n)
}

// Writes a row's value.
fn put_value(out: &mut [u8], at: usize, v: i64) -> usize
    requires { at + 32768 ≤ length out.old }
    ensures { Listed (accepted (v ∷ [])) at out.old result out.new }
{
    let next = text::put_text(out, at, b"ok");
    text::put_spaced(out, next, &[v])
}

// Writes the beginning of the answer to a frame: its conversation number and its count of rows.
pub fn put_framed(out: &mut [u8], at: usize, conversation: i32, rows: usize) -> usize
    requires { at + 32768 ≤ length out.old }
    ensures { Listed (accepted (conversation ∷ pos rows ∷ [])) at out.old result out.new }
{
    let next = text::put_text(out, at, b"ok");
    let mid = text::put_spaced(out, next, &[conversation as i64]);
    put_count(out, mid, rows as u64)
}

// Writes a refusal in input 1 by any number, one of 01's or not.
pub fn put_no_at(out: &mut [u8], at: usize, number: u8, place: usize) -> usize
    requires { at + 32768 ≤ length out.old }
    ensures { Listed (no_at number place) at out.old result out.new }
{
    let next = text::put_text(out, at, b"no");
    let past = put_count(out, next, number as u64);
    let input = put_count(out, past, place as u64);
    put_count(out, input, 1)
}

// Writes a refusal, in input 1.
pub fn put_no(out: &mut [u8], at: usize, r: Refusal) -> usize
    requires { at + 32768 ≤ length out.old }
    ensures { Listed (refused_by r) at out.old result out.new }
{
    put_no_at(out, at, r.reason.number(), r.place)
}

// ---- Rows ----

// Writes a bar and a row's ten numbers from a place on.
pub fn put_row(out: &mut [u8], at: usize, r: Row) -> usize
    requires { Room (row_part r) at out.old }
    ensures { Wrote (row_part r) at out.old result out.new }
{
    let next = text::put_text(out, at, b" |");
    text::put_spaced(out, next, &text::numbers_of(r))
}

// ---- Cases ----

// Reads a field of octets: writes them at the front, and gives how many they are; None where it tells nothing.
#[tactic(auto, unfolding(crate::specs::Cases::field_of))]
fn field_octets(field: &[u8], work: &mut [u8]) -> Option<usize>
    requires { length field.now ≤ 2 * length work.old }
    ensures { FieldRead field.now result work.new }
{
    let n = field.len();
    if n == 1 && field[0] == b'-' {
        return Some(0);
    }
    if n < 2 || n % 2 != 0 || !text::all_digits(field) {
        return None;
    }
    Some(text::put_octets(work, field))
}

// Measuring the first value.
fn begin_measure(src: &[u8], out: &mut [u8], at: usize) -> usize
    requires { at + 32768 ≤ length out.old }
    ensures { Listed (reply measured (measure src.now)).head at out.old result out.new }
{
    match measure::measure(src) {
        Ok(n) => put_ok(out, at, n as u64),
        Err(r) => put_no(out, at, r),
    }
}

// Writes what the desk prints for what is no line.
fn put_no_line(out: &mut [u8], at: usize) -> usize
    requires { at + 32768 ≤ length out.old }
    ensures { Listed (printed (refused (refusal 17 0))) at out.old result out.new }
{
    text::put_refused(
        out,
        at,
        Refusal {
            place: 0,
            reason: Reason::BadLine,
        },
    )
}

// Writes what the desk prints for octets that are a line with its line feed.
fn put_desk(src: &[u8], out: &mut [u8], at: usize) -> usize
    requires { at + 32768 ≤ length out.old }
    ensures { Listed (desk_text src.now) at out.old result out.new }
{
    match src {
        [line @ .., b'\n'] => listing::list_line(line, out, at),
        _ => put_no_line(out, at),
    }
}

fn slash(b: u8) -> u8
    ensures { result ≡ slash b }
{
    if b == b'\n' { b'/' } else { b }
}

// Writes a slash for each line feed of what was written.
fn put_slashes(out: &mut [u8], at: usize, end: usize)
    requires { (at ≤ end) × (end ≤ length out.old) }
    ensures { SlashesPut at end out.old out.new }
{
    for i in at..end {
        out[i] = slash(out[i]);
    }
}

// The desk's text, in one line.
fn begin_desk(src: &[u8], out: &mut [u8], at: usize) -> usize
    requires { at + 32768 ≤ length out.old }
    ensures { Listed (map slash (desk_text src.now)) at out.old result out.new }
{
    let end = put_desk(src, out, at);
    put_slashes(out, at, end);
    end
}

// Asking a row.
fn begin_query(fields: &[u8], out: &mut [u8], at: usize) -> usize
    requires { at + 32768 ≤ length out.old }
    ensures { Listed (query_text (outcome fields.now)) at out.old result out.new }
{
    match queries::ask_line(fields) {
        Some(Ok(v)) => put_value(out, at, v),
        Some(Err(r)) => put_no(out, at, r),
        None => put_bad(out, at),
    }
}

// Whether a case asks a row.
#[tactic(auto, unfolding(crate::specs::Fields::asks_row))]
fn asks_row(line: &[u8]) -> bool
    ensures { result ≡ asks_row line.now }
{
    matches!(line, [b'A', b' ', ..])
}

// The answer to a case that has no field of octets: it asks a row, or it is malformed.
pub fn begin_plain(line: &[u8], out: &mut [u8], at: usize) -> usize
    requires { at + 32768 ≤ length out.old }
    ensures { Listed (plain_text line.now) at out.old result out.new }
{
    if asks_row(line) {
        return begin_query(&line[2..], out, at);
    }
    put_bad(out, at)
}

// The answer to a case that has no rows, by its kind: the letter that the case begins with, as it was read.
#[tactic(auto, unfolding(crate::specs::Cases::alone_text))]
pub fn begin_alone(kind: u8, src: &[u8], out: &mut [u8], at: usize) -> usize
    requires { at + 32768 ≤ length out.old }
    ensures { Listed (alone_text kind src.now) at out.old result out.new }
{
    match kind {
        b'L' => begin_measure(src, out, at),
        b'D' => begin_desk(src, out, at),
        _ => put_bad(out, at),
    }
}

// Reads the field of octets of a case: writes them at the front, and gives how many they are; None where it has no such field.
pub fn case_octets(line: &[u8], work: &mut [u8]) -> Option<usize>
    requires { length line.now ≤ 2 * length work.old }
    ensures { CaseRead line.now result work.new }
{
    if asks_row(line) {
        return None;
    }
    match line {
        [_, b' ', field @ ..] => field_octets(field, work),
        _ => None,
    }
}
