#![tactic(auto)]

ghost use Rattle.std.specs.Prelude.{◌≡◌, ◌∷◌, true, ◌<◌, ◌≤◌, length, pos};
ghost use Rattle.format.specs.Desk.{decimal, numbers, row_text, printed, is_digit, digit, all_digits, octets_of};
ghost use Rattle.format.specs.Message.{refused};
ghost use Rattle.text.specs.Line.{LineRead};
ghost use Rattle.text.specs.Text.{spaced, others, told, accepted};
ghost use Rattle.integer.specs.Writes.{Room, Wrote};

use format::Row;
use itoa::Buffer;
use reading::Refusal;

// ---- Numbers ----

// A slice and a place are passed as two here and above, as in `integer`, and for its reason.

// Writes octets from a place on, and gives the place past them.
pub fn put_text(out: &mut [u8], at: usize, text: &[u8]) -> usize
    requires { Room text.now at out.old }
    ensures { Wrote text.now at out.old result out.new }
{
    let end = at + text.len();
    out[at..end].copy_from_slice(text);
    end
}

// Writes a number's decimal digits from a place on, and gives the place past them.
pub fn put_digits(out: &mut [u8], at: usize, n: u64) -> usize
    requires { Room (decimal (pos n)) at out.old }
    ensures { Wrote (decimal (pos n)) at out.old result out.new }
{
    // Most numbers of rows have one digit or two: by the buffer a row of them took half the time more.
    if n < 10 {
        out[at] = b'0' + n as u8;
        return at + 1;
    }
    if n < 100 {
        out[at] = b'0' + (n / 10) as u8;
        out[at + 1] = b'0' + (n % 10) as u8;
        return at + 2;
    }
    let mut buffer = Buffer::new();
    put_text(out, at, buffer.format(n).as_bytes())
}

// Writes a number in decimal from a place on, and gives the place past it.
pub fn put_number(out: &mut [u8], at: usize, v: i64) -> usize
    requires { Room (decimal v) at out.old }
    ensures { Wrote (decimal v) at out.old result out.new }
{
    if v < 0 {
        out[at] = b'-';
        return put_digits(out, at + 1, v.unsigned_abs());
    }
    put_digits(out, at, v as u64)
}

// Writes numbers from a place on, a blank before each.
pub fn put_spaced(out: &mut [u8], at: usize, values: &[i64]) -> usize
    requires { Room (spaced values.now) at out.old }
    ensures { Wrote (spaced values.now) at out.old result out.new }
{
    let mut next = at;
    for value in values {
        out[next] = b' ';
        next = put_number(out, next + 1, *value);
    }
    next
}

// ---- Lines ----

// Writes numbers from a place on, a blank before each, and a line feed after the last.
fn put_numbers(out: &mut [u8], at: usize, values: &[i64]) -> usize
    requires { Room (numbers values.now) at out.old }
    ensures { Wrote (numbers values.now) at out.old result out.new }
{
    let next = put_spaced(out, at, values);
    out[next] = b'\n';
    next + 1
}

// A row's ten numbers.
pub fn numbers_of(r: Row) -> [i64; 10]
    ensures { result ≡ r.ty ∷ others r }
{
    [
        r.ty as i64,
        r.own as i64,
        r.label as i64,
        r.number,
        r.first as i64,
        r.second as i64,
        r.place as i64,
        r.below as i64,
        r.start as i64,
        r.end as i64,
    ]
}

// Writes the line of a row from a place on.
pub fn put_row(out: &mut [u8], at: usize, r: Row) -> usize
    requires { Room (row_text r) at out.old }
    ensures { Wrote (row_text r) at out.old result out.new }
{
    let values = numbers_of(r);
    let next = put_number(out, at, values[0]);
    put_numbers(out, next, &values[1..])
}

// Writes a line of a word and two numbers from a place on.
pub fn put_told(out: &mut [u8], at: usize, word: &[u8], first: i64, second: u64) -> usize
    requires { Room (told word.now first second) at out.old }
    ensures { Wrote (told word.now first second) at out.old result out.new }
{
    let next = put_text(out, at, word);
    out[next] = b' ';
    let mid = put_number(out, next + 1, first);
    out[mid] = b' ';
    let end = put_digits(out, mid + 1, second);
    out[end] = b'\n';
    end + 1
}

// Writes the line before the rows of an accepted frame: its conversation number and how many rows follow.
pub fn put_accepted(out: &mut [u8], at: usize, conversation: i32, rows: usize) -> usize
    requires { Room (accepted conversation rows) at out.old }
    ensures { Wrote (accepted conversation rows) at out.old result out.new }
{
    put_told(out, at, b"ok", conversation as i64, rows as u64)
}

// Writes the line of a refusal.
pub fn put_refused(out: &mut [u8], at: usize, r: Refusal) -> usize
    requires { Room (printed (refused r)) at out.old }
    ensures { Wrote (printed (refused r)) at out.old result out.new }
{
    put_told(out, at, b"no", r.reason.number() as i64, r.place as u64)
}

// ---- A line that comes in ----

// 0 to 9 and A to F.
fn is_digit(b: u8) -> bool
    ensures { result ≡ is_digit b }
{
    matches!(b, b'0'..=b'9' | b'A'..=b'F')
}

pub fn all_digits(line: &[u8]) -> bool
    ensures { result ≡ all_digits line.now }
{
    line.iter().all(|b| is_digit(*b))
}

// What a digit stands for: 0 for `0`, 10 for `A`.
fn digit_of(b: u8) -> u8
    requires { is_digit b ≡ true }
    ensures { (result ≡ digit b) × (result < 16) }
{
    if b < b'A' { b - b'0' } else { b - b'A' + 10 }
}

// Writes the octets of digits in pairs at the front.
pub fn put_octets(out: &mut [u8], line: &[u8]) -> usize
    requires { (all_digits line.now ≡ true) × Room (octets_of line.now) 0 out.old }
    ensures { Wrote (octets_of line.now) 0 out.old result out.new }
{
    let n = line.len() / 2;
    for i in 0..n {
        let high = digit_of(line[2 * i]);
        let low = digit_of(line[2 * i + 1]);
        out[i] = high * 16 + low;
    }
    n
}

// Reads a line, without its line feed: writes its octets at the front, and gives how many they are; None where it is no line.
pub fn line_octets(line: &[u8], out: &mut [u8]) -> Option<usize>
    requires { 4096 ≤ length out.old }
    ensures { LineRead line.now out.old result out.new }
{
    let n = line.len();
    if !(2..=8192).contains(&n) || n % 2 != 0 || !all_digits(line) {
        return None;
    }
    Some(put_octets(out, line))
}
