#![tactic(auto)]

// A case that asks a row: ten numbers and a word, a blank between them.
ghost use Rattle.std.specs.Prelude.{◌≡◌, true, false, ◌≤◌, length, drop};
ghost use Rattle.ask.specs.Outcomes.{answered};
ghost use Rattle.queries.specs.Numerals.{all_decimal, digits_on, digits_of, numeral_of};
ghost use Rattle.queries.specs.Queries.{fields_of, word_of, last_word, row_of, ask_row, outcome};
ghost use Rattle.queries.specs.Reads.{NumberAt, Passes, told};

use format::{As, Row};
use reading::{Reason, Refusal};

// ---- Numbers ----

fn all_decimal(digits: &[u8]) -> bool
    ensures { result ≡ all_decimal digits.now }
{
    digits.iter().all(|b| matches!(*b, b'0'..=b'9'))
}

// What at most 19 digits say: below 10^19, which 64 bits hold.
fn value_of(digits: &[u8]) -> u64
    requires { (all_decimal digits.now ≡ true) × (length digits.now ≤ 19) }
    ensures { result ≡ digits_on 0 digits.now }
{
    let mut n: u64 = 0;
    for digit in digits {
        n = n * 10 + (*digit - b'0') as u64;
    }
    n
}

// The number that digits say, if any.
#[tactic(auto, unfolding(crate::specs::Numerals::digits_of))]
fn digits_of(digits: &[u8]) -> Option<i128>
    ensures { result ≡ digits_of false digits.now }
{
    if !(1..=19).contains(&digits.len()) || !all_decimal(digits) {
        return None;
    }
    Some(value_of(digits) as i128)
}

// The number that a field says, if any.
fn number_of(field: &[u8]) -> Option<i128>
    ensures { result ≡ numeral_of field.now }
{
    match field {
        [b'-', digits @ ..] => Some(-digits_of(digits)?),
        _ => digits_of(field),
    }
}

// ---- Fields ----

// The number at a place, and the place of the next field, if there is a number with a field after it.
fn number_at(line: &[u8], at: usize) -> Option<(i128, usize)>
    requires { at ≤ length line.now }
    ensures { NumberAt line.now at result }
{
    let end = octets::find(line, at, line.len(), b' ')?;
    let number = number_of(&line[at..end])?;
    Some((number, end + 1))
}

// Passes so many numbers, and gives the place of the next field.
fn pass(line: &[u8], at: usize, count: usize) -> Option<usize>
    requires { at ≤ length line.now }
    ensures { Passes line.now at count result }
{
    let mut next = at;
    for _ in 0..count {
        let (_, past) = number_at(line, next)?;
        next = past;
    }
    Some(next)
}

// The type that a word names, if any.
fn word_of(word: &[u8]) -> Option<As>
    ensures { result ≡ word_of word.now }
{
    // By `==`: tried as a `match` on the words, 25 goals did not close; these leave none.
    if word == b"int16".as_slice() {
        return Some(As::Int16);
    }
    if word == b"int32".as_slice() {
        return Some(As::Int32);
    }
    if word == b"int64".as_slice() {
        return Some(As::Int64);
    }
    if word == b"octet".as_slice() {
        return Some(As::Octet);
    }
    if word == b"char".as_slice() {
        return Some(As::Char);
    }
    if word == b"boolean".as_slice() {
        return Some(As::Boolean);
    }
    None
}

// The word at a place, where it is the last field.
fn last_word(line: &[u8], at: usize) -> Option<As>
    requires { at ≤ length line.now }
    ensures { result ≡ last_word (fields_of (drop at line.now)) }
{
    match octets::find(line, at, line.len(), b' ') {
        Some(_) => None,
        None => word_of(&line[at..]),
    }
}

// ---- Asking ----

// A row with a type and a number. Asking looks at nothing else.
fn row_of(ty: i32, number: i64) -> Row
    ensures { result ≡ row_of ty number }
{
    Row {
        ty,
        number,
        ..Row::default()
    }
}

// A type or a number that no row has.
const NO_ROW: Refusal = Refusal {
    place: 0,
    reason: Reason::BadRow,
};

// Asks the row with a type and a number.
fn ask_row(ty: i128, number: i128, wanted: As) -> Result<i64, Refusal>
    ensures { answered result ≡ ask_row wanted ty number }
{
    let Ok(row_ty) = i32::try_from(ty) else {
        return Err(NO_ROW);
    };
    let Ok(row_number) = i64::try_from(number) else {
        return Err(NO_ROW);
    };
    ask::ask(row_of(row_ty, row_number), wanted)
}

// Answers a case that asks a row, given without its letter and the blank after it; None where the case is malformed.
// The first number is the row's type, the fourth its number.
pub fn ask_line(line: &[u8]) -> Option<Result<i64, Refusal>>
    ensures { told result ≡ outcome line.now }
{
    let (ty, second) = number_at(line, 0)?;
    let fourth = pass(line, second, 2)?;
    let (number, fifth) = number_at(line, fourth)?;
    let last = pass(line, fifth, 6)?;
    let wanted = last_word(line, last)?;
    Some(ask_row(ty, number, wanted))
}
