#![tactic(auto)]

// Asking a row for its value as a type (document 01, "Asking a row"), and looking up a label (01, "The rows").
mod tables;

ghost use Rattle.std.specs.Prelude.{◌≡◌, ◌<◌, get_or};
ghost use Rattle.format.specs.Types.{kind_of, table, uncarried};
ghost use Rattle.format.specs.Data.{within};
ghost use Rattle.format.specs.Asking.{fitting, narrow};
ghost use Rattle.format.specs.Asking as asking;
ghost use Rattle.ask.specs.First.{First};
ghost use Rattle.ask.specs.Outcomes.{answered, apart};
ghost use Rattle.ask.specs.Sorts.{judged, narrowed_as, numbers_of};

use format::{As, Row};
use reading::{Reason, Refusal};
use tables::{Kind, Sort};

// A row that cannot be had as the type asked for.
const OTHER_TYPE: Refusal = Refusal {
    place: 0,
    reason: Reason::OtherType,
};

// A row that no accepted octets have: its type is unknown or not carried, or its number impossible.
const BAD_ROW: Refusal = Refusal {
    place: 0,
    reason: Reason::BadRow,
};

// No row has the label.
const MISSING: Refusal = Refusal {
    place: 0,
    reason: Reason::Missing,
};

// The types -1 to -40, by n of an identifier -1 - n.
fn listed(n: usize) -> Option<Kind>
    requires { n < 40 }
    ensures { result ≡ numbers_of (get_or table n uncarried) }
{
    tables::KINDS[n]
}

// The rows of a type, or None where it is unknown or not carried.
fn kind(ty: i32) -> Option<Kind>
    ensures { result ≡ numbers_of (kind_of ty) }
{
    match ty {
        0.. => Some(Kind(Sort::Other, 0, 2147483647)),
        -40..=-1 => listed((!ty) as usize),
        -64..=-41 => {
            let only = -42 - (ty as i64);
            Some(Kind(Sort::Integer, only, only))
        }
        _ => None,
    }
}

// The sort of a row, by its type and its number.
fn judge(ty: i32, number: i64) -> Option<Sort>
    ensures { result ≡ judged (kind_of ty) number }
{
    let Kind(sort, least, most) = kind(ty)?;
    if !(least..=most).contains(&number) {
        return None;
    }
    Some(sort)
}

// The integer answer, where its value goes from `least` to `most`.
fn limit(answer: Result<i64, Refusal>, least: i64, most: i64) -> Result<i64, Refusal>
    ensures { answered result ≡ apart (answered answer) (λ z. fitting (within least most z) z) }
{
    let Ok(value) = answer else {
        return Err(OTHER_TYPE);
    };
    if !(least..=most).contains(&value) {
        return Err(OTHER_TYPE);
    }
    Ok(value)
}

// The integer answer without a sign: -1 is the greatest value.
fn unsigned(answer: Result<i64, Refusal>, most: i64) -> Result<i64, Refusal>
    ensures { answered result ≡ apart (answered answer) (narrow most) }
{
    let Ok(value) = answer else {
        return Err(OTHER_TYPE);
    };
    if value == -1 {
        return Ok(most);
    }
    limit(answer, 0, most)
}

// The integer answer, which each narrower type takes apart.
fn int64(sort: Sort, number: i64) -> Result<i64, Refusal>
    ensures { answered result ≡ narrowed_as sort As.Int64 number }
{
    let Sort::Integer = sort else {
        return Err(OTHER_TYPE);
    };
    Ok(number)
}

// What a row without a value of its own type asked for answers: each type by the integer answer.
fn narrowed(sort: Sort, number: i64, wanted: As) -> Result<i64, Refusal>
    ensures { answered result ≡ narrowed_as sort wanted number }
{
    let answer = int64(sort, number);
    match wanted {
        As::Int16 => limit(answer, -32768, 32767),
        As::Int32 => limit(answer, -2147483648, 2147483647),
        As::Int64 => answer,
        As::Octet => unsigned(answer, 255),
        As::Char => unsigned(answer, 65535),
        As::Boolean => Err(OTHER_TYPE),
    }
}

// The row's value as the type asked for. The row is judged first, so 14 comes before 15.
pub fn ask(row: Row, wanted: As) -> Result<i64, Refusal>
    ensures { answered result ≡ asking.ask wanted row }
{
    let sort = judge(row.ty, row.number).ok_or(BAD_ROW)?;
    match (sort, wanted) {
        (Sort::Octet, As::Octet) => Ok(row.number),
        (Sort::Char, As::Char) => Ok(row.number),
        (Sort::Boolean, As::Boolean) => Ok((row.number != 0) as i64),
        (Sort::Null, _) => Ok(0),
        _ => narrowed(sort, row.number, wanted),
    }
}

// The index of the first row with a label.
fn find(rows: &[Row], label: u32) -> Option<usize>
    ensures { First rows.now label result }
{
    rows.iter().position(|row| row.label == label)
}

// The first row with a label is asked; 16 where there is none.
pub fn lookup(rows: &[Row], label: u32, wanted: As) -> Result<i64, Refusal>
    ensures { answered result ≡ asking.lookup rows.now label wanted }
{
    match find(rows, label) {
        Some(k) => ask(rows[k], wanted),
        None => Err(MISSING),
    }
}
