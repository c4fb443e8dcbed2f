#![tactic(auto)]

ghost use Rattle.std.specs.Prelude.{◌≡◌, Bool, false, ◌^◌, ◌≤◌, ◌<◌, length, pos};
ghost use Rattle.format.specs.Types.{packed, fixed, code, amount, one, silent, gives, string, dated, container};
ghost use Rattle.scalar.specs.declared.Bits.{Bits};
ghost use Rattle.scalar.specs.Answers.{Size, width_of};
ghost use Rattle.scalar.specs.Moments.{parts_of};
ghost use Rattle.decide.specs.Classes.{holds_of, text_of};
ghost use Rattle.columns.specs.Lent.{table, SameLoans};
ghost use Rattle.fill.specs.Numbers.{NumberAt, Implied};
ghost use Rattle.fill.specs.Rows.{fore_with, leaf_of, CountedNest, DataAt, DataOf, row_with, RowAt};
ghost use Rattle.fill.specs.Filling.{closed, Ready, FilledValue, FilledElements, FilledIn};

use columns::ColumnsMut;
use decide::{Class, Form, Nest, Next, Shape};
use format::Row;
use scalar::{Bits, Which};

// ---- The number of a value ----

// Each gives the place past the number, and the number; or nothing, which is not so of accepted octets.

// An integer, of any width.
fn int_number(src: &[u8], at: usize) -> Option<(usize, i64)>
    ensures { (w : Bits) → NumberAt src.now (packed (width_of w)) at result }
{
    integer::known64_at(src, at).ok()
}

// A number of one, four or eight octets.
fn fixed_number(src: &[u8], at: usize, n: usize) -> Option<(usize, i64)>
    requires { (Size n) × (at ≤ length src.now) }
    ensures { NumberAt src.now (fixed n) at result }
{
    if src.len() - at < n {
        return None;
    }
    Some((at + n, scalar::bits_at(src, at, n)))
}

// A character's code.
fn code_number(src: &[u8], at: usize) -> Option<(usize, i64)>
    ensures { NumberAt src.now code at result }
{
    let (next, n) = scalar::code_at(src, at)?;
    Some((next, n as i64))
}

// A number of 0 or more.
fn amount_number(src: &[u8], at: usize) -> Option<(usize, i64)>
    ensures { NumberAt src.now amount at result }
{
    let (next, n) = decide::amount_at(src, at).ok()?;
    Some((next, n as i64))
}

// The number of a type that has its value in itself: of -41 and below the integer that it says, 1 of true, 0 of the others.
fn implied_number(ty: i32) -> i64
    ensures { Implied ty result }
{
    if ty < -40 {
        return -42 - (ty as i64);
    }
    if ty == -34 {
        return 1;
    }
    0
}

// ---- The data of a value ----

// What stands in the data before the values inside: element types, 0 where none; the number; the place of string contents, 0 where none are; and
// the place past all of it.
#[derive(Clone, Copy)]
pub struct Fore {
    pub first: i32,
    pub second: i32,
    pub number: i64,
    pub place: usize,
    pub end: usize,
}

// What is read of a value's data: what stands before the values inside; and what it holds, if any.
#[derive(Clone, Copy)]
pub enum Data {
    Leaf(Fore),
    Holder(Fore, Nest),
}

// A number alone.
fn plain(number: i64, end: usize) -> Fore
    ensures { result ≡ fore_with (pos 0) (pos 0) number 0 end }
{
    Fore {
        first: 0,
        second: 0,
        number,
        place: 0,
        end,
    }
}

fn number_data(n: Option<(usize, i64)>) -> Option<Data>
    ensures { result ≡ leaf_of n }
{
    let (next, number) = n?;
    Some(Data::Leaf(plain(number, next)))
}

// A string: a length, and contents.
fn text_data(src: &[u8], at: usize) -> Option<Data>
    requires { at ≤ length src.now }
    ensures { (chars : Bool) → DataAt src.now (string (text_of chars)) at result }
{
    let (next, n) = decide::amount_at(src, at).ok()?;
    if src.len() - next < n as usize {
        return None;
    }
    Some(Data::Leaf(Fore {
        first: 0,
        second: 0,
        number: n as i64,
        place: next,
        end: next + n as usize,
    }))
}

// A date or time: a date has three integers; those of the others are read, to count them.
fn moment_data(src: &[u8], at: usize, which: Which) -> Option<Data>
    requires { at ≤ length src.now }
    ensures { DataAt src.now (dated (parts_of which)) at result }
{
    let count = match which {
        Which::Date => 3,
        _ => {
            let (_, count) = scalar::moment_past(src, at, which).ok()?;
            count
        }
    };
    let integers = decide::alike(Form::Packed(Bits::Bits32, -2), count, false);
    Some(Data::Holder(plain(0, at), integers))
}

// An identity: its number, and one value.
fn identity_data(src: &[u8], at: usize) -> Option<Data>
    requires { at ≤ length src.now }
    ensures { DataAt src.now (container false false one gives) at result }
{
    let (next, n) = decide::amount_at(src, at).ok()?;
    let one = decide::alike(Form::Named, 1, false);
    Some(Data::Holder(plain(n as i64, next), one))
}

// A container: its element types, its number, and what it holds.
fn holder_data(src: &[u8], shape: Shape, at: usize) -> Option<Data>
    requires { at ≤ length src.now }
    ensures { DataAt src.now (container shape.first shape.second (holds_of shape.inside) silent) at result }
{
    let (at2, first) = decide::type_at(src, shape.first, at).ok()?;
    let (at3, second) = decide::type_at(src, shape.second, at2).ok()?;
    let (next, n) = decide::amount_at(src, at3).ok()?;
    let fore = Fore {
        first,
        second,
        number: n as i64,
        place: 0,
        end: next,
    };
    Some(Data::Holder(fore, decide::nest_of(shape, first, second, n)))
}

// The data of a value that stands in a form, of a type.
fn data_at(src: &[u8], form: Form, ty: i32, at: usize) -> Option<Data>
    requires { at ≤ length src.now }
    ensures { DataOf src.now form ty at result }
{
    match decide::class_in(form, ty) {
        Class::Refused => None,
        Class::Small => Some(Data::Leaf(plain(implied_number(ty), at))),
        Class::Int(_) => number_data(int_number(src, at)),
        Class::Fixed(n) => number_data(fixed_number(src, at, n)),
        Class::Char => number_data(code_number(src, at)),
        Class::Parts(which) => moment_data(src, at, which),
        Class::Text(_) => text_data(src, at),
        Class::Holder(shape) => holder_data(src, shape, at),
        Class::Identity => identity_data(src, at),
        Class::Reference => number_data(amount_number(src, at)),
    }
}

// ---- A value's row ----

// What is found of a value: its row, up to the values inside, without their rows and ending where they begin; and what it holds, if any.
#[derive(Clone, Copy)]
pub enum Found {
    Leaf(Row),
    Holder(Row, Nest),
}

fn front_row(ty: i32, own: u8, label: u32, f: Fore, at: usize) -> Row
    requires { (at < 2 ^ 32) × (f.place < 2 ^ 32) × (f.end < 2 ^ 32) }
    ensures { result ≡ row_with ty own label f at }
{
    Row {
        ty,
        own,
        label,
        number: f.number,
        first: f.first,
        second: f.second,
        place: f.place as u32,
        below: 0,
        start: at as u32,
        end: f.end as u32,
    }
}

// The row of the value at a place.
fn row_at(src: &[u8], form: Form, label: u32, at: usize) -> Option<Found>
    requires { (at ≤ length src.now) × (length src.now < 2 ^ 32) }
    ensures { RowAt src.now form label at result }
{
    let (from, ty) = decide::typed_at(src, form, at).ok()?;
    let own = decide::own_of(form);
    // A `match`, and no `?`, here and below: the copies that `?` makes of a row took a fifth of the time of filling.
    match data_at(src, form, ty, from) {
        None => None,
        Some(Data::Leaf(fore)) => Some(Found::Leaf(front_row(ty, own, label, fore, at))),
        Some(Data::Holder(fore, nest)) => Some(Found::Holder(
            front_row(ty, own, label, fore, at),
            nest,
        )),
    }
}

// ---- Filling ----

// A row with the count of rows below it and its end.
fn closed_row(row: Row, below: usize, end: usize) -> Row
    requires { (below < 2 ^ 32) × (end < 2 ^ 32) }
    ensures { result ≡ closed row below end }
{
    Row {
        below: below as u32,
        end: end as u32,
        ..row
    }
}

// Fills in the rows of the value at a place, from row k on: the place and the row past what was filled in. Of accepted octets nothing is left unread.
#[cycle(fill_elements_fill_value)]
fn fill_value(
    src: &[u8],
    columns: &mut ColumnsMut<'_>,
    lim: usize,
    form: Form,
    name: u32,
    at: usize,
    k: usize,
    depth: usize,
) -> Option<(usize, usize)>
    requires { Ready src.now lim at k (table columns.old) }
    ensures lent { SameLoans columns.old columns.new }
    ensures filled { FilledValue src.now lim form name at k depth (table columns.old) result (table columns.new) }
{
    if lim <= k {
        return None;
    }
    match row_at(src, form, name, at) {
        None => None,
        Some(Found::Leaf(row)) => {
            columns.put_leaf(k, row);
            Some((row.end as usize, k + 1))
        }
        Some(Found::Holder(row, nest)) => {
            if depth == 0 {
                return None;
            }
            // `&*` makes the slice's descriptor for this call, and not for every value.
            fill_elements(&*src, columns, lim, row, nest, k, k + 1, depth - 1)
        }
    }
}

// Fills in the rows of a container's values, from row `base` on, and then its own, at k.
#[cycle(fill_elements_fill_value)]
fn fill_elements(
    src: &[u8],
    columns: &mut ColumnsMut<'_>,
    lim: usize,
    row: Row,
    nest: Nest,
    k: usize,
    base: usize,
    depth: usize,
) -> Option<(usize, usize)>
    requires { Ready src.now lim row.end base (table columns.old) × CountedNest nest }
    ensures lent { SameLoans columns.old columns.new }
    ensures filled { FilledElements src.now lim row nest k base depth (table columns.old) result (table columns.new) }
{
    let mut at = row.end as usize;
    let mut low: u32 = 0;
    let mut rows = base;
    // The nest says what comes next, or that it ends: no index is counted here.
    loop {
        match nest.next_at(src, low, at).ok()? {
            Next::End(next) => {
                columns.put_row(lim, k, closed_row(row, rows - base, next));
                return Some((next, rows));
            }
            Next::Value(next, name, after) => {
                let form = nest.form_at(low);
                (at, rows) = fill_value(src, columns, lim, form, name, next, rows, depth)?;
                low = after;
            }
        }
    }
}

// Fills in the rows of an accepted message, of which there are `lim`. The columns in which only values that hold others store a number are cleared first.
// The outermost value is read as the one value of a container whose own row, at the limit, is not stored. One level more than a message has, for the integers of a date or time.
pub fn fill(src: &[u8], columns: &mut ColumnsMut<'_>, lim: usize)
    requires { Ready src.now lim 0 0 (table columns.old) }
    ensures lent { SameLoans columns.old columns.new }
    ensures filled { FilledIn src.now lim (table columns.old) (table columns.new) }
{
    columns.clear(lim);
    fill_elements(
        src,
        columns,
        lim,
        Row::default(),
        decide::alike(Form::Whole, 1, false),
        lim,
        0,
        17,
    );
}
