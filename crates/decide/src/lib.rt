#![tactic(auto)]

ghost use Rattle.std.specs.Prelude.{◌≡◌, ◌^◌, ◌<◌, ◌≤◌, length};
ghost use Rattle.reading.specs.Reading.{refusal};
ghost use Rattle.format.specs.Values.{label};
ghost use Rattle.decide.specs.Classes.{ClassOf, may_be_element};
ghost use Rattle.decide.specs.Elements.{AmountAt, ElementAt, TypeAt};
ghost use Rattle.decide.specs.Forms.{own_of, TypedAt, ClassAt, ClassIn, bare_form, form_of, listed_in, alike_nest, nest_in, turn};
ghost use Rattle.decide.specs.Coming.{IndexNext, NextAt};
ghost use Rattle.decide.specs.Runs.{integers_of, RunOf, RunIn};

use integer::Signed;
use reading::{Reason, Refusal};
use scalar::{Bits, Which};

// The values inside a container: as many as its number says; as many pairs of key and value; pairs of index and value; properties.
#[derive(Clone, Copy)]
pub enum Inside {
    List,
    Pairs,
    Sparse,
    User,
}

// A container: whether element types stand first in its data, one or two, and the values inside.
#[derive(Clone, Copy)]
pub struct Shape {
    pub first: bool,
    pub second: bool,
    pub inside: Inside,
}

// How the data of a type goes. A type that is refused is one of the ways: the table of types has no way in which one could be missing.
#[derive(Clone, Copy)]
pub enum Class {
    Refused,
    Small,
    Int(Bits),
    Fixed(usize),
    Char,
    Parts(Which),
    Text(bool),
    Holder(Shape),
    Identity,
    Reference,
}

// A container of a shape.
fn holder(first: bool, second: bool, inside: Inside) -> Class
    ensures { result ≡ Class.Holder (record { first = first; second = second; inside = inside }) }
{
    Class::Holder(Shape {
        first,
        second,
        inside,
    })
}

// The class of a type.
pub fn class_of(t: i32) -> Class
    ensures { ClassOf t result }
{
    match t {
        0..=2147483647 => holder(false, false, Inside::User),
        -1 => Class::Int(Bits::Bits16),
        -2 | -11 => Class::Int(Bits::Bits32),
        -3 => Class::Int(Bits::Bits64),
        -5 => Class::Fixed(4),
        -6 => Class::Fixed(8),
        -12 => Class::Fixed(1),
        -13 => Class::Text(false),
        -14 => Class::Char,
        -15 => Class::Text(true),
        -16 => Class::Parts(Which::Date),
        -18 => Class::Parts(Which::Time),
        -20 => Class::Parts(Which::DateTime),
        -22 | -24 => holder(false, false, Inside::List),
        -23 | -25 => holder(true, false, Inside::List),
        -26 => holder(false, false, Inside::Sparse),
        -27 => holder(true, false, Inside::Sparse),
        -28 => holder(false, false, Inside::Pairs),
        -29 => holder(true, false, Inside::Pairs),
        -30 => holder(true, true, Inside::Pairs),
        -31 => Class::Identity,
        -32 => Class::Reference,
        -64..=-33 => Class::Small,
        _ => Class::Refused,
    }
}

// Whether a type of the class may be an element type.
fn may_be_element(c: Class) -> bool
    ensures { result ≡ may_be_element c }
{
    !matches!(
        c,
        Class::Refused | Class::Small | Class::Identity | Class::Reference
    )
}

// The refusal of a number at a place that is negative, or an index out of its bounds.
fn out_of_bounds(at: usize) -> Refusal
    ensures { result ≡ refusal 5 at }
{
    Refusal {
        place: at,
        reason: Reason::BadNumber,
    }
}

// The size, length, version, identity or reference number at a place, and the place past it.
pub fn amount_at(src: &[u8], at: usize) -> Result<(usize, u32), Refusal>
    ensures { AmountAt src.now at result }
{
    let (next, number) = integer::signed_at(src, at)?;
    match number {
        Signed::Positive(n) => Ok((next, n)),
        Signed::Negative(_) => Err(out_of_bounds(at)),
    }
}

// The element, key or value type at a place, and the place past it.
pub fn element_at(src: &[u8], at: usize) -> Result<(usize, i32), Refusal>
    ensures { ElementAt src.now at result }
{
    let (next, t) = integer::int_at::<i32>(src, at)?;
    if may_be_element(class_of(t)) {
        return Ok((next, t));
    }
    Err(Refusal {
        place: at,
        reason: Reason::BadType,
    })
}

// The element type at a place, if one stands there; else the same place and 0.
pub fn type_at(src: &[u8], on: bool, at: usize) -> Result<(usize, i32), Refusal>
    requires { at ≤ length src.now }
    ensures { TypeAt src.now on at result }
{
    if on {
        return element_at(src, at);
    }
    Ok((at, 0))
}

// ---- How a value stands ----

// How a value inside a container stands: with its identifier; so too, as the value of an identity, which isn't one; or bare, of a type. Of bare values
// that are so many octets, or an integer of a width, the form says that too, so that it is decided once for all values of a container.
#[derive(Clone, Copy)]
pub enum Form {
    Whole,
    Named,
    Bare(i32),
    Sized(u8, i32),
    Packed(Bits, i32),
}

// 1 if a value's identifier stands before its data, else 0: 01's own.
pub fn own_of(form: Form) -> u8
    ensures { result ≡ own_of form }
{
    match form {
        Form::Whole | Form::Named => 1,
        Form::Bare(_) | Form::Sized(_, _) | Form::Packed(_, _) => 0,
    }
}

// The place of the data of the value at a place, and its type.
pub fn typed_at(src: &[u8], form: Form, at: usize) -> Result<(usize, i32), Refusal>
    requires { at ≤ length src.now }
    ensures { TypedAt src.now form at result }
{
    match form {
        Form::Bare(t) => Ok((at, t)),
        Form::Sized(_, t) => Ok((at, t)),
        Form::Packed(_, t) => Ok((at, t)),
        _ => integer::int_at::<i32>(src, at),
    }
}

// The place of a value's data, and its class, by its type.
fn typed_class(src: &[u8], form: Form, at: usize) -> Result<(usize, Class), Refusal>
    requires { at ≤ length src.now }
    ensures { ClassAt src.now form at result }
{
    let (from, t) = typed_at(src, form, at)?;
    Ok((from, class_of(t)))
}

// The same, without its type where its form is enough.
pub fn class_at(src: &[u8], form: Form, at: usize) -> Result<(usize, Class), Refusal>
    requires { at ≤ length src.now }
    ensures { ClassAt src.now form at result }
{
    match form {
        Form::Sized(n, _) => Ok((at, Class::Fixed(n as usize))),
        Form::Packed(w, _) => Ok((at, Class::Int(w))),
        _ => typed_class(src, form, at),
    }
}

// The class of a type, by the form alone where that says that its values are integers.
pub fn class_in(form: Form, t: i32) -> Class
    ensures { ClassIn form t result }
{
    match form {
        Form::Packed(w, _) => Class::Int(w),
        _ => class_of(t),
    }
}

// ---- What a container holds ----

// The values of a container: how many, or below what their indexes; how many stand by position; how they stand, by turns; whether they have indexes, and
// whether they are the keys and values of a map.
// (How `listed` follows from `count` stays a clause of those who need it: the definitions make nests as records, and a ghost field would want a proof in each.)
#[derive(Clone, Copy)]
pub struct Nest {
    pub count: usize,
    pub listed: u32,
    pub form: Form,
    pub other: Form,
    pub indexed: bool,
    pub paired: bool,
}

// How many values of a container stand by position: none, where they have indexes. (Nor where 32 bits don't hold the count, which no container has.)
fn listed_of(indexed: bool, count: usize) -> u32
    ensures { result ≡ listed_in indexed count }
{
    if indexed {
        return 0;
    }
    u32::try_from(count).unwrap_or(0)
}

// Values that stand in one form.
pub fn alike(form: Form, count: usize, indexed: bool) -> Nest
    ensures { result ≡ alike_nest form count indexed }
{
    Nest {
        count,
        listed: listed_of(indexed, count),
        form,
        other: form,
        indexed,
        paired: false,
    }
}

// The form of bare values of a type.
fn bare_form(t: i32) -> Form
    ensures { result ≡ bare_form t }
{
    match class_of(t) {
        Class::Fixed(n) => Form::Sized(n as u8, t),
        Class::Int(w) => Form::Packed(w, t),
        _ => Form::Bare(t),
    }
}

fn form_of(on: bool, t: i32) -> Form
    ensures { result ≡ form_of on t }
{
    if on {
        return bare_form(t);
    }
    Form::Whole
}

// What a container of a shape holds, by its element types and its number.
pub fn nest_of(shape: Shape, first: i32, second: i32, n: u32) -> Nest
    ensures { result ≡ nest_in shape.inside shape.first shape.second first second n }
{
    let inside = shape.inside;
    let form = form_of(shape.first, first);
    let pairs = 2 * n as usize;
    match inside {
        Inside::List => alike(form, n as usize, false),
        Inside::Pairs => Nest {
            count: pairs,
            listed: listed_of(false, pairs),
            form,
            other: form_of(shape.second, second),
            indexed: false,
            paired: true,
        },
        Inside::Sparse => alike(form, n as usize, true),
        Inside::User => alike(Form::Whole, 2147483648, true),
    }
}

// ---- The next value of a container ----

// A value at a place, with its label, and the position or least index after it; or the end, and the place past it.
#[derive(Clone, Copy)]
pub enum Next {
    Value(usize, u32, u32),
    End(usize),
}

fn index_next(src: &[u8], top: usize, low: u32, at: usize) -> Result<Next, Refusal>
    requires { top < 2 ^ 32 }
    ensures { IndexNext src.now top low at result }
{
    let (next, number) = integer::signed_at(src, at)?;
    match number {
        Signed::Negative(n) => {
            if n == 0 {
                return Ok(Next::End(next));
            }
            Err(out_of_bounds(at))
        }
        Signed::Positive(j) => {
            if j < low {
                return Err(out_of_bounds(at));
            }
            if top <= (j as usize) {
                return Err(out_of_bounds(at));
            }
            Ok(Next::Value(next, j, j + 1))
        }
    }
}

fn label_of(paired: bool, i: u32) -> u32
    ensures { result ≡ label paired i }
{
    if paired {
        return i / 2;
    }
    i
}

impl Nest {
    // The next value of a container, where `low` is the position of the next one, or with indexes the least index that may come.
    pub fn next_at(&self, src: &[u8], low: u32, at: usize) -> Result<Next, Refusal>
        requires { (at ≤ length src.now) × (self.now.count < 2 ^ 32) × (self.now.listed ≡ listed_in self.now.indexed self.now.count) }
        ensures { NextAt src.now self.now.indexed self.now.paired self.now.count low at result }
    {
        if low < self.listed {
            return Ok(Next::Value(at, label_of(self.paired, low), low + 1));
        }
        if self.indexed {
            return index_next(src, self.count, low, at);
        }
        Ok(Next::End(at))
    }

    // The form of the value at a position: of a map's keys and values, by turns.
    pub fn form_at(&self, i: u32) -> Form
        ensures { result ≡ turn self.now.form self.now.other i }
    {
        if i % 2 == 0 {
            return self.form;
        }
        self.other
    }

    // What the values of a container are, where all are integers of a width: that width, with the number that tells which fit. Between those with indexes
    // there are integers, so they make no run.
    pub fn run(&self) -> Option<(Bits, usize)>
        ensures { RunIn self.now.indexed self.now.form self.now.other result }
    {
        if self.indexed {
            return None;
        }
        run_of(self.form, self.other)
    }
}

// ---- Values that are alike ----

fn same_widths(w: Bits, v: Bits) -> Option<(Bits, usize)>
    ensures { result ≡ integers_of w v }
{
    let most = scalar::most_of(w);
    if most == scalar::most_of(v) {
        return Some((w, most));
    }
    None
}

// What values are that stand in two forms by turns.
fn run_of(form: Form, other: Form) -> Option<(Bits, usize)>
    ensures { RunOf form other result }
{
    match (form, other) {
        (Form::Packed(w, _), Form::Packed(v, _)) => same_widths(w, v),
        _ => None,
    }
}
