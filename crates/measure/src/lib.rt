#![tactic(auto)]

ghost use Rattle.std.specs.Prelude.{◌≡◌, ◌≤◌, length};
ghost use Rattle.decide.specs.declared.Class.TheVariants.{Identity};
ghost use Rattle.decide.specs.Forms.{turn};
ghost use Rattle.measure.specs.Plans.{plan_of, TextPlan, HolderPlan, DataPlan, ReferencePlan, once_of, ValuePlan};
ghost use Rattle.measure.specs.Cycle.{TooDeep, DeepAt, CanReadNext, HasReadNext, CanHold, HasHeld};
ghost use Rattle.measure.specs.Entries.{FirstAt, Outermost, answer_of, rows_needed};
ghost use Rattle.format.specs.Message.{measure as length_of};

use decide::{Class, Form, Nest, Next, Shape};
use identities::Identities;
use reading::{Reason, Refusal};
use scalar::Bits;

mod identities;

// The values inside a container: the place of the first, what the container holds, and the number of the identity that it gives, if it gives one. As in
// each plan, the place stands first.
#[derive(Clone, Copy)]
pub struct Contents {
    pub from: usize,
    pub nest: Nest,
    pub id: Option<u32>,
}

// What is found of a value: the place past it and its rows, at most 11; or a container.
#[derive(Clone, Copy)]
pub enum Plan {
    Single(usize, u8),
    Inner(Contents),
}

// ---- What is planned for a value ----

// A value of one row, by the place past it.
fn single(past: Result<usize, Refusal>) -> Result<Plan, Refusal>
    ensures { result ≡ plan_of past }
{
    past.map(|next| Plan::Single(next, 1))
}

// A string: a length, and contents.
fn text_plan(src: &[u8], at: usize, chars: bool) -> Result<Plan, Refusal>
    requires { at ≤ length src.now }
    ensures { TextPlan src.now chars at result }
{
    let (next, n) = decide::amount_at(src, at)?;
    single(scalar::text_past(&*src, next, n as usize, chars))
}

// A container: its element types, its number, and what it holds.
fn holder_plan(src: &[u8], shape: Shape, at: usize) -> Result<Plan, Refusal>
    requires { at ≤ length src.now }
    ensures { HolderPlan src.now shape at result }
{
    let (at2, first) = decide::type_at(src, shape.first, at)?;
    let (at3, second) = decide::type_at(src, shape.second, at2)?;
    let (from, n) = decide::amount_at(src, at3)?;
    Ok(Plan::Inner(Contents {
        from,
        nest: decide::nest_of(shape, first, second, n),
        id: None,
    }))
}

// An identity: a number that is new, and a value that isn't an identity.
fn identity_plan(
    src: &[u8],
    ids: &Identities,
    once: bool,
    at: usize,
    start: usize,
) -> Result<Plan, Refusal>
    requires { at ≤ length src.now }
    ensures { DataPlan src.now ids.now Identity once at start result }
{
    if once {
        return Err(Refusal {
            place: start,
            reason: Reason::BadIdentity,
        });
    }
    let (next, n) = decide::amount_at(src, at)?;
    if ids.knows(n) || ids.is_full() {
        return Err(Refusal {
            place: at,
            reason: Reason::BadIdentity,
        });
    }
    Ok(Plan::Inner(Contents {
        from: next,
        nest: decide::alike(Form::Named, 1, false),
        id: Some(n),
    }))
}

// A reference: the number of an identity that has ended.
fn reference_plan(src: &[u8], ids: &Identities, at: usize) -> Result<Plan, Refusal>
    requires { at ≤ length src.now }
    ensures { ReferencePlan src.now ids.now at result }
{
    let (next, n) = decide::amount_at(src, at)?;
    if ids.ended(n) {
        return Ok(Plan::Single(next, 1));
    }
    Err(Refusal {
        place: at,
        reason: Reason::BadReference,
    })
}

// The data of a value of a class, from `at` on.
fn data_plan(
    src: &[u8],
    ids: &Identities,
    class: Class,
    once: bool,
    at: usize,
    start: usize,
) -> Result<Plan, Refusal>
    requires { at ≤ length src.now }
    ensures { DataPlan src.now ids.now class once at start result }
{
    match class {
        Class::Refused => Err(Refusal {
            place: start,
            reason: Reason::BadType,
        }),
        Class::Small => Ok(Plan::Single(at, 1)),
        Class::Int(bits) => single(scalar::int_past(src, at, bits)),
        Class::Fixed(n) => single(scalar::octets_past(src, at, n)),
        Class::Char => single(scalar::char_past(src, at)),
        Class::Parts(which) => {
            let (next, n) = scalar::moment_past(src, at, which)?;
            Ok(Plan::Single(next, n as u8 + 1))
        }
        Class::Text(chars) => text_plan(src, at, chars),
        Class::Holder(shape) => holder_plan(src, shape, at),
        Class::Identity => identity_plan(src, ids, once, at, start),
        Class::Reference => reference_plan(src, ids, at),
    }
}

// Whether a value must not be an identity.
fn once_of(form: Form) -> bool
    ensures { result ≡ once_of form }
{
    matches!(form, Form::Named)
}

// The value at a place.
fn plan_at(src: &[u8], ids: &Identities, form: Form, at: usize) -> Result<Plan, Refusal>
    requires { at ≤ length src.now }
    ensures { ValuePlan src.now ids.now form at result }
{
    let (from, class) = decide::class_at(src, form, at)?;
    data_plan(src, ids, class, once_of(form), from, at)
}

// ---- The checking cycle ----

// Why a value at level 17 is refused.
fn deep_reason(class: Class, once: bool) -> Reason
    ensures { TooDeep class once result }
{
    match class {
        Class::Refused => Reason::BadType,
        Class::Identity => {
            if once {
                Reason::BadIdentity
            } else {
                Reason::TooDeep
            }
        }
        // As all others, in an arm that an edit turns.
        Class::Holder(_) => Reason::TooDeep,
        _ => Reason::TooDeep,
    }
}

fn too_deep(src: &[u8], form: Form, at: usize) -> Refusal
    requires { at ≤ length src.now }
    ensures { DeepAt src.now form at result }
{
    match decide::typed_at(src, form, at) {
        Err(r) => r,
        Ok((_, t)) => Refusal {
            place: at,
            reason: deep_reason(decide::class_of(t), once_of(form)),
        },
    }
}

// What lies ahead in a run of integers, as `int_ahead` tells it; elsewhere 0.
#[derive(Clone, Copy)]
pub struct Window {
    pub near: u64,
    pub far: u64,
}

// The value reader: the place past the value, and the rows counted. Its only call is in `elements`.
#[cycle(elements_value)]
fn value(
    src: &[u8],
    ids: &mut Identities,
    run: Option<(Bits, usize)>,
    nest: &Nest,
    low: u32,
    at: usize,
    ahead: &mut Window,
    rows: usize,
    depth: usize,
) -> Result<(usize, usize), Refusal>
    requires { CanReadNext src.now run (turn nest.now.form nest.now.other low) at ahead.old rows }
    ensures { HasReadNext src.now ids.old run (turn nest.now.form nest.now.other low) at rows depth result ids.new ahead.new }
{
    if depth == 0 {
        return Err(too_deep(src, nest.form_at(low), at));
    }
    match run {
        Some((w, most)) => {
            let (next, near, far) = scalar::int_ahead(src, at, w, most, ahead.near, ahead.far)?;
            *ahead = Window { near, far };
            Ok((next, rows + 1))
        }
        None => {
            *ahead = Window { near: 0, far: 0 };
            let plan = plan_at(src, ids, nest.form_at(low), at)?;
            match plan {
                Plan::Single(next, n) => Ok((next, rows + n as usize)),
                Plan::Inner(contents) => elements(&*src, ids, contents, rows + 1, depth - 1),
            }
        }
    }
}

// The container reader: each value by the value reader.
#[cycle(elements_value)]
fn elements(
    src: &[u8],
    ids: &mut Identities,
    contents: Contents,
    before: usize,
    depth: usize,
) -> Result<(usize, usize), Refusal>
    requires { CanHold src.now ids.old contents before }
    ensures { HasHeld src.now ids.old contents before depth result ids.new }
{
    let nest = &contents.nest;
    let run = nest.run();
    let mut at = contents.from;
    let mut low: u32 = 0;
    let mut rows = before;
    let mut ahead = Window { near: 0, far: 0 };
    ids.open(contents.id);
    // The nest says what comes next, or that it ends: no index is counted here.
    loop {
        let coming = nest.next_at(src, low, at)?;
        match coming {
            Next::End(next) => {
                ids.close(contents.id);
                return Ok((next, rows));
            }
            Next::Value(next, _, after) => {
                let (there, rows2) = value(
                    src, ids, run, nest, low, next, &mut ahead, rows, depth,
                )?;
                at = there;
                rows = rows2;
                low = after;
            }
        }
    }
}

// ---- Entries ----

// The outermost value from a place on, the place past it and its rows: it is read as the one element of a container without a row.
pub fn first_value(src: &[u8], at: usize) -> Result<(usize, usize), Refusal>
    requires { (at ≤ length src.now) × (length src.now ≤ 65535) }
    ensures { FirstAt src.now at result }
{
    let mut ids = Identities::new();
    let contents = Contents {
        from: at,
        nest: decide::alike(Form::Whole, 1, false),
        id: None,
    };
    elements(src, &mut ids, contents, 0, 16)
}

// The outermost value of octets on their own: their count comes first.
fn outermost(src: &[u8]) -> Result<(usize, usize), Refusal>
    ensures { Outermost src.now result }
{
    if src.len() > 65535 {
        return Err(Refusal {
            place: 0,
            reason: Reason::TooLong,
        });
    }
    first_value(src, 0)
}

// Measuring: the length of the first value.
pub fn measure(src: &[u8]) -> Result<usize, Refusal>
    ensures { answer_of result ≡ length_of src.now }
{
    let (next, _) = outermost(src)?;
    Ok(next)
}

// The rows that a message needs.
pub fn count_rows(src: &[u8]) -> Result<usize, Refusal>
    ensures { answer_of result ≡ rows_needed src.now }
{
    let (next, rows) = outermost(src)?;
    if next < src.len() {
        return Err(Refusal {
            place: next,
            reason: Reason::LeftOver,
        });
    }
    Ok(rows)
}
