#![tactic(auto)]

// Ten lent columns: cleared, rows stored in them, and read.
ghost use Rattle.std.specs.Prelude.{◌≡◌, ◌≤◌, ◌<◌, ◌+◌, length, pos};
ghost use Rattle.columns.specs.Columns.{Roomy, NestRoom, Stored, LeafRoom, LeafStored, cleared, shortest, RowOf};
ghost use Rattle.columns.specs.Lent.{table, table_of, SameLoans, Cleared};

use format::Row;

// Ten columns, lent for writing. They stay ten: C lends them so, each of its own type.
#[derive(Drop)]
pub struct ColumnsMut<'a> {
    pub ty: &'a mut [i32],
    pub own: &'a mut [u8],
    pub label: &'a mut [u32],
    pub number: &'a mut [i64],
    pub first: &'a mut [i32],
    pub second: &'a mut [i32],
    pub place: &'a mut [u32],
    pub below: &'a mut [u32],
    pub start: &'a mut [u32],
    pub end: &'a mut [u32],
}

// z in the first n rows of a column.
fn clear<T: Clone>(col: &mut [T], n: usize, z: T)
    requires room { n ≤ length col.old }
    requires copied { T.is_infallible z }
    requires alike { (y : T) → T.is_clone z y → y ≡ z }
    ensures { col.new ≡ cleared n z col.old }
{
    col[..n].fill(z);
}

// 0 in the first n rows of a column of element types.
pub fn clear_types(col: &mut [i32], n: usize)
    requires { n ≤ length col.old }
    ensures { col.new ≡ cleared n (pos 0) col.old }
{
    clear(col, n, 0);
}

// 0 in the first n rows of a column of counts.
pub fn clear_counts(col: &mut [u32], n: usize)
    requires { n ≤ length col.old }
    ensures { col.new ≡ cleared n 0 col.old }
{
    clear(col, n, 0);
}

impl ColumnsMut<'_> {
    // The same columns, for reading.
    pub fn rows(&self) -> Columns<'_>
        ensures { table_of result ≡ table self.now }
    {
        Columns {
            ty: &*self.ty,
            own: &*self.own,
            label: &*self.label,
            number: &*self.number,
            first: &*self.first,
            second: &*self.second,
            place: &*self.place,
            below: &*self.below,
            start: &*self.start,
            end: &*self.end,
        }
    }

    // 0 in the first n rows of the element types and of the rows below.
    pub fn clear(&mut self, n: usize)
        requires { NestRoom n (table self.old) }
        ensures lent { SameLoans self.old self.new }
        ensures cleared { Cleared n (table self.old) (table self.new) }
    {
        clear_types(self.first, n);
        clear_types(self.second, n);
        clear_counts(self.below, n);
    }

    // Stores a row in seven columns: all but element types and rows below. The row of a value that holds no others has 0 in those three, and 0 stands
    // there already.
    pub fn put_leaf(&mut self, k: usize, r: Row)
        requires { LeafRoom k (table self.old) }
        ensures lent { SameLoans self.old self.new }
        ensures stored { LeafStored k r (table self.old) (table self.new) }
    {
        self.ty[k] = r.ty;
        self.own[k] = r.own;
        self.label[k] = r.label;
        self.number[k] = r.number;
        self.place[k] = r.place;
        self.start[k] = r.start;
        self.end[k] = r.end;
    }

    // Stores a row in the columns at k, if that is below the limit.
    pub fn put_row(&mut self, lim: usize, k: usize, r: Row)
        requires { Roomy lim (table self.old) }
        ensures lent { SameLoans self.old self.new }
        ensures stored { Stored lim k r (table self.old) (table self.new) }
    {
        if k < lim {
            self.put_leaf(k, r);
            self.first[k] = r.first;
            self.second[k] = r.second;
            self.below[k] = r.below;
        }
    }
}

// Ten columns, lent for reading.
#[derive(Clone, Copy)]
pub struct Columns<'a> {
    pub ty: &'a [i32],
    pub own: &'a [u8],
    pub label: &'a [u32],
    pub number: &'a [i64],
    pub first: &'a [i32],
    pub second: &'a [i32],
    pub place: &'a [u32],
    pub below: &'a [u32],
    pub start: &'a [u32],
    pub end: &'a [u32],
}

impl Columns<'_> {
    // How many rows there are: as many as the shortest column has.
    #[tactic(auto, unfolding(crate::specs::Columns::shortest))]
    pub fn shortest(self) -> usize
        ensures { result ≡ shortest (table_of self.entry) }
    {
        self.ty
            .len()
            .min(self.own.len())
            .min(self.label.len())
            .min(self.number.len())
            .min(self.first.len())
            .min(self.second.len())
            .min(self.place.len())
            .min(self.below.len())
            .min(self.start.len())
            .min(self.end.len())
    }

    // The row at k.
    pub fn row(self, k: usize) -> Row
        requires { Roomy (k + 1) (table_of self) }
        ensures { RowOf (table_of self.entry) k result }
    {
        let Columns {
            ty,
            own,
            label,
            number,
            first,
            second,
            place,
            below,
            start,
            end,
        } = self;
        Row {
            ty: ty[k],
            own: own[k],
            label: label[k],
            number: number[k],
            first: first[k],
            second: second[k],
            place: place[k],
            below: below[k],
            start: start[k],
            end: end[k],
        }
    }
}
