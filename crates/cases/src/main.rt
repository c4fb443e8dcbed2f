#![tactic(auto)]

// Answers cases, a line each, from standard input to standard output.
ghost use Rattle.std.specs.Prelude.{◌≡◌, ◌*◌, ◌^◌, ◌≤◌, ◌<◌, length, take, IfOk, OnErr};
ghost use Rattle.columns.specs.Lent.{table, SameLoans};
ghost use Rattle.answers.specs.Replies.{Lent};
ghost use Rattle.cases.specs.Turns.{Going};

use columns::ColumnsMut;
use std::io;
use std::io::{Read, Write};

// Writes out what stands at the front where it is much, and gives how much stands there then.
fn flush<W: Write>(output: &mut W, out: &[u8], n: usize) -> io::Result<usize>
    requires { n ≤ length out.now }
    ensures { IfOk result (λ k. k ≤ 32768) }
{
    if n <= 32768 {
        return Ok(n);
    }
    output.write_all(&out[..n])?;
    Ok(0)
}

// Answers a case: what the answer begins with, its rows, at most 256 at a time, and a line feed.
fn answer_case<W: Write>(
    output: &mut W,
    line: &[u8],
    work: &mut [u8],
    columns: &mut ColumnsMut<'_>,
    out: &mut [u8],
) -> io::Result<()>
    requires { (length line.now ≤ 2 * length work.old) × Lent (table columns.old) × (65536 ≤ length out.old) }
    ensures lent { SameLoans columns.old columns.new }
    ensures err { OnErr result (Lent (table columns.new) × (length out.new ≡ length out.old)) }
{
    let begun = answers::begin_line(line, work, columns, out, 0);
    let n = begun.rows;
    let mut next = begun.end;
    let mut put = 0;
    for k in (0..n).step_by(256) {
        // No row is left out between one part and the next.
        prove!(k == put);
        let m = (n - k).min(256);
        next = answers::put_rows(columns.rows(), k, m, out, next);
        next = flush(output, out, next)?;
        put += m;
    }
    prove!(put == n);
    out[next] = b'\n';
    output.write_all(&out[..next + 1])
}

// Answers the whole lines among the octets, and gives how many octets those lines are.
fn answer_all<W: Write>(
    output: &mut W,
    src: &[u8],
    work: &mut [u8],
    columns: &mut ColumnsMut<'_>,
    out: &mut [u8],
) -> io::Result<usize>
    requires { (length src.now ≤ 2 * length work.old) × Lent (table columns.old) × (65536 ≤ length out.old) × (length src.now < 2 ^ 32) }
    ensures lent { SameLoans columns.old columns.new }
    ensures ok { IfOk result (λ n. n ≤ length src.now) }
    ensures err { OnErr result (Lent (table columns.new) × (length out.new ≡ length out.old)) }
{
    let mut used = 0;
    // A step is a line, up to its line feed; what follows the last of them is left.
    while let Some(feed) = octets::find(src, used, src.len(), b'\n') {
        answer_case(output, &src[used..feed], work, columns, out)?;
        used = feed + 1;
    }
    Ok(used)
}

// What a turn brings: so many octets at the front; or the last of them, where the input has ended.
#[derive(Clone, Copy)]
enum Turn {
    More(usize),
    Last(usize),
}

// Reads once, after what is held. A last line may lack its line feed. An error leaves what is held.
fn take_turn<R: Read>(input: &mut R, src: &mut [u8], held: usize) -> io::Result<Turn>
    requires { held < length src.old }
    ensures ok { IfOk result (Going (length src.old)) }
    ensures err { OnErr result (take held src.new ≡ take held src.old) }
{
    let came = input::read_more(input, src, held)?;
    if 0 < came {
        return Ok(Turn::More(held + came));
    }
    if held == 0 {
        return Ok(Turn::Last(0));
    }
    src[held] = b'\n';
    Ok(Turn::Last(held + 1))
}

// A proved loop has to end, and nothing says that the input does: it counts its turns, up to a number that no run uses up.
fn answer_input<R: Read, W: Write>(
    input: &mut R,
    output: &mut W,
    src: &mut [u8],
    work: &mut [u8],
    columns: &mut ColumnsMut<'_>,
    out: &mut [u8],
) -> io::Result<()>
    requires { (2 ≤ length src.old) × (length src.old ≤ 2 * length work.old) × Lent (table columns.old) × (65536 ≤ length out.old) × (length src.old < 2 ^ 32) }
    ensures lent { SameLoans columns.old columns.new }
    ensures err { OnErr result (Lent (table columns.new) × (length out.new ≡ length out.old)) }
{
    let mut held = 0;
    for _ in 0..u64::MAX {
        match take_turn(input, src, held)? {
            Turn::Last(n) => {
                answer_all(output, &src[..n], work, columns, out)?;
                return Ok(());
            }
            Turn::More(n) => {
                let used = answer_all(output, &src[..n], work, columns, out)?;
                let rest = input::keep(src, used, n);
                held = input::shorten(src, rest);
            }
        }
    }
    Ok(())
}

// Room for n of a type: a line of 1 MiB with its line feed and one octet more, the octets of its digits, a column.
fn room<T: Copy, const N: usize>(z: T) -> [T; N]
    ensures { N ≡ length result }
{
    [z; N]
}

fn main(rt: HostRuntime) -> io::Result<()> {
    let mut input = rt.stdin();
    let mut output = rt.stdout();
    let mut src = room::<u8, 1048578>(0);
    let mut work = room::<u8, 524289>(0);
    let mut columns = ColumnsMut {
        ty: &mut room::<_, 98304>(0),
        own: &mut room::<_, 98304>(0),
        label: &mut room::<_, 98304>(0),
        number: &mut room::<_, 98304>(0),
        first: &mut room::<_, 98304>(0),
        second: &mut room::<_, 98304>(0),
        place: &mut room::<_, 98304>(0),
        below: &mut room::<_, 98304>(0),
        start: &mut room::<_, 98304>(0),
        end: &mut room::<_, 98304>(0),
    };
    let mut out = [0; 65536];
    answer_input(
        &mut input,
        &mut output,
        &mut src,
        &mut work,
        &mut columns,
        &mut out,
    )
}
