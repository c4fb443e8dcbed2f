#![tactic(auto)]

// The desk: lists the frames of lines, from standard input to standard output.
ghost use Rattle.std.specs.Prelude.{◌≡◌, ◌≤◌, ◌<◌, length, take, IfOk, OnErr};
ghost use Rattle.desk.specs.Turns.{Within, Going};

use reading::{Reason, Refusal};
use std::io;
use std::io::{Read, Write};

// Lists the whole lines among the octets, a run of them at a time, and gives how many octets are listed.
fn list_all<W: Write>(output: &mut W, src: &[u8], out: &mut [u8]) -> io::Result<usize>
    ensures ok { Within (length src.now) result }
    ensures err { OnErr result (length out.new ≡ length out.old) }
{
    let mut at = 0;
    // A step is as many lines as were listed.
    while at < src.len() {
        let p = listing::list_lines(&src[at..], out);
        if p.used == 0 {
            break;
        }
        output.write_all(&out[..p.written])?;
        at += p.used;
    }
    Ok(at)
}

// A last line without a line feed is 17.
fn refuse_last<W: Write>(output: &mut W, out: &mut [u8]) -> io::Result<()>
    requires { 32768 ≤ length out.old }
    ensures { OnErr result (length out.new ≡ length out.old) }
{
    let written = text::put_refused(
        out,
        0,
        Refusal {
            place: 0,
            reason: Reason::BadLine,
        },
    );
    output.write_all(&out[..written])
}

// Reads once, and lists the whole lines that are there. What is left is a part of a line at the front, of so many octets; None where all is done.
// An error leaves what is held.
fn take_turn<R: Read, W: Write>(
    input: &mut R,
    output: &mut W,
    src: &mut [u8],
    out: &mut [u8],
    held: usize,
) -> io::Result<Option<usize>>
    requires { (held < length src.old) × (2 ≤ length src.old) × (32768 ≤ length out.old) }
    ensures ok { IfOk result (Going (length src.old)) }
    ensures err { OnErr result (take held src.new ≡ take held src.old) }
{
    let came = input::read_more(input, src, held)?;
    if came == 0 {
        if 0 < held {
            refuse_last(output, out)?;
        }
        return Ok(None);
    }
    let end = held + came;
    let used = list_all(output, &src[..end], out)?;
    let rest = input::keep(src, used, end);
    Ok(Some(input::shorten(src, rest)))
}

// A proved loop has to end, and nothing says that the input does: it counts its turns, up to a number that no run uses up.
fn main(rt: HostRuntime) -> io::Result<()> {
    let mut input = rt.stdin();
    let mut output = rt.stdout();
    let mut src = [0; 65536];
    let mut out = [0; 65536];
    let mut held = 0;
    for _ in 0..u64::MAX {
        match take_turn(&mut input, &mut output, &mut src, &mut out, held)? {
            Some(left) => held = left,
            None => return Ok(()),
        }
    }
    Ok(())
}
