// A table of grammar files on standard input, each carried out, and what each prints on standard output. A case is a line
// `case N`, a file of N bytes, and a line with the name of the case. tools/make_trials.py writes both ends.
#![tactic(auto)]

ghost use Rattle.std.specs.Prelude.{◌<◌, ◌≤◌, length, IfOk, IfSome};

use heap_run::{LONGEST_TEXT, print_into};
use reading::decimals::read_length;
use std::alloc::{AllocError, Global};
use std::io;
use std::io::{Read, Write};

const READ: u64 = 4000000;

const CASE: &[u8; 5] = b"case ";

const LINE_END: u8 = b'\n';

#[derive(Clone, Copy)]
struct Case<'a> {
    file: &'a [u8],
    name: &'a [u8],
}

// The first line of a text without its byte 10, and what stands behind that byte.
fn first_line(text: &[u8]) -> (&[u8], &[u8])
    ensures { length result.1.now ≤ length text.now }
{
    match text.iter().position(|&b| b == LINE_END) {
        Some(n) => (&text[..n], &text[n + 1..]),
        None => (text, &[]),
    }
}

// The first case of a text, if there is a whole one, and what stands behind it.
fn next_case(text: &[u8]) -> Option<(Case<'_>, &[u8])>
    ensures { IfSome result (λ found. length found.1.now < length text.now) }
{
    let head = text.iter().position(|&b| b == LINE_END)?;
    let size = read_length(text[..head].strip_prefix(CASE)?)?;
    let (file, behind) = text[head + 1..].split_at_checked(size as usize)?;
    let (name, rest) = first_line(behind);
    Some((Case { file, name }, rest))
}

// What a run prints, in the front of the buffer: how many bytes, none where it comes to a pick.
fn printed(heap: Global, file: &[u8], out: &mut [u8]) -> Result<usize, AllocError>
    ensures { IfOk result (λ n. n ≤ length out.old) }
{
    Ok(print_into(heap, file, out)?.unwrap_or(0))
}

fn main(rt: HostRuntime) -> io::Result<()> {
    let heap = rt.alloc();
    let mut text = Vec::new(heap);
    let _ = rt.stdin().take(READ).read_to_end(&mut text)?;
    let mut out = vec![in heap; 0u8; LONGEST_TEXT]?;
    let mut stdout = rt.stdout();
    let mut rest = text.as_slice();
    while let Some((case, behind)) = next_case(rest) {
        let n = printed(heap, case.file, out.as_mut_slice())?;
        stdout.write_all(case.name)?;
        stdout.write_all(b"\n")?;
        stdout.write_all(&out.as_slice()[..n])?;
        rest = behind;
    }
    stdout.flush()
}
