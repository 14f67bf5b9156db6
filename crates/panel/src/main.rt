// The program: a grammar file on standard input, the drawing that it leaves on standard output.
#![tactic(auto)]

use heap_run::{LONGEST_TEXT, print_into};
use run::listing::LONGEST;
use std::io;
use std::io::{Read, Write};
use std::process::ExitCode;

// How many bytes of a file are read: one more than the longest file has, so that a longer one is told from it.
const READ: u64 = LONGEST as u64 + 1;

fn main(rt: HostRuntime) -> io::Result<ExitCode> {
    let heap = rt.alloc();
    let mut file = Vec::new(heap);
    let _ = rt.stdin().take(READ).read_to_end(&mut file)?;
    let mut out = vec![in heap; 0u8; LONGEST_TEXT]?;
    let n = match print_into(heap, file.as_slice(), out.as_mut_slice())? {
        Ok(n) => n,
        Err(line) => {
            eprintln!(rt; "panel: line {line} is a pick, and picks are not carried out yet")?;
            return Ok(ExitCode::FAILURE);
        }
    };
    let mut stdout = rt.stdout();
    stdout.write_all(&out.as_slice()[..n])?;
    stdout.flush()?;
    Ok(ExitCode::SUCCESS)
}
