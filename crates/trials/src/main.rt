// Runs every case of standard input through `respond` and compares what is printed, byte for byte, with what must be. A case is a line
// `MEMORY OUTPUT INPUT PRINTED NAME`, four numbers of seven digits: the words and bytes to lend, and the sizes of the input and of what must be
// printed, which follow.
#![tactic(auto)]

ghost use Rattle.std.specs.Prelude.{◌≤◌, length};

use std::alloc::Global;
use std::io;
use std::io::{Read, Write};

// As much of the bytes from a up to e as there is.
fn part(bytes: &[u8], a: usize, e: usize) -> &[u8] {
    let to = e.min(bytes.len());
    let from = a.min(to);
    &bytes[from..to]
}

// The end of the line at `at`: its LF, or the end of the bytes.
fn line_end(bytes: &[u8], at: usize) -> usize
    ensures { result ≤ length bytes.now }
{
    for i in at..bytes.len() {
        if bytes[i] == b'\n' {
            return i;
        }
    }
    bytes.len()
}

// The decimal number in the bytes, of at most seven digits.
fn number(digits: &[u8]) -> usize {
    let mut value = 0;
    for b in digits {
        value = value % 1000000 * 10 + (usize::from(*b) + 2) % 10;
    }
    value
}

// The first place where a and b differ: where one ends, at the latest.
fn first_difference(a: &[u8], b: &[u8]) -> usize {
    let size = a.len().min(b.len());
    a.iter().zip(b).position(|(x, y)| *x != *y).unwrap_or(size)
}

// Is what was printed what must be? Prints what comes of the case, behind its name.
fn compared<W: Write>(output: &mut W, printed: &[u8], wanted: &[u8]) -> io::Result<bool> {
    if printed == wanted {
        output.write_all(b" ok\n")?;
        return Ok(true);
    }
    let place = first_difference(printed, wanted);
    writeln!(output, " differs at {place}")?;
    Ok(false)
}

// The response to the input, where the case's line says what is lent.
fn respond(line: &[u8], input: &[u8], work: &mut [u32], out: &mut [u8], page: &mut [u8]) -> usize {
    let memory = number(part(line, 0, 7)).min(work.len());
    let output = number(part(line, 8, 15)).min(out.len());
    responding::respond(input, &mut work[0..memory], &mut out[0..output], page)
}

// The place behind the byte at `at`, of `size` bytes.
fn behind(at: usize, size: usize) -> usize
    ensures { result ≤ size }
{
    if at < size { at + 1 } else { size }
}

// Where the parts of a case lie: the input, what must be printed, and the next case.
#[derive(Clone, Copy)]
struct Places {
    input: usize,
    printed: usize,
    next: usize,
}

// Their sizes stand in the case's line, which ends at `end`.
fn places_of(cases: &[u8], line: &[u8], end: usize) -> Places {
    let input = behind(end, cases.len());
    let printed = input + number(part(line, 16, 23)).min(cases.len() - input);
    let next = printed + number(part(line, 24, 31)).min(cases.len() - printed);
    Places {
        input,
        printed,
        next,
    }
}

// Whether a case went well, and where the next one starts.
#[derive(Clone, Copy)]
struct Ran {
    well: bool,
    next: usize,
}

// The case whose line starts at `at`.
fn run_case<W: Write>(
    output: &mut W,
    cases: &[u8],
    at: usize,
    work: &mut [u32],
    out: &mut [u8],
    page: &mut [u8],
) -> io::Result<Ran> {
    let end = line_end(cases, at);
    let line = part(cases, at, end);
    let p = places_of(cases, line, end);
    let input = p.input;
    let printed = p.printed;
    let next = p.next;
    let size = respond(line, part(cases, input, printed), work, out, page);
    output.write_all(part(line, 32, line.len()))?;
    let well = compared(output, part(page, 0, size), part(cases, printed, next))?;
    Ok(Ran { well, next })
}

fn told<W: Write>(output: &mut W, good: usize, all: usize) -> io::Result<()> {
    writeln!(output, "{good} of {all}")
}

// Every case. There are fewer than there are bytes.
fn run<W: Write>(
    output: &mut W,
    cases: &[u8],
    work: &mut [u32],
    out: &mut [u8],
    page: &mut [u8],
) -> io::Result<()> {
    let mut at = 0;
    let mut good = 0;
    for all in 0..cases.len() {
        if cases.len() <= at {
            return told(output, good, all);
        }
        let ran = run_case(output, cases, at, work, out, page)?;
        let well = ran.well;
        at = ran.next;
        good += usize::from(well);
    }
    told(output, good, cases.len())
}

fn run_with<W: Write>(output: &mut W, cases: &[u8], work: &mut [u32]) -> io::Result<()> {
    let mut out = [0; 65536];
    let mut page = [0; 65743];
    run(output, cases, work, &mut out, &mut page)
}

// The working memory is too large for the stack.
fn run_all<W: Write>(alloc: Global, output: &mut W, cases: &[u8]) -> io::Result<()> {
    let mut work = vec![in alloc; 0; 1048576]?;
    run_with(output, cases, work.as_mut_slice())
}

fn run_read<R: Read + Drop, W: Write>(alloc: Global, input: R, output: &mut W) -> io::Result<()> {
    let mut cases = Vec::new(alloc);
    input.take(1048576).read_to_end(&mut cases)?;
    run_all(alloc, output, cases.as_slice())
}

fn main(rt: HostRuntime) -> io::Result<()> {
    run_read(rt.alloc(), rt.stdin(), &mut rt.stdout())
}
