// Reads every text of standard input and prints what reading answers: 0 and how many entries the tape has, or the refusal's number and place.
// A text stands behind a line with its name and its size.
#![tactic(auto)]

ghost use Rattle.std.specs.Prelude.{◌≤◌, length};

use std::io;
use std::io::{Read, Write};

// The first place from `at` on with that byte; the end if there is none.
fn find(input: &[u8], at: usize, byte: u8) -> usize
    ensures { result ≤ length input.now }
{
    for i in at.min(input.len())..input.len() {
        if input[i] == byte {
            return i;
        }
    }
    input.len()
}

// As much of the input from a up to e as there is.
fn part(input: &[u8], a: usize, e: usize) -> &[u8] {
    let to = e.min(input.len());
    &input[a.min(to)..to]
}

// The decimal number in the bytes, below a million; other bytes are passed over.
fn number(digits: &[u8]) -> usize {
    let mut value = 0;
    for digit in digits {
        if b'0' <= *digit {
            value = value % 100000 * 10 + (usize::from(*digit) + 2) % 10;
        }
    }
    value
}

fn told<W: Write>(output: &mut W, a: usize, b: usize) -> io::Result<()> {
    writeln!(output, " {a} {b}")
}

// What reading says of one text.
fn answer<W: Write>(output: &mut W, text: &[u8]) -> io::Result<()> {
    let mut tape = [0; 32768];
    let none = [0; 1];
    let r = read::read(text, &text[0..0], &none[0..0], 64, &mut tape);
    match r {
        Ok(p) => told(output, 0, p.entries),
        Err(e) => told(output, usize::from(e.number), e.place),
    }
}

// The case whose line starts at `at`. The place behind its text.
fn run_case<W: Write>(output: &mut W, input: &[u8], at: usize) -> io::Result<usize> {
    let line = find(input, at, b'\n');
    if line < input.len() {
        let space = find(input, at, b' ');
        output.write_all(part(input, at, space))?;
        let start = line + 1;
        let size = number(part(input, space, line)).min(input.len() - start);
        let end = start + size;
        answer(output, part(input, start, end))?;
        return Ok(end);
    }
    Ok(input.len())
}

// Every case. There are fewer than there are bytes.
fn run<W: Write>(output: &mut W, input: &[u8]) -> io::Result<()> {
    let mut at = 0;
    for _ in 0..input.len() {
        if input.len() <= at {
            return Ok(());
        }
        at = run_case(output, input, at)?;
    }
    Ok(())
}

fn main(rt: HostRuntime) -> io::Result<()> {
    let mut input = Vec::new(rt.alloc());
    rt.stdin().take(262144).read_to_end(&mut input)?;
    run(&mut rt.stdout(), input.as_slice())
}
