// Reads a listing from standard input, of at most 65,536 bytes, and prints its visible part: what a console would store.
#![tactic(auto)]

ghost use Rattle.std.specs.Prelude.{take, OnOk, IfSome};
ghost use Rattle.std.specs.Io.KnownBytes.{Appends};
ghost use Rattle.reader.specs.Visible.{front_part};

use std::alloc::Global;
use std::io;
use std::io::{Read, Write};

// Writes the visible part of what there is to read, and nothing else.
fn show<R: Read + Drop, W: Write>(alloc: Global, input: R, output: &mut W) -> io::Result<()>
    ensures { OnOk result (IfSome (R.remaining input)
        (λ bytes. Appends (W.contents output.old) (W.contents output.new) (front_part (take 65536 bytes)))) }
{
    let mut listing = Vec::new(alloc);
    input.take(65536).read_to_end(&mut listing)?;
    output.write_all(reader::visible_part(listing.as_slice()))
}

fn main(rt: HostRuntime) -> io::Result<()> {
    show(rt.alloc(), rt.stdin(), &mut rt.stdout())
}
