// Reads a request and a specification from standard input, and prints the normal form of the asked module or its refusal.
#![tactic(auto)]

ghost use Rattle.std.specs.Prelude.{◌+◌, ◌≤◌, length, take, OnOk, IfSome};
ghost use Rattle.std.specs.Io.KnownBytes.{Appends};
ghost use Rattle.meaning.specs.Answer.{asfnorm};
ghost use Rattle.responding.specs.Program.{asfnorm_with, page_room};

use std::alloc::Global;
use std::io;
use std::io::{Read, Write};

fn print_response<W: Write>(
    output: &mut W,
    input: &[u8],
    work: &mut [u32],
    out: &mut [u8],
    page: &mut [u8],
) -> io::Result<()>
    requires { length out.old + page_room ≤ length page.old }
    ensures { OnOk result (Appends (W.contents output.old) (W.contents output.new)
        (asfnorm_with (length work.old) (length out.old) input.now)) }
{
    let size = responding::respond(input, work, out, page);
    output.write_all(&page[..size])
}

// The page is as long as the output, and 207 bytes more.
fn respond_with<W: Write>(output: &mut W, input: &[u8], work: &mut [u32]) -> io::Result<()>
    ensures { OnOk result (Appends (W.contents output.old) (W.contents output.new)
        (asfnorm_with (length work.old) 65536 input.now)) }
{
    let mut out = [0; 65536];
    let mut page = [0; 65743];
    print_response(output, input, work, &mut out, &mut page)
}

// The one size of the working memory, which is too large for the stack.
fn respond_to<W: Write>(alloc: Global, output: &mut W, input: &[u8]) -> io::Result<()>
    ensures { OnOk result (Appends (W.contents output.old) (W.contents output.new) (asfnorm input.now)) }
{
    let mut work = vec![in alloc; 0; 1048576]?;
    respond_with(output, input, work.as_mut_slice())
}

// Room for the longest two lines, the longest library, and a text that is one byte too long: what follows cannot change the answer.
fn respond<R: Read + Drop, W: Write>(alloc: Global, input: R, output: &mut W) -> io::Result<()>
    ensures { OnOk result (IfSome (R.remaining input)
        (λ bytes. Appends (W.contents output.old) (W.contents output.new) (asfnorm (take 65606 bytes)))) }
{
    let mut asked = Vec::new(alloc);
    input.take(65606).read_to_end(&mut asked)?;
    respond_to(alloc, output, asked.as_slice())
}

fn main(rt: HostRuntime) -> io::Result<()> {
    respond(rt.alloc(), rt.stdin(), &mut rt.stdout())
}
