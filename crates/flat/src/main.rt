// The flat program: standard input to the flat text, or `refused N L`.
#![tactic(auto)]

ghost use Rattle.std.specs.Prelude.{◌≤◌, length, IfOk};

use std::io::{self, Read, Write};

// Reads until buf is full or the input ends; the answer is how many bytes stand at the start of buf.
fn read_full<R: Read>(input: &mut R, buf: &mut [u8]) -> io::Result<usize>
    ensures { IfOk result (λ n. n ≤ length buf.new) }
{
    let mut done = 0;
    while done < buf.len() {
        let n = input.read(&mut buf[done..])?;
        if n == 0 {
            break;
        }
        done += n;
    }
    Ok(done)
}

// A text of 65,537 bytes is too long, so no more of the input is read. The two tables hold 1,300 records each, whose text has at most 52,000 bytes.
fn main(rt: HostRuntime) -> io::Result<()> {
    let mut text = [0u8; 65537];
    let n = read_full(&mut rt.reader(), &mut text)?;
    let mut table = [0; 7800];
    let mut target = [0; 7800];
    let mut out = [0u8; 65536];
    let m = flat_text::flat(&text[..n], &mut table, &mut target, &mut out);
    io::writer(&rt).write_all(&out[..m])
}
