// Reads a network file from standard input and prints the verdict, line by line.
#![tactic(auto)]

ghost use Rattle.std.specs.Prelude.{◌≤◌, length};

use printing::{Line, Printed};
use std::io;
use std::io::{Read, Write};

// Reads standard input until the buffer is full or the input gives no more, and says how many bytes the buffer then holds.
fn read_full(rt: &HostRuntime, file: &mut [u8]) -> usize
    ensures { result ≤ length file.new }
{
    let mut input = rt.stdin();
    let mut got = 0;
    while got < file.len() {
        match input.read(&mut file[got..]) {
            Ok(0) | Err(_) => break,
            Ok(more) => got += more,
        }
    }
    got
}

// Writes the lines of an answer, each by a call of its own, as long as the output takes them.
fn print(rt: &HostRuntime, printed: Printed) -> io::Result<()> {
    let mut output = rt.stdout();
    let mut lines = printed.lines();
    let mut line = Line::new();
    while lines.put_next(&mut line) {
        output.write_all(line.as_str().as_bytes())?;
    }
    Ok(())
}

#[tactic(auto, using(crate::proofs::Answer::answer_bounded))]
fn main(rt: HostRuntime) {
    // 4,096 bytes: what the file has after these is never read.
    let mut file = [0u8; 4096];
    let got = read_full(&rt, &mut file);
    let mut cares = [0u32; 1024];
    let mut values = [0u32; 1024];
    let mut sizes = [0u64; 1024];
    let mut cycle = [255u8; 64];
    let answer = judge::judge(
        &file[..got],
        &mut cares,
        &mut values,
        &mut sizes,
        &mut cycle,
    );
    let printed = Printed {
        answer,
        cares: &cares,
        values: &values,
        sizes: &sizes,
        cycle: &cycle,
    };
    // Where the output takes no more, nothing is left to say.
    let _ = print(&rt, printed);
}
