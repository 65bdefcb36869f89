// The desk program: reads frames from standard input and writes a line for each to standard output. What a frame comes to is dymosaw's `step`; here is
// only reading, calling and writing.
#![tactic(auto)]

ghost use Rattle.std.specs.Prelude.{◌≤◌, length};
ghost use Rattle.paper.specs.Desk.{most_frame};

use dymosaw::desk::{Desk, LENGTH_SIZE, LINE_ROOM, MOST_FRAME, TABLE_ROOM};
use std::io::{Read, Stdin, Stdout, Write};

// Reads until the buffer is full, the input ends or a read fails, and returns how many bytes it put at the buffer's start.
// std's `read_exact` does not say how much it got where the input ends.
fn read_full(input: &mut Stdin, buffer: &mut [u8]) -> usize
    ensures { result ≤ length buffer.new }
{
    let mut got = 0;
    while got < buffer.len() {
        let n = input.read(&mut buffer[got..]).unwrap_or(0);
        if n == 0 {
            return got;
        }
        got += n;
    }
    got
}

// Reads what there is of the next frame to the start of the buffer: its length field, then as many bytes as it says.
fn read_frame(input: &mut Stdin, frame: &mut [u8]) -> usize
    requires { most_frame ≤ length frame.old }
    ensures { result ≤ most_frame }
{
    let got = read_full(input, &mut frame[..LENGTH_SIZE]);
    let end = LENGTH_SIZE + dymosaw::desk::rest_size(&frame[..got]);
    got + read_full(input, &mut frame[LENGTH_SIZE..end])
}

// A frame, if one comes, and where the run stands after it, if it goes on. The line is written at once, so that a pipe sees it before the next frame.
fn one_frame(
    input: &mut Stdin,
    output: &mut Stdout,
    table: &mut [u8; TABLE_ROOM],
    desk: Desk,
) -> Option<Desk> {
    let mut frame = [0u8; MOST_FRAME];
    let got = read_frame(input, &mut frame);
    if got == 0 {
        return None;
    }
    let mut line = [0u8; LINE_ROOM];
    let step = dymosaw::desk::step(table, desk, &frame[..got], &mut line);
    output.write_all(&line[..step.line]).ok()?;
    step.next.continue_value()
}

// A proved loop has to end, and nothing says that the input does: so it counts its frames up to a number that no run reaches.
fn main(rt: HostRuntime) {
    let mut input = rt.stdin();
    let mut output = rt.stdout();
    let mut table = dymosaw::desk::first_table();
    let mut desk = dymosaw::desk::first();
    for _ in 0..u64::MAX {
        let Some(next) = one_frame(&mut input, &mut output, &mut table, desk) else {
            return;
        };
        desk = next;
    }
}
