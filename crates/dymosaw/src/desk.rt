// The desk's step: a frame as far as it was read, to its line, the table after it, and whether the run goes on. The table lives in a buffer of the
// desk that holds the largest one. The program (crates/desk) only reads, calls and writes.
ghost use Rattle.std.specs.Prelude.{◌≡◌, ℕ, ◌+◌, ◌≤◌, true, List, length, take, replicate};
ghost use Rattle.wire.specs.Put.{put};
ghost use Rattle.paper.specs.Desk.{empty_table, most_frame, answer_line, table_turn, request_turn, correction_turn, size_right, frame_right, rest_size, turn};
ghost use Rattle.dymosaw.specs.Serve.{number_of, size_of, said_by, listed_by};
ghost use Rattle.dymosaw.specs.Desk.{table_room, line_room, turn_of, table_in, Framed, Made, Told};

use crate::correct::dymosaw_correct;
use crate::line::{plain, put_line};
use crate::serve::{Answered, Silent, serve};
use paper::layout::{CANCEL_SIZE, LEAST_ANSWER, MOST_RECORDS, RECORD_SIZE, TABLE_HEADER};
use paper::{Line, Verdict};
use std::ops::ControlFlow;
use table::valid::valid_table;
use wire::number::get;
use wire::put::put_bytes;

// The largest table.
pub const TABLE_ROOM: usize = TABLE_HEADER + MOST_RECORDS * RECORD_SIZE;

// The longest line: three numbers of 20 digits, a code of 10 with E, the letter, four spaces and the line feed.
pub const LINE_ROOM: usize = 77;

// A frame: whole length (4), version 1, kind, data.
pub const LENGTH_SIZE: usize = 4;

const VERSION_AT: usize = 4;

const KIND_AT: usize = 5;

const DESK_HEAD: usize = 6;

pub const MOST_FRAME: usize = 65536;

const DESK_VERSION: u8 = 1;

// What a frame hands over, or asks for.
#[derive(Clone, Copy, Debug, PartialEq, Eq)]
pub enum Kind {
    Table,
    Request,
    Correction,
}

// Where a run stands: how many bytes of the buffer are the table, and the number of the frame that comes. The buffer
// holds the largest table, since there is no heap, and a caller keeps both between two steps.
#[derive(Clone, Copy, Debug, PartialEq, Eq)]
pub struct Desk {
    pub used: usize,
    pub number: u64,
}

// What a frame came to: what its line says, and how many bytes of the buffer are the table after it, where the run goes on and where it ends.
#[derive(Clone, Copy, Debug, PartialEq, Eq)]
pub struct Turned {
    pub line: Line,
    pub used: ControlFlow<usize, usize>,
}

// What the step hands back: how long the line is, and where the run stands after the frame, where it goes on and where it ends.
#[derive(Clone, Copy, Debug, PartialEq, Eq)]
pub struct Stepped {
    pub line: usize,
    pub next: ControlFlow<Desk, Desk>,
}

// ---- the three kinds

// The answer's code, or the number of a refusal without one.
fn answer_line(served: Result<Answered, Silent>) -> Line
    ensures { result ≡ answer_line (number_of served) (said_by served) (size_of served) (listed_by served) }
{
    match served {
        Err(refusal) => plain(b'R', u32::from(refusal)),
        Ok(answered) => match answered.verdict {
            Verdict::Base(code) => Line {
                letter: b'R',
                experimental: false,
                code: code.0,
                size: answered.length,
                listed: answered.listed,
            },
            Verdict::Experimental(code) => Line {
                letter: b'R',
                experimental: true,
                code: code.0,
                size: answered.length,
                listed: answered.listed,
            },
        },
    }
}

// "own host `hss.example`, realm `example`"; the answer and the list of nodes are made here and not kept.
fn request_line(table: &mut [u8], request: &[u8]) -> Line
    ensures { turn_of result table.new true ≡ request_turn table.old request.now }
{
    let mut answer = [0u8; LEAST_ANSWER];
    let mut cancel = [0u8; CANCEL_SIZE];
    let served = serve(
        table,
        request,
        b"hss.example",
        b"example",
        &mut answer,
        &mut cancel,
    );
    answer_line(served)
}

// The correction's number.
fn correction_line(table: &mut [u8], frame: &[u8]) -> Line
    ensures { turn_of result table.new true ≡ correction_turn table.old frame.now }
{
    let code = dymosaw_correct(table, frame);
    plain(b'C', code)
}

// A valid table takes the place of the one that is there.
fn table_turn(buffer: &mut [u8; TABLE_ROOM], used: usize, content: &[u8]) -> Turned
    requires { used ≤ table_room }
    ensures { Made (table_turn (take used buffer.old) content.now) buffer.old buffer.new result }
{
    if !valid_table(content) {
        return Turned {
            line: plain(b'T', 4),
            used: ControlFlow::Continue(used),
        };
    }
    put_bytes(buffer, 0, content);
    Turned {
        line: plain(b'T', 0),
        used: ControlFlow::Continue(content.len()),
    }
}

// ---- any frame

// A size that a frame may have.
#[tactic(auto, unfolding(paper::specs::Desk::size_right))]
fn size_right(n: usize) -> bool
    ensures { result ≡ size_right n }
{
    (DESK_HEAD..=MOST_FRAME).contains(&n)
}

// The frame is whole, of the right size and of version 1.
#[tactic(auto, unfolding(paper::specs::Desk::frame_right))]
fn frame_right(frame: &[u8]) -> bool
    ensures { result ≡ frame_right frame.now }
{
    if frame.len() < DESK_HEAD {
        return false;
    }
    let whole = get::<u32>(frame, 0) as usize;
    size_right(whole) && frame.len() == whole && frame[VERSION_AT] == DESK_VERSION
}

// The kind of a right frame.
fn frame_kind(frame: &[u8]) -> Option<Kind>
    ensures { Framed frame.now result }
{
    if !frame_right(frame) {
        return None;
    }
    match frame[KIND_AT] {
        1 => Some(Kind::Table),
        2 => Some(Kind::Request),
        3 => Some(Kind::Correction),
        _ => None,
    }
}

// A frame of no kind "prints `n X 0 0 0`, n its number, and ends the run".
fn take_turn(buffer: &mut [u8; TABLE_ROOM], used: usize, frame: &[u8]) -> Turned
    requires { used ≤ table_room }
    ensures { Made (turn (take used buffer.old) frame.now) buffer.old buffer.new result }
{
    let Some(kind) = frame_kind(frame) else {
        return Turned {
            line: plain(b'X', 0),
            used: ControlFlow::Break(used),
        };
    };
    let content = &frame[DESK_HEAD..];
    match kind {
        Kind::Table => table_turn(buffer, used, content),
        Kind::Request => {
            let line = request_line(&mut buffer[..used], content);
            Turned {
                line,
                used: ControlFlow::Continue(used),
            }
        }
        Kind::Correction => {
            let line = correction_line(&mut buffer[..used], content);
            Turned {
                line,
                used: ControlFlow::Continue(used),
            }
        }
    }
}

// ---- the calls

// The buffer at the start of a run: "at first the empty table".
pub fn first_table() -> [u8; TABLE_ROOM]
    ensures { result ≡ put 0 empty_table (replicate table_room 0) }
{
    let mut buffer = [0u8; TABLE_ROOM];
    put_bytes(&mut buffer, 0, b"\x00\x00\x00\x08\x01\x00\x00\x00");
    buffer
}

// Where a run stands at its start.
pub fn first() -> Desk
    ensures { (result.used ≡ length empty_table) × (result.number ≡ 1) }
{
    Desk {
        used: TABLE_HEADER,
        number: 1,
    }
}

// How many bytes of a frame stand behind its length field; 0 where that says no right size or was not read whole:
// that is this public call's clause.
pub fn rest_size(length: &[u8]) -> usize
    ensures value { result ≡ rest_size length.now }
    ensures fits { 4 + result ≤ most_frame }
{
    if length.len() < LENGTH_SIZE {
        return 0;
    }
    let whole = get::<u32>(length, 0) as usize;
    if size_right(whole) {
        whole - LENGTH_SIZE
    } else {
        0
    }
}

// A frame, as far as it was read, on the table in the buffer; its line goes to the start of `line`. All of the buffer is the table where the desk says more.
pub fn step(
    buffer: &mut [u8; TABLE_ROOM],
    desk: Desk,
    frame: &[u8],
    line: &mut [u8; LINE_ROOM],
) -> Stepped
    ensures told { Told (turn (table_in desk buffer.old) frame.now) desk buffer.old line.old buffer.new line.new result }
    ensures line_fits { result.line ≤ line_room }
{
    let turned = take_turn(buffer, desk.used.min(TABLE_ROOM), frame);
    let length = put_line(line, desk.number, turned.line);
    let number = std::num::wrapping_add_u64(desk.number, 1);
    let next = match turned.used {
        ControlFlow::Continue(used) => ControlFlow::Continue(Desk { used, number }),
        ControlFlow::Break(used) => ControlFlow::Break(Desk { used, number }),
    };
    Stepped { line: length, next }
}
