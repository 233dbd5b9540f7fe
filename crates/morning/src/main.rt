// Reads a night's blocks from standard input, preludes with their blocks end on end, in pieces of 4,096 bytes, and writes what came of them:
// how many were accepted, refused by each number, and cut. The store is 65,536 bytes and each table holds 1,024 rows. `tell::help` says how
// it is called.
#![tactic(auto)]

mod tell;

use command_line::Asked;
use night::State;
use std::env::Env;
use std::io;
use std::io::{Read, Write};
use std::rt::Files;

// The most pieces that are read, 2^64 - 1: more than any input has.
const MOST_PIECES: u64 = 18446744073709551615;

fn main(rt: HostRuntime) {
    let asked = command_line::read(&rt);
    let status = run(&rt, &mut io::writer(&rt), &mut rt.stderr(), asked);
    command_line::end(&rt, asked, status);
}

// Does what is asked, and answers the status.
fn run<R: Env + Files + Input>(
    rt: &R,
    out: &mut impl Write,
    err: &mut impl Write,
    asked: Asked,
) -> u64 {
    if let Some(wrong) = asked.wrong {
        tell::wrong_argument(rt, err, wrong);
        return 2;
    }
    if asked.help {
        return tell::ended(err, tell::help(out));
    }
    let mut sheet = type_sheet::made();
    if command_line::load_sheet(rt, err, &tell::NAME, asked, &mut sheet) {
        return count_night(&mut rt.reader(), out, err, &sheet);
    }
    2
}

// Counts the night and writes the report; answers the status.
fn count_night(
    input: &mut impl Read,
    out: &mut impl Write,
    err: &mut impl Write,
    sheet: &[u16; 520],
) -> u64 {
    let mut counts = [0u64; 260];
    match read_all(input, sheet, &mut counts) {
        Ok(held) => {
            count::count_end(&mut counts, held);
            report(out, err, &counts)
        }
        Err(why) => {
            tell::unread(err, why);
            1
        }
    }
}

// Writes the report; answers the status.
fn report(out: &mut impl Write, err: &mut impl Write, counts: &[u64; 260]) -> u64 {
    let mut text = [0u8; 16384];
    let n = report::write_report(counts, &mut text);
    tell::ended(err, out.write_all(command_line::front(&text, n)))
}

// Reads the night, with a store and tables of its own, and answers how many bytes are held at its end.
fn read_all(
    input: &mut impl Read,
    sheet: &[u16; 520],
    counts: &mut [u64; 260],
) -> io::Result<usize> {
    let mut store = [0u8; 65536];
    let mut symbology = [0u32; 6144];
    let mut layout = [0u32; 9216];
    read_night(
        input,
        &mut store,
        sheet,
        &mut symbology,
        &mut layout,
        counts,
    )
}

// Reads pieces until the input ends, a read fails or the night is over.
fn read_night(
    input: &mut impl Read,
    store: &mut [u8],
    sheet: &[u16; 520],
    symbology: &mut [u32],
    layout: &mut [u32],
    counts: &mut [u64; 260],
) -> io::Result<usize> {
    let mut state = State {
        held: 0,
        ended: false,
    };
    let mut piece = [0u8; 4096];
    for _ in 0..MOST_PIECES {
        let n = input.read(&mut piece)?;
        if n == 0 {
            break;
        }
        state = night::read_piece(state, store, &piece[..n], sheet, symbology, layout, counts);
        if state.ended {
            break;
        }
    }
    Ok(state.held)
}
