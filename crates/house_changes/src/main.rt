// The start of a stream on standard input is stored in a house file and loaded again. Then each byte of the file is set to each of the 255
// other values in turn, and the files that are refused are counted. The type sheet is all zeros, which no block without a layout looks at.
#![tactic(auto)]

ghost use Rattle.std.specs.Prelude.{◌<◌, length};

use feed::Answer;
use std::io;
use std::io::Write;

fn main(rt: HostRuntime) -> io::Result<()> {
    let mut input = [0u8; 4096];
    let n = reading::read_full(&mut rt.reader(), &mut input)?;
    let mut file = [0u8; 4096];
    keep(&mut io::writer(&rt), &input[..n], &mut file)
}

// Stores the bytes in a house file, and goes on with that; or says what refuses them.
fn keep(out: &mut impl Write, all: &[u8], output: &mut [u8]) -> io::Result<()> {
    match house::store_start(all, &[0; 520], output) {
        Ok(len) => {
            if len <= output.len() {
                show_stored(out, all, &mut output[..len])?;
            }
            Ok(())
        }
        Err(e) => {
            text(out, b"refused by ")?;
            number(out, e.number as u64)?;
            text(out, b"\n")
        }
    }
}

// Says what was stored, what came back, and what one changed byte does.
fn show_stored(out: &mut impl Write, all: &[u8], file: &mut [u8]) -> io::Result<()> {
    let mut store = [0u8; 4096];
    number(out, all.len() as u64)?;
    text(out, b" bytes are stored in ")?;
    number(out, (file.len() / 512) as u64)?;
    text(out, b" blocks, ")?;
    number(out, file.len() as u64)?;
    text(out, b" bytes\n")?;
    let rows = load(file, &mut store);
    if store.starts_with(all) {
        text(out, b"the same bytes come back, with ")?;
        number(out, rows as u64)?;
        text(out, b" rows\n")?;
    }
    let refused = every_change(file, &mut store);
    number(out, refused)?;
    text(
        out,
        b" files with one changed byte are refused by 131: 255 for each of ",
    )?;
    number(out, file.len() as u64)?;
    text(out, b" bytes\n")
}

// Loads the file; answers the rows of its symbology, or 0 where it is refused.
fn load(file: &[u8], store: &mut [u8]) -> usize {
    let mut rows = [0u32; 384];
    let mut none = [0u32; 0];
    match house::load_start(file, store, &[0; 520], &mut rows, &mut none) {
        Ok(held) => match held.answer {
            Ok(Answer::Done(f)) => f.symbology_rows,
            _ => 0,
        },
        Err(_) => 0,
    }
}

// How many of the files are refused by 131 that differ from this one in one byte.
fn every_change(file: &mut [u8], store: &mut [u8]) -> u64 {
    let mut refused = 0u64;
    for at in 0..file.len() {
        refused = refused.wrapping_add(changes_at(file, at, store));
    }
    refused
}

// The same for the byte at one place, which is then as it was.
fn changes_at(file: &mut [u8], at: usize, store: &mut [u8]) -> u64
    requires { at < length file.old }
{
    let kept = file[at];
    let mut refused = 0u64;
    for by in 1..=255u8 {
        file[at] = kept.wrapping_add(by);
        if is_refused(file, store) {
            refused = refused.wrapping_add(1);
        }
    }
    file[at] = kept;
    refused
}

// Whether the file is refused by 131.
fn is_refused(file: &[u8], store: &mut [u8]) -> bool {
    let mut none = [0u32; 0];
    let mut nothing = [0u32; 0];
    match house::load_start(file, store, &[0; 520], &mut none, &mut nothing) {
        Ok(_) => false,
        Err(e) => e.number == refusal::HOUSE_CHECK,
    }
}

fn text(out: &mut impl Write, s: &[u8]) -> io::Result<()> {
    out.write_all(s)
}

fn number(out: &mut impl Write, n: u64) -> io::Result<()> {
    write!(out, "{n}")
}
