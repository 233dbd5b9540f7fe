// What the programs for people have in common: three options, the type sheet that one of them names, what is said on standard error, and
// the status.
#![tactic(auto)]

pub mod escape;

ghost use Rattle.std.specs.Prelude.{◌≡◌, ◌≢◌, ◌≤◌, ◌⊎◌, length, take, true, false, None, Some, MatchResult};
ghost use Rattle.std.specs.Option.{unwrap_or};
ghost use Rattle.command_line.specs.declared.Fault.TheVariants as Fault';

use std::env::{Env, FillError};
use std::fs::OpenOptions;
use std::io;
use std::io::{Cursor, Write};
use std::rt::Files;
use type_sheet::LoadError;

// Where the status goes, if it is asked for: file descriptor 3.
const STATUS_FILE: &str = "/dev/fd/3";

// What can be wrong with an argument: no such option, a name that is missing after --sheet, or a fault of the program's own.
#[derive(Clone, Copy)]
pub enum Fault {
    Unknown,
    NoSheet,
    Own(u64),
}

// A fault, and the argument that it is about.
#[derive(Clone, Copy)]
pub struct BadArgument {
    pub fault: Fault,
    pub at: usize,
}

// What the arguments ask for: the help, the status, and which argument names the sheet. `wrong` is what is wrong with them.
#[derive(Clone, Copy)]
pub struct Asked {
    pub help: bool,
    pub status: bool,
    pub sheet: Option<usize>,
    pub wrong: Option<BadArgument>,
}

// What no arguments ask for.
pub fn nothing() -> Asked
    ensures { result ≡ record { help = false; status = false; sheet = None; wrong = None } }
{
    Asked {
        help: false,
        status: false,
        sheet: None,
        wrong: None,
    }
}

// What all arguments of a program ask for that has no options of its own. Of several faults the last is kept.
pub fn read(rt: &impl Env) -> Asked {
    let n = argument_count(rt);
    let mut asked = nothing();
    for i in 1..n {
        asked = taken(rt, asked, i, i + 1);
    }
    complete(asked, n)
}

// How many words there are, the program's own name among them.
pub fn argument_count(rt: &impl Env) -> usize {
    for i in 0..usize::MAX {
        if let Err(FillError::NotPresent) = rt.arg(i, &mut []) {
            return i;
        }
    }
    usize::MAX
}

// Puts argument i at the front of the buffer and answers its length, 0 where it is missing or longer than the buffer.
pub fn argument(rt: &impl Env, i: usize, buf: &mut [u8]) -> usize
    ensures { result ≤ length buf.new }
{
    match rt.arg(i, buf) {
        Ok(n) => n,
        Err(_) => 0,
    }
}

// What is asked for with a fault of argument i.
pub fn wrong(asked: Asked, fault: Fault, i: usize) -> Asked
    ensures { result ≡ record asked { wrong = Some (record { fault = fault; at = i }) } }
{
    let mut asked = asked;
    asked.wrong = Some(BadArgument { fault, at: i });
    asked
}

// What is asked for with argument i, before the argument `next`. The word after --sheet is the name of a sheet, whatever it is, and argument 0
// the program's own where no sheet is asked for. A word that is none of the three options is a fault.
pub fn taken(rt: &impl Env, asked: Asked, i: usize, next: usize) -> Asked
    ensures name { unwrap_or asked.sheet 0 ≡ i → result ≡ asked }
    ensures word { unwrap_or asked.sheet 0 ≢ i → (result ≡ record asked { help = true }) ⊎ ((result ≡ record asked { status = true }) ⊎ ((result ≡ record asked { sheet = Some next }) ⊎ (result ≡ record asked { wrong = Some (record { fault = Fault'.Unknown; at = i }) }))) }
{
    let mut asked = asked;
    if asked.sheet.unwrap_or(0) == i {
        return asked;
    }
    if is_word(rt, i, b"--help") {
        asked.help = true;
    } else if is_word(rt, i, b"--status") {
        asked.status = true;
    } else if is_word(rt, i, b"--sheet") {
        asked.sheet = Some(next);
    } else {
        return wrong(asked, Fault::Unknown, i);
    }
    asked
}

// What all n words ask for, the program's own name among them: no name is missing after the last. One is where there is no word at all.
pub fn complete(asked: Asked, n: usize) -> Asked
    ensures missing { unwrap_or asked.sheet 0 ≡ n → result ≡ record asked { wrong = Some (record { fault = Fault'.NoSheet; at = n }) } }
    ensures whole { unwrap_or asked.sheet 0 ≢ n → result ≡ asked }
{
    if asked.sheet.unwrap_or(0) == n {
        return wrong(asked, Fault::NoSheet, n);
    }
    asked
}

// Whether argument i is this word.
fn is_word(rt: &impl Env, i: usize, word: &[u8]) -> bool {
    let mut space = [0u8; 4096];
    let n = argument(rt, i, &mut space);
    &space[..n] == word
}

// Reads the sheet that is asked for; where none is, it stays as it was. Where it cannot be read, the program says why, and the answer is
// false.
pub fn load_sheet<R: Env + Files>(
    rt: &R,
    err: &mut impl Write,
    program: &[u8],
    asked: Asked,
    sheet: &mut [u16; 520],
) -> bool
    ensures none { asked.sheet ≡ None → (result ≡ true) × (sheet.new ≡ sheet.old) }
    ensures unread { result ≡ false → sheet.new ≡ sheet.old }
{
    let Some(i) = asked.sheet else {
        return true;
    };
    let mut path = [0u8; 4096];
    let n = argument(rt, i, &mut path);
    let said = match type_sheet::load(rt, &path[..n], sheet) {
        Ok(()) => return true,
        Err(LoadError::Unopened(why)) => failed(err, program, &path[..n], why),
        Err(LoadError::Unfit) => unfit(err, program, &path[..n]),
    };
    // What standard error does not take is lost.
    let _ = said;
    false
}

// Says that a file is no type sheet.
fn unfit(err: &mut impl Write, program: &[u8], name: &[u8]) -> io::Result<()> {
    named(err, program, name)?;
    err.write_all(b": no type sheet of 1,040 bytes could be read from it\n")
}

// Says on standard error why a call on the named thing failed.
pub fn failed(err: &mut impl Write, program: &[u8], name: &[u8], why: io::Error) -> io::Result<()> {
    let mut text = Cursor::new([0u8; 512]);
    write!(text, "{why}")?;
    let n = text.position() as usize;
    named(err, program, name)?;
    err.write_all(b": ")?;
    err.write_all(reason(front(text.get_ref(), n), why))?;
    err.write_all(b"\n")
}

// The reason in the text of an error. Where the reason is the system's, a space and its number in brackets follow it there.
fn reason(text: &[u8], why: io::Error) -> &[u8] {
    if why.raw_os_error().is_none() {
        return text;
    }
    match text.iter().rposition(|x| *x == b'(') {
        Some(at) if 0 < at => &text[..at - 1],
        _ => text,
    }
}

// Says on standard error what is wrong with the named thing.
pub fn say_wrong(err: &mut impl Write, program: &[u8], name: &[u8], text: &[u8]) -> io::Result<()> {
    named(err, program, name)?;
    err.write_all(text)?;
    err.write_all(b"\n")
}

// The same of argument i.
pub fn say_wrong_argument(
    rt: &impl Env,
    err: &mut impl Write,
    program: &[u8],
    i: usize,
    text: &[u8],
) -> io::Result<()> {
    let mut word = [0u8; 4096];
    let n = argument(rt, i, &mut word);
    say_wrong(err, program, &word[..n], text)
}

// The program's name, and that of what it says something about.
fn named(err: &mut impl Write, program: &[u8], name: &[u8]) -> io::Result<()> {
    err.write_all(program)?;
    err.write_all(b": ")?;
    escape::escaped(err, name)
}

// The status that goes with what was written to standard output; where that failed it is 2, and why is said.
pub fn ended(err: &mut impl Write, program: &[u8], written: io::Result<u64>) -> u64
    ensures { MatchResult written (λ status. result ≡ status) (λ why. result ≡ 2) }
{
    match written {
        Ok(status) => status,
        Err(why) => {
            // What standard error does not take is lost.
            let _ = failed(err, program, b"standard output", why);
            2
        }
    }
}

// Writes the status, if it is asked for. Where it cannot be written, nothing is said.
pub fn end(rt: &impl Files, asked: Asked, status: u64) {
    if asked.status {
        let _ = write_status(rt, status);
    }
}

fn write_status(rt: &impl Files, status: u64) -> io::Result<()> {
    let mut file = OpenOptions::new().append(true).open(rt, STATUS_FILE)?;
    write!(file, "{status}")
}

// The first n bytes; all where there are fewer.
pub fn front(s: &[u8], n: usize) -> &[u8]
    ensures { result.now ≡ take n s.now }
{
    if s.len() < n {
        return s;
    }
    &s[0..n]
}
