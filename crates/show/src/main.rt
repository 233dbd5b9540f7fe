// Reads a stream start from a file or from standard input, in pieces of 4,096 bytes, and writes what it says as a person would want to
// read it; or reads a whole layout, and writes whether it is tidy. The store is 1,048,576 bytes and each table holds 16,384 rows; what is
// larger is told. `tell::help` says how it is called.
#![tactic(auto)]

mod codes;
mod header;
mod options;
mod place;
mod records;
mod refusals;
mod sheet;
mod start;
mod store;
mod symbols;
mod tell;
mod tidiness;
mod values;
mod width;

use block::{Fields, ReadError};
use feed::Answer;
use options::{Options, Stream};
use refusal::Refusal;
use sheet::{Origin, Sheet};
use start::Start;
use std::env::Env;
use std::io;
use std::io::Write;
use std::rt::Files;
use tell::{Status, Trouble};

fn main(rt: HostRuntime) {
    let asked = options::read(&rt);
    let status = match run(&rt, &mut io::writer(&rt), &mut rt.stderr(), asked) {
        Ok(written) => tell::ended(&mut rt.stderr(), written),
        Err(trouble) => {
            tell::tell(&rt, &mut rt.stderr(), asked, trouble);
            Status::Unusable.number()
        }
    };
    command_line::end(&rt, asked.common, status);
}

// Does what is asked. What goes to standard output can fail by itself.
fn run<R: Env + Files + Input>(
    rt: &R,
    out: &mut impl Write,
    err: &mut impl Write,
    asked: Options,
) -> Result<io::Result<Status>, Trouble> {
    let common = asked.common;
    if let Some(wrong) = common.wrong {
        return Err(Trouble::Argument(wrong));
    }
    if common.help {
        return Ok(tell::help(out).map(|()| Status::Accepted));
    }
    let sheet = sheet::load(rt, err, common).ok_or(Trouble::Sheet)?;
    let mut space = [0u8; 4096];
    let file = match asked.stream {
        Some(Stream::File(i)) => {
            let path = options::argument(rt, i, &mut space);
            Some(reading::open(rt, path).map_err(Trouble::Input)?)
        }
        _ => None,
    };
    if asked.tidy {
        return show_layout(rt, file, out, asked, &sheet);
    }
    show_stream(rt, file, out, &sheet)
}

// Shows whether the layout of a file, or of standard input where there is none, is tidy. The store is in this function's frame, one for both.
fn show_layout<R: Files + Input>(
    rt: &R,
    file: Option<R::File>,
    out: &mut impl Write,
    asked: Options,
    sheet: &Sheet,
) -> Result<io::Result<Status>, Trouble> {
    let mut store = store::space();
    let n = match file {
        Some(mut file) => tidiness::read_all(&mut file, &mut store),
        None => tidiness::read_all(&mut rt.reader(), &mut store),
    };
    let n = n.map_err(Trouble::Input)?.ok_or(Trouble::LongLayout)?;
    Ok(tidiness::report(out, command_line::front(&store, n), asked, sheet))
}

// Shows the stream of a file, or of standard input where there is none. The store and the tables are in this function's frame, one for both:
// show needs no heap.
fn show_stream<R: Files + Input>(
    rt: &R,
    file: Option<R::File>,
    out: &mut impl Write,
    sheet: &Sheet,
) -> Result<io::Result<Status>, Trouble> {
    let mut store = store::space();
    let mut symbology = store::symbology_table();
    let mut layout = store::layout_table();
    let mut start = Start::new(&mut store, &mut symbology, &mut layout);
    let answer = match file {
        Some(mut file) => start.read(&mut file, sheet),
        None => start.read(&mut rt.reader(), sheet),
    };
    let answer = answer.map_err(Trouble::Input)?;
    Ok(report(out, &start, answer, sheet.origin))
}

// Writes what the answer on the held bytes says.
fn report(
    out: &mut impl Write,
    start: &Start,
    answer: Result<Answer, ReadError>,
    origin: Origin,
) -> io::Result<Status> {
    match answer {
        Ok(Answer::Done(fields)) => {
            accepted(out, start, fields, origin)?;
            out.write_all(b"accepted\n")?;
            return Ok(Status::Accepted);
        }
        Ok(Answer::Needs(n)) => writeln!(out, "The input ends here. Bytes still needed: {n}")?,
        Err(ReadError::Refused(why)) => refusals::show(out, why, start.held(), origin)?,
        Err(ReadError::Short { symbology, layout }) => {
            refusals::show(out, TABLE_SHORT, start.held(), origin)?;
            writeln!(out, "symbology rows needed: {symbology}")?;
            writeln!(out, "layout rows needed: {layout}")?;
        }
    }
    Ok(Status::Refused)
}

// What is refused where a table is too short.
const TABLE_SHORT: Refusal = Refusal {
    number: refusal::TABLE_SHORT,
    place: 0,
};

// The fields of an accepted block, which stands in the held bytes after the prelude, and its rows.
fn accepted(out: &mut impl Write, start: &Start, fields: Fields, origin: Origin) -> io::Result<()> {
    if let Some((prelude, block)) = start.held().split_first_chunk::<8>() {
        header::show(out, fields, prelude[3], block, origin)?;
        symbols::show(out, block, start.symbology(), fields.symbology_rows)?;
        records::show(out, block, start.layout(), fields.layout_rows)?;
    }
    Ok(())
}
