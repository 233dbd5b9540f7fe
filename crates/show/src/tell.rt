// What is told besides the report: the help, and on standard error what cannot be done.
ghost use Rattle.std.specs.Prelude.{◌≡◌, MatchResult};
ghost use Rattle.show.specs.Statuses.{number};

use crate::options;
use crate::options::{Options, OwnFault, Stream};
use command_line::{BadArgument, Fault};
use std::env::Env;
use std::io;
use std::io::Write;

// What the program is called.
pub(crate) const NAME: [u8; 4] = *b"show";

// What the program ends with.
#[derive(Clone, Copy)]
pub(crate) enum Status {
    Accepted,
    Refused,
    Unusable,
}

impl Status {
    pub(crate) fn number(self) -> u64
        ensures { result ≡ number self }
    {
        match self {
            Status::Accepted => 0,
            Status::Refused => 1,
            Status::Unusable => 2,
        }
    }
}

// Why nothing can be shown. Where it is the type sheet, that has been told.
#[derive(Clone, Copy)]
pub(crate) enum Trouble {
    Argument(BadArgument),
    Sheet,
    Input(io::Error),
    LongLayout,
}

// How the program is called.
pub(crate) fn help(out: &mut impl Write) -> io::Result<()> {
    out.write_all(
        b"\
show [--sheet FILE] [FILE]
show [--sheet FILE] [--width N] --tidy [FILE]

Shows the start of a DBN stream: the file FILE, or standard input where it is - or left out. With --tidy FILE is a
layout by itself, of up to 1,048,576 bytes: show says whether it is the bytes that the writer gives for its rows, else
what the reader refuses or the first untidy thing.

  --tidy         FILE is a layout: say whether it is tidy
  --width N      judge that layout for symbols of N bytes, 0 to 65535. Without it the width is 71
  --sheet FILE   judge a layout, or that of a version 4 stream, by this type sheet, 1,040 bytes: 520 little-endian
                 numbers of 16 bits, as include/dbn_start.h has them. Without it a made sheet is used
  --status       write the status to file descriptor 3, as one digit
  --help         write this

Status: 0 accepted or tidy, 1 refused, untidy or cut short, 2 a file or an option that cannot be used. scripts/show ends
with it; the program itself ends with 0. In texts of the stream a backslash is written \\\\ and any byte that is no printable
ASCII \\xNN. A refusal from reading, and what is untidy, also tells its place, counted from the prelude, from the
block after it or from the layout, and the bytes around it in hexadecimal: that byte is in brackets, which are empty where
the bytes end there.
",
    )
}

// The status that goes with what was written to standard output; where that failed it is 2, and why is said.
pub(crate) fn ended(err: &mut impl Write, written: io::Result<Status>) -> u64
    ensures { MatchResult written (λ status. result ≡ number status) (λ why. result ≡ 2) }
{
    command_line::ended(err, &NAME, written.map(|status| status.number()))
}

// Says on standard error why nothing can be shown. What standard error does not take is lost.
pub(crate) fn tell(rt: &impl Env, err: &mut impl Write, asked: Options, trouble: Trouble) {
    let mut space = [0u8; 4096];
    let _ = match trouble {
        Trouble::Argument(wrong) => wrong_argument(rt, err, wrong),
        Trouble::Sheet => Ok(()),
        Trouble::Input(why) => {
            command_line::failed(err, &NAME, input_name(rt, asked, &mut space), why)
        }
        Trouble::LongLayout => command_line::say_wrong(
            err,
            &NAME,
            input_name(rt, asked, &mut space),
            b": more than 1,048,576 bytes, show takes no longer layout",
        ),
    };
}

// What the stream or layout is called.
fn input_name<'a>(rt: &impl Env, asked: Options, space: &'a mut [u8; 4096]) -> &'a [u8] {
    match asked.stream {
        Some(Stream::File(i)) => options::argument(rt, i, space),
        _ => b"standard input",
    }
}

fn wrong_argument(rt: &impl Env, err: &mut impl Write, wrong: BadArgument) -> io::Result<()> {
    let text = match wrong.fault {
        Fault::Unknown => ": no such option, show --help says which there are",
        Fault::NoSheet => "--sheet: the file's name is missing",
        Fault::Own(number) => own_text(number),
    };
    command_line::say_wrong_argument(rt, err, &NAME, wrong.at, text.as_bytes())
}

// What is said of a fault of this program's own.
fn own_text(number: u64) -> &'static str {
    match OwnFault::of(number) {
        Some(OwnFault::SecondStream) => ": a second stream, show takes one",
        Some(OwnFault::WidthMissing) => "--width: the number is missing",
        Some(OwnFault::NoWidth) => ": no symbol width, which is a number from 0 to 65535",
        Some(OwnFault::IdleWidth) => ": only --tidy takes a symbol width",
        None => "",
    }
}
