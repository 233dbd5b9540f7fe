// What is told besides the report: the help, and on standard error what cannot be done.
use command_line::{BadArgument, Fault};
use std::env::Env;
use std::io;
use std::io::Write;

// What the program is called.
pub(crate) const NAME: [u8; 7] = *b"morning";

// How the program is called.
pub(crate) fn help(out: &mut impl Write) -> io::Result<()> {
    out.write_all(
        b"\
morning [--sheet FILE]

Counts a night's blocks: DBN preludes with their blocks, end on end, on standard input. Writes how many were accepted,
how many were refused by each number, how many were cut, the symbology rows of the accepted ones, and the total. The
reading ends with the input, at a prelude that is refused, since the next start is then unknown, and after 2 and 3: the
store has 65,536 bytes, and each table 1,024 rows.

  --sheet FILE   judge the layouts of version 4 blocks by this type sheet, 1,040 bytes: 520 little-endian numbers of
                 16 bits, as include/dbn_start.h has them. Without it a made sheet is used
  --status       write the status to file descriptor 3, as one digit
  --help         write this

Status: 0 whatever was counted, 1 a read that fails, after which no report is written, 2 a file or an option that cannot
be used, or a report that cannot be written. scripts/morning ends with it; the program itself ends with 0.
",
    )
}

// The status, which is 0 where all was written; else it is 2, and why is said.
pub(crate) fn ended(err: &mut impl Write, written: io::Result<()>) -> u64 {
    command_line::ended(err, &NAME, written.map(|()| 0))
}

// Says on standard error why standard input cannot be read. What standard error does not take is lost, here and below.
pub(crate) fn unread(err: &mut impl Write, why: io::Error) {
    let _ = command_line::failed(err, &NAME, b"standard input", why);
}

// Says on standard error what is wrong with an argument.
pub(crate) fn wrong_argument(rt: &impl Env, err: &mut impl Write, wrong: BadArgument) {
    let text = match wrong.fault {
        Fault::Unknown => ": no such option, morning --help says which there are",
        Fault::NoSheet => "--sheet: the file's name is missing",
        // This program has no fault of its own.
        Fault::Own(_) => "",
    };
    let _ = command_line::say_wrong_argument(rt, err, &NAME, wrong.at, text.as_bytes());
}
