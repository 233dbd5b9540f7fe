// What the arguments ask for.
ghost use Rattle.std.specs.Prelude.{◌≡◌, Some};
ghost use Rattle.std.specs.Option.{unwrap_or};
ghost use Rattle.command_line.specs.declared.Fault.TheVariants as Fault';
ghost use Rattle.show.specs.Faults.{own};

use crate::width;
use command_line::{Asked, Fault};
use std::env::Env;

// What can be wrong with an argument, besides the faults of `command_line`.
#[derive(Clone, Copy)]
pub(crate) enum OwnFault {
    SecondStream,
    WidthMissing,
    NoWidth,
    IdleWidth,
}

impl OwnFault {
    // The fault as `command_line` has it, by a number of this program's own.
    fn fault(self) -> Fault
        ensures { result ≡ own self }
    {
        Fault::Own(match self {
            OwnFault::SecondStream => 1,
            OwnFault::WidthMissing => 2,
            OwnFault::NoWidth => 3,
            OwnFault::IdleWidth => 4,
        })
    }

    // The fault of such a number.
    pub(crate) fn of(number: u64) -> Option<OwnFault> {
        match number {
            1 => Some(OwnFault::SecondStream),
            2 => Some(OwnFault::WidthMissing),
            3 => Some(OwnFault::NoWidth),
            4 => Some(OwnFault::IdleWidth),
            _ => None,
        }
    }
}

// Where the stream or layout comes from: an argument is the file's name.
#[derive(Clone, Copy)]
pub(crate) enum Stream {
    StandardInput,
    File(usize),
}

// Beside what other programs take, whether a layout is to be tidy, the symbol width for it, and the stream. `width_at` is the argument that
// says the width. Of several faults the last is kept.
#[derive(Clone, Copy)]
pub(crate) struct Options {
    pub(crate) common: Asked,
    pub(crate) tidy: bool,
    pub(crate) width: Option<u16>,
    width_at: Option<usize>,
    pub(crate) stream: Option<Stream>,
}

// Reads all arguments.
pub(crate) fn read(rt: &impl Env) -> Options {
    let n = command_line::argument_count(rt);
    let mut options = Options {
        common: command_line::nothing(),
        tidy: false,
        width: None,
        width_at: None,
        stream: None,
    };
    for i in 1..n {
        options.take(rt, i, i + 1);
    }
    options.complete(n);
    options
}

// Argument i as a part of the space; empty where it is missing or longer than that.
pub(crate) fn argument<'a>(rt: &impl Env, i: usize, space: &'a mut [u8; 4096]) -> &'a [u8] {
    let n = command_line::argument(rt, i, space);
    &space[..n]
}

impl Options {
    // Takes argument i. The word after --sheet is the name of a sheet and that after --width a width, whatever it is.
    fn take(&mut self, rt: &impl Env, i: usize, next: usize) {
        let common = self.common;
        if common.sheet == Some(i) {
            return;
        }
        let mut space = [0u8; 4096];
        let word = argument(rt, i, &mut space);
        if self.width_at == Some(i) {
            return self.take_width(i, word);
        }
        match Word::of(word) {
            Word::Tidy => self.tidy = true,
            Word::Width => self.width_at = Some(next),
            Word::Dash => self.take_stream(i, Stream::StandardInput),
            Word::Name => self.take_stream(i, Stream::File(i)),
            Word::Other => self.common = command_line::taken(rt, common, i, next),
        }
    }

    fn take_width(&mut self, i: usize, word: &[u8]) {
        match width::of(word) {
            Some(width) => self.width = Some(width),
            None => self.fail(OwnFault::NoWidth, i),
        }
    }

    fn take_stream(&mut self, i: usize, stream: Stream) {
        match self.stream {
            None => self.stream = Some(stream),
            Some(_) => self.fail(OwnFault::SecondStream, i),
        }
    }

    // All n words are taken, the program's own among them: nothing is missing after the last, and a width is given to --tidy alone.
    fn complete(&mut self, n: usize)
        ensures { unwrap_or self.old.common.sheet 0 ≡ n → self.new.common.wrong ≡ Some (record { fault = Fault'.NoSheet; at = n }) }
    {
        if let Some(at) = self.width_at {
            if at == n {
                self.fail(OwnFault::WidthMissing, n);
            } else if !self.tidy {
                self.fail(OwnFault::IdleWidth, at.saturating_sub(1));
            }
        }
        let common = self.common;
        self.common = command_line::complete(common, n);
    }

    // A fault of argument i.
    fn fail(&mut self, fault: OwnFault, i: usize)
        ensures { self.new.common ≡ record self.old.common { wrong = Some (record { fault = own fault; at = i }) } }
    {
        let common = self.common;
        self.common = command_line::wrong(common, fault.fault(), i);
    }
}

// What an argument is. One that is longer than a path may be is taken for a name.
#[derive(Clone, Copy)]
enum Word {
    Name,
    Dash,
    Tidy,
    Width,
    Other,
}

impl Word {
    fn of(word: &[u8]) -> Word {
        match word {
            b"-" => Word::Dash,
            b"--tidy" => Word::Tidy,
            b"--width" => Word::Width,
            [b'-', ..] => Word::Other,
            _ => Word::Name,
        }
    }
}
