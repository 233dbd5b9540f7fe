// A reader that keeps its section and its place together. Each step takes the reader apart, calls the reader of a slice at its
// place, and moves the place past what was read. The function at the end takes a slice and a place, so that who calls it does
// not hold a reader.
#![tactic(auto)]

ghost use Rattle.std.specs.Prelude.{◌≡◌, ◌+◌};
ghost use Rattle.numbers.specs.Numbers.{take_at, num_at};
ghost use Rattle.wire.specs.Reader.{all_tests, name_at};
ghost use Rattle.byte_reader.specs.Reader.{after, Stepped, LabelAfter, LabelIs};

use refusal::Refusal;

// A section, and the place in it where the next read begins.
#[derive(Drop)]
pub struct ByteReader<'a> {
    pub buf: &'a [u8],
    pub pos: usize,
}

impl<'a> ByteReader<'a> {
    // A reader at the start of the section.
    pub fn new(buf: &'a [u8]) -> Self
        ensures { (result.buf ≡ buf.entry) × (result.pos ≡ 0) }
    {
        Self { buf, pos: 0 }
    }

    // Passes over n bytes. Where the section ends first it answers `why`, and the place stays.
    pub fn take(&mut self, n: usize, why: u32) -> Result<(usize, usize), Refusal>
        ensures { Stepped (n + 1) n (take_at why n) self.old self.new result }
    {
        let got = numbers::take(self.buf, self.pos, n, why);
        self.pos = place_after(got, self.pos);
        got
    }

    // The next u16. Where the section ends first it answers `why`, and the place stays.
    pub fn u16(&mut self, why: u32) -> Result<(usize, usize), Refusal>
        ensures { Stepped 65536 2 (num_at why 2) self.old self.new result }
    {
        let got = numbers::u16_at(self.buf, self.pos, why);
        self.pos = place_after(got, self.pos);
        got
    }

    // The length of the next name's text, which starts one byte after the place. On a refusal the place stays.
    pub fn name(&mut self) -> Result<(usize, usize), Refusal>
        ensures { Stepped 256 2 (name_at all_tests) self.old self.new result }
    {
        let got = wire::name_at(self.buf, self.pos);
        self.pos = place_after(got, self.pos);
        got
    }
}

// A label: its code, and the length of its name's text.
#[derive(Clone, Copy)]
pub struct Label {
    pub code: Result<(usize, usize), Refusal>,
    pub name: Result<(usize, usize), Refusal>,
}

// The label at `at`: its name stands after its code. Where the code is refused no name is looked for, and that refusal is the name's too.
pub fn label_in(s: &[u8], at: usize) -> Label
    ensures { LabelIs s.now at result }
{
    let mut reader = ByteReader { buf: s, pos: at };
    let code = reader.u16(refusal::LAYOUT_TRUNCATED);
    label_after(s, code)
}

// The label of a code: its name, where the code was read.
fn label_after(s: &[u8], code: Result<(usize, usize), Refusal>) -> Label
    ensures { LabelAfter s.now code result }
{
    match code {
        Ok((_, next)) => {
            let name = wire::name_at(s, next);
            Label { code, name }
        }
        Err(why) => {
            let name = Err(why);
            Label { code, name }
        }
    }
}

// Where a reader that stood at `pos` stands after this answer.
fn place_after(got: Result<(usize, usize), Refusal>, pos: usize) -> usize
    ensures { result ≡ after got pos }
{
    match got {
        Ok((_, next)) => next,
        Err(_) => pos,
    }
}
