// The start of a stream as it is read: what is held of it, and the tables of its rows.
use crate::sheet::Sheet;
use block::ReadError;
use feed::{Answer, State};
use std::io;
use std::io::Read;

// The first `held` bytes of the lent store are those that were read.
#[derive(Drop)]
pub(crate) struct Start<'a> {
    store: &'a mut [u8],
    held: usize,
    symbology: &'a mut [u32],
    layout: &'a mut [u32],
}

impl<'a> Start<'a> {
    // Nothing is read yet. The tables have six numbers a row by column, and nine a row.
    pub(crate) fn new(
        store: &'a mut [u8],
        symbology: &'a mut [u32],
        layout: &'a mut [u32],
    ) -> Start<'a> {
        Start {
            store,
            held: 0,
            symbology,
            layout,
        }
    }

    // What was read.
    pub(crate) fn held(&self) -> &[u8] {
        command_line::front(self.store, self.held)
    }

    // The table of the symbology's rows.
    pub(crate) fn symbology(&self) -> &[u32] {
        self.symbology
    }

    // The table of the layout's rows.
    pub(crate) fn layout(&self) -> &[u32] {
        self.layout
    }

    // Reads a file until the answer is done or a refusal, or the file ends. Each turn but the last takes a byte at least, so there are no
    // more turns than the store has bytes.
    pub(crate) fn read(
        &mut self,
        input: &mut impl Read,
        sheet: &Sheet,
    ) -> io::Result<Result<Answer, ReadError>> {
        for _ in 0..self.store.len() {
            let mut piece = [0u8; 4096];
            let n = input.read(&mut piece)?;
            let answer = self.feed(&piece[..n], sheet);
            if n == 0 || !matches!(answer, Ok(Answer::Needs(_))) {
                return Ok(answer);
            }
        }
        Ok(Ok(Answer::Needs(0)))
    }

    // What the held bytes say after these.
    fn feed(&mut self, piece: &[u8], sheet: &Sheet) -> Result<Answer, ReadError> {
        let fed = feed::feed(
            State { held: self.held },
            self.store,
            piece,
            &sheet.numbers,
            self.symbology,
            self.layout,
        );
        let state = fed.state;
        self.held = state.held;
        fed.answer
    }
}
