// Rows by their texts.
ghost use Rattle.std.specs.Prelude.{◌≡◌, true, ◌+◌, ◌≤◌, ◌<◌, length};
ghost use Rattle.columns_check.specs.Tree.{start_of, len_of};
ghost use Rattle.columns_check.specs.Check.{every, row_fits, narrow};
ghost use Rattle.codec.specs.Telling.{passed};
ghost use Rattle.columns_check.specs.RowFaults.{text_fault, row_fault, rows_fault};
ghost use Rattle.codec.specs.Codec.{refusal};

use padded::Fault;
use refusal::Refusal;

// Whether no text of the first n rows is longer than the width.
pub(crate) fn are_narrow(table: &[u32], n: usize, width: usize) -> bool
    ensures { result ≡ narrow width table.now n }
{
    for r in 0..n {
        if width < table::number_at(table, r, 2) as usize {
            return false;
        }
    }
    true
}

// The refusal of the first of the first n rows whose text would be refused.
pub(crate) fn first_fault(table: &[u32], text: &[u8], n: usize, width: usize) -> Result<(), Refusal>
    requires { every (row_fits table.now text.now) 0 n ≡ true }
    ensures { result ≡ passed (rows_fault width table.now text.now 0 n) }
{
    for r in 0..n {
        row_fault(table, text, r, width)?;
    }
    Ok(())
}

fn row_fault(table: &[u32], text: &[u8], r: usize, width: usize) -> Result<(), Refusal>
    requires { start_of table.now r + len_of table.now r ≤ length text.now }
    ensures { result ≡ passed (row_fault width table.now text.now r) }
{
    let start = table::number_at(table, r, 1) as usize;
    let end = start + table::number_at(table, r, 2) as usize;
    let part = &text[start..end];
    let kind = table::number_at(table, r, 0);
    if kind <= 2 {
        if width == 0 {
            return Err(refused(refusal::LIST_COUNT_LARGE));
        }
        return text_fault(part, refusal::LIST_NOT_UTF8, refusal::LIST_AFTER_NUL);
    }
    if kind == 3 {
        return text_fault(
            part,
            refusal::RAW_SYMBOL_NOT_UTF8,
            refusal::RAW_SYMBOL_AFTER_NUL,
        );
    }
    text_fault(part, refusal::SYMBOL_NOT_UTF8, refusal::SYMBOL_AFTER_NUL)
}

// The one refusal where a text is not UTF-8, the other where a byte follows a NUL.
fn text_fault(part: &[u8], not_utf8: u32, after_nul: u32) -> Result<(), Refusal>
    requires { (0 < not_utf8) × (0 < after_nul) }
    ensures { result ≡ passed (text_fault not_utf8 after_nul part.now) }
{
    match padded::check_padded(part) {
        Ok(()) => Ok(()),
        Err(Fault::NotUtf8) => Err(refused(not_utf8)),
        Err(Fault::AfterNul) => Err(refused(after_nul)),
    }
}

// The refusal by that number, which is about no byte.
fn refused(number: u32) -> Refusal
    ensures { result ≡ refusal number 0 }
{
    Refusal { number, place: 0 }
}
