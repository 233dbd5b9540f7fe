// Rows by their numbers.
ghost use Rattle.std.specs.Prelude.{◌≡◌, ◌+◌, ◌-◌, ◌≤◌};
ghost use Rattle.columns_check.specs.Tree.{run};
ghost use Rattle.columns_check.specs.Check.{every, numbers_fit, row_fits, mapped};
ghost use Rattle.columns_check.specs.RowFaults.{head, heads};

// Whether the first n rows have numbers, spans and texts as they must be.
pub(crate) fn all_fit(table: &[u32], text: &[u8], n: usize) -> bool
    ensures { result ≡ every (row_fits table.now text.now) 0 n }
{
    for r in 0..n {
        if !row_fits(table, text, r) {
            return false;
        }
    }
    true
}

fn row_fits(table: &[u32], text: &[u8], r: usize) -> bool
    ensures { result ≡ row_fits table.now text.now r }
{
    if !numbers_fit(table, r) {
        return false;
    }
    let start = table::number_at(table, r, 1) as usize;
    let end = start + table::number_at(table, r, 2) as usize;
    if text.len() < end {
        return false;
    }
    let part = &text[start..end];
    text::trimmed_len(part) == part.len()
}

fn numbers_fit(table: &[u32], r: usize) -> bool
    ensures { result ≡ numbers_fit table.now r }
{
    let kind = table::number_at(table, r, 0);
    let x = table::number_at(table, r, 3);
    let y = table::number_at(table, r, 4);
    if kind == 4 {
        if 3652424 < x {
            return false;
        }
        return y <= 3652424;
    }
    if table::number_at(table, r, 5) as usize != r {
        return false;
    }
    if y != 0 {
        return false;
    }
    if kind == 3 {
        return true;
    }
    x == 0
}

// The first row from `from` on that is of another kind, or `end`.
pub(crate) fn run_end(kind: u32, table: &[u32], from: usize, end: usize) -> usize
    ensures { result ≡ from + run kind table.now from (end - from) }
{
    for r in from..end {
        if table::number_at(table, r, 0) != kind {
            return r;
        }
    }
    from.max(end)
}

// Whether the rows from `from` up to `end` are mappings, each with its intervals.
pub(crate) fn are_mapped(table: &[u32], from: usize, end: usize) -> bool
    ensures { result ≡ mapped table.now from (end - from) 0 0 }
{
    let mut owner = 0;
    let mut due = 0;
    for r in from..end {
        let kind = table::number_at(table, r, 0);
        if due == 0 {
            if kind != 3 {
                return false;
            }
            owner = r;
            due = table::number_at(table, r, 3) as usize;
            continue;
        }
        if kind != 4 {
            return false;
        }
        if table::number_at(table, r, 5) as usize != owner {
            return false;
        }
        due -= 1;
    }
    due == 0
}

// How many of the rows from `from` up to `end` are mappings.
pub(crate) fn heads(table: &[u32], from: usize, end: usize) -> usize
    ensures { result ≡ heads table.now from (end - from) }
{
    let mut m = 0;
    for r in from..end {
        m += head(table, r);
    }
    m
}

// 1 for a mapping, else 0.
fn head(table: &[u32], r: usize) -> usize
    ensures { (result ≡ head table.now r) × (result ≤ 1) }
{
    if table::number_at(table, r, 0) == 3 {
        return 1;
    }
    0
}
