// Rows of a table: the first ones, those of a case, and whether two tables have the same.
ghost use Rattle.std.specs.Prelude.{◌≡◌, IfOk, vec_len};

use crate::bytes;
use std::alloc::{AllocError, Global};

// The most rows of a table.
const MOST: usize = 65536;

// What stands first in the row of a field.
const FIELD: u32 = 11;

// Room for the rows of a table, nine numbers each.
pub(crate) fn space(alloc: Global) -> Result<Vec<u32>, AllocError>
    ensures { IfOk result (λ v. 589824 ≡ vec_len v) }
{
    vec![in alloc; 0; 589824]
}

// The first n rows of nine; all where the table has fewer.
pub(crate) fn front(table: &[u32], n: usize) -> &[u32] {
    bytes::front(table, n.saturating_mul(9))
}

// n rows: the numbers of s, four bytes each, then its last row over and over. Where that is more than a table has, its room.
pub(crate) fn load(alloc: Global, s: &[u8], n: usize) -> Result<Vec<u32>, AllocError> {
    if MOST < n {
        return space(alloc);
    }
    let (numbers, _) = s.as_chunks::<4>();
    let mut table = Vec::with_capacity(alloc, 9 * n)?;
    // A number may be that of the row above, so they come by their places.
    for i in 0..9 * n {
        let x = match numbers.get(i) {
            Some(x) => u32::from_le_bytes(*x),
            None => above(&table, i),
        };
        table.push(x)?;
    }
    Ok(table)
}

// The number that stands a row above number i; 0 in the first row.
fn above(table: &[u32], i: usize) -> u32 {
    match i.checked_sub(9) {
        Some(at) => table.get(at).copied().unwrap_or(0),
        None => 0,
    }
}

// Whether the rows of a, with their texts in t, are those of b, with theirs in u, but for where these start. There are as many of both.
pub(crate) fn same(a: &[u32], t: &[u8], b: &[u32], u: &[u8]) -> bool {
    let (first, _) = a.as_chunks::<9>();
    let (second, _) = b.as_chunks::<9>();
    first.iter().zip(second).enumerate().all(|(i, (x, y))| {
        same_numbers(x, y) && names::layout_name(t, a, i) == names::layout_name(u, b, i)
    })
}

// Whether two rows have the same numbers, but for the start of a text: a field has none.
fn same_numbers(a: &[u32; 9], b: &[u32; 9]) -> bool {
    a.iter()
        .zip(b)
        .enumerate()
        .all(|(i, (x, y))| x == y || (i == 1 && a[0] != FIELD))
}
