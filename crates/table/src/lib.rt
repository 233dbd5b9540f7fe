// Rows of any width in a lent table, one after the other, and rows of six by column.
#![tactic(auto)]

ghost use Rattle.std.specs.Prelude.{◌+◌, ◌*◌, ◌<◌, [], ◌∷◌, length, ◌≡◌};
ghost use Rattle.table.specs.Table.{Put, put_row, put_columns};
ghost use Rattle.table.specs.Columns.{cell_of};

// Stores row n of a table whose rows are as wide as this one, where the table has it.
pub fn put_row(table: &mut [u32], n: usize, row: &[u32])
    ensures { Put (put_row (length row.now)) table.old n row.now table.new }
{
    let w = row.len();
    if 0 < w && n < table.len() / w {
        let at = w * n;
        // One number at a time and not a copied slice: for that the row is first put together on the stack, in the pass without a table too.
        for j in 0..w {
            table[at + j] = row[j];
        }
    }
}

// Stores row n, of these six numbers, in a table of six columns, each as high as the table can hold rows, where it is that high: number
// c of the row stands at c x height + n.
pub fn put_six(table: &mut [u32], n: usize, a: u32, b: u32, c: u32, d: u32, e: u32, f: u32)
    ensures { Put (put_columns 6) table.old n (a ∷ b ∷ c ∷ d ∷ e ∷ f ∷ []) table.new }
{
    let height = table.len() / 6;
    if n < height {
        table[n] = a;
        let second = n + height;
        table[second] = b;
        let third = second + height;
        table[third] = c;
        let fourth = third + height;
        table[fourth] = d;
        let fifth = fourth + height;
        table[fifth] = e;
        let sixth = fifth + height;
        table[sixth] = f;
    }
}

// Number `column` of row `row` of a table of six columns, each as high as the table can hold rows; 0 past the height or the columns.
pub fn number_at(table: &[u32], row: usize, column: usize) -> u32
    ensures { result ≡ cell_of table.now row column }
{
    let height = table.len() / 6;
    if row < height {
        if column < 6 {
            return table[column * height + row];
        }
    }
    0
}
