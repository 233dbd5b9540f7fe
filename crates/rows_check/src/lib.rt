// What rows of nine make: whether each stands in its place (90), whether they make a layout (91 to 95), and how long it is.
#![tactic(auto)]

mod cells;
mod fits;
pub mod kinds;
mod order;
mod sizes;

ghost use Rattle.std.specs.Prelude.{◌≡◌, true, false};
ghost use Rattle.std.specs.Result.{MatchResult};
ghost use Rattle.codec.specs.Codec.{refusal};
ghost use Rattle.rows_check.specs.Tree.{row_count};
ghost use Rattle.rows_check.specs.Check.{every, well_formed};
ghost use Rattle.rows_check.specs.Answers.{row_good, sized_of, Counted};

use order::Groups;
use refusal::Refusal;

// The length of a layout, 0 where it was not asked for, and how many records, structs and label defs it has.
#[derive(Clone, Copy)]
pub struct Size {
    pub bytes: usize,
    pub records: usize,
    pub structs: usize,
    pub labels: usize,
}

// What the rows make, whose names are parts of the text; or 90. Where `whole` holds, how long the layout is; or 90 to 95.
pub fn layout_size(rows: &[u32], text: &[u8], whole: bool) -> Result<Size, Refusal>
    ensures { result ≡ sized_of whole rows.now text.now }
{
    let good = fits::all_good(rows, text);
    let Some(groups) = order::well_formed(good, rows, text) else {
        return Err(refused(refusal::ROWS_MALFORMED));
    };
    if whole {
        return whole_size(good, rows, text, groups);
    }
    Ok(Size {
        bytes: 0,
        records: groups.records,
        structs: groups.structs,
        labels: groups.labels,
    })
}

// How long the layout is that well-formed rows make; or 91 to 95.
fn whole_size(good: bool, rows: &[u32], text: &[u8], groups: Groups) -> Result<Size, Refusal>
    requires counts { Counted rows.now groups }
    requires judged { good ≡ every (row_good rows.now text.now) 0 (row_count rows.now) }
    requires formed { well_formed rows.now text.now ≡ true }
    ensures { result ≡ sized_of true rows.now text.now }
{
    holds(
        order::counts_fit(good, rows, text, groups),
        refusal::COUNT_LARGE,
    )?;
    holds(fits::all_pass(good, 92, rows, text), refusal::NAME_LONG)?;
    holds(fits::all_pass(good, 93, rows, text), refusal::NAME_TEXT)?;
    let counted = sizes::total_size(rows, text, groups);
    holds(counted.size < sizes::CAP, refusal::SECTION_LARGE)?;
    holds(
        order::labels_rise(rows, counted.row),
        refusal::LABELS_NOT_RISING,
    )?;
    Ok(Size {
        bytes: counted.size,
        records: groups.records,
        structs: groups.structs,
        labels: groups.labels,
    })
}

// The refusal by that number, where the test does not hold.
fn holds(test: bool, number: u32) -> Result<(), Refusal>
    ensures { MatchResult result (λ _. test ≡ true) (λ e. (test ≡ false) × (e ≡ refusal number 0)) }
{
    if test { Ok(()) } else { Err(refused(number)) }
}

// The refusal of rows, which is about no byte.
fn refused(number: u32) -> Refusal
    ensures { result ≡ refusal number 0 }
{
    Refusal { number, place: 0 }
}
