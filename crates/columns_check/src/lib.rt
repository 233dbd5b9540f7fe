// What symbology rows lent by column make: whether each stands in its place (110), whether its text fits (111), and by which number the
// reader would refuse what they stand for.
#![tactic(auto)]

mod rows;
mod texts;

ghost use Rattle.std.specs.Prelude.{◌≡◌};
ghost use Rattle.codec.specs.Codec.{refusal};
ghost use Rattle.columns_check.specs.Check.{unfit_number, columns_of};

use refusal::Refusal;

// How many symbols each list has and how many mappings there are, and the refusal by which the reader would refuse a text, if there is one.
#[derive(Clone, Copy)]
pub struct Counts {
    pub symbols: usize,
    pub partial: usize,
    pub not_found: usize,
    pub mappings: usize,
    pub fault: Result<(), Refusal>,
}

// Why rows are no symbology: 110, or 111.
#[derive(Clone, Copy)]
pub enum Unfit {
    Malformed,
    Wide,
}

// The refusal by 110 or 111, which is about no byte.
impl From<Unfit> for Refusal {
    ghost from_gives = { λ why e. e ≡ refusal (unfit_number why) 0 };

    fn from(why: Unfit) -> Refusal {
        match why {
            Unfit::Malformed => Refusal {
                number: refusal::START_MALFORMED,
                place: 0,
            },
            Unfit::Wide => Refusal {
                number: refusal::TEXT_WIDE,
                place: 0,
            },
        }
    }
}

// What `count` rows of the table make, whose texts are parts of the text, for symbols of this width.
pub fn check_columns(
    table: &[u32],
    count: usize,
    text: &[u8],
    width: usize,
) -> Result<Counts, Unfit>
    ensures { result ≡ columns_of width table.now count text.now }
{
    if table.len() / 6 < count {
        return Err(Unfit::Malformed);
    }
    if 4294967295 < count {
        return Err(Unfit::Malformed);
    }
    if !rows::all_fit(table, text, count) {
        return Err(Unfit::Malformed);
    }
    let one = rows::run_end(0, table, 0, count);
    let two = rows::run_end(1, table, one, count);
    let lists = rows::run_end(2, table, two, count);
    if !rows::are_mapped(table, lists, count) {
        return Err(Unfit::Malformed);
    }
    if !texts::are_narrow(table, count, width) {
        return Err(Unfit::Wide);
    }
    Ok(Counts {
        symbols: one,
        partial: two - one,
        not_found: lists - two,
        mappings: rows::heads(table, lists, count),
        fault: texts::first_fault(table, text, count, width),
    })
}
