// C functions on one text and one number, and where a C function tells the place of a refusal. Nothing here but calls of the layers.
#![tactic(auto)]

ghost use Rattle.std.specs.Prelude.{◌≡◌};
ghost use Rattle.text.specs.Utf8.{utf8};
ghost use Rattle.dates.specs.Day.{day_on, date_on};
ghost use Rattle.c_texts.specs.Numbers.{bit, calendar_number, calendar_out, place_out};

use refusal::Refusal;

// 1 where the bytes are UTF-8, else 0.
pub fn dbn_text(s: &[u8]) -> u32
    ensures { result ≡ bit (utf8 s.now) }
{
    if text::is_utf8(s) { 1 } else { 0 }
}

// 1 where the number is a date, year x 10000 + month x 100 + day, with the number of its day in `out`; else 0 and `out` as it was.
pub fn dbn_date(yyyymmdd: u32, out: &mut [u64; 1]) -> u32
    ensures { (result ≡ calendar_number (day_on yyyymmdd)) × (out.new ≡ calendar_out (day_on yyyymmdd) out.old) }
{
    put_answer(dates::day_of(yyyymmdd), out)
}

// 1 where there is a day of this number, with its date in `out`; else 0 and `out` as it was.
pub fn dbn_day(day: u32, out: &mut [u64; 1]) -> u32
    ensures { (result ≡ calendar_number (date_on day)) × (out.new ≡ calendar_out (date_on day) out.old) }
{
    put_answer(dates::date_of_day(day), out)
}

// 1 and what the calendar has, else 0.
fn put_answer(answer: Option<u32>, out: &mut [u64; 1]) -> u32
    ensures { (result ≡ calendar_number answer) × (out.new ≡ calendar_out answer out.old) }
{
    match answer {
        Some(n) => {
            out[0] = n as u64;
            1
        }
        None => 0,
    }
}

// The place of a refusal at 13, where its number has one; any other number leaves `out` as it was, and so does an `out` too short for it.
pub fn put_place(e: Refusal, out: &mut [u64])
    ensures { out.new ≡ place_out e out.old }
{
    if refusal::has_place(e.number) {
        if 13 < out.len() {
            out[13] = e.place as u64;
        }
    }
}
