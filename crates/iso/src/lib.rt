// Days as people write them.
#![tactic(auto)]

ghost use Rattle.std.specs.Prelude.{◌≡◌, ◌<◌};
ghost use Rattle.dates.specs.Day.{date_on};
ghost use Rattle.iso.specs.DateText.{digit_of, date_text, day_text};

// The date of the day of this number as yyyy-mm-dd, in ASCII; ten question marks where there is no such day.
pub fn day_text(day: u32) -> [u8; 10]
    ensures { result ≡ day_text (date_on day) }
{
    match dates::date_of_day(day) {
        Some(yyyymmdd) => date_text(yyyymmdd),
        None => [b'?'; 10],
    }
}

// A date year x 10000 + month x 100 + day as yyyy-mm-dd. Of a larger number the last eight digits count.
fn date_text(yyyymmdd: u32) -> [u8; 10]
    ensures { result ≡ date_text yyyymmdd }
{
    [
        digit(yyyymmdd, 10000000),
        digit(yyyymmdd, 1000000),
        digit(yyyymmdd, 100000),
        digit(yyyymmdd, 10000),
        b'-',
        digit(yyyymmdd, 1000),
        digit(yyyymmdd, 100),
        b'-',
        digit(yyyymmdd, 10),
        digit(yyyymmdd, 1),
    ]
}

// The decimal digit of n that counts `weight`, in ASCII.
fn digit(n: u32, weight: u32) -> u8
    requires { 0 < weight }
    ensures { result ≡ digit_of n weight }
{
    48 + (n / weight % 10) as u8
}
