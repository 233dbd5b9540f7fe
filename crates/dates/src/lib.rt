// Dates, written year x 10000 + month x 100 + day, and the numbers of their days: 1 January of year 0 is 0.
#![tactic(auto)]

ghost use Rattle.std.specs.Prelude.{◌≡◌, ◌/◌, ◌≤◌, ◌<◌};
ghost use Rattle.dates.specs.Date.{is_leap, days_in};
ghost use Rattle.dates.specs.Day.{days_before, days_of_year, day_on, date_on, year_of, month_of, in_year};
ghost use Rattle.dates.specs.DayLaws.{In, leap_day};
ghost use Rattle.dates.specs.Months.{days_of, month_word, word_in, months_after, months_tested, is_date_in, day_in};

// What a month's own days count in the number for a month, and what the month counts in that number where it is kept: 2^28 and 2^33.
const DAYS: u64 = 268435456;

const MONTH: u64 = 8589934592;

// The number of the day of this date, where the calendar of the years 0 to 9999 has it.
pub fn day_of(date: u32) -> Option<u32>
    ensures { result ≡ day_on date }
{
    let word = month_word(date / 100);
    let d = date % 100;
    if d < 1 || word / DAYS < d as u64 {
        return None;
    }
    Some((word % DAYS) as u32 + d - 1)
}

// The date of the day of this number, where the years 0 to 9999 have so many days.
pub fn date_of_day(day: u32) -> Option<u32>
    ensures { result ≡ date_on day }
{
    if day > 3652424 {
        return None;
    }
    let y = year_of(day);
    Some(y * 10000 + in_year(y, day - days_before_year(y)))
}

// Whether n is a date, by the months that are kept: zeros at first, and then what these functions made of them.
pub fn is_date_in(months: &mut [u64; 64], n: u32) -> bool
    ensures { (result ≡ is_date_in months.old n) × (months.new ≡ months_tested months.old (n / 100)) }
{
    let days = days_known(months, n / 100);
    let d = n % 100;
    1 <= d && d <= days
}

// The number of the day of the date n, by the months that are kept. Of any other number, the days of the years and months before it, and
// of its month.
pub fn day_number_in(months: &mut [u64; 64], n: u32) -> u32
    ensures { (result ≡ day_in months.old n) × (months.new ≡ months_after months.old (n / 100)) }
{
    let word = word_in(months, n / 100);
    let d = n % 100;
    let first = (word % DAYS) as u32;
    if d < 1 {
        return first;
    }
    first + d - 1
}

// The days of a month, written year x 100 + month, by the months that are kept; the month is kept after that where its place was empty.
// Where another month stands there the days before this one are not counted.
fn days_known(months: &mut [u64; 64], month: u32) -> u32
    requires { month ≤ 42949672 }
    ensures { (result ≡ word_in months.old month / 268435456) × (months.new ≡ months_tested months.old month) }
{
    let known = months[(month % 64) as usize];
    if known / MONTH == month as u64 {
        return (known % MONTH / DAYS) as u32;
    }
    if known == 0 {
        return (word_in(months, month) / DAYS) as u32;
    }
    days_of(month / 100, month % 100)
}

// What is known of a month, written year x 100 + month, by the months that are kept, where it is kept after that.
fn word_in(months: &mut [u64; 64], month: u32) -> u64
    requires { month ≤ 42949672 }
    ensures { (result ≡ word_in months.old month) × (months.new ≡ months_after months.old month) × (result < 8589934592) }
{
    let i = (month % 64) as usize;
    let entry = months[i];
    if entry / MONTH == month as u64 {
        return entry % MONTH;
    }
    let word = month_word(month);
    months[i] = month as u64 * MONTH + word;
    word
}

// What is known of a month, written year x 100 + month: its days, none past the year 9999, x 2^28 + the days before it.
fn month_word(month: u32) -> u64
    requires { month ≤ 42949672 }
    ensures { result ≡ month_word month }
{
    let y = month / 100;
    let m = month % 100;
    let first = days_before_year(y) + days_before_month(y, m);
    days_of(y, m) as u64 * DAYS + first as u64
}

// The days of month m of the year y, none past the year 9999.
fn days_of(y: u32, m: u32) -> u32
    ensures { result ≡ days_of y m }
{
    if 9999 < y {
        return 0;
    }
    days_in(y, m)
}

// Whether y is a leap year.
fn leap(y: u32) -> bool
    ensures { result ≡ is_leap y }
{
    if y % 100 == 0 {
        y % 400 == 0
    } else {
        y % 4 == 0
    }
}

// The days of month m of the year y: none where m is no month.
fn days_in(y: u32, m: u32) -> u32
    ensures { result ≡ days_in y m }
{
    match m {
        2 => 28 + leap_day(y),
        1..=12 => 30 + (m + m / 8) % 2,
        _ => 0,
    }
}

// 1 in a leap year, else 0.
fn leap_day(y: u32) -> u32
    ensures { result ≡ leap_day y }
{
    u32::from(leap(y))
}

// The days of the years before y.
fn days_before_year(y: u32) -> u32
    requires { y ≤ 429496 }
    ensures { result ≡ days_before days_of_year y }
{
    let centuries = (y + 99) / 100;
    365 * y + (y + 3) / 4 - centuries + (centuries + 3) / 4
}

// The days of the year y before month m: all of them where m is above 12.
fn days_before_month(y: u32, m: u32) -> u32
    ensures { result ≡ days_before (days_in y) m }
{
    if m < 3 {
        return 31 * (m / 2);
    }
    if m > 12 {
        return 365 + leap_day(y);
    }
    (979 * m - 1031) / 32 + leap_day(y)
}

// The year of a day.
fn year_of(day: u32) -> u32
    requires { day ≤ 3652424 }
    ensures { (result ≡ year_of day) × In days_of_year 9999 day result }
{
    let y = day * 400 / 146097;
    if day < days_before_year(y) {
        return y - 1;
    }
    if days_before_year(y + 1) <= day {
        return y + 1;
    }
    y
}

// The month of day k of the year y.
fn month_of(y: u32, k: u32) -> u32
    requires { k < days_of_year y }
    ensures { (result ≡ month_of y k) × In (days_in y) 12 k result }
{
    let m = k / 32 + 1;
    if days_before_month(y, m + 1) <= k {
        return m + 1;
    }
    m
}

// Day k of the year y, as month x 100 + day.
fn in_year(y: u32, k: u32) -> u32
    requires { k < days_of_year y }
    ensures { (result ≡ in_year y k) × (result ≤ 1231) }
{
    let m = month_of(y, k);
    m * 100 + (k - days_before_month(y, m)) + 1
}
