ghost use Rattle.std.specs.Prelude.{◌≡◌, ◌+◌, ◌<◌, ◌≤◌, ◌^◌, length};
ghost use Rattle.pef_ports.specs.Sent.{Sends};
ghost use Rattle.pef_rows.specs.Dates.{date_text, day_text, month_day, months, time_text, two_digits, year_in_four};

use pef_ports::{Page, Piece, Sink, StreamFault, print_pieces};

/// Prints a date and a time, given in seconds since the first of January 1904.
pub fn print_date<W: Sink>(out: &mut W, page: &mut Page, seconds: u32) -> Result<(), StreamFault>
    ensures { Sends result (W.stream out.old) (W.stream out.new) page.old.items page.new.items (date_text seconds) }
{
    print_day(out, page, seconds / 86400)?;
    print_time(out, page, seconds)
}

/// Prints the time of the day.
#[tactic(auto, unfolding(crate::specs::Dates::time_text))]
fn print_time<W: Sink>(out: &mut W, page: &mut Page, seconds: u32) -> Result<(), StreamFault>
    ensures { Sends result (W.stream out.old) (W.stream out.new) page.old.items page.new.items (time_text seconds) }
{
    print_pieces(
        out,
        page,
        &[
            Piece::Text(b"T"),
            Piece::Text(&two_digits(seconds / 3600 % 24)),
            Piece::Text(b":"),
            Piece::Text(&two_digits(seconds / 60 % 60)),
            Piece::Text(b":"),
            Piece::Text(&two_digits(seconds % 60)),
        ],
    )
}

/// Prints a day, counted from the first of January 1904.
#[tactic(auto, unfolding(crate::specs::Dates::day_text))]
fn print_day<W: Sink>(out: &mut W, page: &mut Page, day: u32) -> Result<(), StreamFault>
    requires { day < 2 ^ 30 }
    ensures { Sends result (W.stream out.old) (W.stream out.new) page.old.items page.new.items (day_text day) }
{
    let (year, day_of_year) = year_in_four(day % 1461);
    let (month, day_of_month) = month_day(&months(year < 1), 1, day_of_year);
    print_pieces(
        out,
        page,
        &[
            Piece::Number(u64::from(1904 + 4 * (day / 1461) + year)),
            Piece::Text(b"-"),
            Piece::Text(&two_digits(month)),
            Piece::Text(b"-"),
            Piece::Text(&two_digits(day_of_month)),
        ],
    )
}

/// Returns the year of the four from a leap year on that has a day, and the day's number in it.
fn year_in_four(day: u32) -> (u32, u32)
    requires { day < 1461 }
    ensures value { result ≡ year_in_four day }
    ensures year { result.0 < 4 }
    ensures day { result.1 < 366 }
{
    if day < 366 {
        (0, day)
    } else {
        (1 + (day - 366) / 365, (day - 366) % 365)
    }
}

/// Returns the lengths of the months, in a leap year or not.
fn months(leap: bool) -> [u32; 12]
    ensures { result ≡ months leap }
{
    let february = if leap { 29 } else { 28 };
    [31, february, 31, 30, 31, 30, 31, 31, 30, 31, 30, 31]
}

/// Returns the month that has a day, among months of these lengths, and the day's number in it, both from 1.
fn month_day(lengths: &[u32], month: u32, day: u32) -> (u32, u32)
    requires month { month + length lengths.now < 2 ^ 30 }
    requires day { day < 2 ^ 30 }
    ensures { result ≡ month_day lengths.now month day }
{
    match lengths {
        [len, rest @ ..] if day >= *len => month_day(rest, month + 1, day - *len),
        _ => (month, day + 1),
    }
}

/// Returns two decimal digits.
fn two_digits(n: u32) -> [u8; 2]
    ensures { result ≡ two_digits n }
{
    [b'0' + (n / 10 % 10) as u8, b'0' + (n % 10) as u8]
}
