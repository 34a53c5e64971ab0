//! Moments as dates.
ghost use Rattle.std.specs.Prelude.{◌≡◌};
ghost use Rattle.tb_edge_file.specs.Dates.{date_of};

use std::fmt;

/// A second of the calendar, in UTC.
#[derive(Clone, Copy)]
pub struct Date {
    pub year: u64,
    pub month: u64,
    pub day: u64,
    pub hour: u64,
    pub minute: u64,
    pub second: u64,
}

const SECOND: u64 = 1_000_000_000;

const DAY: u64 = 86_400 * SECOND;

/// The second of a moment, which is in nanoseconds since 1970. Days are counted from 1 March of the year 0 on, in eras of 400 years, so that a
/// leap day is the last of its year.
#[tactic(auto, unfolding(crate::specs::Dates::date_of))]
fn date_of(time: u64) -> Date
    ensures { result ≡ date_of time }
{
    let day = time / DAY + 719_468;
    let of_era = day % 146_097;
    let days = of_era.saturating_sub(of_era / 1_460) + of_era / 36_524;
    let year = days.saturating_sub(of_era / 146_096) / 365;
    let of_year = of_era.saturating_sub((365 * year + year / 4).saturating_sub(year / 100));
    let month = (5 * of_year + 2) / 153;
    let second = time / SECOND % 86_400;
    Date {
        year: year + day / 146_097 * 400 + month / 10,
        month: (month + 2) % 12 + 1,
        day: of_year.saturating_sub((153 * month + 2) / 5) + 1,
        hour: second / 3_600,
        minute: second / 60 % 60,
        second: second % 60,
    }
}

/// A number below 100, in two digits.
#[derive(Clone, Copy)]
pub struct TwoDigits {
    pub number: u64,
}

impl fmt::Display for TwoDigits {
    ghost use Rattle.std.specs.Prelude.{Some};
    ghost use Rattle.tb_edge_file.specs.Dates.{two_digits};

    ghost output = { λ shown. Some (two_digits shown.number) };

    fn fmt<W: fmt::Write>(&self, f: &mut fmt::Formatter<W>) -> fmt::Result {
        let (tens, ones) = (self.number / 10, self.number % 10);
        write!(f, "{tens}{ones}")
    }
}

impl fmt::Display for Date {
    ghost use Rattle.std.specs.Prelude.{Some};
    ghost use Rattle.tb_edge_file.specs.Dates.{date_text};

    ghost output = { λ date. Some (date_text date) };

    fn fmt<W: fmt::Write>(&self, f: &mut fmt::Formatter<W>) -> fmt::Result {
        let month = TwoDigits { number: self.month };
        let day = TwoDigits { number: self.day };
        let hour = TwoDigits { number: self.hour };
        let minute = TwoDigits {
            number: self.minute,
        };
        let second = TwoDigits {
            number: self.second,
        };
        write!(f, "{}-{month}-{day}T{hour}:{minute}:{second}Z", self.year)
    }
}

/// The time of a last entry, in nanoseconds since 1970; 0 if there is no entry.
#[derive(Clone, Copy)]
pub struct Moment {
    pub time: u64,
}

impl fmt::Display for Moment {
    ghost use Rattle.std.specs.Prelude.{Some};
    ghost use Rattle.tb_edge_file.specs.Dates.{moment_text};

    ghost output = { λ moment. Some (moment_text moment.time) };

    fn fmt<W: fmt::Write>(&self, f: &mut fmt::Formatter<W>) -> fmt::Result {
        if self.time == 0 {
            return write!(f, "none");
        }
        let date = date_of(self.time);
        write!(f, "{date}")
    }
}
