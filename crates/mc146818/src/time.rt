//! The time and its alarm, and how the time advances by a second.

ghost use Rattle.std.specs.Prelude.{◌≡◌, ◌≤◌, ◌<◌};
ghost use Rattle.mc146818.specs.Time.{format_of, number_of, byte_of, counted, counted_where, hour_of, counted_hours, counted_hours_where, last_day_of, advanced, byte_matches, alarm_matches};

use crate::registers::{DM, DONT_CARE, HOURS_24, PM};

/// The time as its registers hold it.
#[derive(Clone, Copy, Debug, PartialEq, Eq)]
pub struct Time {
    pub seconds: u8,
    pub minutes: u8,
    pub hours: u8,
    pub weekday: u8,
    pub day: u8,
    pub month: u8,
    pub year: u8,
}

/// The time of the alarm as its registers hold it.
#[derive(Clone, Copy, Debug, PartialEq, Eq)]
pub struct Alarm {
    pub seconds: u8,
    pub minutes: u8,
    pub hours: u8,
}

/// How the bytes of a time are meant: binary or BCD, of 24 hours or of 12.
#[derive(Clone, Copy)]
pub struct Format {
    pub binary: bool,
    pub hours_24: bool,
}

/// A field that has counted: its byte, and whether it carries into the next field.
#[derive(Clone, Copy)]
pub struct Counted {
    pub byte: u8,
    pub carry: bool,
}

impl Format {
    /// The format that register B sets.
    #[inline]
    pub fn of(b: u8) -> Format
        ensures { result ≡ format_of b }
    {
        Format {
            binary: b & DM != 0,
            hours_24: b & HOURS_24 != 0,
        }
    }

    /// The number that a byte counts as.
    fn number(self, byte: u8) -> u8
        ensures { result ≡ number_of self byte }
    {
        if self.binary {
            byte
        } else {
            byte / 16 * 10 + byte % 16
        }
    }

    /// The byte of a number.
    fn byte(self, number: u8) -> u8
        requires { number < 100 }
        ensures { result ≡ byte_of self number }
    {
        if self.binary {
            number
        } else {
            number / 10 * 16 + number % 10
        }
    }

    // A field that counts, from its first value to its last one.
    fn count(self, byte: u8, first: u8, last: u8) -> Counted
        requires { last < 100 }
        ensures { result ≡ counted self first last byte }
    {
        let number = self.number(byte);
        if number < last {
            Counted {
                byte: self.byte(number + 1),
                carry: false,
            }
        } else {
            Counted {
                byte: first,
                carry: true,
            }
        }
    }

    // A field that counts where the one below it carries.
    fn count_where(self, carry: bool, byte: u8, first: u8, last: u8) -> Counted
        requires { last < 100 }
        ensures { result ≡ counted_where self carry first last byte }
    {
        if carry {
            self.count(byte, first, last)
        } else {
            Counted { byte, carry }
        }
    }

    // The byte of an hour from 1 to 12.
    fn hour(self, pm: bool, number: u8) -> u8
        requires { number ≤ 12 }
        ensures { result ≡ hour_of self pm number }
    {
        let byte = self.byte(number);
        if pm { byte + PM } else { byte }
    }

    // The hours, counted. Of 12 hours PM is no part of their number: 11 goes to 12 and flips it.
    fn count_hours(self, byte: u8) -> Counted
        ensures { result ≡ counted_hours self byte }
    {
        if self.hours_24 {
            return self.count(byte, 0, 23);
        }
        let pm = byte & PM != 0;
        let number = self.number(byte % PM);
        if number < 11 {
            Counted {
                byte: self.hour(pm, number + 1),
                carry: false,
            }
        } else if number == 11 {
            Counted {
                byte: self.hour(!pm, 12),
                carry: pm,
            }
        } else {
            Counted {
                byte: self.hour(pm, 1),
                carry: false,
            }
        }
    }

    // The hours, which count where the minutes carry.
    fn count_hours_where(self, carry: bool, byte: u8) -> Counted
        ensures { result ≡ counted_hours_where self carry byte }
    {
        if carry {
            self.count_hours(byte)
        } else {
            Counted { byte, carry }
        }
    }

    // The last day of the month.
    fn last_day(self, month: u8, year: u8) -> u8
        ensures value { result ≡ last_day_of (number_of self month) (number_of self year) }
        ensures fits { result < 100 }
    {
        match self.number(month) {
            4 | 6 | 9 | 11 => 30,
            2 if self.number(year) % 4 == 0 => 29,
            2 => 28,
            _ => 31,
        }
    }
}

impl Time {
    /// The time a second later.
    pub fn advanced(self, format: Format) -> Time
        ensures { result ≡ advanced format self }
    {
        let last_day = format.last_day(self.month, self.year);
        let seconds = format.count(self.seconds, 0, 59);
        let minutes = format.count_where(seconds.carry, self.minutes, 0, 59);
        let hours = format.count_hours_where(minutes.carry, self.hours);
        let weekday = format.count_where(hours.carry, self.weekday, 1, 7);
        let day = format.count_where(hours.carry, self.day, 1, last_day);
        let month = format.count_where(day.carry, self.month, 1, 12);
        let year = format.count_where(month.carry, self.year, 0, 99);
        Time {
            seconds: seconds.byte,
            minutes: minutes.byte,
            hours: hours.byte,
            weekday: weekday.byte,
            day: day.byte,
            month: month.byte,
            year: year.byte,
        }
    }
}

impl Alarm {
    /// Whether the alarm is for this time. The bytes are compared as they stand.
    pub fn matches(self, time: Time) -> bool
        ensures { result ≡ alarm_matches self time }
    {
        field_matches(self.seconds, time.seconds)
            && field_matches(self.minutes, time.minutes)
            && field_matches(self.hours, time.hours)
    }
}

// Whether a byte of the alarm is for this field.
fn field_matches(alarm: u8, field: u8) -> bool
    ensures { result ≡ byte_matches alarm field }
{
    alarm >= DONT_CARE || alarm == field
}
