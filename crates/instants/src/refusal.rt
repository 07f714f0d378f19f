// Refusals by name. Their numbers are those that the calls give back; 0 is success.

ghost use Rattle.std.specs.Prelude.{◌≡◌};
ghost use Rattle.instants.specs.Refusals.{number};

// Why an input is refused.
#[derive(Clone, Copy, PartialEq, Eq)]
pub enum Refusal {
    // A year outside 1900..2100, for angles outside 1974..2100.
    Year = 1,
    // A month outside 1..12.
    Month = 2,
    // A day that its month does not have.
    DayOfMonth = 3,
    // An hour above 23.
    Hour = 4,
    // A minute above 59.
    Minute = 5,
    // A second that its minute does not have.
    Second = 6,
    // A microsecond above 999,999.
    Microsecond = 7,
    // A day number outside 15020..88433.
    Day = 8,
    // A day of microseconds or more.
    Micros = 9,
    // A mark in the time word that is not the day word's.
    WordsDisagree = 10,
    // A Doodson multiplier outside -12..12.
    Multiplier = 11,
    // Fewer lent bytes than the service needs.
    BufferShort = 12,
    // The length field of a record.
    RecordLength = 13,
    // The version of a record.
    RecordVersion = 14,
    // Byte 3 of a record.
    RecordZero = 15,
    // The sum of a record's words.
    RecordSum = 16,
    // A count of records outside 1..96.
    RunCount = 17,
    // A step outside 1..86,400,000,000 microseconds.
    RunStep = 18,
    // UTC before 1972-01-01.
    UtcEarly = 19,
    // UTC on 2025-06-28 or later.
    UtcExpired = 20,
    // The length of rows.
    RowsLength = 21,
    // The version of rows.
    RowsVersion = 22,
    // A row's day.
    RowsDay = 23,
    // A row's amplitudes or uncertainty.
    RowsSize = 24,
    // More than 65,536 bytes to rescue records from.
    RescueLength = 25,
    // A day that the year does not have.
    DayOfYear = 26,
    // The length of a record file.
    FileLength = 27,
    // A record of a file that is not after the one before.
    FileOrder = 28,
}

impl From<Refusal> for u32 {
    ghost from_gives = { λ r n. n ≡ number r };

    fn from(refusal: Refusal) -> u32 {
        refusal as u32
    }
}
