// Refusals by the documents' numbers: a refusing function tests in their order, and the first test that fails wins, by `?`.
ghost use Rattle.std.specs.Prelude.{◌≡◌};
ghost use Rattle.limits.specs.Refusals.{refused, number, number_of};

// The documents' numbers are the discriminants.
#[derive(Clone, Copy, Debug, PartialEq, Eq)]
pub enum Refusal {
    Limits = 1, // an entry outside its limits or kinds
    Degenerate = 2, // a period not above 0, or a linear level whose anchors are one point
    Unsupported = 3, // a sheet, a distance level, a frame that is not the part frame
    Axes = 4, // anchors that differ on other than one axis
    Slope = 5, // an end of the level beyond 256 in size, or a slope above 1/10
    LowAboveHigh = 6, // a box of whole ticks with a low above its high
    Distance = 7, // a distance level, of which a range is asked
    OnePoint = 8, // anchors that are one point, where a range is asked
    Unordered = 9, // NaN, or a low above its high
    Far = 10, // an end or a point beyond 2^40 in size
    Span = 11, // a span below 1
    Depth = 12, // a depth below 0 or above 24
    Room = 13, // more cells than the table has slots for
    Line = 14, // a text that is not the line
    Unsound = 15, // a table that is not sound
    Layers = 16, // no layer, or one outside the coordinates' limits
    Report = 17, // a report without room for its layers
}

impl From<Refusal> for u32 {
    ghost from_gives = { λ r n. n ≡ number r };

    fn from(r: Refusal) -> u32 {
        r as u32
    }
}

pub fn refuse(fails: bool, why: Refusal) -> Result<(), Refusal>
    ensures { number_of result ≡ refused fails (number why) }
{
    if fails { Err(why) } else { Ok(()) }
}
