// The pieces by document 01's numbers.
ghost use Rattle.grade.specs.Pieces.{Decodes};

use crate::Piece;
use limits::refusals::Refusal;

impl TryFrom<u32> for Piece {
    type Error = Refusal;

    ghost try_from_gives = { Decodes };

    fn try_from(number: u32) -> Result<Self, Refusal> {
        match number {
            0 => Ok(Piece::Start),
            1 => Ok(Piece::Ramp),
            2 => Ok(Piece::End),
            _ => Err(Refusal::Limits),
        }
    }
}
