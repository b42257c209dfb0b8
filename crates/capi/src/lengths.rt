// What the lengths of the slices lent to a call refuse, and with them the piece of `derivatives` and the tie rule of a walk.
ghost use Rattle.std.specs.Prelude.{◌≡◌, ◌≤◌, OnOk, IfOk};
ghost use Rattle.capi.specs.declared.lengths.Fault.TheVariants.{Refused};
ghost use Rattle.capi.specs.Lent.{fault, fault_of, lengths, piece_lent, walk_lent};
ghost use Rattle.capi.specs.Exports.{tie_rule, piece as piece_of};

use grade::Piece;
use limits::refusals::{Refusal, refuse};
use walk::TieRule;

// Why a call leaves no values: a lent slice has the wrong length, or a document's refusal.
#[derive(Clone, Copy, Debug, PartialEq, Eq)]
pub enum Fault {
    Length,
    Refused(Refusal),
}

impl From<Refusal> for Fault {
    ghost from_gives = { λ why f. f ≡ Refused why };

    fn from(why: Refusal) -> Fault {
        Fault::Refused(why)
    }
}

impl From<Fault> for u32 {
    ghost from_gives = { λ f n. n ≡ fault f };

    fn from(f: Fault) -> u32 {
        match f {
            Fault::Length => 101,
            Fault::Refused(why) => why.into(),
        }
    }
}

// Of the description, of the argument beside it, and of the values that are to be left. A call without such an argument gives 0 of 0. The five
// stand as in the definition: an Option of the argument's two would be taken apart again here and in every law of lengths, and be no plainer.
#[tactic(auto, unfolding(crate::specs::Lent::lengths))]
pub fn lengths(
    description: usize,
    given: usize,
    wanted: usize,
    room: usize,
    needed: usize,
) -> Result<(), Fault>
    ensures number { fault_of result ≡ lengths description given wanted room needed }
    ensures right { OnOk result ((description ≡ 18) × (given ≡ wanted) × (needed ≤ room)) }
{
    if given != wanted {
        return Err(Fault::Length);
    }
    if room < needed {
        return Err(Fault::Length);
    }
    Ok(refuse(description != 18, Refusal::Limits)?)
}

// Of `derivatives`: its description, its box and its values, then the number of its piece.
#[tactic(auto, unfolding(crate::specs::Lent::piece_lent))]
pub fn piece_lent(description: usize, world: usize, room: usize, piece: u32) -> Result<Piece, Fault>
    ensures number { fault_of result ≡ piece_lent description world room piece }
    ensures right { OnOk result ((description ≡ 18) × (world ≡ 6) × (24 ≤ room)) }
    ensures piece { IfOk result (λ p. p ≡ piece_of piece) }
{
    lengths(description, world, 6, room, 24)?;
    Ok(Piece::try_from(piece)?)
}

// Of a walk: its description and its box, then the number of its tie rule.
#[tactic(auto, unfolding(crate::specs::Lent::walk_lent))]
pub fn walk_lent(description: usize, bounds: usize, rule: u32) -> Result<TieRule, Fault>
    ensures number { fault_of result ≡ walk_lent description bounds rule }
    ensures right { OnOk result ((description ≡ 18) × (bounds ≡ 6)) }
    ensures rule { IfOk result (λ r. r ≡ tie_rule rule) }
{
    lengths(description, bounds, 6, 0, 0)?;
    Ok(TieRule::try_from(rule)?)
}
