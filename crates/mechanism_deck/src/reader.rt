ghost use Rattle.std.specs.Prelude.{◌≡◌, IfErr, IfOk, Ok};
ghost use Rattle.deck_shape.specs.Blocks.{file_at};
ghost use Rattle.deck_shape.specs.Shapes.{IsFaultOf};
ghost use Rattle.kmc_base.specs.declared.ids.FileId.TheVariants.{Mechanism};
ghost use Rattle.mechanism_deck.specs.Parts.{part_of};
ghost use Rattle.mechanism_deck.specs.Soundness.{IsSoundPart};
ghost use Rattle.mechanism_deck.specs.Views.{values_at};

use crate::part::MechanismPart;
use crate::parts::part_of;
use deck_shape::{DeckFault, Fault, Shape};
use deck_words::LineFault;
use kmc_base::FileId;
use std::alloc::Global;

/// The values of a mechanism file, or its first fault of a value.
///
/// The faults are `NOT_NUMBER`, `NOT_WHOLE`, `OUT_OF_RANGE`, `LIST_LENGTH`, `ROW_COUNT`, `ROW_FORM`, `REPEATED_NAME`, `BAD_EDGE`,
/// `NOT_CONNECTED`, `DOUBLE_DENTATE`, `TWO_SPECIES` and `TOO_MANY_PARTS`; of the kinds that hold at the first faulty line
/// the least is the fault. A fault that depends on a number of another line is found where that number has none itself. What
/// the sites of each step hold before it makes a pattern, and so does what they hold after it.
pub fn read(alloc: Global, bytes: &[u8], shape: &Shape) -> Result<MechanismPart, DeckFault>
    ensures values { IfOk result (λ part. part_of (file_at bytes.now shape.now) ≡ Ok (values_at bytes.now part)) }
    ensures sound { IfOk result (λ part. IsSoundPart (values_at bytes.now part)) }
    ensures fault { IfErr result (IsFaultOf Mechanism (part_of (file_at bytes.now shape.now))) }
{
    match part_of(alloc, bytes, shape)? {
        Ok(part) => Ok(part),
        Err(LineFault { line, kind }) => Err(DeckFault::Fault(Fault {
            file: FileId::Mechanism,
            line,
            kind,
        })),
    }
}
