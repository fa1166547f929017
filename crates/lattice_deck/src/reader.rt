ghost use Rattle.std.specs.Prelude.{◌≡◌, ◌≤◌, IfErr, IfOk, Ok, length};
ghost use Rattle.deck_shape.specs.Blocks.{block_at};
ghost use Rattle.deck_shape.specs.Shapes.{IsFaultOf};
ghost use Rattle.kmc_base.specs.declared.ids.FileId.TheVariants.{Lattice};
ghost use Rattle.lattice_deck.specs.Parts.{part_of, values_at};
ghost use Rattle.site_rows.specs.declared.type_word.TheConstants.{MAX_SITE_TYPES};

use crate::part::LatticePart;
use crate::values::part_of;
use deck_shape::{Block, DeckFault, Fault, Shape};
use kmc_base::FileId;
use std::alloc::Global;

/// The values of a block, or its fault.
fn read_block(alloc: Global, bytes: &[u8], block: &Block) -> Result<LatticePart, DeckFault>
    ensures values { IfOk result (λ part. part_of (block_at bytes.now block.now) ≡ Ok (values_at bytes.now part)) }
    ensures fault { IfErr result (IsFaultOf Lattice (part_of (block_at bytes.now block.now))) }
{
    match part_of(alloc, bytes, block)? {
        Ok(part) => Ok(part),
        Err(fault) => Err(DeckFault::Fault(Fault {
            file: FileId::Lattice,
            line: fault.line,
            kind: fault.kind,
        })),
    }
}

/// The values of a lattice file, or its first fault of a value.
///
/// The faults are those of `kind` from `NOT_NUMBER` to `TOO_MANY_SITES` but for `BAD_CHOICE` and `BAD_NAME`; of the kinds
/// that hold at the first faulty line the least is the fault. A fault that depends on a number of another line is found
/// where that number has none itself. A type word that is no type is no fault here: its site has type 0 in the graph.
pub fn read(alloc: Global, bytes: &[u8], shape: &Shape) -> Result<LatticePart, DeckFault>
    ensures values { IfOk result (λ part. part_of (block_at bytes.now shape.now.block) ≡ Ok (values_at bytes.now part)) }
    ensures few_types { IfOk result (λ part. length part.type_names ≤ MAX_SITE_TYPES) }
    ensures fault { IfErr result (IsFaultOf Lattice (part_of (block_at bytes.now shape.now.block))) }
{
    read_block(alloc, bytes, &shape.block)
}
