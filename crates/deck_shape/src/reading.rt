ghost use Rattle.std.specs.Prelude.{◌≡◌, ◌∷◌, ◌++◌, [], ℕ, List, IfOk, map};
ghost use Rattle.dec_text.specs.Spans.{line_at};
ghost use Rattle.deck_shape.specs.Blocks.{block_at, file_at, item_at, with_row};
ghost use Rattle.deck_shape.specs.LineFaults.{variants_within};
ghost use Rattle.deck_shape.specs.Reading.{after_closing, after_inner_block, after_row, after_word, block_of, closed, first_block};
ghost use Rattle.deck_shape.specs.Reading.{lattice_block, nothing_read, only_open, opened, section_closed, variant_closed, with_item};
ghost use Rattle.deck_shape.specs.Views.{reading_at};

use crate::line_words::{NO_WORD, argument, head};
use crate::shape::{Block, Item, Section, Shape};
use dec_text::{Line, Span};
use deck_words::{BlockForm, Role};
use kmc_base::{FileId, OutOfMemory, Sequence};
use std::alloc::Global;

/// What the next line may be.
#[derive(Clone, Copy, Debug, PartialEq, Eq)]
pub(crate) enum Below {
    /// A word line.
    Words,
    /// A row of the last word line, or a word line.
    Rows,
    /// A row of the last word line, or the closing word of this block of rows.
    Enclosed(BlockForm),
}

/// What has been read of a file after some of its lines.
#[derive(Debug, Drop)]
pub(crate) struct Reading {
    /// The innermost block that is open.
    pub(crate) block: Block,
    /// What the next line may be.
    pub(crate) below: Below,
    /// The open blocks around it, the innermost last.
    pub(crate) around: Vec<Block>,
    /// The closed variants of the open section.
    variants: Vec<Block>,
    /// The closed sections.
    sections: Vec<Section>,
}

/// The block that a file is before its first line.
pub(crate) fn first_block(file: FileId) -> BlockForm
    ensures { result ≡ first_block file }
{
    match file {
        FileId::Simulation => BlockForm::Simulation,
        FileId::Lattice => BlockForm::LatticeFile,
        FileId::Energetics => BlockForm::EnergeticsFile,
        FileId::Mechanism => BlockForm::MechanismFile,
        FileId::State => BlockForm::StateFile,
    }
}

/// The lattice block that an argument names.
pub(crate) fn lattice_block(word: &[u8]) -> Option<BlockForm>
    ensures { result ≡ lattice_block word.now }
{
    match word {
        b"default_choice" => Some(BlockForm::DefaultChoice),
        b"periodic_cell" => Some(BlockForm::PeriodicCell),
        b"explicit" => Some(BlockForm::Explicit),
        _ => None,
    }
}

/// Word lines, with a row more of the last of them.
fn items_with_row(alloc: Global, items: Vec<Item>, row: Line) -> Result<Vec<Item>, OutOfMemory>
    ensures { IfOk result (λ all. (text : List ℕ) → map (item_at text) all.items ≡ with_row (line_at text row) (map (item_at text) items.items)) }
{
    let mut items = items;
    let Some(Item { line, rows }) = items.pop() else {
        return Ok(items);
    };
    let mut rows = rows.into_vec();
    rows.push(row)?;
    items.push(Item {
        line,
        rows: Sequence::new(rows),
    })?;
    Ok(items)
}

/// A block with a row more of the last of its word lines.
fn with_row(alloc: Global, block: Block, row: Line) -> Result<Block, OutOfMemory>
    ensures { IfOk result (λ more. (text : List ℕ) → block_at text more
        ≡ record (block_at text block) { items = with_row (line_at text row) (block_at text block).items }) }
{
    let items = items_with_row(alloc, block.items.into_vec(), row)?;
    Ok(Block {
        items: Sequence::new(items),
        ..block
    })
}

/// A block with a word line more.
fn with_word(alloc: Global, block: Block, line: Line) -> Result<Block, OutOfMemory>
    ensures { IfOk result (λ more. (text : List ℕ) → block_at text more
        ≡ record (block_at text block) { items = (block_at text block).items ++ record { line = line_at text line; rows = [] } ∷ [] }) }
{
    let mut items = block.items.into_vec();
    items.push(Item {
        line,
        rows: Sequence::new(Vec::new(alloc)),
    })?;
    Ok(Block {
        items: Sequence::new(items),
        ..block
    })
}

/// The block that a word line opens.
fn opened(alloc: Global, line: &Line, form: BlockForm) -> Block
    ensures { (text : List ℕ) → block_at text result ≡ opened (line_at text line.now) form }
{
    Block {
        form,
        word: head(line),
        line: line.number,
        end_line: 0,
        name: argument(line),
        items: Sequence::new(Vec::new(alloc)),
    }
}

/// A block whose closing word is on this line.
fn closed(block: Block, end_line: u32) -> Block
    ensures { (text : List ℕ) → block_at text result ≡ closed end_line (block_at text block) }
{
    Block { end_line, ..block }
}

impl Reading {
    /// One block of the file is open, and nothing else is read.
    fn only_open(alloc: Global, block: Block) -> Reading
        ensures { (text : List ℕ) → reading_at text result ≡ only_open (block_at text block) }
    {
        Reading {
            block,
            below: Below::Words,
            around: Vec::new(alloc),
            variants: Vec::new(alloc),
            sections: Vec::new(alloc),
        }
    }

    /// Nothing is read yet.
    pub(crate) fn new(alloc: Global, form: BlockForm) -> Reading
        ensures { (text : List ℕ) → reading_at text result ≡ nothing_read form }
    {
        let file = Block {
            form,
            word: NO_WORD,
            line: 0,
            end_line: 0,
            name: NO_WORD,
            items: Sequence::new(Vec::new(alloc)),
        };
        Reading::only_open(alloc, file)
    }

    /// The block of the next line.
    pub(crate) fn form(&self) -> BlockForm
        ensures { (text : List ℕ) → result ≡ block_of (reading_at text self.now) }
    {
        match self.below {
            Below::Enclosed(rows) => rows,
            Below::Words | Below::Rows => self.block.form,
        }
    }

    /// The variants of the innermost block.
    pub(crate) fn variants(&self) -> &[Block]
        ensures { (text : List ℕ) → map (block_at text) result.now
            ≡ variants_within (reading_at text self.now).around (reading_at text self.now).variants }
    {
        if self.around.len() == 1 {
            self.variants.as_slice()
        } else {
            &[]
        }
    }

    /// A row of the last word line is read.
    pub(crate) fn after_row(self, alloc: Global, row: Line) -> Result<Reading, OutOfMemory>
        ensures { IfOk result (λ reading. (text : List ℕ) → reading_at text reading ≡ after_row (line_at text row) (reading_at text self)) }
    {
        let block = with_row(alloc, self.block, row)?;
        Ok(Reading { block, ..self })
    }

    /// A word line is read whose value is on it, or in rows below it.
    fn with_item(self, line: Line, below: Below, alloc: Global) -> Result<Reading, OutOfMemory>
        ensures { IfOk result (λ reading. (text : List ℕ) → reading_at text reading ≡ with_item (line_at text line) below (reading_at text self)) }
    {
        let block = with_word(alloc, self.block, line)?;
        Ok(Reading {
            block,
            below,
            ..self
        })
    }

    /// A word is read that opens a block within the innermost one.
    fn open(self, alloc: Global, line: &Line, form: BlockForm) -> Result<Reading, OutOfMemory>
        ensures { IfOk result (λ reading. (text : List ℕ) → reading_at text reading ≡ after_word (line_at text line.now) (reading_at text self)
            (Role.Opens form)) }
    {
        let mut around = self.around;
        around.push(self.block)?;
        Ok(Reading {
            block: opened(alloc, line, form),
            below: Below::Words,
            around,
            ..self
        })
    }

    /// The first word line of the lattice file is read, whose argument names this block.
    fn begin_lattice(self, alloc: Global, bytes: &[u8], line: &Line) -> Reading
        ensures { reading_at bytes.now result ≡ after_word (line_at bytes.now line.now) (reading_at bytes.now self) Role.BeginsLattice }
    {
        let form = lattice_block(argument(line).bytes(bytes)).unwrap_or(self.block.form);
        Reading::only_open(alloc, opened(alloc, line, form))
    }

    /// A section of the file is closed, around which this block of the file is open.
    fn close_section(
        self,
        alloc: Global,
        file: Block,
        end_line: u32,
    ) -> Result<Reading, OutOfMemory>
        ensures { IfOk result (λ reading. (text : List ℕ) → reading_at text reading
            ≡ section_closed end_line (block_at text file) (reading_at text self)) }
    {
        let mut sections = self.sections;
        sections.push(Section {
            block: closed(self.block, end_line),
            variants: Sequence::new(self.variants),
        })?;
        Ok(Reading {
            block: file,
            below: Below::Words,
            around: Vec::new(alloc),
            variants: Vec::new(alloc),
            sections,
        })
    }

    /// A variant is closed, around which this section is open, and around that the others.
    fn close_variant(self, section: Block, end_line: u32) -> Result<Reading, OutOfMemory>
        ensures { IfOk result (λ reading. (text : List ℕ) → reading_at text reading
            ≡ variant_closed end_line (block_at text section) (reading_at text self).around (reading_at text self)) }
    {
        let mut variants = self.variants;
        variants.push(closed(self.block, end_line))?;
        Ok(Reading {
            block: section,
            below: Below::Words,
            variants,
            ..self
        })
    }

    /// The innermost block is closed: a section of the file, or a variant of its section.
    fn close_inner(self, alloc: Global, end_line: u32) -> Result<Reading, OutOfMemory>
        ensures { IfOk result (λ reading. (text : List ℕ) → reading_at text reading
            ≡ after_inner_block end_line (reading_at text self).around (reading_at text self)) }
    {
        let mut reading = self;
        let Some(outer) = reading.around.pop() else {
            return Ok(reading);
        };
        if reading.around.is_empty() {
            reading.close_section(alloc, outer, end_line)
        } else {
            reading.close_variant(outer, end_line)
        }
    }

    /// A closing word is read that does not close the file.
    fn after_closing(self, alloc: Global, line: &Line) -> Result<Reading, OutOfMemory>
        ensures { IfOk result (λ reading. (text : List ℕ) → reading_at text reading
            ≡ after_closing (line_at text line.now) (reading_at text self) self.below) }
    {
        match self.below {
            Below::Enclosed(_) => Ok(Reading {
                below: Below::Words,
                ..self
            }),
            Below::Words | Below::Rows => self.close_inner(alloc, line.number),
        }
    }

    /// A word line without faults is read, which does not close the file.
    pub(crate) fn after_word(
        self,
        alloc: Global,
        bytes: &[u8],
        line: Line,
        role: Role,
    ) -> Result<Reading, OutOfMemory>
        ensures { IfOk result (λ reading. reading_at bytes.now reading ≡ after_word (line_at bytes.now line) (reading_at bytes.now self) role) }
    {
        match role {
            Role::Value => self.with_item(line, Below::Words, alloc),
            Role::Rows => self.with_item(line, Below::Rows, alloc),
            Role::Encloses(rows) => self.with_item(line, Below::Enclosed(rows), alloc),
            Role::Opens(form) => self.open(alloc, &line, form),
            Role::Begins(form) => Ok(Reading::only_open(alloc, opened(alloc, &line, form))),
            Role::BeginsLattice => Ok(self.begin_lattice(alloc, bytes, &line)),
            Role::Closes => self.after_closing(alloc, &line),
            Role::Unsupported => Ok(self),
        }
    }

    /// The shape of the file, whose closing word is on this line.
    pub(crate) fn close(self, end_line: u32) -> Shape
        ensures { (text : List ℕ) → file_at text result
            ≡ record { block = closed end_line (reading_at text self).block; sections = (reading_at text self).sections } }
    {
        Shape {
            block: closed(self.block, end_line),
            sections: Sequence::new(self.sections),
        }
    }
}
