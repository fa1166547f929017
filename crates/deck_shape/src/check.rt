ghost use Rattle.std.specs.Prelude.{◌≡◌, ℕ, List, None, Some, false, if◌then◌else◌, map};
ghost use Rattle.std.specs.List.{find, list_all, list_any};
ghost use Rattle.std.specs.Option.{option_copied, option_map_or};
ghost use Rattle.dec_text.specs.Spans.{line_at};
ghost use Rattle.deck_shape.specs.Blocks.{block_at, has_keyword, has_other, has_word_of, item_at, stands};
ghost use Rattle.deck_shape.specs.LineFaults.{
  closes,
  closes_file,
  fault_at,
  first_kind,
  has_other_count,
  is_missing,
  is_repeated,
  is_unsupported,
  misses_word,
  names_no_lattice,
  rule_faults,
  takes_rows,
};
ghost use Rattle.deck_shape.specs.LineFaults.{all_have, is_in_variants, may_be_in_variants, variants_within};
ghost use Rattle.deck_shape.specs.LineWords.{is_row};
ghost use Rattle.deck_words.specs.declared.kind.TheConstants.{STRAY_ROW};
ghost use Rattle.deck_shape.specs.Reading.{block_of, rule_at};
ghost use Rattle.deck_words.specs.Needs.{is_needed};
ghost use Rattle.deck_words.specs.Tables.{rules_of};
ghost use Rattle.deck_shape.specs.Views.{reading_at};

use crate::line_words::{argument, argument_count, begins_row, head};
use crate::reading::{Below, Reading, lattice_block};
use crate::shape::{Block, Item};
use dec_text::Line;
use deck_words::kind::{
    ARGUMENT_COUNT, MISSING_WORD, REPEATED_WORD, STRAY_ROW, UNKNOWN_LATTICE, UNKNOWN_WORD,
    UNSUPPORTED_WORD,
};
use deck_words::{BlockForm, Keyword, Need, Role, Rule, is_spelled};

/// A line is a row.
pub(crate) fn is_row(bytes: &[u8], line: &Line) -> bool
    ensures { result ≡ is_row (line_at bytes.now line.now) }
{
    begins_row(head(line).bytes(bytes))
}

/// The rule of a word line in its block.
pub(crate) fn rule_at(reading: &Reading, bytes: &[u8], line: &Line) -> Option<&'static Rule>
    ensures { option_copied result ≡ rule_at (reading_at bytes.now reading.now) (line_at bytes.now line.now) }
{
    let word = head(line).bytes(bytes);
    if begins_row(word) {
        None
    } else {
        reading.form().rule_for(word)
    }
}

/// A word line has this keyword.
fn has_keyword(bytes: &[u8], keyword: Keyword, item: &Item) -> bool
    ensures { result ≡ has_keyword keyword (item_at bytes.now item.now) }
{
    is_spelled(keyword, head(&item.line).bytes(bytes))
}

/// The first of some word lines that has this keyword.
pub(crate) fn first_item<'a>(bytes: &[u8], keyword: Keyword, items: &'a [Item]) -> Option<&'a Item>
    ensures { option_copied result ≡ find (λ item. has_keyword keyword (item_at bytes.now item)) items.now }
{
    items.iter().find(|item| has_keyword(bytes, keyword, item))
}

/// Some word line has a keyword.
fn stands(bytes: &[u8], keyword: Keyword, items: &[Item]) -> bool
    ensures { result ≡ stands keyword (map (item_at bytes.now) items.now) }
{
    first_item(bytes, keyword, items).is_some()
}

/// Some word line has the other word that counts as a rule's word.
fn has_other(bytes: &[u8], need: Need, items: &[Item]) -> bool
    ensures { result ≡ has_other need (map (item_at bytes.now) items.now) }
{
    match need {
        Need::Optional | Need::Required | Need::HereOrInVariants => false,
        Need::ThisOr(other) => stands(bytes, other, items),
    }
}

/// Some word line has the word of a rule, or the other word that counts as the same.
fn has_word_of(bytes: &[u8], rule: &Rule, items: &[Item]) -> bool
    ensures { result ≡ has_word_of rule.now (map (item_at bytes.now) items.now) }
{
    stands(bytes, rule.keyword, items) || has_other(bytes, rule.need, items)
}

/// A word is required in some way.
fn is_needed(need: Need) -> bool
    ensures { result ≡ is_needed need }
{
    match need {
        Need::Optional => false,
        Need::Required | Need::ThisOr(_) | Need::HereOrInVariants => true,
    }
}

/// A word may be in the variants of a block in its place.
fn may_be_in_variants(need: Need) -> bool
    ensures { result ≡ may_be_in_variants need }
{
    matches!(need, Need::HereOrInVariants)
}

/// A block has a keyword.
fn has(bytes: &[u8], keyword: Keyword, block: &Block) -> bool
    ensures { result ≡ stands keyword (block_at bytes.now block.now).items }
{
    stands(bytes, keyword, block.items.as_slice())
}

/// Each of some blocks has a keyword.
fn each_has(bytes: &[u8], keyword: Keyword, blocks: &[Block]) -> bool
    ensures { result ≡ list_all (λ block. stands keyword (block_at bytes.now block).items) blocks.now }
{
    blocks.iter().all(|block| has(bytes, keyword, block))
}

/// Each of some blocks has a keyword.
fn all_have(bytes: &[u8], keyword: Keyword, blocks: &[Block]) -> bool
    ensures { result ≡ all_have keyword (map (block_at bytes.now) blocks.now) }
{
    each_has(bytes, keyword, blocks)
}

/// A block has variants, and each of them has a word that may be there in place of the block.
fn is_in_variants(bytes: &[u8], variants: &[Block], rule: &Rule) -> bool
    ensures { result ≡ is_in_variants (map (block_at bytes.now) variants.now) rule.now }
{
    !variants.is_empty() && may_be_in_variants(rule.need) && all_have(bytes, rule.keyword, variants)
}

/// A required word is missing.
fn is_missing(bytes: &[u8], variants: &[Block], items: &[Item], rule: &Rule) -> bool
    ensures { result ≡ is_missing (map (block_at bytes.now) variants.now) (map (item_at bytes.now) items.now) rule.now }
{
    is_needed(rule.need)
        && !(is_in_variants(bytes, variants, rule) || has_word_of(bytes, rule, items))
}

/// Some required word of a block is missing.
fn any_is_missing(bytes: &[u8], form: BlockForm, variants: &[Block], items: &[Item]) -> bool
    ensures { result ≡ list_any (is_missing (map (block_at bytes.now) variants.now) (map (item_at bytes.now) items.now)) (rules_of form) }
{
    form.rules()
        .iter()
        .any(|rule| is_missing(bytes, variants, items, rule))
}

/// The role is to close a block.
fn closes(role: Role) -> bool
    ensures { result ≡ closes role }
{
    matches!(role, Role::Closes)
}

/// The word is refused.
fn is_unsupported(role: Role) -> bool
    ensures { result ≡ is_unsupported role }
{
    matches!(role, Role::Unsupported)
}

/// A word takes another number of arguments.
fn has_other_count(line: &Line, rule: &Rule) -> bool
    ensures { (text : List ℕ) → result ≡ has_other_count (line_at text line.now) rule.now }
{
    !rule.arguments.allow(argument_count(line))
}

/// A word that a block may have once is there again.
fn is_repeated(bytes: &[u8], items: &[Item], rule: &Rule) -> bool
    ensures { result ≡ is_repeated (map (item_at bytes.now) items.now) rule.now }
{
    rule.is_once && has_word_of(bytes, rule, items)
}

/// The closing word of a block in which a word is missing.
fn misses_word(bytes: &[u8], reading: &Reading, rule: &Rule) -> bool
    ensures { result ≡ misses_word (block_of (reading_at bytes.now reading.now))
        (variants_within (reading_at bytes.now reading.now).around (reading_at bytes.now reading.now).variants)
        (reading_at bytes.now reading.now).block.items rule.now }
{
    let items = reading.block.items.as_slice();
    closes(rule.role) && any_is_missing(bytes, reading.form(), reading.variants(), items)
}

/// The argument of the lattice file's first word names no lattice.
fn names_no_lattice(bytes: &[u8], line: &Line, rule: &Rule) -> bool
    ensures { result ≡ names_no_lattice (line_at bytes.now line.now) rule.now }
{
    match rule.role {
        Role::BeginsLattice => lattice_block(argument(line).bytes(bytes)).is_none(),
        _ => false,
    }
}

/// The least kind of fault that holds at a word that its block has.
fn rule_fault(reading: &Reading, bytes: &[u8], line: &Line, rule: &Rule) -> Option<u8>
    ensures { result ≡ first_kind (rule_faults (reading_at bytes.now reading.now) (line_at bytes.now line.now) rule.now) }
{
    if is_unsupported(rule.role) {
        return Some(UNSUPPORTED_WORD);
    }
    if has_other_count(line, rule) {
        return Some(ARGUMENT_COUNT);
    }
    if is_repeated(bytes, reading.block.items.as_slice(), rule) {
        return Some(REPEATED_WORD);
    }
    if misses_word(bytes, reading, rule) {
        return Some(MISSING_WORD);
    }
    if names_no_lattice(bytes, line, rule) {
        return Some(UNKNOWN_LATTICE);
    }
    None
}

/// The fault of a row.
fn row_fault(below: Below) -> Option<u8>
    ensures { result ≡ (if takes_rows below then None else Some STRAY_ROW) }
{
    match below {
        Below::Words => Some(STRAY_ROW),
        Below::Rows | Below::Enclosed(_) => None,
    }
}

/// The least kind of fault that holds at a line.
pub(crate) fn fault_at(reading: &Reading, bytes: &[u8], line: &Line) -> Option<u8>
    ensures { result ≡ fault_at (reading_at bytes.now reading.now) (line_at bytes.now line.now) }
{
    if is_row(bytes, line) {
        return row_fault(reading.below);
    }
    match rule_at(reading, bytes, line) {
        Some(rule) => rule_fault(reading, bytes, line, rule),
        None => Some(UNKNOWN_WORD),
    }
}

/// A word line has a closing word.
fn is_closing(reading: &Reading, bytes: &[u8], line: &Line) -> bool
    ensures { result ≡ option_map_or (λ rule. closes rule.role) (rule_at (reading_at bytes.now reading.now) (line_at bytes.now line.now)) false }
{
    rule_at(reading, bytes, line).is_some_and(|rule| closes(rule.role))
}

/// A word line closes the file.
pub(crate) fn closes_file(reading: &Reading, bytes: &[u8], line: &Line) -> bool
    ensures { result ≡ closes_file (reading_at bytes.now reading.now) (line_at bytes.now line.now) }
{
    match reading.below {
        Below::Enclosed(_) => false,
        Below::Words | Below::Rows => {
            reading.around.is_empty() && is_closing(reading, bytes, line)
        }
    }
}
