//! The kinds of faults, by the numbers that are printed for them. Where several hold at a line, the least is its fault.

/// The file is not there; line 0.
pub const FILE_ABSENT: u8 = 1;

/// The file has more than `MAX_FILE_BYTES` bytes; line 0.
pub const FILE_TOO_LONG: u8 = 2;

/// A row before any word line, or below a word that has no rows.
pub const STRAY_ROW: u8 = 3;

/// The block has no such word.
pub const UNKNOWN_WORD: u8 = 4;

/// A word of the Zacros manual that kmc does not support.
pub const UNSUPPORTED_WORD: u8 = 5;

/// The word takes another number of arguments.
pub const ARGUMENT_COUNT: u8 = 6;

/// The block has the word already, and may have it once only.
pub const REPEATED_WORD: u8 = 7;

/// The block is closed, and a word that it must have is missing.
pub const MISSING_WORD: u8 = 8;

/// The file ended before its closing word; the line is that after the last.
pub const NOT_CLOSED: u8 = 9;

/// The argument of `lattice` is none of `default_choice`, `periodic_cell` and `explicit`.
pub const UNKNOWN_LATTICE: u8 = 10;

/// A word that should be a decimal has not the form of one.
pub const NOT_NUMBER: u8 = 11;

/// A word that should be a whole number below 2^64 is none.
pub const NOT_WHOLE: u8 = 12;

/// A number is outside its range, or the power of ten of a decimal is outside -400 to 400.
pub const OUT_OF_RANGE: u8 = 13;

/// A sampling is none of `off`, `on event`, `on event N` and `on time D`.
pub const BAD_CHOICE: u8 = 14;

/// A list has another length than is stated; where it is absent, at the closing line.
pub const LIST_LENGTH: u8 = 15;

/// A word has another number of rows than is stated.
pub const ROW_COUNT: u8 = 16;

/// A row has another number of words, or a word of another form.
pub const ROW_FORM: u8 = 17;

/// A list has a name twice, `gas_reacs_prods` a species twice, or a file two clusters or steps of one name.
pub const REPEATED_NAME: u8 = 18;

/// A species is named `*` or `&`.
pub const BAD_NAME: u8 = 19;

/// An edge of a pattern does not name two of its sites, or a row of `neighboring_structure` names a site of the cell
/// that is not there.
pub const BAD_EDGE: u8 = 20;

/// A pattern is not connected; the line is that of `neighboring`, or of `sites` where that is absent.
pub const NOT_CONNECTED: u8 = 21;

/// A row gives an entity a dentate that an earlier row of the same list gave it.
pub const DOUBLE_DENTATE: u8 = 22;

/// A row gives an entity another species than an earlier row of the same list.
pub const TWO_SPECIES: u8 = 23;

/// A row of `lattice_structure` gives a site that an earlier row gave.
pub const REPEATED_SITE: u8 = 24;

/// A row of `lattice_structure` names a site outside 1 to `n_sites`.
pub const BAD_SITE: u8 = 25;

/// A site is joined to itself, by the repeats of the cell if need be.
pub const SELF_NEIGHBOUR: u8 = 26;

/// A site has more than `MAX_NEIGHBOURS` neighbours.
pub const TOO_MANY_NEIGHBOURS: u8 = 27;

/// A row of `lattice_structure` names a neighbour whose row does not name its site.
pub const ONE_SIDED: u8 = 28;

/// The repeats of the cell give more than `MAX_SITES` sites.
pub const TOO_MANY_SITES: u8 = 29;

/// The energetics file has more than 256 clusters, or the mechanism file more than 1,024 processes; at the closing line.
pub const TOO_MANY_PARTS: u8 = 30;

/// A row of states names no surface species.
pub const UNKNOWN_SPECIES: u8 = 31;

/// `gas_reacs_prods` names no gas species.
pub const UNKNOWN_GAS: u8 = 32;

/// A site type is no number from 1 to `n_site_types` and no name of a type.
pub const UNKNOWN_TYPE: u8 = 33;

/// A dentate is outside 1 to the dentates of its species; a vacant site has dentate 1 alone.
pub const BAD_DENTATE: u8 = 34;

/// An entity of `initial` or `final` does not list every dentate of its species.
pub const MISSING_DENTATE: u8 = 35;
