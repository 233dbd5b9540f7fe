// A refusal, and the refusal numbers of documents 01 and 02, each with a name.
#![tactic(auto)]

ghost use Rattle.std.specs.Prelude.{◌≡◌, Err};
ghost use Rattle.refusal.specs.Places.{has_place};

// A number of the table, and the place of what it is about, counted in the bytes that were given. 1 to 3, 13, 60 to 83 and 90 to
// 112 are about no byte: their place is 0.
#[derive(Clone, Copy)]
pub struct Refusal {
    pub number: u32,
    pub place: usize,
}

// A refusal by a number at a place, as the answer of whatever could have given something else.
pub fn refuse<T>(number: u32, place: usize) -> Result<T, Refusal>
    ensures { result ≡ Err (record { number = number; place = place }) }
{
    Err(Refusal { number, place })
}

// Whether a refusal by this number is about a place: every refusal from reading is, 10 to 12 and 20 to 55, and so is what is untidy in a
// layout, 120 to 123.
pub fn has_place(number: u32) -> bool
    ensures { result ≡ has_place number }
{
    matches!(number, 10..=12 | 20..=55 | 120..=123)
}

// The state, the store and the tables.
pub const HELD_BEYOND: u32 = 1;

pub const STORE_SHORT: u32 = 2;

pub const TABLE_SHORT: u32 = 3;

// The prelude, and the size of what is given whole.
pub const MAGIC: u32 = 10;

pub const VERSION: u32 = 11;

pub const BLOCK_LENGTH: u32 = 12;

pub const SIZE: u32 = 13;

// The block.
pub const DATASET_NOT_UTF8: u32 = 20;

pub const SCHEMA: u32 = 21;

pub const STYPE_IN: u32 = 22;

pub const STYPE_OUT: u32 = 23;

pub const LAYOUT_LENGTH_MISSING: u32 = 24;

pub const LAYOUT_BELOW_4: u32 = 25;

pub const NO_LAYOUT: u32 = 26;

pub const SYMBOLOGY_LENGTH_MISSING: u32 = 27;

pub const SYMBOLOGY_NOT_SPANNED: u32 = 28;

pub const DATASET_AFTER_NUL: u32 = 29;

// The symbology.
pub const LIST_COUNT_MISSING: u32 = 30;

pub const LIST_COUNT_LARGE: u32 = 31;

pub const LIST_NOT_UTF8: u32 = 32;

pub const MAPPING_COUNT_MISSING: u32 = 33;

pub const MAPPING_COUNT_LARGE: u32 = 34;

pub const MAPPING_SHORT: u32 = 35;

pub const RAW_SYMBOL_NOT_UTF8: u32 = 36;

pub const INTERVAL_COUNT_LARGE: u32 = 37;

pub const START_DATE: u32 = 38;

pub const END_DATE: u32 = 39;

pub const SYMBOL_NOT_UTF8: u32 = 40;

pub const LIST_AFTER_NUL: u32 = 41;

pub const RAW_SYMBOL_AFTER_NUL: u32 = 42;

pub const SYMBOL_AFTER_NUL: u32 = 43;

// The bytes that a block's lengths announce.
pub const LAYOUT_PAST_END: u32 = 44;

pub const SYMBOLOGY_PAST_END: u32 = 45;

// The layout.
pub const LAYOUT_TRUNCATED: u32 = 50;

pub const SECTION_SHORT: u32 = 51;

pub const NAME_HOLDS_NUL: u32 = 52;

pub const NAME_NOT_UTF8: u32 = 53;

pub const NAME_NOT_CLOSED: u32 = 54;

pub const LABEL_TWICE: u32 = 55;

// The rules.
pub const STRUCT_SIZE: u32 = 60;

pub const RTYPE_TWICE: u32 = 61;

pub const RTYPE_RESERVED: u32 = 62;

pub const BASE_BELOW_HEADER: u32 = 63;

pub const BASE_NOT_OF_8: u32 = 64;

// 70 is retired and is not used again: no layout has more or fewer names than fields when its rules are tried.

pub const ID_TWICE: u32 = 71;

pub const STRUCT_IN_STRUCT: u32 = 72;

pub const DEF_INDEX: u32 = 73;

pub const MISALIGNED: u32 = 74;

pub const SIZE_ZERO: u32 = 75;

pub const DECIMAL_SCALE: u32 = 76;

pub const SYMBOL_WIDTH: u32 = 77;

pub const FIELD_END: u32 = 78;

pub const EXTENSION_MARK: u32 = 79;

pub const PAST_BASE: u32 = 80;

pub const BASE_GAP: u32 = 81;

pub const BASE_UNFILLED: u32 = 82;

pub const EXTENSION_GAP: u32 = 83;

// The writer, and a row asked for its name.
pub const ROWS_MALFORMED: u32 = 90;

pub const COUNT_LARGE: u32 = 91;

pub const NAME_LONG: u32 = 92;

pub const NAME_TEXT: u32 = 93;

pub const SECTION_LARGE: u32 = 94;

pub const LABELS_NOT_RISING: u32 = 95;

pub const OUTPUT_SHORT: u32 = 96;

// The frames.
pub const FRAME_LENGTH: u32 = 100;

pub const FRAME_STORE_SHORT: u32 = 101;

// Writing whole starts.
pub const START_MALFORMED: u32 = 110;

pub const TEXT_WIDE: u32 = 111;

pub const START_OUTPUT_SHORT: u32 = 112;

// A layout that is not in the plain form.
pub const LEFTOVER_IN_SECTION: u32 = 120;

pub const CODES_NOT_RISING: u32 = 121;

pub const SKIPPED_NOT_ZERO: u32 = 122;

pub const LEFTOVER_AFTER_LABELS: u32 = 123;

// A house file.
pub const HOUSE_LENGTH: u32 = 130;

pub const HOUSE_CHECK: u32 = 131;

pub const HOUSE_INDEX: u32 = 132;

pub const HOUSE_USED: u32 = 133;

pub const HOUSE_NEEDS: u32 = 134;
