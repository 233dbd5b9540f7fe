// A sentence for each refusal number that reading a start or judging a layout gives; 90 to 96 and 110 to 112 are the writers', 100 and 101
// those of frames.
use crate::place;
use crate::sheet::Origin;
use refusal::Refusal;
use std::io;
use std::io::Write;

// The bytes of a prelude.
const PRELUDE_LEN: usize = 8;

// The last number whose place counts from the prelude.
const LAST_OF_PRELUDE: u32 = 12;

// The least number of a rule on layouts.
const FIRST_RULE: u32 = 60;

// The number and its sentence; where it has a place, also that in the held bytes, from the prelude or from the block after it; where a rule
// on layouts gave it, also which type sheet that was.
pub(crate) fn show(
    out: &mut impl Write,
    why: Refusal,
    held: &[u8],
    origin: Origin,
) -> io::Result<()> {
    numbered(out, why.number)?;
    if refusal::has_place(why.number) {
        if why.number <= LAST_OF_PRELUDE {
            return place::show(out, held, "prelude", why.place);
        }
        let block = held.get(PRELUDE_LEN..).unwrap_or(&[]);
        return place::show(out, block, "block", why.place);
    }
    if why.number < FIRST_RULE {
        return Ok(());
    }
    writeln!(out, "type sheet: {origin}")
}

// The number and its sentence; where it has a place, also that in the layout, which was given by itself.
pub(crate) fn of_layout(out: &mut impl Write, why: Refusal, layout: &[u8]) -> io::Result<()> {
    numbered(out, why.number)?;
    if refusal::has_place(why.number) {
        return place::show(out, layout, "layout", why.place);
    }
    Ok(())
}

// A line with a number and its sentence.
fn numbered(out: &mut impl Write, number: u32) -> io::Result<()> {
    match sentence(number) {
        Some(sentence) => writeln!(out, "refused {number}: {sentence}"),
        None => writeln!(out, "refused {number}"),
    }
}

// The sentence of a number.
fn sentence(number: u32) -> Option<&'static str> {
    match number {
        0..=29 => of_blocks(number),
        30..=49 => of_symbologies(number),
        50..=119 => of_layouts(number),
        _ => of_untidy(number),
    }
}

// Of the numbers that a stream gives, and a block but for the contents of its symbology and layout.
fn of_blocks(number: u32) -> Option<&'static str> {
    Some(match number {
        refusal::HELD_BEYOND => "The held count is beyond the store or the block.",
        refusal::STORE_SHORT => "The block is larger than the store of 1,048,576 bytes.",
        refusal::TABLE_SHORT => "A table of 16,384 rows is too short.",
        refusal::MAGIC => "The stream does not begin with DBN.",
        refusal::VERSION => "The version is not 1 to 4.",
        refusal::BLOCK_LENGTH => "The block length is below 100.",
        refusal::SIZE => "The block is too short or too long.",
        refusal::DATASET_NOT_UTF8 => "The dataset is not UTF-8.",
        refusal::SCHEMA => "The schema is unknown.",
        refusal::STYPE_IN => "The stype_in is unknown.",
        refusal::STYPE_OUT => "The stype_out is unknown or absent.",
        refusal::LAYOUT_LENGTH_MISSING => "The layout's length is missing.",
        refusal::LAYOUT_BELOW_4 => "There is a layout below version 4.",
        refusal::NO_LAYOUT => "There is no layout in version 4.",
        refusal::SYMBOLOGY_LENGTH_MISSING => "The symbology's length is missing.",
        refusal::SYMBOLOGY_NOT_SPANNED => "The symbology does not span its section.",
        refusal::DATASET_AFTER_NUL => "The dataset has more than NULs after a NUL.",
        _ => return None,
    })
}

// Of the numbers that a symbology's contents give, and the two of bytes past the block's end.
fn of_symbologies(number: u32) -> Option<&'static str> {
    Some(match number {
        refusal::LIST_COUNT_MISSING => "A symbol list has no count.",
        refusal::LIST_COUNT_LARGE => "A symbol list's count is too large.",
        refusal::LIST_NOT_UTF8 => "A listed symbol is not UTF-8.",
        refusal::MAPPING_COUNT_MISSING => "The mappings have no count.",
        refusal::MAPPING_COUNT_LARGE => "The mappings' count is too large.",
        refusal::MAPPING_SHORT => "A mapping is cut short.",
        refusal::RAW_SYMBOL_NOT_UTF8 => "A mapping's raw symbol is not UTF-8.",
        refusal::INTERVAL_COUNT_LARGE => "A mapping's interval count is too large.",
        refusal::START_DATE => "An interval's start is no date.",
        refusal::END_DATE => "An interval's end is no date.",
        refusal::SYMBOL_NOT_UTF8 => "An interval's symbol is not UTF-8.",
        refusal::LIST_AFTER_NUL => "A listed symbol has more than NULs after a NUL.",
        refusal::RAW_SYMBOL_AFTER_NUL => "A mapping's raw symbol has more than NULs after a NUL.",
        refusal::SYMBOL_AFTER_NUL => "An interval's symbol has more than NULs after a NUL.",
        refusal::LAYOUT_PAST_END => "The layout goes past the end of the block.",
        refusal::SYMBOLOGY_PAST_END => "The symbology goes past the end of the block.",
        _ => return None,
    })
}

// Of the numbers that a layout and its rules give.
fn of_layouts(number: u32) -> Option<&'static str> {
    Some(match number {
        refusal::LAYOUT_TRUNCATED => "The layout is cut short.",
        refusal::SECTION_SHORT => "A section's length is below 2.",
        refusal::NAME_HOLDS_NUL => "A name holds a NUL.",
        refusal::NAME_NOT_UTF8 => "A name is not UTF-8.",
        refusal::NAME_NOT_CLOSED => "A name has no closing NUL.",
        refusal::LABEL_TWICE => "A label code comes twice.",
        refusal::STRUCT_SIZE => "A struct's size is not a multiple of its alignment.",
        refusal::RTYPE_TWICE => "An rtype comes twice.",
        refusal::RTYPE_RESERVED => "An rtype's low byte is 4E.",
        refusal::BASE_BELOW_HEADER => "A record's base size is below the header.",
        refusal::BASE_NOT_OF_8 => "A record's base size is not a multiple of 8.",
        refusal::ID_TWICE => "A field id comes twice.",
        refusal::STRUCT_IN_STRUCT => "A struct holds a struct.",
        refusal::DEF_INDEX => "A field's def index is out of range.",
        refusal::MISALIGNED => "A field is misaligned.",
        refusal::SIZE_ZERO => "A field's size is 0.",
        refusal::DECIMAL_SCALE => "A decimal's scale is not -9.",
        refusal::SYMBOL_WIDTH => "A symbol field's size is not the symbol width.",
        refusal::FIELD_END => "A field's end is over 65535.",
        refusal::EXTENSION_MARK => "A field's extension mark and its place differ.",
        refusal::PAST_BASE => "A field goes past the base size.",
        refusal::BASE_GAP => "The base fields leave a gap or overlap.",
        refusal::BASE_UNFILLED => "The base fields end before the base size.",
        refusal::EXTENSION_GAP => "The extension fields leave a gap or overlap.",
        _ => return None,
    })
}

// Of the numbers of what is untidy.
fn of_untidy(number: u32) -> Option<&'static str> {
    Some(match number {
        refusal::LEFTOVER_IN_SECTION => "Bytes are left over in a section.",
        refusal::CODES_NOT_RISING => "A label's code is not above the one before it.",
        refusal::SKIPPED_NOT_ZERO => "A skipped byte of an entry is not zero.",
        refusal::LEFTOVER_AFTER_LABELS => "Bytes are left over after the label defs.",
        _ => return None,
    })
}
