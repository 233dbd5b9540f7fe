// One field: the parts of its entry, what the type sheet says of it, and its rules, numbers 71 to 80.
#![tactic(auto)]

ghost use Rattle.std.specs.Prelude.{◌≡◌, not, ◌&&◌, ◌+◌, ◌*◌, ◌<◌, length};
ghost use Rattle.fields.specs.Sheet.{id_of, off_of, size_of, type_of, def_of, end_of, is_padding, is_struct, is_symbol, is_decimal, names_label, is_extension, past_base, align_of, member_align};
ghost use Rattle.fields.specs.Field.{differs, breaks71, breaks72, breaks73, breaks74, breaks76, breaks77, breaks79, breaks80, field_fault};
ghost use Rattle.codec.specs.Telling.{fault};
ghost use Rattle.fields.specs.Answers.{ExtentIs, ClassIs};

// What the fields of one record or struct are held against: whether it is a record, its base size or its size, the
// stream's symbol width and how many label defs there are.
#[derive(Clone, Copy)]
pub struct Frame {
    pub is_record: bool,
    pub base: usize,
    pub width: usize,
    pub labels: usize,
}

// Where an entry stands: whether it is of the other side of the base, its first byte, and one past its last.
#[derive(Clone, Copy)]
pub struct Extent {
    pub other: bool,
    pub off: usize,
    pub end: usize,
}

// What rules over many entries ask of one: its id, whether it is padding, and its alignment inside a struct.
#[derive(Clone, Copy)]
pub struct Class {
    pub id: u16,
    pub padding: bool,
    pub align: u16,
}

// Where the entry stands, seen from the base, or from the extensions where `ext` holds.
pub fn extent_of(frame: Frame, ext: bool, e: [u8; 11]) -> Extent
    ensures { ExtentIs frame.is_record frame.base ext e result }
{
    Extent {
        other: ext != past_base(frame, e),
        off: off_of(e),
        end: end_of(e),
    }
}

// The entry's id, whether it is padding, and its alignment inside a struct, or 0 where the sheet has none.
pub fn class_of(sheet: &[u16; 520], e: [u8; 11]) -> Class
    ensures { ClassIs sheet.now e result }
{
    Class {
        id: id_of(e),
        padding: is_padding(sheet, e),
        align: member_align(sheet, e),
    }
}

// The first of rules 71 to 80 that the entry breaks. `aligns` has the alignment of each struct; `seen` says that
// the entry's id came before.
pub fn check_field(
    sheet: &[u16; 520],
    aligns: &[u16],
    frame: Frame,
    seen: bool,
    e: [u8; 11],
) -> Option<u32>
    ensures { result ≡ fault (field_fault sheet.now frame.width frame.labels aligns.now frame.is_record frame.base seen e) }
{
    if breaks_71(sheet, seen, e) {
        Some(refusal::ID_TWICE)
    } else if breaks_72(sheet, frame, e) {
        Some(refusal::STRUCT_IN_STRUCT)
    } else if breaks_73(sheet, aligns, frame, e) {
        Some(refusal::DEF_INDEX)
    } else if breaks_74(sheet, aligns, e) {
        Some(refusal::MISALIGNED)
    } else if size_of(e) == 0 {
        Some(refusal::SIZE_ZERO)
    } else if breaks_76(sheet, e) {
        Some(refusal::DECIMAL_SCALE)
    } else if breaks_77(sheet, frame, e) {
        Some(refusal::SYMBOL_WIDTH)
    } else if 65535 < end_of(e) {
        Some(refusal::FIELD_END)
    } else if breaks_79(sheet, frame, e) {
        Some(refusal::EXTENSION_MARK)
    } else if breaks_80(frame, e) {
        Some(refusal::PAST_BASE)
    } else {
        None
    }
}

// ---- numbers

fn wide16(x: u16) -> usize
    ensures { (result ≡ x) × (result < 65536) }
{
    x as usize
}

fn pair(lo: u8, hi: u8) -> usize
    ensures { (result ≡ lo + 256 * hi) × (result < 65536) }
{
    numbers::wide(lo) + 256 * numbers::wide(hi)
}

// ---- the parts of an entry

fn id_of(e: [u8; 11]) -> u16
    ensures { result ≡ id_of e }
{
    pair(e[0], e[1]) as u16
}

fn off_of(e: [u8; 11]) -> usize
    ensures { (result ≡ off_of e) × (result < 65536) }
{
    pair(e[2], e[3])
}

fn size_of(e: [u8; 11]) -> usize
    ensures { (result ≡ size_of e) × (result < 65536) }
{
    pair(e[4], e[5])
}

// One past the field's last byte.
fn end_of(e: [u8; 11]) -> usize
    ensures { (result ≡ end_of e) × (result < 131072) }
{
    off_of(e) + size_of(e)
}

fn type_of(e: [u8; 11]) -> usize
    ensures { (result ≡ type_of e) × (result < 256) }
{
    numbers::wide(e[6])
}

fn def_of(e: [u8; 11]) -> usize
    ensures { (result ≡ def_of e) × (result < 65536) }
{
    pair(e[8], e[9])
}

// ---- what the sheet says of an entry

fn is_padding(sheet: &[u16; 520], e: [u8; 11]) -> bool
    ensures { result ≡ is_padding sheet.now e }
{
    type_of(e) == wide16(sheet[515])
}

fn is_struct(sheet: &[u16; 520], e: [u8; 11]) -> bool
    ensures { result ≡ is_struct sheet.now e }
{
    type_of(e) == wide16(sheet[512])
}

fn is_symbol(sheet: &[u16; 520], e: [u8; 11]) -> bool
    ensures { result ≡ is_symbol sheet.now e }
{
    type_of(e) == wide16(sheet[513])
}

fn is_decimal(sheet: &[u16; 520], e: [u8; 11]) -> bool
    ensures { result ≡ is_decimal sheet.now e }
{
    type_of(e) == wide16(sheet[514])
}

fn names_label(sheet: &[u16; 520], e: [u8; 11]) -> bool
    ensures { result ≡ names_label sheet.now e }
{
    let label = 256 + type_of(e);
    sheet[label] != 0 && def_of(e) != wide16(sheet[517])
}

fn is_extension(sheet: &[u16; 520], e: [u8; 11]) -> bool
    ensures { result ≡ is_extension sheet.now e }
{
    let w = wide16(sheet[516]);
    if w == 0 {
        return false;
    }
    numbers::wide(e[7]) / w % 2 == 1
}

// Whether a record's entry stands at or past the base.
fn past_base(frame: Frame, e: [u8; 11]) -> bool
    ensures { result ≡ past_base frame.is_record frame.base e }
{
    frame.is_record && frame.base <= off_of(e)
}

// The alignment of an entry inside a struct, or 0 where the sheet has none.
fn member_align(sheet: &[u16; 520], e: [u8; 11]) -> u16
    ensures { result ≡ member_align sheet.now e }
{
    if is_padding(sheet, e) {
        return 1;
    }
    if is_struct(sheet, e) {
        return 1;
    }
    let t = type_of(e);
    sheet[t]
}

fn align_of(sheet: &[u16; 520], aligns: &[u16], e: [u8; 11]) -> usize
    ensures { result ≡ align_of sheet.now aligns.now e }
{
    if is_padding(sheet, e) {
        return 1;
    }
    if is_struct(sheet, e) {
        let d = def_of(e);
        if d < aligns.len() {
            return wide16(aligns[d]);
        }
        return 0;
    }
    let t = type_of(e);
    wide16(sheet[t])
}

// ---- rules 71 to 80

fn breaks_71(sheet: &[u16; 520], seen: bool, e: [u8; 11]) -> bool
    ensures { result ≡ breaks71 sheet.now seen e }
{
    !is_padding(sheet, e) && seen
}

fn breaks_72(sheet: &[u16; 520], frame: Frame, e: [u8; 11]) -> bool
    ensures { result ≡ breaks72 sheet.now frame.is_record e }
{
    is_struct(sheet, e) && !frame.is_record
}

fn breaks_73(sheet: &[u16; 520], aligns: &[u16], frame: Frame, e: [u8; 11]) -> bool
    ensures { result ≡ breaks73 sheet.now (length aligns.now) frame.labels e }
{
    let d = def_of(e);
    if is_struct(sheet, e) {
        return aligns.len() <= d;
    }
    names_label(sheet, e) && frame.labels <= d
}

fn breaks_74(sheet: &[u16; 520], aligns: &[u16], e: [u8; 11]) -> bool
    ensures { result ≡ breaks74 sheet.now aligns.now e }
{
    let a = align_of(sheet, aligns, e);
    if a <= 1 {
        return false;
    }
    off_of(e) % a != 0
}

fn breaks_76(sheet: &[u16; 520], e: [u8; 11]) -> bool
    ensures { result ≡ breaks76 sheet.now e }
{
    is_decimal(sheet, e) && e[10] != 247
}

fn breaks_77(sheet: &[u16; 520], frame: Frame, e: [u8; 11]) -> bool
    ensures { result ≡ breaks77 sheet.now frame.width e }
{
    is_symbol(sheet, e) && size_of(e) != frame.width
}

fn breaks_79(sheet: &[u16; 520], frame: Frame, e: [u8; 11]) -> bool
    ensures { result ≡ breaks79 sheet.now frame.is_record frame.base e }
{
    !is_padding(sheet, e) && is_extension(sheet, e) != past_base(frame, e)
}

fn breaks_80(frame: Frame, e: [u8; 11]) -> bool
    ensures { result ≡ breaks80 frame.is_record frame.base e }
{
    !past_base(frame, e) && frame.base < end_of(e)
}
