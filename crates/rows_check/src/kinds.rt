// The kinds of layout rows.
pub const RECORD: usize = 10;

pub const FIELD: usize = 11;

pub const FIELD_NAME: usize = 12;

pub const STRUCT: usize = 13;

pub const LABEL_DEF: usize = 14;

pub const LABEL: usize = 15;
