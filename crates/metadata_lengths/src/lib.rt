// The lengths that a version gives to the parts of a block's header.
#![tactic(auto)]

ghost use Rattle.std.specs.Prelude.{◌≡◌};
ghost use Rattle.metadata_lengths.specs.Lengths.{lengths};

// How many bytes a version gives to the parts that differ, and whether it has a layout.
#[derive(Clone, Copy)]
pub struct MetadataLengths {
    pub dataset_cstr_len: usize,
    pub record_count_len: usize,
    pub symbol_cstr_len_len: usize,
    pub reserved_len: usize,
    pub has_layout: bool,
}

// The lengths of a version from 1 to 4.
pub fn lengths_of(version: u8) -> MetadataLengths
    ensures { result ≡ lengths version }
{
    match version {
        1 => MetadataLengths {
            dataset_cstr_len: 16,
            record_count_len: 8,
            symbol_cstr_len_len: 0,
            reserved_len: 47,
            has_layout: false,
        },
        4 => MetadataLengths {
            dataset_cstr_len: 38,
            record_count_len: 0,
            symbol_cstr_len_len: 2,
            reserved_len: 31,
            has_layout: true,
        },
        _ => MetadataLengths {
            dataset_cstr_len: 16,
            record_count_len: 0,
            symbol_cstr_len_len: 2,
            reserved_len: 53,
            has_layout: false,
        },
    }
}
