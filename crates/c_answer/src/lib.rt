// What a C function gives for an answer of the feed: a number, and values in `out`.
#![tactic(auto)]

ghost use Rattle.std.specs.Prelude.{◌≡◌, ◌≤◌};
ghost use Rattle.std.proofs.lemmas.List.Edits.{sets};
ghost use Rattle.feed.specs.Feeding.{answer_number};
ghost use Rattle.c_texts.specs.Numbers.{bit};
ghost use Rattle.c_answer.specs.Numbers.{value_of, is_present, presence, fields_out, answer_out};

use block::{Fields, ReadError};
use feed::Answer;

// What an answer gives: its number, and its values in `out`.
pub fn put_answer(a: Result<Answer, ReadError>, out: &mut [u64; 20]) -> u32
    ensures { (result ≡ answer_number a) × (out.new ≡ answer_out a out.old) }
{
    match a {
        Ok(Answer::Needs(n)) => {
            out[18] = n as u64;
            0
        }
        Ok(Answer::Done(f)) => {
            put_fields(f, out);
            0
        }
        Err(ReadError::Refused(e)) => {
            c_texts::put_place(e, out);
            e.number
        }
        Err(ReadError::Short { symbology, layout }) => {
            out[10] = symbology as u64;
            out[11] = layout as u64;
            refusal::TABLE_SHORT
        }
    }
}

// A block's fields, over the first sixteen of `out`.
fn put_fields(f: Fields, out: &mut [u64; 20])
    ensures { out.new ≡ sets out.old 0 (fields_out f) }
{
    out[..16].copy_from_slice(&fields_out(f));
}

// A block's fields as sixteen numbers: 0 for what is absent, and which are present as bits at 12.
pub fn fields_out(f: Fields) -> [u64; 16]
    ensures { result ≡ fields_out f }
{
    let schema = f.schema;
    let end = f.end;
    let limit = f.limit;
    let stype_in = f.stype_in;
    [
        f.dataset_len as u64,
        value(schema),
        f.start,
        value(end),
        value(limit),
        value(stype_in),
        f.stype_out as u64,
        bit(f.ts_out),
        f.symbol_cstr_len as u64,
        f.layout_version as u64,
        f.symbology_rows as u64,
        f.layout_rows as u64,
        present_bits(schema, end, limit, stype_in),
        0,
        0,
        0,
    ]
}

// Which are present, as bits: 1, 2, 4, 8.
fn present_bits(
    schema: Option<u64>,
    end: Option<u64>,
    limit: Option<u64>,
    stype_in: Option<u64>,
) -> u64
    ensures { result ≡ presence schema end limit stype_in }
{
    present(schema) + 2 * present(end) + 4 * present(limit) + 8 * present(stype_in)
}

// The value, or 0 where it is absent.
fn value(o: Option<u64>) -> u64
    ensures { result ≡ value_of o }
{
    o.unwrap_or(0)
}

// 1 where there is a value, else 0.
fn present(o: Option<u64>) -> u64
    ensures { (result ≡ is_present o) × (result ≤ 1) }
{
    bit(o.is_some())
}

// 1 for true, 0 for false.
fn bit(x: bool) -> u64
    ensures { result ≡ bit x }
{
    if x { 1 } else { 0 }
}
