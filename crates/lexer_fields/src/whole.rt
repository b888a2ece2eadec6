// The call: the parts are counted first where their items might not fit, then written.
ghost use Rattle.std.specs.Prelude.{◌≡◌};
ghost use Rattle.laws.specs.Lent.{written};
ghost use Rattle.lexer_fields.specs.Fields.{fields_in, rows_from, records_in, texts_in, fields_call, deliver_fields, fields_of};
ghost use Rattle.lexer_fields.specs.Answers.{answer_of, total_of, IsCut, Fine, Room, AllKnown};

use crate::ends::{all_known, cut};
use crate::rows::{ROW, put_row};
use crate::single::{count_part, write_part};
use crate::{EndsCutting, FieldsError, Total};
use items::RECORD_WORDS;
use items::modes::REPORT;
use refusal::LIMIT;

// The parts of a source: the places where they end, whether each is known to be UTF-8, and how they are read.
#[derive(Clone, Copy)]
struct Parts<'a> {
    source: &'a [u8],
    ends: &'a [u32],
    known: bool,
    mode: u32,
    skip: bool,
}

// What the parts need together.
fn count(parts: Parts<'_>) -> Total
    requires fine { Fine parts.source.now parts.ends.now parts.mode }
    requires all_known { AllKnown parts.known parts.source.now parts.ends.now parts.mode parts.skip }
    ensures { result ≡ total_of (fields_in parts.entry.source.now parts.entry.ends.now parts.entry.mode parts.entry.skip) }
{
    let mut from: usize = 0;
    let mut n: usize = 0;
    let mut free: usize = 0;
    for place in parts.ends {
        let end = *place as usize;
        let p = count_part(
            &parts.source[from..end],
            parts.known,
            parts.mode,
            parts.skip,
        );
        n += p.items;
        free += p.text;
        from = end;
    }
    Total {
        items: n,
        text: free,
    }
}

// Writes the parts' rows, records and decoded texts; answers how many records and bytes those are.
fn write(parts: Parts<'_>, rows: &mut [u32], recs: &mut [u32], text: &mut [u8]) -> Total
    requires fine { Fine parts.source.now parts.ends.now parts.mode }
    requires all_known { AllKnown parts.known parts.source.now parts.ends.now parts.mode parts.skip }
    requires room { Room parts.source.now parts.ends.now parts.mode parts.skip rows.old recs.old text.old }
    ensures value { result ≡ total_of (fields_in parts.entry.source.now parts.entry.ends.now parts.entry.mode parts.entry.skip) }
    ensures rows_after { rows.new ≡ written (rows_from 0 0 (fields_in parts.entry.source.now parts.entry.ends.now parts.entry.mode parts.entry.skip)) rows.old }
    ensures recs_after { recs.new ≡ written (records_in (fields_in parts.entry.source.now parts.entry.ends.now parts.entry.mode parts.entry.skip)) recs.old }
    ensures text_after { text.new ≡ written (texts_in (fields_in parts.entry.source.now parts.entry.ends.now parts.entry.mode parts.entry.skip)) text.old }
{
    let mut from: usize = 0;
    let mut n: usize = 0;
    let mut w: usize = 0;
    let mut free: usize = 0;
    for (i, place) in parts.ends.iter().enumerate() {
        let end = *place as usize;
        let part = &parts.source[from..end];
        let p = write_part(
            part,
            parts.known,
            parts.mode,
            parts.skip,
            &mut recs[w..],
            &mut text[free..],
        );
        put_row(&mut rows[i * ROW..], n as u32, free as u32, p.mark, p.place);
        n += p.items;
        w = n * RECORD_WORDS;
        free += p.text;
        from = end;
    }
    Total {
        items: n,
        text: free,
    }
}

// The parts into lent memory, if they fit: they are counted first.
fn deliver_counted(
    parts: Parts<'_>,
    rows: &mut [u32],
    recs: &mut [u32],
    text: &mut [u8],
) -> Result<Total, FieldsError>
    requires fine { Fine parts.source.now parts.ends.now parts.mode }
    requires all_known { AllKnown parts.known parts.source.now parts.ends.now parts.mode parts.skip }
    ensures { fields_call (answer_of result) rows.new recs.new text.new
        ≡ deliver_fields (fields_in parts.entry.source.now parts.entry.ends.now parts.entry.mode parts.entry.skip) rows.old recs.old text.old }
{
    let needed = count(parts);
    if rows.len() / ROW < parts.ends.len()
        || recs.len() / RECORD_WORDS < needed.items
        || text.len() < needed.text
    {
        return Err(FieldsError::NoRoom(needed));
    }
    write(parts, rows, recs, text);
    Ok(needed)
}

// The parts into lent memory, if they fit. Where there is a row for each part, and a record and a byte of text memory for each byte of
// the source, they do, and nothing is counted.
fn deliver(
    parts: Parts<'_>,
    rows: &mut [u32],
    recs: &mut [u32],
    text: &mut [u8],
) -> Result<Total, FieldsError>
    requires fine { Fine parts.source.now parts.ends.now parts.mode }
    requires all_known { AllKnown parts.known parts.source.now parts.ends.now parts.mode parts.skip }
    ensures { fields_call (answer_of result) rows.new recs.new text.new
        ≡ deliver_fields (fields_in parts.entry.source.now parts.entry.ends.now parts.entry.mode parts.entry.skip) rows.old recs.old text.old }
{
    if rows.len() / ROW < parts.ends.len()
        || recs.len() / RECORD_WORDS < parts.source.len()
        || text.len() < parts.source.len()
    {
        return deliver_counted(parts, rows, recs, text);
    }
    Ok(write(parts, rows, recs, text))
}

// The parts into lent memory, if the source is not too long and they fit; whether no end lies inside a character is known.
fn deliver_cut(
    source: &[u8],
    ends: &[u32],
    clean: bool,
    mode: u32,
    skip: bool,
    rows: &mut [u32],
    recs: &mut [u32],
    text: &mut [u8],
) -> Result<Total, FieldsError>
    requires { IsCut clean source.now ends.now mode }
    ensures { fields_call (answer_of result) rows.new recs.new text.new
        ≡ fields_of source.now ends.now mode skip rows.old recs.old text.old }
{
    if LIMIT < source.len() {
        return Err(FieldsError::TooLong);
    }
    let parts = Parts {
        source,
        ends,
        known: all_known(source, clean),
        mode,
        skip,
    };
    deliver(parts, rows, recs, text)
}

// Each part of a source as a text of its own: a row for each part, and their records and decoded texts, in lent memory. Part i goes from
// the end before it to `ends[i]`. Mode 0 is plain and 1 report; comments are left out where `skip` is true.
pub fn read_fields(
    source: &[u8],
    ends: &[u32],
    mode: u32,
    skip: bool,
    rows: &mut [u32],
    recs: &mut [u32],
    text: &mut [u8],
) -> Result<Total, FieldsError>
    ensures { fields_call (answer_of result) rows.new recs.new text.new
        ≡ fields_of source.now ends.now mode skip rows.old recs.old text.old }
{
    if REPORT < mode {
        return Err(FieldsError::NoMode(mode));
    }
    match cut(source, ends) {
        EndsCutting::Disordered => Err(FieldsError::BadEnds),
        EndsCutting::Inside => deliver_cut(source, ends, false, mode, skip, rows, recs, text),
        EndsCutting::Between => deliver_cut(source, ends, true, mode, skip, rows, recs, text),
    }
}
