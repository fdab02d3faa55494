// Records to bytes and back.
ghost use Rattle.std.specs.Prelude.{◌≡◌, List, Option, length, min};
ghost use Rattle.records.specs.Bytes.{rec_bytes};
ghost use Rattle.records.specs.Recs.{model_of};
ghost use Rattle.records.specs.Sizes.{record_length};
ghost use Rattle.records.specs.declared.record.Record.{Record};
ghost use Rattle.measured.specs.Coding.{made_rec, varied_rec, mixed, encode_sum, Decodes, number_of, parts_sum, decode_sum, rec_told, part_told, ReadTold, OpenTold};
ghost use Rattle.measured.specs.Sinks.{Tells, written};

use crate::sink::Sink;
use journals::journal::Journal;
use records::codec::{RECORD_BYTES, decode, encode};
use records::record::{Entry, Record};
use records::row::Row;
use seats::seat::Seat;
use seats::set::SeatSet;
use std::alloc::Global;

// A factor that spreads the numbers from 0 on over all numbers: 2 to the 32nd by the golden ratio.
const SPREAD: u32 = 2654435769;

// A record of this kind, a Decision for a number that is none's.
pub(crate) fn made(kind: u8, transaction: u32, bits: u16) -> Record
    ensures { model_of result ≡ made_rec kind transaction bits }
{
    let entry = match (kind, Seat::new((bits % 16) as u8)) {
        (2, Some(seat)) => Entry::Vote(seat),
        (3, Some(seat)) => Entry::Kept(seat),
        (4, Some(seat)) => Entry::Undone(seat),
        _ => Entry::Decision(SeatSet::from_bits(bits)),
    };
    Record::new(transaction, entry)
}

// Record i of this kind, with seats that change from one to the next.
pub(crate) fn varied(kind: u8, i: u32) -> Record
    ensures { model_of result ≡ varied_rec kind i }
{
    made(kind, i, (i.wrapping_mul(SPREAD) >> 16) as u16)
}

// A sum with one more number in it, which depends on their order.
fn mix(sum: u64, number: u64) -> u64
    ensures { result ≡ mixed sum number }
{
    sum.wrapping_mul(31).wrapping_add(number)
}

// Encodes so many records of a kind; answers a sum over one byte of each.
#[unsafe(no_mangle)]
pub extern "C" fn measured_encode(kind: u8, rounds: u32) -> u64
    ensures { result ≡ encode_sum kind rounds }
{
    let mut sum = 0u64;
    for i in 0..rounds {
        let bytes = encode(&varied(kind, i));
        sum = mix(sum, u64::from(bytes[i as usize % RECORD_BYTES]));
    }
    sum
}

// Decodes all records of the bytes, so many times; answers a sum over what they say.
#[unsafe(no_mangle)]
pub extern "C" fn measured_decode(bytes: &[u8], rounds: u32) -> u64
    ensures { (os : List (Option Record)) → Decodes bytes.now os → result ≡ decode_sum rounds os }
{
    let mut sum = 0u64;
    for _ in 0..rounds {
        sum = decode_all(sum, bytes);
    }
    sum
}

// Goes on with the sum over all records of the bytes.
fn decode_all(before: u64, bytes: &[u8]) -> u64
    ensures { (os : List (Option Record)) → Decodes bytes.now os → result ≡ parts_sum before os }
{
    let mut sum = before;
    for part in bytes.chunks_exact(RECORD_BYTES) {
        sum = mix(sum, number(decode(part)));
    }
    sum
}

// A number for what bytes say, 0 where they are no record's.
fn number(read: Option<Record>) -> u64
    ensures { result ≡ number_of read }
{
    match read {
        Some(record) => {
            let row = Row::from(&record);
            u64::from(row.transaction) + u64::from(row.seats) + u64::from(row.kind)
        }
        None => 0,
    }
}

// Decodes all records of the bytes, and writes each: its kind, transaction and seats, or a zero. Answers how many bytes were written.
#[unsafe(no_mangle)]
pub extern "C" fn measured_read(bytes: &[u8], out: &mut [u8]) -> usize
    ensures { ReadTold bytes.now out.old out.new result }
{
    let mut sink = Sink::new(out);
    for part in bytes.chunks_exact(RECORD_BYTES) {
        put_part(&mut sink, decode(part));
    }
    sink.filled()
}

// A record, or a zero.
fn put_part(sink: &mut Sink<'_>, read: Option<Record>)
    ensures { Tells sink.old (part_told read) sink.new }
{
    match read {
        Some(record) => put_record(sink, &record),
        None => sink.put(0),
    }
}

// A record's kind, transaction and seats.
pub(crate) fn put_record(sink: &mut Sink<'_>, record: &Record)
    ensures { Tells sink.old (rec_told (model_of «record».now)) sink.new }
{
    let row = Row::from(record);
    sink.put(row.kind);
    sink.put_word(row.transaction);
    sink.put_short(usize::from(row.seats));
}

// Encodes one record, and writes its bytes. Answers how many were written.
#[unsafe(no_mangle)]
pub extern "C" fn measured_write(kind: u8, transaction: u32, bits: u16, out: &mut [u8]) -> usize
    ensures bytes { out.new ≡ written (rec_bytes (made_rec kind transaction bits)) out.old }
    ensures count { result ≡ min (length out.old) record_length }
{
    let mut sink = Sink::new(out);
    sink.put_all(&encode(&made(kind, transaction, bits)));
    sink.filled()
}

// Opens a journal over these bytes with so many records. Answers the count where it opened, and else the malformed record that it names.
#[unsafe(no_mangle)]
pub extern "C" fn measured_open(alloc: Global, bytes: &[u8], count: usize) -> usize
    ensures { OpenTold bytes.now count result }
{
    let mut copy = Vec::new(alloc);
    if copy.extend_from_slice(bytes).is_err() {
        return usize::MAX;
    }
    match Journal::open(copy, count) {
        Ok(_) => count,
        Err(malformed) => malformed.record,
    }
}
