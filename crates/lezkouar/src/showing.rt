// Prints the records of logs.
use crate::limits::MOST_FILE_BYTES;
use crate::refusal::Refusal;
use journals::journal::{Journal, Malformed};
use logs::listing::Records;
use logs::log::Log;
use records::codec::{RECORD_BYTES, encode};
use std::io::Read;
use std::{fs, io};
use wording::demonstration::{after_cut, sample};
use wording::text::Hex;

// Prints each record of a log: its number, its transaction, its kind and its seats.
pub(crate) fn print_records<L: Log>(rt: &HostRuntime, log: &L) -> io::Result<()> {
    for (i, record) in Records::over(log).enumerate() {
        println!(rt; "  record {i}: {record}")?;
    }
    Ok(())
}

// Prints two records in words and in bytes, and what is left of them after a power cut at each telling moment.
pub(crate) fn demonstrate(rt: &HostRuntime) -> Result<(), Refusal<'static>> {
    let heap = rt.alloc();
    println!(rt; "A journal gets two records. Neither is secured yet.")?;
    let journal = sample(heap)?;
    for (i, record) in Records::over(&journal).enumerate() {
        let bytes = encode(&record);
        let digits = Hex(&bytes);
        println!(rt; "  record {i}: {record}")?;
        println!(rt; "   {digits}")?;
    }
    println!(rt;
        "The power goes, and the journal is restarted. By how many bytes had reached the disk, it holds:"
    )?;
    for reached in [0, 21, 22, 43, 44] {
        let restarted = after_cut(heap, reached)?;
        let left = restarted.count();
        println!(rt; "{reached} bytes: {left} of 2 records")?;
        print_records(rt, &restarted)?;
    }
    let mut secured = sample(heap)?;
    secured.secure();
    secured.restart(0);
    let left = secured.count();
    println!(rt; "Secured before the power went, 0 bytes: {left} of 2 records")?;
    print_records(rt, &secured)?;
    Ok(())
}

// Prints the first records of a journal file.
pub(crate) fn inspect<'a>(
    rt: &HostRuntime,
    file: &'a str,
    count: usize,
) -> Result<(), Refusal<'a>> {
    let bytes = read_records(rt, file, count)?;
    let journal = Journal::open(bytes, count).map_err(|why| not_opened(file, &why))?;
    print_records(rt, &journal)?;
    Ok(())
}

// Reads no more of a file than so many records need, and no more than is read of any; but a byte in any case, since only reading tells that a folder can't be read.
fn read_records<'a>(rt: &HostRuntime, file: &'a str, count: usize) -> Result<Vec<u8>, Refusal<'a>> {
    let unread = |why| Refusal::Unread { file, why };
    let opened = fs::open(rt, file).map_err(unread)?;
    let needed = count
        .saturating_mul(RECORD_BYTES)
        .min(MOST_FILE_BYTES)
        .max(1);
    let mut bytes = Vec::new(rt.alloc());
    opened
        .take(u64::try_from(needed).unwrap_or(u64::MAX))
        .read_to_end(&mut bytes)
        .map_err(unread)?;
    Ok(bytes)
}

// Why the bytes of a file are no journal: a record breaks a rule, the file ends before it, or no more of it was read.
fn not_opened<'a>(file: &'a str, why: &Malformed) -> Refusal<'a> {
    let (fault, record) = (why.number(), why.record);
    if !why.is_outside() {
        Refusal::Malformed {
            file,
            fault,
            record,
        }
    } else if why.bytes.len() < MOST_FILE_BYTES {
        Refusal::Outside {
            file,
            fault,
            record,
        }
    } else {
        Refusal::LongFile(file)
    }
}
