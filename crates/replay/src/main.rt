//! Replays recorded answers: reads the files `vectors`, `values`, `buffers` and `sets`, computes
//! each call anew, and prints for each call how many cases there are and how many of them differ.
//! It does the same with `wrong_vectors`, `wrong_values` and `wrong_buffers`, in each of whose
//! records one part of the answer is wrong: each has to differ, so that a comparison which is left
//! out shows. The records are described in src/vectors.rt, src/values.rt and src/buffers.rt;
//! oracle/README.md lists the calls and says what they were recorded from.
#![tactic(auto)]

mod buffers;
mod call;
mod counts;
mod record;
mod values;
mod vectors;

ghost use Rattle.std.specs.Prelude.{◌<◌, ◌≤◌, ◌^◌, length, IfOk};

use buffers::Buffers;
use call::Call;
use counts::Counts;
use record::Records;
use std::io::Read;
use std::rt::Files;
use std::{fs, io};
use values::Values;
use vectors::Vectors;

// How many bytes are read at a time, a whole number of records of each size, and how many times: a
// file is read to its end or up to 64 MiB.
const BLOCK: usize = 65536;

const BLOCKS: usize = 1024;

// Reads until the buffer is full or the file ends, and says how many bytes at its start were read.
fn read_full(file: &mut impl Read, buffer: &mut [u8]) -> io::Result<usize>
    ensures { IfOk result (λ n. n ≤ length buffer.new) }
{
    let mut done = 0;
    while done < buffer.len() {
        let n = file.read(&mut buffer[done..])?;
        if n == 0 {
            break;
        }
        done += n;
    }
    Ok(done)
}

// Adds each record of the file to the counts. Bytes at its end that are no whole record are left
// out.
fn replay_file<const SIZE: usize, R: Records<SIZE>>(
    file: &mut impl Read,
    records: R,
    counts: &mut Counts,
) -> io::Result<()>
    requires { (0 < SIZE) × (SIZE < 2 ^ 63) }
{
    let mut block = [0; BLOCK];
    for _ in 0..BLOCKS {
        let n = read_full(file, &mut block)?;
        if n == 0 {
            break;
        }
        let (whole, _) = block[..n].as_chunks::<SIZE>();
        for record in whole {
            counts.add(records.outcome(record));
        }
    }
    Ok(())
}

// Replays a file of records, if it is there; else standard error says why not.
fn replay<const SIZE: usize, R: Records<SIZE>>(
    rt: &(impl Files + Eprint),
    path: &str,
    records: R,
    counts: &mut Counts,
) -> io::Result<()>
    requires { (0 < SIZE) × (SIZE < 2 ^ 63) }
{
    match fs::open(rt, path) {
        Ok(mut file) => replay_file(&mut file, records, counts),
        Err(error) => eprintln!(rt; "{path}: {error}"),
    }
}

fn print_counts(rt: &impl Print, counts: &Counts) -> io::Result<()> {
    for call in Call::CHANNEL {
        println!(rt; "{call:<19} {}", counts.of(call))?;
    }
    for call in Call::PUBLIC {
        let count = counts.of(call);
        println!(rt; "{call:<28} {count}; {} refused", count.refused)?;
    }
    println!(rt; "{:<19} {}", "other calls", counts.others())
}

fn main(rt: HostRuntime) -> io::Result<()> {
    let mut counts = Counts::default();
    replay(&rt, "vectors", Vectors, &mut counts)?;
    replay(&rt, "values", Values, &mut counts)?;
    replay(&rt, "buffers", Buffers, &mut counts)?;
    replay(&rt, "sets", Buffers, &mut counts)?;
    print_counts(&rt, &counts)?;

    println!(rt; "wrong answers, each of which has to differ:")?;
    let mut wrong = Counts::default();
    replay(&rt, "wrong_vectors", Vectors, &mut wrong)?;
    replay(&rt, "wrong_values", Values, &mut wrong)?;
    replay(&rt, "wrong_buffers", Buffers, &mut wrong)?;
    print_counts(&rt, &wrong)
}
