//! What a stop leaves of a disk in memory.
ghost use Rattle.std.specs.Prelude.{◌≡◌, ◌+◌, ◌-◌, ◌/◌, ◌%◌, ◌≤◌, [], ◌++◌, length, take, drop, map, vec_capacity, if◌then◌else◌};
ghost use Rattle.soc_edge.specs.Disk.{written};
ghost use Rattle.soc_edge.specs.inner.DiskEntries.{bytes_of, syncs_of, AllEnd, log_of};
ghost use Rattle.soc_edge.specs.DiskLog.{flipped, torn, stopped, ways};

use super::disk::DiskStep;
use super::put::put;

// How many syncs there are.
fn count_syncs(log: &[DiskStep]) -> usize
    ensures { result ≡ syncs_of log.now }
{
    let mut syncs = 0;
    let mut rest = log;
    while let [entry, later @ ..] = rest {
        if let DiskStep::Sync = entry {
            syncs += 1;
        }
        rest = later;
    }
    syncs
}

// Makes each byte differ in each bit.
fn flip(bytes: &mut [u8])
    ensures { bytes.new ≡ map flipped bytes.old }
{
    for byte in bytes.iter_mut() {
        *byte = 255 - *byte;
    }
}

// Flips so many bytes from a place on.
fn flip_at(bytes: &mut [u8], place: usize, count: usize)
    requires { place + count ≤ length bytes.old }
    ensures { bytes.new ≡ take place bytes.old
        ++ (map flipped (take count (drop place bytes.old)) ++ drop (place + count) bytes.old) }
{
    flip(&mut bytes[place..place + count]);
}

// Puts flipped bytes at a place.
fn put_flipped(image: &mut Vec<u8>, place: usize, piece: &[u8])
    requires { place + length piece.now ≤ vec_capacity image.old }
    ensures written { image.new.items ≡ written image.old.items place (map flipped piece.now) }
    ensures room { vec_capacity image.old ≤ vec_capacity image.new }
{
    put(image, place, piece);
    if !piece.is_empty() {
        flip_at(image, place, piece.len());
    }
}

// What a stop does to a write that no sync has settled.
fn tear(image: &mut Vec<u8>, choice: u64, place: usize, piece: &[u8])
    requires { place + length piece.now ≤ vec_capacity image.old }
    ensures torn { image.new.items ≡ torn choice place piece.now image.old.items }
    ensures room { vec_capacity image.old ≤ vec_capacity image.new }
{
    match choice {
        0 => {}
        1 => put(image, place, piece),
        2 => put(image, place, &piece[..piece.len() / 2]),
        _ => put_flipped(image, place, piece),
    }
}

// Plays a write: a settled one is made, and one that isn't takes a digit of the choice. It answers what is left of it.
fn play_write(image: &mut Vec<u8>, is_settled: bool, choice: u64, place: usize, piece: &[u8]) -> u64
    requires { place + length piece.now ≤ vec_capacity image.old }
    ensures image { image.new.items ≡ (if is_settled then written image.old.items place piece.now
        else torn (choice % ways) place piece.now image.old.items) }
    ensures choice { result ≡ (if is_settled then choice else choice / ways) }
    ensures room { vec_capacity image.old ≤ vec_capacity image.new }
{
    if is_settled {
        put(image, place, piece);
        return choice;
    }
    tear(image, choice % 4, place, piece);
    choice / 4
}

/// Plays a log, whose bytes stand one after another, on the content that a disk began with, as a stop leaves it.
pub fn play(image: &mut Vec<u8>, log: &[DiskStep], written: &[u8], first_choice: u64)
    requires ends { AllEnd (vec_capacity image.old) log.now }
    requires counted { bytes_of log.now ≤ length written.now }
    ensures image { image.new.items ≡ (stopped image.old.items
        (log_of [] log.now written.now) first_choice).image }
    ensures room { vec_capacity image.old ≤ vec_capacity image.new }
{
    let mut syncs = count_syncs(log);
    let mut choice = first_choice;
    let mut rest = log;
    let mut bytes = written;
    while let [entry, later @ ..] = rest {
        match entry {
            DiskStep::Write { place, count } => {
                choice = play_write(image, syncs > 0, choice, *place, &bytes[..*count]);
                bytes = &bytes[*count..];
            }
            DiskStep::Sync => syncs -= 1,
        }
        rest = later;
    }
}
