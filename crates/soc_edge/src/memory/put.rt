//! Writes at a place of bytes that have room for them.
ghost use Rattle.std.specs.Prelude.{◌≡◌, ◌+◌, ◌-◌, ◌≤◌, ◌++◌, length, take, drop, replicate, vec_len, vec_capacity};
ghost use Rattle.soc_edge.specs.Disk.{written};

/// Adds zeros up to a length.
fn fill_to(bytes: &mut Vec<u8>, end: usize)
    requires { end ≤ vec_capacity bytes.old }
    ensures filled { bytes.new.items ≡ bytes.old.items ++ replicate (end - vec_len bytes.old) 0 }
    ensures room { vec_capacity bytes.old ≤ vec_capacity bytes.new }
{
    while bytes.len() < end {
        bytes.push(0).unwrap();
    }
}

/// Writes over what is there, and on past the end.
fn overwrite(bytes: &mut Vec<u8>, place: usize, piece: &[u8])
    requires within { place ≤ vec_len bytes.old }
    requires room { place + length piece.now ≤ vec_capacity bytes.old }
    ensures written { bytes.new.items ≡ take place bytes.old.items
        ++ (piece.now ++ drop (place + length piece.now) bytes.old.items) }
    ensures room { vec_capacity bytes.old ≤ vec_capacity bytes.new }
{
    let inside = piece.len().min(bytes.len() - place);
    bytes[place..place + inside].copy_from_slice(&piece[..inside]);
    append(bytes, &piece[inside..]);
}

/// Puts bytes at a place, behind zeros where it lies past the end.
pub fn put(bytes: &mut Vec<u8>, place: usize, piece: &[u8])
    requires { place + length piece.now ≤ vec_capacity bytes.old }
    ensures written { bytes.new.items ≡ written bytes.old.items place piece.now }
    ensures room { vec_capacity bytes.old ≤ vec_capacity bytes.new }
{
    if piece.is_empty() {
        return;
    }
    fill_to(bytes, place);
    overwrite(bytes, place, piece);
}

/// Adds bytes at the end.
pub fn append(bytes: &mut Vec<u8>, piece: &[u8])
    requires { vec_len bytes.old + length piece.now ≤ vec_capacity bytes.old }
    ensures items { bytes.new.items ≡ bytes.old.items ++ piece.now }
    ensures len { vec_len bytes.new ≡ vec_len bytes.old + length piece.now }
    ensures room { vec_capacity bytes.old ≤ vec_capacity bytes.new }
{
    bytes.extend_from_slice(piece).unwrap();
}
