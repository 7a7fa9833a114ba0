ghost use Rattle.std.specs.Prelude.{◌≡◌, ◌≢◌, ◌≤◌, length, map, IfSome, IfNone};
ghost use Rattle.meta_types.specs.TypeParts.{TypeParts, IsType, name_of};
ghost use Rattle.meta_types.specs.TypeNumber.{IsNameOf, found_in, row_of, lane_length};

use super::lane::LANE_BASE;

/// How many bytes at the front of a name are the name of its lane: two of `i8`, four of `i128` and `f128`, else three.
fn lane_len(name: &[u8]) -> usize
    ensures length { result ≡ lane_length name.now }
    ensures within { result ≤ length name.now }
{
    match name {
        [_, b'8', ..] => 2,
        [_, b'1', b'2', _, ..] => 4,
        [_, _, _, ..] => 3,
        _ => name.len(),
    }
}

/// The names of the lanes and their codes, in the order of the numbers of types.
const LANE_CODES: [(&str, u8); 9] = [
    ("i8", 4),
    ("i16", 5),
    ("i32", 6),
    ("i64", 7),
    ("i128", 8),
    ("f16", 9),
    ("f32", 10),
    ("f64", 11),
    ("f128", 12),
];

/// What comes after the lane in the names of scalars and fixed vectors, and the rows of their numbers.
const FIXED_ROWS: [(&str, u8); 9] = [
    ("", 0),
    ("x2", 1),
    ("x4", 2),
    ("x8", 3),
    ("x16", 4),
    ("x32", 5),
    ("x64", 6),
    ("x128", 7),
    ("x256", 8),
];

/// What comes after the lane in the names of dynamic vectors, and the rows of their numbers.
const DYNAMIC_ROWS: [(&str, u8); 8] = [
    ("x2xN", 9),
    ("x4xN", 10),
    ("x8xN", 11),
    ("x16xN", 12),
    ("x32xN", 13),
    ("x64xN", 14),
    ("x128xN", 15),
    ("x256xN", 16),
];

fn number_beside(rows: &[(&str, u8)], text: &[u8]) -> Option<u8>
    ensures { result ≡ found_in (map (λ row. (row.0.now, row.1)) rows.now) text.now }
{
    for (name, number) in rows {
        if text == name.as_bytes() {
            return Some(*number);
        }
    }
    None
}

/// The row of the types whose names have this text after the lane's name.
fn lanes_row(lanes: &[u8]) -> Option<u8>
    ensures { result ≡ row_of lanes.now }
{
    match number_beside(&FIXED_ROWS, lanes) {
        Some(row) => Some(row),
        None => number_beside(&DYNAMIC_ROWS, lanes),
    }
}

/// The number of the type with this name, such as `i32`, `i32x4` or `i32x4xN`. `None` exactly if no type has the name.
pub fn type_number(name: &[u8]) -> Option<u16>
    ensures found { IfSome result (λ n. IsNameOf name.now n) }
    ensures none { IfNone result ((t : TypeParts) → IsType t → name_of t ≢ name.now) }
{
    let (lane, lanes) = name.split_at(lane_len(name));
    let code = number_beside(&LANE_CODES, lane)?;
    let row = lanes_row(lanes)?;
    Some(LANE_BASE + u16::from(code) + 16 * u16::from(row))
}
