// The hash of a key's name, as `lh` lists store it beside each key's offset.
#![tactic(auto)]

ghost use Rattle.std.specs.Prelude.{◌≡◌, ◌+◌, ◌*◌, ◌%◌, ◌^◌};
ghost use Rattle.name_hash.specs.Characters.{between, upper_of, character_of};
ghost use Rattle.name_hash.specs.Hash.{hash_of, name_hash_of, hash_paper};

use words::{Reason, Refusal};

// The upper case of each character below 256.
const UPPER: [u16; 256] = [
    0, 1, 2, 3, 4, 5, 6, 7, 8, 9, 10, 11, 12, 13, 14, 15, 16, 17, 18, 19, 20, 21, 22, 23, 24, 25,
    26, 27, 28, 29, 30, 31, 32, 33, 34, 35, 36, 37, 38, 39, 40, 41, 42, 43, 44, 45, 46, 47, 48, 49,
    50, 51, 52, 53, 54, 55, 56, 57, 58, 59, 60, 61, 62, 63, 64, 65, 66, 67, 68, 69, 70, 71, 72, 73,
    74, 75, 76, 77, 78, 79, 80, 81, 82, 83, 84, 85, 86, 87, 88, 89, 90, 91, 92, 93, 94, 95, 96, 65,
    66, 67, 68, 69, 70, 71, 72, 73, 74, 75, 76, 77, 78, 79, 80, 81, 82, 83, 84, 85, 86, 87, 88, 89,
    90, 123, 124, 125, 126, 127, 128, 129, 130, 131, 132, 133, 134, 135, 136, 137, 138, 139, 140,
    141, 142, 143, 144, 145, 146, 147, 148, 149, 150, 151, 152, 153, 154, 155, 156, 157, 158, 159,
    160, 161, 162, 163, 164, 165, 166, 167, 168, 169, 170, 171, 172, 173, 174, 175, 176, 177, 178,
    179, 180, 181, 182, 183, 184, 185, 186, 187, 188, 189, 190, 191, 192, 193, 194, 195, 196, 197,
    198, 199, 200, 201, 202, 203, 204, 205, 206, 207, 208, 209, 210, 211, 212, 213, 214, 215, 216,
    217, 218, 219, 220, 221, 222, 223, 192, 193, 194, 195, 196, 197, 198, 199, 200, 201, 202, 203,
    204, 205, 206, 207, 208, 209, 210, 211, 212, 213, 214, 247, 216, 217, 218, 219, 220, 221, 222,
    376,
];

// Whether a character lies in a range; both ends belong to it.
fn between(first: u16, last: u16, character: u16) -> bool
    ensures { result ≡ between first last character }
{
    (first..=last).contains(&character)
}

// The upper-case character: below 256 the table's; above it the Cyrillic letters а to я are 32 less, ѐ to џ 80 less.
fn upper(character: u16) -> u16
    ensures { result ≡ upper_of character }
{
    if character < 256 {
        return UPPER[character as usize];
    }
    if between(1072, 1103, character) {
        return character - 32;
    }
    if between(1104, 1119, character) {
        return character - 80;
    }
    character
}

// The hash with one character more: the remainder of the exact sum.
fn step(hash: u32, character: u16) -> u32
    ensures { result ≡ (hash * 37 + upper_of character) % 2 ^ 32 }
{
    hash.wrapping_mul(37)
        .wrapping_add(u32::from(upper(character)))
}

// Character `i` of a name: a unit of 16 bits, or a byte, as the key's flag says (a bool in the definition `character_of` too). The unit stands at twice `i`, a sum that need not fit, hence the two steps.
fn character(name: &[u8], units: bool, i: usize) -> u16
    ensures { result ≡ character_of units name.now i }
{
    if units {
        let rest = words::from(name, i);
        words::u16_at(rest, i)
    } else {
        u16::from(words::byte_at(name, i))
    }
}

// The hash of so many characters of a name.
fn hash_characters(name: &[u8], units: bool, count: usize) -> u32
    ensures { result ≡ hash_of upper_of (character_of units name.now) count }
{
    let mut hash: u32 = 0;
    for i in 0..count {
        hash = step(hash, character(name, units, i));
    }
    hash
}

// The hash of a key's name, given with the key's flags: these say whether the name is in bytes or in units of 16 bits.
pub fn name_hash(flags: u16, name: &[u8]) -> Result<u32, Refusal>
    ensures { hash_paper result ≡ name_hash_of flags name.now }
{
    if flags / 32 % 2 == 1 {
        return Ok(hash_characters(name, false, name.len()));
    }
    if name.len() % 2 == 1 {
        return Err(Refusal {
            reason: Reason::BadName,
            position: 0,
        });
    }
    Ok(hash_characters(name, true, name.len() / 2))
}
