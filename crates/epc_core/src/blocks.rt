//! Blocks of equally many bytes, compared by words.
ghost use Rattle.std.specs.Prelude.{◌≡◌, ◌+◌, ◌-◌, ◌%◌, ◌<◌, ◌≤◌, length, take};
ghost use Rattle.std.specs.Cmp.Lexicographic.{slice_cmp};
ghost use Rattle.std.specs.Ordering.{nat_cmp};
ghost use Rattle.epc_core.specs.Blocks.{word_number};

use std::cmp::Ordering;

/// How two blocks of equally many bytes compare, byte by byte from the left. Their number is even.
///
/// Words of 8 bytes are read as numbers, which compare as their bytes do. Always inlined, so that the constant length
/// of an array leaves no loop.
#[inline(always)]
pub(crate) fn compare_blocks(block: &[u8], other: &[u8]) -> Ordering
    requires same { length block.now ≡ length other.now }
    requires even { length block.now % 2 ≡ 0 }
    ensures { result ≡ slice_cmp nat_cmp block.now other.now }
{
    let (number, other_number) = first_difference(block, other);
    number.cmp(&other_number)
}

/// Numbers that compare as two blocks do: those of the first words that differ.
#[inline(always)]
fn first_difference(block: &[u8], other: &[u8]) -> (u64, u64)
    requires same { length block.now ≡ length other.now }
    requires even { length block.now % 2 ≡ 0 }
    ensures { nat_cmp result.0 result.1 ≡ slice_cmp nat_cmp block.now other.now }
{
    let words = block.len() / 8;
    for index in 0..words {
        let number = number_of_eight(block, 8 * index);
        let other_number = number_of_eight(other, 8 * index);
        if number != other_number {
            return (number, other_number);
        }
    }
    difference_in_eight(block, other, 8 * words)
}

/// The same, where fewer than 8 bytes are left from a place on and those before are alike.
#[inline(always)]
fn difference_in_eight(block: &[u8], other: &[u8], place: usize) -> (u64, u64)
    requires same { length block.now ≡ length other.now }
    requires within { place ≤ length block.now }
    requires even { (length block.now - place) % 2 ≡ 0 }
    requires few { length block.now < place + 8 }
    requires alike { take place block.now ≡ take place other.now }
    ensures { nat_cmp result.0 result.1 ≡ slice_cmp nat_cmp block.now other.now }
{
    if block.len() - place < 4 {
        return difference_in_four(block, other, place);
    }
    let number = number_of_four(block, place);
    let other_number = number_of_four(other, place);
    if number != other_number {
        return (number, other_number);
    }
    difference_in_four(block, other, place + 4)
}

/// The same, where fewer than 4 bytes are left.
#[inline(always)]
fn difference_in_four(block: &[u8], other: &[u8], place: usize) -> (u64, u64)
    requires same { length block.now ≡ length other.now }
    requires within { place ≤ length block.now }
    requires even { (length block.now - place) % 2 ≡ 0 }
    requires few { length block.now < place + 4 }
    requires alike { take place block.now ≡ take place other.now }
    ensures { nat_cmp result.0 result.1 ≡ slice_cmp nat_cmp block.now other.now }
{
    if place == block.len() {
        return (0, 0);
    }
    (number_of_two(block, place), number_of_two(other, place))
}

/// The 8 bytes from a place on as a number, the first byte the highest.
#[inline(always)]
fn number_of_eight(block: &[u8], place: usize) -> u64
    requires { place + 8 ≤ length block.now }
    ensures { result ≡ word_number 8 place block.now }
{
    u64::from_be_bytes([
        block[place],
        block[place + 1],
        block[place + 2],
        block[place + 3],
        block[place + 4],
        block[place + 5],
        block[place + 6],
        block[place + 7],
    ])
}

/// The 4 bytes from a place on as a number.
#[inline(always)]
fn number_of_four(block: &[u8], place: usize) -> u64
    requires { place + 4 ≤ length block.now }
    ensures { result ≡ word_number 4 place block.now }
{
    u64::from(u32::from_be_bytes([
        block[place],
        block[place + 1],
        block[place + 2],
        block[place + 3],
    ]))
}

/// The 2 bytes from a place on as a number.
#[inline(always)]
fn number_of_two(block: &[u8], place: usize) -> u64
    requires { place + 2 ≤ length block.now }
    ensures { result ≡ word_number 2 place block.now }
{
    u64::from(u16::from_be_bytes([block[place], block[place + 1]]))
}
