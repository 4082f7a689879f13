//! Word 3 of a sparse cell: the bytes of six slots and the order word, which names the children's slots in ascending
//! order of their bytes, as base-6 digits.

ghost use Rattle.std.specs.Prelude.{◌≡◌, ◌+◌, ◌*◌, ◌/◌, ◌%◌, ◌^◌, ◌<◌, None, slice_get, slice_index, length, ◌==◌};
ghost use Rattle.std.specs.List.{position_from};
ghost use Rattle.cell_layout.specs.Words.{byte_of, with_byte};
ghost use Rattle.cell_layout.specs.Slots.{slot_at, slots_of, slot_bytes, child_count, number_of, digits, insert_slot, word_with, IsSparse, AddsChild};

/// The slot of the child under the byte, or None where the node has no such child.
pub fn sparse_find(word: u64, byte: u8) -> Option<u8>
    ensures { result ≡ slot_at word byte }
{
    match first_slot(word, byte) {
        Some(slot) if slot < sparse_count(word) => Some(slot),
        _ => None,
    }
}

/// The first of the six slots that has the byte, taken or free.
#[tactic(auto, unfolding(crate::specs::Slots::slot_bytes))]
fn first_slot(word: u64, byte: u8) -> Option<u8>
    ensures { result ≡ position_from (λ x. x == byte) 0 (slot_bytes word) }
{
    let byte = byte as u64;
    if word % 0x100 == byte {
        Some(0)
    } else if (word >> 8) % 0x100 == byte {
        Some(1)
    } else if (word >> 16) % 0x100 == byte {
        Some(2)
    } else if (word >> 24) % 0x100 == byte {
        Some(3)
    } else if (word >> 32) % 0x100 == byte {
        Some(4)
    } else if (word >> 40) % 0x100 == byte {
        Some(5)
    } else {
        None
    }
}

/// The number of children: the number of base-6 digits of the order word, 2 to 6 in a node.
pub fn sparse_count(word: u64) -> u8
    ensures { result ≡ child_count word }
{
    match word >> 48 {
        0 => 0,
        1..=5 => 1,
        6..=35 => 2,
        36..=215 => 3,
        216..=1_295 => 4,
        1_296..=7_775 => 5,
        7_776..=46_655 => 6,
        _ => 7,
    }
}

/// The byte and the slot of a child, by its place in ascending order of the bytes, from 0.
#[tactic(auto, unfolding(crate::specs::Slots::slots_of))]
pub fn sparse_ordered(word: u64, place: u8) -> (u8, u8)
    requires { place < child_count word }
    ensures slot { slice_get (slots_of word) place ≡ Some result.1 }
    ensures byte { result.0 ≡ byte_of word result.1 }
{
    let slot = digit(word >> 48, place);
    (((word >> (8 * slot as u32)) % 0x100) as u8, slot)
}

/// A base-6 digit of an order word, the least at place 0.
fn digit(order: u64, place: u8) -> u8
    requires fits { order < 2 ^ 16 }
    requires there { place < length (digits 7 order) }
    ensures value { slice_get (digits 7 order) place ≡ Some result }
    ensures small { result < 6 }
{
    let higher = match place {
        0 => order,
        1 => order / 6,
        2 => order / 36,
        3 => order / 216,
        4 => order / 1_296,
        5 => order / 7_776,
        _ => order / 46_656,
    };
    (higher % 6) as u8
}

/// The word with a child more, and the child's slot, which is the least free one. The other children stay where they
/// are; only the order word changes for them.
#[tactic(auto, unfolding(crate::specs::Slots::slots_of))]
pub fn sparse_add(word: u64, byte: u8) -> (u64, u8)
    requires { child_count word < 6 }
    ensures word { result.0 ≡ word_with word byte }
    ensures slot { result.1 ≡ child_count word }
    ensures child { IsSparse word → slot_at word byte ≡ None → AddsChild word result.0 byte }
{
    let slot = sparse_count(word);
    let order = order_with(word, byte, slot, word >> 48, 7);
    let bytes = set_byte(word % 0x1_0000_0000_0000, slot, byte);
    (bytes + order * 0x1_0000_0000_0000, slot)
}

/// The order word with the slot before the first slot of a greater byte; `order` has at most `left` digits.
fn order_with(word: u64, byte: u8, slot: u8, order: u64, left: u8) -> u64
    requires small { slot < 6 }
    requires enough { order < 6 ^ left }
    requires fits { order < 2 ^ 16 }
    ensures value { result ≡ number_of (insert_slot word byte slot (digits left order)) }
    ensures none { order ≡ 0 → result < 6 }
    ensures bound { 0 < order → result < 36 * order }
{
    if left == 0 || order == 0 {
        return slot as u64;
    }
    let first = order % 6;
    if (byte as u64) < (word >> (8 * first as u32)) % 0x100 {
        slot as u64 + 6 * order
    } else {
        first + 6 * order_with(word, byte, slot, order / 6, left - 1)
    }
}

/// The six low bytes with one of them changed.
fn set_byte(word: u64, slot: u8, byte: u8) -> u64
    requires small { slot < 6 }
    requires fits { word < 2 ^ 48 }
    ensures value { result ≡ with_byte word slot byte }
    ensures fits { result < 2 ^ 48 }
{
    let byte = byte as u64;
    match slot {
        0 => word / 0x100 * 0x100 + byte,
        1 => word / 0x1_0000 * 0x1_0000 + byte * 0x100 + word % 0x100,
        2 => word / 0x100_0000 * 0x100_0000 + byte * 0x1_0000 + word % 0x1_0000,
        3 => word / 0x1_0000_0000 * 0x1_0000_0000 + byte * 0x100_0000 + word % 0x100_0000,
        4 => word / 0x100_0000_0000 * 0x100_0000_0000 + byte * 0x1_0000_0000 + word % 0x1_0000_0000,
        _ => byte * 0x100_0000_0000 + word % 0x100_0000_0000,
    }
}
