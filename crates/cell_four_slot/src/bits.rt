//! The bits of a four-slot cell, as its words have them: 0 or 1. What a bit selects is found by
//! its number and not by a branch.
ghost use Rattle.std.specs.Prelude.{◌≡◌, ◌+◌, Bool, not};
ghost use Rattle.four_slot_core.specs.declared.state.Sides.{Sides};
ghost use Rattle.four_slot_core.specs.Events.{side, with_side, slot_with, bit_number, slot_number};
ghost use Rattle.cell_four_slot.specs.Steps.{bit_words};

/// The other bit.
#[inline]
pub fn other_bit(bit: u64) -> u64
    ensures { (b : Bool) → bit ≡ bit_number b → result ≡ bit_number (not b) }
{
    bit ^ 1
}

/// The bit of a pair.
#[inline]
pub fn bit_of(bits: &[u64; 2], pair: u64) -> u64
    requires { (s : Sides Bool) × (p : Bool) × (bit_words s ≡ bits.now) × (pair ≡ bit_number p) }
    ensures { (s : Sides Bool) (p : Bool) → bit_words s ≡ bits.now → pair ≡ bit_number p →
        result ≡ bit_number (side s p) }
{
    bits[pair as usize]
}

#[inline]
pub fn set_bit(bits: &mut [u64; 2], pair: u64, index: u64)
    requires { (s : Sides Bool) × (p : Bool) × (bit_words s ≡ bits.old) × (pair ≡ bit_number p) }
    ensures { (s : Sides Bool) (p i : Bool) → bit_words s ≡ bits.old → pair ≡ bit_number p → index ≡ bit_number i →
        bit_words (with_side s p i) ≡ bits.new }
{
    bits[pair as usize] = index;
}

/// The number of a slot.
#[inline]
pub fn slot_of(pair: u64, index: u64) -> usize
    requires { (p : Bool) × (i : Bool) × (pair ≡ bit_number p) × (index ≡ bit_number i) }
    ensures { (p i : Bool) → pair ≡ bit_number p → index ≡ bit_number i → result ≡ slot_number (slot_with p i) }
{
    2 * pair as usize + index as usize
}

/// The place of the word of a pair's bit.
#[inline]
pub fn word_of(pair: u64) -> usize
    requires { (p : Bool) × (pair ≡ bit_number p) }
    ensures { (p : Bool) → pair ≡ bit_number p → result ≡ 10 + bit_number p }
{
    10 + pair as usize
}
