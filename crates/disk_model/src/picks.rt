//! Which sectors of a block land.

ghost use Rattle.std.specs.Prelude.{◌≡◌, ℕ, ◌+◌, ◌*◌, ◌/◌, ◌%◌, ◌<◌, ◌≤◌, false, IsTrue, IsFalse, length, if◌then◌else◌};
ghost use Rattle.disk_model.specs.File.{sector_of, has_bit};
ghost use Rattle.disk_model.specs.Picks.{is_picked, HasPick, HasBitBelow};

use crate::run::SECTOR;

/// Which sectors of some bytes land.
#[derive(Clone, Copy)]
pub(crate) enum Picks {
    /// All of them.
    All,
    /// Those whose bit is set.
    Masked(u128),
}

impl Picks {
    /// The picks of what comes behind so many sectors.
    pub(crate) fn skip(self, count: usize) -> Picks
        requires { count < 128 }
        ensures { (i : ℕ) → is_picked result i ≡ is_picked self (count + i) }
    {
        match self {
            Picks::All => Picks::All,
            Picks::Masked(mask) => Picks::Masked(mask >> count),
        }
    }

    /// Whether one of so many sectors is picked.
    pub(crate) fn has_any(self, count: usize) -> bool
        requires least { 0 < count }
        requires most { count ≤ 128 }
        ensures some { IsTrue result → HasPick self count }
        ensures none { IsFalse result → (i : ℕ) → i < count → is_picked self i ≡ false }
    {
        match self {
            Picks::All => true,
            Picks::Masked(mask) => has_bit_below(mask, count),
        }
    }

    /// Copies the picked sectors.
    pub(crate) fn copy(self, from: &[u8], to: &mut [u8])
        requires same { length to.old ≡ length from.now }
        requires whole { length from.now % 512 ≡ 0 }
        requires few { length from.now / 512 ≤ 128 }
        ensures { (i : ℕ) → i < length from.now / 512 → sector_of to.new i
            ≡ (if is_picked self i then sector_of from.now i else sector_of to.old i) }
    {
        match self {
            Picks::All => to.copy_from_slice(from),
            Picks::Masked(mask) => copy_masked(from, to, mask),
        }
    }
}

fn has_bit_below(mask: u128, count: usize) -> bool
    requires { count ≤ 128 }
    ensures some { IsTrue result → HasBitBelow mask count }
    ensures none { IsFalse result → (i : ℕ) → i < count → has_bit mask i ≡ false }
{
    for i in 0..count {
        if (mask >> i) & 1 == 1 {
            return true;
        }
    }
    false
}

fn copy_masked(from: &[u8], to: &mut [u8], mask: u128)
    requires same { length to.old ≡ length from.now }
    requires whole { length from.now % 512 ≡ 0 }
    requires few { length from.now / 512 ≤ 128 }
    ensures { (i : ℕ) → i < length from.now / 512 → sector_of to.new i
        ≡ (if has_bit mask i then sector_of from.now i else sector_of to.old i) }
{
    for i in 0..from.len() / SECTOR {
        if (mask >> i) & 1 == 1 {
            let start = i * SECTOR;
            to[start..start + SECTOR].copy_from_slice(&from[start..start + SECTOR]);
        }
    }
}
