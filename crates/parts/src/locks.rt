// What is locked: where the lock of BL begins, and the one question that a stop asks, for every part.
ghost use Rattle.std.specs.Prelude.{◌≡◌};
ghost use Rattle.parts.specs.Locks.{first_locked, locked};

use crate::register::has_register;

// The first locked address of a part at this BL, or 4000h: a formula in place of the definition's table.
#[tactic(auto, using(crate::proofs::LockLaws::first_past_part, crate::proofs::LockLaws::first_past_bl, crate::proofs::LockLaws::doubled_fits, crate::proofs::LockLaws::first_computed))]
fn first_locked(part: u8, bl: u8) -> u16
    ensures { result ≡ first_locked part bl }
{
    if 1 < part {
        return 0x4000;
    }
    if 3 < bl {
        return 0x4000;
    }
    // BL 1, 2 and 3 lock the last 1000h, 2000h and 4000h bytes: 800h doubled BL times. The mask drops the 800h of BL 0.
    0x4000 - ((0x800 << bl) & 0x7000)
}

// Whether an address is locked with the protect pin at this level: by BL, or by the pin where there is no register.
pub fn is_locked(part: u8, bl: u8, pin: bool, address: u16) -> bool
    ensures { result ≡ locked part bl pin address }
{
    if has_register(part) {
        return first_locked(part, bl) <= address;
    }
    pin && 0x3000 <= address
}
