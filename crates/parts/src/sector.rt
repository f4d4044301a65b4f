// Addresses and sectors: 16,384 addresses in 512 sectors of 32.
ghost use Rattle.std.specs.Prelude.{◌≡◌};
ghost use Rattle.parts.specs.Sector.{sector_start, next_place, next_address};

// The first address of the sector of an address.
pub fn sector_start(address: u16) -> u16
    ensures { result ≡ sector_start address }
{
    address / 32 * 32
}

// The next place of the same sector, the first after the last.
pub fn next_place(address: u16) -> u16
    ensures { result ≡ next_place address }
{
    address / 32 * 32 + (address % 32 + 1) % 32
}

// The next address, 0000h after 3FFFh.
pub fn next_address(address: u16) -> u16
    ensures { result ≡ next_address address }
{
    (address % 0x4000 + 1) % 0x4000
}
