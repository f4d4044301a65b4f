// One sector entered in a map, and the map built.
ghost use Rattle.std.specs.Prelude.{◌≡◌, ◌%◌, ◌<◌, eqb, cond, length};
ghost use Rattle.refusals.specs.Refusals.{status_of};
ghost use Rattle.map.specs.Sectors.{with_bit, entered, with_map, build_refusal, built_of};

use chip::chip::Chip;
use gate::is_free;
use refusals::Refusal;

// How many bytes a map has.
pub const BYTES: usize = 64;

// The byte of sector k, with the bit of this sector set or cleared.
#[tactic(auto, using(crate::proofs::BitLaws::with_moved))]
fn with_bit(byte: u8, k: usize, on: bool) -> u8
    ensures { result ≡ with_bit byte (k % 8) on }
{
    let bit = 1 << (k % 8);
    if on { byte | bit } else { byte & !bit }
}

// What a call with a map is answered, given what it is without one: a wrong map is refused after a wrong array, and before all else.
#[tactic(auto, unfolding(crate::specs::Sectors::with_map))]
pub(crate) fn with_map(plain: Result<(), Refusal>, map: &[u8]) -> Result<(), Refusal>
    ensures { status_of result ≡ with_map (status_of plain) map.now }
{
    if matches!(plain, Err(Refusal::ArrayLength)) || map.len() == BYTES {
        return plain;
    }
    Err(Refusal::MapLength)
}

// Sets the bit of sector k from the array.
#[tactic(auto, unfolding(crate::specs::Sectors::entered))]
pub(crate) fn enter(map: &mut [u8], array: &[u8], k: usize)
    requires { (k < 512) × (length map.old ≡ 64) × (length array.now ≡ 16384) }
    ensures { map.new ≡ entered k array.now map.old }
{
    let start = k * Chip::SECTOR;
    let end = start + Chip::SECTOR;
    let free = is_free(&array[start..end]);
    let at = k / 8;
    map[at] = with_bit(map[at], k, !free);
}

// Refuses an array that is not 16,384 bytes; here no chip goes with it, as with the same test in `Chip::check`.
fn check_array(array: &[u8]) -> Result<(), Refusal>
    ensures { status_of result ≡ cond (eqb (length array.now) 16384) 0 1 }
{
    if array.len() == Chip::BYTES {
        return Ok(());
    }
    Err(Refusal::ArrayLength)
}

// Builds the map of an array, whatever the lent bytes were. Refused for the array's length or the map's, it writes nothing.
#[tactic(auto, using(crate::proofs::MapLaws::build_fits, crate::proofs::MapLaws::entered_to_length), unfolding(crate::specs::Sectors::entered_to, crate::specs::Sectors::built_of, crate::specs::Sectors::build_refusal, trace::specs::Trace::unless))]
pub fn build(array: &[u8], map: &mut [u8]) -> Result<(), Refusal>
    ensures { (status_of result ≡ build_refusal array.now map.old) × (map.new ≡ built_of array.now map.old) }
{
    with_map(check_array(array), &map[..])?;
    for k in 0..Chip::SECTORS {
        enter(map, array, k);
    }
    Ok(())
}
