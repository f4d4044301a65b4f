// The first free sector, by the map alone.
ghost use Rattle.std.specs.Prelude.{◌≡◌};
ghost use Rattle.map.specs.Finding.{first_free, found_as};

use crate::sectors::BYTES;
use refusals::Refusal;

// The first sector whose bit is clear, none where every sector is in use. Refused for a map that is not 64 bytes. A place below 64 and a bit below 8 the
// casts keep; `try_from` would bring a refusal that cannot come.
#[tactic(auto, unfolding(crate::specs::Finding::first_free))]
pub fn first_free(map: &[u8]) -> Result<Option<u16>, Refusal>
    ensures { found_as result ≡ first_free map.now }
{
    if map.len() != BYTES {
        return Err(Refusal::MapLength);
    }
    let Some(at) = map.iter().position(|byte| *byte != 0xff) else {
        return Ok(None);
    };
    Ok(Some(at as u16 * 8 + map[at].trailing_ones() as u16))
}
