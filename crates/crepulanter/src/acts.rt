// An act on a chip that C lends as bytes.
ghost use Rattle.std.specs.Prelude.{◌≡◌, Ok, Err};
ghost use Rattle.crepulanter.specs.Calls.{Acts};

use chip::chip::Chip;
use chip_bytes::{at, pack};
use refusals::Refusal;

// What `act` answers on the chip that was loaded: the bytes become those of the chip that it leaves, or stay where it refuses. Where no chip was
// loaded, `act` is not called. It is an `FnMut` that is lent, though it is called once: what an `FnOnce` leaves in its captures stays unproved.
pub(crate) fn with_chip<T, F: FnMut(&mut Chip) -> Result<T, Refusal>>(
    state: &mut [u8; at::SIZE],
    loaded: Result<Chip, Refusal>,
    act: &mut F,
) -> Result<T, Refusal>
    requires { F.IsAlwaysCallable act.old }
    ensures refused { (refusal : _) → loaded ≡ Err refusal → (result ≡ Err refusal) × (state.new ≡ state.old) × (act.new ≡ act.old) }
    ensures acted { (chip : _) → loaded ≡ Ok chip → Acts F.step act.old chip state.old result state.new act.new }
{
    let mut chip = loaded?;
    let answer = act(&mut chip)?;
    *state = pack(&chip);
    Ok(answer)
}
