// Freeing a hung bus: clock pulses with the data line let go until the line is high, then a start.
#![tactic(auto)]

ghost use Rattle.std.specs.Prelude.{◌≡◌, true, false};
ghost use Rattle.chip.specs.Event.{refusal};
ghost use Rattle.chip.specs.Wire.{sample};
ghost use Rattle.recovery.specs.Recovery.{pulse_bytes, start_bytes, pulse, freed, recovered_as, recovery_answer, recovery_array};
ghost use Rattle.chip.specs.Run.{world, step};

use chip::chip::Chip;
use refusals::Refusal;
use trace::{run, sample_byte};

// The event bytes of one pulse: the clock low, then high, the data line let go.
fn pulse_bytes(pin: bool) -> [u8; 2]
    ensures { result ≡ pulse_bytes pin }
{
    [sample_byte(false, true, pin), sample_byte(true, true, pin)]
}

// The event byte of the start: the clock high, the data line pulled.
fn start_bytes(pin: bool) -> [u8; 1]
    ensures { result ≡ start_bytes pin }
{
    [sample_byte(true, false, pin)]
}

// One pulse. That chip and array are not refused is asked of them as they are, here and in the two functions below: a struct that says it would be taken
// apart again for each run.
fn pulsed_once(chip: &mut Chip, array: &mut [u8], pin: bool)
    requires { refusal chip.old array.old ≡ 0 }
    ensures { world chip.new array.new ≡ pulse pin (world chip.old array.old) }
{
    run(chip, array, &pulse_bytes(pin), &mut [0; 2]).unwrap()
}

// The start.
fn start(chip: &mut Chip, array: &mut [u8], pin: bool)
    requires { refusal chip.old array.old ≡ 0 }
    ensures { world chip.new array.new ≡ step (sample true false pin) (world chip.old array.old) }
{
    run(chip, array, &start_bytes(pin), &mut [0; 1]).unwrap()
}

// Pulses until the line is high, at most ten. The loop yields the number of the last by `break`, the form that the rules of this project name for it.
fn pulsed_free(chip: &mut Chip, array: &mut [u8], pin: bool) -> u8
    requires { refusal chip.old array.old ≡ 0 }
    ensures { (world chip.new array.new ≡ (freed pin (world chip.old array.old)).world) × (result ≡ (freed pin (world chip.old array.old)).pulses) }
{
    let mut k: u8 = 1;
    loop {
        pulsed_once(chip, array, pin);
        if chip.line {
            break k;
        }
        if k == 10 {
            break 10;
        }
        k += 1;
    }
}

// Frees the bus: pulses until the line is high, then a start, and answers how many pulses. Refused as `Chip::check` has it, chip and array stay as they were.
#[tactic(auto, using(crate::proofs::PulseLaws::freed_taken), unfolding(crate::specs::Recovery::recovered, crate::specs::Recovery::recovery_answer, crate::specs::Recovery::recovery_array))]
pub fn recover(chip: &mut Chip, array: &mut [u8], pin: bool) -> Result<u8, Refusal>
    ensures value { recovered_as result chip.new ≡ recovery_answer pin chip.old array.old }
    ensures array_after { array.new ≡ recovery_array pin chip.old array.old }
{
    chip.check(&array[..])?;
    let pulses = pulsed_free(chip, array, pin);
    start(chip, array, pin);
    Ok(pulses)
}
