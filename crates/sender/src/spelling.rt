// Messages as event bytes with the protect pin low, written into a lent buffer one behind the other.
ghost use Rattle.std.specs.Prelude.{◌≡◌, true, false, ◌+◌, ◌*◌, ◌≤◌, length, set};
ghost use Rattle.messages.specs.Messages.{begin, end, byte_sent, bytes_sent, message};
ghost use Rattle.trace.specs.Bytes.{sample_byte};
ghost use Rattle.sender.specs.Sending.{low, pel_message, lead};
ghost use Rattle.sender.specs.Writing.{Puts};

use parts::phase::bit_of;
use parts::register::has_register;
use trace::sample_byte;

// A start, from wires that are let go.
const START: [u8; 2] = [3, 1];

// A stop after a ninth clock.
const STOP: [u8; 3] = [0, 1, 3];

// One clock into two places: SCL low, then high, with one SDA in both. The clocks of `vectors` are methods of its tape, which may run full, and have any pin.
fn put_clock(events: &mut [u8], at: usize, sda: bool)
    requires { at + 2 ≤ length events.old }
    ensures { events.new ≡ set (set events.old at (sample_byte false sda false)) (at + 1) (sample_byte true sda false) }
{
    events[at] = sample_byte(false, sda, false);
    events[at + 1] = sample_byte(true, sda, false);
}

// A byte that is sent, into its eighteen places: its bits, bit 7 first, counted up as its definition counts them, and a ninth clock with SDA let go. It
// takes the places and no writer: a writer has its end in memory, and to move that on at each clock takes half as long again for a record.
fn put_byte(events: &mut [u8], byte: u8)
    requires { length events.old ≡ 18 }
    ensures { events.new ≡ low (byte_sent byte) }
{
    for k in 0..8 {
        put_clock(events, usize::from(k) * 2, bit_of(byte, 7 - k));
    }
    put_clock(events, 16, true);
}

// A buffer of events, and how many are written. It is not one with the page of `report`: a type takes methods in its own crate alone, and what the two
// would share is `put`.
#[derive(Drop)]
pub(crate) struct Writer<'a> {
    pub(crate) events: &'a mut [u8],
    pub(crate) end: usize,
}

impl Writer<'_> {
    // Writes event bytes. Where it is called their number is known, and the copy is one to three stores: as a function of its own it would be a call of
    // `memmove`, which firmware would have to bring.
    #[inline(always)]
    pub(crate) fn put(&mut self, bytes: &[u8])
        requires { self.old.end + length bytes.now ≤ length self.old.events.now }
        ensures { Puts self.old self.new bytes.now }
    {
        let start = self.end;
        self.end += bytes.len();
        let events = &mut *self.events;
        events[start..self.end].copy_from_slice(bytes);
    }

    // A byte that is sent.
    fn byte(&mut self, byte: u8)
        requires { self.old.end + 18 ≤ length self.old.events.now }
        ensures { Puts self.old self.new (low (byte_sent byte)) }
    {
        let start = self.end;
        self.end += 18;
        let events = &mut *self.events;
        put_byte(&mut events[start..self.end], byte);
    }

    // Bytes that are sent one after the other.
    fn bytes(&mut self, bytes: &[u8])
        requires { self.old.end + 18 * length bytes.now ≤ length self.old.events.now }
        ensures { Puts self.old self.new (low (bytes_sent bytes.now)) }
    {
        for byte in bytes {
            self.byte(*byte);
        }
    }

    // A message: start, slave byte with write, the address's high byte and low byte, data bytes, stop.
    pub(crate) fn message(&mut self, select: u8, address: u16, bytes: &[u8])
        requires { (select ≤ 7) × (self.old.end + 59 + 18 * length bytes.now ≤ length self.old.events.now) }
        ensures { Puts self.old self.new (low (message select address bytes.now)) }
    {
        let [high, low] = address.to_be_bytes();
        self.put(&START);
        self.bytes(&[0xa0 + select * 2, high, low]);
        self.bytes(bytes);
        self.put(&STOP);
    }

    // The message that sets PEL, where the part has one.
    pub(crate) fn lead(&mut self, part: u8, select: u8)
        requires { (select ≤ 7) × (self.old.end + lead part ≤ length self.old.events.now) }
        ensures { Puts self.old self.new (low (pel_message part select)) }
    {
        if has_register(part) {
            self.message(select, 0xffff, &[0x02]);
        }
    }
}
