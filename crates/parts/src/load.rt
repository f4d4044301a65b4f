// The load: what comes in for a sector.
ghost use Rattle.std.specs.Prelude.{◌≡◌};
ghost use Rattle.parts.specs.Load.{no_load, full_of, loaded};

// 32 bytes, which places are loaded, and how many bytes came, where 33 means 33 or more.
#[derive(Clone, Copy)]
pub struct Load {
    // by place of the sector; 0 where none is loaded
    pub bytes: [u8; 32],
    // which of the 32 places are loaded; a row of its own, as in a `Wait`
    pub places: [bool; 32],
    // how many bytes came, 0-33
    pub count: u8,
}

impl Load {
    // The empty load: zeros, no place, count 0.
    pub fn none() -> Load
        ensures { result ≡ no_load }
    {
        Load {
            bytes: [0; 32],
            places: [false; 32],
            count: 0,
        }
    }

    // A load of 32 times the same byte.
    pub fn full(byte: u8) -> Load
        ensures { result ≡ full_of byte }
    {
        Load {
            bytes: [byte; 32],
            places: [true; 32],
            count: 32,
        }
    }

    // Takes one byte more, at the place of the low five bits of `at`: a remainder, which a cast keeps as `From` would.
    #[tactic(auto, unfolding(crate::specs::Load::loaded))]
    pub fn add(&mut self, at: u16, byte: u8)
        ensures { self.new ≡ loaded self.old at byte }
    {
        let place = (at % 32) as usize;
        self.bytes[place] = byte;
        self.places[place] = true;
        self.count = if self.count < 33 { self.count + 1 } else { 33 };
    }
}
