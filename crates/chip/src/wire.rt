// What comes over the two wires: samples, the other events, and the edge that a sample makes.
ghost use Rattle.std.specs.Prelude.{◌≡◌};
ghost use Rattle.chip.specs.Wire.{line_of, edge_of};

// The clock, the master's data where false pulls and true lets go, and the protect pin.
#[derive(Clone, Copy)]
pub struct Sample {
    pub scl: bool,
    pub sda: bool,
    pub pin: bool,
}

#[derive(Clone, Copy)]
pub enum Event {
    Sample(Sample),
    ProgramDone,
    // with a choice for each place of a cycle that it cuts off, bit k for place k
    PowerUp { choices: u32 },
}

// What a sample is, judged against the last levels.
#[derive(Clone, Copy)]
pub enum Edge {
    Quiet,
    Start,
    Stop,
    Rise,
    Fall,
}

// The line: high where the master lets go and the chip does not pull.
pub(crate) fn line_of(pulls: bool, sda: bool) -> bool
    ensures { result ≡ line_of pulls sda }
{
    !pulls && sda
}

// The edge between the last levels and these. Two wires, before and now: a match takes the four together, and a struct would be taken apart for it.
#[tactic(auto, unfolding(crate::specs::Wire::edge_of))]
pub(crate) fn edge_of(scl_before: bool, scl: bool, line_before: bool, line: bool) -> Edge
    ensures { result ≡ edge_of scl_before scl line_before line }
{
    match (scl_before, scl, line_before, line) {
        (true, true, true, false) => Edge::Start,
        (true, true, false, true) => Edge::Stop,
        (false, true, ..) => Edge::Rise,
        (true, false, ..) => Edge::Fall,
        _ => Edge::Quiet,
    }
}
