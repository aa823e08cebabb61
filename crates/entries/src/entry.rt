// What stands in an activity's 208 bytes.
ghost use Rattle.std.specs.Prelude.{◌≡◌, ◌<◌, true, length};
ghost use Rattle.rules.specs.State.{frame, hold};
ghost use Rattle.encoding.specs.Bytes.{byte_at, all_zero};
ghost use Rattle.encoding.specs.Decode.{activity_at, frame_encodes, hold_encodes, status_passes};
ghost use Rattle.entries.specs.Entries.{frame_bytes, hold_bytes};

use encoding::activities::{status_of, status_passes};
use encoding::holds::registration_of;
use encoding::part::Part;
use parts::empty::{no_frame, no_hold};
use rules::state::{Frame, Hold, Status};

// An activity's bytes.
#[derive(Clone, Copy)]
pub struct Entry<'a> {
    pub bytes: &'a [u8],
    ghost sized: { length bytes.now ≡ 208 },
}

impl<'a> Entry<'a> {
    // Body d of the stack.
    pub fn frame(&self, d: usize) -> Frame
        ensures { d < 16 → result ≡ frame (activity_at self.now.bytes.now) d }
    {
        if 16 <= d {
            return no_frame();
        }
        let at = 80 + 8 * d;
        Frame::at(&self.bytes[at..at + 8])
    }

    // Whether its reserved bytes are 0. (One function for bodies and clock names would take a place and a kind, and be longer than both.)
    pub fn frame_whole(&self, d: usize) -> bool
        ensures { d < 16 → result ≡ frame_encodes (frame_bytes self.now.bytes.now d) }
    {
        if 16 <= d {
            return false;
        }
        let at = 80 + 8 * d;
        Frame::encodes(&self.bytes[at..at + 8])
    }

    // Clock name k, where its bytes encode one.
    pub fn hold(&self, k: usize) -> Hold
        ensures { k < 8 → hold_encodes (hold_bytes self.now.bytes.now k) ≡ true → result ≡ hold (activity_at self.now.bytes.now) k }
    {
        if 8 <= k {
            return no_hold();
        }
        let at = 16 + 8 * k;
        Hold {
            phase: u16::at(&self.bytes[at..at + 2]),
            clock: self.bytes[at + 4],
            registration: registration_of(self.bytes[at + 5]),
        }
    }

    // Whether its bytes encode one.
    pub fn hold_whole(&self, k: usize) -> bool
        ensures { k < 8 → result ≡ hold_encodes (hold_bytes self.now.bytes.now k) }
    {
        if 8 <= k {
            return false;
        }
        let at = 16 + 8 * k;
        Hold::encodes(&self.bytes[at..at + 8])
    }

    // Whether they are all 0, as those of a free name are.
    pub fn hold_zero(&self, k: usize) -> bool
        ensures { k < 8 → result ≡ all_zero (hold_bytes self.now.bytes.now k) }
    {
        if 8 <= k {
            return false;
        }
        let low = 16 + 8 * k;
        let high = low + 4;
        u32::at(&self.bytes[low..low + 4]) == 0 && u32::at(&self.bytes[high..high + 4]) == 0
    }

    // The standing.
    pub fn status(&self) -> Status
        ensures { result ≡ (activity_at self.now.bytes.now).status }
    {
        status_of(self.bytes[4], self.bytes[5])
    }

    // Whether its two bytes encode one.
    pub fn status_whole(&self) -> bool
        ensures { result ≡ status_passes (byte_at self.now.bytes.now 4) (byte_at self.now.bytes.now 5) }
    {
        status_passes(self.bytes[4], self.bytes[5])
    }
}
