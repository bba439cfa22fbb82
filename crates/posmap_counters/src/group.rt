ghost use Rattle.std.specs.Prelude.{◌≡◌, ◌-◌, ◌^◌, ◌<◌, ◌≤◌, ◌↔◌};
ghost use Rattle.std.specs.Prelude.{slice_index, replicate, take, length};
ghost use Rattle.std.specs.Int.Digits.{number_from_digits};
ghost use Rattle.posmap_counters.specs.Digits.{digits};
ghost use Rattle.posmap_counters.specs.Group.{AreOwn, IsGroup, line_of, line_in, group_of, own_of, group_in};
ghost use Rattle.posmap_counters.specs.Group.{child_counter, stepped_group, moved_group, asked_group};

use asc_base::{Counter, Line};
use std::marker::Model;

/// The counters of the blocks under one position-map block.
#[derive(Clone, Copy, Debug, PartialEq, Eq)]
pub struct Group {
    /// The count that all of them share.
    pub group: u64,
    /// The own count of each child, from child 0 on: below 16,384.
    pub own: [u16; 32],
}

impl Model for Group {
    ghost use Rattle.posmap_counters.specs.Group.{GroupState, AreOwn};

    ghost Value = { GroupState };

    ghost view = { λ g. record { group = g.group; own = g.own } };

    ghost invariant = { λ g. AreOwn g.own };

    ghost inverse = { λ g. record { group = g.group; own = g.own } };
}

/// What an access makes of a child's counter.
#[derive(Clone, Copy, Debug, PartialEq, Eq)]
pub enum Step {
    /// It is one more.
    Stepped,
    /// It has no room for one more: all children have to move to the next group counter first.
    MustMove,
}

impl Group {
    /// The counters in a line. Every line has some.
    pub fn read(line: &Line) -> Group
        ensures group { result ≡ group_in line.now.0 }
        ensures whole { IsGroup result }
    {
        Group {
            group: group_count(&line.0),
            own: own_counts(&line.0),
        }
    }

    /// The line that has these counters: the group counter in 8 bytes, highest byte first, then the own counts in 14
    /// bits each, child 0 first and highest bit first, without gaps.
    pub fn write(&self) -> Line
        ensures line { result.0 ≡ line_in self.now }
        ensures whole { IsGroup self.now }
    {
        Line(line_bytes(self.group, &self.own))
    }

    /// The counter of a child, 0 to 31.
    pub fn counter(&self, child: u32) -> Counter
        requires { child < 32 }
        ensures { result ≡ child_counter self.now child }
    {
        Counter {
            group: self.group,
            own: self.own[child as usize],
        }
    }

    /// Raises the own count of a child, 0 to 31, by one, where own counts have `ic` bits, 2 to 14. Where it stands at
    /// the greatest number of so many bits, or above, it stays, and so do all others.
    pub fn step(&mut self, child: u32, ic: u32) -> Step
        requires child { child < 32 }
        requires ic_from { 2 ≤ ic }
        requires ic_to { ic ≤ 14 }
        ensures must_move { (result ≡ Step.MustMove) ↔ (2 ^ ic - 1 ≤ slice_index self.old.own child) }
        ensures group { self.new ≡ stepped_group ic self.old child }
    {
        let own = self.own[child as usize];
        if own >= (1 << ic) - 1 {
            return Step::MustMove;
        }
        self.own[child as usize] = own + 1;
        Step::Stepped
    }

    /// The counters after an access to a child, 0 to 31, that is asked for, where own counts have `ic` bits, 2 to 14:
    /// where a step answers `MustMove`, all children move first.
    pub fn asked(&self, child: u32, ic: u32) -> Group
        requires child { child < 32 }
        requires ic_from { 2 ≤ ic }
        requires ic_to { ic ≤ 14 }
        ensures { result ≡ asked_group ic self.now child }
    {
        let mut stepped = *self;
        if stepped.step(child, ic) == Step::Stepped {
            return stepped;
        }
        let mut moved = self.moved();
        moved.step(child, ic);
        moved
    }

    /// The counters after a group move: the next group counter, after the greatest 0, and own counts of 0.
    pub fn moved(&self) -> Group
        ensures { result ≡ moved_group self.now }
    {
        Group {
            group: self.group.wrapping_add(1),
            own: fresh_own(),
        }
    }
}

// One more than the greatest own count.
const OWN_END: u64 = 1 << 14;

// Four own counts of 14 bits as seven bytes.
fn packed(four: &[u16]) -> [u8; 7]
    requires four { length four.now ≡ 4 }
    requires own { AreOwn four.now }
    ensures { result ≡ digits 256 7 (number_from_digits 16384 four.now) }
{
    let high = four[0] as u64 * OWN_END + four[1] as u64;
    let low = four[2] as u64 * OWN_END + four[3] as u64;
    let bytes = (high * OWN_END * OWN_END + low).to_be_bytes();
    [
        bytes[1], bytes[2], bytes[3], bytes[4], bytes[5], bytes[6], bytes[7],
    ]
}

// Seven bytes as four own counts of 14 bits.
fn four_of(seven: &[u8]) -> [u16; 4]
    requires { length seven.now ≡ 7 }
    ensures { result ≡ digits 16384 4 (number_from_digits 256 seven.now) }
{
    let number = u64::from_be_bytes([
        0, seven[0], seven[1], seven[2], seven[3], seven[4], seven[5], seven[6],
    ]);
    [
        (number >> 42) as u16,
        ((number >> 28) % OWN_END) as u16,
        ((number >> 14) % OWN_END) as u16,
        (number % OWN_END) as u16,
    ]
}

// A line with this group counter, and with own counts of 0.
fn fresh_line(group: u64) -> [u8; 64]
    ensures long { length result ≡ 64 }
    ensures front { take 8 result ≡ digits 256 8 group }
{
    let mut line = [0; 64];
    line[..8].copy_from_slice(&group.to_be_bytes());
    line
}

// The line of a group counter and own counts.
fn line_bytes(group: u64, own: &[u16; 32]) -> [u8; 64]
    requires { AreOwn own.now }
    ensures { result ≡ line_of group own.now }
{
    let mut line = fresh_line(group);
    for piece in 0..8 {
        let at = 8 + 7 * piece;
        let seven = packed(&own[4 * piece..4 * piece + 4]);
        line[at..at + 7].copy_from_slice(&seven);
    }
    line
}

// Own counts of 0.
fn fresh_own() -> [u16; 32]
    ensures own { result ≡ replicate 32 0 }
    ensures in_range { AreOwn result }
{
    [0; 32]
}

// The group counter in a line.
fn group_count(line: &[u8; 64]) -> u64
    ensures { result ≡ group_of line.now }
{
    u64::from_be_bytes([
        line[0], line[1], line[2], line[3], line[4], line[5], line[6], line[7],
    ])
}

// The own counts in a line.
fn own_counts(line: &[u8; 64]) -> [u16; 32]
    ensures own { result ≡ own_of line.now }
    ensures in_range { AreOwn result }
{
    let mut own = fresh_own();
    for piece in 0..8 {
        let at = 8 + 7 * piece;
        let four = four_of(&line[at..at + 7]);
        own[4 * piece..4 * piece + 4].copy_from_slice(&four);
    }
    own
}
